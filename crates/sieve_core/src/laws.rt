// What holds of chains and of sieved grids, whatever code finds them.
ghost use Rattle.std.specs.Prelude.{◌≡◌, ◌≤◌, ℕ, Bool};
ghost use Rattle.cell_base.specs.Raster.{Raster};
ghost use Rattle.region_label.specs.Labelling.{RegionTable};
ghost use Rattle.sieve_core.specs.Sieve.{HasAtMostOne, IsLargest, IsSieved, TakesFrom};

/// A component has at most one largest neighbour, and takes the value of at most one component.
pub fn chain_has_one_end()
    ensures largest { (connectivity : Bool) (regions : RegionTable) (k : ℕ)
        → HasAtMostOne (IsLargest connectivity regions k) }
    ensures taken { (connectivity : Bool) (regions : RegionTable) (st k : ℕ)
        → HasAtMostOne (TakesFrom connectivity regions st k) }
{}

/// At a threshold of at most 1 the sieved grid is the grid: no component is smaller than one cell.
pub fn threshold_one_keeps_all<T>()
    ensures { (connectivity : Bool) (cells sieved : Raster T) (valid : Raster Bool) (st : ℕ)
        → st ≤ 1 → IsSieved connectivity cells valid st sieved → sieved ≡ cells }
{}

/// The sieved grid is one: two sieved grids of the same cells at the same threshold and connectivity are the same.
pub fn sieved_is_one<T>()
    ensures { (connectivity : Bool) (cells a b : Raster T) (valid : Raster Bool) (st : ℕ)
        → IsSieved connectivity cells valid st a → IsSieved connectivity cells valid st b → a ≡ b }
{}
