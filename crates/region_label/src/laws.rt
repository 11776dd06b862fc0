// What holds of labellings, whatever code finds them.
ghost use Rattle.std.specs.Prelude.{◌≡◌, Bool};
ghost use Rattle.std.specs.Bool.{Decides};
ghost use Rattle.cell_base.specs.Raster.{AreAligned, Raster};
ghost use Rattle.region_label.specs.Labelling.{IsLabelling, RegionTable};

/// The labelling of a grid under a connectivity is one: two tables of its components are the same.
pub fn labelling_is_one<T>()
    ensures { (connectivity : Bool) (cells : Raster T) (valid : Raster Bool) (a b : RegionTable)
        → IsLabelling connectivity cells valid a → IsLabelling connectivity cells valid b → a ≡ b }
{}

/// Each grid has a labelling under each connectivity, where some test tells the values of its cells apart.
pub fn each_grid_has_a_labelling<T>()
    ensures { (same : T → T → Bool) → ((v w : T) → Decides (same v w) (v ≡ w))
        → (connectivity : Bool) (cells : Raster T) (valid : Raster Bool) → AreAligned cells valid
        → (regions : RegionTable) × IsLabelling connectivity cells valid regions }
{}
