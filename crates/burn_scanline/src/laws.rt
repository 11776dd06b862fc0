// What holds of burned grids, whatever code burns them.
ghost use Rattle.std.specs.Prelude.{◌≡◌, ◌<◌, ◌++◌, ◌∷◌, [], ℤ, Bool, List, not};
ghost use Rattle.std.specs.List.{list_any};
ghost use Rattle.cell_base.specs.Raster.{Place, Raster};
ghost use Rattle.geo_transform.specs.declared.frame.Frame.{Frame};
ghost use Rattle.burn_scanline.specs.Burned.{BurnedFeature, Burns, Cover, HoldsInside, HoldsOutside};
ghost use Rattle.burn_scanline.specs.declared.burning.How.{How};

use cell_base::Cell;

/// One feature more: where a grid's cells hold what features leave that are burned in their order, and then the value of
/// another is burned on the cells that it covers, they hold what all of these leave.
pub fn burns_in_order<T: Cell>()
    ensures { (covers : Cover) (frame : Frame) (how : How) (initial : ℤ) (features : List BurnedFeature) (f : BurnedFeature) (value : T)
        (set : Place → Bool) (old new : Raster T)
        → HoldsInside T.units_of T.least T.greatest how covers frame initial features old
        → T.units_of value ≡ f.value
        → ((p : Place) → p.0 < frame.nrows → p.1 < frame.ncols → set p ≡ covers frame f.geometry p)
        → Burns T.units_of T.least T.greatest how value set old new
        → HoldsInside T.units_of T.least T.greatest how covers frame initial (features ++ f ∷ []) new }
{}

/// Only the outside: where a value is burned on the cells of a grid of one value that no feature covers, the cells hold
/// what burning outside leaves.
pub fn burns_outside<T: Cell>()
    ensures { (covers : Cover) (frame : Frame) (how : How) (initial : ℤ) (features : List BurnedFeature) (value : T)
        (set : Place → Bool) (old new : Raster T)
        → HoldsInside T.units_of T.least T.greatest how covers frame initial [] old
        → ((p : Place) → p.0 < frame.nrows → p.1 < frame.ncols
        → set p ≡ not (list_any (λ f. covers frame f.geometry p) features))
        → Burns T.units_of T.least T.greatest how value set old new
        → HoldsOutside T.units_of T.least T.greatest how covers frame initial (T.units_of value) features new }
{}
