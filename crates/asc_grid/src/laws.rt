// What is proved of the definitions.
ghost use Rattle.std.specs.Prelude.{◌≡◌, Ok};
ghost use Rattle.asc_grid.specs.Canonical.{canonical_text, spelled};
ghost use Rattle.asc_grid.specs.Grid.{grid_of};
ghost use Rattle.asc_grid.specs.Written.{IsGrid};
ghost use Rattle.asc_grid.specs.declared.grid.Asc.{Asc};

use cell_base::Cell;

/// The canonical text of a grid reads back as that grid, for every type of cells and every frame that `Frame::make`
/// accepts.
pub fn reads_what_is_written<T: Cell>()
    ensures { (asc : Asc T) → IsGrid T.units_of T.least T.greatest asc
        → grid_of T.read_of (canonical_text (spelled T.units_of T.PLACES) asc) ≡ Ok asc }
{
    // The ends of the type are whole numbers of 64 bits: a proof learns it from these calls.
    let _least = T::lowest();
    let _greatest = T::highest();
}
