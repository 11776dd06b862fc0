ghost use Rattle.std.specs.Prelude.{◌≡◌};
ghost use Rattle.cell_base.specs.Faults.{fault_of_text};

use fixed_coord::NumberFault;

/// Why a text isn't read as a cell.
#[derive(Clone, Copy, Debug, PartialEq, Eq)]
pub enum CellFault {
    /// It isn't a number text.
    NotNumber,
    /// Its value isn't whole.
    NotWhole,
    /// The type has no such value.
    OutOfRange,
}

impl From<NumberFault> for CellFault {
    ghost from_gives = { λ fault cell. cell ≡ fault_of_text fault };

    fn from(fault: NumberFault) -> CellFault {
        match fault {
            NumberFault::NotNumber => CellFault::NotNumber,
            NumberFault::NotWhole => CellFault::NotWhole,
            NumberFault::OutOfRange => CellFault::OutOfRange,
        }
    }
}
