ghost use Rattle.std.specs.Prelude.{SomeIff};
ghost use Rattle.cell_base.specs.MicroCells.{IsMicro, least_micro, micro_of, micro_decimals, most_micro};
ghost use Rattle.cell_base.specs.Inner.Laws.{micro_reads, whole_eq, whole_order};

use crate::cell::Cell;
use crate::fault::CellFault;
use fixed_coord::{scaled, write_scaled};
use std::alloc::AllocError;
use std::marker::Model;

// The most units that a Micro has.
const MOST: i64 = 1_000_000_000_000_000_000;

/// A number of six decimals, from -10^12 to 10^12. Contracts see its number of units of 10^-6.
#[derive(Clone, Copy, Debug, PartialEq, Eq, PartialOrd, Ord)]
pub struct Micro {
    units: i64,
}

impl Model for Micro {
    ghost use Rattle.std.specs.Prelude.{ℤ};
    ghost use Rattle.cell_base.specs.MicroCells.{IsMicro};

    ghost Value = { ℤ };

    ghost view = { λ m. m.units };

    ghost invariant = { λ m. IsMicro m.units };

    ghost inverse = { λ z. record { units = z } };
}

impl Micro {
    /// The Micro of so many units, and none exactly where no Micro has them.
    pub fn from_units(n: i64) -> Option<Micro>
        ensures { SomeIff result (IsMicro n) n }
    {
        if n < -MOST || n > MOST {
            None
        } else {
            Some(Micro { units: n })
        }
    }
}

impl Cell for Micro {
    const PLACES: u32 = 6;

    ghost PLACES = { micro_decimals };

    ghost units_of = { λ v. v };

    ghost least = { least_micro };

    ghost greatest = { most_micro };

    ghost read_of = { micro_of };

    ghost same_units = { λ a b same. same };

    ghost eq_units = { whole_eq };

    ghost order_units = { whole_order };

    ghost reads_written = { micro_reads };

    fn lowest() -> i64 {
        -MOST
    }

    fn highest() -> i64 {
        MOST
    }

    fn units(self) -> i64 {
        self.units
    }

    fn clamp_from(v: i128) -> Micro {
        let units = num_traits::clamp(v, i128::from(-MOST), i128::from(MOST));
        Micro {
            units: units as i64,
        }
    }

    fn read(text: &[u8]) -> Result<Micro, CellFault> {
        let units = scaled(text, <Micro as Cell>::PLACES)?;
        Ok(<Micro as Cell>::clamp_from(units))
    }

    fn write(self, out: &mut Vec<u8>) -> Result<(), AllocError> {
        write_scaled(i128::from(self.units), <Micro as Cell>::PLACES, out)
    }
}
