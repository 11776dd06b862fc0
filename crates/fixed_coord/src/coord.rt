// Coordinates: made, read and written.
ghost use Rattle.std.specs.Prelude.{◌≡◌, ◌++◌, OnErr, OnOk, SomeIff};
ghost use Rattle.fixed_coord.specs.Coordinate.{IsCoord, coord_of, coord_places};
ghost use Rattle.fixed_coord.specs.Shortest.{shortest};

use crate::fault::NumberFault;
use crate::limits::{COORD_PLACES, FARTHEST};
use crate::read::scaled;
use crate::write::write_scaled;
use std::alloc::AllocError;
use std::marker::Model;

/// A coordinate, from -40,000,000 to 40,000,000 in units of 10^-10. Contracts see its number of units.
#[derive(Clone, Copy, Debug, PartialEq, Eq, PartialOrd, Ord)]
pub struct Coord {
    units: i64,
}

impl Model for Coord {
    ghost use Rattle.std.specs.Prelude.{ℤ};
    ghost use Rattle.fixed_coord.specs.Coordinate.{IsCoord};

    ghost Value = { ℤ };

    ghost view = { λ c. c.units };

    ghost invariant = { λ c. IsCoord c.units };

    ghost inverse = { λ z. record { units = z } };
}

impl Coord {
    /// The coordinate of so many units, and none exactly where no coordinate has them.
    pub fn from_units(n: i64) -> Option<Coord>
        ensures { SomeIff result (IsCoord n) n }
    {
        if n < -FARTHEST || n > FARTHEST {
            None
        } else {
            Some(Coord { units: n })
        }
    }

    /// The coordinate of so many units, which a coordinate can have.
    pub fn of_units(n: i64) -> Coord
        requires { IsCoord n }
        ensures { result ≡ n }
    {
        Coord { units: n }
    }

    /// The number of units.
    pub fn units(self) -> i64
        ensures value { result ≡ self }
        ensures range { IsCoord self }
    {
        self.units
    }

    /// The coordinate that a number text stands for, rounded half away from zero at ten decimals. `NotNumber` where
    /// the text isn't a number text, then `OutOfRange` where no coordinate has the rounded number of units.
    pub fn read(text: &[u8]) -> Result<Coord, NumberFault>
        ensures { result ≡ coord_of text.now }
    {
        let units = scaled(text, COORD_PLACES)?;
        if units < i128::from(-FARTHEST) || units > i128::from(FARTHEST) {
            Err(NumberFault::OutOfRange)
        } else {
            Ok(Coord {
                units: units as i64,
            })
        }
    }

    /// Appends the shortest decimal text. A refusal leaves `out` as it was.
    pub fn write(self, out: &mut Vec<u8>) -> Result<(), AllocError>
        ensures ok { OnOk result (out.new.items ≡ out.old.items ++ shortest self coord_places) }
        ensures err { OnErr result (out.new.items ≡ out.old.items) }
    {
        write_scaled(i128::from(self.units), COORD_PLACES, out)
    }
}
