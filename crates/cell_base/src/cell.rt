use crate::fault::CellFault;
use std::alloc::AllocError;

/// A type of cells: numbers of a fixed unit between two ends.
pub trait Cell: Copy + Eq + Ord {
    ghost use Rattle.std.specs.Prelude.{◌≡◌, ◌++◌, ◌↔◌, ◌≤ℤ◌, IsTrue, List, OnErr, OnOk, Ok, Result, ℕ, ℤ};
    ghost use Rattle.std.specs.Ordering.{int_cmp};
    ghost use Rattle.fixed_coord.specs.Shortest.{shortest};
    ghost use Rattle.cell_base.specs.Clamped.{clamped};
    ghost use Rattle.cell_base.specs.declared.fault.CellFault.{CellFault};

    /// How many decimals a value has: its unit is 10^-PLACES.
    const PLACES: u32;

    ghost PLACES: { ℕ };

    /// The number of units that a value stands for.
    ghost units_of: { Self → ℤ };

    ghost least: { ℤ };

    ghost greatest: { ℤ };

    /// What a text is read as.
    ghost read_of: { List ℕ → Result Self CellFault };

    /// The least number of units.
    fn lowest() -> i64
        ensures { result ≡ least };

    /// The greatest number of units.
    fn highest() -> i64
        ensures { result ≡ greatest };

    /// The number of units.
    fn units(self) -> i64
        ensures value { result ≡ units_of self }
        ensures low { least ≤ℤ result }
        ensures high { result ≤ℤ greatest };

    /// The value of so many units, or of the nearer end.
    fn clamp_from(v: i128) -> Self
        ensures { units_of result ≡ clamped least greatest v };

    /// The value that a text stands for.
    fn read(text: &[u8]) -> Result<Self, CellFault>
        ensures { result ≡ read_of text.now };

    /// Appends the shortest decimal text. A refusal leaves `out` as it was.
    fn write(self, out: &mut Vec<u8>) -> Result<(), AllocError>
        ensures ok { OnOk result (out.new.items ≡ out.old.items ++ shortest (units_of self) PLACES) }
        ensures err { OnErr result (out.new.items ≡ out.old.items) };

    /// Values of as many units are one value.
    ghost same_units: { (a b : Self) → units_of a ≡ units_of b → a ≡ b };

    /// `==` holds exactly where the units are equal.
    ghost eq_units: { (a b : Self) → IsTrue (Self.eq a b) ↔ (units_of a ≡ units_of b) };

    /// The order is that of the units.
    ghost order_units: { (a b : Self) → Self.cmp a b ≡ int_cmp (units_of a) (units_of b) };

    /// Reading what was written of a value gives it back.
    ghost reads_written: { (v : Self) → least ≤ℤ units_of v → units_of v ≤ℤ greatest
        → read_of (shortest (units_of v) PLACES) ≡ Ok v };
}
