// Levels at one distance.
ghost use Rattle.std.specs.Prelude.{◌≡◌, ◌↔◌, ◌*◌, ◌<◌, ◌≤◌, ◌^◌, ◌+ℤ◌, ◌<ℤ◌, ◌≤ℤ◌, ℤ, neg_ℤ, pos, IsTrue};
ghost use Rattle.contour_segments.specs.Inner.Series.{CountsUpTo, IsAt, IsGap, IsSeries, level_at};
ghost use Rattle.contour_segments.specs.Levels.{IsSpaced};

use cell_base::{Cell, Micro};

// So many levels from a first one on, each so far above the one before, in units.
#[derive(Clone, Copy)]
pub(crate) struct Series {
    pub(crate) first: i64,
    pub(crate) step: u64,
    pub(crate) count: u64,
}

// No level.
pub(crate) const NO_LEVELS: Series = Series {
    first: 0,
    step: 1,
    count: 0,
};

// How far a number lies above another.
fn distance(low: i64, high: i64) -> u64
    requires { low ≤ℤ high }
    ensures { low +ℤ pos result ≡ high }
{
    high.abs_diff(low)
}

// The number so far above another.
fn raised(low: i64, by: u64) -> i64
    requires low { low ≤ℤ pos (2 * 10 ^ 18) }
    requires by { by ≤ 4 * 10 ^ 18 }
    ensures { result ≡ low +ℤ pos by }
{
    low + by as i64
}

// How far above a value lies the first number that is the offset and a whole multiple of the interval.
fn gap_above(low: i64, offset: i64, interval: u64) -> u64
    requires { 0 < interval }
    ensures { IsGap interval offset low result }
{
    if offset <= low {
        interval - distance(offset, low) % interval
    } else {
        (distance(low, offset) - 1) % interval + 1
    }
}

// How many levels there are from one on, so far apart, up to a number.
fn count_up_to(first: i64, step: u64, high: i64) -> u64
    requires some { 0 < step }
    requires first { neg_ℤ (pos (10 ^ 18)) ≤ℤ first }
    requires high { high ≤ℤ pos (10 ^ 18) }
    ensures { CountsUpTo first step high result }
{
    if first > high {
        0
    } else {
        distance(first, high) / step + 1
    }
}

impl Series {
    // The offset and whole multiples of the interval, above the one value and at most the other.
    pub(crate) fn between(interval: Micro, offset: Micro, low: Micro, high: Micro) -> Series
        requires positive { pos 0 <ℤ interval }
        ensures series { IsSeries result }
        ensures levels { (level : ℤ) → IsAt result level ↔ IsSpaced interval offset (low, high) level }
    {
        let step = distance(0, interval.units());
        let gap = gap_above(low.units(), offset.units(), step);
        let first = raised(low.units(), gap);
        let count = count_up_to(first, step, high.units());
        Series { first, step, count }
    }

    // Whether a level is one of them.
    pub(crate) fn contains(self, level: Micro) -> bool
        requires { IsSeries self }
        ensures { IsTrue result ↔ IsAt self level }
    {
        if level.units() < self.first {
            return false;
        }
        let past = distance(self.first, level.units());
        past / self.step < self.count && past % self.step == 0
    }

    // The level of a number.
    pub(crate) fn at(self, k: u64) -> Micro
        requires series { IsSeries self }
        requires few { k < self.count }
        ensures { result ≡ level_at self k }
    {
        let units = raised(self.first, k * self.step);
        <Micro as Cell>::clamp_from(i128::from(units))
    }
}
