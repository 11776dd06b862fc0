// The ends of values.
ghost use Rattle.std.specs.Prelude.{◌↔◌, IsTrue};
ghost use Rattle.contour_segments.specs.Inner.Blocks.{HoldsCorners, IsWider, Meets};

use crate::lattice::Corners;

// The least and the greatest of some values, in units; of none the least is above the greatest.
#[derive(Clone, Copy)]
pub(crate) struct Span {
    pub(crate) low: i64,
    pub(crate) high: i64,
}

// The ends of no values.
pub(crate) const NOTHING: Span = Span {
    low: i64::MAX,
    high: i64::MIN,
};

impl Span {
    // The ends of four values.
    pub(crate) fn of(corners: Corners) -> Span
        ensures { HoldsCorners result corners }
    {
        Span {
            low: corners.nw.min(corners.ne).min(corners.se.min(corners.sw)),
            high: corners.nw.max(corners.ne).max(corners.se.max(corners.sw)),
        }
    }

    // The ends of both.
    pub(crate) fn with(self, other: Span) -> Span
        ensures one { IsWider self result }
        ensures other { IsWider other result }
    {
        Span {
            low: self.low.min(other.low),
            high: self.high.max(other.high),
        }
    }

    // Whether a level can lie among the values: one may be below it, and one at least as high.
    pub(crate) fn meets(self, level: i64) -> bool
        ensures { IsTrue result ↔ Meets self level }
    {
        self.low < level && level <= self.high
    }
}
