ghost use Rattle.std.specs.Prelude.{◌≡◌};
ghost use Rattle.edge_trace.specs.Edge.{is_level};
ghost use Rattle.edge_trace.specs.Walk.{edge_between};

use crate::table::Corner;

/// An edge as a walk passes it: its number, and the corners where it begins and ends.
#[derive(Clone, Copy, Debug, PartialEq, Eq)]
pub struct WalkEdge {
    pub number: u32,
    pub start: Corner,
    pub end: Corner,
}

impl WalkEdge {
    /// Whether it runs along a row.
    #[inline]
    pub fn is_level(&self) -> bool
        ensures { result ≡ is_level (edge_between self.now) }
    {
        self.start.row == self.end.row
    }
}
