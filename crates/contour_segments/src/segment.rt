ghost use Rattle.std.specs.Prelude.{◌≡◌, ◌+◌, ◌<◌, ◌^◌};
ghost use Rattle.contour_segments.specs.Segments.{cross_on};

use crate::side::Side;

/// A crossing: a point of the lattice edge from the centre of this cell to the centre on its right, or below it where
/// `down`.
#[derive(Clone, Copy, Debug, PartialEq, Eq)]
pub struct Cross {
    pub row: u32,
    pub col: u32,
    pub down: bool,
}

/// A segment of a contour level: its lattice cell, by the cell at its upper left, whether it is the first (0) or the
/// second (1) there, and the crossings where it starts and ends. The high side is on its right.
#[derive(Clone, Copy, Debug, PartialEq, Eq)]
pub struct Segment {
    pub row: u32,
    pub col: u32,
    pub turn: u8,
    pub from: Cross,
    pub to: Cross,
}

impl Cross {
    // The crossing on a side of a lattice cell.
    pub(crate) fn on(row: u32, col: u32, side: Side) -> Cross
        requires row { row + 1 < 2 ^ 32 }
        requires col { col + 1 < 2 ^ 32 }
        ensures { result ≡ cross_on (row, col) side }
    {
        let (row, col, down) = match side {
            Side::Top => (row, col, false),
            Side::Right => (row, col + 1, true),
            Side::Bottom => (row + 1, col, false),
            Side::Left => (row, col, true),
        };
        Cross { row, col, down }
    }
}
