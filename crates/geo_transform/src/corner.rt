// Corners and centres of cells.
ghost use Rattle.std.specs.Prelude.{◌≡◌, ◌<◌, ◌≤◌, ◌+ℤ◌, ◌*ℤ◌, pos};
ghost use Rattle.geo_transform.specs.Frame.{IsFrame};
ghost use Rattle.geo_transform.specs.Corner.{centre2_of, corner_of};
ghost use Rattle.geo_transform.specs.Inner.Way.{IsWay};

use crate::frame::Frame;
use fixed_coord::Coord;

impl Frame {
    /// A corner of the cells: the upper left one of the cell in this row, counted from the top, and this column.
    pub fn corner(&self, row: u32, col: u32) -> (Coord, Coord)
        requires frame { IsFrame self.now }
        requires row { row ≤ self.now.nrows }
        requires col { col ≤ self.now.ncols }
        ensures { result ≡ corner_of self.now row col }
    {
        (
            along(self.xll, col, self.cell),
            along(self.yll, self.nrows - row, self.cell),
        )
    }

    /// Twice the centre of a cell, in units.
    pub fn centre2(&self, row: u32, col: u32) -> (i64, i64)
        requires frame { IsFrame self.now }
        requires row { row < self.now.nrows }
        requires col { col < self.now.ncols }
        ensures { result ≡ centre2_of self.now row col }
    {
        let (left, upper) = self.corner(row, col);
        let (right, lower) = self.corner(row + 1, col + 1);
        (left.units() + right.units(), upper.units() + lower.units())
    }
}

// The coordinate behind so many steps.
fn along(start: Coord, count: u32, step: Coord) -> Coord
    requires { IsWay start count step }
    ensures { result ≡ start +ℤ pos count *ℤ step }
{
    Coord::of_units(start.units() + i64::from(count) * step.units())
}
