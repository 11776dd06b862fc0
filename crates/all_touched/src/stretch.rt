// The cells of a row that an edge meets.
ghost use Rattle.std.specs.Prelude.{◌≡◌, ◌<◌, ◌≤◌, ◌<ℤ◌, ◌-ℤ◌, ◌+ℤ◌, ◌*ℤ◌, ◌*◌, ◌^◌, ◌⊎◌, pos, true, unsigned_abs};
ghost use Rattle.geo_transform.specs.Frame.{IsFrame};
ghost use Rattle.geo_transform.specs.Corner.{corner_of};
ghost use Rattle.burn_scanline.specs.EdgeTable.{edge_of, is_row_of};
ghost use Rattle.burn_scanline.specs.declared.edge_rows.SpanRule.TheVariants.{Strip};
ghost use Rattle.all_touched.specs.Touched.{turn_at};
ghost use Rattle.all_touched.specs.Inner.Stretch.{AreBeside, ends_of, IsAcross, IsEndBefore, IsEndLeft, IsFirstPast, IsFirstRight, IsStretch};

use crate::columns::{Columns, RisingEdge};
use burn_scanline::{SpannedEdge, least_steps, least_wide_steps};
use fixed_coord::Coord;
use geo_transform::Frame;

// The width of a column's left side, or of the frame's right side.
fn side_of(frame: &Frame, col: u32) -> i64
    requires frame { IsFrame frame.now }
    requires col { col ≤ frame.now.ncols }
    ensures value { result ≡ (corner_of frame.now 0 col).0 }
    ensures bound { unsigned_abs result ≤ 4 * 10 ^ 17 }
{
    let (x, _) = frame.corner(0, col);
    x.units()
}

// The height of a row's upper side, or of the frame's lower side.
fn height_of(frame: &Frame, row: u32) -> i64
    requires frame { IsFrame frame.now }
    requires row { row ≤ frame.now.nrows }
    ensures value { result ≡ (corner_of frame.now row 0).1 }
    ensures bound { unsigned_abs result ≤ 4 * 10 ^ 17 }
{
    let (_, y) = frame.corner(row, 0);
    y.units()
}

// From which column on the right side of the cells is past a width.
fn first_past(frame: &Frame, x: Coord) -> u32
    requires { IsFrame frame.now }
    ensures { IsFirstPast frame.now x result }
{
    let right = side_of(frame, 1);
    least_steps(x.units() - right + 1, frame.cell.units(), frame.ncols)
}

// How many columns have the left side of their cells before a width.
fn end_before(frame: &Frame, x: Coord) -> u32
    requires { IsFrame frame.now }
    ensures { IsEndBefore frame.now x result }
{
    let left = side_of(frame, 0);
    least_steps(x.units() - left, frame.cell.units(), frame.ncols)
}

// The difference of two coordinates.
fn past(a: i64, b: Coord) -> i64
    requires { unsigned_abs a ≤ 4 * 10 ^ 17 }
    ensures value { result ≡ a -ℤ b }
    ensures bound { unsigned_abs result ≤ 8 * 10 ^ 17 }
{
    a - b.units()
}

fn product(a: i64, b: i64) -> i128
    requires a { unsigned_abs a ≤ 8 * 10 ^ 17 }
    requires b { unsigned_abs b ≤ 8 * 10 ^ 17 }
    ensures value { result ≡ a *ℤ b }
    ensures bound { unsigned_abs result ≤ 64 * 10 ^ 34 }
{
    i128::from(a) * i128::from(b)
}

// The difference of two products.
fn past_product(a: i128, b: i128) -> i128
    requires a { unsigned_abs a ≤ 64 * 10 ^ 34 }
    requires b { unsigned_abs b ≤ 64 * 10 ^ 34 }
    ensures value { result ≡ a -ℤ b }
    ensures bound { unsigned_abs result ≤ 128 * 10 ^ 34 }
{
    a - b
}

// The units of a coordinate.
fn units_of(a: Coord) -> i64
    ensures value { result ≡ a }
    ensures bound { unsigned_abs result ≤ 4 * 10 ^ 17 }
{
    a.units()
}

// How much a turn falls from one column to the next, beside a line that rises so far.
fn fall(frame: &Frame, rise: i64) -> i128
    requires { unsigned_abs rise ≤ 8 * 10 ^ 17 }
    ensures value { result ≡ rise *ℤ frame.now.cell }
    ensures bound { unsigned_abs result ≤ 64 * 10 ^ 34 }
{
    product(rise, units_of(frame.cell))
}

impl RisingEdge {
    // How a point lies beside the edge's line: above 0 on its left, below 0 on its right.
    fn turn(&self, x: i64, y: i64) -> i128
        requires x { unsigned_abs x ≤ 4 * 10 ^ 17 }
        requires y { unsigned_abs y ≤ 4 * 10 ^ 17 }
        ensures value { result ≡ turn_at (ends_of self.now) (x, y) }
        ensures bound { unsigned_abs result ≤ 128 * 10 ^ 34 }
    {
        let along = product(past(units_of(self.high.x), self.low.x), past(y, self.low.y));
        let across = product(past(units_of(self.high.y), self.low.y), past(x, self.low.x));
        past_product(along, across)
    }

    // How much a turn falls from one column to the next.
    fn fall(&self, frame: &Frame) -> i128
        requires { IsFrame frame.now }
        ensures value { result ≡ (self.now.high.y -ℤ self.now.low.y) *ℤ frame.now.cell }
        ensures some { pos 0 <ℤ result }
    {
        fall(frame, past(units_of(self.high.y), self.low.y))
    }

    // From which column on the right side of the cells is, at a height, strictly right of the edge's line.
    fn first_right(&self, frame: &Frame, y: i64) -> u32
        requires frame { IsFrame frame.now }
        requires y { unsigned_abs y ≤ 4 * 10 ^ 17 }
        ensures { IsFirstRight frame.now (ends_of self.now) y result }
    {
        let turn = self.turn(side_of(frame, 1), y);
        least_wide_steps(turn + 1, self.fall(frame), frame.ncols)
    }

    // How many columns have the left side of their cells, at a height, strictly left of the edge's line.
    fn end_left(&self, frame: &Frame, y: i64) -> u32
        requires frame { IsFrame frame.now }
        requires y { unsigned_abs y ≤ 4 * 10 ^ 17 }
        ensures { IsEndLeft frame.now (ends_of self.now) y result }
    {
        let turn = self.turn(side_of(frame, 0), y);
        least_wide_steps(turn, self.fall(frame), frame.ncols)
    }

    // Of some columns those whose cells have, at one height, their left side strictly left of the edge's line, and at
    // another their right side strictly right of it.
    fn beside(&self, frame: &Frame, columns: Columns, left: i64, right: i64) -> Columns
        requires frame { IsFrame frame.now }
        requires left { unsigned_abs left ≤ 4 * 10 ^ 17 }
        requires right { unsigned_abs right ≤ 4 * 10 ^ 17 }
        ensures { AreBeside frame.now (ends_of self.now) left right columns result }
    {
        let first = self.first_right(frame, right);
        let end = self.end_left(frame, left);
        Columns {
            from: columns.from.max(first),
            to: columns.to.min(end),
        }
    }

    // Of the columns that the edge's widths meet, those whose cells it meets in a row.
    fn in_row(&self, frame: &Frame, columns: Columns, row: u32) -> Columns
        requires frame { IsFrame frame.now }
        requires row { row < frame.now.nrows }
        requires across { IsAcross frame.now (ends_of self.now) columns.from columns.to }
        ensures { is_row_of Strip frame.now (ends_of self.now) row ≡ true
            → IsStretch frame.now (ends_of self.now) row result.from result.to }
    {
        let top = height_of(frame, row);
        let bottom = height_of(frame, row + 1);
        if self.low.x <= self.high.x {
            return self.beside(frame, columns, top, bottom);
        }
        self.beside(frame, columns, bottom, top)
    }
}

impl Columns {
    // The columns from the first whose right side is past one width, up to the last whose left side is before another.
    fn between(frame: &Frame, left: Coord, right: Coord) -> Columns
        requires { IsFrame frame.now }
        ensures past { IsFirstPast frame.now left result.from }
        ensures before { IsEndBefore frame.now right result.to }
    {
        Columns {
            from: first_past(frame, left),
            to: end_before(frame, right),
        }
    }

    /// The columns that the widths of an edge meet.
    pub(crate) fn across(frame: &Frame, edge: &SpannedEdge) -> Columns
        requires { IsFrame frame.now }
        ensures { IsAcross frame.now (edge_of edge.now) result.from result.to }
    {
        if edge.start.x < edge.end.x {
            return Columns::between(frame, edge.start.x, edge.end.x);
        }
        Columns::between(frame, edge.end.x, edge.start.x)
    }

    /// Of the columns that the widths of an edge meet, those whose cells it meets in a row.
    pub(crate) fn in_row(self, frame: &Frame, edge: &SpannedEdge, row: u32) -> Columns
        requires frame { IsFrame frame.now }
        requires row { row < frame.now.nrows }
        requires across { IsAcross frame.now (edge_of edge.now) self.from self.to }
        ensures { is_row_of Strip frame.now (edge_of edge.now) row ≡ true
            → IsStretch frame.now (edge_of edge.now) row result.from result.to }
    {
        if edge.start.x == edge.end.x {
            return self;
        }
        if edge.start.y == edge.end.y {
            return self;
        }
        if edge.start.y < edge.end.y {
            let rising = RisingEdge {
                low: edge.start,
                high: edge.end,
            };
            return rising.in_row(frame, self, row);
        }
        let rising = RisingEdge {
            low: edge.end,
            high: edge.start,
        };
        rising.in_row(frame, self, row)
    }
}
