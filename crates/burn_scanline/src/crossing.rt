// Where edges are among the centres of a frame.
ghost use Rattle.std.specs.Prelude.{◌≡◌, ◌+◌, ◌<◌, ◌≤◌, ◌<ℤ◌, int_lt, nat_le, nat_lt, ◌-ℤ◌, ◌*ℤ◌, ◌*◌, ◌^◌, pos, true, unsigned_abs, ℕ, IsTrue, Some};
ghost use Rattle.geo_transform.specs.Frame.{IsFrame};
ghost use Rattle.geo_transform.specs.Corner.{centre2_of, corner_of};
ghost use Rattle.burn_scanline.specs.EdgeTable.{IsSpanned};
ghost use Rattle.burn_scanline.specs.Steps.{IsLeastSteps};
ghost use Rattle.burn_scanline.specs.Inner.Crossing.{AreRowsAbove, HasColumn, IsActive, IsAtMost, IsColumnAt, IsTakenFrom, IsUprightAt, is_beside};
ghost use Rattle.burn_scanline.specs.declared.edge_rows.SpanRule.TheVariants.{Centre};

use crate::edge_rows::SpannedEdge;
use fixed_coord::Coord;
use geo_transform::Frame;
use wkt_text::Pt;

// An edge whose rows are being filled, by its lower and its upper end. An upright edge has one column in all its rows.
#[derive(Clone, Copy)]
pub(crate) struct ActiveEdge {
    pub(crate) low: Pt,
    pub(crate) high: Pt,
    pub(crate) last: u32,
    pub(crate) upright: Option<u32>,
}

// How an edge that isn't level passes a row: from its lower end to its upper one across and up, to the row's height and
// to the row's first centre, the last two doubled, and from centre to centre, doubled too.
#[derive(Clone, Copy)]
pub(crate) struct Slant {
    pub(crate) along: i64,
    pub(crate) rise: i64,
    pub(crate) above: i64,
    pub(crate) ahead: i64,
    pub(crate) step: i64,
}

// Numbers of at most this size have products that fit 64 bits.
const SHORT: i64 = 1 << 30;

/// The least number of steps of a size that reach so far, if it is below a count, and else the count.
pub fn least_steps(reach: i64, size: i64, count: u32) -> u32
    requires { pos 0 <ℤ size }
    ensures { IsLeastSteps reach size count result }
{
    if reach <= 0 {
        return 0;
    }
    let short = (reach as u64 - 1) / size as u64;
    if short < u64::from(count) {
        short as u32 + 1
    } else {
        count
    }
}

/// The same for wide numbers.
pub fn least_wide_steps(reach: i128, size: i128, count: u32) -> u32
    requires { pos 0 <ℤ size }
    ensures { IsLeastSteps reach size count result }
{
    if reach <= 0 {
        return 0;
    }
    let short = (reach as u128 - 1) / size as u128;
    if short < u128::from(count) {
        short as u32 + 1
    } else {
        count
    }
}

// The centre of a cell, doubled.
fn centre(frame: &Frame, row: u32, col: u32) -> (i64, i64)
    requires frame { IsFrame frame.now }
    requires row { row < frame.now.nrows }
    requires col { col < frame.now.ncols }
    ensures value { result ≡ centre2_of frame.now row col }
    ensures x { unsigned_abs result.0 ≤ 8 * 10 ^ 17 }
    ensures y { unsigned_abs result.1 ≤ 8 * 10 ^ 17 }
{
    frame.centre2(row, col)
}

// How many rows have their centres at a height or above.
pub(crate) fn rows_above(frame: &Frame, y: Coord) -> u32
    requires { IsFrame frame.now }
    ensures { AreRowsAbove frame.now y result }
{
    let (_, top) = centre(frame, 0, 0);
    least_steps(top - 2 * y.units() + 1, 2 * frame.cell.units(), frame.nrows)
}

// The height of the upper side of a row, or of the frame's lower side.
fn top_of(frame: &Frame, row: u32) -> i64
    requires frame { IsFrame frame.now }
    requires row { row ≤ frame.now.nrows }
    ensures value { result ≡ (corner_of frame.now row 0).1 }
    ensures bound { unsigned_abs result ≤ 4 * 10 ^ 17 }
{
    let (_, y) = frame.corner(row, 0);
    y.units()
}

// From which row on the lower side of the cells is below a height.
pub(crate) fn rows_past(frame: &Frame, y: Coord) -> u32
    requires { IsFrame frame.now }
    ensures within { result ≤ frame.now.nrows }
    ensures rows { (row : ℕ) → row < frame.now.nrows → int_lt (corner_of frame.now (row + 1) 0).1 y ≡ nat_le result row }
{
    let below = top_of(frame, 1);
    least_steps(below - y.units() + 1, frame.cell.units(), frame.nrows)
}

// How many rows have the upper side of their cells above a height.
pub(crate) fn rows_reaching(frame: &Frame, y: Coord) -> u32
    requires { IsFrame frame.now }
    ensures within { result ≤ frame.now.nrows }
    ensures rows { (row : ℕ) → row < frame.now.nrows → int_lt y (corner_of frame.now row 0).1 ≡ nat_lt row result }
{
    let top = top_of(frame, 0);
    least_steps(top - y.units(), frame.cell.units(), frame.nrows)
}

// The column of upright edges at x: the first with its centre at x or right of it, or the number of columns.
fn upright_column(frame: &Frame, x: Coord) -> u32
    requires { IsFrame frame.now }
    ensures { IsUprightAt frame.now x result }
{
    let (left, _) = centre(frame, 0, 0);
    least_steps(2 * x.units() - left, 2 * frame.cell.units(), frame.ncols)
}

// How far one coordinate is past another.
fn past(a: Coord, b: Coord) -> i64
    ensures value { result ≡ a -ℤ b }
    ensures bound { unsigned_abs result ≤ 4 * 10 ^ 18 }
{
    a.units() - b.units()
}

// How far a doubled number is past a coordinate, doubled.
fn past_doubled(a: i64, b: Coord) -> i64
    requires { unsigned_abs a ≤ 8 * 10 ^ 17 }
    ensures value { result ≡ a -ℤ pos 2 *ℤ b }
    ensures bound { unsigned_abs result ≤ 4 * 10 ^ 18 }
{
    a - 2 * b.units()
}

fn twice(a: Coord) -> i64
    ensures value { result ≡ pos 2 *ℤ a }
    ensures bound { unsigned_abs result ≤ 4 * 10 ^ 18 }
{
    2 * a.units()
}

// A product of two numbers that are not too large for a difference of two such products.
fn product(a: i64, b: i64) -> i128
    requires a { unsigned_abs a ≤ 4 * 10 ^ 18 }
    requires b { unsigned_abs b ≤ 4 * 10 ^ 18 }
    ensures value { result ≡ a *ℤ b }
    ensures bound { unsigned_abs result ≤ 16 * 10 ^ 36 }
{
    i128::from(a) * i128::from(b)
}

// The same for short numbers, whose product is narrow.
fn short_product(a: i64, b: i64) -> i64
    requires a { unsigned_abs a ≤ 2 ^ 30 }
    requires b { unsigned_abs b ≤ 2 ^ 30 }
    ensures value { result ≡ a *ℤ b }
    ensures bound { unsigned_abs result ≤ 2 ^ 60 }
{
    a * b
}

// How far one product is past another.
fn past_product(a: i128, b: i128) -> i128
    requires a { unsigned_abs a ≤ 16 * 10 ^ 36 }
    requires b { unsigned_abs b ≤ 16 * 10 ^ 36 }
    ensures value { result ≡ a -ℤ b }
    ensures bound { unsigned_abs result ≤ 32 * 10 ^ 36 }
{
    a - b
}

fn past_short_product(a: i64, b: i64) -> i64
    requires a { unsigned_abs a ≤ 2 ^ 60 }
    requires b { unsigned_abs b ≤ 2 ^ 60 }
    ensures value { result ≡ a -ℤ b }
    ensures bound { unsigned_abs result ≤ 2 ^ 61 }
{
    a - b
}

// Whether products of this number and another such fit 64 bits.
fn is_short(n: i64) -> bool
    ensures { IsTrue result → unsigned_abs n ≤ 2 ^ 30 }
{
    (-SHORT..=SHORT).contains(&n)
}

impl Slant {
    fn is_short(self) -> bool
        ensures { IsTrue result → IsAtMost (2 ^ 30) self }
    {
        is_short(self.along)
            && is_short(self.above)
            && is_short(self.ahead)
            && is_short(self.rise)
            && is_short(self.step)
    }

    fn narrow_column(self, ncols: u32) -> u32
        requires short { IsAtMost (2 ^ 30) self }
        requires rises { pos 0 <ℤ (self.step *ℤ self.rise) }
        ensures { HasColumn self ncols result }
    {
        let across = short_product(self.along, self.above);
        let ahead = short_product(self.ahead, self.rise);
        let step = short_product(self.step, self.rise);
        least_steps(past_short_product(across, ahead), step, ncols)
    }

    fn wide_column(self, ncols: u32) -> u32
        requires modest { IsAtMost (4 * 10 ^ 18) self }
        requires rises { pos 0 <ℤ (self.step *ℤ self.rise) }
        ensures { HasColumn self ncols result }
    {
        let across = product(self.along, self.above);
        let ahead = product(self.ahead, self.rise);
        let step = product(self.step, self.rise);
        least_wide_steps(past_product(across, ahead), step, ncols)
    }

    // The first column whose centre is at the edge or right of it, or the number of columns.
    fn column(self, ncols: u32) -> u32
        requires modest { IsAtMost (4 * 10 ^ 18) self }
        requires rises { pos 0 <ℤ (self.step *ℤ self.rise) }
        ensures { HasColumn self ncols result }
    {
        if self.is_short() {
            self.narrow_column(ncols)
        } else {
            self.wide_column(ncols)
        }
    }
}

// The first column whose centre is, in a row, at an edge that leads up or right of it, or the number of columns.
fn slanted_column(frame: &Frame, low: Pt, high: Pt, row: u32) -> u32
    requires frame { IsFrame frame.now }
    requires row { row < frame.now.nrows }
    requires beside { is_beside frame.now low high row ≡ true }
    ensures { IsColumnAt frame.now low high row result }
{
    let (left, height) = centre(frame, row, 0);
    let slant = Slant {
        along: past(high.x, low.x),
        rise: past(high.y, low.y),
        above: past_doubled(height, low.y),
        ahead: past_doubled(left, low.x),
        step: twice(frame.cell),
    };
    slant.column(frame.ncols)
}

impl ActiveEdge {
    // An edge of the table.
    pub(crate) fn of(frame: &Frame, edge: SpannedEdge) -> ActiveEdge
        requires frame { IsFrame frame.now }
        requires spanned { IsSpanned Centre frame.now edge }
        ensures { IsTakenFrom frame.now edge result }
    {
        if edge.start.y < edge.end.y {
            ActiveEdge::up(frame, edge.start, edge.end, edge.last)
        } else {
            ActiveEdge::up(frame, edge.end, edge.start, edge.last)
        }
    }

    // An edge from its lower end up, in rows up to a last one.
    fn up(frame: &Frame, low: Pt, high: Pt, last: u32) -> ActiveEdge
        requires { IsFrame frame.now }
        ensures low { result.low ≡ low }
        ensures high { result.high ≡ high }
        ensures last { result.last ≡ last }
        ensures upright { (column row : ℕ) → result.upright ≡ Some column → is_beside frame.now low high row ≡ true
            → IsColumnAt frame.now low high row column }
    {
        let upright = if low.x == high.x {
            Some(upright_column(frame, low.x))
        } else {
            None
        };
        ActiveEdge {
            low,
            high,
            last,
            upright,
        }
    }

    // The first column whose centre is, in one of the edge's rows, at the edge or right of it, or the number of columns.
    pub(crate) fn column(&self, frame: &Frame, row: u32) -> u32
        requires frame { IsFrame frame.now }
        requires active { IsActive frame.now row self.now }
        ensures { IsColumnAt frame.now self.now.low self.now.high row result }
    {
        match self.upright {
            Some(column) => column,
            None => slanted_column(frame, self.low, self.high, row),
        }
    }
}
