ghost use Rattle.std.specs.Prelude.{◌≡◌, ◌+◌, ◌*◌, ◌^◌, ◌<◌, ◌≤◌, ◌-ℤ◌, ◌*ℤ◌, ◌<ℤ◌, pos, ◌++◌, ◌∷◌, [], IfOk, OnOk, if◌then◌else◌, unsigned_abs};
ghost use Rattle.cell_base.specs.MicroCells.{IsMicro};
ghost use Rattle.fixed_coord.specs.Coordinate.{farthest};
ghost use Rattle.fixed_coord.specs.Round.{round_half_away};
ghost use Rattle.geo_transform.specs.Frame.{IsFrame};
ghost use Rattle.contour_chain.specs.Points.{IsContourLine, above_bar, below_bar, between as between_spots, far_end, is_same_point, line_through, part_way as way_between, point_at as point_of, points_along};
ghost use Rattle.contour_chain.specs.Inner.Crossings.{AreApart, IsElevation, IsSlope, IsSpot, Straddles, spots_at};

use crate::lists::Line;
use cell_base::{Cell, Grid, Micro};
use contour_segments::Cross;
use fixed_coord::{Coord, ratio_round};
use geo_transform::Frame;
use std::alloc::{AllocError, Global};
use wkt_text::{Geometry, Path, Pt};

// A centre along one axis: twice its coordinate in units of 10^-10, and its value in units of 10^-6.
#[derive(Clone, Copy)]
pub(crate) struct Spot {
    pub(crate) twice: i64,
    pub(crate) value: i64,
}

// The product of two numbers.
fn product(a: i64, b: i64) -> i128
    requires a { unsigned_abs a ≤ 10 ^ 18 }
    requires b { unsigned_abs b ≤ 10 ^ 19 }
    ensures { result ≡ a *ℤ b }
{
    i128::from(a) * i128::from(b)
}

// Half of a doubled coordinate.
fn halved(twice: i64) -> Coord
    requires { unsigned_abs twice ≤ 2 * farthest }
    ensures { result ≡ round_half_away twice 2 }
{
    Coord::of_units(ratio_round(i128::from(twice), 2) as i64)
}

// How far a number lies above another.
fn rise(low: i64, high: i64) -> i64
    requires low { IsMicro low }
    requires high { IsMicro high }
    ensures { result ≡ high -ℤ low }
{
    high - low
}

// What stands above the bar of a crossing's fraction.
fn above(level: i64, low: Spot, high: Spot) -> i128
    requires level { IsMicro level }
    requires slope { IsSlope level low high }
    ensures value { result ≡ above_bar level low high }
    ensures size { unsigned_abs result ≤ farthest * below_bar low high }
{
    product(low.twice, rise(level, high.value)) + product(high.twice, rise(low.value, level))
}

// What stands below it.
fn below(low: Spot, high: Spot) -> i128
    requires low { IsMicro low.value }
    requires high { IsMicro high.value }
    requires rises { low.value <ℤ high.value }
    ensures { result ≡ pos (below_bar low high) }
{
    2 * i128::from(rise(low.value, high.value))
}

// Where a level lies on the way from a low centre to a high one.
fn sloped(level: i64, low: Spot, high: Spot) -> Coord
    requires level { IsMicro level }
    requires slope { IsSlope level low high }
    ensures { result ≡ way_between level low high }
{
    let units = ratio_round(above(level, low, high), below(low, high));
    Coord::of_units(units as i64)
}

// The same, and where both have one coordinate, that is it, and no product is formed.
fn part_way(level: i64, low: Spot, high: Spot) -> Coord
    requires level { IsMicro level }
    requires slope { IsSlope level low high }
    ensures { result ≡ way_between level low high }
{
    if low.twice == high.twice {
        return halved(low.twice);
    }
    sloped(level, low, high)
}

// Where a level lies between two centres of which just one is high.
fn between(level: i64, a: Spot, b: Spot) -> Coord
    requires level { IsMicro level }
    requires apart { AreApart level a b }
    ensures { result ≡ between_spots level a b }
{
    if a.value >= level {
        part_way(level, b, a)
    } else {
        part_way(level, a, b)
    }
}

// The centre of a cell along both axes.
fn spots(frame: &Frame, cells: &Grid<Micro>, row: u32, col: u32) -> (Spot, Spot)
    requires elevation { IsElevation frame.now cells.now }
    requires row { row < cells.now.nrows }
    requires col { col < cells.now.ncols }
    ensures value { result ≡ spots_at frame.now cells.now (row, col) }
    ensures across { IsSpot result.0 }
    ensures up { IsSpot result.1 }
{
    let (x, y) = frame.centre2(row, col);
    let value = cells.get(row, col).units();
    (Spot { twice: x, value }, Spot { twice: y, value })
}

// The centre at the further end of a crossing's lattice edge.
fn far_of(cross: Cross) -> (u32, u32)
    requires row { cross.row + 1 < 2 ^ 32 }
    requires col { cross.col + 1 < 2 ^ 32 }
    ensures { result ≡ far_end cross }
{
    if cross.down {
        (cross.row + 1, cross.col)
    } else {
        (cross.row, cross.col + 1)
    }
}

// The point of a crossing.
fn point_at(frame: &Frame, cells: &Grid<Micro>, level: i64, cross: Cross) -> Pt
    requires level { IsMicro level }
    requires elevation { IsElevation frame.now cells.now }
    requires straddles { Straddles cells.now level cross }
    ensures { result ≡ point_of frame.now cells.now level cross }
{
    let near = spots(frame, cells, cross.row, cross.col);
    let (row, col) = far_of(cross);
    let far = spots(frame, cells, row, col);
    Pt {
        x: between(level, near.0, far.0),
        y: between(level, near.1, far.1),
    }
}

// Adds a point, if it isn't the one before it. The only error is want of memory.
fn add(path: &mut Path, last: &Pt, point: &Pt) -> Result<(), AllocError>
    ensures { OnOk result (path.new ≡ path.old ++ (if is_same_point last.now point.now then [] else (point.now ∷ []))) }
{
    if last.x == point.x && last.y == point.y {
        return Ok(());
    }
    path.push(Pt {
        x: point.x,
        y: point.y,
    })?;
    Ok(())
}

/// The line of a contour line's points, each rounded half away from zero at ten decimals once, after all arithmetic;
/// equal neighbours once. None exactly where one point is left. The only error is want of memory.
pub fn print_line(
    alloc: Global,
    frame: &Frame,
    cells: &Grid<Micro>,
    level: Micro,
    line: &Line,
) -> Result<Option<Geometry>, AllocError>
    requires frame { IsFrame frame.now }
    requires ncols { cells.now.ncols ≡ frame.now.ncols }
    requires nrows { cells.now.nrows ≡ frame.now.nrows }
    requires line { IsContourLine cells.now level line.now }
    ensures { IfOk result (λ geometry. geometry ≡ line_through (points_along frame.now cells.now level line.now)) }
{
    let segments = line.as_slice();
    let mut path = Path::new(alloc);
    let mut last = point_at(frame, cells, level.units(), segments[0].from);
    path.push(Pt {
        x: last.x,
        y: last.y,
    })?;
    for segment in segments {
        let point = point_at(frame, cells, level.units(), segment.to);
        add(&mut path, &last, &point)?;
        last = point;
    }
    if path.len() == 1 {
        return Ok(None);
    }
    Ok(Some(Geometry::LineString(path)))
}
