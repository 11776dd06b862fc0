// Frames, and the three ways to make one.
ghost use Rattle.std.specs.Prelude.{◌≡◌, ◌<◌, ◌≤◌, ◌*◌, ◌^◌, ◌<ℤ◌, ◌-ℤ◌, ◌+ℤ◌, ◌*ℤ◌, pos, unsigned_abs};
ghost use Rattle.std.specs.Prelude.{if◌then◌else◌, IfErr, IfOk, OnOk, Ok, Err};
ghost use Rattle.std.specs.List.{list_all};
ghost use Rattle.fixed_coord.specs.Coordinate.{IsCoord, is_coord};
ghost use Rattle.fixed_coord.specs.Round.{round_half_away};
ghost use Rattle.geo_transform.specs.Layout.{layout_by_cell, layout_by_size, square_layout, steps_in};
ghost use Rattle.geo_transform.specs.Fault.{is_empty, is_in_range};
ghost use Rattle.geo_transform.specs.Frame.{IsFrame, frame_or_fault, frame_or_fault_in};
ghost use Rattle.geo_transform.specs.Inner.GridSize.{IsFaultOfSize, IsGridSize};
ghost use Rattle.geo_transform.specs.Inner.Span.{IsSpan};
ghost use Rattle.geo_transform.specs.declared.fault.FrameFault.TheVariants.{BadSize};

use crate::extent::Extent;
use crate::fault::FrameFault;
use fixed_coord::{Coord, FARTHEST, MOST_CELLS, ratio_round};

/// Where the cells of a grid lie: the left and the lower edge, and the size of the square cells. Calls that take a
/// frame ask for one whose numbers `Frame::make` accepts.
#[derive(Clone, Copy, Debug, PartialEq, Eq)]
pub struct Frame {
    pub ncols: u32,
    pub nrows: u32,
    pub xll: Coord,
    pub yll: Coord,
    pub cell: Coord,
}

impl Frame {
    /// The frame of these numbers. `BadSize` where there are no columns or no rows, `TooLarge` with the number of
    /// cells where it is above 16,777,216, `BadCell` where the cell's size isn't positive, `OutOfRange` where the right
    /// or the upper edge is past 40,000,000: the first in this order.
    pub fn make(
        ncols: u32,
        nrows: u32,
        xll: Coord,
        yll: Coord,
        cell: Coord,
    ) -> Result<Frame, FrameFault>
        ensures answer { result ≡ frame_or_fault (square_layout ncols nrows xll yll cell) }
        ensures frame { IfOk result IsFrame }
    {
        check_size(u64::from(ncols), u64::from(nrows))?;
        let size = i128::from(cell.units());
        counted_frame(
            ncols,
            nrows,
            i128::from(xll.units()),
            i128::from(yll.units()),
            size,
            size,
        )
    }

    /// The frame of an extent that is cut into so many columns and rows. The cell's width and height are those of the
    /// extent over the counts, each rounded half away to a unit; the left and the upper edge stay. `BadSize` where a
    /// count is 0 or the extent has no width or no height, `TooLarge` with the number of cells where it is above
    /// 16,777,216, `BadCell` where a rounded size is 0, `NotSquare` where the two differ, `OutOfRange` where a rounded
    /// size or an edge is past 40,000,000 in size: the first in this order.
    pub fn from_extent_size(extent: &Extent, ncols: u32, nrows: u32) -> Result<Frame, FrameFault>
        ensures answer { result ≡ frame_or_fault_in extent.now (layout_by_size extent.now ncols nrows) }
        ensures frame { IfOk result IsFrame }
    {
        let (length, depth) = spans(extent)?;
        let (columns, rows) = (u64::from(ncols), u64::from(nrows));
        check_size(columns, rows)?;
        let width = share(length, ncols);
        let height = share(depth, nrows);
        let lower = lower_edge(extent.ymax, rows, height);
        counted_frame(
            ncols,
            nrows,
            i128::from(extent.xmin.units()),
            lower,
            width,
            height,
        )
    }

    /// The frame of an extent that is cut into cells of this width and height. The counts are the extent's width and
    /// height over the cell's, rounded half up and at least 1; the left and the upper edge stay. `BadSize` where the
    /// extent has no width or no height, `TooLarge` with the number of cells where it is above 16,777,216, `NotSquare`
    /// where the cell's width and height differ, `OutOfRange` where an edge is past 40,000,000 in size: the first in
    /// this order.
    pub fn from_extent_cell(extent: &Extent, xres: Coord, yres: Coord) -> Result<Frame, FrameFault>
        requires width { pos 0 <ℤ xres }
        requires height { pos 0 <ℤ yres }
        ensures answer { result ≡ frame_or_fault_in extent.now (layout_by_cell extent.now xres yres) }
        ensures frame { IfOk result IsFrame }
    {
        let (across, down) = spans(extent)?;
        let ncols = steps(across, xres.units());
        let nrows = steps(down, yres.units());
        check_size(ncols, nrows)?;
        let width = i128::from(xres.units());
        let height = i128::from(yres.units());
        let lower = lower_edge(extent.ymax, nrows, height);
        counted_frame(
            ncols as u32,
            nrows as u32,
            i128::from(extent.xmin.units()),
            lower,
            width,
            height,
        )
    }
}

// The width and the height of an extent, where it has them.
fn spans(extent: &Extent) -> Result<(i64, i64), FrameFault>
    ensures fault { let e = extent.now in
        result ≡ (if is_empty e then Err BadSize else Ok (e.xmax -ℤ e.xmin, e.ymax -ℤ e.ymin)) }
    ensures range { IfOk result (λ s. IsSpan s.0 × IsSpan s.1) }
{
    let across = extent.xmax.units() - extent.xmin.units();
    if across <= 0 {
        return Err(FrameFault::BadSize);
    }
    let down = extent.ymax.units() - extent.ymin.units();
    if down <= 0 {
        return Err(FrameFault::BadSize);
    }
    Ok((across, down))
}

// A part of so many equal ones of a span, rounded half away.
fn share(span: i64, count: u32) -> i128
    requires span { IsSpan span }
    requires count { 0 < count }
    ensures value { result ≡ round_half_away span count }
    ensures range { unsigned_abs result ≤ 10 ^ 18 }
{
    ratio_round(i128::from(span), i128::from(count))
}

// The lower edge under so many rows of a height.
fn lower_edge(upper: Coord, count: u64, height: i128) -> i128
    requires { unsigned_abs height ≤ 10 ^ 18 }
    ensures value { result ≡ upper -ℤ pos count *ℤ height }
    ensures range { unsigned_abs result ≤ 10 ^ 38 }
{
    i128::from(upper.units()) - times(count, height)
}

// The edge behind so many columns or rows of a size.
fn far_edge(start: i128, count: u32, size: i128) -> i128
    requires start { unsigned_abs start ≤ 10 ^ 38 }
    requires size { unsigned_abs size ≤ 10 ^ 18 }
    ensures { result ≡ start +ℤ pos count *ℤ size }
{
    start + times(u64::from(count), size)
}

// The coordinate of so many units, which a coordinate can have.
fn coord(units: i128) -> Coord
    requires { IsCoord units }
    ensures { result ≡ units }
{
    Coord::of_units(units as i64)
}

// How many steps go into a length, rounded half up and at least one.
fn steps(length: i64, step: i64) -> u64
    requires length { IsSpan length }
    requires step { IsSpan step }
    ensures value { result ≡ steps_in length step }
    ensures range { result ≤ 10 ^ 18 }
{
    let length = length as u64;
    let step = step as u64;
    ((2 * length + step) / (2 * step)).max(1)
}

// Whether there are cells, and not too many.
fn check_size(ncols: u64, nrows: u64) -> Result<(), FrameFault>
    ensures ok { OnOk result (IsGridSize ncols nrows) }
    ensures fault { IfErr result (IsFaultOfSize ncols nrows) }
{
    if ncols == 0 || nrows == 0 {
        return Err(FrameFault::BadSize);
    }
    let product = u128::from(ncols) * u128::from(nrows);
    if product > u128::from(MOST_CELLS) {
        Err(FrameFault::TooLarge(product))
    } else {
        Ok(())
    }
}

// So many times a size.
fn times(count: u64, size: i128) -> i128
    requires { unsigned_abs size ≤ 10 ^ 18 }
    ensures value { result ≡ pos count *ℤ size }
    ensures bound { unsigned_abs result ≤ 2 * 10 ^ 37 }
{
    i128::from(count) * size
}

// Whether a coordinate can have so many units.
fn is_within(units: i128) -> bool
    ensures { result ≡ is_coord units }
{
    let most = i128::from(FARTHEST);
    (-most..=most).contains(&units)
}

// Whether each of these numbers of units is one that a coordinate can have.
fn are_within(units: &[i128]) -> bool
    ensures { result ≡ list_all is_coord units.now }
{
    units.iter().all(|n| is_within(*n))
}

// Whether the cells' sizes and the edges are all ones that a coordinate can have.
fn is_in_range(ncols: u32, nrows: u32, left: i128, lower: i128, width: i128, height: i128) -> bool
    requires left { unsigned_abs left ≤ 10 ^ 38 }
    requires lower { unsigned_abs lower ≤ 10 ^ 38 }
    requires width { unsigned_abs width ≤ 10 ^ 18 }
    requires height { unsigned_abs height ≤ 10 ^ 18 }
    ensures { result ≡ is_in_range (record {
      ncols = ncols;
      nrows = nrows;
      left = left;
      lower = lower;
      width = width;
      height = height;
    }) }
{
    let right = far_edge(left, ncols, width);
    let upper = far_edge(lower, nrows, height);
    are_within(&[width, height, left, lower, right, upper])
}

// The frame of these numbers, of which the counts are known to be good.
fn counted_frame(
    ncols: u32,
    nrows: u32,
    left: i128,
    lower: i128,
    width: i128,
    height: i128,
) -> Result<Frame, FrameFault>
    requires counts { IsGridSize ncols nrows }
    requires left { unsigned_abs left ≤ 10 ^ 38 }
    requires lower { unsigned_abs lower ≤ 10 ^ 38 }
    requires width { unsigned_abs width ≤ 10 ^ 18 }
    requires height { unsigned_abs height ≤ 10 ^ 18 }
    ensures answer { result ≡ frame_or_fault (record {
      ncols = ncols;
      nrows = nrows;
      left = left;
      lower = lower;
      width = width;
      height = height;
    }) }
    ensures frame { IfOk result IsFrame }
{
    if width <= 0 || height <= 0 {
        return Err(FrameFault::BadCell);
    }
    if width != height {
        return Err(FrameFault::NotSquare);
    }
    if !is_in_range(ncols, nrows, left, lower, width, height) {
        return Err(FrameFault::OutOfRange);
    }
    Ok(Frame {
        ncols,
        nrows,
        xll: coord(left),
        yll: coord(lower),
        cell: coord(width),
    })
}
