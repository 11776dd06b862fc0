// Expected levels, segments and points were worked out by hand.
ghost use Rattle.std.specs.Prelude.{◌≡◌, ◌↔◌, ◌*◌, ◌<◌, ◌≤◌, ◌<ℤ◌, ◌≤ℤ◌, IfOk, IsTrue, length, pos};
ghost use Rattle.cell_base.specs.Raster.{AreAligned, most_cells};
ghost use Rattle.contour_segments.specs.Levels.{HasPositiveInterval, IsRange};
ghost use Rattle.geo_transform.specs.Frame.{IsFrame};

use cell_base::{Cell, Grid, Mask, Micro};
use contour_chain::{chain, print_line};
use contour_segments::{
    LevelFault, LevelList, LevelSpec, Segment, SegmentList, SegmentTable, levels, segments,
};
use fixed_coord::Coord;
use geo_transform::Frame;
use std::alloc::{AllocError, Global};
use std::test::Fail;
use wkt_text::Geometry;

// marks the end of a line
const END: i64 = i64::MAX;

/// A whole number as a value.
fn micro(whole: i64) -> Micro {
    <Micro as Cell>::clamp_from(i128::from(whole) * 1_000_000)
}

/// The grid of these whole values, of which -9999 isn't valid.
fn grid_of(alloc: Global, ncols: u32, nrows: u32, values: &[i64]) -> Result<Grid<Micro>, AllocError>
    requires cols { 0 < ncols }
    requires rows { 0 < nrows }
    requires small { ncols * nrows ≤ most_cells }
    requires whole { length values.now ≡ ncols * nrows }
    ensures cols { IfOk result (λ grid. grid.ncols ≡ ncols) }
    ensures rows { IfOk result (λ grid. grid.nrows ≡ nrows) }
{
    let mut cells = Vec::new(alloc);
    for whole in values {
        cells.push(micro(*whole))?;
    }
    Ok(Grid::from_cells(ncols, nrows, cells))
}

/// The valid cells: those that aren't -9999.
fn valid_of(alloc: Global, grid: &Grid<Micro>) -> Result<Mask, AllocError>
    ensures { IfOk result (λ valid. AreAligned grid.now valid) }
{
    let valid = Mask::valid_of(alloc, grid, Some(micro(-9999)))?;
    let _sizes = (grid.ncols(), valid.ncols());
    Ok(valid)
}

/// A segment as the numbers of its place and its ends: row, column and turn, and row, column and 1 or 0 for down of each
/// end.
fn told(segment: &Segment) -> [u32; 9] {
    [
        segment.row,
        segment.col,
        u32::from(segment.turn),
        segment.from.row,
        segment.from.col,
        u32::from(segment.from.down),
        segment.to.row,
        segment.to.col,
        u32::from(segment.to.down),
    ]
}

/// Whether these are the segments.
fn are(list: &SegmentList, want: &[[u32; 9]]) -> bool {
    let mut at = 0usize;
    for segment in list.as_slice() {
        match want.get(at) {
            None => return false,
            Some(row) => {
                if told(segment) != *row {
                    return false;
                }
            }
        }
        at = at.wrapping_add(1);
    }
    at == want.len()
}

/// Whether the grid has these segments at a level, found for it alone and by a table.
fn has_segments(
    alloc: Global,
    ncols: u32,
    nrows: u32,
    values: &[i64],
    level: i64,
    want: &[[u32; 9]],
) -> Result<bool, AllocError>
    requires cols { 0 < ncols }
    requires rows { 0 < nrows }
    requires small { ncols * nrows ≤ most_cells }
    requires whole { length values.now ≡ ncols * nrows }
{
    let grid = grid_of(alloc, ncols, nrows, values)?;
    let valid = valid_of(alloc, &grid)?;
    let alone = segments(alloc, &grid, &valid, micro(level))?;
    let table = SegmentTable::build(alloc, &grid, &valid)?;
    let handed = table.segments(alloc, micro(level))?;
    Ok(are(&alone, want) && are(&handed, want))
}

#[test]
fn the_high_side_is_on_the_right(rt: HostRuntime) -> Result<(), Fail> {
    let upwards = [[0, 0, 0, 1, 0, 0, 0, 0, 0]];
    assert!(rt; has_segments(rt.alloc(), 2, 2, &[0, 10, 0, 10], 5, &upwards)?);
    assert!(rt; has_segments(rt.alloc(), 2, 2, &[0, 10, 0, 10], 10, &upwards)?);
    assert!(rt; has_segments(rt.alloc(), 2, 2, &[0, 10, 0, 10], 0, &[])?);
    assert!(rt; has_segments(rt.alloc(), 2, 2, &[0, 10, 0, 10], 11, &[])?);
    let leftwards = [[0, 0, 0, 0, 1, 1, 0, 0, 1]];
    assert!(rt; has_segments(rt.alloc(), 2, 2, &[10, 10, 0, 0], 5, &leftwards)?);
    Ok(())
}

#[test]
fn saddles_are_told_apart_by_their_mean(rt: HostRuntime) -> Result<(), Fail> {
    let joined = [[0, 0, 0, 0, 0, 0, 0, 1, 1], [0, 0, 1, 1, 0, 0, 0, 0, 1]];
    assert!(rt; has_segments(rt.alloc(), 2, 2, &[10, 0, 0, 10], 5, &joined)?);
    let split = [[0, 0, 0, 0, 0, 0, 0, 0, 1], [0, 0, 1, 1, 0, 0, 0, 1, 1]];
    assert!(rt; has_segments(rt.alloc(), 2, 2, &[10, 0, 0, 10], 6, &split)?);
    Ok(())
}

#[test]
fn an_invalid_corner_leaves_a_lattice_cell_out(rt: HostRuntime) -> Result<(), Fail> {
    let values = [0, 10, -9999, 0, 10, -9999];
    let upwards = [[0, 0, 0, 1, 0, 0, 0, 0, 0]];
    assert!(rt; has_segments(rt.alloc(), 3, 2, &values, 5, &upwards)?);
    assert!(rt; has_segments(rt.alloc(), 3, 2, &values, -5, &[])?);
    Ok(())
}

/// Whether a slope of so many columns, 10 higher at each, in three rows, has at a level between two columns the one
/// segment in each row of lattice cells.
fn slope_is_cut_once(alloc: Global, ncols: u32, step: u32, level: i64) -> Result<bool, AllocError>
    requires cols { 0 < ncols }
    requires small { 3 * ncols ≤ most_cells }
{
    let mut values = Vec::new(alloc);
    for at in 0..3 * ncols {
        values.push(10 * i64::from(at % ncols))?;
    }
    let grid = grid_of(alloc, ncols, 3, &values)?;
    let valid = valid_of(alloc, &grid)?;
    let table = SegmentTable::build(alloc, &grid, &valid)?;
    let list = table.segments(alloc, micro(level))?;
    let want = [
        [0, step, 0, 1, step, 0, 0, step, 0],
        [1, step, 0, 2, step, 0, 1, step, 0],
    ];
    Ok(are(&list, &want))
}

#[test]
fn blocks_that_a_level_does_not_meet_are_passed(rt: HostRuntime) -> Result<(), Fail> {
    assert!(rt; slope_is_cut_once(rt.alloc(), 9000, 0, 5)?);
    assert!(rt; slope_is_cut_once(rt.alloc(), 9000, 63, 635)?);
    assert!(rt; slope_is_cut_once(rt.alloc(), 9000, 64, 645)?);
    assert!(rt; slope_is_cut_once(rt.alloc(), 9000, 4096, 40965)?);
    assert!(rt; slope_is_cut_once(rt.alloc(), 9000, 8998, 89985)?);
    Ok(())
}

/// The printed points of the contour lines of a level in units, behind each line its end.
fn points_of(
    alloc: Global,
    frame: &Frame,
    cells: &Grid<Micro>,
    valid: &Mask,
    level: Micro,
) -> Result<Vec<i64>, AllocError>
    requires frame { IsFrame frame.now }
    requires aligned { AreAligned cells.now valid.now }
    requires cols { cells.now.ncols ≡ frame.now.ncols }
    requires rows { cells.now.nrows ≡ frame.now.nrows }
{
    let lines = chain(alloc, segments(alloc, cells, valid, level)?)?;
    let mut out = Vec::new(alloc);
    for line in lines.as_slice() {
        if let Some(Geometry::LineString(path)) = print_line(alloc, frame, cells, level, line)? {
            for point in path.as_slice() {
                out.push(point.x.units())?;
                out.push(point.y.units())?;
            }
            out.push(END)?;
        }
    }
    Ok(out)
}

/// Whether a grid with its corner at 0 and this cell size has these contour lines at a level; the points in tenths.
fn has_lines(
    alloc: Global,
    ncols: u32,
    nrows: u32,
    cell: i64,
    values: &[i64],
    level: i64,
    want: &[i64],
) -> Result<bool, AllocError>
    requires cols { 0 < ncols }
    requires rows { 0 < nrows }
    requires small { ncols * nrows ≤ most_cells }
    requires whole { length values.now ≡ ncols * nrows }
    requires some { pos 0 <ℤ cell }
    requires cell { cell ≤ℤ pos 1000 }
{
    let origin = Coord::of_units(0);
    let size = Coord::of_units(cell * 10_000_000_000);
    let Ok(frame) = Frame::make(ncols, nrows, origin, origin, size) else {
        return Ok(false);
    };
    let grid = grid_of(alloc, ncols, nrows, values)?;
    if grid.ncols() != frame.ncols || grid.nrows() != frame.nrows {
        return Ok(false);
    }
    let valid = valid_of(alloc, &grid)?;
    Ok(points_of(alloc, &frame, &grid, &valid, micro(level))?.as_slice() == want)
}

#[test]
fn crossings_lie_at_their_fraction_of_the_way(rt: HostRuntime) -> Result<(), Fail> {
    let middle = [
        10_000_000_000,
        5_000_000_000,
        10_000_000_000,
        15_000_000_000,
        END,
    ];
    assert!(rt; has_lines(rt.alloc(), 2, 2, 1, &[0, 10, 0, 10], 5, &middle)?);
    let third = [
        8_333_333_333,
        5_000_000_000,
        8_333_333_333,
        15_000_000_000,
        END,
    ];
    assert!(rt; has_lines(rt.alloc(), 2, 2, 1, &[0, 3, 0, 3], 1, &third)?);
    let wide = [
        25_000_000_000,
        15_000_000_000,
        25_000_000_000,
        45_000_000_000,
        END,
    ];
    assert!(rt; has_lines(rt.alloc(), 2, 2, 3, &[0, 3, 0, 3], 1, &wide)?);
    let high = [
        15_000_000_000,
        5_000_000_000,
        15_000_000_000,
        15_000_000_000,
        END,
    ];
    assert!(rt; has_lines(rt.alloc(), 2, 2, 1, &[0, 10, 0, 10], 10, &high)?);
    Ok(())
}

#[test]
fn saddles_are_joined_or_split(rt: HostRuntime) -> Result<(), Fail> {
    let joined = [
        10_000_000_000,
        15_000_000_000,
        15_000_000_000,
        10_000_000_000,
        END,
        10_000_000_000,
        5_000_000_000,
        5_000_000_000,
        10_000_000_000,
        END,
    ];
    assert!(rt; has_lines(rt.alloc(), 2, 2, 1, &[10, 0, 0, 10], 5, &joined)?);
    let split = [
        9_000_000_000,
        15_000_000_000,
        5_000_000_000,
        11_000_000_000,
        END,
        11_000_000_000,
        5_000_000_000,
        15_000_000_000,
        9_000_000_000,
        END,
    ];
    assert!(rt; has_lines(rt.alloc(), 2, 2, 1, &[10, 0, 0, 10], 6, &split)?);
    Ok(())
}

#[test]
fn a_line_of_one_point_is_left_out(rt: HostRuntime) -> Result<(), Fail> {
    assert!(rt; has_lines(rt.alloc(), 2, 2, 1, &[5, 0, 0, 0], 5, &[])?);
    Ok(())
}

#[test]
fn a_closed_line_begins_and_ends_at_its_least_segment(rt: HostRuntime) -> Result<(), Fail> {
    let round = [
        10_000_000_000,
        15_000_000_000,
        15_000_000_000,
        20_000_000_000,
        20_000_000_000,
        15_000_000_000,
        15_000_000_000,
        10_000_000_000,
        10_000_000_000,
        15_000_000_000,
        END,
    ];
    assert!(rt;
        has_lines(
            rt.alloc(),
            3,
            3,
            1,
            &[0, 0, 0, 0, 10, 0, 0, 0, 0],
            5,
            &round
        )?
    );
    Ok(())
}

#[test]
fn open_lines_come_before_closed_ones(rt: HostRuntime) -> Result<(), Fail> {
    let values = [0, 0, 0, 0, 0, 10, 0, 10, 0, 0, 0, 10, 0, 0, 0, 0, 0, 10];
    let lines = [
        50_000_000_000,
        5_000_000_000,
        50_000_000_000,
        15_000_000_000,
        50_000_000_000,
        25_000_000_000,
        END,
        10_000_000_000,
        15_000_000_000,
        15_000_000_000,
        20_000_000_000,
        20_000_000_000,
        15_000_000_000,
        15_000_000_000,
        10_000_000_000,
        10_000_000_000,
        15_000_000_000,
        END,
    ];
    assert!(rt; has_lines(rt.alloc(), 6, 3, 1, &values, 5, &lines)?);
    Ok(())
}

/// A number of units of 10^-6 as a value.
fn value(units: i64) -> Micro {
    <Micro as Cell>::clamp_from(i128::from(units))
}

/// Whether the interval, if there is one, is positive.
fn is_positive(spec: &LevelSpec) -> bool
    ensures { IsTrue result ↔ HasPositiveInterval spec.now }
{
    match spec.interval {
        None => true,
        Some(n) => n.units() > 0,
    }
}

/// Whether the lower value, if there are values, stands first.
fn is_range(range: &Option<(Micro, Micro)>) -> bool
    ensures { IsTrue result ↔ IsRange range.now }
{
    match range {
        None => true,
        Some(ends) => ends.0.units() <= ends.1.units(),
    }
}

/// The levels that are asked for, all in units of 10^-6; or their number alone, where they are too many.
fn levels_of(
    alloc: Global,
    interval: Option<i64>,
    offset: i64,
    fixed: &[i64],
    range: Option<(i64, i64)>,
) -> Result<Vec<i64>, LevelFault> {
    let mut list = LevelList::new(alloc);
    for level in fixed {
        list.push(value(*level))?;
    }
    let range = range.map(|ends| (value(ends.0), value(ends.1)));
    let spec = LevelSpec {
        interval: interval.map(value),
        offset: value(offset),
        fixed: list,
    };
    if !is_positive(&spec) || !is_range(&range) {
        return Err(LevelFault::NoMemory);
    }
    let mut out = Vec::new(alloc);
    match levels(alloc, &spec, range) {
        Ok(found) => {
            for level in found.as_slice() {
                if out.push(level.units()).is_err() {
                    return Err(LevelFault::NoMemory);
                }
            }
        }
        Err(LevelFault::TooMany(count)) => {
            if out.push(count.min(i64::MAX as u64) as i64).is_err() {
                return Err(LevelFault::NoMemory);
            }
        }
        Err(fault) => return Err(fault),
    }
    Ok(out)
}

/// Whether these are the levels.
fn levels_are(
    alloc: Global,
    interval: Option<i64>,
    offset: i64,
    fixed: &[i64],
    range: Option<(i64, i64)>,
    want: &[i64],
) -> Result<bool, LevelFault> {
    Ok(levels_of(alloc, interval, offset, fixed, range)?.as_slice() == want)
}

#[test]
fn levels_lie_above_the_lowest_value_up_to_the_highest(rt: HostRuntime) -> Result<(), Fail> {
    let range = Some((0, 10_000_000));
    let by_four = [1_000_000, 5_000_000, 9_000_000];
    assert!(rt; levels_are(rt.alloc(), Some(4_000_000), 1_000_000, &[], range, &by_four)?);
    assert!(rt;
        levels_are(
            rt.alloc(),
            Some(4_000_000),
            101_000_000,
            &[],
            range,
            &by_four
        )?
    );
    let by_five = [5_000_000, 10_000_000];
    assert!(rt; levels_are(rt.alloc(), Some(5_000_000), 0, &[], range, &by_five)?);
    assert!(rt;
        levels_are(
            rt.alloc(),
            Some(7),
            3,
            &[],
            Some((-20, -4)),
            &[-18, -11, -4]
        )?
    );
    Ok(())
}

#[test]
fn levels_of_both_kinds_come_once_in_order(rt: HostRuntime) -> Result<(), Fail> {
    let fixed = [7_000_000, 5_000_000, -3_000_000, 7_000_000];
    let both = [-3_000_000, 5_000_000, 7_000_000, 10_000_000];
    let range = Some((0, 10_000_000));
    assert!(rt; levels_are(rt.alloc(), Some(5_000_000), 0, &fixed, range, &both)?);
    let no_cell = [-3_000_000, 5_000_000, 7_000_000];
    assert!(rt; levels_are(rt.alloc(), Some(5_000_000), 0, &fixed, None, &no_cell)?);
    assert!(rt; levels_are(rt.alloc(), None, 3, &[2, 1], range, &[1, 2])?);
    Ok(())
}

#[test]
fn levels_are_counted_before_they_are_listed(rt: HostRuntime) -> Result<(), Fail> {
    let range = Some((0, 10_000_000));
    assert!(rt; levels_are(rt.alloc(), Some(100), 0, &[], range, &[100_000])?);
    let fixed = [65_536, 65_537, 4, -8];
    assert!(rt; levels_are(rt.alloc(), Some(1), 0, &fixed, Some((0, 65_535)), &[65_538])?);
    let all = Some((-1_000_000_000_000_000_000, 1_000_000_000_000_000_000));
    assert!(rt;
        levels_are(
            rt.alloc(),
            Some(1),
            0,
            &[],
            all,
            &[2_000_000_000_000_000_000]
        )?
    );
    let most = levels_of(rt.alloc(), Some(1), 0, &[4], Some((0, 65_536)))?;
    assert!(rt; most.len() == 65_536);
    Ok(())
}
