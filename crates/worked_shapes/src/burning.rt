// Burned polygons. Expected cells are worked out by hand from the cells' centres.
ghost use Rattle.std.specs.Prelude.{◌≡◌};
ghost use Rattle.geo_transform.specs.Frame.{IsFrame};

use crate::making::{coordinate, frame, geometry, holds, zeros};
use burn_scanline::{
    CentreScan, EdgeRows, How, RunList, SpanRule, burn, burn_runs, centre_runs, cover_centre,
    mark_runs,
};
use cell_base::{Cell, Grid, Mask, Run};
use geo_transform::Frame;
use std::alloc::{AllocError, Global};
use std::test::Fail;
use wkt_text::{Geometry, Path, Pt, Rings};

/// A square from 0.5 to 2.5: the sides run through the centres of cells of size 1.
const THROUGH_CENTRES: &str = "POLYGON ((0.5 0.5,2.5 0.5,2.5 2.5,0.5 2.5,0.5 0.5))";

/// Two squares that share one cell.
const LOWER: &str = "POLYGON ((0 0,2 0,2 2,0 2,0 0))";

const UPPER: &str = "POLYGON ((1 1,3 1,3 3,1 3,1 1))";

/// Burns a polygon by its runs.
fn burn_text<T: Cell>(
    cells: &mut Grid<T>,
    frame: &Frame,
    scan: &mut CentreScan,
    runs: &mut RunList,
    g: &Geometry,
    value: i64,
    how: How,
) -> Result<(), AllocError>
    requires frame { IsFrame frame.now }
    requires cols { cells.old.ncols ≡ frame.now.ncols }
    requires rows { cells.old.nrows ≡ frame.now.nrows }
    ensures cols { cells.new.ncols ≡ cells.old.ncols }
    ensures rows { cells.new.nrows ≡ cells.old.nrows }
{
    centre_runs(frame, g, scan, runs)?;
    burn_runs(cells, runs, T::clamp_from(i128::from(value)), how);
    Ok(())
}

/// Burns polygons one after another.
fn burned<T: Cell>(
    alloc: Global,
    frame: &Frame,
    features: &[(&str, i64)],
    how: How,
) -> Result<Grid<T>, Fail>
    requires { IsFrame frame.now }
{
    let mut cells = zeros::<T>(alloc, frame)?;
    let mut scan = CentreScan::new(alloc);
    let mut runs = RunList::new(alloc);
    for (text, value) in features {
        let g = geometry(alloc, text)?;
        burn_text(&mut cells, frame, &mut scan, &mut runs, &g, *value, how)?;
    }
    Ok(cells)
}

/// Marks the cells that a polygon covers.
fn mark_text(alloc: Global, frame: &Frame, text: &str, cover: &mut Mask) -> Result<(), Fail>
    requires frame { IsFrame frame.now }
    requires cols { cover.old.ncols ≡ frame.now.ncols }
    requires rows { cover.old.nrows ≡ frame.now.nrows }
    ensures cols { cover.new.ncols ≡ cover.old.ncols }
    ensures rows { cover.new.nrows ≡ cover.old.nrows }
{
    let g = geometry(alloc, text)?;
    let mut scan = CentreScan::new(alloc);
    let mut runs = RunList::new(alloc);
    centre_runs(frame, &g, &mut scan, &mut runs)?;
    mark_runs(cover, &runs);
    Ok(())
}

/// Makes a mask true where it was false, and the other way round.
fn invert(mask: &mut Mask)
    ensures cols { mask.new.ncols ≡ mask.old.ncols }
    ensures rows { mask.new.nrows ≡ mask.old.nrows }
{
    for row in 0..mask.nrows() {
        for col in 0..mask.ncols() {
            mask.set(row, col, !mask.get(row, col));
        }
    }
}

#[test]
fn a_centre_on_a_side(rt: HostRuntime) -> Result<(), Fail> {
    let frame = frame(3, 3, "0", "0", "1")?;
    let cells = burned::<i64>(rt.alloc(), &frame, &[(THROUGH_CENTRES, 1)], How::Set)?;
    assert!(rt; holds(&cells, &[0, 0, 0, 1, 1, 0, 1, 1, 0]));
    Ok(())
}

#[test]
fn one_after_another(rt: HostRuntime) -> Result<(), Fail> {
    let frame = frame(3, 3, "0", "0", "1")?;
    let features = [(LOWER, 200), (UPPER, 100)];
    let set = burned::<u8>(rt.alloc(), &frame, &features, How::Set)?;
    assert!(rt; holds(&set, &[0, 100, 100, 200, 100, 100, 200, 200, 0]));
    let add = burned::<u8>(rt.alloc(), &frame, &features, How::Add)?;
    assert!(rt; holds(&add, &[0, 100, 100, 200, 255, 100, 200, 200, 0]));
    Ok(())
}

#[test]
fn the_outside(rt: HostRuntime) -> Result<(), Fail> {
    let frame = frame(3, 3, "0", "0", "1")?;
    let mut cells = zeros::<i16>(rt.alloc(), &frame)?;
    let mut cover = Mask::make(rt.alloc(), frame.ncols, frame.nrows, false)?;
    mark_text(rt.alloc(), &frame, LOWER, &mut cover)?;
    mark_text(rt.alloc(), &frame, UPPER, &mut cover)?;
    invert(&mut cover);
    burn(&mut cells, &cover, 9, How::Set);
    assert!(rt; holds(&cells, &[9, 0, 0, 0, 0, 0, 0, 0, 9]));
    Ok(())
}

#[test]
fn holes_and_members(rt: HostRuntime) -> Result<(), Fail> {
    let four = frame(4, 4, "0", "0", "1")?;
    // two holes that touch, and the cells in them
    let whole = "POLYGON ((0 4,0 0,4 0,4 4,0 4),(1 3,2 3,2 2,1 2,1 3),(2 2,3 2,3 1,2 1,2 2))";
    let first = "POLYGON ((1 3,1 2,2 2,2 3,1 3))";
    let second = "POLYGON ((2 2,2 1,3 1,3 2,2 2))";
    let features = [(whole, 1), (first, 2), (second, 2)];
    let cells = burned::<i32>(rt.alloc(), &four, &features, How::Set)?;
    assert!(rt; holds(&cells, &[1, 1, 1, 1, 1, 2, 1, 1, 1, 1, 2, 1, 1, 1, 1, 1]));
    // where two members overlap, the cell isn't covered
    let three = frame(3, 3, "0", "0", "1")?;
    let both = "MULTIPOLYGON (((0 0,2 0,2 2,0 2,0 0)),((1 1,3 1,3 3,1 3,1 1)))";
    let cells = burned::<i32>(rt.alloc(), &three, &[(both, 5)], How::Set)?;
    assert!(rt; holds(&cells, &[0, 5, 5, 5, 0, 5, 5, 5, 0]));
    Ok(())
}

#[test]
fn a_slanted_side(rt: HostRuntime) -> Result<(), Fail> {
    let frame = frame(4, 4, "0", "0", "1")?;
    // the slanted side runs through the centres with x + y = 4, which are covered from the other side only
    let lower = ("POLYGON ((0 0,4 0,0 4,0 0))", 1);
    let cells = burned::<i64>(rt.alloc(), &frame, &[lower], How::Set)?;
    assert!(rt; holds(&cells, &[0, 0, 0, 0, 1, 0, 0, 0, 1, 1, 0, 0, 1, 1, 1, 0]));
    let upper = ("POLYGON ((4 0,4 4,0 4,4 0))", 2);
    let cells = burned::<i64>(rt.alloc(), &frame, &[lower, upper], How::Add)?;
    assert!(rt; holds(&cells, &[2, 2, 2, 2, 1, 2, 2, 2, 1, 1, 2, 2, 1, 1, 1, 2]));
    Ok(())
}

#[test]
fn past_the_frame(rt: HostRuntime) -> Result<(), Fail> {
    // cells of size 2 with their centres at x 1, 3, 5 and y 2, 0
    let low = frame(3, 2, "0", "-1", "2")?;
    let cells = burned::<i64>(rt.alloc(), &low, &[(THROUGH_CENTRES, 1)], How::Set)?;
    assert!(rt; holds(&cells, &[1, 0, 0, 0, 0, 0]));
    let unit = frame(2, 2, "0", "0", "1")?;
    let features = [
        ("POLYGON ((-5 -5,9 -5,9 9,-5 9,-5 -5))", 1),
        ("POLYGON ((-5 -5,1 -5,1 9,-5 9,-5 -5))", 2),
        ("POLYGON ((5 0,9 0,9 2,5 2,5 0))", 3),
        ("POLYGON ((-9 0,-5 0,-5 2,-9 2,-9 0))", 3),
        ("POLYGON ((0 2,2 2,2 7,0 7,0 2))", 3),
        ("POLYGON ((0 -7,2 -7,2 0,0 0,0 -7))", 3),
        ("POLYGON EMPTY", 3),
    ];
    let cells = burned::<i64>(rt.alloc(), &unit, &features, How::Set)?;
    assert!(rt; holds(&cells, &[2, 1, 2, 1]));
    Ok(())
}

#[test]
fn an_open_ring_is_closed(rt: HostRuntime) -> Result<(), Fail> {
    let frame = frame(4, 4, "0", "0", "1")?;
    let mut path = Path::new(rt.alloc());
    for (x, y) in [("0", "0"), ("4", "0"), ("0", "4")] {
        path.push(Pt {
            x: coordinate(x)?,
            y: coordinate(y)?,
        })?;
    }
    let mut rings = Rings::new(rt.alloc());
    rings.push(path)?;
    let mut cover = Mask::make(rt.alloc(), frame.ncols, frame.nrows, true)?;
    let mut cells = zeros::<u8>(rt.alloc(), &frame)?;
    cover_centre(rt.alloc(), &frame, &Geometry::Polygon(rings), &mut cover)?;
    burn(&mut cells, &cover, 7, How::Add);
    assert!(rt; holds(&cells, &[0, 0, 0, 0, 7, 0, 0, 0, 7, 7, 0, 0, 7, 7, 7, 0]));
    Ok(())
}

#[test]
fn runs_that_touch_are_one(rt: HostRuntime) -> Result<(), Fail> {
    let frame = frame(3, 1, "0", "0", "1")?;
    let mut scan = CentreScan::new(rt.alloc());
    let mut runs = RunList::new(rt.alloc());
    let both = "MULTIPOLYGON (((0 0,1 0,1 1,0 1,0 0)),((1 0,2 0,2 1,1 1,1 0)))";
    let g = geometry(rt.alloc(), both)?;
    centre_runs(&frame, &g, &mut scan, &mut runs)?;
    let want = [Run {
        row: 0,
        from: 0,
        to: 2,
    }];
    assert!(rt; runs.as_slice() == want.as_slice() && runs.len() == 1);
    Ok(())
}

#[test]
fn edges_by_rows(rt: HostRuntime) -> Result<(), Fail> {
    let frame = frame(3, 3, "0", "0", "1")?;
    let g = geometry(rt.alloc(), THROUGH_CENTRES)?;
    let edges = EdgeRows::build(rt.alloc(), &frame, &g, SpanRule::Centre)?;
    assert!(rt; edges.count() == 2);
    for e in 0..edges.count() {
        assert!(rt; edges.span(e) == (1, 2));
        let (start, end) = edges.ends(e);
        assert!(rt; start.x == end.x && start.y != end.y);
    }
    for (row, count) in [(0, 0), (1, 2), (2, 0)] {
        let mut starts = Vec::new(rt.alloc());
        for e in edges.starting(row) {
            starts.push(e)?;
        }
        starts.sort_unstable();
        assert!(rt; starts.as_slice() == &[0, 1][..count]);
    }
    Ok(())
}

#[test]
fn edges_by_strips(rt: HostRuntime) -> Result<(), Fail> {
    let frame = frame(3, 3, "0", "0", "1")?;
    let g = geometry(rt.alloc(), THROUGH_CENTRES)?;
    let edges = EdgeRows::build(rt.alloc(), &frame, &g, SpanRule::Strip)?;
    assert!(rt; edges.count() == 4);
    for (row, count) in [(0, 3), (1, 0), (2, 1)] {
        let mut starts = Vec::new(rt.alloc());
        for e in edges.starting(row) {
            starts.push(e)?;
        }
        assert!(rt; starts.len() == count);
    }
    Ok(())
}
