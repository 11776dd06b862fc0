// Touched cells. Expected cells are worked out by hand from the open squares of the cells that edges meet.
ghost use Rattle.geo_transform.specs.Frame.{IsFrame};

use crate::making::{frame, geometry, holds, zeros};
use all_touched::{TouchScan, cover_touched, touched_runs};
use burn_scanline::{How, RunList, burn};
use cell_base::{Grid, Mask, Run};
use geo_transform::Frame;
use std::alloc::Global;
use std::test::Fail;

// Polygons, and of three rows of three cells of size 1 those that each touches.
const TOUCHED: [(&str, [i64; 9]); 9] = [
    // through the centres
    (
        "POLYGON ((0.5 0.5,2.5 0.5,2.5 2.5,0.5 2.5,0.5 0.5))",
        [1, 1, 1, 1, 1, 1, 1, 1, 1],
    ),
    // along sides: the neighbours aren't touched
    (
        "POLYGON ((1 1,2 1,2 2,1 2,1 1))",
        [0, 0, 0, 0, 1, 0, 0, 0, 0],
    ),
    // through corners
    ("POLYGON ((0 0,3 0,0 3,0 0))", [1, 0, 0, 1, 1, 0, 1, 1, 1]),
    // with a point in a corner of other cells
    (
        "POLYGON ((1 1,0.5 0.9,0.9 0.5,1 1))",
        [0, 0, 0, 0, 0, 0, 1, 0, 0],
    ),
    // flat and level, flat and upright
    (
        "POLYGON ((0.2 0.5,2.2 0.5,1 0.5,0.2 0.5))",
        [0, 0, 0, 0, 0, 0, 1, 1, 1],
    ),
    (
        "POLYGON ((0.5 0.2,0.5 2.2,0.5 1,0.5 0.2))",
        [1, 0, 0, 1, 0, 0, 1, 0, 0],
    ),
    // a point alone: its edges have no length
    (
        "POLYGON ((0.2 0.2,0.2 0.2,0.2 0.2,0.2 0.2))",
        [0, 0, 0, 0, 0, 0, 0, 0, 0],
    ),
    // the edges of a hole round a centre
    (
        "POLYGON ((0 0,3 0,3 3,0 3,0 0),(1.2 1.2,1.8 1.2,1.8 1.8,1.2 1.8,1.2 1.2))",
        [1, 1, 1, 1, 1, 1, 1, 1, 1],
    ),
    ("POINT (0.5 0.5)", [0, 0, 0, 0, 0, 0, 0, 0, 0]),
];

/// A grid with 1 in the cells that a polygon touches, and else 0.
fn touched(alloc: Global, frame: &Frame, text: &str) -> Result<Grid<u8>, Fail>
    requires { IsFrame frame.now }
{
    let g = geometry(alloc, text)?;
    let mut cover = Mask::make(alloc, frame.ncols, frame.nrows, true)?;
    let mut cells = zeros::<u8>(alloc, frame)?;
    cover_touched(alloc, frame, &g, &mut cover)?;
    burn(&mut cells, &cover, 1, How::Set);
    Ok(cells)
}

#[test]
fn touched_cells(rt: HostRuntime) -> Result<(), Fail> {
    let frame = frame(3, 3, "0", "0", "1")?;
    for (text, want) in TOUCHED {
        let cells = touched(rt.alloc(), &frame, text)?;
        assert!(rt; holds(&cells, &want));
    }
    Ok(())
}

#[test]
fn touched_cells_by_runs(rt: HostRuntime) -> Result<(), Fail> {
    let alloc = rt.alloc();
    let frame = frame(3, 1, "0", "0", "1")?;
    let mut scan = TouchScan::new(alloc);
    let mut runs = RunList::new(alloc);
    let g = geometry(alloc, "POLYGON ((0.2 0.2,0.8 0.2,0.8 0.8,0.2 0.2))")?;
    // what is kept from before has no part in the answer
    for _ in 0..2 {
        touched_runs(alloc, &frame, &g, &mut scan, &mut runs)?;
        let want = [Run {
            row: 0,
            from: 0,
            to: 1,
        }];
        assert!(rt; runs.as_slice() == want.as_slice());
    }
    Ok(())
}
