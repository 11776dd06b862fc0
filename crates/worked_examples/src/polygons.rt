// Expected corners are those of the worked texts of these grids, turned from x and y into rows and columns by hand.
ghost use Rattle.std.specs.Prelude.{◌≡◌, ◌*◌, ◌<◌, ◌≤◌, IfOk, length};
ghost use Rattle.cell_base.specs.Raster.{most_cells};
ghost use Rattle.cell_base.specs.Steps.{four};
ghost use Rattle.edge_trace.specs.EdgeOrder.{AreInOrder};
ghost use Rattle.edge_trace.specs.EdgeTable.{IsEdgeTable};
ghost use Rattle.region_label.specs.Labelling.{IsLabelling};

use cell_base::{Grid, Mask};
use edge_trace::{Corner, EdgeTable};
use region_label::{Regions, label};
use ring_faces::{CornerWalk, Faces, LatticePolygon, Ring, RingList};
use std::alloc::{AllocError, Global};
use std::test::Fail;

// marks a hole, and the next polygon
const HOLE: u64 = 88;

const NEXT: u64 = 99;

/// Adds a corner as row times 10 plus column.
fn push_corner(out: &mut Vec<u64>, corner: Corner) -> Result<(), AllocError> {
    out.push(10 * corner.row as u64 + corner.col as u64)?;
    Ok(())
}

/// Adds the corners of a ring.
fn push_ring(out: &mut Vec<u64>, corners: &[Corner]) -> Result<(), AllocError> {
    for corner in corners {
        push_corner(out, *corner)?;
    }
    Ok(())
}

/// Adds the corners of a ring that is lent, and nothing where they are not as many as it tells.
fn push_lent(out: &mut Vec<u64>, corners: CornerWalk<'_>) -> Result<(), AllocError> {
    let end = out.len().saturating_add(corners.len());
    for corner in corners {
        push_corner(out, corner)?;
    }
    if out.len() != end {
        out.clear();
    }
    Ok(())
}

/// Adds the rings of a polygon.
fn push_polygon(out: &mut Vec<u64>, polygon: &LatticePolygon) -> Result<(), AllocError> {
    push_ring(out, polygon.shell.as_slice())?;
    for hole in polygon.holes.as_slice() {
        out.push(HOLE)?;
        push_ring(out, hole.as_slice())?;
    }
    Ok(())
}

/// The rings of these components.
fn faces_of(
    alloc: Global,
    cells: &Grid<i64>,
    valid: &Mask,
    regions: &Regions,
    edges: EdgeTable,
) -> Result<Faces, AllocError>
    requires labelled { IsLabelling four cells.now valid.now regions.now }
    requires edges { IsEdgeTable regions.now edges }
    requires order { AreInOrder edges }
    ensures { IfOk result (λ faces. length faces ≡ length regions.now.firsts) }
{
    Faces::assemble(alloc, edges, regions)
}

/// The rings of all polygons, each polygon behind its mark.
fn rings_of(alloc: Global, faces: &Faces, count: u32) -> Result<Vec<u64>, AllocError>
    requires { length faces.now ≡ count }
{
    let mut out = Vec::new(alloc);
    for k in 0..count {
        out.push(NEXT)?;
        push_polygon(&mut out, &faces.polygon(alloc, k)?)?;
    }
    Ok(out)
}

/// The same rings as they are lent.
fn lent_rings(alloc: Global, faces: &Faces, count: u32) -> Result<Vec<u64>, AllocError>
    requires { length faces.now ≡ count }
{
    let mut out = Vec::new(alloc);
    for k in 0..count {
        let mut mark = NEXT;
        for corners in faces.rings(k) {
            out.push(mark)?;
            push_lent(&mut out, corners)?;
            mark = HOLE;
        }
    }
    Ok(out)
}

/// The rings of the components of these cells under side steps, as polygons and as they are lent.
fn traced(
    alloc: Global,
    cells: &Grid<i64>,
    valid: &Mask,
) -> Result<(Vec<u64>, Vec<u64>), AllocError>
    requires cols { valid.now.ncols ≡ cells.now.ncols }
    requires rows { valid.now.nrows ≡ cells.now.nrows }
{
    let regions = label::<i64, false>(alloc, cells, valid)?;
    let edges = EdgeTable::build(alloc, &regions)?;
    let faces = faces_of(alloc, cells, valid, &regions, edges)?;
    let rings = rings_of(alloc, &faces, regions.count())?;
    let lent = lent_rings(alloc, &faces, regions.count())?;
    Ok((rings, lent))
}

/// Whether the components of these cells under side steps have these polygons, and lend their rings.
fn makes(alloc: Global, size: (u32, u32), cells: &[i64], want: &[u64]) -> Result<bool, AllocError>
    requires cols { 0 < size.0 }
    requires rows { 0 < size.1 }
    requires small { size.0 * size.1 ≤ most_cells }
    requires whole { length cells.now ≡ size.0 * size.1 }
{
    let grid = Grid::from_cells(size.0, size.1, Vec::from_slice(alloc, cells)?);
    let valid = Mask::valid_of(alloc, &grid, None)?;
    let (rings, lent) = traced(alloc, &grid, &valid)?;
    Ok(rings.as_slice() == want && lent.as_slice() == want)
}

#[test]
fn a_shell_that_a_hole_touches(rt: HostRuntime) -> Result<(), Fail> {
    let cells = [1, 1, 1, 1, 2, 1, 1, 1, 2];
    let outer = [99, 0, 30, 32, 22, 23, 3, 88, 11, 12, 22, 21];
    let want = [
        99, 0, 30, 32, 22, 23, 3, 88, 11, 12, 22, 21, 99, 11, 21, 22, 12, 99, 22, 32, 33, 23,
    ];
    assert!(rt; makes(rt.alloc(), (3, 3), &cells, &want)?);
    assert!(rt; !makes(rt.alloc(), (3, 3), &cells, &outer)?);
    Ok(())
}

// More corners than a ring holds in its value.
#[test]
fn a_ring_of_twelve_corners(rt: HostRuntime) -> Result<(), Fail> {
    let cells = [2, 1, 2, 1, 1, 1, 2, 1, 2];
    let want = [
        99, 0, 10, 11, 1, 99, 1, 11, 10, 20, 21, 31, 32, 22, 23, 13, 12, 2, 99, 2, 12, 13, 3, 99,
        20, 30, 31, 21, 99, 22, 32, 33, 23,
    ];
    assert!(rt; makes(rt.alloc(), (3, 3), &cells, &want)?);
    Ok(())
}

#[test]
fn a_hole(rt: HostRuntime) -> Result<(), Fail> {
    let cells = [1, 1, 1, 1, 2, 1, 1, 1, 1];
    let want = [99, 0, 30, 33, 3, 88, 11, 12, 22, 21, 99, 11, 21, 22, 12];
    assert!(rt; makes(rt.alloc(), (3, 3), &cells, &want)?);
    Ok(())
}

#[test]
fn two_holes_that_touch(rt: HostRuntime) -> Result<(), Fail> {
    let cells = [1, 1, 1, 1, 1, 2, 1, 1, 1, 1, 2, 1, 1, 1, 1, 1];
    let want = [
        99, 0, 40, 44, 4, 88, 11, 12, 22, 21, 88, 22, 23, 33, 32, 99, 11, 21, 22, 12, 99, 22, 32,
        33, 23,
    ];
    assert!(rt; makes(rt.alloc(), (4, 4), &cells, &want)?);
    Ok(())
}

#[test]
fn cells_that_touch_at_corners(rt: HostRuntime) -> Result<(), Fail> {
    let want = [
        99, 0, 10, 11, 1, 99, 1, 11, 12, 2, 99, 10, 20, 21, 11, 99, 11, 21, 22, 12,
    ];
    assert!(rt; makes(rt.alloc(), (2, 2), &[1, 2, 2, 1], &want)?);
    Ok(())
}

#[test]
fn rings_are_lists(rt: HostRuntime) -> Result<(), Fail> {
    let corner = Corner { row: 2, col: 3 };
    let mut ring = Ring::new(rt.alloc());
    let mut rings = RingList::new(rt.alloc());
    assert!(rt; ring.is_empty() && rings.is_empty());
    ring.push(corner)?;
    assert!(rt; ring.len() == 1 && ring.get(0).copied() == Some(corner));
    assert!(rt; ring.get(1).is_none());
    rings.push(ring)?;
    assert!(rt; rings.len() == 1 && rings.get(1).is_none());
    assert!(rt; rings.get(0).map_or(0, |first| first.len()) == 1);
    Ok(())
}
