// Expected edges were read off the grids by eye.
ghost use Rattle.std.specs.Prelude.{◌≡◌, ◌*◌, ◌<◌, ◌≤◌, length};
ghost use Rattle.cell_base.specs.Raster.{most_cells};

use cell_base::{Grid, Mask};
use edge_trace::{Corner, EdgeTable, EdgeWalks};
use region_label::label;
use std::alloc::{AllocError, Global};
use std::test::Fail;

/// An edge: the corners where it begins and ends and the cell on its left, each as row times 10 plus column, and the
/// number of the edge that follows it.
type Told = (u64, u64, u64, u32);

fn place(row: u32, col: u32) -> u64 {
    10 * row as u64 + col as u64
}

fn told(table: &EdgeTable, e: u32) -> Told
    requires { e < length table.now.edges }
{
    let Corner { row, col } = table.start(e);
    let end = table.end(e);
    let cell = table.cell_of(e);
    (
        place(row, col),
        place(end.row, end.col),
        place(cell.0, cell.1),
        table.next(e),
    )
}

/// The same by a walk that passes an edge; nothing where there is no such edge, or where an edge is passed more than once.
fn passed(walks: &mut EdgeWalks, e: u32) -> Option<Told> {
    if e >= walks.count() || walks.is_passed(e) {
        return None;
    }
    let cell = walks.cell_of(e);
    let edge = walks.edge(e);
    let next = walks.pass(edge)?;
    if walks.pass(edge).is_some() || next.start != edge.end {
        return None;
    }
    Some((
        place(edge.start.row, edge.start.col),
        place(edge.end.row, edge.end.col),
        place(cell.0, cell.1),
        next.number,
    ))
}

/// Whether walks pass each edge of a table once, and these are the edges.
fn passes(table: EdgeTable, want: &[Told]) -> bool {
    let mut walks = EdgeWalks::of(table);
    for e in 0..walks.count() {
        if passed(&mut walks, e).as_ref() != want.get(e as usize) {
            return false;
        }
    }
    true
}

/// Whether the table of the components of these cells, where -9999 isn't valid, has these edges by number.
fn traces<const EIGHT: bool>(
    alloc: Global,
    size: (u32, u32),
    cells: &[i64],
    want: &[Told],
) -> Result<bool, AllocError>
    requires cols { 0 < size.0 }
    requires rows { 0 < size.1 }
    requires small { size.0 * size.1 ≤ most_cells }
    requires whole { length cells.now ≡ size.0 * size.1 }
{
    let grid = Grid::from_cells(size.0, size.1, Vec::from_slice(alloc, cells)?);
    let valid = Mask::valid_of(alloc, &grid, Some(-9999))?;
    let regions = label::<i64, EIGHT>(alloc, &grid, &valid)?;
    let table = EdgeTable::build(alloc, &regions)?;
    let mut at = 0usize;
    for e in 0..table.count() {
        if want.get(at) != Some(&told(&table, e)) {
            return Ok(false);
        }
        at = at.wrapping_add(1);
    }
    Ok(at == want.len() && passes(table, want))
}

// The corner (2, 2) has four edges of the first component.
const HOLE_AT_THE_SHELL: [Told; 24] = [
    (0, 10, 0, 6),
    (1, 0, 0, 0),
    (11, 12, 1, 12),
    (2, 1, 1, 1),
    (13, 3, 2, 5),
    (3, 2, 2, 3),
    (10, 20, 10, 15),
    (21, 11, 10, 2),
    (11, 21, 11, 9),
    (21, 22, 11, 10),
    (22, 12, 11, 11),
    (12, 11, 11, 8),
    (12, 22, 12, 19),
    (22, 23, 12, 14),
    (23, 13, 12, 4),
    (20, 30, 20, 16),
    (30, 31, 20, 17),
    (31, 32, 21, 18),
    (32, 22, 21, 13),
    (22, 21, 21, 7),
    (22, 32, 22, 21),
    (32, 33, 22, 22),
    (33, 23, 22, 23),
    (23, 22, 22, 20),
];

#[test]
fn a_hole_that_touches_the_shell(rt: HostRuntime) -> Result<(), Fail> {
    let cells = [1, 1, 1, 1, 2, 1, 1, 1, 2];
    assert!(rt; traces::<false>(rt.alloc(), (3, 3), &cells, &HOLE_AT_THE_SHELL)?);
    Ok(())
}

const HOLE: [Told; 20] = [
    (0, 10, 0, 6),
    (1, 0, 0, 0),
    (11, 12, 1, 12),
    (2, 1, 1, 1),
    (13, 3, 2, 5),
    (3, 2, 2, 3),
    (10, 20, 10, 14),
    (21, 11, 10, 2),
    (11, 21, 11, 9),
    (21, 22, 11, 10),
    (22, 12, 11, 11),
    (12, 11, 11, 8),
    (12, 22, 12, 17),
    (23, 13, 12, 4),
    (20, 30, 20, 15),
    (30, 31, 20, 16),
    (31, 32, 21, 18),
    (22, 21, 21, 7),
    (32, 33, 22, 19),
    (33, 23, 22, 13),
];

#[test]
fn a_hole(rt: HostRuntime) -> Result<(), Fail> {
    let cells = [1, 1, 1, 1, 2, 1, 1, 1, 1];
    assert!(rt; traces::<false>(rt.alloc(), (3, 3), &cells, &HOLE)?);
    assert!(rt; traces::<true>(rt.alloc(), (3, 3), &cells, &HOLE)?);
    Ok(())
}

const TWO_HOLES: [Told; 32] = [
    (0, 10, 0, 7),
    (1, 0, 0, 0),
    (11, 12, 1, 13),
    (2, 1, 1, 1),
    (3, 2, 2, 3),
    (14, 4, 3, 6),
    (4, 3, 3, 4),
    (10, 20, 10, 16),
    (21, 11, 10, 2),
    (11, 21, 11, 10),
    (21, 22, 11, 11),
    (22, 12, 11, 12),
    (12, 11, 11, 9),
    (12, 22, 12, 18),
    (22, 23, 12, 23),
    (24, 14, 13, 5),
    (20, 30, 20, 25),
    (32, 22, 21, 14),
    (22, 21, 21, 8),
    (22, 32, 22, 20),
    (32, 33, 22, 21),
    (33, 23, 22, 22),
    (23, 22, 22, 19),
    (23, 33, 23, 29),
    (34, 24, 23, 15),
    (30, 40, 30, 26),
    (40, 41, 30, 27),
    (41, 42, 31, 28),
    (42, 43, 32, 30),
    (33, 32, 32, 17),
    (43, 44, 33, 31),
    (44, 34, 33, 24),
];

#[test]
fn two_holes_that_touch(rt: HostRuntime) -> Result<(), Fail> {
    let cells = [1, 1, 1, 1, 1, 2, 1, 1, 1, 1, 2, 1, 1, 1, 1, 1];
    assert!(rt; traces::<false>(rt.alloc(), (4, 4), &cells, &TWO_HOLES)?);
    Ok(())
}

const FOUR_CELLS: [Told; 16] = [
    (0, 10, 0, 1),
    (10, 11, 0, 2),
    (11, 1, 0, 3),
    (1, 0, 0, 0),
    (1, 11, 1, 5),
    (11, 12, 1, 6),
    (12, 2, 1, 7),
    (2, 1, 1, 4),
    (10, 20, 10, 9),
    (20, 21, 10, 10),
    (21, 11, 10, 11),
    (11, 10, 10, 8),
    (11, 21, 11, 13),
    (21, 22, 11, 14),
    (22, 12, 11, 15),
    (12, 11, 11, 12),
];

#[test]
fn four_cells_that_touch_by_a_corner(rt: HostRuntime) -> Result<(), Fail> {
    assert!(rt; traces::<false>(rt.alloc(), (2, 2), &[1, 2, 2, 1], &FOUR_CELLS)?);
    Ok(())
}

#[test]
fn cells_that_are_not_valid_have_no_edges(rt: HostRuntime) -> Result<(), Fail> {
    let edges = [
        (0, 10, 0, 1),
        (10, 11, 0, 2),
        (11, 1, 0, 3),
        (1, 0, 0, 0),
        (2, 12, 2, 5),
        (12, 13, 2, 6),
        (13, 3, 2, 7),
        (3, 2, 2, 4),
    ];
    assert!(rt; traces::<false>(rt.alloc(), (3, 1), &[1, -9999, 1], &edges)?);
    assert!(rt; traces::<false>(rt.alloc(), (2, 1), &[-9999, -9999], &[])?);
    Ok(())
}

/// Which edges of these cells run along a row, by number, and then the same by walks.
fn levels(alloc: Global, size: (u32, u32), cells: &[i64]) -> Result<Vec<bool>, AllocError>
    requires cols { 0 < size.0 }
    requires rows { 0 < size.1 }
    requires small { size.0 * size.1 ≤ most_cells }
    requires whole { length cells.now ≡ size.0 * size.1 }
{
    let grid = Grid::from_cells(size.0, size.1, Vec::from_slice(alloc, cells)?);
    let valid = Mask::valid_of(alloc, &grid, None)?;
    let regions = label::<i64, false>(alloc, &grid, &valid)?;
    let table = EdgeTable::build(alloc, &regions)?;
    let mut out = Vec::new(alloc);
    for e in 0..table.count() {
        out.push(table.is_level(e))?;
    }
    let walks = EdgeWalks::of(table);
    for e in 0..walks.count() {
        out.push(walks.edge(e).is_level())?;
    }
    Ok(out)
}

// Down its left side, to the right below it, up its right side, to the left above it.
#[test]
fn every_second_edge_round_a_cell_is_level(rt: HostRuntime) -> Result<(), Fail> {
    let found = levels(rt.alloc(), (1, 1), &[1])?;
    assert!(rt;
        found.as_slice() == [false, true, false, true, false, true, false, true].as_slice()
    );
    Ok(())
}
