// Expected numbers, first cells and sizes were read off the grids by eye.
ghost use Rattle.std.specs.Prelude.{◌≡◌, ◌*◌, ◌<◌, ◌≤◌, length};
ghost use Rattle.cell_base.specs.Raster.{most_cells};

use cell_base::{Grid, Mask};
use region_label::{Regions, label};
use std::alloc::{AllocError, Global};
use std::test::Fail;

/// The components of these cells.
fn labelled<const EIGHT: bool>(
    alloc: Global,
    ncols: u32,
    nrows: u32,
    cells: Vec<i64>,
    nodata: Option<i64>,
) -> Result<Regions, AllocError>
    requires cols { 0 < ncols }
    requires rows { 0 < nrows }
    requires small { ncols * nrows ≤ most_cells }
    requires whole { length cells.items ≡ ncols * nrows }
{
    let grid = Grid::from_cells(ncols, nrows, cells);
    let valid = Mask::valid_of(alloc, &grid, nodata)?;
    label::<i64, EIGHT>(alloc, &grid, &valid)
}

/// Whether each cell has its number, where 99 stands for none.
fn has_numbers(regions: &Regions, want: &[u32]) -> bool {
    let mut at = 0usize;
    for row in 0..regions.nrows() {
        for col in 0..regions.ncols() {
            if want.get(at).copied() != Some(regions.region_of(row, col).unwrap_or(99)) {
                return false;
            }
            at = at.wrapping_add(1);
        }
    }
    at == want.len()
}

/// Whether the components have these first cells, as row times 10 plus column, and sizes.
fn has_components(regions: &Regions, firsts: &[u64], sizes: &[u32]) -> bool {
    for k in 0..regions.count() {
        let (row, col) = regions.first(k);
        if firsts.get(k as usize).copied() != Some(10 * row as u64 + col as u64) {
            return false;
        }
        if sizes.get(k as usize).copied() != Some(regions.size(k)) {
            return false;
        }
    }
    regions.count() as usize == firsts.len() && firsts.len() == sizes.len()
}

/// Whether labelling finds these components.
fn finds<const EIGHT: bool>(
    alloc: Global,
    size: (u32, u32),
    cells: &[i64],
    want: &[u32],
    firsts: &[u64],
    sizes: &[u32],
) -> Result<bool, AllocError>
    requires cols { 0 < size.0 }
    requires rows { 0 < size.1 }
    requires small { size.0 * size.1 ≤ most_cells }
    requires whole { length cells.now ≡ size.0 * size.1 }
{
    let cells = Vec::from_slice(alloc, cells)?;
    let regions = labelled::<EIGHT>(alloc, size.0, size.1, cells, Some(-9999))?;
    Ok(has_numbers(&regions, want) && has_components(&regions, firsts, sizes))
}

/// Whether labelling finds these components under four and under eight alike.
fn finds_both(
    alloc: Global,
    size: (u32, u32),
    cells: &[i64],
    want: &[u32],
    firsts: &[u64],
    sizes: &[u32],
) -> Result<bool, AllocError>
    requires cols { 0 < size.0 }
    requires rows { 0 < size.1 }
    requires small { size.0 * size.1 ≤ most_cells }
    requires whole { length cells.now ≡ size.0 * size.1 }
{
    Ok(
        finds::<false>(alloc, size, cells, want, firsts, sizes)?
            && finds::<true>(alloc, size, cells, want, firsts, sizes)?,
    )
}

#[test]
fn two_in_an_angle(rt: HostRuntime) -> Result<(), Fail> {
    let cells = [1, 1, 2, 1, 2, 2];
    assert!(rt;
        finds_both(
            rt.alloc(),
            (3, 2),
            &cells,
            &[0, 0, 1, 0, 1, 1],
            &[0, 2],
            &[3, 3]
        )?
    );
    Ok(())
}

#[test]
fn one_cell(rt: HostRuntime) -> Result<(), Fail> {
    assert!(rt; finds_both(rt.alloc(), (1, 1), &[-5], &[0], &[0], &[1])?);
    Ok(())
}

#[test]
fn a_ring_of_cells_round_one(rt: HostRuntime) -> Result<(), Fail> {
    let cells = [1, 1, 1, 1, 2, 1, 1, 1, 1];
    let numbers = [0, 0, 0, 0, 1, 0, 0, 0, 0];
    assert!(rt; finds_both(rt.alloc(), (3, 3), &cells, &numbers, &[0, 11], &[8, 1])?);
    Ok(())
}

#[test]
fn two_holes_that_touch(rt: HostRuntime) -> Result<(), Fail> {
    let cells = [1, 1, 1, 1, 1, 2, 1, 1, 1, 1, 2, 1, 1, 1, 1, 1];
    let four = [0, 0, 0, 0, 0, 1, 0, 0, 0, 0, 2, 0, 0, 0, 0, 0];
    assert!(rt; finds::<false>(rt.alloc(), (4, 4), &cells, &four, &[0, 11, 22], &[14, 1, 1])?);
    let eight = [0, 0, 0, 0, 0, 1, 0, 0, 0, 0, 1, 0, 0, 0, 0, 0];
    assert!(rt; finds::<true>(rt.alloc(), (4, 4), &cells, &eight, &[0, 11], &[14, 2])?);
    Ok(())
}

#[test]
fn a_hole_that_touches_the_shell(rt: HostRuntime) -> Result<(), Fail> {
    let cells = [5, 5, 5, 5, 7, 5, 5, 5, 7];
    assert!(rt;
        finds::<false>(
            rt.alloc(),
            (3, 3),
            &cells,
            &[0, 0, 0, 0, 1, 0, 0, 0, 2],
            &[0, 11, 22],
            &[7, 1, 1]
        )?
    );
    assert!(rt;
        finds::<true>(
            rt.alloc(),
            (3, 3),
            &cells,
            &[0, 0, 0, 0, 1, 0, 0, 0, 1],
            &[0, 11],
            &[7, 2]
        )?
    );
    Ok(())
}

#[test]
fn a_chequer(rt: HostRuntime) -> Result<(), Fail> {
    let cells = [1, 2, 2, 1];
    assert!(rt;
        finds::<false>(
            rt.alloc(),
            (2, 2),
            &cells,
            &[0, 1, 2, 3],
            &[0, 1, 10, 11],
            &[1, 1, 1, 1]
        )?
    );
    assert!(rt; finds::<true>(rt.alloc(), (2, 2), &cells, &[0, 1, 1, 0], &[0, 1], &[2, 2])?);
    Ok(())
}

#[test]
fn cells_that_are_not_valid(rt: HostRuntime) -> Result<(), Fail> {
    assert!(rt; finds_both(rt.alloc(), (2, 1), &[-9999, -9999], &[99, 99], &[], &[])?);
    assert!(rt;
        finds_both(
            rt.alloc(),
            (3, 1),
            &[1, -9999, 1],
            &[0, 99, 1],
            &[0, 2],
            &[1, 1]
        )?
    );
    Ok(())
}

#[test]
fn runs_in_a_row(rt: HostRuntime) -> Result<(), Fail> {
    assert!(rt;
        finds_both(
            rt.alloc(),
            (6, 1),
            &[1, 2, 2, 3, 3, 3],
            &[0, 1, 1, 2, 2, 2],
            &[0, 1, 3],
            &[1, 2, 3]
        )?
    );
    assert!(rt;
        finds_both(
            rt.alloc(),
            (5, 1),
            &[5, 5, 7, 6, 6],
            &[0, 0, 1, 2, 2],
            &[0, 2, 3],
            &[2, 1, 2]
        )?
    );
    Ok(())
}

#[test]
fn short_rows(rt: HostRuntime) -> Result<(), Fail> {
    assert!(rt; finds_both(rt.alloc(), (2, 1), &[1, 2], &[0, 1], &[0, 1], &[1, 1])?);
    assert!(rt;
        finds_both(
            rt.alloc(),
            (4, 1),
            &[1, 2, 3, 3],
            &[0, 1, 2, 2],
            &[0, 1, 2],
            &[1, 1, 2]
        )?
    );
    assert!(rt;
        finds_both(
            rt.alloc(),
            (3, 1),
            &[1, -9999, 2],
            &[0, 99, 1],
            &[0, 2],
            &[1, 1]
        )?
    );
    Ok(())
}

#[test]
fn blocks_of_runs_have_their_firsts_and_sizes(rt: HostRuntime) -> Result<(), Fail> {
    // an arch over a stripe, and a stripe beside it
    let arch = [1, 1, 1, 2, 1, 3, 1, 2, 1, 3, 1, 2];
    let numbers = [0, 0, 0, 1, 0, 2, 0, 1, 0, 2, 0, 1];
    assert!(rt; finds::<false>(rt.alloc(), (4, 3), &arch, &numbers, &[0, 3, 11], &[7, 3, 2])?);
    assert!(rt; finds::<true>(rt.alloc(), (4, 3), &arch, &numbers, &[0, 3, 11], &[7, 3, 2])?);
    // two stripes that change sides
    let sides = [1, 2, 1, 2, 2, 1, 2, 1];
    let four = [0, 1, 0, 1, 2, 3, 2, 3];
    assert!(rt;
        finds::<false>(
            rt.alloc(),
            (2, 4),
            &sides,
            &four,
            &[0, 1, 20, 21],
            &[2, 2, 2, 2]
        )?
    );
    let eight = [0, 1, 0, 1, 1, 0, 1, 0];
    assert!(rt; finds::<true>(rt.alloc(), (2, 4), &sides, &eight, &[0, 1], &[4, 4])?);
    Ok(())
}
