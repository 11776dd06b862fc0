// Expected grids were worked out by hand from the rules of the sieve.
ghost use Rattle.std.specs.Prelude.{◌*◌, ◌<◌, ◌≡◌, ◌≤◌, length};
ghost use Rattle.cell_base.specs.Raster.{most_cells};

use cell_base::{Cell, Grid, Mask, Micro};
use sieve_core::sieve;
use std::alloc::{AllocError, Global};
use std::test::Fail;

/// Whether the sieve of these cells, where -9999 isn't valid, gives those.
fn gives<const EIGHT: bool>(
    alloc: Global,
    size: (u32, u32),
    cells: &[i64],
    st: u32,
    want: &[i64],
) -> Result<bool, AllocError>
    requires cols { 0 < size.0 }
    requires rows { 0 < size.1 }
    requires small { size.0 * size.1 ≤ most_cells }
    requires whole { length cells.now ≡ size.0 * size.1 }
{
    let mut grid = Grid::from_cells(size.0, size.1, Vec::from_slice(alloc, cells)?);
    let valid = Mask::valid_of(alloc, &grid, Some(-9999))?;
    sieve::<i64, EIGHT>(alloc, &mut grid, &valid, st)?;
    let mut at = 0usize;
    for row in 0..grid.nrows() {
        for cell in grid.row(row) {
            if want.get(at) != Some(cell) {
                return Ok(false);
            }
            at = at.wrapping_add(1);
        }
    }
    Ok(at == want.len())
}

/// Whether the sieve gives this under four and under eight alike.
fn gives_both(
    alloc: Global,
    size: (u32, u32),
    cells: &[i64],
    st: u32,
    want: &[i64],
) -> Result<bool, AllocError>
    requires cols { 0 < size.0 }
    requires rows { 0 < size.1 }
    requires small { size.0 * size.1 ≤ most_cells }
    requires whole { length cells.now ≡ size.0 * size.1 }
{
    Ok(
        gives::<false>(alloc, size, cells, st, want)?
            && gives::<true>(alloc, size, cells, st, want)?,
    )
}

#[test]
fn chains_lead_to_the_first_large_enough(rt: HostRuntime) -> Result<(), Fail> {
    let steps = [1, 2, 2, 3, 3, 3];
    assert!(rt; gives_both(rt.alloc(), (6, 1), &steps, 3, &[3, 3, 3, 3, 3, 3])?);
    assert!(rt; gives_both(rt.alloc(), (4, 1), &[1, 2, 3, 3], 2, &[3, 3, 3, 3])?);
    Ok(())
}

#[test]
fn chains_that_repeat_keep_their_values(rt: HostRuntime) -> Result<(), Fail> {
    assert!(rt; gives_both(rt.alloc(), (2, 1), &[1, 2], 2, &[1, 2])?);
    assert!(rt; gives_both(rt.alloc(), (2, 1), &[1, 2], 4_294_967_295, &[1, 2])?);
    Ok(())
}

#[test]
fn of_two_as_large_the_lower_number(rt: HostRuntime) -> Result<(), Fail> {
    assert!(rt; gives_both(rt.alloc(), (5, 1), &[5, 5, 7, 6, 6], 2, &[5, 5, 5, 6, 6])?);
    assert!(rt; gives_both(rt.alloc(), (1, 5), &[5, 5, 7, 6, 6], 2, &[5, 5, 5, 6, 6])?);
    Ok(())
}

#[test]
fn cells_that_are_not_valid_stay(rt: HostRuntime) -> Result<(), Fail> {
    let gap = [1, -9999, 2];
    assert!(rt; gives_both(rt.alloc(), (3, 1), &gap, 2, &gap)?);
    assert!(rt; gives_both(rt.alloc(), (2, 1), &[-9999, -9999], 9, &[-9999, -9999])?);
    Ok(())
}

#[test]
fn corners_join_under_eight_alone(rt: HostRuntime) -> Result<(), Fail> {
    let cells = [5, 5, 5, 5, 7, 5, 5, 5, 7];
    let fives = [5; 9];
    assert!(rt; gives::<false>(rt.alloc(), (3, 3), &cells, 2, &fives)?);
    assert!(rt; gives::<true>(rt.alloc(), (3, 3), &cells, 2, &cells)?);
    assert!(rt; gives::<true>(rt.alloc(), (3, 3), &cells, 3, &fives)?);
    Ok(())
}

#[test]
fn corners_make_neighbours_under_eight_alone(rt: HostRuntime) -> Result<(), Fail> {
    let cells = [1, -9999, -9999, 2, -9999, 2];
    assert!(rt; gives::<false>(rt.alloc(), (2, 3), &cells, 2, &cells)?);
    assert!(rt;
        gives::<true>(
            rt.alloc(),
            (2, 3),
            &cells,
            2,
            &[2, -9999, -9999, 2, -9999, 2]
        )?
    );
    Ok(())
}

#[test]
fn low_thresholds_keep_all(rt: HostRuntime) -> Result<(), Fail> {
    let cells = [5, 5, 5, 5, 7, 5, 5, 5, 7];
    assert!(rt; gives_both(rt.alloc(), (3, 3), &cells, 0, &cells)?);
    assert!(rt; gives_both(rt.alloc(), (3, 3), &cells, 1, &cells)?);
    assert!(rt; gives_both(rt.alloc(), (1, 1), &[-5], 2, &[-5])?);
    Ok(())
}

#[test]
fn land_cover(rt: HostRuntime) -> Result<(), Fail> {
    let cells = [
        11, 11, 41, 41, 41, -9999, 11, 11, 41, 82, 41, -9999, 11, 21, 21, 21, 21, 21,
    ];
    let want = [
        11, 11, 41, 41, 41, -9999, 11, 11, 41, 41, 41, -9999, 11, 21, 21, 21, 21, 21,
    ];
    assert!(rt; gives_both(rt.alloc(), (6, 3), &cells, 2, &want)?);
    Ok(())
}

#[test]
fn cells_of_decimals(rt: HostRuntime) -> Result<(), Fail> {
    let low = <Micro as Cell>::clamp_from(1);
    let high = <Micro as Cell>::clamp_from(2);
    let cells = Vec::from_slice(rt.alloc(), &[low, high, high])?;
    let mut grid = Grid::from_cells(3, 1, cells);
    let valid = Mask::valid_of(rt.alloc(), &grid, None)?;
    sieve::<Micro, false>(rt.alloc(), &mut grid, &valid, 2)?;
    if grid.nrows() == 1 {
        assert!(rt; grid.row(0).iter().all(|cell| *cell == high));
    }
    Ok(())
}
