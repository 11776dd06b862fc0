// Expected runs were read off the grids by eye.
ghost use Rattle.std.specs.Prelude.{◌≡◌, ◌*◌, ◌<◌, ◌≤◌, length};
ghost use Rattle.cell_base.specs.Raster.{most_cells};

use cell_base::{Grid, Mask};
use region_label::{Run, RunTable, label};
use std::alloc::{AllocError, Global};
use std::test::Fail;

/// The runs of these cells, where -9999 isn't valid.
fn built(alloc: Global, ncols: u32, nrows: u32, cells: &[i64]) -> Result<RunTable, AllocError>
    requires cols { 0 < ncols }
    requires rows { 0 < nrows }
    requires small { ncols * nrows ≤ most_cells }
    requires whole { length cells.now ≡ ncols * nrows }
{
    let grid = Grid::from_cells(ncols, nrows, Vec::from_slice(alloc, cells)?);
    let valid = Mask::valid_of(alloc, &grid, Some(-9999))?;
    RunTable::build(alloc, &grid, &valid)
}

/// Whether a component has these runs, as row, start and end, each once, and no other.
fn has_runs(
    alloc: Global,
    table: &RunTable,
    k: u32,
    want: &[(u32, u32, u32)],
) -> Result<bool, AllocError> {
    if k >= table.count() {
        return Ok(false);
    }
    let mut found = Vec::new(alloc);
    for run in table.runs_of(k) {
        found.push((run.row, run.from, run.to))?;
    }
    Ok(
        found.len() == want.len()
            && want
                .iter()
                .all(|run| found.iter().any(|other| other == run)),
    )
}

#[test]
fn fills_by_sides_and_then_by_corners(rt: HostRuntime) -> Result<(), Fail> {
    let mut table = built(rt.alloc(), 3, 3, &[5, 5, 5, 5, 7, 5, 5, 5, 7])?;
    assert!(rt; table.runs().len() == 6);
    assert!(rt; table.count() == 0);
    table.fill::<false>();
    assert!(rt; table.count() == 3);
    let fives = [(0, 0, 3), (1, 0, 1), (1, 2, 3), (2, 0, 2)];
    assert!(rt; has_runs(rt.alloc(), &table, 0, &fives)?);
    assert!(rt; has_runs(rt.alloc(), &table, 1, &[(1, 1, 2)])?);
    assert!(rt; has_runs(rt.alloc(), &table, 2, &[(2, 2, 3)])?);
    table.fill::<true>();
    assert!(rt; table.count() == 2);
    assert!(rt; has_runs(rt.alloc(), &table, 0, &fives)?);
    assert!(rt; has_runs(rt.alloc(), &table, 1, &[(1, 1, 2), (2, 2, 3)])?);
    Ok(())
}

#[test]
fn rows_have_their_runs(rt: HostRuntime) -> Result<(), Fail> {
    let table = built(rt.alloc(), 3, 3, &[5, 5, 5, 5, 7, 5, 5, 5, 7])?;
    if table.nrows() == 3 {
        assert!(rt; table.row_start(0) == 0 && table.row_start(1) == 1);
        assert!(rt; table.row_start(2) == 4 && table.row_start(3) == 6);
    }
    let last = Run {
        row: 2,
        from: 2,
        to: 3,
    };
    assert!(rt; table.runs().last() == Some(&last));
    assert!(rt; table.components().iter().all(|number| number.is_none()));
    Ok(())
}

#[test]
fn cells_that_are_not_valid_end_a_run(rt: HostRuntime) -> Result<(), Fail> {
    let mut table = built(rt.alloc(), 5, 1, &[1, 1, -9999, 1, -9999])?;
    table.fill::<true>();
    assert!(rt; table.count() == 2);
    assert!(rt; has_runs(rt.alloc(), &table, 0, &[(0, 0, 2)])?);
    assert!(rt; has_runs(rt.alloc(), &table, 1, &[(0, 3, 4)])?);
    let mut none = built(rt.alloc(), 2, 1, &[-9999, -9999])?;
    none.fill::<false>();
    assert!(rt; none.count() == 0 && none.runs().is_empty());
    Ok(())
}

#[test]
fn regions_lend_their_runs(rt: HostRuntime) -> Result<(), Fail> {
    let cells = Vec::from_slice(rt.alloc(), &[1, 2, 2, 1])?;
    let grid = Grid::from_cells(2, 2, cells);
    let valid = Mask::valid_of(rt.alloc(), &grid, None)?;
    let regions = label::<i64, true>(rt.alloc(), &grid, &valid)?;
    assert!(rt; regions.table().count() == regions.count());
    assert!(rt; has_runs(rt.alloc(), regions.table(), 1, &[(0, 1, 2), (1, 0, 1)])?);
    Ok(())
}

/// Whether the runs are in these components, in order.
fn are_numbered(table: &RunTable, want: &[u32]) -> bool {
    let found = table.components();
    found.len() == want.len() && found.iter().zip(want.iter()).all(|(k, w)| *k == Some(*w))
}

#[test]
fn stripes_with_an_arch_fill_by_blocks(rt: HostRuntime) -> Result<(), Fail> {
    // 1 1 1 2
    // 1 3 1 2
    // 1 3 1 2
    let mut table = built(rt.alloc(), 4, 3, &[1, 1, 1, 2, 1, 3, 1, 2, 1, 3, 1, 2])?;
    assert!(rt; table.runs().len() == 10);
    table.fill::<false>();
    assert!(rt; table.count() == 3);
    assert!(rt; are_numbered(&table, &[0, 1, 0, 2, 0, 1, 0, 2, 0, 1]));
    let arch = [(0, 0, 3), (1, 0, 1), (1, 2, 3), (2, 0, 1), (2, 2, 3)];
    assert!(rt; has_runs(rt.alloc(), &table, 0, &arch)?);
    assert!(rt; has_runs(rt.alloc(), &table, 1, &[(0, 3, 4), (1, 3, 4), (2, 3, 4)])?);
    assert!(rt; has_runs(rt.alloc(), &table, 2, &[(1, 1, 2), (2, 1, 2)])?);
    table.fill::<true>();
    assert!(rt; table.count() == 3);
    assert!(rt; are_numbered(&table, &[0, 1, 0, 2, 0, 1, 0, 2, 0, 1]));
    assert!(rt; has_runs(rt.alloc(), &table, 0, &arch)?);
    Ok(())
}

#[test]
fn blocks_of_a_cup_are_joined_from_below(rt: HostRuntime) -> Result<(), Fail> {
    // 1 2 1 3
    // 1 2 1 3
    // 1 2 1 3
    // 1 1 1 2
    // 3 2 3 2
    let cells = [1, 2, 1, 3, 1, 2, 1, 3, 1, 2, 1, 3, 1, 1, 1, 2, 3, 2, 3, 2];
    let mut table = built(rt.alloc(), 4, 5, &cells)?;
    assert!(rt; table.runs().len() == 18);
    table.fill::<false>();
    assert!(rt; table.count() == 7);
    let numbers = [0, 1, 0, 2, 0, 1, 0, 2, 0, 1, 0, 2, 0, 3, 4, 5, 6, 3];
    assert!(rt; are_numbered(&table, &numbers));
    let cup = [
        (0, 0, 1),
        (0, 2, 3),
        (1, 0, 1),
        (1, 2, 3),
        (2, 0, 1),
        (2, 2, 3),
        (3, 0, 3),
    ];
    assert!(rt; has_runs(rt.alloc(), &table, 0, &cup)?);
    assert!(rt; has_runs(rt.alloc(), &table, 3, &[(3, 3, 4), (4, 3, 4)])?);
    table.fill::<true>();
    assert!(rt; are_numbered(&table, &numbers));
    assert!(rt; has_runs(rt.alloc(), &table, 0, &cup)?);
    Ok(())
}

#[test]
fn a_cup_with_few_blocks_fills_run_by_run(rt: HostRuntime) -> Result<(), Fail> {
    // 1 2 1 3
    // 1 2 1 3
    // 1 1 1 2
    // 3 2 3 2
    let cells = [1, 2, 1, 3, 1, 2, 1, 3, 1, 1, 1, 2, 3, 2, 3, 2];
    let mut table = built(rt.alloc(), 4, 4, &cells)?;
    assert!(rt; table.runs().len() == 14);
    table.fill::<false>();
    assert!(rt; table.count() == 7);
    assert!(rt; are_numbered(&table, &[0, 1, 0, 2, 0, 1, 0, 2, 0, 3, 4, 5, 6, 3]));
    let cup = [(0, 0, 1), (0, 2, 3), (1, 0, 1), (1, 2, 3), (2, 0, 3)];
    assert!(rt; has_runs(rt.alloc(), &table, 0, &cup)?);
    assert!(rt; has_runs(rt.alloc(), &table, 3, &[(2, 3, 4), (3, 3, 4)])?);
    table.fill::<true>();
    assert!(rt; are_numbered(&table, &[0, 1, 0, 2, 0, 1, 0, 2, 0, 3, 4, 5, 6, 3]));
    assert!(rt; has_runs(rt.alloc(), &table, 0, &cup)?);
    Ok(())
}

#[test]
fn corners_join_the_ends_of_blocks(rt: HostRuntime) -> Result<(), Fail> {
    // 1 2
    // 1 2
    // 2 1
    // 2 1
    let mut table = built(rt.alloc(), 2, 4, &[1, 2, 1, 2, 2, 1, 2, 1])?;
    table.fill::<true>();
    assert!(rt; table.count() == 2);
    assert!(rt; are_numbered(&table, &[0, 1, 0, 1, 1, 0, 1, 0]));
    assert!(rt;
        has_runs(
            rt.alloc(),
            &table,
            1,
            &[(0, 1, 2), (1, 1, 2), (2, 0, 1), (3, 0, 1)]
        )?
    );
    table.fill::<false>();
    assert!(rt; table.count() == 4);
    assert!(rt; are_numbered(&table, &[0, 1, 0, 1, 2, 3, 2, 3]));
    assert!(rt; has_runs(rt.alloc(), &table, 2, &[(2, 0, 1), (3, 0, 1)])?);
    Ok(())
}
