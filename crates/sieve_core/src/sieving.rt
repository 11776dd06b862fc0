ghost use Rattle.std.specs.Prelude.{◌≡◌, ◌+◌, ◌≤◌, ◌<◌, OnErr, OnOk, length};
ghost use Rattle.cell_base.specs.Raster.{IsRaster, Raster};
ghost use Rattle.region_label.specs.RunTable.{IsTableOfRegions};
ghost use Rattle.sieve_core.specs.Sieve.{IsSieved, TakesValues};
ghost use Rattle.sieve_core.specs.Inner.Targets.{AreKnown, AreTargets};
ghost use Rattle.sieve_core.specs.Inner.Values.{AreAlike, AreFirstsIn, AreWritten, WritesRun};

use crate::neighbours::largest_neighbours;
use crate::targets::{Target, targets_of};
use cell_base::{Cell, Grid, Mask};
use region_label::{Regions, Run, RunTable, label};
use std::alloc::{AllocError, Global};

// Gives the cells of a run a value.
fn write_cells<T: Cell>(cells: &mut Grid<T>, run: Run, value: T)
    requires shape { IsRaster cells.old }
    requires row { run.row < cells.old.nrows }
    requires some { run.from ≤ run.to }
    requires cols { run.to ≤ cells.old.ncols }
    ensures { WritesRun run value cells.old cells.new }
{
    for col in run.from..run.to {
        cells.set(run.row, col, value);
    }
}

// Gives the cells of a run the value that their component takes, if it takes that of another.
fn write_run<T: Cell, const EIGHT: bool>(
    cells: &mut Grid<T>,
    regions: &Regions,
    table: &RunTable,
    st: u32,
    targets: &[Target],
    i: usize,
)
    requires lent { IsTableOfRegions regions.now table.now }
    requires firsts { AreFirstsIn regions.now }
    requires targets { AreTargets EIGHT regions.now st targets.now }
    requires i { i < length table.now.runs }
    requires shape { IsRaster cells.old }
    requires numbers { IsRaster regions.now.numbers }
    requires cols { cells.old.ncols ≡ regions.now.numbers.ncols }
    requires rows { cells.old.nrows ≡ regions.now.numbers.nrows }
    ensures shape { IsRaster cells.new }
    ensures cols { cells.new.ncols ≡ cells.old.ncols }
    ensures rows { cells.new.nrows ≡ cells.old.nrows }
    ensures written { (old : Raster T) → AreWritten regions.now table.now targets.now old cells.old i
        → AreWritten regions.now table.now targets.now old cells.new (i + 1) }
{
    let Some(k) = table.components()[i] else {
        return;
    };
    let Target::Takes(other) = targets[k as usize] else {
        return;
    };
    if other == k {
        return;
    }
    let (row, col) = regions.first(other);
    let value = cells.get(row, col);
    write_cells(cells, table.runs()[i], value);
}

// Gives each cell of a component that takes the value of another this value.
fn write_values<T: Cell, const EIGHT: bool>(
    cells: &mut Grid<T>,
    regions: &Regions,
    table: &RunTable,
    st: u32,
    targets: &[Target],
)
    requires lent { IsTableOfRegions regions.now table.now }
    requires firsts { AreFirstsIn regions.now }
    requires targets { AreTargets EIGHT regions.now st targets.now }
    requires cols { cells.old.ncols ≡ regions.now.numbers.ncols }
    requires rows { cells.old.nrows ≡ regions.now.numbers.nrows }
    requires alike { AreAlike regions.now cells.old }
    requires known { AreKnown regions.now }
    requires shape { IsRaster cells.old }
    requires numbers { IsRaster regions.now.numbers }
    ensures { TakesValues EIGHT regions.now st cells.old cells.new }
{
    for i in 0..table.runs().len() {
        write_run::<T, EIGHT>(cells, regions, table, st, targets, i);
    }
}

/// Gives each component of fewer than `st` valid cells the value of the first large enough in its chain of largest
/// neighbours, if there is one. The only error is want of memory, and it leaves the grid as it was.
pub fn sieve<T: Cell, const EIGHT: bool>(
    alloc: Global,
    cells: &mut Grid<T>,
    valid: &Mask,
    st: u32,
) -> Result<(), AllocError>
    requires cols { valid.now.ncols ≡ cells.old.ncols }
    requires rows { valid.now.nrows ≡ cells.old.nrows }
    ensures ok { OnOk result (IsSieved EIGHT cells.old valid.now st cells.new) }
    ensures err { OnErr result (cells.new ≡ cells.old) }
{
    let regions = label::<T, EIGHT>(alloc, cells, valid)?;
    let table = regions.table();
    let largest = largest_neighbours::<EIGHT>(alloc, &regions, table, st)?;
    let targets = targets_of::<EIGHT>(alloc, &regions, st, &largest)?;
    write_values::<T, EIGHT>(cells, &regions, table, st, &targets);
    Ok(())
}
