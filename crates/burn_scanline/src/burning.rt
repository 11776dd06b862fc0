ghost use Rattle.std.specs.Prelude.{◌≡◌, ◌<◌, ◌≤◌};
ghost use Rattle.cell_base.specs.Raster.{AreAligned, IsRaster, value_at};
ghost use Rattle.burn_scanline.specs.Runs.{AreWithin, has_cell, is_in_runs};
ghost use Rattle.burn_scanline.specs.Change.{is_marked};
ghost use Rattle.burn_scanline.specs.Burned.{Burns, burned};
ghost use Rattle.burn_scanline.specs.Inner.Growing.{is_at, is_in_row};

use crate::run_list::RunList;
use cell_base::{Cell, Grid, Mask, Run};

/// What burning makes of a cell.
#[derive(Clone, Copy, Debug, PartialEq, Eq)]
pub enum How {
    /// It takes the burned value.
    Set,
    /// It takes the sum of its own value and the burned one, held at the ends of the type.
    Add,
}

/// What a cell of this value holds once another is burned on it.
pub fn burned_on<T: Cell>(old: T, value: T, how: How) -> T
    ensures { T.units_of result ≡ burned T.least T.greatest how (T.units_of old) (T.units_of value) }
{
    match how {
        How::Set => value,
        How::Add => {
            let sum = i128::from(old.units()) + i128::from(value.units());
            T::clamp_from(sum)
        }
    }
}

// Burns a value on a cell.
fn burn_cell<T: Cell>(cells: &mut Grid<T>, row: u32, col: u32, value: T, how: How)
    requires row { row < cells.old.nrows }
    requires col { col < cells.old.ncols }
    ensures { Burns T.units_of T.least T.greatest how value (is_at (row, col)) cells.old cells.new }
{
    let burned = burned_on(cells.get(row, col), value, how);
    cells.set(row, col, burned);
}

// Burns a value on the cells of a row where a mask is true.
fn burn_row<T: Cell>(cells: &mut Grid<T>, cover: &Mask, row: u32, value: T, how: How)
    requires aligned { AreAligned cells.old cover.now }
    requires row { row < cells.old.nrows }
    ensures { Burns T.units_of T.least T.greatest how value (is_in_row row (is_marked cover.now)) cells.old cells.new }
{
    'cols: for col in 0..cells.ncols() {
        if cover.get(row, col) {
            burn_cell(cells, row, col, value, how);
        }
    }
}

/// Burns a value on the cells where a mask of the grid's size is true: each takes the value, or the sum of its own value
/// and this one, held at the ends of the type. All other cells stay. It takes no memory.
pub fn burn<T: Cell>(cells: &mut Grid<T>, cover: &Mask, value: T, how: How)
    requires cols { cover.now.ncols ≡ cells.old.ncols }
    requires rows { cover.now.nrows ≡ cells.old.nrows }
    ensures { Burns T.units_of T.least T.greatest how value (is_marked cover.now) cells.old cells.new }
{
    // the mask is as large
    let _rows = cover.nrows();
    'rows: for row in 0..cells.nrows() {
        burn_row(cells, cover, row, value, how);
    }
}

// Burns a value on the cells of a run.
fn burn_run<T: Cell>(cells: &mut Grid<T>, run: Run, value: T, how: How)
    requires shape { IsRaster cells.old }
    requires row { run.row < cells.old.nrows }
    requires some { run.from ≤ run.to }
    requires cols { run.to ≤ cells.old.ncols }
    ensures { Burns T.units_of T.least T.greatest how value (λ p. has_cell p run) cells.old cells.new }
{
    'cells: for col in run.from..run.to {
        burn_cell(cells, run.row, col, value, how);
    }
}

/// Burns a value on the cells of runs, which lie inside the grid, as `burn` does on those of a mask. It takes no memory.
pub fn burn_runs<T: Cell>(cells: &mut Grid<T>, runs: &RunList, value: T, how: How)
    requires { AreWithin cells.old.nrows cells.old.ncols runs.now }
    ensures { Burns T.units_of T.least T.greatest how value (is_in_runs runs.now) cells.old cells.new }
{
    let _rows = cells.nrows();
    'runs: for run in runs.as_slice() {
        burn_run(cells, *run, value, how);
    }
}
