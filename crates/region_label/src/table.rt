ghost use Rattle.std.specs.Prelude.{◌≡◌, ◌<◌, ◌≤◌, [], ℤ, Bool, Some, IfOk, length, slice_get};
ghost use Rattle.cell_base.specs.Raster.{Raster};
ghost use Rattle.region_label.specs.Run.{first_cell};
ghost use Rattle.region_label.specs.RunTable.{AreInside, BeginsRow, IsFilled, IsTableOfCells, KeepsRuns, units_grid};
ghost use Rattle.region_label.specs.RunTable.{number_at, regions_of, runs_of};

use crate::lists::RunLists;
use crate::rows::RowRuns;
use crate::walk::RunWalk;
use cell_base::{Cell, Grid, Mask, Run};
use std::alloc::{AllocError, Global};
use std::marker::Model;

/// The runs of a grid's equal valid cells by row and column, and by the last fill the components that they are in.
#[derive(Drop)]
pub struct RunTable {
    rows: RowRuns,
    lists: RunLists,
}

impl Model for RunTable {
    ghost use Rattle.region_label.specs.Inner.Table.{IsTable, table_of};
    ghost use Rattle.region_label.specs.RunTable.{TableOfRuns};

    ghost Value = { TableOfRuns };

    ghost view = { λ table. table_of table.rows table.lists };

    ghost invariant = { λ table. IsTable table.rows table.lists };
}

impl RunTable {
    /// The runs of the valid cells, in no component yet. The only error is want of memory.
    pub fn build<T: Cell>(
        alloc: Global,
        cells: &Grid<T>,
        valid: &Mask,
    ) -> Result<RunTable, AllocError>
        requires cols { valid.now.ncols ≡ cells.now.ncols }
        requires rows { valid.now.nrows ≡ cells.now.nrows }
        ensures runs { IfOk result (IsTableOfCells (units_grid T.units_of cells.now) valid.now) }
        ensures none { IfOk result (λ table. table.lists ≡ []) }
    {
        let rows = RowRuns::build(alloc, cells, valid)?;
        let lists = RunLists::make(alloc, rows.runs.len())?;
        Ok(RunTable { rows, lists })
    }

    /// Finds the components anew, joined by steps to the four side neighbours, or with EIGHT to all eight. It takes
    /// no memory.
    pub fn fill<const EIGHT: bool>(&mut self)
        ensures runs { KeepsRuns self.old self.new }
        ensures filled { (cells : Raster ℤ) (valid : Raster Bool) → IsTableOfCells cells valid self.old
            → IsFilled EIGHT cells valid self.new }
    {
        self.lists.fill::<EIGHT>(&self.rows);
    }

    /// The number of components of the last fill, and 0 before any.
    pub fn count(&self) -> u32
        ensures { result ≡ length self.now.lists }
    {
        self.lists.count
    }

    /// The runs of a component, each once.
    pub fn runs_of(&self, k: u32) -> RunWalk<'_>
        requires { k < length self.now.lists }
        ensures { result ≡ runs_of self.now k }
    {
        RunWalk::from(
            &self.rows.runs,
            &self.lists.links,
            self.lists.firsts[k as usize],
        )
    }

    /// The number of columns of the grid.
    pub fn ncols(&self) -> u32
        ensures { result ≡ self.now.ncols }
    {
        self.rows.ncols
    }

    /// The number of rows of the grid.
    pub fn nrows(&self) -> u32
        ensures { result ≡ self.now.nrows }
    {
        self.rows.nrows
    }

    /// All runs by row and column.
    pub fn runs(&self) -> &[Run]
        ensures value { result.now ≡ self.now.runs }
        ensures inside { AreInside self.now }
    {
        &self.rows.runs
    }

    /// The component of each run by the last fill.
    pub fn components(&self) -> &[Option<u32>]
        ensures { result.now ≡ self.now.components }
    {
        &self.lists.components
    }

    /// Where the runs of a row begin; at the number of rows, where the last row's end.
    pub fn row_start(&self, row: u32) -> usize
        requires { row ≤ self.now.nrows }
        ensures within { result ≤ length self.now.runs }
        ensures begins { BeginsRow self.now row result }
    {
        self.rows.starts[row as usize] as usize
    }

    // The first run of a component.
    pub(crate) fn first_run(&self, k: u32) -> Run
        requires { k < length self.now.lists }
        ensures { slice_get (regions_of self.now).firsts k ≡ Some (first_cell result) }
    {
        self.rows.runs[self.lists.firsts[k as usize] as usize]
    }

    // The component of the run with a cell, if a run has it.
    pub(crate) fn component_at(&self, row: u32, col: u32) -> Option<u32>
        requires { row < self.now.nrows }
        ensures { result ≡ number_at self.now (row, col) }
    {
        let at = self.rows.first_past(row, col);
        if at == self.rows.starts[row as usize + 1] as usize {
            return None;
        }
        if col < self.rows.runs[at].from {
            return None;
        }
        self.lists.components[at]
    }
}
