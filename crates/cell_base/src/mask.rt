ghost use Rattle.std.specs.Prelude.{◌≡◌, ◌≢◌, ◌*◌, ◌<◌, ◌≤◌, ◌↔◌, Some, replicate, IfOk, IsTrue, length, slice_get};
ghost use Rattle.cell_base.specs.Raster.{IsRaster, Place, SetsPlace, most_cells, raster_of, value_at};
ghost use Rattle.cell_base.specs.Valid.{IsMarked, IsValid};

use crate::cell::Cell;
use crate::grid::Grid;
use std::alloc::{AllocError, Global};
use std::marker::Model;

/// A truth value for each cell of a grid.
#[derive(Drop)]
pub struct Mask {
    cells: Grid<bool>,
}

impl Model for Mask {
    ghost use Rattle.std.specs.Prelude.{Bool};
    ghost use Rattle.cell_base.specs.Raster.{Raster};

    ghost Value = { Raster Bool };

    ghost view = { λ mask. mask.cells };
}

impl Mask {
    /// A mask with the same value in each cell. The only error is want of memory.
    pub fn make(alloc: Global, ncols: u32, nrows: u32, v: bool) -> Result<Mask, AllocError>
        requires cols { 0 < ncols }
        requires rows { 0 < nrows }
        requires small { ncols * nrows ≤ most_cells }
        ensures { IfOk result (λ mask. mask ≡ raster_of ncols nrows (replicate (ncols * nrows) v)) }
    {
        let cells = Grid::make(alloc, ncols, nrows, v)?;
        Ok(Mask { cells })
    }

    /// The number of columns.
    pub fn ncols(&self) -> u32
        ensures value { result ≡ self.now.ncols }
        ensures shape { IsRaster self.now }
    {
        self.cells.ncols()
    }

    /// The number of rows.
    pub fn nrows(&self) -> u32
        ensures value { result ≡ self.now.nrows }
        ensures shape { IsRaster self.now }
    {
        self.cells.nrows()
    }

    /// The truth values of a row, from the left.
    pub fn row(&self, row: u32) -> &[bool]
        requires { row < self.now.nrows }
        ensures cells { slice_get self.now.rows row ≡ Some result.now }
        ensures width { length result.now ≡ self.now.ncols }
    {
        self.cells.row(row)
    }

    /// Whether a cell is true.
    pub fn get(&self, row: u32, col: u32) -> bool
        requires row { row < self.now.nrows }
        requires col { col < self.now.ncols }
        ensures { value_at self.now (row, col) ≡ Some result }
    {
        self.cells.get(row, col)
    }

    /// Gives a cell another value.
    pub fn set(&mut self, row: u32, col: u32, v: bool)
        requires row { row < self.old.nrows }
        requires col { col < self.old.ncols }
        ensures { SetsPlace self.old self.new (row, col) v }
    {
        self.cells.set(row, col, v);
    }

    /// Gives each cell the same value.
    pub fn fill(&mut self, v: bool)
        ensures { self.new ≡ raster_of self.old.ncols self.old.nrows
            (replicate (self.old.ncols * self.old.nrows) v) }
    {
        self.cells.fill(v);
    }

    /// The valid cells: true exactly where a cell isn't the nodata value. The only error is
    /// want of memory.
    pub fn valid_of<T: Cell>(
        alloc: Global,
        cells: &Grid<T>,
        nodata: Option<T>,
    ) -> Result<Mask, AllocError>
        ensures cols { IfOk result (λ mask. mask.ncols ≡ cells.now.ncols) }
        ensures rows { IfOk result (λ mask. mask.nrows ≡ cells.now.nrows) }
        ensures valid { IfOk result (λ mask. (p : Place) → IsMarked mask p ↔ IsValid cells.now nodata p) }
    {
        let mut mask = Mask::make(alloc, cells.ncols(), cells.nrows(), false)?;
        'rows: for row in 0..cells.nrows() {
            'cols: for col in 0..cells.ncols() {
                mask.set(row, col, differs(nodata, cells.get(row, col)));
            }
        }
        Ok(mask)
    }
}

// Whether a value isn't the nodata value.
fn differs<T: Cell>(nodata: Option<T>, value: T) -> bool
    ensures { IsTrue result ↔ (nodata ≢ Some value) }
{
    match nodata {
        None => true,
        Some(nodata) => nodata != value,
    }
}
