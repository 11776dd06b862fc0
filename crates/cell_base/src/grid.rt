ghost use Rattle.std.specs.Prelude.{◌≡◌, ◌*◌, ◌<◌, ◌≤◌, Some, replicate, IfOk, length, slice_get};
ghost use Rattle.cell_base.specs.Raster.{IsRaster, SetsPlace, most_cells, raster_of, value_at};

use std::alloc::{AllocError, Global};
use std::marker::Model;

/// A grid of at least one and at most 16,777,216 values. Contracts see its size and its rows.
#[derive(Drop)]
pub struct Grid<T> {
    ncols: u32,
    nrows: u32,
    // one flat vector: row after row, from the top
    cells: Vec<T>,
}

impl<T> Model for Grid<T> {
    ghost use Rattle.std.specs.Prelude.{◌≡◌, ◌*◌, ◌<◌, ◌≤◌, length};
    ghost use Rattle.cell_base.specs.Raster.{Raster, most_cells, raster_of};
    ghost use Rattle.cell_base.specs.Inner.Cells.{HasCellForEachPlace};

    ghost Value = { Raster T };

    ghost view = { λ g. raster_of g.ncols g.nrows g.cells.items };

    ghost invariant = { λ g. HasCellForEachPlace g.ncols g.nrows g.cells.items };
}

impl<T: Copy> Grid<T> {
    /// A grid with the same value in each cell. The only error is want of memory.
    pub fn make(alloc: Global, ncols: u32, nrows: u32, v: T) -> Result<Grid<T>, AllocError>
        requires cols { 0 < ncols }
        requires rows { 0 < nrows }
        requires small { ncols * nrows ≤ most_cells }
        ensures { IfOk result (λ g. g ≡ raster_of ncols nrows (replicate (ncols * nrows) v)) }
    {
        let count = ncols as usize * nrows as usize;
        let mut cells = Vec::with_capacity(alloc, count)?;
        for _ in 0..count {
            cells.push(v)?;
        }
        Ok(Grid {
            ncols,
            nrows,
            cells,
        })
    }

    /// The grid that these cells make, row after row. It takes no memory.
    pub fn from_cells(ncols: u32, nrows: u32, cells: Vec<T>) -> Grid<T>
        requires cols { 0 < ncols }
        requires rows { 0 < nrows }
        requires small { ncols * nrows ≤ most_cells }
        requires count { length cells.items ≡ ncols * nrows }
        ensures { result ≡ raster_of ncols nrows cells.items }
    {
        Grid {
            ncols,
            nrows,
            cells,
        }
    }

    /// The number of columns.
    pub fn ncols(&self) -> u32
        ensures value { result ≡ self.now.ncols }
        ensures shape { IsRaster self.now }
    {
        self.ncols
    }

    /// The number of rows.
    pub fn nrows(&self) -> u32
        ensures value { result ≡ self.now.nrows }
        ensures shape { IsRaster self.now }
    {
        self.nrows
    }

    /// The cells of a row, from the left.
    pub fn row(&self, row: u32) -> &[T]
        requires { row < self.now.nrows }
        ensures cells { slice_get self.now.rows row ≡ Some result.now }
        ensures width { length result.now ≡ self.now.ncols }
    {
        let from = row as usize * self.ncols as usize;
        &self.cells[from..from + self.ncols as usize]
    }

    /// The value of a cell.
    pub fn get(&self, row: u32, col: u32) -> T
        requires row { row < self.now.nrows }
        requires col { col < self.now.ncols }
        ensures { value_at self.now (row, col) ≡ Some result }
    {
        self.cells[row as usize * self.ncols as usize + col as usize]
    }

    /// Gives a cell another value.
    pub fn set(&mut self, row: u32, col: u32, v: T)
        requires row { row < self.old.nrows }
        requires col { col < self.old.ncols }
        ensures { SetsPlace self.old self.new (row, col) v }
    {
        let at = row as usize * self.ncols as usize + col as usize;
        self.cells[at] = v;
    }

    /// Gives each cell the same value.
    pub fn fill(&mut self, v: T)
        ensures { self.new ≡ raster_of self.old.ncols self.old.nrows
            (replicate (self.old.ncols * self.old.nrows) v) }
    {
        for cell in self.cells.iter_mut() {
            *cell = v;
        }
    }
}
