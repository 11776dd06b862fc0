ghost use Rattle.std.specs.Prelude.{◌≡◌, ◌<◌, Some, length, slice_get};
ghost use Rattle.cell_base.specs.Raster.{IsRaster, value_at};
ghost use Rattle.region_label.specs.RunTable.{IsTableOfRegions, regions_of};
ghost use Rattle.region_label.specs.Inner.Table.{HasSizes};

use crate::table::RunTable;
use std::marker::Model;

/// The components of a grid: which one each cell is in, and the first cell and the size of each.
#[derive(Drop)]
pub struct Regions {
    table: RunTable,
    sizes: Vec<u32>,
}

impl Model for Regions {
    ghost use Rattle.region_label.specs.Inner.Table.{HasSizes};
    ghost use Rattle.region_label.specs.Labelling.{RegionTable};
    ghost use Rattle.region_label.specs.RunTable.{regions_of};

    ghost Value = { RegionTable };

    ghost view = { λ regions. regions_of regions.table };

    ghost invariant = { λ regions. HasSizes regions.table regions.sizes.items };
}

impl Regions {
    // The components of a filled table, with their sizes.
    pub(crate) fn of(table: RunTable, sizes: Vec<u32>) -> Regions
        requires { HasSizes table sizes.items }
        ensures { result ≡ regions_of table }
    {
        Regions { table, sizes }
    }

    /// The number of columns of the grid.
    pub fn ncols(&self) -> u32
        ensures value { result ≡ self.now.numbers.ncols }
        ensures shape { IsRaster self.now.numbers }
    {
        self.table.ncols()
    }

    /// The number of rows of the grid.
    pub fn nrows(&self) -> u32
        ensures value { result ≡ self.now.numbers.nrows }
        ensures shape { IsRaster self.now.numbers }
    {
        self.table.nrows()
    }

    /// The number of components.
    pub fn count(&self) -> u32
        ensures { result ≡ length self.now.firsts }
    {
        self.table.count()
    }

    /// The component that a cell is in. None exactly for a cell that isn't valid.
    pub fn region_of(&self, row: u32, col: u32) -> Option<u32>
        requires row { row < self.now.numbers.nrows }
        requires col { col < self.now.numbers.ncols }
        ensures { value_at self.now.numbers (row, col) ≡ Some result }
    {
        self.table.component_at(row, col)
    }

    /// The first cell of a component.
    pub fn first(&self, k: u32) -> (u32, u32)
        requires { k < length self.now.firsts }
        ensures { slice_get self.now.firsts k ≡ Some result }
    {
        let run = self.table.first_run(k);
        (run.row, run.from)
    }

    /// The number of cells of a component.
    pub fn size(&self, k: u32) -> u32
        requires { k < length self.now.firsts }
        ensures { slice_get self.now.sizes k ≡ Some result }
    {
        self.sizes[k as usize]
    }

    /// The runs of the labelled cells, filled at the connectivity of the labelling.
    pub fn table(&self) -> &RunTable
        ensures regions { self.now ≡ regions_of result.now }
        ensures runs { IsTableOfRegions self.now result.now }
    {
        &self.table
    }
}
