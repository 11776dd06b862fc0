ghost use Rattle.std.specs.Prelude.{◌≡◌, ◌+◌, ◌<◌, IfOk, length};
ghost use Rattle.cell_base.specs.Raster.{most_cells};
ghost use Rattle.region_label.specs.Labelling.{IsLabelling};
ghost use Rattle.region_label.specs.RunTable.{IsFilled, IsTableOfRegions, TableOfRuns, regions_of};
ghost use Rattle.region_label.specs.Inner.Sizes.{AreCounted};
ghost use Rattle.region_label.specs.Inner.Table.{AreSizesBelow};

use crate::regions::Regions;
use crate::table::RunTable;
use cell_base::{Cell, Grid, Mask};
use std::alloc::{AllocError, Global};

// Adds the cells of a run to those of its component.
fn count_run(sizes: &mut [u32], table: &RunTable, i: usize)
    requires filled { IsTableOfRegions (regions_of table.now) table.now }
    requires small { AreSizesBelow (most_cells + 1) table.now }
    requires run { i < length table.now.runs }
    requires counted { AreCounted table.now i sizes.old }
    ensures { AreCounted table.now (i + 1) sizes.new }
{
    let Some(k) = table.components()[i] else {
        return;
    };
    let run = table.runs()[i];
    sizes[k as usize] += run.to - run.from;
}

// The number of cells of each component, over the runs as they lie. The only error is want of memory.
fn sizes_of(alloc: Global, table: &RunTable) -> Result<Vec<u32>, AllocError>
    requires filled { IsTableOfRegions (regions_of table.now) table.now }
    requires small { AreSizesBelow (most_cells + 1) table.now }
    ensures { IfOk result (λ sizes. sizes.items ≡ (regions_of table.now).sizes) }
{
    let mut sizes = vec![in alloc; 0u32; table.count() as usize]?;
    for i in 0..table.runs().len() {
        count_run(&mut sizes, table, i);
    }
    Ok(sizes)
}

/// The components of the valid cells, joined by steps to the four side neighbours, or with EIGHT
/// to all eight. The only error is want of memory.
pub fn label<T: Cell, const EIGHT: bool>(
    alloc: Global,
    cells: &Grid<T>,
    valid: &Mask,
) -> Result<Regions, AllocError>
    requires cols { valid.now.ncols ≡ cells.now.ncols }
    requires rows { valid.now.nrows ≡ cells.now.nrows }
    ensures labelling { IfOk result (λ regions. IsLabelling EIGHT cells.now valid.now regions) }
    // the table that the regions lend is that of the labelled cells, filled at this connectivity
    ensures table { IfOk result (λ regions. (table : TableOfRuns) → regions ≡ regions_of table
        → IsTableOfRegions regions table → IsFilled EIGHT cells.now valid.now table) }
{
    let mut table = RunTable::build(alloc, cells, valid)?;
    table.fill::<EIGHT>();
    let sizes = sizes_of(alloc, &table)?;
    Ok(Regions::of(table, sizes))
}
