// The cells that a geometry covers by their centres, row by row.
ghost use Rattle.std.specs.Prelude.{◌≡◌, ◌+◌, ◌<◌, ◌≤◌, nat_lt, [], All, OnOk, Some, length};
ghost use Rattle.std.specs.List.{filter};
ghost use Rattle.cell_base.specs.Raster.{IsRaster, Place, value_at};
ghost use Rattle.geo_transform.specs.Frame.{IsFrame};
ghost use Rattle.wkt_text.specs.declared.geometry.Geometry.{Geometry as GeometryValue};
ghost use Rattle.burn_scanline.specs.Centre.{is_covered};
ghost use Rattle.burn_scanline.specs.Runs.{AreWithin, Covers, EndBefore};
ghost use Rattle.burn_scanline.specs.EdgeTable.{IsEdgeTable, IsSpanned};
ghost use Rattle.burn_scanline.specs.Inner.Linking.{IsFilled, IsLinked, edges_in};
ghost use Rattle.burn_scanline.specs.Inner.Scan.{AreActive, AreColumns, AreColumnsBelow, AreCovered, AreTaken, FillsRow, IsSorted, end_of};
ghost use Rattle.burn_scanline.specs.declared.edge_rows.SpanRule.TheVariants.{Centre};

use crate::crossing::ActiveEdge;
use crate::edge_rows::{RowTable, SpanRule};
use crate::run_list::{RunList, mark_runs};
use cell_base::{Mask, Run};
use geo_transform::Frame;
use std::alloc::{AllocError, Global};
use wkt_text::Geometry;

/// What is kept from geometry to geometry while their covered cells are found: the table of edges, the edges that have
/// the row that is being filled, and their columns there. So a geometry no larger than one before it takes no memory.
/// What is kept from before has no part in any answer.
#[derive(Drop)]
pub struct CentreScan {
    table: RowTable,
    active: Vec<ActiveEdge>,
    columns: Vec<u32>,
}

// The end of the run that begins at a column: the next column, or behind the last one the end of the row.
fn run_end(columns: &[u32], at: usize, ncols: u32) -> u32
    requires { at < length columns.now }
    ensures { result ≡ end_of ncols columns.now at }
{
    if at + 1 < columns.len() {
        columns[at + 1]
    } else {
        ncols
    }
}

// Adds the runs of a row whose cells have an odd number of these columns at or left of them.
fn push_row(columns: &[u32], row: u32, ncols: u32, runs: &mut RunList) -> Result<(), AllocError>
    requires sorted { IsSorted columns.now }
    requires within { AreColumnsBelow ncols columns.now }
    requires ends { EndBefore (row, 0) runs.old }
    ensures { OnOk result (FillsRow row ncols columns.now runs.old runs.new) }
{
    let mut at = 0;
    while at < columns.len() {
        let to = run_end(columns, at, ncols);
        runs.push(Run {
            row,
            from: columns[at],
            to,
        })?;
        at += 2;
    }
    Ok(())
}

// Takes in the edges that begin in a row.
fn take_in(
    active: &mut Vec<ActiveEdge>,
    table: &RowTable,
    frame: &Frame,
    row: u32,
) -> Result<(), AllocError>
    requires frame { IsFrame frame.now }
    requires linked { IsLinked table.now }
    requires spans { All (IsSpanned Centre frame.now) (edges_in table.now.edges.items) }
    requires row { row < frame.now.nrows }
    requires taken { AreTaken frame.now row row (edges_in table.now.edges.items) active.old.items }
    ensures { OnOk result (AreTaken frame.now row (row + 1) (edges_in table.now.edges.items) active.new.items) }
{
    for e in table.starting(row) {
        active.push(ActiveEdge::of(frame, table.edges[e].edge))?;
    }
    Ok(())
}

// Finds the columns of a row's edges, in order.
fn find_columns(
    columns: &mut Vec<u32>,
    active: &[ActiveEdge],
    frame: &Frame,
    row: u32,
) -> Result<(), AllocError>
    requires frame { IsFrame frame.now }
    requires row { row < frame.now.nrows }
    requires active { AreActive frame.now row active.now }
    ensures { OnOk result (AreColumns frame.now row active.now columns.new.items) }
{
    columns.clear();
    for i in 0..active.len() {
        columns.push(active[i].column(frame, row))?;
    }
    columns.sort_unstable();
    Ok(())
}

// Drops the edges whose last row this is.
fn drop_ended(active: &mut Vec<ActiveEdge>, row: u32)
    ensures { active.new.items ≡ filter (λ edge. nat_lt row edge.last) active.old.items }
{
    active.retain(|edge| edge.last > row);
}

impl CentreScan {
    /// Nothing is kept yet. It takes no memory.
    pub fn new(alloc: Global) -> CentreScan {
        CentreScan {
            table: RowTable::new(alloc),
            active: Vec::new(alloc),
            columns: Vec::new(alloc),
        }
    }

    // Adds the runs of a row's covered cells.
    fn fill_row(&mut self, frame: &Frame, row: u32, runs: &mut RunList) -> Result<(), AllocError>
        requires frame { IsFrame frame.now }
        requires row { row < frame.now.nrows }
        requires linked { IsLinked self.old.table }
        requires spans { All (IsSpanned Centre frame.now) (edges_in self.old.table.edges.items) }
        requires taken { AreTaken frame.now row row (edges_in self.old.table.edges.items) self.old.active.items }
        requires ends { EndBefore (row, 0) runs.old }
        ensures table { self.new.table ≡ self.old.table }
        ensures taken { OnOk result (AreTaken frame.now (row + 1) (row + 1) (edges_in self.old.table.edges.items)
            self.new.active.items) }
        ensures covered { OnOk result ((g : GeometryValue) → IsEdgeTable Centre frame.now g (edges_in self.old.table.edges.items)
            → AreCovered frame.now g row runs.old → AreCovered frame.now g (row + 1) runs.new) }
    {
        take_in(&mut self.active, &self.table, frame, row)?;
        find_columns(&mut self.columns, &self.active, frame, row)?;
        push_row(&self.columns, row, frame.ncols, runs)?;
        drop_ended(&mut self.active, row);
        Ok(())
    }

    // Adds the runs of a geometry's covered cells, whose edges are in the table.
    fn fill_rows(
        &mut self,
        frame: &Frame,
        g: &Geometry,
        runs: &mut RunList,
    ) -> Result<(), AllocError>
        requires frame { IsFrame frame.now }
        requires filled { IsFilled Centre frame.now g.now self.old.table }
        requires empty { self.old.active.items ≡ [] }
        requires none { runs.old ≡ [] }
        ensures cells { OnOk result (Covers frame.now g.now runs.new) }
        ensures inside { OnOk result (AreWithin frame.now.nrows frame.now.ncols runs.new) }
    {
        for row in self.table.first_row..self.table.end_row {
            self.fill_row(frame, row, runs)?;
        }
        Ok(())
    }
}

/// Puts the runs of the cells that a geometry covers by the centre rule in the place of those that the list held. The
/// only error is want of memory; after it the list holds any runs.
pub fn centre_runs(
    frame: &Frame,
    g: &Geometry,
    scan: &mut CentreScan,
    runs: &mut RunList,
) -> Result<(), AllocError>
    requires { IsFrame frame.now }
    ensures cells { OnOk result (Covers frame.now g.now runs.new) }
    ensures inside { OnOk result (AreWithin frame.now.nrows frame.now.ncols runs.new) }
{
    runs.clear();
    scan.active.clear();
    scan.table.fill(frame, g, SpanRule::Centre)?;
    scan.fill_rows(frame, g, runs)
}

/// Makes a mask of the frame's size true exactly at the cells that a geometry covers by the centre rule. Points and
/// lines cover no cell. The only error is want of memory; after it the mask is of the same size, with any values.
pub fn cover_centre(
    alloc: Global,
    frame: &Frame,
    g: &Geometry,
    cover: &mut Mask,
) -> Result<(), AllocError>
    requires frame { IsFrame frame.now }
    requires cols { cover.old.ncols ≡ frame.now.ncols }
    requires rows { cover.old.nrows ≡ frame.now.nrows }
    ensures cols { cover.new.ncols ≡ cover.old.ncols }
    ensures rows { cover.new.nrows ≡ cover.old.nrows }
    ensures shape { OnOk result (IsRaster cover.new) }
    ensures covered { OnOk result ((p : Place) → p.0 < frame.now.nrows → p.1 < frame.now.ncols
        → value_at cover.new p ≡ Some (is_covered frame.now g.now p)) }
{
    let mut scan = CentreScan::new(alloc);
    let mut runs = RunList::new(alloc);
    centre_runs(frame, g, &mut scan, &mut runs)?;
    cover.fill(false);
    mark_runs(cover, &runs);
    Ok(())
}
