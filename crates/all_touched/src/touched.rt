// The cells that a geometry touches, as runs.
ghost use Rattle.std.specs.Prelude.{◌≡◌, ◌<◌, ℕ, [], All, OnOk, Some};
ghost use Rattle.cell_base.specs.Raster.{IsRaster, Place, value_at};
ghost use Rattle.geo_transform.specs.Frame.{IsFrame};
ghost use Rattle.burn_scanline.specs.EdgeTable.{IsSpanned, edge_of};
ghost use Rattle.burn_scanline.specs.Runs.{AreWithin, is_in_runs};
ghost use Rattle.burn_scanline.specs.declared.edge_rows.SpanRule.TheVariants.{Strip};
ghost use Rattle.all_touched.specs.Touched.{Touches, is_touched};
ghost use Rattle.all_touched.specs.Inner.Pieces.{AreGathered, AddsMet, AddsTable, AreOrdered, AreSmall, HasPieces, Unites, key_of, start_of};

use crate::columns::Columns;
use burn_scanline::{CentreScan, EdgeRows, RunList, SpanRule, SpannedEdge, centre_runs, mark_runs};
use cell_base::{Mask, Run};
use geo_transform::Frame;
use std::alloc::{AllocError, Global};
use wkt_text::Geometry;

/// What is kept from geometry to geometry while their touched cells are found. What is kept from before has no part in
/// any answer.
#[derive(Drop)]
pub struct TouchScan {
    centre: CentreScan,
    covered: RunList,
    pieces: Vec<Run>,
}

impl TouchScan {
    /// Nothing is kept yet. It takes no memory.
    pub fn new(alloc: Global) -> TouchScan {
        TouchScan {
            centre: CentreScan::new(alloc),
            covered: RunList::new(alloc),
            pieces: Vec::new(alloc),
        }
    }

    // Puts the covered cells and those that edges meet in order, in pieces that may overlap.
    fn gather(&mut self, alloc: Global, frame: &Frame, g: &Geometry) -> Result<(), AllocError>
        requires { IsFrame frame.now }
        ensures { OnOk result (AreGathered frame.now g.now self.new.pieces.items) }
    {
        centre_runs(frame, g, &mut self.centre, &mut self.covered)?;
        self.pieces.clear();
        self.pieces.extend_from_slice(self.covered.as_slice())?;
        let table = EdgeRows::build(alloc, frame, g, SpanRule::Strip)?;
        push_edges(frame, &table, &mut self.pieces)?;
        sort(&mut self.pieces);
        Ok(())
    }
}

// Adds the cells that an edge meets, row by row.
fn push_edge(frame: &Frame, edge: &SpannedEdge, pieces: &mut Vec<Run>) -> Result<(), AllocError>
    requires frame { IsFrame frame.now }
    requires spanned { IsSpanned Strip frame.now edge.now }
    ensures { OnOk result (AddsMet frame.now (edge_of edge.now) pieces.old.items pieces.new.items) }
{
    let columns = Columns::across(frame, edge);
    if columns.from >= columns.to {
        return Ok(());
    }
    'rows: for row in edge.first..edge.last + 1 {
        let met = columns.in_row(frame, edge, row);
        pieces.push(Run {
            row,
            from: met.from,
            to: met.to,
        })?;
    }
    Ok(())
}

// Adds the cells that the edges of a table meet.
fn push_edges(frame: &Frame, table: &EdgeRows, pieces: &mut Vec<Run>) -> Result<(), AllocError>
    requires frame { IsFrame frame.now }
    requires spans { All (IsSpanned Strip frame.now) table.now }
    ensures { OnOk result (AddsTable frame.now table.now pieces.old.items pieces.new.items) }
{
    'edges: for e in 0..table.count() {
        push_edge(frame, &table.edge(e), pieces)?;
    }
    Ok(())
}

// The order of pieces: by row, then by first column.
fn key_of(piece: &Run) -> u64
    ensures { result ≡ key_of piece.now }
{
    u64::from(piece.row) * (1 << 32) + u64::from(piece.from)
}

// Puts pieces in order.
fn sort(pieces: &mut Vec<Run>)
    ensures order { AreOrdered pieces.new.items }
    ensures same { HasPieces pieces.old.items pieces.new.items }
{
    pieces.sort_unstable_by_key(|piece| key_of(piece));
}

// The first column of a piece that is not filled yet, where a row is filled up to a column.
fn start_of(piece: Run, row: u32, end: u32) -> u32
    ensures { result ≡ start_of piece row end }
{
    if piece.row == row {
        piece.from.max(end)
    } else {
        piece.from
    }
}

// Puts the cells of ordered pieces, which may overlap, in a list of runs.
fn unite(pieces: &[Run], runs: &mut RunList) -> Result<(), AllocError>
    requires order { AreOrdered pieces.now }
    requires small { AreSmall pieces.now }
    requires none { runs.old ≡ [] }
    ensures { OnOk result (Unites pieces.now runs.new) }
{
    let mut row = 0;
    let mut end = 0;
    'pieces: for i in 0..pieces.len() {
        let piece = pieces[i];
        let from = start_of(piece, row, end);
        let to = piece.to.max(from);
        let run = Run {
            row: piece.row,
            from,
            to,
        };
        runs.push(run)?;
        row = piece.row;
        end = to;
    }
    Ok(())
}

/// Puts the runs of the cells that a geometry touches in the place of those that the list held. The only error is want of
/// memory; after it the list holds any runs.
pub fn touched_runs(
    alloc: Global,
    frame: &Frame,
    g: &Geometry,
    scan: &mut TouchScan,
    runs: &mut RunList,
) -> Result<(), AllocError>
    requires { IsFrame frame.now }
    ensures cells { OnOk result (Touches frame.now g.now runs.new) }
    ensures inside { OnOk result (AreWithin frame.now.nrows frame.now.ncols runs.new) }
{
    scan.gather(alloc, frame, g)?;
    runs.clear();
    unite(&scan.pieces, runs)?;
    Ok(())
}

/// Makes a mask of the frame's size true exactly at the cells that a geometry touches. Points and lines touch no cell. The
/// only error is want of memory; after it the mask is of the same size, with any values.
pub fn cover_touched(
    alloc: Global,
    frame: &Frame,
    g: &Geometry,
    cover: &mut Mask,
) -> Result<(), AllocError>
    requires frame { IsFrame frame.now }
    requires cols { cover.old.ncols ≡ frame.now.ncols }
    requires rows { cover.old.nrows ≡ frame.now.nrows }
    ensures cols { cover.new.ncols ≡ cover.old.ncols }
    ensures rows { cover.new.nrows ≡ cover.old.nrows }
    ensures shape { OnOk result (IsRaster cover.new) }
    ensures covered { OnOk result ((p : Place) → p.0 < frame.now.nrows → p.1 < frame.now.ncols
        → value_at cover.new p ≡ Some (is_touched frame.now g.now p)) }
{
    let mut scan = TouchScan::new(alloc);
    let mut runs = RunList::new(alloc);
    touched_runs(alloc, frame, g, &mut scan, &mut runs)?;
    cover.fill(false);
    mark_runs(cover, &runs);
    Ok(())
}
