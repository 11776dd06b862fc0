ghost use Rattle.std.specs.Prelude.{◌≡◌, ◌+◌, ◌*◌, ◌<◌, ◌≤◌, IfOk, OnOk, length};
ghost use Rattle.cell_base.specs.Raster.{AreAligned};
ghost use Rattle.cell_base.specs.MicroCells.{IsMicro};
ghost use Rattle.contour_segments.specs.Segments.{lattice_of, segments_of};
ghost use Rattle.contour_segments.specs.Inner.Blocks.{AllWithin, AreGroups, AreSpans, Covers, segments_to};

use crate::lattice::Lattice;
use crate::lists::SegmentList;
use crate::segment::Segment;
use crate::span::{NOTHING, Span};
use cell_base::{Cell, Grid, Mask, Micro};
use std::alloc::{AllocError, Global};
use std::marker::Model;

// So many lattice cells are a block, and so many blocks a group.
const SIZE: usize = 64;

/// A grid, prepared so that the segments of a level are found without a look at all cells: where a level is far from
/// the values of 64 lattice cells, or of 4,096, they are passed at once. Contracts see the grid and its valid cells.
#[derive(Drop)]
pub struct SegmentTable<'a> {
    lattice: Lattice<'a>,
    blocks: Vec<Span>,
    groups: Vec<Span>,
}

impl<'a> Model for SegmentTable<'a> {
    ghost use Rattle.contour_segments.specs.Elevation.{Elevation};
    ghost use Rattle.contour_segments.specs.Inner.Blocks.{IsTable};

    ghost Value = { Elevation };

    ghost view = { λ table. record { cells = table.lattice.cells.now; valid = table.lattice.valid.now } };

    ghost invariant = { λ table. IsTable table.lattice.cells.now table.lattice.valid.now table.blocks.items table.groups.items };
}

// The ends of the values of blocks. The only error is want of memory.
fn blocks_of(alloc: Global, lattice: &Lattice<'_>) -> Result<Vec<Span>, AllocError>
    requires { AreAligned lattice.now.cells.now lattice.now.valid.now }
    ensures { IfOk result (λ spans. AreSpans lattice.now.cells.now lattice.now.valid.now spans.items) }
{
    let count = lattice.count();
    let mut spans = Vec::new(alloc);
    for block in 0..count.div_ceil(SIZE) {
        let from = block * SIZE;
        spans.push(lattice.span(from, count.min(from + SIZE)))?;
    }
    Ok(spans)
}

// The ends of all of these.
fn over_all(spans: &[Span]) -> Span
    ensures { AllWithin spans.now result }
{
    let mut all = NOTHING;
    for span in spans {
        all = all.with(*span);
    }
    all
}

// The ends of the values of groups of blocks. The only error is want of memory.
fn groups_of(alloc: Global, blocks: &[Span]) -> Result<Vec<Span>, AllocError>
    ensures { IfOk result (λ groups. AreGroups blocks.now groups.items) }
{
    let mut groups = Vec::new(alloc);
    for group in 0..blocks.len().div_ceil(SIZE) {
        let from = group * SIZE;
        groups.push(over_all(&blocks[from..blocks.len().min(from + SIZE)]))?;
    }
    Ok(groups)
}

// Adds the segments of a block, which has these ends. The only error is want of memory.
fn put_block(
    lattice: &Lattice<'_>,
    ends: Span,
    block: usize,
    level: i64,
    out: &mut Vec<Segment>,
) -> Result<(), AllocError>
    requires aligned { AreAligned lattice.now.cells.now lattice.now.valid.now }
    requires level { IsMicro level }
    requires some { block * 64 < length (lattice_of lattice.now.cells.now) }
    requires covers { Covers lattice.now.cells.now lattice.now.valid.now ends (block * 64) ((block + 1) * 64) }
    requires before { out.old.items ≡ segments_to lattice.now.cells.now lattice.now.valid.now level (block * 64) }
    ensures { OnOk result (out.new.items ≡ segments_to lattice.now.cells.now lattice.now.valid.now level ((block + 1) * 64)) }
{
    if !ends.meets(level) {
        return Ok(());
    }
    let from = block * SIZE;
    let to = lattice.count().min(from + SIZE);
    lattice.put(from, to, level, out)
}

// Adds the segments of a group, which has these ends. The only error is want of memory.
fn put_group(
    lattice: &Lattice<'_>,
    blocks: &[Span],
    ends: Span,
    group: usize,
    level: i64,
    out: &mut Vec<Segment>,
) -> Result<(), AllocError>
    requires aligned { AreAligned lattice.now.cells.now lattice.now.valid.now }
    requires level { IsMicro level }
    requires blocks { AreSpans lattice.now.cells.now lattice.now.valid.now blocks.now }
    requires some { group * 64 < length blocks.now }
    requires covers { Covers lattice.now.cells.now lattice.now.valid.now ends (group * 4096) ((group + 1) * 4096) }
    requires before { out.old.items ≡ segments_to lattice.now.cells.now lattice.now.valid.now level (group * 4096) }
    ensures { OnOk result (out.new.items ≡ segments_to lattice.now.cells.now lattice.now.valid.now level ((group + 1) * 4096)) }
{
    if !ends.meets(level) {
        return Ok(());
    }
    let from = group * SIZE;
    for block in from..blocks.len().min(from + SIZE) {
        put_block(lattice, blocks[block], block, level, out)?;
    }
    Ok(())
}

impl<'a> SegmentTable<'a> {
    /// Prepares a grid. The only error is want of memory.
    pub fn build(
        alloc: Global,
        cells: &'a Grid<Micro>,
        valid: &'a Mask,
    ) -> Result<SegmentTable<'a>, AllocError>
        requires { AreAligned cells.now valid.now }
        ensures { IfOk result (λ table. table ≡ record { cells = cells.now; valid = valid.now }) }
    {
        let lattice = Lattice { cells, valid };
        let blocks = blocks_of(alloc, &lattice)?;
        let groups = groups_of(alloc, &blocks)?;
        Ok(SegmentTable {
            lattice,
            blocks,
            groups,
        })
    }

    /// The segments of all lattice cells at a level, in order of row, column and turn. The only error is want of
    /// memory.
    pub fn segments(&self, alloc: Global, level: Micro) -> Result<SegmentList, AllocError>
        ensures { IfOk result (λ list. list ≡ segments_of self.now.cells self.now.valid level) }
    {
        let mut out = Vec::new(alloc);
        for group in 0..self.groups.len() {
            put_group(
                &self.lattice,
                &self.blocks,
                self.groups[group],
                group,
                level.units(),
                &mut out,
            )?;
        }
        Ok(SegmentList::of(out))
    }
}

/// The segments of all lattice cells at a level, in order of row, column and turn. For many levels of one grid make a
/// `SegmentTable`. The only error is want of memory.
pub fn segments(
    alloc: Global,
    cells: &Grid<Micro>,
    valid: &Mask,
    level: Micro,
) -> Result<SegmentList, AllocError>
    requires { AreAligned cells.now valid.now }
    ensures { IfOk result (λ list. list ≡ segments_of cells.now valid.now level) }
{
    let table = SegmentTable::build(alloc, cells, valid)?;
    table.segments(alloc, level)
}
