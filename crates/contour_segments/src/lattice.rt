// The lattice of cell centres.
ghost use Rattle.std.specs.Prelude.{◌≡◌, ◌+◌, ◌^◌, ◌<◌, ◌≤◌, ◌++◌, ◌+ℤ◌, ◌*ℤ◌, false, true, MatchOption, OnOk, int_le, length, pos, ⊤};
ghost use Rattle.cell_base.specs.Raster.{AreAligned, most_cells};
ghost use Rattle.cell_base.specs.MicroCells.{IsMicro};
ghost use Rattle.contour_segments.specs.Segments.{cross_on, has_corners, lattice_of, segments_in, segments_on, sides_of};
ghost use Rattle.contour_segments.specs.Inner.Blocks.{AreCorners, AreMicros, Covers, CoversCell, IsAfter, IsPlaceOf, segments_to, ways_listed};

use crate::segment::{Cross, Segment};
use crate::side::{Side, Ways, ways_of};
use crate::span::{NOTHING, Span};
use cell_base::{Cell, Grid, Mask, Micro};
use std::alloc::AllocError;

// The values at the corners of a lattice cell, in units.
#[derive(Clone, Copy)]
pub(crate) struct Corners {
    pub(crate) nw: i64,
    pub(crate) ne: i64,
    pub(crate) se: i64,
    pub(crate) sw: i64,
}

// A grid and its valid cells.
#[derive(Clone, Copy)]
pub(crate) struct Lattice<'a> {
    pub(crate) cells: &'a Grid<Micro>,
    pub(crate) valid: &'a Mask,
}

impl Corners {
    // Whether the mean of the values is at least the level.
    fn are_joined(self, level: i64) -> bool
        requires corners { AreMicros self }
        requires level { IsMicro level }
        ensures { result ≡ int_le (pos 4 *ℤ level) (self.nw +ℤ self.ne +ℤ self.se +ℤ self.sw) }
    {
        4 * level <= self.nw + self.ne + self.se + self.sw
    }

    // From which side to which the segments of a level lead.
    fn ways(self, level: i64) -> Ways
        requires corners { AreMicros self }
        requires level { IsMicro level }
        ensures { ways_listed result ≡ sides_of (int_le level self.nw) (int_le level self.ne) (int_le level self.se) (int_le level self.sw)
            (int_le (pos 4 *ℤ level) (self.nw +ℤ self.ne +ℤ self.se +ℤ self.sw)) }
    {
        ways_of(
            self.nw >= level,
            self.ne >= level,
            self.se >= level,
            self.sw >= level,
            self.are_joined(level),
        )
    }
}

// A segment of a lattice cell.
fn segment(row: u32, col: u32, turn: u8, from: Side, to: Side) -> Segment
    requires row { row + 1 < 2 ^ 32 }
    requires col { col + 1 < 2 ^ 32 }
    ensures { result ≡ record { row = row; col = col; turn = turn; from = cross_on (row, col) from; to = cross_on (row, col) to } }
{
    Segment {
        row,
        col,
        turn,
        from: Cross::on(row, col, from),
        to: Cross::on(row, col, to),
    }
}

// Adds the segments of a lattice cell. The only error is want of memory.
fn put_ways(row: u32, col: u32, ways: Ways, out: &mut Vec<Segment>) -> Result<(), AllocError>
    requires row { row + 1 < 2 ^ 32 }
    requires col { col + 1 < 2 ^ 32 }
    ensures { OnOk result (out.new.items ≡ out.old.items ++ segments_on (row, col) 0 (ways_listed ways)) }
{
    match ways {
        Ways::None => Ok(()),
        Ways::One(from, to) => {
            out.push(segment(row, col, 0, from, to))?;
            Ok(())
        }
        Ways::Two(from, to, second_from, second_to) => {
            out.push(segment(row, col, 0, from, to))?;
            out.push(segment(row, col, 1, second_from, second_to))?;
            Ok(())
        }
    }
}

impl<'a> Lattice<'a> {
    // The values at the corners of a lattice cell, if all are valid.
    fn corners(&self, row: u32, col: u32) -> Option<Corners>
        requires aligned { AreAligned self.now.cells.now self.now.valid.now }
        requires row { row + 1 < self.now.cells.now.nrows }
        requires col { col + 1 < self.now.cells.now.ncols }
        ensures corners { MatchOption result (has_corners self.now.valid.now (row, col) ≡ false)
            (λ corners. (has_corners self.now.valid.now (row, col) ≡ true) × AreCorners self.now.cells.now (row, col) corners) }
        ensures micros { MatchOption result ⊤ (λ corners. AreMicros corners) }
    {
        let valid = self.valid.get(row, col)
            & self.valid.get(row, col + 1)
            & self.valid.get(row + 1, col + 1)
            & self.valid.get(row + 1, col);
        if !valid {
            return None;
        }
        Some(Corners {
            nw: self.cells.get(row, col).units(),
            ne: self.cells.get(row, col + 1).units(),
            se: self.cells.get(row + 1, col + 1).units(),
            sw: self.cells.get(row + 1, col).units(),
        })
    }

    // Adds the segments of a lattice cell at a level. The only error is want of memory.
    fn put_cell(
        &self,
        row: u32,
        col: u32,
        level: i64,
        out: &mut Vec<Segment>,
    ) -> Result<(), AllocError>
        requires aligned { AreAligned self.now.cells.now self.now.valid.now }
        requires row { row + 1 < self.now.cells.now.nrows }
        requires col { col + 1 < self.now.cells.now.ncols }
        requires level { IsMicro level }
        ensures { OnOk result (out.new.items ≡ out.old.items ++ segments_in self.now.cells.now self.now.valid.now level (row, col)) }
    {
        match self.corners(row, col) {
            None => Ok(()),
            Some(corners) => put_ways(row, col, corners.ways(level), out),
        }
    }

    // The ends of the values at the corners of a lattice cell, if all are valid.
    fn span_of_cell(&self, row: u32, col: u32) -> Span
        requires aligned { AreAligned self.now.cells.now self.now.valid.now }
        requires row { row + 1 < self.now.cells.now.nrows }
        requires col { col + 1 < self.now.cells.now.ncols }
        ensures { CoversCell self.now.cells.now self.now.valid.now result (row, col) }
    {
        match self.corners(row, col) {
            None => NOTHING,
            Some(corners) => Span::of(corners),
        }
    }

    // How many lattice cells there are.
    pub(crate) fn count(&self) -> usize
        ensures value { result ≡ length (lattice_of self.now.cells.now) }
        ensures small { result ≤ most_cells }
    {
        (self.cells.nrows() as usize - 1) * (self.cells.ncols() as usize - 1)
    }

    // The place of the lattice cell of a number.
    fn place(&self, i: usize) -> (u32, u32)
        requires { i < length (lattice_of self.now.cells.now) }
        ensures { IsPlaceOf self.now.cells.now i result }
    {
        let width = self.cells.ncols() as usize - 1;
        ((i / width) as u32, (i % width) as u32)
    }

    // The place after one, row by row.
    fn after(&self, place: (u32, u32)) -> (u32, u32)
        requires row { place.0 + 1 < self.now.cells.now.nrows }
        requires col { place.1 + 1 < self.now.cells.now.ncols }
        ensures { IsAfter self.now.cells.now place result }
    {
        let (row, col) = place;
        let width = self.cells.ncols() - 1;
        if col + 1 == width {
            (row + 1, 0)
        } else {
            (row, col + 1)
        }
    }

    // Adds the segments of the lattice cells from one number up to another. The only error is want of memory.
    pub(crate) fn put(
        &self,
        from: usize,
        to: usize,
        level: i64,
        out: &mut Vec<Segment>,
    ) -> Result<(), AllocError>
        requires aligned { AreAligned self.now.cells.now self.now.valid.now }
        requires some { from < to }
        requires within { to ≤ length (lattice_of self.now.cells.now) }
        requires level { IsMicro level }
        requires before { out.old.items ≡ segments_to self.now.cells.now self.now.valid.now level from }
        ensures { OnOk result (out.new.items ≡ segments_to self.now.cells.now self.now.valid.now level to) }
    {
        let mut place = self.place(from);
        'cells: for _ in from..to {
            self.put_cell(place.0, place.1, level, out)?;
            place = self.after(place);
        }
        Ok(())
    }

    // The ends of the values round the lattice cells from one number up to another.
    pub(crate) fn span(&self, from: usize, to: usize) -> Span
        requires aligned { AreAligned self.now.cells.now self.now.valid.now }
        requires some { from < to }
        requires within { to ≤ length (lattice_of self.now.cells.now) }
        ensures { Covers self.now.cells.now self.now.valid.now result from to }
    {
        let mut place = self.place(from);
        let mut span = NOTHING;
        'cells: for _ in from..to {
            span = span.with(self.span_of_cell(place.0, place.1));
            place = self.after(place);
        }
        span
    }
}
