// Finds the runs of a grid, row by row.
ghost use Rattle.std.specs.Prelude.{◌≡◌, ◌<◌, ◌≤◌, ◌+◌, IfOk, OnOk, length, slice_index, true};
ghost use Rattle.region_label.specs.Inner.Blocks.{AreApart, AreBlocksOf, GoesOn, HasPlaced};
ghost use Rattle.region_label.specs.Inner.Notes.{AreNoted, AreNotedBefore, IsFirstAlike, IsFirstReaching, Notes};
ghost use Rattle.region_label.specs.Inner.Rows.{AreFound, AreStarts, EndsAt, IsFirstPast, IsValidAt, noted_units};
ghost use Rattle.region_label.specs.Inner.Table.{AreInOrder, AreRowsOf, HasSize, KeepsRows};

use crate::blocks::{Block, Blocks};
use cell_base::{Cell, Grid, Mask, Run};
use std::alloc::{AllocError, Global};

// The runs by row and column, a note on each, where each row's runs begin (the last start is the end), and the blocks.
#[derive(Drop)]
pub(crate) struct RowRuns {
    pub(crate) ncols: u32,
    pub(crate) nrows: u32,
    pub(crate) runs: Vec<Run>,
    pub(crate) notes: Vec<RunNote>,
    pub(crate) starts: Vec<u32>,
    pub(crate) blocks: Blocks,
}

// What a fill reads of a run beside its place: the units of its cells, and in the row above, and in the row below, the
// first run that meets it, at a side or at a corner, and has its units; where none does, the end of that row's runs. In
// the first row `above`, and in the last `below`, says nothing. They stand together, so that a fill that goes down a
// column finds them in one place.
#[derive(Clone, Copy)]
pub(crate) struct RunNote {
    pub(crate) units: i64,
    pub(crate) above: u32,
    pub(crate) below: u32,
}

// Where the run that begins at a cell ends.
fn run_end<T: Cell>(cells: &[T], valid: &[bool], from: usize) -> usize
    requires width { length valid.now ≡ length cells.now }
    requires inside { from < length cells.now }
    requires valid { IsValidAt valid.now from }
    ensures { EndsAt cells.now valid.now from result }
{
    let value = cells[from];
    let mut to = from + 1;
    while to < cells.len() && valid[to] && cells[to] == value {
        to += 1;
    }
    to
}

impl RowRuns {
    // Adds the run that begins at a cell, if the cell is valid; answers the column after it.
    fn push_run<T: Cell>(
        &mut self,
        cells: &Grid<T>,
        valid: &Mask,
        row: u32,
        col: u32,
    ) -> Result<u32, AllocError>
        requires row { row < cells.now.nrows }
        requires col { col < cells.now.ncols }
        requires found { AreFound T.units_of cells.now valid.now self.old.runs.items (noted_units self.old.notes.items) (row, col) }
        requires starts { AreStarts self.old.runs.items self.old.starts.items (row + 1) }
        ensures further { IfOk result (λ next. (col < next) × (next ≤ cells.now.ncols)) }
        ensures found { IfOk result (λ next.
            AreFound T.units_of cells.now valid.now self.new.runs.items (noted_units self.new.notes.items) (row, next)) }
        ensures starts { OnOk result (AreStarts self.new.runs.items self.new.starts.items (row + 1)) }
        ensures size { HasSize self.old self.new }
    {
        let marks = valid.row(row);
        let values = cells.row(row);
        if !marks[col as usize] {
            return Ok(col + 1);
        }
        let to = run_end(values, marks, col as usize) as u32;
        self.runs.push(Run { row, from: col, to })?;
        self.notes.push(RunNote {
            units: values[col as usize].units(),
            above: 0,
            below: 0,
        })?;
        Ok(to)
    }

    // Adds the runs of a row.
    fn push_row<T: Cell>(
        &mut self,
        cells: &Grid<T>,
        valid: &Mask,
        row: u32,
    ) -> Result<(), AllocError>
        requires row { row < cells.now.nrows }
        requires found { AreFound T.units_of cells.now valid.now self.old.runs.items (noted_units self.old.notes.items) (row, 0) }
        requires starts { AreStarts self.old.runs.items self.old.starts.items (row + 1) }
        ensures found { OnOk result
            (AreFound T.units_of cells.now valid.now self.new.runs.items (noted_units self.new.notes.items) (row + 1, 0)) }
        ensures starts { OnOk result (AreStarts self.new.runs.items self.new.starts.items (row + 1)) }
        ensures size { HasSize self.old self.new }
    {
        let mut col = 0;
        while col < cells.ncols() {
            col = self.push_run(cells, valid, row, col)?;
        }
        Ok(())
    }

    // The runs of the valid cells. The only error is want of memory.
    pub(crate) fn build<T: Cell>(
        alloc: Global,
        cells: &Grid<T>,
        valid: &Mask,
    ) -> Result<RowRuns, AllocError>
        requires cols { valid.now.ncols ≡ cells.now.ncols }
        requires rows { valid.now.nrows ≡ cells.now.nrows }
        ensures { IfOk result (λ rows. AreRowsOf T.units_of cells.now valid.now rows) }
    {
        let mut rows = RowRuns {
            ncols: valid.ncols(),
            nrows: cells.nrows(),
            runs: Vec::new(alloc),
            notes: Vec::new(alloc),
            starts: Vec::new(alloc),
            blocks: Blocks {
                of: Vec::new(alloc),
                ends: Vec::new(alloc),
            },
        };
        for row in 0..cells.nrows() {
            rows.starts.push(rows.runs.len() as u32)?;
            rows.push_row(cells, valid, row)?;
        }
        rows.starts.push(rows.runs.len() as u32)?;
        let on = rows.find_beside();
        // with fewer that go on a fill would read more for blocks than it saves
        if on * 2 < rows.runs.len() {
            return Ok(rows);
        }
        rows.blocks = rows.find_blocks(alloc)?;
        Ok(rows)
    }

    // The first run of a row, from an index on, that ends at or past the start of a run; or else the end of the row's
    // runs.
    fn first_reaching(&self, row: u32, run: u32, from: u32) -> u32
        requires ordered { AreInOrder self.now }
        requires row { row < self.now.nrows }
        requires run { run < length self.now.runs.items }
        requires from { slice_index self.now.starts.items row ≤ from }
        requires to { from ≤ slice_index self.now.starts.items (row + 1) }
        ensures { IsFirstReaching self.now.runs.items run from (slice_index self.now.starts.items (row + 1)) result }
    {
        let col = self.runs[run as usize].from;
        let end = self.starts[row as usize + 1];
        let mut at = from;
        'runs: while at < end && self.runs[at as usize].to < col {
            at += 1;
        }
        at
    }

    // The first run of a row, from an index on, that begins no later than a run ends and has its units; or else the end
    // of the row's runs.
    fn first_alike(&self, row: u32, run: u32, from: u32) -> u32
        requires ordered { AreInOrder self.now }
        requires row { row < self.now.nrows }
        requires run { run < length self.now.runs.items }
        requires from { slice_index self.now.starts.items row ≤ from }
        requires to { from ≤ slice_index self.now.starts.items (row + 1) }
        ensures { IsFirstAlike self.now.runs.items (noted_units self.now.notes.items) run from (slice_index self.now.starts.items (row + 1)) result }
    {
        let last = self.runs[run as usize].to;
        let units = self.notes[run as usize].units;
        let end = self.starts[row as usize + 1];
        let mut at = from;
        'runs: while at < end && self.runs[at as usize].from <= last {
            if self.notes[at as usize].units == units {
                return at;
            }
            at += 1;
        }
        end
    }

    // Whether a run lies right below another, with its ends and its units.
    fn goes_on(&self, above: usize, run: usize) -> bool
        requires ordered { AreInOrder self.now }
        requires run { run < length self.now.runs.items }
        ensures { result ≡ true
            → (above < run) × GoesOn self.now.runs.items (noted_units self.now.notes.items) above run }
    {
        if above >= run {
            return false;
        }
        if self.notes[above].units != self.notes[run].units {
            return false;
        }
        let first = self.runs[above];
        let second = self.runs[run];
        second.row == first.row + 1 && second.from == first.from && second.to == first.to
    }

    // The number of runs that go on, with one more if this run goes on from the one above.
    fn count_on(&self, above: usize, run: usize, on: usize) -> usize
        requires ordered { AreInOrder self.now }
        requires run { run < length self.now.runs.items }
        requires few { on ≤ run }
        ensures { result ≤ run + 1 }
    {
        if self.goes_on(above, run) { on + 1 } else { on }
    }

    // Writes the first runs that are alike in the row above, and in the row below.
    fn note(&mut self, run: u32, above: u32, below: u32)
        requires { run < length self.old.notes.items }
        ensures keeps { KeepsRows self.old self.new }
        ensures notes { Notes self.old self.new run above below }
    {
        let mut note = self.notes[run as usize];
        note.above = above;
        note.below = below;
        self.notes[run as usize] = note;
    }

    // Notes, for each run of a row, the first runs that are alike in the row above, and in the row below. Where there
    // is no such row, the row itself stands for it. Answers how many runs go on so far.
    fn note_row(&mut self, row: u32, on: usize) -> usize
        requires ordered { AreInOrder self.old }
        requires row { row < self.old.nrows }
        requires few { on ≤ slice_index self.old.starts.items row }
        requires noted { AreNotedBefore self.old (slice_index self.old.starts.items row) }
        ensures keeps { KeepsRows self.old self.new }
        ensures few { result ≤ slice_index self.new.starts.items (row + 1) }
        ensures noted { AreNotedBefore self.new (slice_index self.new.starts.items (row + 1)) }
    {
        let row_above = row.saturating_sub(1);
        let row_below = (row + 1).min(self.nrows - 1);
        let mut above = self.starts[row_above as usize];
        let mut below = self.starts[row_below as usize];
        let mut on = on;
        'runs: for run in self.starts[row as usize]..self.starts[row as usize + 1] {
            above = self.first_reaching(row_above, run, above);
            below = self.first_reaching(row_below, run, below);
            let first_above = self.first_alike(row_above, run, above);
            let first_below = self.first_alike(row_below, run, below);
            on = self.count_on(first_above as usize, run as usize, on);
            self.note(run, first_above, first_below);
        }
        on
    }

    // Walks each row side by side with the rows beside it; answers how many runs go on from the run above.
    fn find_beside(&mut self) -> usize
        requires ordered { AreInOrder self.old }
        ensures keeps { KeepsRows self.old self.new }
        ensures few { result ≤ length self.new.runs.items }
        ensures noted { AreNoted self.new }
    {
        let mut on = 0;
        for row in 0..self.nrows {
            on = self.note_row(row, on);
        }
        on
    }

    // Puts a run into the block of the run above it.
    fn go_on(&self, blocks: &mut Blocks, above: usize, run: usize) -> Result<(), AllocError>
        requires ordered { AreInOrder self.now }
        requires apart { AreApart self.now.runs.items (noted_units self.now.notes.items) }
        requires run { run < length self.now.runs.items }
        requires placed { HasPlaced self.now blocks.old run }
        requires before { above < run }
        requires on { GoesOn self.now.runs.items (noted_units self.now.notes.items) above run }
        ensures { OnOk result (HasPlaced self.now blocks.new (run + 1)) }
    {
        let b = blocks.of[above];
        blocks.of.push(b)?;
        let mut block = blocks.ends[b as usize];
        block.last = run as u32;
        blocks.ends[b as usize] = block;
        Ok(())
    }

    // Puts a run into a block of its own.
    fn begin(&self, blocks: &mut Blocks, run: usize) -> Result<(), AllocError>
        requires ordered { AreInOrder self.now }
        requires run { run < length self.now.runs.items }
        requires placed { HasPlaced self.now blocks.old run }
        ensures { OnOk result (HasPlaced self.now blocks.new (run + 1)) }
    {
        blocks.of.push(blocks.ends.len() as u32)?;
        blocks.ends.push(Block {
            first: run as u32,
            last: run as u32,
        })?;
        Ok(())
    }

    // Puts a run into a block.
    fn place(&self, blocks: &mut Blocks, run: usize) -> Result<(), AllocError>
        requires ordered { AreInOrder self.now }
        requires apart { AreApart self.now.runs.items (noted_units self.now.notes.items) }
        requires run { run < length self.now.runs.items }
        requires placed { HasPlaced self.now blocks.old run }
        ensures { OnOk result (HasPlaced self.now blocks.new (run + 1)) }
    {
        let above = self.notes[run].above as usize;
        if self.goes_on(above, run) {
            self.go_on(blocks, above, run)?;
            return Ok(());
        }
        self.begin(blocks, run)?;
        Ok(())
    }

    // The blocks of all runs, which are found in order.
    fn find_blocks(&self, alloc: Global) -> Result<Blocks, AllocError>
        requires ordered { AreInOrder self.now }
        requires apart { AreApart self.now.runs.items (noted_units self.now.notes.items) }
        ensures { IfOk result (AreBlocksOf self.now) }
    {
        let mut blocks = Blocks {
            of: Vec::with_capacity(alloc, self.runs.len())?,
            ends: Vec::new(alloc),
        };
        for run in 0..self.runs.len() {
            self.place(&mut blocks, run)?;
        }
        Ok(blocks)
    }

    // The first run of a row that ends past a column, or else the end of the row's runs.
    pub(crate) fn first_past(&self, row: u32, col: u32) -> usize
        requires ordered { AreInOrder self.now }
        requires row { row < self.now.nrows }
        ensures { IsFirstPast self.now.runs.items self.now.starts.items row col result }
    {
        let mut low = self.starts[row as usize] as usize;
        let mut high = self.starts[row as usize + 1] as usize;
        while low < high {
            let middle = low + (high - low) / 2;
            if self.runs[middle].to <= col {
                low = middle + 1;
            } else {
                high = middle;
            }
        }
        low
    }
}
