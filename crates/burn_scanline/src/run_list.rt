ghost use Rattle.std.specs.Prelude.{◌≡◌, ◌<◌, ◌≤◌, [], ◌↔◌, IsTrue, OnErr, OnOk, length};
ghost use Rattle.cell_base.specs.Raster.{IsRaster};
ghost use Rattle.burn_scanline.specs.Change.{Marks};
ghost use Rattle.burn_scanline.specs.Runs.{AddsCells, AreApart, AreWithin, EndBefore, has_cell, is_in_runs};
ghost use Rattle.burn_scanline.specs.Inner.Growing.{GoesOn};

use cell_base::{Mask, Run};
use std::alloc::{AllocError, Global};
use std::marker::Model;

/// Runs of cells by row and column: none is empty, and no two have a cell in common or touch in a row.
#[derive(Drop)]
pub struct RunList {
    runs: Vec<Run>,
}

impl Model for RunList {
    ghost use Rattle.std.specs.Prelude.{List};
    ghost use Rattle.burn_scanline.specs.Runs.{AreApart, Run};

    ghost Value = { List Run };

    ghost view = { λ list. list.runs.items };

    ghost invariant = { λ list. AreApart list.runs.items };
}

impl RunList {
    /// No run. It takes no memory.
    pub fn new(alloc: Global) -> RunList
        ensures { result ≡ [] }
    {
        RunList {
            runs: Vec::new(alloc),
        }
    }

    /// Takes all runs out, and keeps the memory for others.
    pub fn clear(&mut self)
        ensures { self.new ≡ [] }
    {
        self.runs.clear();
    }

    /// The number of runs.
    pub fn len(&self) -> usize
        ensures { result ≡ length self.now }
    {
        self.runs.len()
    }

    /// Whether there is no run.
    pub fn is_empty(&self) -> bool
        ensures { IsTrue result ↔ (self.now ≡ []) }
    {
        self.runs.is_empty()
    }

    /// The runs in their order.
    pub fn as_slice(&self) -> &[Run]
        ensures value { result.now ≡ self.now }
        ensures apart { AreApart self.now }
    {
        self.runs.as_slice()
    }

    // Whether a run goes on where the last one ends.
    fn goes_on(&self, run: Run) -> bool
        ensures { IsTrue result ↔ GoesOn run self.now }
    {
        match self.runs.last() {
            None => false,
            Some(last) => last.row == run.row && last.to == run.from,
        }
    }

    // Makes the last run longer by one that goes on where it ends.
    fn stretch(&mut self, run: Run)
        requires some { run.from < run.to }
        requires on { GoesOn run self.old }
        requires ends { EndBefore (run.row, run.from) self.old }
        ensures { AddsCells run self.old self.new }
    {
        let last = self.runs.len() - 1;
        let from = self.runs[last].from;
        self.runs[last] = Run {
            row: run.row,
            from,
            to: run.to,
        };
    }

    /// Adds the cells of a run that begins no earlier than where the last one ends: a run that goes on where the last
    /// one ends makes that one longer, and a run without cells changes nothing. A refusal leaves the list as it was.
    pub fn push(&mut self, run: Run) -> Result<(), AllocError>
        requires { EndBefore (run.row, run.from) self.old }
        ensures ok { OnOk result (AddsCells run self.old self.new) }
        ensures err { OnErr result (self.new ≡ self.old) }
    {
        if run.from >= run.to {
            return Ok(());
        }
        if self.goes_on(run) {
            self.stretch(run);
            return Ok(());
        }
        self.runs.push(run)?;
        Ok(())
    }
}

// Makes a mask true at each cell of a run.
fn mark_run(cover: &mut Mask, run: Run)
    requires shape { IsRaster cover.old }
    requires row { run.row < cover.old.nrows }
    requires some { run.from ≤ run.to }
    requires cols { run.to ≤ cover.old.ncols }
    ensures { Marks (λ p. has_cell p run) cover.old cover.new }
{
    'cells: for col in run.from..run.to {
        cover.set(run.row, col, true);
    }
}

/// Makes a mask true at each cell of the runs, which lie inside it; all other cells stay.
pub fn mark_runs(cover: &mut Mask, runs: &RunList)
    requires { AreWithin cover.old.nrows cover.old.ncols runs.now }
    ensures { Marks (is_in_runs runs.now) cover.old cover.new }
{
    let _rows = cover.nrows();
    'runs: for run in runs.as_slice() {
        mark_run(cover, *run);
    }
}
