// Finds the components of cells that are asked for in order.
ghost use Rattle.std.specs.Prelude.{◌≡◌, ◌↔◌, ℕ, Some, IsTrue};
ghost use Rattle.cell_base.specs.Order.{IsBefore};
ghost use Rattle.region_label.specs.Labelling.{IsInRegion};
ghost use Rattle.region_label.specs.Run.{first_cell};
ghost use Rattle.ring_faces.specs.Inner.Owners.{AreUpTo};

use region_label::{Regions, Run};

// The component of a cell, and how many runs begin at the cell or before it.
#[derive(Clone, Copy)]
pub(crate) struct Owner {
    pub(crate) component: Option<u32>,
    pub(crate) runs: usize,
}

// Whether a run begins after a cell.
fn begins_after(run: Run, row: u32, col: u32) -> bool
    ensures { IsTrue result ↔ IsBefore (row, col) (first_cell run) }
{
    row < run.row || (row == run.row && col < run.from)
}

// How many runs begin at a cell or before it, looked for from a guess on: the nearer the guess, the shorter the way.
fn runs_up_to(runs: &[Run], row: u32, col: u32, guess: usize) -> usize
    ensures { AreUpTo runs.now (row, col) result }
{
    let mut count = guess.min(runs.len());
    'back: while count > 0 && begins_after(runs[count - 1], row, col) {
        count -= 1;
    }
    'on: while count < runs.len() && !begins_after(runs[count], row, col) {
        count += 1;
    }
    count
}

// The component of a cell that is in one, looked for from a number of runs on.
pub(crate) fn owner_of(regions: &Regions, row: u32, col: u32, guess: usize) -> Owner
    ensures { (k : ℕ) → IsInRegion regions.now k (row, col) → result.component ≡ Some k }
{
    let table = regions.table();
    let runs = runs_up_to(table.runs(), row, col, guess);
    if runs == 0 {
        return Owner {
            component: None,
            runs,
        };
    }
    Owner {
        component: table.components()[runs - 1],
        runs,
    }
}
