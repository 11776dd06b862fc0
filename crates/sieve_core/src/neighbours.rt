// Finds the largest neighbour of each small component, by the runs of neighbouring rows.
ghost use Rattle.std.specs.Prelude.{◌≡◌, ◌+◌, ◌^◌, ◌≤◌, ◌<◌, ℕ, false, Some, IfOk, IsTrue, length};
ghost use Rattle.region_label.specs.RunTable.{IsTableOfRegions};
ghost use Rattle.sieve_core.specs.Sieve.{IsNextTo, size_of};
ghost use Rattle.sieve_core.specs.Inner.Neighbours.{AreAbove, AreBest, AreLargest, AreNear, HasMetAll, HaveMet, Improves};
ghost use Rattle.sieve_core.specs.Inner.Neighbours.{IsCovered, IsFirstTouching, IsNoBetter, RowsHaveMet};

use cell_base::Steps;
use region_label::{Regions, RunTable};
use std::alloc::{AllocError, Global};

// Whether a neighbour is larger than the best so far, or as large with a lower number.
fn is_better(regions: &Regions, best: Option<u32>, other: u32) -> bool
    requires best { (m : ℕ) → best ≡ Some m → m < length regions.now.firsts }
    requires other { other < length regions.now.firsts }
    ensures yes { IsTrue result → (m : ℕ) → best ≡ Some m → IsNoBetter regions.now m other }
    ensures no { result ≡ false → (m : ℕ) × (best ≡ Some m) × IsNoBetter regions.now other m }
{
    let Some(best) = best else {
        return true;
    };
    let size = regions.size(other);
    let most = regions.size(best);
    size > most || (size == most && other < best)
}

// Takes another neighbour of a small component for the largest, if it is better than the best so far.
fn offer<const EIGHT: bool>(
    regions: &Regions,
    st: u32,
    largest: &mut Vec<Option<u32>>,
    k: u32,
    other: u32,
)
    requires best { AreBest regions.now largest.old.items }
    requires k { k < length regions.now.firsts }
    requires other { other < length regions.now.firsts }
    requires next { IsNextTo EIGHT regions.now k other }
    ensures improves { Improves EIGHT regions.now largest.old.items largest.new.items }
    ensures covered { size_of regions.now k < st → IsCovered regions.now largest.new.items k other }
    ensures best { AreBest regions.now largest.new.items }
{
    if regions.size(k) >= st {
        return;
    }
    if is_better(regions, largest[k as usize], other) {
        largest[k as usize] = Some(other);
    }
}

// Lets the components of two runs know each other as neighbours, if they differ.
fn meet<const EIGHT: bool>(
    regions: &Regions,
    table: &RunTable,
    st: u32,
    largest: &mut Vec<Option<u32>>,
    i: usize,
    j: usize,
)
    requires lent { IsTableOfRegions regions.now table.now }
    requires best { AreBest regions.now largest.old.items }
    requires i { i < length table.now.runs }
    requires j { j < length table.now.runs }
    requires near { AreNear EIGHT regions.now table.now i j }
    ensures best { AreBest regions.now largest.new.items }
    ensures improves { Improves EIGHT regions.now largest.old.items largest.new.items }
    ensures met { HaveMet regions.now table.now st largest.new.items i j }
{
    let components = table.components();
    let Some(k) = components[i] else {
        return;
    };
    let Some(other) = components[j] else {
        return;
    };
    if k == other {
        return;
    }
    offer::<EIGHT>(regions, st, largest, k, other);
    offer::<EIGHT>(regions, st, largest, other, k);
}

// Lets a run meet the run on its left.
fn meet_left<const EIGHT: bool>(
    regions: &Regions,
    table: &RunTable,
    st: u32,
    largest: &mut Vec<Option<u32>>,
    i: usize,
)
    requires lent { IsTableOfRegions regions.now table.now }
    requires best { AreBest regions.now largest.old.items }
    requires i { i < length table.now.runs }
    ensures best { AreBest regions.now largest.new.items }
    ensures improves { Improves EIGHT regions.now largest.old.items largest.new.items }
    ensures met { HasMetAll EIGHT regions.now table.now st largest.new.items i (λ j a b. b.row ≡ a.row) }
{
    if i == 0 {
        return;
    }
    let runs = table.runs();
    let left = runs[i - 1];
    let run = runs[i];
    if left.row != run.row {
        return;
    }
    if left.to != run.from {
        return;
    }
    meet::<EIGHT>(regions, table, st, largest, i - 1, i);
}

// Of the runs of the row above, from one on, the first that doesn't end too far left of a run to touch it.
fn first_touching<const EIGHT: bool>(table: &RunTable, i: usize, from: usize, end: usize) -> usize
    requires i { i < length table.now.runs }
    requires from { from ≤ end }
    requires end { end ≤ length table.now.runs }
    ensures { IsFirstTouching EIGHT table.now i from end result }
{
    let runs = table.runs();
    let start = runs[i].from;
    let mut at = from;
    while at < end && runs[at].to + Steps::<EIGHT>::reach() <= start {
        at += 1;
    }
    at
}

// Lets a run meet the runs of the row above that touch it, of those from one on.
fn meet_above<const EIGHT: bool>(
    regions: &Regions,
    table: &RunTable,
    st: u32,
    largest: &mut Vec<Option<u32>>,
    i: usize,
    from: usize,
    end: usize,
)
    requires lent { IsTableOfRegions regions.now table.now }
    requires best { AreBest regions.now largest.old.items }
    requires i { i < length table.now.runs }
    requires end { end ≤ length table.now.runs }
    requires above { AreAbove EIGHT table.now i from end }
    ensures best { AreBest regions.now largest.new.items }
    ensures improves { Improves EIGHT regions.now largest.old.items largest.new.items }
    ensures met { HasMetAll EIGHT regions.now table.now st largest.new.items i (λ j a b. (from ≤ j) × (j < end)) }
{
    let runs = table.runs();
    let to = runs[i].to;
    for j in from..end {
        if runs[j].from >= to + Steps::<EIGHT>::reach() {
            return;
        }
        meet::<EIGHT>(regions, table, st, largest, j, i);
    }
}

// Lets the runs of a row meet those on their left and those above.
fn meet_row<const EIGHT: bool>(
    regions: &Regions,
    table: &RunTable,
    st: u32,
    largest: &mut Vec<Option<u32>>,
    row: u32,
)
    requires lent { IsTableOfRegions regions.now table.now }
    requires best { AreBest regions.now largest.old.items }
    requires row { row < table.now.nrows }
    requires fits { row + 1 < 2 ^ 32 }
    ensures best { AreBest regions.now largest.new.items }
    ensures improves { Improves EIGHT regions.now largest.old.items largest.new.items }
    ensures met { RowsHaveMet EIGHT regions.now table.now st largest.new.items (λ r. r ≡ row) }
{
    let mut above = table.row_start(row.saturating_sub(1));
    let start = table.row_start(row);
    for i in start..table.row_start(row + 1) {
        meet_left::<EIGHT>(regions, table, st, largest, i);
        above = first_touching::<EIGHT>(table, i, above, start);
        meet_above::<EIGHT>(regions, table, st, largest, i, above, start);
    }
}

// The largest neighbour of each component of fewer than `st` cells; what stands at the others tells nothing.
// The only error is want of memory.
pub(crate) fn largest_neighbours<const EIGHT: bool>(
    alloc: Global,
    regions: &Regions,
    table: &RunTable,
    st: u32,
) -> Result<Vec<Option<u32>>, AllocError>
    requires lent { IsTableOfRegions regions.now table.now }
    ensures { IfOk result (λ largest. AreLargest EIGHT regions.now st largest.items) }
{
    let mut largest = vec![in alloc; None; regions.count() as usize]?;
    for row in 0..regions.nrows() {
        meet_row::<EIGHT>(regions, table, st, &mut largest, row);
    }
    Ok(largest)
}
