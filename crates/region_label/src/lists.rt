// Gives the runs of each component their number, and links them.
ghost use Rattle.std.specs.Prelude.{◌≡◌, ◌≢◌, ℕ, ◌+◌, ◌<◌, ◌^◌, Some, IfOk, length, slice_get};
ghost use Rattle.cell_base.specs.Steps.{AreNext};
ghost use Rattle.region_label.specs.Run.{Run};
ghost use Rattle.region_label.specs.Inner.Table.{AreInOrder};
ghost use Rattle.region_label.specs.Inner.Lists.{AreFilled, AreSized, BeginsBeside, Fills, HasNone, IsCleared, IsFree, IsLinkedToItself, IsNumbered, IsOf, Joins, contacts};
ghost use Rattle.region_label.specs.Inner.Notes.{AreNoted, BeginAt};
ghost use Rattle.region_label.specs.Inner.Rows.{noted_units};
ghost use Rattle.region_label.specs.Inner.Blocks.{AreBeside, AreBlocksJoined, HasBlocks, IsPut, block_at, block_count};

use crate::rows::RowRuns;
use cell_base::Steps;
use std::alloc::{AllocError, Global};

// The component of each run, the run that follows it in its component's list (the last is followed by itself), and
// the first run of each component so far. While a fill goes on they are those of the blocks, which are no more than the
// runs.
#[derive(Drop)]
pub(crate) struct RunLists {
    pub(crate) components: Vec<Option<u32>>,
    pub(crate) links: Vec<u32>,
    pub(crate) firsts: Vec<u32>,
    pub(crate) count: u32,
}

// The run that follows one in a list whose first is given; the end stands for a list with none.
fn link_to(first: u32, end: u32, run: u32) -> u32
    ensures alone { first ≡ end → result ≡ run }
    ensures more { first ≢ end → result ≡ first }
{
    if first == end { run } else { first }
}

impl RunLists {
    // The lists of so many runs, which are in no component, each linked to itself. The only error is want of memory.
    pub(crate) fn make(alloc: Global, count: usize) -> Result<RunLists, AllocError>
        requires few { count < 2 ^ 32 }
        ensures sized { IfOk result (AreSized count) }
        ensures none { IfOk result (λ lists. lists.count ≡ 0) }
        ensures clear { IfOk result HasNone }
    {
        let components = vec![in alloc; None; count]?;
        let mut links = Vec::with_capacity(alloc, count)?;
        'links: for run in 0..count {
            links.push(run as u32)?;
        }
        let firsts = vec![in alloc; 0u32; count]?;
        Ok(RunLists {
            components,
            links,
            firsts,
            count: 0,
        })
    }

    // No run is in a component, and each is linked to itself: with no components that is so already.
    fn clear(&mut self)
        requires few { length self.old.links.items < 2 ^ 32 }
        requires same { length self.old.components.items ≡ length self.old.links.items }
        requires clear { self.old.count ≡ 0 → HasNone self.old }
        ensures { IsCleared self.old self.new }
    {
        if self.count == 0 {
            return;
        }
        'components: for component in self.components.iter_mut() {
            *component = None;
        }
        'links: for run in 0..self.links.len() {
            self.links[run] = run as u32;
        }
        self.count = 0;
    }

    // Adds the block of a run to a list under way, if the run touches the one at hand and has its units, and the block
    // is in no component; answers the last of the list. A run that begins early enough may still end too early: the
    // first that is noted may meet at a corner alone.
    fn join<const EIGHT: bool>(
        &mut self,
        rows: &RowRuns,
        at: u32,
        run: usize,
        last: u32,
        number: u32,
    ) -> u32
        requires ordered { AreInOrder rows.now }
        requires blocks { HasBlocks rows.now }
        requires sized { AreSized (length rows.now.runs.items) self.old }
        requires at { at < length rows.now.runs.items }
        requires run { run < length rows.now.runs.items }
        requires last { last < length rows.now.runs.items }
        requires beside { BeginsBeside EIGHT rows.now at run }
        ensures joins { Joins (AreBeside EIGHT rows.now) (block_at rows.now at) number self.old self.new last result }
        ensures joined { contacts EIGHT rows.now at run → IsNumbered self.new.components.items (block_at rows.now run) }
    {
        if rows.notes[run].units != rows.notes[at as usize].units {
            return last;
        }
        if rows.runs[run].to + Steps::<EIGHT>::reach() <= rows.runs[at as usize].from {
            return last;
        }
        let block = rows.blocks.block_of(run as u32);
        if self.components[block as usize].is_some() {
            return last;
        }
        self.components[block as usize] = Some(number);
        self.links[last as usize] = block;
        block
    }

    // Adds the blocks of the runs of a neighbouring row that touch a run of their units, from the first of these on.
    fn join_row<const EIGHT: bool>(
        &mut self,
        rows: &RowRuns,
        at: u32,
        row: u32,
        first: u32,
        last: u32,
        number: u32,
    ) -> u32
        requires ordered { AreInOrder rows.now }
        requires blocks { HasBlocks rows.now }
        requires sized { AreSized (length rows.now.runs.items) self.old }
        requires at { at < length rows.now.runs.items }
        requires last { last < length rows.now.runs.items }
        requires row { row < rows.now.nrows }
        requires next { (a : Run) → slice_get rows.now.runs.items at ≡ Some a → AreNext a.row row }
        requires first { BeginAt rows.now.runs.items (noted_units rows.now.notes.items) rows.now.starts.items at row first }
        ensures joins { Joins (AreBeside EIGHT rows.now) (block_at rows.now at) number self.old self.new last result }
        ensures joined { AreBlocksJoined EIGHT rows.now (λ _ other. other ≡ row) at self.new }
    {
        let run = rows.runs[at as usize];
        let mut last = last;
        for i in first as usize..rows.starts[row as usize + 1] as usize {
            if rows.runs[i].from >= run.to + Steps::<EIGHT>::reach() {
                return last;
            }
            last = self.join::<EIGHT>(rows, at, i, last, number);
        }
        last
    }

    // Adds the blocks of the runs of the row above that touch a run of their units.
    fn join_above<const EIGHT: bool>(
        &mut self,
        rows: &RowRuns,
        at: u32,
        last: u32,
        number: u32,
    ) -> u32
        requires ordered { AreInOrder rows.now }
        requires blocks { HasBlocks rows.now }
        requires noted { AreNoted rows.now }
        requires sized { AreSized (length rows.now.runs.items) self.old }
        requires at { at < length rows.now.runs.items }
        requires last { last < length rows.now.runs.items }
        ensures joins { Joins (AreBeside EIGHT rows.now) (block_at rows.now at) number self.old self.new last result }
        ensures joined { AreBlocksJoined EIGHT rows.now (λ row above. row ≡ above + 1) at self.new }
    {
        let row = rows.runs[at as usize].row;
        if row == 0 {
            return last;
        }
        let first = rows.notes[at as usize].above;
        self.join_row::<EIGHT>(rows, at, row - 1, first, last, number)
    }

    // Adds the blocks of the runs of the row below that touch a run of their units.
    fn join_below<const EIGHT: bool>(
        &mut self,
        rows: &RowRuns,
        at: u32,
        last: u32,
        number: u32,
    ) -> u32
        requires ordered { AreInOrder rows.now }
        requires blocks { HasBlocks rows.now }
        requires noted { AreNoted rows.now }
        requires sized { AreSized (length rows.now.runs.items) self.old }
        requires at { at < length rows.now.runs.items }
        requires last { last < length rows.now.runs.items }
        ensures joins { Joins (AreBeside EIGHT rows.now) (block_at rows.now at) number self.old self.new last result }
        ensures joined { AreBlocksJoined EIGHT rows.now (λ row below. below ≡ row + 1) at self.new }
    {
        let row = rows.runs[at as usize].row + 1;
        if row == rows.nrows {
            return last;
        }
        let first = rows.notes[at as usize].below;
        self.join_row::<EIGHT>(rows, at, row, first, last, number)
    }

    // Gives a block that is in no component, and all that are joined to it, a number, and links them.
    fn fill_from<const EIGHT: bool>(&mut self, rows: &RowRuns, start: u32, number: u32)
        requires ordered { AreInOrder rows.now }
        requires blocks { HasBlocks rows.now }
        requires noted { AreNoted rows.now }
        requires sized { AreSized (length rows.now.runs.items) self.old }
        requires start { start < block_count rows.now }
        requires free { IsFree self.old.components.items start }
        requires links { IsLinkedToItself self.old }
        ensures { Fills (AreBeside EIGHT rows.now) start number self.old self.new }
    {
        self.components[start as usize] = Some(number);
        let mut last = start;
        let mut at = start;
        // a component has at most as many blocks as there are runs
        for _ in 0..rows.runs.len() {
            let block = rows.blocks.block(at);
            last = self.join_above::<EIGHT>(rows, block.first, last, number);
            last = self.join_below::<EIGHT>(rows, block.last, last, number);
            if at == last {
                return;
            }
            at = self.links[at as usize];
        }
    }

    // Fills the component that begins at a block, if the block is in none yet.
    fn fill_block<const EIGHT: bool>(&mut self, rows: &RowRuns, block: u32)
        requires ordered { AreInOrder rows.now }
        requires blocks { HasBlocks rows.now }
        requires noted { AreNoted rows.now }
        requires block { block < block_count rows.now }
        requires filled { AreFilled (AreBeside EIGHT rows.now) (length rows.now.runs.items) self.old block }
        ensures { AreFilled (AreBeside EIGHT rows.now) (length rows.now.runs.items) self.new (block + 1) }
    {
        if self.components[block as usize].is_some() {
            return;
        }
        let number = self.count;
        self.firsts[number as usize] = block;
        self.fill_from::<EIGHT>(rows, block, number);
        self.count = number + 1;
    }

    // Gives a run the component of its block, and puts it in front of that component's list.
    fn put(&mut self, rows: &RowRuns, at: usize, end: u32)
        requires ordered { AreInOrder rows.now }
        requires blocks { HasBlocks rows.now }
        requires sized { AreSized (length rows.now.runs.items) self.old }
        requires at { at < length rows.now.runs.items }
        requires numbered { IsNumbered self.old.components.items (block_at rows.now at) }
        requires known { (k : ℕ) → IsOf self.old.components.items (block_at rows.now at) k
            → k < length self.old.firsts.items }
        ensures { (k next : ℕ) → IsOf self.old.components.items (block_at rows.now at) k
            → slice_get self.old.firsts.items k ≡ Some next → IsPut end at k next self.old self.new }
    {
        let component = self.components[rows.blocks.block_of(at as u32) as usize];
        self.components[at] = component;
        let Some(k) = component else {
            return;
        };
        let next = self.firsts[k as usize];
        self.links[at] = link_to(next, end, at as u32);
        self.firsts[k as usize] = at as u32;
    }

    // Gives each run the component of its block, and links the runs of each component in the order in which they lie.
    // A block comes no later than its runs, so that going backwards reads each block before a run is written there.
    fn spread<const EIGHT: bool>(&mut self, rows: &RowRuns)
        requires ordered { AreInOrder rows.now }
        requires blocks { HasBlocks rows.now }
        requires filled { AreFilled (AreBeside EIGHT rows.now) (length rows.now.runs.items) self.old
            (block_count rows.now) }
        ensures { AreFilled (contacts EIGHT rows.now) (length rows.now.runs.items) self.new
            (length rows.now.runs.items) }
    {
        let end = rows.runs.len() as u32;
        'firsts: for k in 0..self.count {
            self.firsts[k as usize] = end;
        }
        let mut at = rows.runs.len();
        'runs: while at > 0 {
            at -= 1;
            self.put(rows, at, end);
        }
    }

    // Numbers and links the runs of all components anew.
    pub(crate) fn fill<const EIGHT: bool>(&mut self, rows: &RowRuns)
        requires ordered { AreInOrder rows.now }
        requires blocks { HasBlocks rows.now }
        requires noted { AreNoted rows.now }
        requires sized { AreSized (length rows.now.runs.items) self.old }
        requires clear { self.old.count ≡ 0 → HasNone self.old }
        ensures { AreFilled (contacts EIGHT rows.now) (length rows.now.runs.items) self.new
            (length rows.now.runs.items) }
    {
        self.clear();
        for block in 0..rows.blocks.count(rows.runs.len()) {
            self.fill_block::<EIGHT>(rows, block as u32);
        }
        if rows.blocks.are_runs() {
            return;
        }
        self.spread::<EIGHT>(rows);
    }
}
