// Finds the sides of cells that bound components, run by run. A side is a number, four to a cell, where rows and columns
// count from 1 and rows are `stride` cells wide: so cells beyond the grid's border have numbers, too, and the side that
// follows a side is a few numbers away.
ghost use Rattle.std.specs.Prelude.{◌≡◌, ◌+◌, ◌^◌, ◌≤◌, ◌<◌, false, [], IfOk, OnOk, length};
ghost use Rattle.cell_base.specs.Raster.{IsRaster};
ghost use Rattle.region_label.specs.Labelling.{IsInRegion};
ghost use Rattle.region_label.specs.Run.{IsRunIn};
ghost use Rattle.region_label.specs.RunTable.{IsTableOfRegions};
ghost use Rattle.edge_trace.specs.Inner.Sides.{AreSides, IsStride, side_number};
ghost use Rattle.edge_trace.specs.Inner.Finding.{Adds, AreAhead, AreAround, AreBounds, HasRoom, HasRoomFrom, HasRowRoom};
ghost use Rattle.edge_trace.specs.Inner.Finding.{HasRunIn, HasRunTo, HasSides, IsPart, IsStretch, KeepsRoom, SkipsTo, TakesRoom};
ghost use Rattle.edge_trace.specs.Inner.Finding.{Tells, found_numbers, found_owners};

use crate::links::empty_slots;
use region_label::{Regions, Run, RunTable};
use std::alloc::{AllocError, Global};

// The sides by number, and the component of each.
#[derive(Drop)]
pub(crate) struct Sides {
    pub(crate) numbers: Vec<u32>,
    pub(crate) owners: Vec<u32>,
}

// Sides that are being found: those of the rows before, and in room for a row the first `count` of this row. Each side
// is written there in any case and counted if it bounds its component, which takes no branch.
#[derive(Drop)]
pub(crate) struct Finding {
    pub(crate) numbers: Vec<u32>,
    pub(crate) owners: Vec<u32>,
    pub(crate) row_numbers: Vec<u32>,
    pub(crate) row_owners: Vec<u32>,
    pub(crate) count: usize,
}

// Runs of a row, from one that hasn't been passed on.
#[derive(Clone, Copy)]
pub(crate) struct Ahead {
    pub(crate) row: u32,
    pub(crate) at: usize,
    pub(crate) end: usize,
}

// The runs of the rows above and below.
#[derive(Clone, Copy)]
pub(crate) struct Around {
    pub(crate) above: Ahead,
    pub(crate) below: Ahead,
}

// Up to a column no cell of a row, or each of them, is in a component.
#[derive(Clone, Copy)]
pub(crate) struct Stretch {
    pub(crate) free: bool,
    pub(crate) to: u32,
}

// A piece of a run, up to a column, that bounds its component above in all its cells or in none, and below likewise.
#[derive(Clone, Copy)]
pub(crate) struct Part {
    pub(crate) to: u32,
    pub(crate) above: bool,
    pub(crate) below: bool,
}

// The sides of a cell that bound its component.
#[derive(Clone, Copy)]
pub(crate) struct Bounds {
    pub(crate) left: bool,
    pub(crate) below: bool,
    pub(crate) right: bool,
    pub(crate) above: bool,
}

// All runs of a row; the row after the last has none.
fn runs_in_row(table: &RunTable, row: u32) -> Ahead
    requires { row ≤ table.now.nrows }
    ensures row { result.row ≡ row }
    ensures ahead { AreAhead table.now 0 result }
{
    if row == table.nrows() {
        let end = table.runs().len();
        return Ahead { row, at: end, end };
    }
    Ahead {
        row,
        at: table.row_start(row),
        end: table.row_start(row + 1),
    }
}

// The runs of the rows beside a row.
fn runs_around(table: &RunTable, row: u32) -> Around
    requires row { row < table.now.nrows }
    requires low { table.now.nrows < 2 ^ 32 }
    ensures { AreAround table.now row 0 result }
{
    let above = if row == 0 { table.nrows() } else { row - 1 };
    Around {
        above: runs_in_row(table, above),
        below: runs_in_row(table, row + 1),
    }
}

// Passes the runs that end before a column.
fn past(table: &RunTable, ahead: Ahead, col: u32) -> Ahead
    requires order { ahead.at ≤ ahead.end }
    requires within { ahead.end ≤ length table.now.runs }
    ensures { SkipsTo table.now.runs col ahead result }
{
    let runs = table.runs();
    let mut at = ahead.at;
    while at < ahead.end && runs[at].to <= col {
        at += 1;
    }
    Ahead { at, ..ahead }
}

// Passes the first run that is left, if it ends at a column.
fn step(table: &RunTable, ahead: Ahead, col: u32) -> Ahead
    requires ahead { AreAhead table.now col ahead }
    requires near { HasRunTo table.now.runs col ahead }
    ensures { SkipsTo table.now.runs col ahead result }
{
    if ahead.at == ahead.end {
        return ahead;
    }
    let passed = table.runs()[ahead.at].to <= col;
    Ahead {
        at: ahead.at + passed as usize,
        ..ahead
    }
}

// How far a row has no cell of a component, or only such cells, from a column on.
fn stretch_from(regions: &Regions, table: &RunTable, ahead: Ahead, k: u32, col: u32) -> Stretch
    requires lent { IsTableOfRegions regions.now table.now }
    requires ahead { AreAhead table.now col ahead }
    requires past { HasRunIn table.now.runs col ahead }
    requires col { col < 2 ^ 31 }
    ensures stretch { IsStretch regions.now ahead.row k col result }
    ensures near { HasRunTo table.now.runs result.to ahead }
{
    if ahead.at == ahead.end {
        return Stretch {
            free: true,
            to: u32::MAX,
        };
    }
    let run = table.runs()[ahead.at];
    if col < run.from {
        return Stretch {
            free: true,
            to: run.from,
        };
    }
    let free = match table.components()[ahead.at] {
        Some(other) => other != k,
        None => true,
    };
    Stretch { free, to: run.to }
}

// The piece of a run that begins at a column.
fn part_from(
    regions: &Regions,
    table: &RunTable,
    around: &Around,
    run: Run,
    k: u32,
    col: u32,
) -> Part
    requires lent { IsTableOfRegions regions.now table.now }
    requires shape { IsRaster regions.now.numbers }
    requires run { IsRunIn (IsInRegion regions.now k) run }
    requires from { run.from ≤ col }
    requires to { col < run.to }
    requires around { AreAround table.now run.row col around.now }
    requires above { HasRunIn table.now.runs col around.now.above }
    requires below { HasRunIn table.now.runs col around.now.below }
    ensures part { IsPart regions.now k run col result }
    ensures above { HasRunTo table.now.runs result.to around.now.above }
    ensures below { HasRunTo table.now.runs result.to around.now.below }
{
    let above = stretch_from(regions, table, around.above, k, col);
    let below = stretch_from(regions, table, around.below, k, col);
    Part {
        to: run.to.min(above.to).min(below.to),
        above: above.free,
        below: below.free,
    }
}

// The runs of the rows beside one, up to those that end past a column, by a search.
fn around_past(table: &RunTable, row: u32, around: Around, from: u32, col: u32) -> Around
    requires around { AreAround table.now row from around }
    requires further { from ≤ col }
    ensures around { AreAround table.now row col result }
    ensures above { HasRunIn table.now.runs col result.above }
    ensures below { HasRunIn table.now.runs col result.below }
{
    Around {
        above: past(table, around.above, col),
        below: past(table, around.below, col),
    }
}

// The same where each of the first runs ends at the column or later.
fn around_step(table: &RunTable, row: u32, around: Around, from: u32, col: u32) -> Around
    requires around { AreAround table.now row from around }
    requires further { from ≤ col }
    requires above { HasRunTo table.now.runs col around.above }
    requires below { HasRunTo table.now.runs col around.below }
    ensures around { AreAround table.now row col result }
    ensures above { HasRunIn table.now.runs col result.above }
    ensures below { HasRunIn table.now.runs col result.below }
{
    Around {
        above: step(table, around.above, col),
        below: step(table, around.below, col),
    }
}

impl Finding {
    // Nothing found yet, and room for a row of so many cells. The only error is want of memory.
    fn make(alloc: Global, ncols: u32) -> Result<Finding, AllocError>
        requires { ncols < 2 ^ 29 }
        ensures none { IfOk result (λ finding. found_numbers finding ≡ []) }
        ensures owners { IfOk result (λ finding. found_owners finding ≡ []) }
        ensures room { IfOk result (λ finding. HasRowRoom ncols finding) }
    {
        let room = 4 * ncols as usize + 4;
        let row_numbers = empty_slots(alloc, room)?;
        let row_owners = empty_slots(alloc, room)?;
        Ok(Finding {
            numbers: Vec::new(alloc),
            owners: Vec::new(alloc),
            row_numbers,
            row_owners,
            count: 0,
        })
    }

    // Writes a side, and counts it if it bounds its component.
    fn put(&mut self, bounds: bool, number: u32, k: u32)
        requires room { HasRoom 1 self.old }
        ensures adds { Adds bounds number k self.old self.new }
        ensures room { TakesRoom 1 self.old self.new }
    {
        self.row_numbers[self.count] = number;
        self.row_owners[self.count] = k;
        self.count += bounds as usize;
    }

    // Adds those sides of a cell that bound its component.
    fn put_cell(
        &mut self,
        regions: &Regions,
        stride: u32,
        run: Run,
        k: u32,
        col: u32,
        bounds: Bounds,
    )
        requires stride { IsStride regions.now.numbers.ncols regions.now.numbers.nrows stride }
        requires shape { IsRaster regions.now.numbers }
        requires bounds { AreBounds regions.now k (run.row, col) bounds }
        requires room { HasRoom 4 self.old }
        requires before { HasSides regions.now stride self.old (side_number stride (run.row, col) 0) }
        ensures room { TakesRoom 4 self.old self.new }
        ensures after { HasSides regions.now stride self.new (side_number stride (run.row, col + 1) 0) }
    {
        let first = ((run.row + 1) * stride + (col + 1)) * 4;
        self.put(bounds.left, first, k);
        self.put(bounds.below, first + 1, k);
        self.put(bounds.right, first + 2, k);
        self.put(bounds.above, first + 3, k);
    }

    // Adds the ends of a piece of a run that bounds its component neither above nor below.
    fn put_ends(&mut self, regions: &Regions, stride: u32, run: Run, k: u32, from: u32, to: u32)
        requires stride { IsStride regions.now.numbers.ncols regions.now.numbers.nrows stride }
        requires shape { IsRaster regions.now.numbers }
        requires run { IsRunIn (IsInRegion regions.now k) run }
        requires first { run.from ≤ from }
        requires last { to ≤ run.to }
        requires some { from < to }
        requires above { Tells regions.now k run.row 3 from to false }
        requires below { Tells regions.now k run.row 1 from to false }
        requires room { HasRoom 2 self.old }
        requires before { HasSides regions.now stride self.old (side_number stride (run.row, from) 0) }
        ensures room { TakesRoom 2 self.old self.new }
        ensures after { HasSides regions.now stride self.new (side_number stride (run.row, to) 0) }
    {
        let row = (run.row + 1) * stride;
        self.put(from == run.from, (row + (from + 1)) * 4, k);
        self.put(to == run.to, (row + to) * 4 + 2, k);
    }

    // Adds the sides of a piece of a run.
    fn put_part(&mut self, regions: &Regions, stride: u32, run: Run, k: u32, from: u32, part: Part)
        requires stride { IsStride regions.now.numbers.ncols regions.now.numbers.nrows stride }
        requires shape { IsRaster regions.now.numbers }
        requires run { IsRunIn (IsInRegion regions.now k) run }
        requires from { run.from ≤ from }
        requires part { IsPart regions.now k run from part }
        requires room { HasRoomFrom regions.now.numbers.ncols from self.old }
        requires before { HasSides regions.now stride self.old (side_number stride (run.row, from) 0) }
        ensures room { HasRoomFrom regions.now.numbers.ncols part.to self.new }
        ensures keeps { KeepsRoom self.old self.new }
        ensures after { HasSides regions.now stride self.new (side_number stride (run.row, part.to) 0) }
    {
        if !part.above && !part.below {
            return self.put_ends(regions, stride, run, k, from, part.to);
        }
        for col in from..part.to {
            let bounds = Bounds {
                left: col == run.from,
                below: part.below,
                right: col + 1 == run.to,
                above: part.above,
            };
            self.put_cell(regions, stride, run, k, col, bounds);
        }
    }

    // Adds the sides of the cells of a run.
    fn put_run(
        &mut self,
        regions: &Regions,
        table: &RunTable,
        stride: u32,
        around: Around,
        run: Run,
        k: u32,
    ) -> Around
        requires lent { IsTableOfRegions regions.now table.now }
        requires stride { IsStride regions.now.numbers.ncols regions.now.numbers.nrows stride }
        requires shape { IsRaster regions.now.numbers }
        requires run { IsRunIn (IsInRegion regions.now k) run }
        requires around { AreAround table.now run.row run.from around }
        requires room { HasRoomFrom regions.now.numbers.ncols run.from self.old }
        requires before { HasSides regions.now stride self.old (side_number stride (run.row, run.from) 0) }
        ensures around { AreAround table.now run.row run.to result }
        ensures room { HasRoomFrom regions.now.numbers.ncols run.to self.new }
        ensures keeps { KeepsRoom self.old self.new }
        ensures after { HasSides regions.now stride self.new (side_number stride (run.row, run.to) 0) }
    {
        let mut around = around_past(table, run.row, around, run.from, run.from);
        let mut col = run.from;
        while col < run.to {
            let part = part_from(regions, table, &around, run, k, col);
            self.put_part(regions, stride, run, k, col, part);
            around = around_step(table, run.row, around, col, part.to);
            col = part.to;
        }
        around
    }

    // Finds the sides of the cells of a row.
    fn put_row(&mut self, regions: &Regions, table: &RunTable, stride: u32, row: u32)
        requires lent { IsTableOfRegions regions.now table.now }
        requires stride { IsStride regions.now.numbers.ncols regions.now.numbers.nrows stride }
        requires shape { IsRaster regions.now.numbers }
        requires row { row < table.now.nrows }
        requires room { HasRoomFrom regions.now.numbers.ncols 0 self.old }
        requires before { HasSides regions.now stride self.old (side_number stride (row, 0) 0) }
        ensures room { HasRoom 0 self.new }
        ensures keeps { KeepsRoom self.old self.new }
        ensures after { HasSides regions.now stride self.new (side_number stride (row + 1, 0) 0) }
    {
        let mut around = runs_around(table, row);
        for i in table.row_start(row)..table.row_start(row + 1) {
            let run = table.runs()[i];
            let Some(k) = table.components()[i] else {
                return;
            };
            around = self.put_run(regions, table, stride, around, run, k);
        }
    }

    // Puts the sides of a row to those of the rows before, so that there is room for another row.
    fn end_row(&mut self) -> Result<(), AllocError>
        requires { HasRoom 0 self.old }
        ensures numbers { OnOk result (found_numbers self.new ≡ found_numbers self.old) }
        ensures owners { OnOk result (found_owners self.new ≡ found_owners self.old) }
        ensures none { OnOk result (self.new.count ≡ 0) }
        ensures keeps { KeepsRoom self.old self.new }
    {
        self.numbers
            .extend_from_slice(&self.row_numbers[..self.count])?;
        self.owners
            .extend_from_slice(&self.row_owners[..self.count])?;
        self.count = 0;
        Ok(())
    }
}

impl Sides {
    // The sides of the cells of a grid. The only error is want of memory.
    pub(crate) fn find(
        alloc: Global,
        regions: &Regions,
        table: &RunTable,
        stride: u32,
    ) -> Result<Sides, AllocError>
        requires lent { IsTableOfRegions regions.now table.now }
        requires stride { IsStride regions.now.numbers.ncols regions.now.numbers.nrows stride }
        requires shape { IsRaster regions.now.numbers }
        ensures { IfOk result (λ sides. AreSides regions.now stride sides.numbers.items sides.owners.items
            (side_number stride (regions.now.numbers.nrows, 0) 0)) }
    {
        let mut finding = Finding::make(alloc, table.ncols())?;
        for row in 0..table.nrows() {
            finding.put_row(regions, table, stride, row);
            finding.end_row()?;
        }
        Ok(Sides {
            numbers: finding.numbers,
            owners: finding.owners,
        })
    }
}
