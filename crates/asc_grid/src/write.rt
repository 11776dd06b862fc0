// Writing a grid.
ghost use Rattle.std.specs.Prelude.{◌≡◌, ◌++◌, ◌<◌, ◌≤◌, ℕ, List, IfOk, OnErr, OnOk, [], codes, length, pos, MatchBool, if◌then◌else◌};
ghost use Rattle.std.specs.List.{flat_map};
ghost use Rattle.fixed_coord.specs.Coordinate.{coord_places};
ghost use Rattle.fixed_coord.specs.Shortest.{shortest};
ghost use Rattle.asc_grid.specs.Appended.{Appends, AppendsPart};
ghost use Rattle.asc_grid.specs.Canonical.{canonical_text, header_line, header_text, nodata_line, row_text, spelled};
ghost use Rattle.asc_grid.specs.Inner.Next.{IsNext, rows_from};
ghost use Rattle.asc_grid.specs.Inner.Rest.{row_from};

use crate::Asc;
use cell_base::{Cell, Grid};
use fixed_coord::Coord;
use std::alloc::{AllocError, Global};

// Appends the line of a keyword and a value.
fn cell_line<T: Cell>(keyword: &[u8], value: T, out: &mut Vec<u8>) -> Result<(), AllocError>
    ensures { OnOk result (out.new.items ≡ out.old.items ++ header_line keyword.now (spelled T.units_of T.PLACES value)) }
{
    out.extend_from_slice(keyword)?;
    out.push(b' ')?;
    value.write(out)?;
    out.push(b'\n')?;
    Ok(())
}

fn coord_line(keyword: &[u8], value: Coord, out: &mut Vec<u8>) -> Result<(), AllocError>
    ensures { OnOk result (out.new.items ≡ out.old.items ++ header_line keyword.now (shortest value coord_places)) }
{
    out.extend_from_slice(keyword)?;
    out.push(b' ')?;
    value.write(out)?;
    out.push(b'\n')?;
    Ok(())
}

fn count_line(keyword: &[u8], value: u32, out: &mut Vec<u8>) -> Result<(), AllocError>
    ensures { OnOk result (out.new.items ≡ out.old.items ++ header_line keyword.now (shortest (pos value) 0)) }
{
    cell_line(keyword, i64::from(value), out)
}

fn nodata_line<T: Cell>(nodata: Option<T>, out: &mut Vec<u8>) -> Result<(), AllocError>
    ensures { OnOk result (out.new.items ≡ out.old.items ++ nodata_line (spelled T.units_of T.PLACES) nodata) }
{
    match nodata {
        Some(value) => cell_line(b"NODATA_value", value, out),
        None => Ok(()),
    }
}

// The lines of the header.
#[tactic(auto, unfolding(crate::specs::Canonical::header_text))]
fn header<T: Cell>(alloc: Global, asc: &Asc<T>) -> Result<Vec<u8>, AllocError>
    ensures { IfOk result (λ text. text.items ≡ header_text (spelled T.units_of T.PLACES) asc.now) }
{
    let mut text = Vec::new(alloc);
    count_line(b"ncols", asc.frame.ncols, &mut text)?;
    count_line(b"nrows", asc.frame.nrows, &mut text)?;
    coord_line(b"xllcorner", asc.frame.xll, &mut text)?;
    coord_line(b"yllcorner", asc.frame.yll, &mut text)?;
    coord_line(b"cellsize", asc.frame.cell, &mut text)?;
    nodata_line(asc.nodata, &mut text)?;
    Ok(text)
}

// What stands behind a cell: a line end behind the last one of a row, and else a space.
fn separator(is_last: bool) -> u8
    ensures { result ≡ (if is_last then 10 else 32) }
{
    if is_last { b'\n' } else { b' ' }
}

// Appends the cells of a row from a column on, until the row ends or `out` is as long as the limit, and
// says at which column it stopped.
fn append_cells<T: Cell>(
    row: &[T],
    from: usize,
    limit: usize,
    out: &mut Vec<u8>,
) -> Result<usize, AllocError>
    requires { from ≤ length row.now }
    ensures within { IfOk result (λ col. col ≤ length row.now) }
    ensures further { IfOk result (λ col. from < length row.now → length out.old.items < limit → from < col) }
    ensures full { IfOk result (λ col. col < length row.now → limit ≤ length out.new.items) }
    ensures ok { let spell : _ → List ℕ = spelled T.units_of T.PLACES in
        IfOk result (λ col. Appends out.old.items out.new.items (row_from spell row.now from) (row_from spell row.now col)) }
    ensures err { OnErr result (AppendsPart out.old.items out.new.items (row_from (spelled T.units_of T.PLACES) row.now from)) }
{
    let mut col = from;
    while col < row.len() && out.len() < limit {
        row[col].write(out)?;
        col += 1;
        out.push(separator(col == row.len()))?;
    }
    Ok(col)
}

// Where the next cell stands: a row, and a column in it, or the row past the last one.
#[derive(Clone, Copy)]
struct Next {
    row: u32,
    col: usize,
}

// The grid's first cell, from which on all its rows are left.
fn first_of<T: Cell>(cells: &Grid<T>) -> Next
    ensures next { IsNext cells.now result }
    ensures all { rows_from (spelled T.units_of T.PLACES) cells.now result ≡ flat_map (row_text (spelled T.units_of T.PLACES)) cells.now.rows }
{
    // A proof learns the grid's shape from this call.
    let _ncols = cells.ncols();
    Next { row: 0, col: 0 }
}

// Appends the rows from a cell on, until they end or `out` is as long as the limit, and says where it
// stopped.
fn append_rows<T: Cell>(
    cells: &Grid<T>,
    from: Next,
    limit: usize,
    out: &mut Vec<u8>,
) -> Result<Next, AllocError>
    requires { IsNext cells.now from }
    ensures next { IfOk result (IsNext cells.now) }
    ensures all { IfOk result (λ next. length out.new.items < limit → rows_from (spelled T.units_of T.PLACES) cells.now next ≡ []) }
    ensures ok { let spell : _ → List ℕ = spelled T.units_of T.PLACES in
        IfOk result (λ next. Appends out.old.items out.new.items (rows_from spell cells.now from) (rows_from spell cells.now next)) }
    ensures err { OnErr result (AppendsPart out.old.items out.new.items (rows_from (spelled T.units_of T.PLACES) cells.now from)) }
{
    let mut col = from.col;
    for row in from.row..cells.nrows() {
        col = append_cells(cells.row(row), col, limit, out)?;
        if col < cells.ncols() as usize {
            return Ok(Next { row, col });
        }
        col = 0;
    }
    Ok(Next {
        row: cells.nrows(),
        col: 0,
    })
}

/// Appends the canonical text of a grid. The only error is want of memory, and it leaves a first part of
/// the text appended.
pub fn write_grid<T: Cell>(asc: &Asc<T>, out: &mut Vec<u8>) -> Result<(), AllocError>
    ensures ok { OnOk result (out.new.items ≡ out.old.items ++ canonical_text (spelled T.units_of T.PLACES) asc.now) }
    ensures err { OnErr result (AppendsPart out.old.items out.new.items (canonical_text (spelled T.units_of T.PLACES) asc.now)) }
{
    let alloc = *out.allocator();
    out.extend_from_slice(&header(alloc, asc)?)?;
    append_rows(&asc.cells, first_of(&asc.cells), usize::MAX, out)?;
    Ok(())
}

// A piece of text is about this long: few calls, and little to hold.
const PIECE: usize = 1_048_576;

/// The canonical text of a grid, handed out piece by piece. `text_left` is the text that is left.
#[derive(Drop)]
pub struct GridText<'a, T> {
    alloc: Global,
    asc: &'a Asc<T>,
    has_header: bool,
    next: Next,
    ghost within: { IsNext asc.now.cells next },
}

impl<'a, T: Cell> GridText<'a, T> {
    ghost use Rattle.asc_grid.specs.Text.{text_left};

    /// The text of a grid, all of it. It takes no memory.
    pub fn of(alloc: Global, asc: &'a Asc<T>) -> GridText<'a, T>
        ensures { text_left (spelled T.units_of T.PLACES) result ≡ canonical_text (spelled T.units_of T.PLACES) asc.now }
    {
        GridText {
            alloc,
            asc,
            has_header: true,
            next: first_of(&asc.cells),
        }
    }

    /// Replaces what is in `piece` by the next part of the text, and says whether there was any left. A
    /// part is about 1 MiB long. The only error is want of memory, and the same text is left after it.
    pub fn next(&mut self, piece: &mut Vec<u8>) -> Result<bool, AllocError>
        ensures ok { OnOk result (text_left (spelled T.units_of T.PLACES) self.old ≡ piece.new.items ++ text_left (spelled T.units_of T.PLACES) self.new) }
        ensures more { IfOk result (λ more. MatchBool more (0 < length piece.new.items) (text_left (spelled T.units_of T.PLACES) self.old ≡ [])) }
        ensures err { OnErr result (text_left (spelled T.units_of T.PLACES) self.new ≡ text_left (spelled T.units_of T.PLACES) self.old) }
    {
        piece.clear();
        if self.has_header {
            piece.extend_from_slice(&header(self.alloc, self.asc)?)?;
        }
        let next = append_rows(&self.asc.cells, self.next, PIECE, piece)?;
        self.has_header = false;
        self.next = next;
        Ok(!piece.is_empty())
    }
}
