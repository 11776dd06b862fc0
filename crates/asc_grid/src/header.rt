// Reading a header.
ghost use Rattle.std.specs.Prelude.{◌≡◌, [], Some, None, Ok, Err, IfErr, IfOk, OnOk, ◌<◌, ◌≤◌, ◌*◌, ◌^◌, ◌*ℤ◌, ◌-ℤ◌, ◌<ℤ◌, pos, unsigned_abs, drop, if◌then◌else◌};
ghost use Rattle.std.specs.Result.{result_err};
ghost use Rattle.fixed_coord.specs.Coordinate.{is_coord};
ghost use Rattle.fixed_coord.specs.Round.{round_half_away};
ghost use Rattle.geo_transform.specs.Frame.{IsFrame, frame_of};
ghost use Rattle.asc_grid.specs.Header.{edge_of, end_line, header_of, layout_of, values_of};
ghost use Rattle.asc_grid.specs.Offence.{offence_of_pairs, wrong_end, wrong_layout};
ghost use Rattle.asc_grid.specs.Value.{count_of, position_of, size_of, wrong_value};
ghost use Rattle.asc_grid.specs.Inner.Cursor.{end_of, tokens_at};
ghost use Rattle.asc_grid.specs.Inner.Values.{IsPositive, RefusesPair, TakesPair, given_layout, has, next_pair, with_value};

use crate::fault::{GridFault, GridKind};
use crate::keyword::{Group, Keyword, keyword_of};
use crate::tokens::Tokens;
use cell_base::Cell;
use fixed_coord::{Coord, MOST_CELLS, NumberFault, whole};
use geo_transform::Frame;

/// A coordinate of the cells' left or lower side: of the edge, or of the first cell's centre.
#[derive(Clone, Copy)]
pub struct Edge {
    pub at: Coord,
    pub centre: bool,
}

/// What the keywords of a header say, each where it came.
#[derive(Clone, Copy)]
pub struct HeaderValues<T> {
    pub columns: Option<u32>,
    pub rows: Option<u32>,
    pub left: Option<Edge>,
    pub lower: Option<Edge>,
    pub size: Option<Coord>,
    pub nodata: Option<Option<T>>,
}

// The greatest number of columns or rows that is read.
const MOST_COUNT: i128 = 2_147_483_647;

// A number of columns or rows.
fn count(text: &[u8]) -> Result<u32, GridKind>
    ensures value { result ≡ count_of text.now }
    ensures some { IfOk result (λ n. 0 < n) }
{
    match whole(text) {
        Ok(n) if n >= 1 && n <= MOST_COUNT => Ok(n as u32),
        _ => Err(GridKind::BadNumber),
    }
}

// A coordinate.
fn position(text: &[u8]) -> Result<Coord, GridKind>
    ensures { result ≡ position_of text.now }
{
    match Coord::read(text) {
        Ok(at) => Ok(at),
        Err(NumberFault::OutOfRange) => Err(GridKind::OutOfRange),
        Err(_) => Err(GridKind::BadNumber),
    }
}

// A cell's size.
fn size(text: &[u8]) -> Result<Coord, GridKind>
    ensures { result ≡ size_of text.now }
{
    let size = position(text)?;
    if size.units() > 0 {
        Ok(size)
    } else {
        Err(GridKind::BadNumber)
    }
}

// Half of a number, rounded half away from zero.
fn half(n: i64) -> i64
    requires { unsigned_abs n ≤ 2 * 10 ^ 18 }
    ensures { result ≡ round_half_away n 2 }
{
    let size = n.unsigned_abs().div_ceil(2) as i64;
    if n < 0 { -size } else { size }
}

// Twice the edge that lies half a cell away from a centre.
fn doubled_edge(centre: Coord, size: Coord) -> i64
    ensures value { result ≡ pos 2 *ℤ centre -ℤ size }
    ensures small { unsigned_abs result ≤ 2 * 10 ^ 18 }
{
    2 * centre.units() - size.units()
}

// The units of an edge: half a cell away from a centre, rounded half away from zero.
fn edge_units(edge: Edge, size: Coord) -> i64
    ensures { result ≡ edge_of edge size }
{
    if edge.centre {
        half(doubled_edge(edge.at, size))
    } else {
        edge.at.units()
    }
}

// The coordinate of an edge.
fn edge_coord(edge: Edge, size: Coord) -> Result<Coord, GridKind>
    ensures { result ≡ (if is_coord (edge_of edge size) then Ok (edge_of edge size) else Err GridKind.OutOfRange) }
{
    Coord::from_units(edge_units(edge, size)).ok_or(GridKind::OutOfRange)
}

fn product(ncols: u32, nrows: u32) -> u64
    ensures { result ≡ ncols * nrows }
{
    u64::from(ncols) * u64::from(nrows)
}

// The frame of so many columns and rows of this size.
fn given_frame(
    ncols: u32,
    nrows: u32,
    left: Edge,
    lower: Edge,
    size: Coord,
) -> Result<Frame, GridKind>
    requires cols { 0 < ncols }
    requires rows { 0 < nrows }
    requires size { pos 0 <ℤ size }
    ensures frame { IfOk result (λ frame. (frame ≡ frame_of (given_layout ncols nrows left lower size)) × IsFrame frame) }
    ensures wrong { result_err result ≡ wrong_layout (given_layout ncols nrows left lower size) }
{
    let count = product(ncols, nrows);
    if count > u64::from(MOST_CELLS) {
        return Err(GridKind::TooLarge(count));
    }
    let left = edge_coord(left, size)?;
    let lower = edge_coord(lower, size)?;
    match Frame::make(ncols, nrows, left, lower, size) {
        Ok(frame) => Ok(frame),
        Err(_) => Err(GridKind::OutOfRange),
    }
}

impl<T: Cell> HeaderValues<T> {
    // Nothing yet.
    fn none() -> HeaderValues<T>
        ensures values { result ≡ values_of T.read_of [] }
        ensures positive { IsPositive result }
    {
        HeaderValues {
            columns: None,
            rows: None,
            left: None,
            lower: None,
            size: None,
            nodata: None,
        }
    }

    fn has(&self, group: Group) -> bool
        ensures { result ≡ has self.now group }
    {
        match group {
            Group::Columns => self.columns.is_some(),
            Group::Rows => self.rows.is_some(),
            Group::Left => self.left.is_some(),
            Group::Lower => self.lower.is_some(),
            Group::Size => self.size.is_some(),
            Group::Nodata => self.nodata.is_some(),
        }
    }

    // Takes the value of a keyword whose group hasn't come.
    fn take(&mut self, keyword: Keyword, value: &[u8]) -> Result<(), GridKind>
        ensures ok { OnOk result (self.new ≡ with_value T.read_of self.old keyword value.now) }
        ensures wrong { result_err result ≡ wrong_value keyword.group value.now }
        ensures positive { OnOk result (IsPositive self.old → IsPositive self.new) }
    {
        let edge = |at| Edge {
            at,
            centre: keyword.centre,
        };
        match keyword.group {
            Group::Columns => self.columns = Some(count(value)?),
            Group::Rows => self.rows = Some(count(value)?),
            Group::Left => self.left = Some(edge(position(value)?)),
            Group::Lower => self.lower = Some(edge(position(value)?)),
            Group::Size => self.size = Some(size(value)?),
            Group::Nodata => self.nodata = Some(T::read(value).ok()),
        }
        Ok(())
    }

    // The frame that the values make.
    pub fn frame(&self) -> Result<Frame, GridKind>
        requires { IsPositive self.now }
        ensures frame { IfOk result (λ frame. (frame ≡ frame_of (layout_of self.now)) × IsFrame frame) }
        ensures wrong { result_err result ≡ wrong_end self.now }
    {
        let (Some(ncols), Some(nrows), Some(left), Some(lower), Some(size)) = (
            self.columns,
            self.rows,
            self.left,
            self.lower,
            self.size,
        ) else {
            return Err(GridKind::MissingKeyword);
        };
        given_frame(ncols, nrows, left, lower, size)
    }
}

fn fault(kind: GridKind, line: u64) -> GridFault
    ensures { result ≡ GridFault.At kind line }
{
    GridFault::At { kind, line }
}

// Takes the pair whose keyword was read, and whose value comes next.
fn read_pair<T: Cell>(
    word: &[u8],
    tokens: &mut Tokens<'_>,
    values: &mut HeaderValues<T>,
) -> Result<(), GridFault>
    ensures ok { let pair = next_pair (record { text = word.now; line = tokens.old.line }) (tokens_at tokens.old) in
        OnOk result (TakesPair T.read_of pair values.old values.new) }
    ensures refused { let pair = next_pair (record { text = word.now; line = tokens.old.line }) (tokens_at tokens.old) in
        IfErr result (RefusesPair T.read_of pair values.old) }
    ensures behind { OnOk result (tokens_at tokens.new ≡ drop 1 (tokens_at tokens.old)) }
    ensures same_end { end_of tokens.new ≡ end_of tokens.old }
{
    let line = tokens.line();
    let Some(keyword) = keyword_of(word) else {
        return Err(fault(GridKind::UnknownKeyword, line));
    };
    if values.has(keyword.group) {
        return Err(fault(GridKind::RepeatedKeyword, line));
    }
    let Some(value) = tokens.next() else {
        return Err(fault(GridKind::BadNumber, line));
    };
    match values.take(keyword, value) {
        Ok(()) => Ok(()),
        Err(kind) => Err(fault(kind, tokens.line())),
    }
}

// What the pairs of a header say, up to the token that ends it.
pub fn read_header<T: Cell>(tokens: &mut Tokens<'_>) -> Result<HeaderValues<T>, GridFault>
    ensures values { IfOk result (λ values. values ≡ values_of T.read_of (header_of (tokens_at tokens.old)).pairs) }
    ensures positive { IfOk result IsPositive }
    ensures sound { IfOk result (λ _. offence_of_pairs [] (header_of (tokens_at tokens.old)).pairs ≡ None) }
    ensures refused { IfErr result (λ fault. offence_of_pairs [] (header_of (tokens_at tokens.old)).pairs ≡ Some fault) }
    ensures cells { IfOk result (λ _. tokens_at tokens.new ≡ (header_of (tokens_at tokens.old)).cells) }
    ensures line { IfOk result (λ _. tokens.new.line ≡ end_line (end_of tokens.old) (tokens_at tokens.new)) }
    ensures same_end { end_of tokens.new ≡ end_of tokens.old }
{
    let mut values = HeaderValues::none();
    'pairs: while let Some(word) = tokens.next_keyword() {
        read_pair(word, tokens, &mut values)?;
    }
    Ok(values)
}
