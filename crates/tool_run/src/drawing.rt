// Contour lines as the rows of a layer.
ghost use Rattle.std.specs.Prelude.{◌≡◌, ◌++◌, ◌+◌, ◌⊎◌, ◌<◌, [], OnOk, length};
ghost use Rattle.ogr_csv.specs.Rows.{line_of};
ghost use Rattle.wkt_text.specs.Geometry.{IsWritable};
ghost use Rattle.tool_outcome.specs.Contour.{header_row, row_of};
ghost use Rattle.tool_run.specs.Inner.Contours.{IsDrawing, IsProgress, contour_text, rows_left, text_left};

use crate::pieces::Pieces;
use asc_grid::Asc;
use cell_base::{Cell, Micro};
use contour_chain::{Lines, chain, print_line};
use contour_segments::{LevelList, SegmentTable};
use itoa::Buffer;
use ogr_csv::RowsText;
use std::alloc::{AllocError, Global};
use tool_words::ContourJob;
use wkt_text::{Geometry, write_geometry};

// The texts of most lines and of all levels are no longer, so that few texts are moved while they grow.
const TEXT_ROOM: usize = 4096;

const NUMBER_ROOM: usize = 24;

// A grid whose contour lines are drawn.
#[derive(Drop)]
pub(crate) struct Drawing<'a> {
    pub(crate) job: &'a ContourJob,
    pub(crate) asc: &'a Asc<Micro>,
    pub(crate) levels: &'a LevelList,
    pub(crate) table: SegmentTable<'a>,
}

// How far the drawing is.
#[derive(Drop)]
pub(crate) struct Progress {
    // the level that was begun last, its lines, and the next of them
    level: Micro,
    lines: Lines,
    next: usize,
    // how many levels were begun, and how many rows written
    begun: usize,
    written: u64,
}

impl Progress {
    // No level has been begun.
    fn start(alloc: Global) -> Progress
        ensures { (result.lines ≡ []) × (result.next ≡ 0) × (result.begun ≡ 0) × (result.written ≡ 0) }
    {
        Progress {
            level: <Micro as Cell>::clamp_from(0),
            lines: Lines::new(alloc),
            next: 0,
            begun: 0,
            written: 0,
        }
    }
}

impl<'a> Drawing<'a> {
    // Adds the header.
    fn add_header(&self, rows: &mut RowsText) -> Result<(), AllocError>
        ensures { OnOk result (rows.new ≡ rows.old ++ line_of (header_row self.now.job.now.field)) }
    {
        match &self.job.field {
            None => rows.add(&[b"WKT", b"ID"])?,
            Some(name) => rows.add(&[b"WKT", b"ID", name.as_str().as_bytes()])?,
        }
        Ok(())
    }

    // Adds the row of a line.
    fn add_row(
        &self,
        alloc: Global,
        level: Micro,
        shape: &Geometry,
        id: u64,
        rows: &mut RowsText,
    ) -> Result<(), AllocError>
        requires { IsWritable shape.now }
        ensures { OnOk result (rows.new ≡ rows.old ++ line_of (row_of self.now.job.now.field id (level, shape.now))) }
    {
        let mut wkt = Vec::with_capacity(alloc, TEXT_ROOM)?;
        write_geometry(shape, &mut wkt)?;
        let mut digits = Buffer::new();
        let id = digits.format(id).as_bytes();
        if self.job.field.is_none() {
            rows.add(&[wkt.as_slice(), id])?;
            return Ok(());
        }
        let mut height = Vec::with_capacity(alloc, NUMBER_ROOM)?;
        level.write(&mut height)?;
        rows.add(&[wkt.as_slice(), id, height.as_slice()])?;
        Ok(())
    }

    // Adds the row of the next line, if it has more than one point.
    fn add_line(
        &self,
        alloc: Global,
        at: &mut Progress,
        rows: &mut RowsText,
    ) -> Result<(), AllocError>
        requires drawing { IsDrawing self.now }
        requires at { IsProgress self.now at.old }
        requires next { at.old.next < length at.old.lines }
        ensures at { IsProgress self.now at.new }
        ensures next { OnOk result (at.new.next ≡ at.old.next + 1) }
        ensures lines { at.new.lines ≡ at.old.lines }
        ensures begun { at.new.begun ≡ at.old.begun }
        ensures rows { OnOk result (rows.old ++ rows_left self.now at.old ≡ rows.new ++ rows_left self.now at.new) }
    {
        let line = &at.lines.as_slice()[at.next];
        let shape = print_line(alloc, &self.asc.frame, &self.asc.cells, at.level, line)?;
        at.next += 1;
        let Some(shape) = shape else {
            return Ok(());
        };
        self.add_row(alloc, at.level, &shape, at.written, rows)?;
        at.written += 1;
        Ok(())
    }

    // Adds the rows of the level that was begun last, until the text is long.
    fn add_lines(
        &self,
        alloc: Global,
        at: &mut Progress,
        rows: &mut RowsText,
    ) -> Result<(), AllocError>
        requires drawing { IsDrawing self.now }
        requires at { IsProgress self.now at.old }
        ensures at { IsProgress self.now at.new }
        ensures begun { at.new.begun ≡ at.old.begun }
        ensures rows { OnOk result (rows.old ++ rows_left self.now at.old ≡ rows.new ++ rows_left self.now at.new) }
        ensures some { OnOk result (at.new.next < length at.new.lines → 0 < length rows.new) }
    {
        'lines: while at.next < at.lines.len() && !rows.is_long() {
            self.add_line(alloc, at, rows)?;
        }
        Ok(())
    }

    // Begins the next level.
    fn begin_level(&self, alloc: Global, at: &mut Progress) -> Result<(), AllocError>
        requires drawing { IsDrawing self.now }
        requires at { IsProgress self.now at.old }
        requires done { at.old.next ≡ length at.old.lines }
        requires more { at.old.begun < length self.now.levels.now }
        ensures at { IsProgress self.now at.new }
        ensures begun { OnOk result (at.new.begun ≡ at.old.begun + 1) }
        ensures rows { OnOk result (rows_left self.now at.old ≡ rows_left self.now at.new) }
    {
        let level = self.levels.as_slice()[at.begun];
        let segments = self.table.segments(alloc, level)?;
        let lines = chain(alloc, segments)?;
        at.level = level;
        at.lines = lines;
        at.next = 0;
        at.begun += 1;
        Ok(())
    }

    // Adds the rows that are left, until the text is long.
    fn add_rows(
        &self,
        alloc: Global,
        at: &mut Progress,
        rows: &mut RowsText,
    ) -> Result<(), AllocError>
        requires drawing { IsDrawing self.now }
        requires at { IsProgress self.now at.old }
        ensures at { IsProgress self.now at.new }
        ensures rows { OnOk result (rows.old ++ rows_left self.now at.old ≡ rows.new ++ rows_left self.now at.new) }
        ensures some { OnOk result ((0 < length rows.new) ⊎ (rows_left self.now at.new ≡ [])) }
    {
        'levels: loop {
            self.add_lines(alloc, at, rows)?;
            if at.next < at.lines.len() || at.begun == self.levels.len() {
                return Ok(());
            }
            self.begin_level(alloc, at)?;
        }
    }
}

// The text of a layer of contour lines, handed out in pieces of whole rows.
#[derive(Drop)]
pub(crate) struct ContourText<'a> {
    alloc: Global,
    drawing: &'a Drawing<'a>,
    has_header: bool,
    at: Progress,
    ghost drawn: { IsDrawing drawing.now },
    ghost progress: { IsProgress drawing.now at },
}

impl<'a> ContourText<'a> {
    // The text of a drawing, all of it. It takes no memory.
    pub(crate) fn of(alloc: Global, drawing: &'a Drawing<'a>) -> ContourText<'a>
        requires { IsDrawing drawing.now }
        ensures { text_left result.drawing.now result.has_header result.at
            ≡ contour_text drawing.now.job.now drawing.now.asc.now drawing.now.table.valid drawing.now.levels.now }
    {
        ContourText {
            alloc,
            drawing,
            has_header: true,
            at: Progress::start(alloc),
        }
    }
}

impl<'a> Pieces for ContourText<'a> {
    ghost use Rattle.std.specs.Prelude.{length};
    ghost use Rattle.tool_run.specs.Inner.Contours.{text_left};

    ghost left = { λ text. text_left text.drawing.now text.has_header text.at };

    ghost steps = { λ text. length (text_left text.drawing.now text.has_header text.at) };

    fn next(&mut self, piece: &mut Vec<u8>) -> Result<bool, AllocError> {
        let mut rows = RowsText::new(self.alloc);
        if self.has_header {
            self.drawing.add_header(&mut rows)?;
        }
        self.drawing.add_rows(self.alloc, &mut self.at, &mut rows)?;
        *piece = rows.into_text()?;
        self.has_header = false;
        Ok(!piece.is_empty())
    }
}
