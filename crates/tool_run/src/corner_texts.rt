// The texts of the coordinates of corners, kept.
ghost use Rattle.std.specs.Prelude.{◌≡◌, ◌++◌, ◌≤◌, ◌<◌, All, IfOk, OnOk, length};
ghost use Rattle.geo_transform.specs.Frame.{IsFrame};
ghost use Rattle.ring_faces.specs.Faces.{IsCornerOf};
ghost use Rattle.tool_outcome.specs.Polygonize.{point_of};
ghost use Rattle.tool_run.specs.Inner.CornerTexts.{AreKept, HasNoText, x_text, y_text};
ghost use Rattle.wkt_text.specs.Spelling.{point_text};

use edge_trace::Corner;
use geo_transform::Frame;
use std::alloc::{AllocError, Global};

// How many texts are kept of columns, and how many of rows. It is fixed, so that a grid of one row and millions of
// columns takes no more memory than any other.
const KEPT: u32 = 4096;

// The text of the coordinate of a column or row, and which. Past all of them, where there is none yet.
#[derive(Drop)]
struct KeptText {
    at: u32,
    text: Vec<u8>,
}

// The texts of the columns and rows that were written last. A corner's x depends on its column alone and its y on its
// row alone, so each is written often.
#[derive(Drop)]
pub(crate) struct CornerTexts {
    alloc: Global,
    frame: Frame,
    columns: Vec<KeptText>,
    rows: Vec<KeptText>,
    ghost kept: { AreKept frame columns.items rows.items },
}

// Where the text of a column or row is kept.
fn slot_of(at: u32) -> usize
    ensures { result < 4096 }
{
    (at % KEPT) as usize
}

// No text. The only error is want of memory.
fn nothing_kept(alloc: Global) -> Result<Vec<KeptText>, AllocError>
    ensures long { IfOk result (λ kept. length kept.items ≡ 4096) }
    ensures none { IfOk result (λ kept. All HasNoText kept.items) }
{
    let mut kept = Vec::with_capacity(alloc, KEPT as usize)?;
    'slots: for _slot in 0..KEPT {
        kept.push(KeptText {
            at: u32::MAX,
            text: Vec::new(alloc),
        })?;
    }
    Ok(kept)
}

impl CornerTexts {
    // No text yet of a frame's corners. The only error is want of memory.
    pub(crate) fn of(alloc: Global, frame: Frame) -> Result<CornerTexts, AllocError>
        requires { IsFrame frame }
        ensures { IfOk result (λ texts. texts.frame ≡ frame) }
    {
        let columns = nothing_kept(alloc)?;
        let rows = nothing_kept(alloc)?;
        Ok(CornerTexts {
            alloc,
            frame,
            columns,
            rows,
        })
    }

    // Appends the point of a corner.
    pub(crate) fn write(&mut self, corner: Corner, out: &mut Vec<u8>) -> Result<(), AllocError>
        requires { IsCornerOf self.old.frame.nrows self.old.frame.ncols (corner.row, corner.col) }
        ensures text { OnOk result (out.new.items ≡ out.old.items ++ point_text (point_of self.old.frame (corner.row, corner.col))) }
        ensures frame { self.new.frame ≡ self.old.frame }
    {
        self.write_x(corner.col, out)?;
        out.push(b' ')?;
        self.write_y(corner.row, out)
    }

    // Appends the x of a column.
    fn write_x(&mut self, col: u32, out: &mut Vec<u8>) -> Result<(), AllocError>
        requires { col ≤ self.old.frame.ncols }
        ensures text { OnOk result (out.new.items ≡ out.old.items ++ x_text self.old.frame col) }
        ensures frame { self.new.frame ≡ self.old.frame }
    {
        let kept = &self.columns[slot_of(col)];
        if kept.at == col {
            out.extend_from_slice(&kept.text)?;
            return Ok(());
        }
        self.keep_column(col, out)
    }

    // Appends the y of a row.
    fn write_y(&mut self, row: u32, out: &mut Vec<u8>) -> Result<(), AllocError>
        requires { row ≤ self.old.frame.nrows }
        ensures text { OnOk result (out.new.items ≡ out.old.items ++ y_text self.old.frame row) }
        ensures frame { self.new.frame ≡ self.old.frame }
    {
        let kept = &self.rows[slot_of(row)];
        if kept.at == row {
            out.extend_from_slice(&kept.text)?;
            return Ok(());
        }
        self.keep_row(row, out)
    }

    // Appends the x of a column, and keeps it. A text is whole before it takes another's place.
    #[cold]
    fn keep_column(&mut self, col: u32, out: &mut Vec<u8>) -> Result<(), AllocError>
        requires { col ≤ self.old.frame.ncols }
        ensures text { OnOk result (out.new.items ≡ out.old.items ++ x_text self.old.frame col) }
        ensures frame { self.new.frame ≡ self.old.frame }
    {
        let (x, _) = self.frame.corner(0, col);
        let mut text = Vec::new(self.alloc);
        x.write(&mut text)?;
        out.extend_from_slice(&text)?;
        self.columns[slot_of(col)] = KeptText { at: col, text };
        Ok(())
    }

    // Appends the y of a row, and keeps it.
    #[cold]
    fn keep_row(&mut self, row: u32, out: &mut Vec<u8>) -> Result<(), AllocError>
        requires { row ≤ self.old.frame.nrows }
        ensures text { OnOk result (out.new.items ≡ out.old.items ++ y_text self.old.frame row) }
        ensures frame { self.new.frame ≡ self.old.frame }
    {
        let (_, y) = self.frame.corner(row, 0);
        let mut text = Vec::new(self.alloc);
        y.write(&mut text)?;
        out.extend_from_slice(&text)?;
        self.rows[slot_of(row)] = KeptText { at: row, text };
        Ok(())
    }
}
