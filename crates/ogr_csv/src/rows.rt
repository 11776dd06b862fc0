// The text of rows.
ghost use Rattle.std.specs.Prelude.{◌≡◌, ◌++◌, ◌∷◌, [], ◌<◌, ◌≤◌, IfOk, IsTrue, OnErr, OnOk, length, map};
ghost use Rattle.csv.specs.Records.{fields_of};
ghost use Rattle.ogr_csv.specs.Rows.{line_of};

use csv::{ByteRecord, Writer, WriterBuilder};
use std::alloc::{AllocError, Global};
use std::marker::Model;

/// A row that is put together field by field. Contracts see its fields.
#[derive(Drop)]
pub struct RowText {
    fields: Vec<Vec<u8>>,
}

impl Model for RowText {
    ghost use Rattle.std.specs.Prelude.{List, map, ℕ};

    ghost Value = { List (List ℕ) };

    ghost view = { λ row. map (λ field. field.items) row.fields.items };
}

// The record of some fields.
fn record_of(alloc: Global, fields: &[Vec<u8>]) -> Result<ByteRecord, AllocError>
    ensures { IfOk result (λ row. fields_of row ≡ map (λ field. field.items) fields.now) }
{
    let mut row = ByteRecord::new(alloc);
    'fields: for field in fields {
        row.push_field(field.as_slice())?;
    }
    Ok(row)
}

// The text of the row that a record is.
fn line_of(alloc: Global, row: &ByteRecord) -> Result<Vec<u8>, AllocError>
    ensures { IfOk result (λ text. text.items ≡ line_of (fields_of row.now)) }
{
    let mut writer = WriterBuilder::new().from_writer(Vec::new(alloc));
    if writer.write_byte_record(row).is_err() {
        return Err(AllocError);
    }
    match writer.into_inner() {
        Ok(text) => Ok(text),
        Err(_) => Err(AllocError),
    }
}

impl RowText {
    /// A row without fields.
    pub fn new(alloc: Global) -> Result<RowText, AllocError>
        ensures { IfOk result (λ row. row ≡ []) }
    {
        Ok(RowText {
            fields: Vec::new(alloc),
        })
    }

    /// Adds a field. A refusal leaves the row as it was.
    pub fn add(&mut self, field: &[u8]) -> Result<(), AllocError>
        ensures ok { OnOk result (self.new ≡ self.old ++ field.now ∷ []) }
        ensures err { OnErr result (self.new ≡ self.old) }
    {
        let alloc = *self.fields.allocator();
        self.fields.push(field.to_vec(alloc)?)?;
        Ok(())
    }

    /// Appends the text of the row, as the crate csv writes it by default, and begins a new row. A refusal leaves both
    /// the row and `out` as they were.
    pub fn finish(&mut self, out: &mut Vec<u8>) -> Result<(), AllocError>
        requires { 0 < length self.old }
        ensures ok { OnOk result (out.new.items ≡ out.old.items ++ line_of self.old) }
        ensures next { OnOk result (self.new ≡ []) }
        ensures err { OnErr result (out.new.items ≡ out.old.items) }
        ensures kept { OnErr result (self.new ≡ self.old) }
    {
        let alloc = *out.allocator();
        let row = record_of(alloc, self.fields.as_slice())?;
        let text = line_of(alloc, &row)?;
        out.extend_from_slice(text.as_slice())?;
        self.fields.clear();
        Ok(())
    }
}

// A text of rows is long from so many bytes on: few calls, and little to hold.
const LONG: usize = 1_048_576;

/// The text of many rows, through one writer of the crate csv. Contracts see the text.
#[derive(Drop)]
pub struct RowsText {
    writer: Writer<Vec<u8>>,
    has_failed: bool,
}

impl Model for RowsText {
    ghost use Rattle.std.specs.Prelude.{List, Some, ℕ};

    ghost Value = { List ℕ };

    ghost use Rattle.csv.specs.Writing.{text_written};
    ghost use Rattle.ogr_csv.specs.Inner.Written.{IsWritingUnless, text_unless};

    ghost view = { λ rows. text_unless rows.has_failed (text_written (λ text. Some text.items) rows.writer) };

    ghost invariant = { λ rows. IsWritingUnless rows.has_failed rows.writer };
}

impl RowsText {
    /// A text without rows. It takes no memory.
    pub fn new(alloc: Global) -> RowsText
        ensures { result ≡ [] }
    {
        RowsText {
            writer: WriterBuilder::new()
                .flexible(true)
                .from_writer(Vec::new(alloc)),
            has_failed: false,
        }
    }

    /// Adds the row of these fields, as `RowText` writes it. After a refusal the text is lost, and so is what further
    /// calls add.
    pub fn add(&mut self, fields: &[&[u8]]) -> Result<(), AllocError>
        ensures ok { OnOk result (self.new ≡ self.old ++ line_of (map (λ field. field.now) fields.now)) }
        ensures err { OnErr result (self.new ≡ []) }
    {
        if self.has_failed {
            return Err(AllocError);
        }
        let Ok(()) = self.writer.write_fields(fields) else {
            self.has_failed = true;
            return Err(AllocError);
        };
        Ok(())
    }

    /// Whether the text is so long that a new one should be begun, at about 1 MiB.
    pub fn is_long(&self) -> bool
        ensures { IsTrue result → LONG ≤ length self.now }
    {
        !self.has_failed && self.writer.get_ref().len() >= LONG
    }

    /// The text.
    pub fn into_text(self) -> Result<Vec<u8>, AllocError>
        ensures { IfOk result (λ text. text.items ≡ self) }
    {
        let RowsText { writer, has_failed } = self;
        if has_failed {
            return Err(AllocError);
        }
        match writer.into_inner() {
            Ok(text) => Ok(text),
            Err(_) => Err(AllocError),
        }
    }
}
