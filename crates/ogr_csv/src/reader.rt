// Reading a layer feature by feature.
ghost use Rattle.std.specs.Prelude.{◌≡◌, IfOk, IfSome, Some, option_map, true};
ghost use Rattle.csv.specs.Reading.{source_of};
ghost use Rattle.csv.specs.Records.{fields_of};
ghost use Rattle.ogr_csv.specs.Inner.Left.{IsReading, TakesRecord, records_left};
ghost use Rattle.wkt_text.specs.Geometry.{IsWritable};
ghost use Rattle.ogr_csv.specs.Layer.{layer_of};
ghost use Rattle.ogr_csv.specs.Next.{Opens, TakesNext};

use crate::columns::{Columns, columns_of};
use crate::fault::LayerFault;
use crate::feature::{Feature, feature_of};
use csv::{ByteRecord, Reader, ReaderBuilder};
use std::alloc::Global;
use std::marker::Model;

// Where the reading of a layer stands.
#[derive(Clone, Copy)]
enum Stage {
    Reading,
    Ended,
    Refused(LayerFault),
}

// Reads the next record into `fields`, and says whether there is one.
fn read_record(reader: &mut Reader<&[u8]>, fields: &mut ByteRecord) -> Result<bool, LayerFault>
    requires { IsReading reader.old (source_of (λ s. Some s.now) reader.old) }
    ensures taken { TakesRecord
        (records_left reader.old (source_of (λ s. Some s.now) reader.old))
        (records_left reader.new (source_of (λ s. Some s.now) reader.new))
        (fields_of fields.new) result }
    ensures reading { IfOk result (λ found. found ≡ true → IsReading reader.new (source_of (λ s. Some s.now) reader.new)) }
{
    let Ok(found) = reader.read_byte_record(fields) else {
        return Err(LayerFault::NoMemory);
    };
    Ok(found)
}

/// The features of a layer text, read one by one. Contracts see the answers that are left.
#[derive(Drop)]
pub struct LayerReader<'a> {
    reader: Reader<&'a [u8]>,
    fields: ByteRecord,
    columns: Columns,
    number: u64,
    stage: Stage,
}

impl<'a> Model for LayerReader<'a> {
    ghost use Rattle.std.specs.Prelude.{Some};
    ghost use Rattle.ogr_csv.specs.Next.{Answers};

    ghost Value = { Answers };

    ghost use Rattle.csv.specs.Reading.{source_of};
    ghost use Rattle.ogr_csv.specs.Inner.Left.{IsReadingAt, answers_left, records_left};

    ghost view = { λ r. answers_left r.stage r.columns r.number (records_left r.reader (source_of (λ s. Some s.now) r.reader)) };

    ghost invariant = { λ r. IsReadingAt r.stage r.reader (source_of (λ s. Some s.now) r.reader) r.number };
}

impl<'a> LayerReader<'a> {
    /// A reader of the features of a layer text, with the attribute of the asked field, if one is asked for.
    /// `NoHeader` where there is no record, then `NoGeometryColumn` where no field of the first is named WKT, then
    /// `NoField` where a field is asked for and none has its name.
    pub fn open(
        alloc: Global,
        bytes: &'a [u8],
        field: Option<&str>,
    ) -> Result<LayerReader<'a>, LayerFault>
        ensures { Opens (layer_of (option_map (λ name. name.now) field.entry) bytes.now) result }
    {
        let mut reader = ReaderBuilder::new()
            .has_headers(false)
            .flexible(true)
            .from_reader(alloc, bytes);
        let mut fields = ByteRecord::new(alloc);
        match read_record(&mut reader, &mut fields) {
            Ok(true) => {}
            Ok(false) => return Err(LayerFault::NoHeader),
            Err(_) => return Err(LayerFault::NoMemory),
        }
        let columns = columns_of(&fields, field)?;
        Ok(LayerReader {
            reader,
            fields,
            columns,
            number: 1,
            stage: Stage::Reading,
        })
    }

    /// The next feature; none exactly behind the last record. The first record that is refused gives its fault, and
    /// every further call the same fault again, also where it is want of memory.
    pub fn next(&mut self, alloc: Global) -> Result<Option<Feature>, LayerFault>
        ensures answer { TakesNext self.old self.new result }
        ensures writable { IfOk result (λ next. IfSome next (λ feature. IfSome feature.geometry IsWritable)) }
    {
        match self.stage {
            Stage::Reading => {}
            Stage::Ended => return Ok(None),
            Stage::Refused(fault) => return Err(fault),
        }
        match read_record(&mut self.reader, &mut self.fields) {
            Ok(true) => {}
            Ok(false) => {
                self.stage = Stage::Ended;
                return Ok(None);
            }
            Err(_) => {
                self.stage = Stage::Refused(LayerFault::NoMemory);
                return Err(LayerFault::NoMemory);
            }
        }
        match feature_of(alloc, &self.fields, self.columns, self.number) {
            Ok(feature) => {
                self.number += 1;
                Ok(Some(feature))
            }
            Err(fault) => {
                self.stage = Stage::Refused(fault);
                Err(fault)
            }
        }
    }
}
