// The feature of a record.
ghost use Rattle.std.specs.Prelude.{◌≡◌, ◌≤◌, IfOk, IfSome, length, option_map};
ghost use Rattle.std.specs.List.{list_all, prefix_len};
ghost use Rattle.csv.specs.Records.{fields_of};
ghost use Rattle.wkt_text.specs.Geometry.{IsWritable};
ghost use Rattle.wkt_text.specs.Tokens.{is_blank};
ghost use Rattle.ogr_csv.specs.Attribute.{number_in, trimmed, value_of, without_last_blanks};
ghost use Rattle.ogr_csv.specs.Inner.Read.{ReadsFeature, ReadsGeometry};

use crate::columns::Columns;
use crate::fault::LayerFault;
use csv::ByteRecord;
use fixed_coord::{NumberFault, scaled};
use std::alloc::Global;
use wkt_text::{Geometry, WktFault, is_blank, read_geometry};

/// What a record gives: a geometry, where its field isn't blank, and a value, where an attribute was asked for and its
/// field isn't blank.
#[derive(Debug, Drop)]
pub struct Feature {
    pub geometry: Option<Geometry>,
    pub value: Option<i64>,
}

fn is_blank_text(text: &[u8]) -> bool
    ensures { result ≡ list_all is_blank text.now }
{
    text.iter().all(|byte| is_blank(*byte))
}

// How many blanks a text begins with.
fn first_blanks(text: &[u8]) -> usize
    ensures count { result ≡ prefix_len is_blank text.now }
    ensures within { result ≤ length text.now }
{
    text.iter().take_while(|byte| is_blank(**byte)).count()
}

fn without_last_blanks(text: &[u8]) -> &[u8]
    ensures { result.now ≡ without_last_blanks text.now }
{
    let mut len = text.len();
    'blanks: while len > 0 && is_blank(text[len - 1]) {
        len -= 1;
    }
    &text[..len]
}

fn trimmed(text: &[u8]) -> &[u8]
    ensures { result.now ≡ trimmed text.now }
{
    let (_, rest) = text.split_at(first_blanks(text));
    without_last_blanks(rest)
}

// The value of an attribute's text.
fn number_in(text: &[u8]) -> Result<Option<i64>, NumberFault>
    ensures { result ≡ number_in text.now }
{
    if text.is_empty() {
        return Ok(None);
    }
    let number = scaled(text, 0)?;
    Ok(Some(number.clamp(i128::from(i64::MIN), i128::from(i64::MAX)) as i64))
}

// The geometry of a record's field, if it has one.
fn geometry_in(
    alloc: Global,
    field: Option<&[u8]>,
    number: u64,
) -> Result<Option<Geometry>, LayerFault>
    ensures answer { ReadsGeometry number (option_map (λ text. text.now) field.entry) result }
    ensures writable { IfOk result (λ geometry. IfSome geometry IsWritable) }
{
    let Some(text) = field else {
        return Ok(None);
    };
    if is_blank_text(text) {
        return Ok(None);
    }
    match read_geometry(alloc, text) {
        Ok(geometry) => Ok(Some(geometry)),
        Err(WktFault::At { kind, byte }) => Err(LayerFault::BadGeometry {
            at: number,
            kind,
            byte,
        }),
        Err(WktFault::NoMemory) => Err(LayerFault::NoMemory),
    }
}

// The value of a record's field, if it has one.
fn value_of(field: Option<&[u8]>) -> Result<Option<i64>, NumberFault>
    ensures { result ≡ value_of (option_map (λ text. text.now) field.entry) }
{
    match field {
        Some(text) => number_in(trimmed(text)),
        None => Ok(None),
    }
}

/// The feature of the record of this number, or what is wrong with it.
pub(crate) fn feature_of(
    alloc: Global,
    fields: &ByteRecord,
    columns: Columns,
    number: u64,
) -> Result<Feature, LayerFault>
    ensures answer { ReadsFeature columns number (fields_of fields.now) result }
    ensures writable { IfOk result (λ feature. IfSome feature.geometry IsWritable) }
{
    let geometry = geometry_in(alloc, fields.get(columns.geometry), number)?;
    let attribute = columns.attribute.and_then(|column| fields.get(column));
    match value_of(attribute) {
        Ok(value) => Ok(Feature { geometry, value }),
        Err(_) => Err(LayerFault::BadAttribute { at: number }),
    }
}
