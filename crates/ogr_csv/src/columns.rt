// The columns of a layer's header.
ghost use Rattle.std.specs.Prelude.{◌≡◌, option_map};
ghost use Rattle.csv.specs.Records.{field_at, fields_of};
ghost use Rattle.ogr_csv.specs.Layer.{column_of, columns_of};
ghost use Rattle.ogr_csv.specs.Inner.Read.{is_named};

use crate::fault::LayerFault;
use csv::ByteRecord;

/// Where a record has its geometry, and its attribute, where one is asked for.
#[derive(Clone, Copy)]
pub(crate) struct Columns {
    pub(crate) geometry: usize,
    pub(crate) attribute: Option<usize>,
}

// Whether a column has a name, without regard to case.
fn is_named(header: &ByteRecord, column: usize, name: &[u8]) -> bool
    ensures { result ≡ is_named name.now (field_at (fields_of header.now) column) }
{
    match header.get(column) {
        Some(field) => field.eq_ignore_ascii_case(name),
        None => false,
    }
}

// The first column with a name.
fn column_of(header: &ByteRecord, name: &[u8]) -> Option<usize>
    ensures { result ≡ column_of name.now (fields_of header.now) }
{
    'columns: for column in 0..header.len() {
        if is_named(header, column, name) {
            return Some(column);
        }
    }
    None
}

/// The columns of a header, for the field that is asked for, if one is.
pub(crate) fn columns_of(header: &ByteRecord, field: Option<&str>) -> Result<Columns, LayerFault>
    ensures { result ≡ columns_of (option_map (λ name. name.now) field.entry) (fields_of header.now) }
{
    let Some(geometry) = column_of(header, b"WKT") else {
        return Err(LayerFault::NoGeometryColumn);
    };
    let Some(name) = field else {
        return Ok(Columns {
            geometry,
            attribute: None,
        });
    };
    let Some(attribute) = column_of(header, name.as_bytes()) else {
        return Err(LayerFault::NoField);
    };
    Ok(Columns {
        geometry,
        attribute: Some(attribute),
    })
}
