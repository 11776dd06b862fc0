use thiserror::Error;
use wkt_text::WktKind;

/// Why a layer is refused. Records are counted from 1 behind the header.
#[derive(Clone, Copy, Debug, Error)]
pub enum LayerFault {
    /// There is no record.
    #[error("no header")]
    NoHeader,
    /// No field of the first record is named WKT.
    #[error("no geometry column")]
    NoGeometryColumn,
    /// No field of the first record has the name that is asked for.
    #[error("no such field")]
    NoField,
    /// The geometry of record `at` is refused, at this byte of the field, counted from 1.
    #[error("bad geometry")]
    BadGeometry { at: u64, kind: WktKind, byte: u64 },
    /// The attribute of record `at` is no number.
    #[error("bad attribute")]
    BadAttribute { at: u64 },
    /// Memory ran out.
    #[error("out of memory")]
    NoMemory,
}
