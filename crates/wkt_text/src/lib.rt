//! Well-known text of geometries, read and written.
#![tactic(auto)]

mod cursor;
mod fault;
mod geometry;
mod kind;
mod laws;
mod read;
mod write;

pub use cursor::is_blank;
pub use fault::{WktFault, WktKind};
pub use geometry::{Geometry, Path, Polygons, Pt, Rings};
pub use laws::{lists_have_no_bound, reads_what_is_written};
pub use read::read_geometry;
pub use write::write_geometry;
