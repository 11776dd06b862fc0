//! From the words after the program's name to a job, or to the first fault in them.
//!
//! Each tool has a file with its options; `read` is the table of tools.
#![tactic(auto)]

mod check;
mod contour;
mod fault;
mod job;
mod names;
mod options;
mod piece;
mod polygonize;
mod rasterize;
mod read;
mod reading;
mod sieve;
mod value;
mod words;

pub use fault::{WordFault, WordKind};
pub use job::{
    CheckJob, ContourJob, Job, MaskFrom, MicroList, PolygonizeJob, RasterizeJob, SieveJob,
    SizeFrom, ValueFrom,
};
pub use read::read_words;
pub use words::{Name, Words};
