//! The program but for its `main`: from its words and a folder of files to a status, the files afterwards,
//! one line on standard error, and what `check` prints.
//!
//! `run` is the top call. Its contract names the whole outcome of a run, which the crate `tool_outcome`
//! defines from the words and the files. Each tool has a file; `jobs` is the table of tools.
#![tactic(auto)]

mod burned_cells;
mod burning;
mod check;
mod contours;
mod corner_texts;
mod drawing;
mod grid_file;
mod jobs;
mod layer_extent;
mod layer_file;
mod layer_message;
mod message;
mod pieces;
mod polygons;
mod program;
mod shape_text;
mod sieve;

pub use burning::rasterize;
pub use check::check_runs;
pub use contours::contour;
pub use polygons::polygonize;
pub use program::run;
pub use sieve::sieve_tool;
pub use tool_outcome::{Fault, Role, Status};
pub use tool_words::{
    CheckJob, ContourJob, Job, MaskFrom, MicroList, Name, PolygonizeJob, RasterizeJob, SieveJob,
    SizeFrom, ValueFrom, WordFault, WordKind, Words, read_words,
};
