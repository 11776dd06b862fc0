//! ESRI ASCII grids, read and written, with cells of any type.
//!
//! `read_grid` answers the grid of a text or its first offence with its line; `write_grid` appends the
//! canonical text, and `GridText` hands it out piece by piece.
#![tactic(auto)]

mod fault;
mod grid;
mod header;
mod keyword;
mod laws;
mod tokens;
mod write;

pub use fault::{GridFault, GridKind};
pub use grid::{Asc, read_grid};
pub use laws::reads_what_is_written;
pub use write::{GridText, write_grid};
