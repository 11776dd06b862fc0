//! Which cells a geometry touches.
#![tactic(auto)]

mod columns;
mod laws;
mod stretch;
mod touched;

pub use laws::along_cells_touched_is_covered;
pub use touched::{TouchScan, cover_touched, touched_runs};
