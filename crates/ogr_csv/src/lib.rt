//! Layers as OGR's CSV driver writes them: the features of a text, and the text of rows.
#![tactic(auto)]

mod columns;
mod fault;
mod feature;
mod laws;
mod reader;
mod rows;

pub use fault::LayerFault;
pub use feature::Feature;
pub use laws::reads_what_is_written;
pub use reader::LayerReader;
pub use rows::{RowText, RowsText};
