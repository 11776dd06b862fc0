//! What a run of the program is to do: definitions of its outcome and of its line, and the law that it is one.
//!
//! Each tool has a file in specs/ with what it writes.
#![tactic(auto)]

mod fault;
mod laws;
mod status;

pub use fault::{Fault, Role};
pub use laws::{
    contour_text_is_one, each_grid_has_a_layer, outcome_is_one, polygonize_text_is_one,
    writes_the_sieved_grid,
};
pub use status::Status;
