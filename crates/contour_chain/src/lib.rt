//! The contour lines of a level, and their points.
#![tactic(auto)]

mod laws;
mod links;
mod lists;
mod point;
mod walk;

pub use laws::level_has_one_list_of_lines;
pub use lists::{Line, Lines};
pub use point::print_line;
pub use walk::chain;
