//! The connected components of a grid's equal valid cells.
#![tactic(auto)]

mod blocks;
mod labelling;
mod laws;
mod lists;
mod regions;
mod rows;
mod table;
mod walk;

pub use cell_base::Run;
pub use labelling::label;
pub use laws::{each_grid_has_a_labelling, labelling_is_one};
pub use regions::Regions;
pub use table::RunTable;
pub use walk::RunWalk;
