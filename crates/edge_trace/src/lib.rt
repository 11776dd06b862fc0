//! The directed edges between a component and the rest of a grid.
#![tactic(auto)]

mod laws;
mod links;
mod side_numbers;
mod sides;
mod table;
mod walk_edge;
mod walks;

pub use laws::boundary_encloses;
pub use table::{Corner, EdgeTable};
pub use walk_edge::WalkEdge;
pub use walks::EdgeWalks;
