//! The polygons of components.
#![tactic(auto)]

mod corners;
mod cycles;
mod faces;
mod lattice;
mod laws;
mod lists;
mod owners;
mod polygon;
mod rings;
mod turns;
mod walk;

pub use corners::CornerWalk;
pub use faces::Faces;
pub use laws::{canonical_polygons_fit, each_has_one_polygon, labelled_by_sides};
pub use polygon::{LatticePolygon, Ring, RingList};
pub use walk::RingWalk;
