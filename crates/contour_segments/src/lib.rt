//! The levels of a contouring, and the contour segments of a level, by marching squares on the lattice of cell centres.
#![tactic(auto)]

mod lattice;
mod laws;
mod level;
mod lists;
mod segment;
mod series;
mod side;
mod span;
mod table;

pub use laws::{
    each_crossed_side_has_its_segment, levels_make_one_list, segments_cross_once,
    segments_keep_high_on_right, segments_stand_in_order,
};
pub use level::{LevelFault, LevelSpec, levels};
pub use lists::{LevelList, SegmentList};
pub use segment::{Cross, Segment};
pub use side::Side;
pub use table::{SegmentTable, segments};
