//! The round trip: what polygonizing leaves, burned back, is the grid. Laws over the definitions of the tools, below the code.
#![tactic(auto)]

mod laws;

pub use laws::{
    checked_grid_comes_back, checked_grid_reads_back, extent_gives_the_frame_back, grid_comes_back,
    normalised_grid_is_the_grid, polygons_give_the_grid_back, written_polygon_covers_its_cells,
};
