//! Exact decimal numbers: number texts, coordinates in units of 10^-10, and exact tests on them.
#![tactic(auto)]

mod coord;
mod cut;
mod fault;
mod laws;
mod limits;
mod parts;
mod read;
mod round;
mod turn;
mod write;

pub use coord::Coord;
pub use fault::NumberFault;
pub use laws::{
    reads_what_is_written, rounds_to_nearest, writes_the_shortest, writes_whole_numbers,
};
pub use limits::{FARTHEST, MOST_CELLS, MOST_COORDINATE};
pub use read::{scaled, short_whole, whole};
pub use round::ratio_round;
pub use turn::side;
pub use write::write_scaled;
