//! Frames: where the cells of a grid lie in the plane.
#![tactic(auto)]

mod corner;
mod extent;
mod fault;
mod frame;
mod laws;

pub use extent::Extent;
pub use fault::FrameFault;
pub use frame::Frame;
pub use laws::makes_each_frame;
