//! The parts of components: which components of one labelling lie in each component of another.
#![tactic(auto)]

mod laws;
mod parts;

pub use laws::each_is_its_own_part;
pub use parts::Parts;
