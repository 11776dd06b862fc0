//! The sieve: small components take the value of a larger neighbour.
#![tactic(auto)]

mod laws;
mod neighbours;
mod sieving;
mod targets;

pub use laws::{chain_has_one_end, sieved_is_one, threshold_one_keeps_all};
pub use sieving::sieve;
