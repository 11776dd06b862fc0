//! Grids of cells and masks over them, the steps from cell to cell, and the types that a cell can have.
#![tactic(auto)]

mod cell;
mod fault;
mod grid;
mod kind;
mod mask;
mod micro;
mod run;
mod steps;
mod whole;

pub use cell::Cell;
pub use fault::CellFault;
pub use grid::Grid;
pub use kind::CellKind;
pub use mask::Mask;
pub use micro::Micro;
pub use run::Run;
pub use steps::Steps;
