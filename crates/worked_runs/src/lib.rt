//! Worked runs of the whole program: words and files, in memory and on disk, with the status, the line and the files
//! that each must give. No clause rules out that a run finds no memory, so each also shows that it does where memory
//! is ample.
#![tactic(auto)]

#[cfg(test)]
mod checking;
#[cfg(test)]
mod comes_back;
#[cfg(test)]
mod contouring;
#[cfg(test)]
mod disk;
#[cfg(test)]
mod faults;
#[cfg(test)]
mod grids;
#[cfg(test)]
mod polygonizing;
#[cfg(test)]
mod rasterizing;
#[cfg(test)]
mod running;
#[cfg(test)]
mod sieving;
#[cfg(test)]
mod words;
