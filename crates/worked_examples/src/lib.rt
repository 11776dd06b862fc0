//! Worked examples: numbers, cells and frames, runs of cells and components, tables of edges, polygons, the sieve,
//! layers and words, with what each must give. No clause rules out that a call runs out of memory, so each example
//! also shows that it doesn't where memory is ample.
#![tactic(auto)]

#[cfg(test)]
mod cells;
#[cfg(test)]
mod edges;
#[cfg(test)]
mod frames;
#[cfg(test)]
mod layers;
#[cfg(test)]
mod numbers;
#[cfg(test)]
mod outside;
#[cfg(test)]
mod polygons;
#[cfg(test)]
mod regions;
#[cfg(test)]
mod run_table;
#[cfg(test)]
mod sieve;
#[cfg(test)]
mod words;
