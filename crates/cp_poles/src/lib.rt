//! Reductions of synchronized planarity at pipes of few pairs and at poles (Bläsius, Fink, Rutter 2021).
#![tactic(auto)]

mod bonds;
mod cycles;
mod free_poles;
mod fused_poles;
mod reordered;
mod rows;
mod small_pipes;
mod torus;
mod torus_fault;
mod turned;
mod turning_back;
mod wanted;

pub use bonds::is_bond;
pub use free_poles::{free_pole, free_pole_back, free_pole_keeps_solvable};
pub use fused_poles::{fuse_poles, fuse_poles_back, fuse_poles_keeps_solvable};
pub use small_pipes::{small, small_back, small_keeps_solvable};
pub use torus::{toroidal, toroidal_back, toroidal_keeps_solvable, unequal_cycles_unsolvable};
pub use torus_fault::TorusFault;
pub use turning_back::back;

#[cfg(test)]
mod tests;
#[cfg(test)]
mod tests_parts;
