//! Runs of reductions of an instance of synchronized planarity (Bläsius, Fink, Rutter 2021): what holds of each step
//! and of each run. The functions have nothing to run; their contracts are laws.
#![tactic(auto)]

mod laws;

pub use laws::{runs_are_short, steps_lower_the_potential};
