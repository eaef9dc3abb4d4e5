//! The reduction Propagate of synchronized planarity, which puts an order tree in the place of both ends of a pipe
//! (Bläsius, Rutter 2016; Bläsius, Fink, Rutter 2021).
#![tactic(auto)]

mod partners;
mod planted_ends;
mod planting;
mod propagates;
mod reading;
mod rewriting;
mod tables;
mod turning_back;

pub use propagates::{propagate, propagate_keeps_solvable};
pub use turning_back::{back, propagate_back};

#[cfg(test)]
mod tests;
