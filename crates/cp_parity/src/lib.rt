//! Equations over bits: bits that meet them all, or a closed walk of equations that no bits meet.
#![tactic(auto)]

mod equation_lists;
mod fault;
mod found;
mod odd_cycle;
mod search;
mod solving;

pub use fault::{ParityFault, Places};
pub use solving::solve;

#[cfg(test)]
mod tests;
