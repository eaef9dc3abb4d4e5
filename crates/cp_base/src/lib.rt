//! Want of memory, lists that contracts see as lists, cyclic lists, permutations, plain graphs,
//! shapes of order trees and equations over bits.
#![tactic(auto)]

mod cyc_list;
mod equation;
mod graph;
mod items;
mod memory;
mod perm;
mod shape;
mod turns;

pub use cyc_list::CycList;
pub use equation::{Equation, Equations};
pub use graph::Graph;
pub use items::Items;
pub use memory::Memory;
pub use perm::{Perm, PermFault};
pub use shape::{Branch, Branches, Shape};

#[cfg(test)]
mod tests;
