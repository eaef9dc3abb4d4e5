//! Whether a report's layout is good for a clustered graph, told without taking memory.
#![tactic(auto)]

mod judge;
mod scratch;
mod verdict;

pub use judge::check;
pub use scratch::Scratch;
pub use verdict::{Reject, Verdict};

#[cfg(test)]
mod tests;
#[cfg(test)]
mod tests_by_border_graph;
