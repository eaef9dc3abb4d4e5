//! The components of one or two vertices of a board, found and numbered without the rest of the board.
#![tactic(auto)]

mod components;
mod part;
mod places;
mod searching;
#[cfg(test)]
mod tests;

pub use components::local_graph;
pub use part::LocalGraph;
pub use places::place_of;
