//! The reduction Join of synchronized planarity at a pipe between two cut vertices (Bläsius, Fink, Rutter 2021).
#![tactic(auto)]

mod edge_places;
mod inner_systems;
mod joins;
mod parted_ends;
mod turning_back;
mod vertex_parts;

pub use joins::join;
pub use turning_back::{back, join_back, join_keeps_solvable};
pub use vertex_parts::parts_at;

#[cfg(test)]
mod tests;
