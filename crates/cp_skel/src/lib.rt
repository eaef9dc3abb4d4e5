//! Skeletons of a clustered graph (Bläsius, Rutter 2016): what each cluster sees when the borders round it and in it
//! are opened. A clustered graph is c-planar exactly where its skeletons can be solved. `skeletons_of` makes them, and
//! `borders_of` turns a solution of them into a layout of the graph.
#![tactic(auto)]

mod border_pairs;
mod borders;
mod laws;
mod names;
mod order;
mod rows;
mod skeletons;
mod tables;
mod vertex;

pub use borders::borders_of;
pub use laws::{solutions_and_layouts, solvable_exactly_where_planar};
pub use skeletons::{Skeletons, skeletons_of};
pub use vertex::Vertex;

#[cfg(test)]
mod tests;
