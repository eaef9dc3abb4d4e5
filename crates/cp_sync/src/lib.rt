//! Instances of synchronized planarity (Bläsius, Fink, Rutter 2021) as stored values, the trait `Board` of what
//! reductions need of an instance, and solutions.
#![tactic(auto)]

mod board;
mod checked;
mod copies;
mod ends;
mod fault;
mod free;
mod instance;
mod lists;
mod named;
mod names;
mod numbered;
mod ordered;
mod outcome;
mod pairs;
mod piping;
mod rewriting;
mod rotation;
mod solution;
mod tables;

pub use board::Board;
pub use cp_base::{Branch, Branches, Shape};
pub use cp_board::{
    EdgeMove, EdgeRow, EdgeRows, Kind, Moves, NameKind, Names, Pairs, Pipe, Pipes, Reason, Rewrite,
    Step, StepList, Vert, Verts,
};
pub use fault::PartsFault;
pub use instance::{Instance, first_instance_copy};
pub use numbered::{BoardGraph, graph_of};
pub use outcome::Outcome;
pub use rotation::rot_of;
pub use solution::Solution;

#[cfg(test)]
mod tests;
