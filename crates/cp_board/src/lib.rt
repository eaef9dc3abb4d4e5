//! Instances of synchronized planarity (Bläsius, Fink, Rutter 2021), rewrites, reductions and reasons as plain data.
//! What they mean stands in `specs/`: when a list solves an instance, when a reduction is allowed, what it makes of an
//! instance, which runs of reductions are legal, and what is to blame where there is no solution. The crate has no
//! code of its own.
#![tactic(auto)]

mod parts;
mod rewrite;
mod steps;

pub use parts::{EdgeRow, EdgeRows, Kind, NameKind, Pairs, Pipe, Pipes, Vert, Verts};
pub use rewrite::{EdgeMove, Moves, Names, Rewrite};
pub use steps::{Reason, Step, StepList};
