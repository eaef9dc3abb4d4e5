//! Towards the step Propagate (Bläsius, Fink, Rutter 2021): the orders of a vertex that is no cut vertex, in the
//! rotations of its block, as a pole or as the shape of an order tree.
#![tactic(auto)]

mod end_tree;
mod fault;
mod naming;
mod own_block;
mod places;
mod trees;

pub use end_tree::EndTree;
pub use fault::TreeFault;
pub use trees::tree_at;
