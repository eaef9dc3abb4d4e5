//! Instances of synchronized planarity without pipes (Bläsius, Fink, Rutter 2021): in which directions a block keeps the
//! lists of its Q-vertices, and whether two blocks cross at a Q-vertex.
#![tactic(auto)]

mod block_rows;
mod block_trees;
mod cell_equations;
mod crossing;
mod directions;
mod fault;
mod free;
mod gluing;
mod turns;

pub use block_trees::{BlockTree, embed_block, embed_blocks};
pub use crossing::first_crossing;
pub use directions::{DirectedBlock, directed};
pub use fault::{BlockFault, FreeFault};
pub use free::solve_free;

#[cfg(test)]
mod tests;
