//! The parts of a graph: its components, its cut vertices and its blocks; search trees of biconnected
//! graphs.
#![tactic(auto)]

mod block_numbers;
mod component_numbers;
mod cut_vertex;
mod darts;
mod edge_blocks;
mod edge_links;
mod low_points;
mod numbering;
mod rooted_search;
mod search;
mod search_forest;

pub use block_numbers::blocks;
pub use component_numbers::{components, components_without};
pub use cut_vertex::is_cut_vertex;
pub use edge_blocks::{EdgeParts, edges_by_block};
pub use rooted_search::{SearchTree, search_tree};

#[cfg(test)]
mod tests;
