//! Embeddings of a block: the cyclic orders that one of its vertices has in the plane, when vertices with a list keep
//! it in either direction.
#![tactic(auto)]

mod block;
mod board_blocks;
mod edge_lists;
mod embedding;
mod fault;
mod first_tree;
mod levels;
mod nodes;
mod taking;
mod taking_back;
mod vertex_order;

pub use block::{PsiList, QBlock};
pub use board_blocks::{EdgeBlock, block_of, cut_out, rank_among};
pub use embedding::{Embedded, embed, has_pair};
pub use fault::EmbedFault;
pub use taking_back::{rest_behind, unwind};

#[cfg(test)]
mod tests;
