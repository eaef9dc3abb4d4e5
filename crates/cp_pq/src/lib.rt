//! Order trees: PQ-trees with a bit at each Q-node, equations over the bits and an owner at each P-node.
#![tactic(auto)]

mod change;
mod close;
mod cut;
mod fault;
mod found;
mod frame;
mod gather;
mod hole;
mod kinds;
mod lists;
mod look;
mod node;
mod part;
mod pour;
mod reducing;
mod replacing;
mod row;
mod star_tree;
mod step;
mod taking;
mod tree;

pub use fault::ReduceFault;
pub use frame::{Frame, Frames, Label};
pub use hole::Hole;
pub use node::{Node, Nodes};
pub use part::Part;
pub use reducing::reduce;
pub use replacing::replace;
pub use star_tree::star;
pub use taking::taken_out;
pub use tree::Tree;

#[cfg(test)]
mod tests;
