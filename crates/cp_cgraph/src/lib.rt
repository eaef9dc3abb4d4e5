//! Clustered graphs and their layouts.
#![tactic(auto)]

mod clusters;
mod edges;
mod entries;
mod fault;
mod graph;
mod graph_text;
mod hashes;
mod ids;
mod kind;
mod law;
mod layout;
mod look_ups;
mod names;
mod nodes;
mod reader;
mod roots;
mod spelled;
mod stored;
#[cfg(test)]
mod tests;
mod walks;

pub use fault::GraphFault;
pub use graph::CGraph;
pub use graph_text::{TextFault, read_graph};
pub use kind::GraphKind;
pub use law::one_graph;
pub use layout::{CycLists, Layout};
pub use reader::build;
