//! The border graph of a clustered graph and a layout, and what a good layout is.
#![tactic(auto)]

mod arranged;
mod border_graph;
mod decide;
mod exact;
mod lines;
mod tables;
#[cfg(test)]
mod tests;
mod turns;
mod vertices;
mod view;
mod wanted;

pub use border_graph::{BorderFault, border_rot};
pub use decide::Decide;
pub use lines::{
    first_wrong_cluster, first_wrong_cluster_in, first_wrong_node, first_wrong_node_in,
};
pub use tables::{BorderTables, write_tables};
pub use view::View;
