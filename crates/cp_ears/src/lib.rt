//! Bipolar orders of graphs of one block.
#![tactic(auto)]

mod bipolar_order;
mod connected_parts;
mod placing;

pub use bipolar_order::bipolar;
pub use connected_parts::prefixes_are_connected;

#[cfg(test)]
mod tests;
