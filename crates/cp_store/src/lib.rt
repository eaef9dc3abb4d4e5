//! One shared store of an instance of synchronized planarity (Bläsius, Fink, Rutter 2021), whose rewrites can be undone.
#![tactic(auto)]

mod balance;
mod changes;
mod copies;
mod edge_links;
mod entry;
mod forest;
mod gaps;
mod greatest;
mod indexing;
mod laws;
mod linking;
mod links;
mod lists;
mod lookups;
mod moves;
mod named;
mod names;
mod nodes;
mod parts;
mod pipe_links;
mod plan;
mod putting;
mod ranked;
mod reading;
mod store;
mod table;

pub use laws::slots_after_a_step;
pub use store::Store;

#[cfg(test)]
mod tests;
