//! Reads a text in GML, the list format of graph files, into its list of keys and values, or names
//! the first fault.
#![tactic(auto)]

mod bytes;
mod equal;
mod fault;
mod kind;
mod law;
mod number;
mod reader;
mod scan;
#[cfg(test)]
mod tests;
mod tree;

pub use fault::{GmlFault, ListFault};
pub use kind::GrammarKind;
pub use law::one_answer;
pub use number::integer;
pub use reader::{parse, read_list};
pub use tree::{Entries, Entry, GmlList, GmlValue, Text};
