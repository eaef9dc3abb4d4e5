//! The one call that the program makes: words of the command line in, bytes in, an end and a text out.
#![tactic(auto)]

mod answering;
mod command;
mod end;
mod judge;
mod laws;
mod refusing;
mod running;
mod solving;
mod texts;
mod tracing;

pub use end::End;
pub use laws::{one_answer, yes_tells_a_layout};
pub use running::run;
pub use solving::{Solver, solve_graph};
pub use tracing::trace_graph;

#[cfg(test)]
mod tests;
#[cfg(test)]
mod tests_rows;
