//! Traces: a run of reductions with the instances that it begins and ends with, as a text.
#![tactic(auto)]

mod fault;
mod laws;
mod named_parts;
mod numbers;
mod read;
mod read_body;
mod read_end;
mod read_instance;
mod read_lists;
mod read_numbers;
mod read_parts;
mod read_steps;
mod read_words;
mod step_key;
mod trace;
mod word;
mod write;

pub use fault::TraceFault;
pub use laws::one_run;
pub use read::read_trace;
pub use trace::Trace;
pub use write::write_trace;

#[cfg(test)]
mod tests;
