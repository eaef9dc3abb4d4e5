//! Where bytes come from and where they go: sources and sinks whose failures have a cause, reading
//! all of a source and writing all of a text, fakes in memory for tests, and adapters over the
//! readers and writers of std.
#![tactic(auto)]

mod command;
mod copies;
mod mem_sink;
mod mem_source;
mod schedule;
mod std_sink;
mod std_source;
mod streams;
mod whole;

pub use command::{Command, Ends, run_command};
pub use mem_sink::MemSink;
pub use mem_source::MemSource;
pub use std_sink::StdSink;
pub use std_source::StdSource;
pub use streams::{Failed, Sink, Source};
pub use whole::{MOST_BYTES, ReadEnd, read_all, tell, write_all};

#[cfg(test)]
mod tests;
#[cfg(test)]
mod tests_of_adapters;
