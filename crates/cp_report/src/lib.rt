//! Reports: a verdict with its layout as a text, written and read exactly.
#![tactic(auto)]

mod kind;
mod laws;
mod number;
mod read;
mod report;
mod row;
mod word;
mod write;

pub use kind::ReportKind;
pub use laws::one_reading;
pub use read::read_report;
pub use report::{Report, ReportFault};
pub use write::write_report;

#[cfg(test)]
mod tests;
