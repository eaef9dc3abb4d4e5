//! The solver of synchronized planarity (Bläsius, Fink, Rutter 2021): it takes one reduction after the other at the
//! pipe of greatest degree, until no pipe is left, and turns a solution back over all of them.
#![tactic(auto)]

mod advancing;
mod ends;
mod laws;
mod next;
mod pole_steps;
mod run;
mod turning_back;

pub use advancing::solve_instance;
pub use laws::answered_runs_are_short;
pub use run::Run;
