// What a trace tells.

use cp_board::{Reason, StepList};
use cp_sync::Instance;

/// A run of reductions of an instance of synchronized planarity (Bläsius, Fink, Rutter 2021), as it is told.
#[derive(Debug, Drop)]
pub struct Trace {
    /// The instance that the run begins with.
    pub first: Instance,
    /// The reductions, in order. Nothing is promised of them.
    pub steps: StepList,
    /// The instance that the run ends with.
    pub last: Instance,
    /// `None` where the run solved the instance, and otherwise why there is no solution.
    pub solved: Option<Reason>,
}
