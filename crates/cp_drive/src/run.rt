// What the driver gives.

use cp_board::StepList;
use cp_sync::{Instance, Outcome};

/// A run of reductions of an instance of synchronized planarity (Bläsius, Fink, Rutter 2021).
#[derive(Debug, Drop)]
pub struct Run {
    /// The reductions, in order.
    pub steps: StepList,
    /// The instance that the run ends with.
    pub last: Instance,
    /// A solution of the first instance, or why there is none.
    pub outcome: Outcome,
}
