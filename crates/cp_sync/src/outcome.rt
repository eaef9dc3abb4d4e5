// What a run ends with.

use crate::Solution;
use cp_board::Reason;

/// What a run of reductions ends with.
#[derive(Debug, Drop)]
pub enum Outcome {
    /// The first instance has this solution.
    Solved(Solution),
    /// The first instance has no solution, and this is to blame at the last one.
    Failed(Reason),
}
