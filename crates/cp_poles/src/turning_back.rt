// Solutions turned back over the steps at small pipes and at poles.
ghost use Rattle.std.specs.Prelude.{IfOk};
ghost use Rattle.cp_board.specs.Effects.{After};
ghost use Rattle.cp_board.specs.Instances.{Synchronized};
ghost use Rattle.cp_board.specs.Solutions.{IsSolution};
ghost use Rattle.cp_board.specs.Steps.{Allowed};
ghost use Rattle.cp_poles.specs.PoleSteps.{IsPoleStep};

use crate::free_poles::free_pole_back;
use crate::fused_poles::fuse_poles_back;
use crate::small_pipes::small_back;
use crate::torus::toroidal_back;
use cp_base::Memory;
use cp_board::Step;
use cp_sync::{Board, Solution};
use std::alloc::Global;

/// The solution before a step of this crate from one after it, by the call for the step, with its cost. At most two
/// lists change. The only error is want of memory.
pub fn back<B: Board>(
    alloc: Global,
    before: &B,
    step: &Step,
    after: Solution,
) -> Result<Solution, Memory>
    requires kind { IsPoleStep step.now }
    requires allowed { Allowed (B.instance before.now) step.now }
    requires solved { (j : Synchronized) × After (B.instance before.now) step.now j × IsSolution j after }
    ensures { IfOk result (IsSolution (B.instance before.now)) }
{
    match step {
        Step::Small { pipe } => Ok(small_back(before, *pipe, after)),
        Step::FreePole { pipe, end, pole } => {
            free_pole_back(alloc, before, *pipe, *end, *pole, after)
        }
        Step::FusePoles { pipe, end, pole } => {
            fuse_poles_back(alloc, before, *pipe, *end, *pole, after)
        }
        Step::Toroidal { pipe } => toroidal_back(alloc, before, *pipe, after),
        Step::Join { .. } => unreachable!(),
        Step::Propagate { .. } => unreachable!(),
    }
}
