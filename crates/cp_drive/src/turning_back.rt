// Solutions turned back over a run.
ghost use Rattle.std.specs.Prelude.{◌∷◌, reverse, IfOk};
ghost use Rattle.cp_board.specs.Effects.{After};
ghost use Rattle.cp_board.specs.Instances.{IsSynchronized, Synchronized};
ghost use Rattle.cp_board.specs.Solutions.{IsSolution};
ghost use Rattle.cp_board.specs.Steps.{Allowed};
ghost use Rattle.cp_store.specs.Histories.{present_of};
ghost use Rattle.cp_drive.specs.Pasts.{IsPast};

use cp_base::Memory;
use cp_board::Step;
use cp_join::join_back;
use cp_plant::propagate_back;
use cp_poles::{free_pole_back, fuse_poles_back, small_back, toroidal_back};
use cp_store::Store;
use cp_sync::{Board, Solution};
use std::alloc::Global;

// The solution before a step from one after it, with the cost of turning it back over a step of this kind.
fn step_back<B: Board>(
    alloc: Global,
    before: &B,
    step: &Step,
    after: Solution,
) -> Result<Solution, Memory>
    requires allowed { Allowed (B.instance before.now) step.now }
    requires solved { (j : Synchronized) × IsSynchronized j × After (B.instance before.now) step.now j × IsSolution j after }
    ensures { IfOk result (IsSolution (B.instance before.now)) }
{
    match step {
        Step::Small { pipe } => Ok(small_back(before, *pipe, after)),
        Step::FreePole { pipe, end, pole } => {
            free_pole_back(alloc, before, *pipe, *end, *pole, after)
        }
        Step::FusePoles { pipe, end, pole } => {
            fuse_poles_back(alloc, before, *pipe, *end, *pole, after)
        }
        Step::Toroidal { pipe } => toroidal_back(alloc, before, *pipe, after),
        Step::Join { pipe } => join_back(alloc, before, *pipe, after),
        Step::Propagate { pipe, end, shape } => {
            propagate_back(alloc, before, *pipe, *end, shape, after)
        }
    }
}

// The solution of the first instance of a run from one of the last: each step is undone, the last one first, and the
// solution turned back over it.
pub(crate) fn turned_back(
    alloc: Global,
    store: Store,
    steps: &[Step],
    last: Solution,
) -> Result<Solution, Memory>
    ghost first: { Synchronized }
    requires past { IsPast first (reverse steps.now) store }
    requires solved { IsSolution (present_of store) last }
    ensures { IfOk result (IsSolution first) }
{
    let mut store = store;
    let mut solution = last;
    let mut left = steps.len();
    while left > 0 {
        left -= 1;
        store.undo();
        solution = step_back(alloc, &store, &steps[left], solution)?;
    }
    Ok(solution)
}
