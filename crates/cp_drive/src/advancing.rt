// Instances of synchronized planarity, solved.
ghost use Rattle.std.specs.Prelude.{◌≡◌, ◌∷◌, [], reverse, IfOk};
ghost use Rattle.cp_board.specs.Instances.{Synchronized};
ghost use Rattle.cp_store.specs.Histories.{present_of};
ghost use Rattle.cp_drive.specs.Driving.{IsOutcome, IsRunFrom};
ghost use Rattle.cp_drive.specs.Pasts.{IsPast, IsProgress, IsStop};

use crate::laws::steps_keep_solvable;
use crate::next::{Next, next_step};
use crate::run::Run;
use crate::turning_back::turned_back;
use cp_base::{Items, Memory};
use cp_board::{Reason, Step, StepList};
use cp_flip::{FreeFault, solve_free};
use cp_force::OrderTree;
use cp_pq::Tree;
use cp_store::Store;
use cp_sync::{Board, Instance, Outcome};
use std::alloc::Global;

// Takes the next step and answers `None`, or answers why the run stops, and changes nothing. It costs what the step
// costs.
fn advance<T: OrderTree + Drop>(
    alloc: Global,
    store: &mut Store,
    steps: &mut StepList,
) -> Result<Option<Option<Reason>>, Memory>
    ensures { IfOk result (IsProgress store.old steps.old store.new steps.new) }
{
    store.follows_rules();
    match next_step::<Store, T>(alloc, store)? {
        Next::Take { step, rewrite } => {
            store.rewrite(alloc, &rewrite)?;
            steps.push(step)?;
            store.follows_rules();
            Ok(None)
        }
        Next::Blame(reason) => Ok(Some(Some(reason))),
        Next::Free => Ok(Some(None)),
    }
}

// Takes steps until no pipe is left, or there is a reason why there is no solution. Each step lowers the sum of `3^d`
// over all pipes of degree `d`.
fn advance_to_end<T: OrderTree + Drop>(
    alloc: Global,
    store: &mut Store,
    steps: &mut StepList,
) -> Result<Option<Reason>, Memory>
    ghost first: { Synchronized }
    requires past { IsPast first (reverse steps.old) store.old }
    ensures past { IfOk result (λ reason. IsPast first (reverse steps.new) store.new) }
    ensures stop { IfOk result (IsStop (present_of store.new)) }
{
    'steps: loop {
        if let Some(reason) = advance::<T>(alloc, store, steps)? {
            return Ok(reason);
        }
    }
}

// The outcome where no pipe is left: a solution, or why there is none.
fn free_outcome(alloc: Global, store: Store, steps: &[Step]) -> Result<Outcome, Memory>
    ghost first: { Synchronized }
    requires past { IsPast first (reverse steps.now) store }
    requires free { (present_of store).pipes ≡ [] }
    ensures { IfOk result (IsOutcome first (present_of store)) }
{
    steps_keep_solvable();
    match solve_free::<Store, Tree>(alloc, &store) {
        Ok(solution) => {
            let before = turned_back(alloc, store, steps, solution)?;
            Ok(Outcome::Solved(before))
        }
        Err(FreeFault::NotPlanar { edge }) => Ok(Outcome::Failed(Reason::NotPlanar(edge))),
        Err(FreeFault::BlocksCross { vertex }) => Ok(Outcome::Failed(Reason::BlocksCross(vertex))),
        Err(FreeFault::Conflict) => Ok(Outcome::Failed(Reason::Conflict)),
        Err(FreeFault::Memory) => Err(Memory),
    }
}

// The run from the instance of a store, and its outcome.
fn driven(alloc: Global, store: Store) -> Result<Run, Memory>
    ghost first: { Synchronized }
    requires { store ≡ first ∷ [] }
    ensures { IfOk result (IsRunFrom first) }
{
    let mut store = store;
    let mut steps = Items::new(alloc);
    let stop = advance_to_end::<Tree>(alloc, &mut store, &mut steps)?;
    steps_keep_solvable();
    let last = store.present(alloc)?;
    let outcome = match stop {
        Some(reason) => Outcome::Failed(reason),
        None => free_outcome(alloc, store, steps.items())?,
    };
    Ok(Run {
        steps,
        last,
        outcome,
    })
}

/// A run of reductions from this instance, with a solution of it or the reason why there is none (Bläsius, Fink, Rutter
/// 2021). Each step is taken at the pipe of greatest degree, of equal ones at that of least name: Small up to three
/// pairs, Join between two cut vertices, and else one that rests on the order tree of an end that is no cut vertex. The
/// number of steps is at most the sum of `3^d` over all pipes of degree `d`, as the law `answered_runs_are_short` says.
///
/// One store holds the instances of the run, and the greatest pipe is found in logarithmic time. At four or more pairs
/// `parts_at` is asked for one end or both whether they are cut vertices, each time linear in the vertices and edges of
/// the present instance, up to a logarithm. Where one is none, `tree_at` walks its component and goes over the order
/// tree of its block a constant number of times for each vertex of the block. The rewrite is made with the cost that
/// the call of its kind tells (`small`, `free_pole`, `fuse_poles`, `toroidal`, `join`, `propagate`), and the store takes
/// it with that of its `rewrite`. A solution is turned back over each step with the cost of the call for that
/// (`small_back` and so on): constant for Small, else linear in the instance or more. `solve_free` is called once, where
/// no pipe is left. The only error is want of memory.
pub fn solve_instance(alloc: Global, first: &Instance) -> Result<Run, Memory>
    ensures { IfOk result (IsRunFrom first.now) }
{
    let store = Store::from_instance(alloc, first)?;
    driven(alloc, store)
}
