// What holds of all steps of a run.
ghost use Rattle.std.specs.Prelude.{ℕ, ◌↔◌, ◌≤◌, length};
ghost use Rattle.cp_board.specs.declared.steps.Step.{Step as AnyStep};
ghost use Rattle.cp_board.specs.Blocks.{IsUnembeddable};
ghost use Rattle.cp_board.specs.Instances.{IsSynchronized, Synchronized};
ghost use Rattle.cp_board.specs.Runs.{potential};
ghost use Rattle.cp_board.specs.Solutions.{IsSolvable};
ghost use Rattle.cp_drive.specs.declared.run.Run.{Run as AnyRun};
ghost use Rattle.cp_drive.specs.Driving.{IsRunFrom};
ghost use Rattle.cp_drive.specs.Pasts.{IsTaken};

use cp_join::join_keeps_solvable;
use cp_plant::propagate_keeps_solvable;
use cp_poles::{
    free_pole_keeps_solvable, fuse_poles_keeps_solvable, small_keeps_solvable,
    toroidal_keeps_solvable,
};
use cp_runlaw::runs_are_short;

// A law, with nothing to run: what a step makes of an instance is solvable exactly where the instance is.
pub(crate) fn steps_keep_solvable()
    ensures { (i j : Synchronized) (step : AnyStep) → IsTaken i step j → IsSolvable i ↔ IsSolvable j }
{
    small_keeps_solvable();
    free_pole_keeps_solvable();
    fuse_poles_keeps_solvable();
    toroidal_keeps_solvable();
    join_keeps_solvable();
    propagate_keeps_solvable();
}

// A law, with nothing to run: an instance with a block that has no rotation has no solution.
pub(crate) fn unembeddable_unsolvable()
    ensures { (i : Synchronized) (e : ℕ) → IsSynchronized i → IsUnembeddable i e → ¬ IsSolvable i }
{}

/// A law, with nothing to run: a run as `solve_instance` gives it has at most as many steps as the potential of its
/// first instance, the sum of `3^d` over all pipes of degree `d`.
pub fn answered_runs_are_short()
    ensures { (first : Synchronized) (run : AnyRun) → IsRunFrom first run → length run.steps ≤ potential first }
{
    runs_are_short();
}
