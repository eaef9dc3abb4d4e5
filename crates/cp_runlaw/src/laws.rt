// What holds of all steps and of all runs.
ghost use Rattle.std.specs.Prelude.{List, ◌+◌, ◌≤◌, length};
ghost use Rattle.cp_board.specs.declared.steps.Step.{Step as AnyStep};
ghost use Rattle.cp_board.specs.Instances.{Synchronized};
ghost use Rattle.cp_board.specs.Reductions.{LowersPotential};
ghost use Rattle.cp_board.specs.Runs.{potential};
ghost use Rattle.cp_runlaw.specs.SynchronizedRuns.{IsSynchronizedRun};

/// A law, with nothing to run: an allowed step on an instance that keeps the rules lowers the potential, the sum of 3
/// to the number of pairs over all pipes.
pub fn steps_lower_the_potential()
    ensures { (step : AnyStep) → LowersPotential step }
{}

/// A law, with nothing to run: the steps of a legal run whose instances keep the rules, and the potential of its last
/// instance, are together at most the potential of its first instance. So a run has at most as many steps as the sum
/// of 3 to the number of pairs over the pipes of its first instance.
pub fn runs_are_short()
    ensures { (j i : Synchronized) (steps : List AnyStep) → IsSynchronizedRun j i steps
        → length steps + potential j ≤ potential i }
{}
