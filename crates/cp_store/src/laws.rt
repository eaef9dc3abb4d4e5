// What holds of all instances.
ghost use Rattle.std.specs.Prelude.{◌≡◌, ◌+◌, ◌*◌, ◌≤◌, Some};
ghost use Rattle.cp_board.specs.declared.parts.Pipe.{Pipe};
ghost use Rattle.cp_board.specs.declared.steps.Step.{Step as AnyStep};
ghost use Rattle.cp_board.specs.Instances.{Synchronized, IsSynchronized, pipe_named};
ghost use Rattle.cp_board.specs.Steps.{degree, Allowed};
ghost use Rattle.cp_board.specs.Effects.{After};
ghost use Rattle.cp_board.specs.Runs.{slots};
ghost use Rattle.cp_store.specs.StepPipes.{pipe_of};

/// A law, with nothing to run: an allowed step raises the number of vertices, edges and pipes of an instance by at most
/// 8 times the number of pairs of its pipe.
pub fn slots_after_a_step()
    ensures { (step : AnyStep) (p : Pipe) (i j : Synchronized) → IsSynchronized i → pipe_named i (pipe_of step) ≡ Some p → Allowed i step → After i step j → slots j ≤ slots i + 8 * degree p }
{}
