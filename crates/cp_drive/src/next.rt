// The step at the pipe of greatest degree.
ghost use Rattle.std.specs.Prelude.{IfOk};
ghost use Rattle.cp_drive.specs.NextSteps.{IsCutPipe, IsLargePipe, IsNext, IsSmallPipe};

use crate::ends::is_cut_vertex;
use crate::pole_steps::step_at_end;
use cp_base::Memory;
use cp_board::{Reason, Rewrite, Step};
use cp_force::OrderTree;
use cp_join::join;
use cp_poles::small;
use cp_sync::Board;
use std::alloc::Global;

// What comes next in a run.
#[derive(Debug, Drop)]
pub(crate) enum Next {
    // A step, with its rewrite.
    Take { step: Step, rewrite: Rewrite },
    // The instance has no solution, and this is to blame.
    Blame(Reason),
    // No pipe is left.
    Free,
}

// The step Small at a pipe of at most three pairs, with the cost of `small`.
fn small_step<B: Board>(alloc: Global, board: &B, pipe: usize) -> Result<Next, Memory>
    requires { IsSmallPipe (B.instance board.now) pipe }
    ensures { IfOk result (IsNext (B.instance board.now)) }
{
    let rewrite = small(alloc, board, pipe)?;
    let step = Step::Small { pipe };
    Ok(Next::Take { step, rewrite })
}

// The step Join at a pipe between two cut vertices, with the cost of `join`.
fn join_step<B: Board>(alloc: Global, board: &B, pipe: usize) -> Result<Next, Memory>
    requires { IsCutPipe (B.instance board.now) pipe }
    ensures { IfOk result (IsNext (B.instance board.now)) }
{
    let rewrite = join(alloc, board, pipe)?;
    let step = Step::Join { pipe };
    Ok(Next::Take { step, rewrite })
}

// The step at a pipe of at least four pairs. It searches the board for each end that it asks, and costs what the step
// costs beside that.
fn large_step<B: Board, T: OrderTree + Drop>(
    alloc: Global,
    board: &B,
    pipe: usize,
) -> Result<Next, Memory>
    requires { IsLargePipe (B.instance board.now) pipe }
    ensures { IfOk result (IsNext (B.instance board.now)) }
{
    board.follows_rules();
    let (a, b) = board.pipe_ends(pipe);
    let first_cut = is_cut_vertex(alloc, board, a)?;
    if !first_cut {
        return step_at_end::<B, T>(alloc, board, pipe, a);
    }
    let second_cut = is_cut_vertex(alloc, board, b)?;
    if !second_cut {
        return step_at_end::<B, T>(alloc, board, pipe, b);
    }
    join_step(alloc, board, pipe)
}

// What comes next: the step at the pipe of greatest degree, of equal ones at that of least name, or why there is none.
pub(crate) fn next_step<B: Board, T: OrderTree + Drop>(
    alloc: Global,
    board: &B,
) -> Result<Next, Memory>
    ensures { IfOk result (IsNext (B.instance board.now)) }
{
    board.follows_rules();
    match board.max_pipe() {
        None => Ok(Next::Free),
        Some(pipe) => {
            if board.pairs(pipe).len() <= 3 {
                small_step(alloc, board, pipe)
            } else {
                large_step::<B, T>(alloc, board, pipe)
            }
        }
    }
}
