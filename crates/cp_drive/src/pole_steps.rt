// The step at an end of a pipe that is no cut vertex.
ghost use Rattle.std.specs.Prelude.{IfOk};
ghost use Rattle.cp_tree.specs.EndTrees.{IsPoleOf, IsShapeOf};
ghost use Rattle.cp_drive.specs.NextSteps.{IsFreePoleAt, IsFusedPoleAt, IsNext, IsTorusAt, IsWorkedEnd};

use crate::laws::unembeddable_unsolvable;
use crate::next::Next;
use cp_base::{Memory, Shape};
use cp_board::{Reason, Step};
use cp_force::OrderTree;
use cp_plant::propagate;
use cp_poles::{TorusFault, free_pole, fuse_poles, toroidal, unequal_cycles_unsolvable};
use cp_sync::Board;
use cp_tree::{EndTree, TreeFault, tree_at};
use std::alloc::Global;

// The step Toroidal at a pipe between the two poles of a bond, or the reason why there is no solution, with the cost of
// `toroidal`.
fn torus_step<B: Board>(alloc: Global, board: &B, pipe: usize) -> Result<Next, Memory>
    requires { IsTorusAt (B.instance board.now) pipe }
    ensures { IfOk result (IsNext (B.instance board.now)) }
{
    board.follows_rules();
    unequal_cycles_unsolvable();
    match toroidal(alloc, board, pipe) {
        Ok(rewrite) => {
            let step = Step::Toroidal { pipe };
            Ok(Next::Take { step, rewrite })
        }
        Err(TorusFault::CyclesDiffer { a, b }) => Ok(Next::Blame(Reason::CyclesDiffer { a, b })),
        Err(TorusFault::Memory) => Err(Memory),
    }
}

// The step FreePole at an end whose pole has no pipe, with the cost of `free_pole`.
fn free_step<B: Board>(
    alloc: Global,
    board: &B,
    pipe: usize,
    end: usize,
    pole: usize,
) -> Result<Next, Memory>
    requires { IsFreePoleAt (B.instance board.now) pipe end pole }
    ensures { IfOk result (IsNext (B.instance board.now)) }
{
    let rewrite = free_pole(alloc, board, pipe, end, pole)?;
    let step = Step::FreePole { pipe, end, pole };
    Ok(Next::Take { step, rewrite })
}

// The step FusePoles at an end whose pole has another pipe, with the cost of `fuse_poles`.
fn fuse_step<B: Board>(
    alloc: Global,
    board: &B,
    pipe: usize,
    end: usize,
    pole: usize,
) -> Result<Next, Memory>
    requires { IsFusedPoleAt (B.instance board.now) pipe end pole }
    ensures { IfOk result (IsNext (B.instance board.now)) }
{
    let rewrite = fuse_poles(alloc, board, pipe, end, pole)?;
    let step = Step::FusePoles { pipe, end, pole };
    Ok(Next::Take { step, rewrite })
}

// The step at an end that has every order: by the pipe of its pole, with the cost of the step.
fn step_at_pole<B: Board>(
    alloc: Global,
    board: &B,
    pipe: usize,
    end: usize,
    pole: usize,
) -> Result<Next, Memory>
    requires worked { IsWorkedEnd (B.instance board.now) pipe end }
    requires pole { IsPoleOf (B.instance board.now) end pole }
    ensures { IfOk result (IsNext (B.instance board.now)) }
{
    board.follows_rules();
    match board.pipe_at(pole) {
        None => free_step(alloc, board, pipe, end, pole),
        Some(other) => {
            if other == pipe {
                torus_step(alloc, board, pipe)
            } else {
                fuse_step(alloc, board, pipe, end, pole)
            }
        }
    }
}

// The step Propagate at an end that has not every order, with the cost of `propagate`.
fn step_at_shape<B: Board>(
    alloc: Global,
    board: &B,
    pipe: usize,
    end: usize,
    shape: Shape,
) -> Result<Next, Memory>
    requires worked { IsWorkedEnd (B.instance board.now) pipe end }
    requires shape { IsShapeOf (B.instance board.now) end shape }
    ensures { IfOk result (IsNext (B.instance board.now)) }
{
    board.follows_rules();
    let rewrite = propagate(alloc, board, pipe, end, &shape)?;
    let step = Step::Propagate { pipe, end, shape };
    Ok(Next::Take { step, rewrite })
}

// The step at the end of a pipe whose block is embedded, or the block that is to blame. It costs what `tree_at` and the
// step cost.
pub(crate) fn step_at_end<B: Board, T: OrderTree + Drop>(
    alloc: Global,
    board: &B,
    pipe: usize,
    end: usize,
) -> Result<Next, Memory>
    requires { IsWorkedEnd (B.instance board.now) pipe end }
    ensures { IfOk result (IsNext (B.instance board.now)) }
{
    board.follows_rules();
    unembeddable_unsolvable();
    match tree_at::<B, T>(alloc, board, end) {
        Ok(EndTree::Pole(pole)) => step_at_pole(alloc, board, pipe, end, pole),
        Ok(EndTree::Shape(shape)) => step_at_shape(alloc, board, pipe, end, shape),
        Err(TreeFault::NotPlanar(edge)) => Ok(Next::Blame(Reason::NotPlanar(edge))),
        Err(TreeFault::Memory) => Err(Memory),
    }
}
