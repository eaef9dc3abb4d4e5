// FreePole: a pipe goes whose one end has a pole without a pipe.
ghost use Rattle.std.specs.Prelude.{◌≡◌, ℕ, IfOk};
ghost use Rattle.cp_board.specs.Effects.{After};
ghost use Rattle.cp_board.specs.Instances.{Synchronized};
ghost use Rattle.cp_board.specs.Solutions.{IsSolution};
ghost use Rattle.cp_board.specs.declared.steps.Step.TheVariants.{FreePole};
ghost use Rattle.cp_board.specs.Reductions.{KeepsSolvable, Performs};
ghost use Rattle.cp_board.specs.Rewrites.{dropping};
ghost use Rattle.cp_board.specs.Steps.{Allowed};

use crate::reordered::reordered;
use crate::wanted::wanted_order;
use cp_base::{Items, Memory};
use cp_board::Rewrite;
use cp_sync::{Board, Solution};
use std::alloc::Global;

/// What FreePole makes of an instance is solvable exactly where the instance is. Constant time.
pub fn free_pole_keeps_solvable()
    ensures { (pipe end pole : ℕ) → KeepsSolvable (FreePole pipe end pole) }
{}

// The rewrite that drops a pipe and nothing else.
pub(crate) fn drop_pipe(alloc: Global, pipe: usize) -> Result<Rewrite, Memory>
    ensures { IfOk result (λ w. w ≡ dropping pipe) }
{
    let mut drop_pipes = Items::new(alloc);
    drop_pipes.push(pipe)?;
    Ok(Rewrite {
        drop_pipes,
        drop_verts: Items::new(alloc),
        add_verts: Items::new(alloc),
        set_kinds: Items::new(alloc),
        moves: Items::new(alloc),
        add_edges: Items::new(alloc),
        add_pipes: Items::new(alloc),
    })
}

/// The rewrite of the step FreePole: the pipe goes. It asks the board for the ends of the pipe, and takes constant time
/// and memory beside that. The only error is want of memory.
pub fn free_pole<B: Board>(
    alloc: Global,
    board: &B,
    pipe: usize,
    end: usize,
    pole: usize,
) -> Result<Rewrite, Memory>
    requires { Allowed (B.instance board.now) (FreePole pipe end pole) }
    ensures { IfOk result (λ w. Performs (B.instance board.now) (FreePole pipe end pole) w) }
{
    board.follows_rules();
    let rewrite = drop_pipe(alloc, pipe)?;
    Ok(rewrite)
}

/// The solution before the step FreePole from one after it: the end gets the order that mirrors the other end of the
/// pipe, the parts between it and its pole follow, and all other lists stay. It asks the board for all ends of edges,
/// and takes time linear in the board, up to a logarithm, and quadratic in the pairs of the pipe. The only error is
/// want of memory.
pub fn free_pole_back<B: Board>(
    alloc: Global,
    before: &B,
    pipe: usize,
    end: usize,
    pole: usize,
    after: Solution,
) -> Result<Solution, Memory>
    requires allowed { Allowed (B.instance before.now) (FreePole pipe end pole) }
    requires solved { (j : Synchronized) × After (B.instance before.now) (FreePole pipe end pole) j × IsSolution j after }
    ensures { IfOk result (IsSolution (B.instance before.now)) }
{
    before.follows_rules();
    let order = wanted_order(alloc, before, pipe, end, &after)?;
    let solution = reordered(alloc, before, end, pole, order, after)?;
    Ok(solution)
}
