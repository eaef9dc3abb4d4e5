// Propagate: an order tree is put in the place of both ends of a pipe.
ghost use Rattle.std.specs.Prelude.{◌↔◌, ℕ, IfOk};
ghost use Rattle.cp_base.specs.declared.shape.Shape.{Shape as SpecShape};
ghost use Rattle.cp_board.specs.Effects.{After};
ghost use Rattle.cp_board.specs.Instances.{IsSynchronized, Synchronized};
ghost use Rattle.cp_board.specs.Reductions.{Performs};
ghost use Rattle.cp_board.specs.Solutions.{IsSolvable};
ghost use Rattle.cp_board.specs.Steps.{Allowed};
ghost use Rattle.cp_board.specs.declared.steps.Step.TheVariants.{Propagate};

use crate::planted_ends::{fixed_count, planted_ends};
use crate::rewriting::rewrite_of;
use cp_base::{Memory, Shape};
use cp_board::{NameKind, Rewrite};
use cp_sync::Board;
use std::alloc::Global;

/// The rewrite of the step Propagate: the shape is planted in the place of the end `end` of the pipe, and its mirror in
/// the place of the other end; two P-nodes of one place are joined by a pipe, two Q-nodes by a cell (Bläsius, Rutter
/// 2016; Bläsius, Fink, Rutter 2021). `pipe` is the name of the pipe. The only error is want of memory. It searches the
/// board twice and asks it for all names of vertices and edges, and is at most quadratic in the degree beside that.
pub fn propagate<B: Board>(
    alloc: Global,
    board: &B,
    pipe: usize,
    end: usize,
    shape: &Shape,
) -> Result<Rewrite, Memory>
    requires { Allowed (B.instance board.now) (Propagate pipe end shape.now) }
    ensures { IfOk result (Performs (B.instance board.now) (Propagate pipe end shape.now)) }
{
    let verts = board.verts(alloc)?;
    let edges = board.edges(alloc)?;
    let (u, w) = planted_ends(alloc, board, pipe, end, shape)?;
    let rows = u.rows.as_slice();
    let nodes = rows.len();
    let fixed = fixed_count(rows);
    let cells = board.free_names(alloc, NameKind::Cell, fixed)?;
    let names = board.free_names(alloc, NameKind::Pipe, nodes - fixed)?;
    let rewrite = rewrite_of(alloc, pipe, &u, &w, cells.as_slice(), names.as_slice())?;
    Ok(rewrite)
}

/// What Propagate makes of an instance is solvable exactly where the instance is, if both follow the rules. Constant
/// time.
pub fn propagate_keeps_solvable()
    ensures { (i j : Synchronized) → IsSynchronized i → IsSynchronized j → (pipe end : ℕ) → (shape : SpecShape) → Allowed i (Propagate pipe end shape) → After i (Propagate pipe end shape) j → IsSolvable i ↔ IsSolvable j }
{}
