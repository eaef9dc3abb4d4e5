// FusePoles: two pipes become one, past the end of the one and its pole, an end of the other.
ghost use Rattle.std.specs.Prelude.{◌≡◌, ℕ, IfOk, Some, length, map};
ghost use Rattle.std.specs.List.{Contains, zip};
ghost use Rattle.cp_board.specs.declared.parts.Pipe.{Pipe};
ghost use Rattle.cp_board.specs.Effects.{After};
ghost use Rattle.cp_board.specs.Instances.{Synchronized, pipe_at, pipe_names};
ghost use Rattle.cp_board.specs.Solutions.{IsSolution};
ghost use Rattle.cp_board.specs.declared.steps.Step.TheVariants.{FusePoles};
ghost use Rattle.cp_board.specs.Reductions.{KeepsSolvable, Performs};
ghost use Rattle.cp_board.specs.Steps.{Allowed};
ghost use Rattle.cp_poles.specs.Fused.{IsPipePast, fusing, new_pipe_name, partner_told};

use crate::bonds::bond_pairs;
use crate::reordered::reordered;
use crate::wanted::{other_end, partners_of, wanted_order};
use cp_base::{CycList, Items, Memory};
use cp_board::{NameKind, Pairs, Pipe, Rewrite};
use cp_sync::{Board, Solution};
use std::alloc::Global;

/// What FusePoles makes of an instance is solvable exactly where the instance is. Constant time.
pub fn fuse_poles_keeps_solvable()
    ensures { (pipe end pole : ℕ) → KeepsSolvable (FusePoles pipe end pole) }
{}

// The pipe of the pole.
fn pipe_of_pole<B: Board>(board: &B, pipe: usize, end: usize, pole: usize) -> usize
    requires { Allowed (B.instance board.now) (FusePoles pipe end pole) }
    ensures { (q : Pipe) × (pipe_at (B.instance board.now) pole ≡ Some q) × (result ≡ q.name) }
{
    board.follows_rules();
    match board.pipe_at(pole) {
        Some(other) => other,
        None => unreachable!(),
    }
}

// The partners in a pipe of some edges of `at`, one of its ends. Quadratic in the pairs.
fn partners_at<B: Board>(
    alloc: Global,
    board: &B,
    pipe: usize,
    at: usize,
    edges: &[usize],
) -> Result<CycList, Memory>
    requires { Contains (pipe_names (B.instance board.now)) pipe }
    ensures { IfOk result (λ list. list ≡ map (partner_told (B.instance board.now) pipe at) edges.now) }
{
    let ends = board.pipe_ends(pipe);
    let partners = partners_of(alloc, board.pairs(pipe), ends.0 == at, edges)?;
    Ok(partners)
}

// Each of the first edges with the second one at its place. Linear.
fn paired(alloc: Global, firsts: &[usize], seconds: &[usize]) -> Result<Pairs, Memory>
    requires { length seconds.now ≡ length firsts.now }
    ensures { IfOk result (λ pairs. pairs ≡ zip firsts.now seconds.now) }
{
    let mut pairs = Items::new(alloc);
    for k in 0..firsts.len() {
        pairs.push((firsts[k], seconds[k]))?;
    }
    Ok(pairs)
}

// The least name that no pipe has.
fn free_pipe<B: Board>(alloc: Global, board: &B) -> Result<usize, Memory>
    ensures { IfOk result (λ name. name ≡ new_pipe_name (B.instance board.now)) }
{
    let names = board.free_names(alloc, NameKind::Pipe, 1)?;
    Ok(names[0])
}

// The pipe that leads past the end and the pole, along their bond. Linear in the board, up to a logarithm, and quadratic
// in the pairs of the pipe.
fn pipe_past<B: Board>(
    alloc: Global,
    board: &B,
    pipe: usize,
    end: usize,
    pole: usize,
) -> Result<Pipe, Memory>
    requires { Allowed (B.instance board.now) (FusePoles pipe end pole) }
    ensures { IfOk result (λ r. IsPipePast (B.instance board.now) pipe end pole r) }
{
    board.follows_rules();
    let other = pipe_of_pole(board, pipe, end, pole);
    let a = other_end(board.pipe_ends(pipe), end);
    let b = other_end(board.pipe_ends(other), pole);
    let along = bond_pairs(alloc, board, end, pole)?;
    let edges = board.edges_at(alloc, a)?;
    let at_end = partners_at(alloc, board, pipe, a, edges.as_slice())?;
    let at_pole = partners_of(alloc, along.as_slice(), true, at_end.items())?;
    let seconds = partners_at(alloc, board, other, pole, at_pole.items())?;
    let pairs = paired(alloc, edges.as_slice(), seconds.items())?;
    let name = free_pipe(alloc, board)?;
    Ok(Pipe { name, a, b, pairs })
}

// The rewrite that drops two pipes and adds one.
fn drop_and_add(alloc: Global, pipe: usize, other: usize, added: Pipe) -> Result<Rewrite, Memory>
    ensures { IfOk result (λ w. w ≡ fusing pipe other added) }
{
    let mut drop_pipes = Items::new(alloc);
    drop_pipes.push(pipe)?;
    drop_pipes.push(other)?;
    let mut add_pipes = Items::new(alloc);
    add_pipes.push(added)?;
    Ok(Rewrite {
        drop_pipes,
        drop_verts: Items::new(alloc),
        add_verts: Items::new(alloc),
        set_kinds: Items::new(alloc),
        moves: Items::new(alloc),
        add_edges: Items::new(alloc),
        add_pipes,
    })
}

/// The rewrite of the step FusePoles: the pipe and that of the pole go, and one new pipe, of the least name that no pipe
/// has, leads from the other end of the one to the other end of the other. It has a pair for each edge of the end: the
/// partner of this edge, and the partner of the edge as which it goes on along the bond. The components of the board
/// without the end and the pole are numbered once: linear in the board, up to a logarithm, and quadratic in the pairs of
/// the pipe. The only error is want of memory.
pub fn fuse_poles<B: Board>(
    alloc: Global,
    board: &B,
    pipe: usize,
    end: usize,
    pole: usize,
) -> Result<Rewrite, Memory>
    requires { Allowed (B.instance board.now) (FusePoles pipe end pole) }
    ensures { IfOk result (λ w. Performs (B.instance board.now) (FusePoles pipe end pole) w) }
{
    board.follows_rules();
    let other = pipe_of_pole(board, pipe, end, pole);
    let added = pipe_past(alloc, board, pipe, end, pole)?;
    let rewrite = drop_and_add(alloc, pipe, other, added)?;
    Ok(rewrite)
}

/// The solution before the step FusePoles from one after it: the end gets the order that mirrors the other end of its
/// pipe, the parts between it and its pole follow, and all other lists stay. It asks the board for all ends of edges,
/// and takes time linear in the board, up to a logarithm, and quadratic in the pairs of the pipe. The only error is
/// want of memory.
pub fn fuse_poles_back<B: Board>(
    alloc: Global,
    before: &B,
    pipe: usize,
    end: usize,
    pole: usize,
    after: Solution,
) -> Result<Solution, Memory>
    requires allowed { Allowed (B.instance before.now) (FusePoles pipe end pole) }
    requires solved { (j : Synchronized) × After (B.instance before.now) (FusePoles pipe end pole) j × IsSolution j after }
    ensures { IfOk result (IsSolution (B.instance before.now)) }
{
    before.follows_rules();
    let order = wanted_order(alloc, before, pipe, end, &after)?;
    let solution = reordered(alloc, before, end, pole, order, after)?;
    Ok(solution)
}
