// Q-vertices at which two blocks cross.
ghost use Rattle.std.specs.Prelude.{◌≡◌, ℕ, ◌<◌, true, false, length, map, slice_index, IfOk, MatchOption};
ghost use Rattle.std.specs.List.{All, Contains};
ghost use Rattle.std.specs.List.Sorted.{IsStrictlyIncreasing};
ghost use Rattle.cp_conn.specs.Blocks.{AreInOneBlock};
ghost use Rattle.cp_conn.specs.NamedGraphs.{rank};
ghost use Rattle.cp_conn.specs.Numbering.{AreNumbered};
ghost use Rattle.cp_sync.specs.Numbering.{numbered};
ghost use Rattle.cp_board.specs.Instances.{IsSynchronized, vert_names, edge_names, graph};
ghost use Rattle.cp_board.specs.Blocks.{HaveCrossing};
ghost use Rattle.cp_board.specs.Reasons.{HasNoCrossing};
ghost use Rattle.cp_flip.specs.FreeFaults.{IsFirstCrossing};

use crate::turns::take_turns;
use cp_base::Memory;
use cp_conn::blocks;
use cp_embed::rank_among;
use cp_sync::{Board, graph_of};
use std::alloc::Global;

// The numbers of the blocks of the edges of a list. Linear, up to a logarithm.
fn numbers_along(
    alloc: Global,
    edges: &[usize],
    numbers: &[usize],
    list: &[usize],
) -> Result<Vec<usize>, Memory>
    requires rising { IsStrictlyIncreasing edges.now }
    requires one_each { length numbers.now ≡ length edges.now }
    requires live { All (Contains edges.now) list.now }
    ensures { IfOk result (λ along. along.items ≡ map (λ e. slice_index numbers.now (rank edges.now e)) list.now) }
{
    let mut along = Vec::new(alloc);
    for e in list {
        along.push(numbers[rank_among(edges, *e)])?;
    }
    Ok(along)
}

// Whether two blocks cross at a vertex.
fn blocks_cross_at<B: Board>(
    alloc: Global,
    board: &B,
    edges: &[usize],
    numbers: &[usize],
    q: usize,
) -> Result<bool, Memory>
    requires rules { IsSynchronized (B.instance board.now) }
    requires edges { edges.now ≡ edge_names (B.instance board.now) }
    requires numbers { AreNumbered (AreInOneBlock (numbered (graph (B.instance board.now))).ends) (length edges.now) numbers.now }
    requires live { Contains (vert_names (B.instance board.now)) q }
    ensures yes { IfOk result (λ b. b ≡ true → HaveCrossing (B.instance board.now) q) }
    ensures no { IfOk result (λ b. b ≡ false → ¬ HaveCrossing (B.instance board.now) q) }
{
    if !board.is_q(q) {
        return Ok(false);
    }
    let along = numbers_along(alloc, edges, numbers, board.psi(q).items())?;
    take_turns(alloc, along.as_slice())
}

// The least vertex of these at which two blocks cross.
pub(crate) fn first_crossing_of<B: Board>(
    alloc: Global,
    board: &B,
    verts: &[usize],
    edges: &[usize],
    numbers: &[usize],
) -> Result<Option<usize>, Memory>
    requires rules { IsSynchronized (B.instance board.now) }
    requires verts { verts.now ≡ vert_names (B.instance board.now) }
    requires edges { edges.now ≡ edge_names (B.instance board.now) }
    requires numbers { AreNumbered (AreInOneBlock (numbered (graph (B.instance board.now))).ends) (length edges.now) numbers.now }
    ensures { IfOk result (λ found. MatchOption found (HasNoCrossing (B.instance board.now)) (IsFirstCrossing (B.instance board.now))) }
{
    for q in verts {
        if blocks_cross_at(alloc, board, edges, numbers, *q)? {
            return Ok(Some(*q));
        }
    }
    Ok(None)
}

/// The least Q-vertex at which two blocks cross: its list has edges of two blocks in turn. `None` where there is none.
/// Quadratic in the number of edges of each Q-vertex, and linear in the rest, up to a logarithm.
pub fn first_crossing<B: Board>(alloc: Global, board: &B) -> Result<Option<usize>, Memory>
    ensures { IfOk result (λ found. MatchOption found (HasNoCrossing (B.instance board.now)) (IsFirstCrossing (B.instance board.now))) }
{
    let g = graph_of(alloc, board)?;
    let numbers = blocks(alloc, &g.graph)?;
    first_crossing_of(
        alloc,
        board,
        g.verts.items(),
        g.edges.items(),
        numbers.as_slice(),
    )
}
