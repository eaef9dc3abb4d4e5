// Boards without pipes, solved.
ghost use Rattle.std.specs.Prelude.{◌≡◌, [], IfOk, IfErr};
ghost use Rattle.cp_board.specs.Solutions.{IsSolution};
ghost use Rattle.cp_flip.specs.FreeFaults.{HasNoFreeSolution, IsFreeReason};

use crate::block_trees::{BlockTree, embed_blocks};
use crate::cell_equations::{cells_of, solved_bits};
use crate::crossing::first_crossing_of;
use crate::fault::FreeFault;
use crate::gluing::put_together;
use cp_base::Items;
use cp_conn::blocks;
use cp_force::OrderTree;
use cp_sync::{Board, Solution, graph_of};
use std::alloc::Global;

/// A solution of a board without pipes, or the first reason why there is none (Bläsius, Fink, Rutter 2021): some block
/// has no rotation in the plane that keeps the lists of its Q-vertices in whatever directions, else two blocks cross at
/// some Q-vertex, else no directions of the cells serve all blocks. The graph and its blocks are found once; for each
/// vertex a constant number of passes over the order tree of its block, and at each Q-vertex quadratic in its edges.
pub fn solve_free<B: Board, T: OrderTree + Drop>(
    alloc: Global,
    board: &B,
) -> Result<Solution, FreeFault>
    requires { (B.instance board.now).pipes ≡ [] }
    ensures solved { IfOk result (IsSolution (B.instance board.now)) }
    ensures reason { IfErr result (IsFreeReason (B.instance board.now)) }
    ensures unsolvable { IfErr result (HasNoFreeSolution (B.instance board.now)) }
{
    let g = graph_of(alloc, board)?;
    let numbers = blocks(alloc, &g.graph)?;
    let (verts, edges) = (g.verts.items(), g.edges.items());
    let found: Items<BlockTree<T>> = embed_blocks(alloc, board, edges, numbers.as_slice())?;
    if let Some(vertex) = first_crossing_of(alloc, board, verts, edges, numbers.as_slice())? {
        return Err(FreeFault::BlocksCross { vertex });
    }
    let cells = cells_of(alloc, board, verts)?;
    let bits = solved_bits(alloc, board, cells.as_slice(), found.items())?;
    let solution = put_together(
        alloc,
        board,
        cells.as_slice(),
        verts,
        found.items(),
        bits.as_slice(),
    )?;
    Ok(solution)
}
