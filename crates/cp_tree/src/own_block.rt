// The block of an edge, found in its component alone.
ghost use Rattle.std.specs.Prelude.{◌≡◌, filter, slice_index, eqb, length, IfOk};
ghost use Rattle.std.specs.List.{Contains};
ghost use Rattle.std.specs.List.Sorted.{IsStrictlyIncreasing};
ghost use Rattle.cp_conn.specs.NamedGraphs.{rank};
ghost use Rattle.cp_board.specs.Instances.{edges_of, vert_names};
ghost use Rattle.cp_embed.specs.BoardBlocks.{AreBlockEdges};

use crate::places::item_at;
use cp_base::Memory;
use cp_conn::blocks;
use cp_embed::rank_among;
use cp_local::local_graph;
use cp_sync::Board;
use std::alloc::Global;

// The edges with this number. Linear.
fn edges_numbered(
    alloc: Global,
    edges: &[usize],
    numbers: &[usize],
    number: usize,
) -> Result<Vec<usize>, Memory>
    requires rising { IsStrictlyIncreasing edges.now }
    requires one_each { length numbers.now ≡ length edges.now }
    ensures { IfOk result (λ kept. kept.items
        ≡ filter (λ e. eqb (slice_index numbers.now (rank edges.now e)) number) edges.now) }
{
    let mut kept = Vec::new(alloc);
    for k in 0..edges.len() {
        if numbers[k] == number {
            kept.push(edges[k])?;
        }
    }
    Ok(kept)
}

// The edges of the block of an edge of vertex `u` (Whitney 1932), rising. It costs what `local_graph` costs, and is
// linear beside that in the component of `u`, up to a logarithm.
pub(crate) fn own_block<B: Board>(
    alloc: Global,
    board: &B,
    u: usize,
    e: usize,
) -> Result<Vec<usize>, Memory>
    requires live { Contains (vert_names (B.instance board.now)) u }
    requires at { Contains (edges_of (B.instance board.now) u) e }
    ensures { IfOk result (λ block. AreBlockEdges (B.instance board.now) e block.items) }
{
    let local = local_graph(alloc, board, u, u)?;
    let edges = local.edges.items();
    let numbers = blocks(alloc, &local.graph)?;
    let number = item_at(numbers.as_slice(), rank_among(edges, e));
    let block = edges_numbered(alloc, edges, numbers.as_slice(), number)?;
    Ok(block)
}
