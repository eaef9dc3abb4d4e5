// The order tree of an end of a pipe.
ghost use Rattle.std.specs.Prelude.{ℕ, ◌<◌, ◌≤◌, length, IfOk, IfErr};
ghost use Rattle.cp_conn.specs.Bonds.{IsBond};
ghost use Rattle.cp_embed.specs.Bonds.{as_named};
ghost use Rattle.std.specs.List.{Contains};
ghost use Rattle.cp_board.specs.Instances.{IsPVertex, edges_of, graph, vert_names};
ghost use Rattle.cp_conn.specs.NamedGraphs.{IsCut};
ghost use Rattle.cp_tree.specs.CutBlocks.{IsCutAt};
ghost use Rattle.cp_tree.specs.EndTrees.{HasSomeOrder, IsEndTree, IsTreeFault};
ghost use Rattle.cp_tree.specs.NamedTrees.{IsFaultOf, IsNamedTree};

use crate::end_tree::EndTree;
use crate::fault::TreeFault;
use crate::naming::named_shape;
use crate::own_block::own_block;
use crate::places::item_at;
use cp_base::Memory;
use cp_embed::{EdgeBlock, EmbedFault, Embedded, cut_out, embed, rank_among};
use cp_force::OrderTree;
use cp_sync::Board;
use std::alloc::Global;

// What an order tree of a vertex says of it, where the vertices and edges of the block have these names. Linear in the
// tree.
fn named_tree<T: OrderTree>(
    alloc: Global,
    verts: &[usize],
    edges: &[usize],
    embedded: &Embedded<T>,
) -> Result<EndTree, Memory>
    requires poles { (owner : ℕ) → IsBond (as_named embedded.now.block.graph) embedded.now.vertex owner
        → owner < length verts.now }
    ensures { IfOk result (IsNamedTree verts.now edges.now embedded.now) }
{
    match embedded.pole() {
        Some(pole) => Ok(EndTree::Pole(item_at(verts, pole))),
        None => {
            let tree = embedded.tree();
            let _vars = tree.vars();
            let shape = tree.shape(alloc)?;
            let named = named_shape(alloc, edges, &shape)?;
            Ok(EndTree::Shape(named))
        }
    }
}

// Why a vertex of the block with these edges has no order tree.
fn fault_of(fault: EmbedFault, edges: &[usize]) -> TreeFault
    requires { 0 < length edges.now }
    ensures { IsFaultOf fault edges.now result }
{
    match fault {
        EmbedFault::NotPlanar => TreeFault::NotPlanar(item_at(edges, 0)),
        EmbedFault::Memory => TreeFault::Memory,
    }
}

// The block that has the first edge of a vertex, cut out. It asks the board for the edges of each vertex of the
// component, at most twice, for the ends of each of its edges a constant number of times, and for the list of each
// Q-vertex of the block once. It is linear beside that, up to a logarithm.
fn cut_at<B: Board>(alloc: Global, board: &B, u: usize) -> Result<EdgeBlock, Memory>
    requires live { Contains (vert_names (B.instance board.now)) u }
    requires some { 0 < length (edges_of (B.instance board.now) u) }
    ensures { IfOk result (λ cut. IsCutAt (B.instance board.now) u cut) }
{
    let at = board.edges_at(alloc, u)?;
    let first = item_at(at.as_slice(), 0);
    let block = own_block(alloc, board, u, first)?;
    let cut = cut_out(alloc, board, block.as_slice())?;
    Ok(cut)
}

/// The cyclic orders of a P-vertex with at least four edges that is no cut vertex, in the rotations of its block
/// (Bläsius, Rutter 2016). `u` is the name of the vertex. They are `Pole` exactly where these are all orders; otherwise
/// a shape whose root is the least edge of `u` admits them. `NotPlanar` comes exactly where the block has no rotation,
/// with its least edge. It asks the board for the edges of each vertex of the component of `u`, at most twice, for the
/// ends of each of its edges a constant number of times, and for the list of each Q-vertex of the block once. It is
/// linear in the component beside that, up to a logarithm, and goes over the tree a constant number of times for each
/// vertex of the block.
pub fn tree_at<B: Board, T: OrderTree + Drop>(
    alloc: Global,
    board: &B,
    u: usize,
) -> Result<EndTree, TreeFault>
    requires free { IsPVertex (B.instance board.now) u }
    requires uncut { ¬ IsCut (graph (B.instance board.now)) u }
    requires large { 4 ≤ length (edges_of (B.instance board.now) u) }
    ensures tree { IfOk result (IsEndTree (B.instance board.now) u) }
    ensures some { IfOk result (λ tree. HasSomeOrder (B.instance board.now) u) }
    ensures refused { IfErr result (IsTreeFault (B.instance board.now) u) }
{
    board.follows_rules();
    let cut = cut_at(alloc, board, u)?;
    let verts = cut.verts.items();
    let edges = cut.edges.items();
    let place = rank_among(verts, u);
    let embedded: Result<Embedded<T>, EmbedFault> = embed(alloc, &cut.block, place);
    match embedded {
        Ok(embedded) => {
            let tree = named_tree(alloc, verts, edges, &embedded)?;
            Ok(tree)
        }
        Err(fault) => Err(fault_of(fault, edges)),
    }
}
