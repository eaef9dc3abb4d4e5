// The graph of a board, and its rotation systems, with vertices and edges numbered in the order of their names.
ghost use Rattle.std.specs.Prelude.{◌≡◌, ◌<◌, ◌^◌, map, IfOk};
ghost use Rattle.std.specs.List.{Contains};
ghost use Rattle.std.specs.List.Sorted.{IsStrictlyIncreasing};
ghost use Rattle.cp_conn.specs.NamedGraphs.{rank};
ghost use Rattle.cp_board.specs.Instances.{IsSynchronized, vert_names, edge_names, graph};
ghost use Rattle.cp_sync.specs.Numbering.{numbered, numbered_ends};

use crate::Board;
use crate::named::lower_place;
use crate::ordered::stored;
use cp_base::{Graph, Memory};
use cp_board::Names;
use std::alloc::Global;

/// The graph of a board, numbered.
#[derive(Debug, Drop)]
pub struct BoardGraph {
    /// The graph. Vertex `i` is the one named `verts[i]`, and edge `j` the one named `edges[j]`.
    pub graph: Graph,
    /// The names of the vertices, rising.
    pub verts: Names,
    /// The names of the edges, rising.
    pub edges: Names,
}

// The place of a number that is one of those that rise. Logarithmic.
pub(crate) fn rank_of(names: &[usize], name: usize) -> usize
    requires rising { IsStrictlyIncreasing names.now }
    requires live { Contains names.now name }
    ensures value { result ≡ rank names.now name }
    ensures bound { result < 2 ^ 60 }
{
    let place = lower_place(names, name);
    prove!(place < names.len());
    place
}

// The ends of the edges by the places of the vertices. Linear, up to a logarithm.
fn ends_of<B: Board>(
    alloc: Global,
    board: &B,
    verts: &[usize],
    edges: &[usize],
) -> Result<Vec<(usize, usize)>, Memory>
    requires rules { IsSynchronized (B.instance board.now) }
    requires verts { verts.now ≡ vert_names (B.instance board.now) }
    requires edges { edges.now ≡ edge_names (B.instance board.now) }
    ensures { IfOk result (λ ends. ends.items ≡ map (numbered_ends (graph (B.instance board.now))) edges.now) }
{
    let mut ends = Vec::new(alloc);
    for e in edges {
        let (a, b) = board.ends(*e);
        ends.push((rank_of(verts, a), rank_of(verts, b)))?;
    }
    Ok(ends)
}

/// The graph of a board, with vertices and edges numbered in the order of their names. It asks the board for the ends
/// of each edge once, and is linear beside that, up to a logarithm.
pub fn graph_of<B: Board>(alloc: Global, board: &B) -> Result<BoardGraph, Memory>
    ensures graph { IfOk result (λ g. g.graph ≡ numbered (graph (B.instance board.now))) }
    ensures verts { IfOk result (λ g. g.verts ≡ vert_names (B.instance board.now)) }
    ensures edges { IfOk result (λ g. g.edges ≡ edge_names (B.instance board.now)) }
    ensures rules { IsSynchronized (B.instance board.now) }
{
    let verts = board.verts(alloc)?;
    let edges = board.edges(alloc)?;
    let ends = ends_of(alloc, board, verts.as_slice(), edges.as_slice())?;
    let graph = Graph::from_ends(alloc, verts.len(), ends.as_slice())?;
    Ok(BoardGraph {
        graph,
        verts: stored(alloc, verts)?,
        edges: stored(alloc, edges)?,
    })
}
