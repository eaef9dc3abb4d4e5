// The graph of the components of two vertices.
ghost use Rattle.std.specs.Prelude.{◌≡◌, map, IfOk};
ghost use Rattle.std.specs.List.{Contains};
ghost use Rattle.cp_board.specs.Instances.{IsSynchronized, vert_names};
ghost use Rattle.cp_sync.specs.Numbering.{numbered_ends};
ghost use Rattle.cp_local.specs.LocalGraphs.{IsClosedPart, IsLocalGraph, part};

use crate::part::LocalGraph;
use crate::places::{kept_names, place_of};
use crate::searching::components_of;
use cp_base::{Graph, Memory};
use cp_sync::Board;
use std::alloc::Global;

// The ends of the edges by the places of their vertices. Linear, up to a logarithm.
fn ends_by_place<B: Board>(
    alloc: Global,
    board: &B,
    verts: &[usize],
    edges: &[usize],
) -> Result<Vec<(usize, usize)>, Memory>
    requires { IsClosedPart (B.instance board.now) verts.now edges.now }
    ensures { IfOk result (λ ends. ends.items
        ≡ map (numbered_ends (part (B.instance board.now) verts.now edges.now)) edges.now) }
{
    let mut ends = Vec::new(alloc);
    for e in edges {
        let (a, b) = board.ends(*e);
        ends.push((place_of(verts, a), place_of(verts, b)))?;
    }
    Ok(ends)
}

/// The components of vertices `u` and `v`, as a graph of their own, with vertices and edges numbered in the order of
/// their names. For the component of one vertex both are this vertex. The names are live. The only error is want of
/// memory. It asks the board once for the edges of each vertex of these components and a constant number of times for
/// the ends of each of these edges, and is linear beside that, up to a logarithm.
pub fn local_graph<B: Board>(
    alloc: Global,
    board: &B,
    u: usize,
    v: usize,
) -> Result<LocalGraph, Memory>
    requires live_u { Contains (vert_names (B.instance board.now)) u }
    requires live_v { Contains (vert_names (B.instance board.now)) v }
    ensures found { IfOk result (IsLocalGraph (B.instance board.now) u v) }
    ensures rules { IsSynchronized (B.instance board.now) }
{
    board.follows_rules();
    let found = components_of(alloc, board, u, v)?;
    let (verts, edges) = (found.verts.as_slice(), found.edges.as_slice());
    let ends = ends_by_place(alloc, board, verts, edges)?;
    let graph = Graph::from_ends(alloc, verts.len(), ends.as_slice())?;
    Ok(LocalGraph {
        graph,
        verts: kept_names(alloc, verts)?,
        edges: kept_names(alloc, edges)?,
    })
}
