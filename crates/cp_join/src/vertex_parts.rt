// The edges of a vertex of a board, in parts: two are in one part where they enter one component without the vertex.
ghost use Rattle.std.specs.Prelude.{◌≡◌, ℕ, ◌<◌, ◌^◌, length, map, slice_index, IfOk};
ghost use Rattle.std.specs.List.{All, Contains};
ghost use Rattle.std.specs.List.Sorted.{IsStrictlyIncreasing};
ghost use Rattle.cp_conn.specs.NamedGraphs.{rank};
ghost use Rattle.cp_board.specs.Instances.{IsSynchronized, vert_names, edge_names, graph};
ghost use Rattle.cp_board.specs.Joins.{ArePartsAt};

use cp_base::{CycList, Items, Memory};
use cp_conn::{EdgeParts, edges_by_block};
use cp_local::local_graph;
use cp_sync::{Board, graph_of};
use std::alloc::Global;

// The place of a number that is one of those that rise. Logarithmic.
pub(crate) fn place_of(names: &[usize], name: usize) -> usize
    requires rising { IsStrictlyIncreasing names.now }
    requires live { Contains names.now name }
    ensures value { result ≡ rank names.now name }
    ensures within { result < length names.now }
    ensures few { length names.now < 2 ^ 60 }
{
    match names.binary_search(&name) {
        Ok(place) => place,
        Err(_) => unreachable!(),
    }
}

// The names of the numbers of a list. Linear.
fn named_list(alloc: Global, names: &[usize], part: &[usize]) -> Result<CycList, Memory>
    requires { All (λ k. k < length names.now) part.now }
    ensures { IfOk result (λ list. list ≡ map (slice_index names.now) part.now) }
{
    let mut list = Vec::new(alloc);
    for k in part {
        list.push(names[*k])?;
    }
    CycList::from_slice(alloc, list.as_slice())
}

// The names of the numbers of each list. Linear.
fn named_parts(alloc: Global, names: &[usize], parts: &[CycList]) -> Result<EdgeParts, Memory>
    requires { All (All (λ k. k < length names.now)) parts.now }
    ensures named { IfOk result (λ lists. lists ≡ map (map (slice_index names.now)) parts.now) }
    ensures few { length names.now < 2 ^ 60 }
{
    let mut lists = Items::new(alloc);
    for part in parts {
        lists.push(named_list(alloc, names, part.items())?)?;
    }
    Ok(lists)
}

// The edges of vertex `u` in parts, and bounds on the numbers of vertices and edges.
pub(crate) fn parts_among<B: Board>(alloc: Global, board: &B, u: usize) -> Result<EdgeParts, Memory>
    requires { Contains (vert_names (B.instance board.now)) u }
    ensures parts { IfOk result (λ parts. ArePartsAt (graph (B.instance board.now)) u parts) }
    ensures few_verts { IfOk result (λ parts. length (vert_names (B.instance board.now)) < 2 ^ 60) }
    ensures few_edges { IfOk result (λ parts. length (edge_names (B.instance board.now)) < 2 ^ 60) }
    ensures rules { IsSynchronized (B.instance board.now) }
{
    let g = graph_of(alloc, board)?;
    let place = place_of(g.verts.items(), u);
    let numbers = edges_by_block(alloc, &g.graph, place)?;
    named_parts(alloc, g.edges.items(), numbers.items())
}

/// The edges of vertex `u` in parts: two edges are in one part where they enter one component when `u` is removed. Each
/// part rises, and the parts stand by their least edges (Bläsius, Fink, Rutter 2021). `u` is the name of a live vertex.
/// The only error is want of memory. It asks the board for the edges of each vertex of the component of `u` and a
/// constant number of times for the ends of each, and is linear beside that in the component, up to a logarithm.
pub fn parts_at<B: Board>(alloc: Global, board: &B, u: usize) -> Result<EdgeParts, Memory>
    requires { Contains (vert_names (B.instance board.now)) u }
    ensures { IfOk result (λ parts. ArePartsAt (graph (B.instance board.now)) u parts) }
{
    let local = local_graph(alloc, board, u, u)?;
    let place = place_of(local.verts.items(), u);
    let numbers = edges_by_block(alloc, &local.graph, place)?;
    named_parts(alloc, local.edges.items(), numbers.items())
}
