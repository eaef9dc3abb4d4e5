// Rotation systems of a board from cyclic lists of edges.
ghost use Rattle.std.specs.Prelude.{◌≡◌, ◌∷◌, ◌++◌, [], ◌<◌, ◌^◌, ℕ, length, map, IfOk};
ghost use Rattle.std.specs.List.{All, Contains, flat_map};
ghost use Rattle.cp_board.specs.Instances.{IsSynchronized, vert_names, edge_names, graph};
ghost use Rattle.cp_board.specs.Rotations.{ArrangesEdges, dart, system};
ghost use Rattle.cp_board.specs.Solutions.{list_in};

use crate::numbered::{graph_of, rank_of};
use crate::{Board, Solution};
use cp_base::{CycList, Memory};
use cp_rot::Rot;
use std::alloc::Global;

// The dart of an edge at its end `v`. It asks the board for the ends of the edge, and is logarithmic beside that.
fn dart_of<B: Board>(board: &B, edges: &[usize], v: usize, e: usize) -> usize
    requires rules { IsSynchronized (B.instance board.now) }
    requires edges { edges.now ≡ edge_names (B.instance board.now) }
    requires live { Contains (edge_names (B.instance board.now)) e }
    ensures { result ≡ dart (graph (B.instance board.now)) v e }
{
    let first = 2 * rank_of(edges, e);
    if board.ends(e).0 == v {
        first
    } else {
        first + 1
    }
}

// The darts of edges at their end `v`, in the order of the edges. Linear, up to a logarithm.
fn darts_round<B: Board>(
    alloc: Global,
    board: &B,
    edges: &[usize],
    v: usize,
    list: &[usize],
) -> Result<CycList, Memory>
    requires rules { IsSynchronized (B.instance board.now) }
    requires edges { edges.now ≡ edge_names (B.instance board.now) }
    requires live { All (Contains (edge_names (B.instance board.now))) list.now }
    ensures { IfOk result (λ darts. darts ≡ map (dart (graph (B.instance board.now)) v) list.now) }
{
    let mut darts = Vec::new(alloc);
    for e in list {
        darts.push(dart_of(board, edges, v, *e))?;
    }
    CycList::from_slice(alloc, darts.as_slice())
}

// The list of darts of each vertex. Linear in all lists, up to a logarithm.
fn dart_lists<B: Board>(
    alloc: Global,
    board: &B,
    verts: &[usize],
    edges: &[usize],
    s: &Solution,
) -> Result<Vec<CycList>, Memory>
    requires rules { IsSynchronized (B.instance board.now) }
    requires verts { verts.now ≡ vert_names (B.instance board.now) }
    requires edges { edges.now ≡ edge_names (B.instance board.now) }
    requires names { map (λ row. row.0) s.now ≡ vert_names (B.instance board.now) }
    requires arranged { All (λ v. ArrangesEdges (graph (B.instance board.now)) v (list_in s.now v)) (vert_names (B.instance board.now)) }
    ensures { IfOk result (λ lists. lists.items ≡ map (λ v. map (dart (graph (B.instance board.now)) v) (list_in s.now v)) verts.now) }
{
    let mut lists = Vec::new(alloc);
    for v in verts {
        lists.push(darts_round(alloc, board, edges, *v, s.list_of(*v).items())?)?;
    }
    Ok(lists)
}

// The vertex of each dart, from the two ends of each edge. Linear.
fn vertices_of_darts(alloc: Global, ends: &[(usize, usize)]) -> Result<Vec<usize>, Memory>
    ensures { IfOk result (λ at. at.items ≡ flat_map (λ x. x.0 ∷ x.1 ∷ []) ends.now) }
{
    let mut at = Vec::new(alloc);
    for (a, b) in ends {
        at.push(*a)?;
        at.push(*b)?;
    }
    Ok(at)
}

/// The rotation system of a board whose vertices have these lists, over the numbers of `graph_of`: darts `2j` and
/// `2j + 1` are the ends `a` and `b` of edge `j`. Each vertex has one list, which holds each of its edges exactly once.
/// It asks the board three times for the ends of each edge, and is linear beside that, up to a logarithm.
pub fn rot_of<B: Board>(alloc: Global, board: &B, s: &Solution) -> Result<Rot, Memory>
    requires names { map (λ row. row.0) s.now ≡ vert_names (B.instance board.now) }
    requires arranged { All (λ v. ArrangesEdges (graph (B.instance board.now)) v (list_in s.now v)) (vert_names (B.instance board.now)) }
    ensures { IfOk result (λ rot. rot ≡ system (graph (B.instance board.now)) (list_in s.now)) }
{
    let g = graph_of(alloc, board)?;
    let at = vertices_of_darts(alloc, g.graph.ends())?;
    let lists = dart_lists(alloc, board, g.verts.items(), g.edges.items(), s)?;
    Rot::from_rotation(alloc, at.as_slice(), lists.as_slice())
}
