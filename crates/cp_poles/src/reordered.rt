// Solutions where one pole of a bond gets another order.
ghost use Rattle.std.specs.Prelude.{◌≡◌, ◌<◌, ◌/◌, length, map, slice_index, IfOk};
ghost use Rattle.std.specs.List.{All, Contains};
ghost use Rattle.cp_board.specs.Instances.{IsSynchronized, edge_names, graph, vert_names};
ghost use Rattle.cp_board.specs.Rotations.{ArrangesEdges, IsRotationOf, dart};
ghost use Rattle.cp_board.specs.Solutions.{list_in, with_list};
ghost use Rattle.cp_conn.specs.Bonds.{IsBond};
ghost use Rattle.cp_poles.specs.Permuted.{IsReordered};

use crate::bonds::place_of;
use cp_base::{CycList, Memory};
use cp_rotlaw::permute_components;
use cp_sync::{Board, Solution, rot_of};
use std::alloc::Global;

// The dart of an edge at its end `u`. Logarithmic.
fn dart_of<B: Board>(board: &B, edges: &[usize], u: usize, e: usize) -> usize
    requires rules { IsSynchronized (B.instance board.now) }
    requires edges { edges.now ≡ edge_names (B.instance board.now) }
    requires live { Contains (edge_names (B.instance board.now)) e }
    ensures { result ≡ dart (graph (B.instance board.now)) u e }
{
    let first = 2 * place_of(edges, e);
    if board.ends(e).0 == u {
        first
    } else {
        first + 1
    }
}

// The darts of edges at their end `u`, in the order of the edges.
fn darts_of_edges<B: Board>(
    alloc: Global,
    board: &B,
    edges: &[usize],
    u: usize,
    order: &[usize],
) -> Result<CycList, Memory>
    requires rules { IsSynchronized (B.instance board.now) }
    requires edges { edges.now ≡ edge_names (B.instance board.now) }
    requires live { All (Contains (edge_names (B.instance board.now))) order.now }
    ensures { IfOk result (λ darts. darts ≡ map (dart (graph (B.instance board.now)) u) order.now) }
{
    let mut darts = Vec::new(alloc);
    for e in order {
        darts.push(dart_of(board, edges, u, *e))?;
    }
    CycList::from_slice(alloc, darts.as_slice())
}

// The edges of darts, in the order of the darts.
fn edges_of_darts(alloc: Global, edges: &[usize], darts: &[usize]) -> Result<CycList, Memory>
    requires { All (λ d. d / 2 < length edges.now) darts.now }
    ensures { IfOk result (λ list. list ≡ map (λ d. slice_index edges.now (d / 2)) darts.now) }
{
    let mut names = Vec::new(alloc);
    for d in darts {
        names.push(edges[*d / 2])?;
    }
    CycList::from_slice(alloc, names.as_slice())
}

// The solution with another order at the pole `u` of a bond. At the other pole the parts of the bond follow in
// reverse, and all other lists stay. Linear in the board, up to a logarithm.
pub(crate) fn reordered<B: Board>(
    alloc: Global,
    board: &B,
    u: usize,
    v: usize,
    order: CycList,
    s: Solution,
) -> Result<Solution, Memory>
    requires live_u { Contains (vert_names (B.instance board.now)) u }
    requires live_v { Contains (vert_names (B.instance board.now)) v }
    requires bond { IsBond (graph (B.instance board.now)) u v }
    requires names { map (λ row. row.0) s ≡ vert_names (B.instance board.now) }
    requires rotation { IsRotationOf (graph (B.instance board.now)) (list_in s) }
    requires arranged { ArrangesEdges (graph (B.instance board.now)) u order }
    ensures names { IfOk result (λ t. map (λ row. row.0) t ≡ vert_names (B.instance board.now)) }
    ensures lists { IfOk result (λ t. IsReordered (graph (B.instance board.now)) (list_in s) u v order (list_in t)) }
{
    let verts = board.verts(alloc)?;
    let edges = board.edges(alloc)?;
    let rot = rot_of(alloc, board, &s)?;
    let first = place_of(verts.as_slice(), u);
    let second = place_of(verts.as_slice(), v);
    let darts = darts_of_edges(alloc, board, edges.as_slice(), u, order.items())?;
    let permuted = permute_components(alloc, &rot, first, second, &darts)?;
    permuted.is_rotation();
    let row = edges_of_darts(alloc, edges.as_slice(), permuted.list(second).items())?;
    Ok(with_lists(s, (u, order), (v, row)))
}

// The solution with other lists at two vertices. Logarithmic.
fn with_lists(s: Solution, first: (usize, CycList), second: (usize, CycList)) -> Solution
    requires first { Contains (map (λ row. row.0) s) first.0 }
    requires second { Contains (map (λ row. row.0) s) second.0 }
    ensures { result ≡ with_list second.0 second.1 (with_list first.0 first.1 s) }
{
    let mut s = s;
    s.set_list(first.0, first.1);
    s.set_list(second.0, second.1);
    s
}
