// Cut vertices.
ghost use Rattle.std.specs.Prelude.{◌≡◌, ℕ, ◌<◌, ◌↔◌, length, slice_index, filter, IsTrue, IfOk, MatchOption, MatchBool};
ghost use Rattle.cp_base.specs.Graphs.{AreWithin};
ghost use Rattle.cp_conn.specs.CutVertex.{avoids, without_vertex, IsNeighbour, HasNeighbourApart, IsCutVertex};

use crate::search::least_connected;
use cp_base::{Graph, Memory};
use std::alloc::Global;

// The edges that do not touch vertex `v`.
pub(crate) fn edges_without(
    alloc: Global,
    ends: &[(usize, usize)],
    v: usize,
) -> Result<Vec<(usize, usize)>, Memory>
    ensures { IfOk result (λ rest. rest.items ≡ without_vertex v ends.now) }
{
    let rest = ends
        .iter()
        .copied()
        .filter(|pair| pair.0 != v && pair.1 != v)
        .collect(alloc)?;
    Ok(rest)
}

// A neighbour of vertex `v`.
fn some_neighbour(ends: &[(usize, usize)], v: usize) -> Option<usize>
    ensures { MatchOption result ((x : ℕ) → IsNeighbour ends.now v x → ⊥) (λ x. IsNeighbour ends.now v x) }
{
    for (first, second) in ends {
        if *first == v && *second != v {
            return Some(*second);
        }
        if *second == v && *first != v {
            return Some(*first);
        }
    }
    None
}

// Whether a neighbour of vertex `v` has another value in `least` than `label`.
fn has_neighbour_apart(ends: &[(usize, usize)], v: usize, least: &[usize], label: usize) -> bool
    requires { AreWithin (length least.now) ends.now }
    ensures { MatchBool result (HasNeighbourApart ends.now v least.now label) (HasNeighbourApart ends.now v least.now label → ⊥) }
{
    for (first, second) in ends {
        if *first == v && *second != v && least[*second] != label {
            return true;
        }
        if *second == v && *first != v && least[*first] != label {
            return true;
        }
    }
    false
}

/// Whether removing vertex `v` leaves two of its neighbours in different components. A loop does not
/// make `v` its own neighbour. Linear in the numbers of vertices and edges.
pub fn is_cut_vertex(alloc: Global, g: &Graph, v: usize) -> Result<bool, Memory>
    requires { v < g.now.vertices }
    ensures { IfOk result (λ cuts. IsTrue cuts ↔ IsCutVertex g.now.ends v) }
{
    let ends = g.ends();
    let rest = edges_without(alloc, ends, v)?;
    let least = least_connected(alloc, g.vertices(), rest.as_slice())?;
    match some_neighbour(ends, v) {
        Some(near) => Ok(has_neighbour_apart(ends, v, least.as_slice(), least[near])),
        None => Ok(false),
    }
}
