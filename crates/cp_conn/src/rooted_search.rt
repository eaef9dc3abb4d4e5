// Search trees of biconnected graphs.
ghost use Rattle.std.specs.Prelude.{◌≡◌, ℕ, ◌<◌, length, slice_index, slice_index_or, IfOk, MatchBool};
ghost use Rattle.cp_base.specs.Graphs.{AreWithin};
ghost use Rattle.cp_orbits.specs.Connected.{Joins, Connected};
ghost use Rattle.cp_conn.specs.CutVertex.{AreBiconnected, IsNeighbour};
ghost use Rattle.cp_conn.specs.Deepening.{IsGrown};
ghost use Rattle.cp_conn.specs.SearchForest.{forest_of, IsSearchForest};
ghost use Rattle.cp_conn.specs.SearchTree.{IsSearchTree};

use crate::darts::dart_table;
use crate::low_points::low_points;
use crate::search_forest::{SearchForest, empty_forest, meet, search_on};
use cp_base::{Graph, Memory};
use std::alloc::Global;

/// A search tree of a biconnected graph. Vertices are named by their places in the order.
#[derive(Drop)]
pub struct SearchTree {
    /// The vertices in the order in which the search met them: parents before their children.
    pub order: Vec<usize>,
    /// For each place the place of the parent. The first has none, and its value means nothing.
    pub up: Vec<usize>,
    /// For each place from the third on its low point: a place before that of the parent, which an
    /// edge leads to from the vertex there or from one below it. The second has the low point 0; the
    /// first has none, and its value means nothing.
    pub low: Vec<usize>,
}

// Whether an edge joins `x` and `y`.
fn joins(pair: (usize, usize), x: usize, y: usize) -> bool
    ensures { MatchBool result (Joins pair x y) (Joins pair x y → ⊥) }
{
    (pair.0 == x && pair.1 == y) || (pair.0 == y && pair.1 == x)
}

// An edge that joins `x` and `y`.
fn edge_between(ends: &[(usize, usize)], x: usize, y: usize) -> usize
    requires { IsNeighbour ends.now x y }
    ensures within { result < length ends.now }
    ensures joined { Joins (slice_index_or ends.now result (0, 0)) x y }
{
    for edge in 0..ends.len() {
        if joins(ends[edge], x, y) {
            return edge;
        }
    }
    unreachable!()
}

// A search from `s` that meets `t` first.
fn forest_from(
    alloc: Global,
    vertices: usize,
    ends: &[(usize, usize)],
    s: usize,
    t: usize,
) -> Result<SearchForest, Memory>
    requires ends_within { AreWithin vertices ends.now }
    requires joined { IsNeighbour ends.now s t }
    requires connected { (v : ℕ) → v < vertices → Connected ends.now s v }
    ensures grown { IfOk result (λ f. IsGrown ends.now vertices (forest_of f)) }
    ensures all_met { IfOk result (λ f. (v : ℕ) → v < vertices → slice_index f.number.items v < vertices) }
    ensures forest { IfOk result (λ f. IsSearchForest ends.now vertices (forest_of f)) }
    ensures first { IfOk result (λ f. slice_index f.order.items 0 ≡ s) }
    ensures second { IfOk result (λ f. slice_index f.order.items 1 ≡ t) }
{
    let darts = dart_table(alloc, vertices, ends)?;
    let mut next = darts.entries;
    let mut forest = empty_forest(alloc, vertices)?;
    meet(&mut forest, s, s, 0)?;
    meet(&mut forest, t, s, edge_between(ends, s, t))?;
    search_on(ends, darts.lower.as_slice(), t, &mut next, &mut forest)?;
    Ok(forest)
}

// The value of each item of the order.
fn values_along(alloc: Global, order: &[usize], values: &[usize]) -> Result<Vec<usize>, Memory>
    requires { (i : ℕ) → i < length order.now → slice_index order.now i < length values.now }
    ensures size { IfOk result (λ along. length along.items ≡ length order.now) }
    ensures each { IfOk result (λ along. (i : ℕ) → i < length order.now → slice_index along.items i ≡ slice_index values.now (slice_index order.now i)) }
{
    let mut along = Vec::new(alloc);
    for item in order {
        along.push(values[*item])?;
    }
    Ok(along)
}

// A search tree whose first two vertices are `s` and `t`.
fn tree_from(
    alloc: Global,
    vertices: usize,
    ends: &[(usize, usize)],
    s: usize,
    t: usize,
) -> Result<SearchTree, Memory>
    requires ends_within { AreWithin vertices ends.now }
    requires biconnected { AreBiconnected vertices ends.now }
    requires joined { IsNeighbour ends.now s t }
    ensures tree { IfOk result (λ tree. IsSearchTree ends.now vertices tree.order.items tree.up.items tree.low.items) }
    ensures first { IfOk result (λ tree. slice_index tree.order.items 0 ≡ s) }
    ensures second { IfOk result (λ tree. slice_index tree.order.items 1 ≡ t) }
{
    let forest = forest_from(alloc, vertices, ends, s, t)?;
    let points = low_points(alloc, vertices, ends, &forest)?;
    let order = forest.order;
    let parents = values_along(alloc, order.as_slice(), forest.parent.as_slice())?;
    let up = values_along(alloc, parents.as_slice(), forest.number.as_slice())?;
    let low = values_along(alloc, order.as_slice(), points.as_slice())?;
    Ok(SearchTree { order, up, low })
}

/// A search tree whose first two vertices are `s` and `t`, with a low point for each vertex, as orders
/// from `s` to `t` need them (Hopcroft, Tarjan 1973): each vertex from the third on or one below it
/// is adjacent to its low point, which stands before its parent. That the search goes depth first and
/// that low points are the least such places is not told. Linear in the numbers of vertices and
/// edges, without recursion.
pub fn search_tree(alloc: Global, g: &Graph, s: usize, t: usize) -> Result<SearchTree, Memory>
    requires biconnected { AreBiconnected g.now.vertices g.now.ends }
    requires joined { IsNeighbour g.now.ends s t }
    ensures tree { IfOk result (λ tree. IsSearchTree g.now.ends g.now.vertices tree.order.items tree.up.items tree.low.items) }
    ensures first { IfOk result (λ tree. slice_index tree.order.items 0 ≡ s) }
    ensures second { IfOk result (λ tree. slice_index tree.order.items 1 ≡ t) }
{
    tree_from(alloc, g.vertices(), g.ends(), s, t)
}
