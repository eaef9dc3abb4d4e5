// A search through a graph, depth first.
ghost use Rattle.std.specs.Prelude.{◌≡◌, ℕ, ◌+◌, ◌<◌, ◌≤◌, length, slice_index, IfOk, OnOk};
ghost use Rattle.std.specs.List.{sum_by};
ghost use Rattle.cp_base.specs.Graphs.{AreWithin};
ghost use Rattle.cp_conn.specs.SearchForest.{forest_of, no_forest, with_vertex, IsVertex, IsSearchForest};
ghost use Rattle.cp_conn.specs.Deepening.{LeadDown, IsGrown, StandsAt, Rests, StayMet, IsFurther, IsNearer};

use crate::darts::{dart_table, finish_of};
use cp_base::Memory;
use std::alloc::Global;

// A forest of the vertices that a search has met. A vertex that was not met has their number as its
// own; a root is its own parent, and its edge means nothing.
#[derive(Drop)]
pub(crate) struct SearchForest {
    // For each vertex the place in the order.
    pub(crate) number: Vec<usize>,
    // For each vertex the vertex above it.
    pub(crate) parent: Vec<usize>,
    // For each vertex the edge to its parent.
    pub(crate) edge: Vec<usize>,
    // The vertices in the order in which they were met.
    pub(crate) order: Vec<usize>,
}

// A forest of no vertex.
pub(crate) fn empty_forest(alloc: Global, vertices: usize) -> Result<SearchForest, Memory>
    ensures { IfOk result (λ f. forest_of f ≡ no_forest vertices) }
{
    Ok(SearchForest {
        number: vec![in alloc; vertices; vertices]?,
        parent: vec![in alloc; 0; vertices]?,
        edge: vec![in alloc; 0; vertices]?,
        order: Vec::new(alloc),
    })
}

// Meets a vertex, which hangs by an edge below its parent.
pub(crate) fn meet(
    forest: &mut SearchForest,
    vertex: usize,
    parent: usize,
    edge: usize,
) -> Result<(), Memory>
    requires { IsVertex (forest_of forest.old) vertex }
    ensures { OnOk result (forest_of forest.new ≡ with_vertex (forest_of forest.old) vertex parent edge) }
{
    forest.number[vertex] = forest.order.len();
    forest.parent[vertex] = parent;
    forest.edge[vertex] = edge;
    forest.order.push(vertex)?;
    Ok(())
}

// Follows the next dart of a vertex, and tells where the search stands then.
fn follow_next(
    ends: &[(usize, usize)],
    lower: &[usize],
    vertex: usize,
    next: &mut Vec<usize>,
    forest: &mut SearchForest,
) -> Result<usize, Memory>
    requires ends_within { AreWithin (length next.old.items) ends.now }
    requires lead { LeadDown ends.now lower.now }
    requires stands { StandsAt ends.now (length next.old.items) (forest_of forest.old) next.old.items vertex }
    requires some_left { 0 < slice_index next.old.items vertex }
    ensures stands { IfOk result (λ now. StandsAt ends.now (length next.old.items) (forest_of forest.new) next.new.items now) }
    ensures kept { OnOk result (StayMet (length next.old.items) (forest_of forest.old) (forest_of forest.new)) }
    ensures further { OnOk result (IsFurther (forest_of forest.old) (forest_of forest.new)) }
    ensures fewer { OnOk result (sum_by (λ k. k) next.new.items < sum_by (λ k. k) next.old.items) }
{
    let dart = next[vertex] - 1;
    next[vertex] = lower[dart];
    let to = finish_of(ends, dart);
    if forest.number[to] < next.len() {
        return Ok(vertex);
    }
    meet(forest, to, vertex, dart / 2)?;
    Ok(to)
}

// Follows the next dart of a vertex, or goes up where none is left, and tells where the search stands
// then.
fn go_on(
    ends: &[(usize, usize)],
    lower: &[usize],
    vertex: usize,
    next: &mut Vec<usize>,
    forest: &mut SearchForest,
) -> Result<usize, Memory>
    requires ends_within { AreWithin (length next.old.items) ends.now }
    requires lead { LeadDown ends.now lower.now }
    requires stands { StandsAt ends.now (length next.old.items) (forest_of forest.old) next.old.items vertex }
    requires more { slice_index forest.old.parent.items vertex ≡ vertex → 0 < slice_index next.old.items vertex }
    ensures stands { IfOk result (λ now. StandsAt ends.now (length next.old.items) (forest_of forest.new) next.new.items now) }
    ensures kept { OnOk result (StayMet (length next.old.items) (forest_of forest.old) (forest_of forest.new)) }
    ensures further { OnOk result (IsFurther (forest_of forest.old) (forest_of forest.new)) }
    ensures nearer { IfOk result (λ now. IsNearer next.old.items (slice_index forest.old.number.items vertex) next.new.items (slice_index forest.new.number.items now)) }
{
    if next[vertex] > 0 {
        follow_next(ends, lower, vertex, next, forest)
    } else {
        Ok(forest.parent[vertex])
    }
}

// Goes on with the search until it rests, from the vertex that it stands at.
pub(crate) fn search_on(
    ends: &[(usize, usize)],
    lower: &[usize],
    mut vertex: usize,
    next: &mut Vec<usize>,
    forest: &mut SearchForest,
) -> Result<(), Memory>
    requires ends_within { AreWithin (length next.old.items) ends.now }
    requires lead { LeadDown ends.now lower.now }
    requires stands { StandsAt ends.now (length next.old.items) (forest_of forest.old) next.old.items vertex }
    ensures rests { OnOk result (Rests ends.now (length next.old.items) (forest_of forest.new) next.new.items) }
    ensures kept { OnOk result (StayMet (length next.old.items) (forest_of forest.old) (forest_of forest.new)) }
    ensures further { OnOk result (IsFurther (forest_of forest.old) (forest_of forest.new)) }
{
    while next[vertex] > 0 || forest.parent[vertex] != vertex {
        vertex = go_on(ends, lower, vertex, next, forest)?;
    }
    Ok(())
}

// Meets all that a vertex leads to, where it was not met before.
fn search_from(
    ends: &[(usize, usize)],
    lower: &[usize],
    root: usize,
    next: &mut Vec<usize>,
    forest: &mut SearchForest,
) -> Result<(), Memory>
    requires ends_within { AreWithin (length next.old.items) ends.now }
    requires lead { LeadDown ends.now lower.now }
    requires rests { Rests ends.now (length next.old.items) (forest_of forest.old) next.old.items }
    requires root_within { root < length next.old.items }
    requires new { length next.old.items ≤ slice_index forest.old.number.items root }
    ensures rests { OnOk result (Rests ends.now (length next.old.items) (forest_of forest.new) next.new.items) }
    ensures kept { OnOk result (StayMet (length next.old.items) (forest_of forest.old) (forest_of forest.new)) }
    ensures met { OnOk result (slice_index forest.new.number.items root < length next.old.items) }
{
    meet(forest, root, root, 0)?;
    search_on(ends, lower, root, next, forest)
}

// Meets all that a vertex leads to, where it was not met before. The vertices below it were met.
fn visit(
    ends: &[(usize, usize)],
    lower: &[usize],
    vertex: usize,
    next: &mut Vec<usize>,
    forest: &mut SearchForest,
) -> Result<(), Memory>
    requires ends_within { AreWithin (length next.old.items) ends.now }
    requires lead { LeadDown ends.now lower.now }
    requires rests { Rests ends.now (length next.old.items) (forest_of forest.old) next.old.items }
    requires vertex_within { vertex < length next.old.items }
    requires lower_met { (x : ℕ) → x < vertex → slice_index forest.old.number.items x < length next.old.items }
    ensures rests { OnOk result (Rests ends.now (length next.old.items) (forest_of forest.new) next.new.items) }
    ensures more_met { OnOk result ((x : ℕ) → x < vertex + 1 → slice_index forest.new.number.items x < length next.old.items) }
{
    if forest.number[vertex] >= next.len() {
        search_from(ends, lower, vertex, next, forest)?;
    }
    Ok(())
}

// A search forest of a graph. Linear in the numbers of vertices and edges; the search keeps its path
// in the forest and does not recur.
pub(crate) fn search_forest(
    alloc: Global,
    vertices: usize,
    ends: &[(usize, usize)],
) -> Result<SearchForest, Memory>
    requires { AreWithin vertices ends.now }
    ensures grown { IfOk result (λ f. IsGrown ends.now vertices (forest_of f)) }
    ensures all_met { IfOk result (λ f. (v : ℕ) → v < vertices → slice_index f.number.items v < vertices) }
    ensures forest { IfOk result (λ f. IsSearchForest ends.now vertices (forest_of f)) }
{
    let darts = dart_table(alloc, vertices, ends)?;
    let mut next = darts.entries;
    let mut forest = empty_forest(alloc, vertices)?;
    for vertex in 0..vertices {
        visit(ends, darts.lower.as_slice(), vertex, &mut next, &mut forest)?;
    }
    Ok(forest)
}
