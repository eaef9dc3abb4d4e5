// The order in which the vertices of a block are taken.
ghost use Rattle.std.specs.Prelude.{◌≡◌, ◌≢◌, ℕ, ◌<◌, ◌≤◌, true, length, slice_index, nat_lt, cond, IfOk};
ghost use Rattle.cp_conn.specs.Blocks.{HaveNoLoop};
ghost use Rattle.cp_base.specs.Graphs.{AreWithin};
ghost use Rattle.cp_lists.specs.Count.{Exactly};
ghost use Rattle.cp_embed.specs.ListedBlocks.{IsListedBlock, touches, other_end};
ghost use Rattle.cp_embed.specs.VertexOrders.{AreLaterEnds, IsTakingOrder, StandsBefore, IsLaterEnd, last_of};

use crate::block::QBlock;
use crate::levels::narrowed;
use cp_base::Memory;
use cp_ears::bipolar;
use std::alloc::Global;

// The least edge of the last vertex, the vertices in a bipolar order from its other end on, and for each edge the end
// that comes later.
#[derive(Drop)]
pub(crate) struct TakingOrder {
    pub(crate) root: usize,
    pub(crate) vertices: Vec<usize>,
    pub(crate) later: Vec<usize>,
}

// The end of an edge that is not the vertex.
pub(crate) fn far_end(ends: &[(usize, usize)], vertex: usize, edge: usize) -> usize
    requires { edge < length ends.now }
    ensures { result ≡ other_end ends.now vertex edge }
{
    let (first, second) = ends[edge];
    if first == vertex { second } else { first }
}

// The place of each vertex of an order.
pub(crate) fn places_in(alloc: Global, order: &[usize]) -> Result<Vec<usize>, Memory>
    requires { Exactly (length order.now) (λ v. true) order.now }
    ensures each { IfOk result (λ places. length places.items ≡ length order.now) }
    ensures places { IfOk result (λ places. (i : ℕ) → i < length order.now → slice_index places.items (slice_index order.now i) ≡ i) }
{
    let mut places = vec![in alloc; 0; order.len()]?;
    for i in 0..order.len() {
        places[order[i]] = i;
    }
    Ok(places)
}

// The one of two vertices that has the greater place.
fn later_of(places: &[usize], first: usize, second: usize) -> usize
    requires first { first < length places.now }
    requires second { second < length places.now }
    ensures { result ≡ cond (nat_lt (slice_index places.now first) (slice_index places.now second)) second first }
{
    if places[first] < places[second] {
        second
    } else {
        first
    }
}

// For each edge the end that comes later. Linear in the numbers of vertices and edges.
pub(crate) fn later_ends(
    alloc: Global,
    order: &[usize],
    ends: &[(usize, usize)],
) -> Result<Vec<usize>, Memory>
    requires once { Exactly (length order.now) (λ v. true) order.now }
    requires within { AreWithin (length order.now) ends.now }
    requires no_loop { HaveNoLoop ends.now }
    ensures { IfOk result (λ later. AreLaterEnds ends.now order.now later.items) }
{
    let places = places_in(alloc, order)?;
    let mut later = Vec::new(alloc);
    for edge in 0..ends.len() {
        let (first, second) = ends[edge];
        later.push(later_of(places.as_slice(), first, second))?;
    }
    Ok(later)
}

// The order in which the vertices are taken, with the given one last. Linear in the size of the block.
pub(crate) fn taking_order(
    alloc: Global,
    block: &QBlock,
    last: usize,
) -> Result<TakingOrder, Memory>
    requires { last < block.now.graph.vertices }
    ensures block { IfOk result (λ o. IsListedBlock block.now) }
    ensures order { IfOk result (λ o. IsTakingOrder block.now.graph o.vertices.items o.later.items o.root) }
    ensures last { IfOk result (λ o. last_of o.vertices.items ≡ last) }
    ensures least { IfOk result (λ o. (k : ℕ) → k < length block.now.graph.ends → touches block.now.graph.ends last k ≡ true → o.root ≤ k) }
{
    let root = block.edges_at(last)[0];
    let first = far_end(block.graph().ends(), last, root);
    let found = bipolar(alloc, block.graph(), first, last)?;
    let vertices = narrowed(alloc, block, first, last, found)?;
    let later = later_ends(alloc, vertices.as_slice(), block.graph().ends())?;
    Ok(TakingOrder {
        root,
        vertices,
        later,
    })
}
