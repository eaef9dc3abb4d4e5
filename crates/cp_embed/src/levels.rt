// Bipolar orders in which few edges lead from each beginning to the rest.
ghost use Rattle.std.specs.Prelude.{◌≡◌, ℕ, ◌+◌, ◌-◌, ◌<◌, true, length, slice_index, IsTrue, IfOk};
ghost use Rattle.std.specs.List.Sorted.{IsPermutation};
ghost use Rattle.cp_base.specs.Graphs.{AreWithin};
ghost use Rattle.cp_conn.specs.Blocks.{HaveNoLoop};
ghost use Rattle.cp_ears.specs.Bipolar.{IsBipolar};
ghost use Rattle.cp_lists.specs.Count.{Exactly};
ghost use Rattle.cp_embed.specs.Levels.{AreEarlier, AreLater, EndWithin, HaveFlags};

use crate::block::QBlock;
use crate::vertex_order::{far_end, later_ends, places_in};
use cp_base::Memory;
use std::alloc::Global;

// Lifts the later ends of the edges of a vertex above it. Linear in the edges.
fn lift(levels: &mut Vec<usize>, vertex: usize, edges: &[usize], later: &[usize]) {
    let next = levels.get(vertex).copied().unwrap_or(0).saturating_add(1);
    for edge in edges {
        let end = later.get(*edge).copied().unwrap_or(vertex);
        if end != vertex {
            if let Some(level) = levels.get_mut(end) {
                *level = next.max(*level);
            }
        }
    }
}

// The vertices by their levels, where each stands above those that come before it and are adjacent to it, and the last
// above all. The levels are a proposal: whether the order is bipolar is tested. n log n in the size of the block.
fn by_levels(
    alloc: Global,
    block: &QBlock,
    order: &[usize],
    later: &[usize],
) -> Result<Vec<usize>, Memory>
    requires { (i : ℕ) → i < length order.now → slice_index order.now i < block.now.graph.vertices }
    ensures { IfOk result (λ other. IsPermutation order.now other.items) }
{
    let mut levels = vec![in alloc; 0; block.graph().vertices()]?;
    for vertex in order {
        lift(&mut levels, *vertex, block.edges_at(*vertex), later);
    }
    if let Some(last) = order.last() {
        if let Some(level) = levels.get_mut(*last) {
            *level = usize::MAX;
        }
    }
    let mut other = order.to_vec(alloc)?;
    other.sort_by_key(|vertex| levels.get(*vertex).copied().unwrap_or(0))?;
    Ok(other)
}

// Which vertices are the later end of some edge, and which the earlier end of some.
#[derive(Drop)]
struct Sides {
    later: Vec<bool>,
    earlier: Vec<bool>,
}

// Which of so many vertices are the later end of some edge, and which the earlier end of some. Linear.
fn sides_of(
    alloc: Global,
    vertices: usize,
    ends: &[(usize, usize)],
    later: &[usize],
) -> Result<Sides, Memory>
    requires each { length later.now ≡ length ends.now }
    requires within { EndWithin vertices ends.now later.now }
    ensures later { IfOk result (λ s. AreLater ends.now later.now s.later.items) }
    ensures earlier { IfOk result (λ s. AreEarlier ends.now later.now s.earlier.items) }
    ensures later_size { IfOk result (λ s. length s.later.items ≡ vertices) }
    ensures earlier_size { IfOk result (λ s. length s.earlier.items ≡ vertices) }
{
    let mut are_later = vec![in alloc; false; vertices]?;
    let mut are_earlier = vec![in alloc; false; vertices]?;
    for edge in 0..ends.len() {
        let end = later[edge];
        are_later[end] = true;
        are_earlier[far_end(ends, end, edge)] = true;
    }
    Ok(Sides {
        later: are_later,
        earlier: are_earlier,
    })
}

// Whether each vertex of the order but the first and the last has a flag. Linear.
fn have_flags(order: &[usize], flags: &[bool]) -> bool
    requires { (i : ℕ) → i < length order.now → slice_index order.now i < length flags.now }
    ensures { IsTrue result → HaveFlags order.now flags.now }
{
    for i in 1..order.len().saturating_sub(1) {
        if !flags[order[i]] {
            return false;
        }
    }
    true
}

// Whether the order leads from `s` to `t`.
fn leads(order: &[usize], s: usize, t: usize) -> bool
    ensures { IsTrue result → (slice_index order.now 0 ≡ s) × (slice_index order.now (length order.now - 1) ≡ t) }
{
    !order.is_empty() && order[0] == s && order[order.len() - 1] == t
}

// Whether an order of all vertices is bipolar. Linear in the numbers of vertices and edges.
fn is_bipolar(
    alloc: Global,
    ends: &[(usize, usize)],
    s: usize,
    t: usize,
    order: &[usize],
) -> Result<bool, Memory>
    requires once { Exactly (length order.now) (λ v. true) order.now }
    requires within { AreWithin (length order.now) ends.now }
    requires no_loop { HaveNoLoop ends.now }
    ensures { IfOk result (λ yes. IsTrue yes → IsBipolar (record { vertices = length order.now; ends = ends.now }) s t order.now) }
{
    if !leads(order, s, t) {
        return Ok(false);
    }
    let later = later_ends(alloc, order, ends)?;
    let sides = sides_of(alloc, order.len(), ends, later.as_slice())?;
    if !have_flags(order, sides.later.as_slice()) {
        return Ok(false);
    }
    Ok(have_flags(order, sides.earlier.as_slice()))
}

// How far the ends of the edges stand apart in an order, all together: the sum of the numbers of edges that lead from
// each beginning to the rest. Linear.
fn width(places: &[usize], ends: &[(usize, usize)]) -> usize {
    let mut sum: usize = 0;
    for (first, second) in ends {
        let one = places.get(*first).copied().unwrap_or(0);
        let other = places.get(*second).copied().unwrap_or(0);
        sum = sum.saturating_add(one.abs_diff(other));
    }
    sum
}

// A bipolar order in which the edges are no longer, all together: the vertices by their levels where this is one, or
// the given order. n log n in the size of the block.
pub(crate) fn narrowed(
    alloc: Global,
    block: &QBlock,
    s: usize,
    t: usize,
    order: Vec<usize>,
) -> Result<Vec<usize>, Memory>
    requires within { AreWithin block.now.graph.vertices block.now.graph.ends }
    requires no_loop { HaveNoLoop block.now.graph.ends }
    requires bipolar { IsBipolar block.now.graph s t order.items }
    ensures { IfOk result (λ narrow. IsBipolar block.now.graph s t narrow.items) }
{
    let ends = block.graph().ends();
    let later = later_ends(alloc, order.as_slice(), ends)?;
    let other = by_levels(alloc, block, order.as_slice(), later.as_slice())?;
    let places = places_in(alloc, order.as_slice())?;
    let other_places = places_in(alloc, other.as_slice())?;
    if width(other_places.as_slice(), ends) < width(places.as_slice(), ends)
        && is_bipolar(alloc, ends, s, t, other.as_slice())?
    {
        return Ok(other);
    }
    Ok(order)
}
