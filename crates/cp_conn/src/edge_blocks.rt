// The edges at a vertex, by block.
ghost use Rattle.std.specs.Prelude.{◌≡◌, ◌+◌, ◌<◌, ◌≤◌, true, false, length, slice_index, ℕ, IfOk, OnOk, MatchOption};
ghost use Rattle.cp_base.specs.Graphs.{AreWithin};
ghost use Rattle.cp_conn.specs.Grouping.{touches, other_end, key_of, AreGrouped, IsPlaced, IsPut};
ghost use Rattle.cp_conn.specs.Blocks.{HaveNoLoop, AreBlocksAt};

use crate::cut_vertex::edges_without;
use crate::search::least_connected;
use cp_base::{CycList, Graph, Items, Memory};
use std::alloc::Global;

/// The edges at a vertex, in one list for each block. Contracts see it as a list of lists of edge
/// numbers.
pub type EdgeParts = Items<CycList>;

// The other end of an edge that touches vertex `v`.
fn other_end_of(ends: &[(usize, usize)], v: usize, edge: usize) -> Option<usize>
    requires { edge < length ends.now }
    ensures { MatchOption result (touches ends.now v edge ≡ false) (λ x. (touches ends.now v edge ≡ true) × (x ≡ other_end ends.now v edge)) }
{
    let (first, second) = ends[edge];
    if first == v {
        Some(second)
    } else if second == v {
        Some(first)
    } else {
        None
    }
}

// Puts an edge at the end of the part of a label, which `places` tells as one more than its place. A
// label without a part, of place 0, gets a new one.
fn put(
    alloc: Global,
    edge: usize,
    label: usize,
    places: &mut Vec<usize>,
    parts: &mut Vec<Items<usize>>,
) -> Result<(), Memory>
    requires label_within { label < length places.old.items }
    requires place_within { slice_index places.old.items label ≤ length parts.old.items }
    ensures { OnOk result (IsPut edge label parts.old.items places.old.items parts.new.items places.new.items) }
{
    let place = places[label];
    if place == 0 {
        let mut part = Items::new(alloc);
        part.push(edge)?;
        parts.push(part)?;
        places[label] = parts.len();
        Ok(())
    } else {
        parts[place - 1].push(edge)?;
        Ok(())
    }
}

// Puts an edge into the part of the component that its other end lies in, if it touches vertex `v`.
fn put_edge(
    alloc: Global,
    ends: &[(usize, usize)],
    v: usize,
    least: &[usize],
    edge: usize,
    places: &mut Vec<usize>,
    parts: &mut Vec<Items<usize>>,
) -> Result<(), Memory>
    requires edge_within { edge < length ends.now }
    requires ends_within { AreWithin (length least.now) ends.now }
    requires labels_within { (x : ℕ) → x < length least.now → slice_index least.now x < length least.now }
    requires grouped { AreGrouped (touches ends.now v) (key_of ends.now v least.now) edge parts.old.items }
    requires placed { IsPlaced (key_of ends.now v least.now) (length least.now) parts.old.items places.old.items }
    ensures grouped { OnOk result (AreGrouped (touches ends.now v) (key_of ends.now v least.now) (edge + 1) parts.new.items) }
    ensures placed { OnOk result (IsPlaced (key_of ends.now v least.now) (length least.now) parts.new.items places.new.items) }
{
    match other_end_of(ends, v, edge) {
        Some(x) => {
            put(alloc, edge, least[x], places, parts)?;
            Ok(())
        }
        None => Ok(()),
    }
}

// The edges at vertex `v` by the component that their other ends lie in. Linear.
fn edges_by_component(
    alloc: Global,
    ends: &[(usize, usize)],
    v: usize,
    least: &[usize],
) -> Result<Vec<Items<usize>>, Memory>
    requires ends_within { AreWithin (length least.now) ends.now }
    requires labels_within { (x : ℕ) → x < length least.now → slice_index least.now x < length least.now }
    ensures { IfOk result (λ parts. AreGrouped (touches ends.now v) (key_of ends.now v least.now) (length ends.now) parts.items) }
{
    let mut places = vec![in alloc; 0; least.len()]?;
    let mut parts = Vec::new(alloc);
    for edge in 0..ends.len() {
        put_edge(alloc, ends, v, least, edge, &mut places, &mut parts)?;
    }
    Ok(parts)
}

// The same lists as cyclic lists.
fn cyclic_lists(alloc: Global, parts: &[Items<usize>]) -> Result<EdgeParts, Memory>
    ensures { IfOk result (λ lists. lists ≡ parts.now) }
{
    let mut lists = Items::new(alloc);
    for part in parts {
        lists.push(CycList::from_slice(alloc, part.items())?)?;
    }
    Ok(lists)
}

/// The numbers of the edges at vertex `v`, in one list for each block: two of the edges are in one
/// list exactly where they are equal or lie on one simple cycle. Each list rises, and the lists stand
/// by their least edges. Linear in the numbers of vertices and edges.
pub fn edges_by_block(alloc: Global, g: &Graph, v: usize) -> Result<EdgeParts, Memory>
    requires no_loop { HaveNoLoop g.now.ends }
    requires within { v < g.now.vertices }
    ensures { IfOk result (λ parts. AreBlocksAt g.now.ends v parts) }
{
    let ends = g.ends();
    let rest = edges_without(alloc, ends, v)?;
    let least = least_connected(alloc, g.vertices(), rest.as_slice())?;
    let parts = edges_by_component(alloc, ends, v, least.as_slice())?;
    let lists = cyclic_lists(alloc, parts.as_slice())?;
    Ok(lists)
}
