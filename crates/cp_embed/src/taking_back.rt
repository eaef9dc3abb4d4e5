// The vertices taken back, from a pair of the tree to a list for each vertex.
ghost use Rattle.std.specs.Prelude.{◌≡◌, ◌<◌, ◌≤◌, ℕ, true, false, List, [], ◌∷◌, ◌++◌, length, slice_index, replicate, reverse, take, drop, IfOk};
ghost use Rattle.cp_lists.specs.CyclicLists.{Has};
ghost use Rattle.cp_lists.specs.Turns.{IsTurn};
ghost use Rattle.cp_pq.specs.Bits.{bit_of};
ghost use Rattle.cp_force.specs.Words.{part_word};
ghost use Rattle.cp_embed.specs.ListedBlocks.{touches};
ghost use Rattle.cp_embed.specs.Unwound.{IsTurnedPair, AreUnwound, HasEdgesAsRun, IsTakenOutOf};

use crate::edge_lists::{joined, rest_reversed};
use crate::embedding::Embedded;
use crate::taking::Frame;
use cp_base::{CycList, Memory};
use cp_force::{OrderTree, push_part};
use std::alloc::Global;

// Whether the vertex is an end of the edge.
fn is_end(ends: &[(usize, usize)], vertex: usize, edge: usize) -> bool
    requires { edge < length ends.now }
    ensures { result ≡ touches ends.now vertex edge }
{
    let (first, second) = ends[edge];
    first == vertex || second == vertex
}

// The place of the first edge of the vertex, and the length of the word where it has none of them.
fn place_of_run(word: &[usize], ends: &[(usize, usize)], vertex: usize) -> usize
    requires { (i : ℕ) → i < length word.now → slice_index word.now i < length ends.now }
    ensures within { result ≤ length word.now }
    ensures before { (i : ℕ) → i < result → touches ends.now vertex (slice_index word.now i) ≡ false }
    ensures there { result < length word.now → touches ends.now vertex (slice_index word.now result) ≡ true }
{
    for (place, edge) in word.iter().enumerate() {
        if is_end(ends, vertex, *edge) {
            return place;
        }
    }
    word.len()
}

// The word with the items from the one place up to the other exchanged for the row.
fn exchanged(
    alloc: Global,
    word: &[usize],
    start: usize,
    end: usize,
    row: &[usize],
) -> Result<Vec<usize>, Memory>
    requires rising { start ≤ end }
    requires within { end ≤ length word.now }
    ensures { IfOk result (λ all. all.items ≡ take start word.now ++ (row.now ++ drop end word.now)) }
{
    let mut all = Vec::from_slice(alloc, &word[..start])?;
    all.extend_from_slice(row)?;
    all.extend_from_slice(&word[end..])?;
    Ok(all)
}

// The row, and behind it the run in reverse.
fn list_round(alloc: Global, row: &[usize], run: &[usize]) -> Result<CycList, Memory>
    ensures { IfOk result (λ list. list ≡ row.now ++ reverse run.now) }
{
    let mut back = Vec::from_slice(alloc, run)?;
    back.reverse();
    let items = joined(alloc, row, back.as_slice())?;
    let list = CycList::from_slice(alloc, items.as_slice())?;
    Ok(list)
}

// The word before a vertex was taken, and the list of the vertex.
#[derive(Drop)]
struct TakenBack {
    word: Vec<usize>,
    list: CycList,
}

// Takes a vertex back: in the word the run of its edges is exchanged for what the bits read of the part that was taken
// out, and the two are its list. Linear in the word and the part.
fn taken_back(
    alloc: Global,
    ends: &[(usize, usize)],
    frame: &Frame,
    bits: &[bool],
    word: &[usize],
) -> Result<TakenBack, Memory>
    requires { HasEdgesAsRun ends.now frame.now.vertex frame.now.outs.items word.now }
    ensures { IfOk result (λ back. IsTakenOutOf word.now frame.now.outs.items (part_word bits.now frame.now.part)
        back.word.items back.list) }
{
    let start = place_of_run(word, ends, frame.vertex);
    let end = start + frame.outs.len();
    let mut row = Vec::new(alloc);
    push_part(&frame.part, bits, &mut row)?;
    let list = list_round(alloc, row.as_slice(), &word[start..end])?;
    let word = exchanged(alloc, word, start, end, row.as_slice())?;
    Ok(TakenBack { word, list })
}

/// What stands behind an item in a cyclic list, once round. Linear.
pub fn rest_behind(alloc: Global, list: &[usize], item: usize) -> Result<Vec<usize>, Memory>
    requires { Has item list.now }
    ensures { IfOk result (λ rest. IsTurn list.now (item ∷ rest.items)) }
{
    let mut rest = rest_reversed(alloc, list, item)?;
    rest.reverse();
    Ok(rest)
}

// The item, and behind it the rest in reverse.
fn reversed_behind(alloc: Global, item: usize, rest: &[usize]) -> Result<CycList, Memory>
    ensures { IfOk result (λ list. list ≡ item ∷ reverse rest.now) }
{
    let list = list_round(alloc, &[item], rest)?;
    Ok(list)
}

// So many empty lists.
fn empty_lists(alloc: Global, count: usize) -> Result<Vec<CycList>, Memory>
    ensures { IfOk result (λ lists. lists.items ≡ replicate count []) }
{
    let mut lists = Vec::with_capacity(alloc, count)?;
    for _ in 0..count {
        lists.push(CycList::from_slice(alloc, &[])?)?;
    }
    Ok(lists)
}

/// For a pair of the tree a list of its edges for each vertex of the block: the lists of a rotation system in the plane
/// that has the order at the vertex of the tree and keeps the given list of each other vertex in the direction of its
/// bit. The order may begin with any of its edges. For each vertex a constant number of passes over the edges that lead
/// from the vertices taken before it to the others.
pub fn unwind<T: OrderTree>(
    alloc: Global,
    m: &Embedded<T>,
    bits: &[bool],
    order: &CycList,
) -> Result<Vec<CycList>, Memory>
    requires { IsTurnedPair m.now.tree order.now bits.now }
    ensures { IfOk result (λ lists. AreUnwound m.now.block m.now.vertex order.now (bit_of bits.now) lists.items) }
{
    let (first, frames) = m.taken();
    let (block, vertex) = m.block();
    let root = block.edges_at(vertex)[0];
    let mut word = rest_behind(alloc, order.items(), root)?;
    let mut lists = empty_lists(alloc, block.graph().vertices())?;
    let mut left = frames.len();
    while left > 0 {
        left -= 1;
        let frame = &frames[left];
        let back = taken_back(alloc, block.graph().ends(), frame, bits, word.as_slice())?;
        lists[frame.vertex] = back.list;
        word = back.word;
    }
    lists[first] = reversed_behind(alloc, root, word.as_slice())?;
    lists[vertex] = CycList::from_slice(alloc, order.items())?;
    Ok(lists)
}
