// Lists of the edges of a vertex: those to vertices before it and its others, turned and cut.
ghost use Rattle.std.specs.Prelude.{◌≡◌, ◌≢◌, ℕ, ◌+◌, ◌-◌, ◌<◌, ◌≤◌, ◌⊎◌, Bool, true, false, not, IfOk, List, [], ◌∷◌, ◌++◌, length, slice_index, reverse, take, drop, MatchOption};
ghost use Rattle.std.specs.List.{filter};
ghost use Rattle.cp_lists.specs.CyclicLists.{Has, but};
ghost use Rattle.cp_lists.specs.Turns.{IsTurn};
ghost use Rattle.cp_embed.specs.VertexOrders.{enters};
ghost use Rattle.cp_embed.specs.Cuts.{IsCut, IsRise, HasNoRise};

use cp_base::Memory;
use std::alloc::Global;

// Those of the edges whose later end is the vertex, in their order.
pub(crate) fn entering(
    alloc: Global,
    edges: &[usize],
    later: &[usize],
    vertex: usize,
) -> Result<Vec<usize>, Memory>
    requires { (i : ℕ) → i < length edges.now → slice_index edges.now i < length later.now }
    ensures { IfOk result (λ kept. kept.items ≡ filter (enters later.now vertex) edges.now) }
{
    let mut kept = Vec::new(alloc);
    for edge in edges {
        if later[*edge] == vertex {
            kept.push(*edge)?;
        }
    }
    Ok(kept)
}

// Those of the edges whose later end is not the vertex, in their order.
pub(crate) fn leaving(
    alloc: Global,
    edges: &[usize],
    later: &[usize],
    vertex: usize,
) -> Result<Vec<usize>, Memory>
    requires { (i : ℕ) → i < length edges.now → slice_index edges.now i < length later.now }
    ensures { IfOk result (λ kept. kept.items ≡ filter (λ k. not (enters later.now vertex k)) edges.now) }
{
    let mut kept = Vec::new(alloc);
    for edge in edges {
        if later[*edge] != vertex {
            kept.push(*edge)?;
        }
    }
    Ok(kept)
}

// The edges but one, in their order.
pub(crate) fn all_but(alloc: Global, edges: &[usize], out: usize) -> Result<Vec<usize>, Memory>
    ensures { IfOk result (λ kept. kept.items ≡ but out edges.now) }
{
    let mut kept = Vec::new(alloc);
    for edge in edges {
        if *edge != out {
            kept.push(*edge)?;
        }
    }
    Ok(kept)
}

// The place of an edge of the list.
fn place_of(edges: &[usize], wanted: usize) -> usize
    requires { Has wanted edges.now }
    ensures within { result < length edges.now }
    ensures found { slice_index edges.now result ≡ wanted }
{
    for (place, edge) in edges.iter().enumerate() {
        if *edge == wanted {
            return place;
        }
    }
    unreachable!()
}

// What stands behind an edge in a cyclic list, from last to first.
pub(crate) fn rest_reversed(
    alloc: Global,
    list: &[usize],
    edge: usize,
) -> Result<Vec<usize>, Memory>
    requires { Has edge list.now }
    ensures { IfOk result (λ back. (rest : List ℕ) × (back.items ≡ reverse rest) × IsTurn list.now (edge ∷ rest)) }
{
    let mut turned = Vec::from_slice(alloc, list)?;
    turned.rotate_left(place_of(list, edge));
    turned.reverse();
    turned.pop();
    Ok(turned)
}

// The first place, but 0, at which an edge of the kind stands behind one of the other; 0 where there is none.
fn place_of_rise(list: &[usize], later: &[usize], vertex: usize) -> usize
    requires { (i : ℕ) → i < length list.now → slice_index list.now i < length later.now }
    ensures within { result ≤ length list.now }
    ensures rise { 0 < result → IsRise (enters later.now vertex) list.now result }
    ensures none { result ≡ 0 → HasNoRise (enters later.now vertex) list.now (length list.now) }
{
    for i in 1..list.len() {
        if later[list[i]] == vertex && later[list[i - 1]] != vertex {
            return i;
        }
    }
    0
}

// A cyclic list that is cut into the edges to vertices before and the others.
#[derive(Drop)]
pub(crate) struct Cut {
    pub(crate) first: Vec<usize>,
    pub(crate) second: Vec<usize>,
}

// The items of the one and then those of the other.
pub(crate) fn joined(alloc: Global, first: &[usize], second: &[usize]) -> Result<Vec<usize>, Memory>
    ensures { IfOk result (λ all. all.items ≡ first.now ++ second.now) }
{
    let mut all = Vec::from_slice(alloc, first)?;
    all.extend_from_slice(second)?;
    Ok(all)
}

// The list as its edges to vertices before and then the others, each in one piece; `None` where it is not so. Linear in
// its length.
pub(crate) fn cut_list(
    alloc: Global,
    list: &[usize],
    later: &[usize],
    vertex: usize,
) -> Result<Option<Cut>, Memory>
    requires within { (i : ℕ) → i < length list.now → slice_index list.now i < length later.now }
    requires some_in { (k : ℕ) × Has k list.now × (enters later.now vertex k ≡ true) }
    requires some_out { (k : ℕ) × Has k list.now × (enters later.now vertex k ≡ false) }
    ensures { IfOk result (λ found. MatchOption found ((first second : List ℕ) → IsCut (enters later.now vertex) list.now first second → ⊥) (λ cut. IsCut (enters later.now vertex) list.now cut.first.items cut.second.items)) }
{
    let mut turned = Vec::from_slice(alloc, list)?;
    turned.rotate_left(place_of_rise(list, later, vertex));
    let first = entering(alloc, turned.as_slice(), later, vertex)?;
    let second = leaving(alloc, turned.as_slice(), later, vertex)?;
    let whole = joined(alloc, first.as_slice(), second.as_slice())?;
    if whole.as_slice() == turned.as_slice() {
        return Ok(Some(Cut { first, second }));
    }
    Ok(None)
}
