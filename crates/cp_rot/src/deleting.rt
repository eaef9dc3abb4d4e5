// The vertices and lists without an edge, whose number the last edge takes.
ghost use Rattle.std.specs.Prelude.{◌≡◌, ℕ, ◌+◌, ◌*◌, ◌/◌, ◌^◌, ◌<◌, ◌≤◌, IfOk, length};
ghost use Rattle.cp_orbits.specs.Orbits.{exchange};
ghost use Rattle.cp_faces.specs.Faces.{on_edges};
ghost use Rattle.cp_rot.specs.Rewrites.{values, deleted};
ghost use Rattle.cp_rot.specs.Tables.{system_of};
ghost use Rattle.cp_rot.specs.RewriteTables.{kept_at, kept_items, kept_list};

use cp_base::{CycList, Memory};
use std::alloc::Global;

// The number x, but b for a, and a for b.
pub(crate) fn exchanged(a: usize, b: usize, x: usize) -> usize
    ensures { result ≡ exchange a b x }
{
    if x == a {
        b
    } else if x == b {
        a
    } else {
        x
    }
}

// Dart d, where edges e and `last` exchange their numbers.
fn renumbered(e: usize, last: usize, d: usize) -> usize
    requires first { e < 2 ^ 60 }
    requires second { last < 2 ^ 60 }
    ensures { result ≡ on_edges (exchange e last) d }
{
    2 * exchanged(e, last, d / 2) + d % 2
}

// The vertices at which the darts stand, without edge e.
fn vertices_without_edge(
    alloc: Global,
    at: &[usize],
    e: usize,
    last: usize,
) -> Result<Vec<usize>, Memory>
    requires size { length at.now ≡ 2 * (last + 1) }
    requires edge { e ≤ last }
    requires bound { last < 2 ^ 60 }
    ensures { IfOk result (λ new. new.items ≡ values (2 * last) (kept_at at.now e last)) }
{
    let mut new = Vec::new(alloc);
    for d in 0..2 * last {
        new.push(at[renumbered(e, last, d)])?;
    }
    Ok(new)
}

// The items without edge e.
fn items_without_edge(
    alloc: Global,
    items: &[usize],
    e: usize,
    last: usize,
) -> Result<CycList, Memory>
    requires first { e < 2 ^ 60 }
    requires second { last < 2 ^ 60 }
    ensures { IfOk result (λ list. list ≡ kept_items e last items.now) }
{
    let kept: Vec<usize> = items
        .iter()
        .copied()
        .filter(|d| *d / 2 != e)
        .map(|d| renumbered(e, last, d))
        .collect(alloc)?;
    CycList::from_slice(alloc, kept.as_slice())
}

// The lists without edge e.
fn lists_without_edge(
    alloc: Global,
    lists: &[CycList],
    e: usize,
    last: usize,
) -> Result<Vec<CycList>, Memory>
    requires first { e < 2 ^ 60 }
    requires second { last < 2 ^ 60 }
    ensures { IfOk result (λ new. new.items ≡ values (length lists.now) (kept_list lists.now e last)) }
{
    let mut new = Vec::new(alloc);
    for v in 0..lists.len() {
        new.push(items_without_edge(alloc, lists[v].items(), e, last)?)?;
    }
    Ok(new)
}

// The vertices at which the darts stand and the lists, without edge e.
pub(crate) fn without_edge(
    alloc: Global,
    at: &[usize],
    lists: &[CycList],
    e: usize,
) -> Result<(Vec<usize>, Vec<CycList>), Memory>
    requires paired { length at.now ≡ 2 * (length at.now / 2) }
    requires edge { e < length at.now / 2 }
    ensures { IfOk result (λ new. system_of new.0.items new.1.items ≡ deleted (system_of at.now lists.now) e) }
{
    let last = at.len() / 2 - 1;
    let new_at = vertices_without_edge(alloc, at, e, last)?;
    let new_lists = lists_without_edge(alloc, lists, e, last)?;
    Ok((new_at, new_lists))
}
