// The vertices and lists with two vertices made one. The last vertex takes the number that goes.
ghost use Rattle.std.specs.Prelude.{◌≡◌, ◌≢◌, ℕ, ◌+◌, ◌-◌, ◌<◌, ◌==◌, IfOk, length, slice_index};
ghost use Rattle.std.specs.List.{Contains, position_or_len};
ghost use Rattle.cp_rot.specs.Rewrites.{values, spliced, merged};
ghost use Rattle.cp_rot.specs.Systems.{IsRotation};
ghost use Rattle.cp_rot.specs.Tables.{system_of};
ghost use Rattle.cp_rot.specs.RewriteTables.{joined_at, joined_list};
ghost use Rattle.cp_rot.specs.Lists.{list_at};

use crate::deleting::exchanged;
use cp_base::{CycList, Memory};
use std::alloc::Global;

// The first place of d, or the number of items.
pub(crate) fn place(items: &[usize], d: usize) -> usize
    ensures place { result ≡ position_or_len (λ x. x == d) items.now }
    ensures within { Contains items.now d → result < length items.now }
{
    for i in 0..items.len() {
        if items[i] == d {
            return i;
        }
    }
    items.len()
}

// The first items, and behind d the second, turned so that f is the last of them.
fn spliced_items(
    alloc: Global,
    d: usize,
    f: usize,
    first: &[usize],
    second: &[usize],
) -> Result<CycList, Memory>
    requires first { Contains first.now d }
    requires second { Contains second.now f }
    ensures { IfOk result (λ list. list ≡ spliced d f first.now second.now) }
{
    let i = place(first, d);
    let j = place(second, f);
    let mut items = Vec::from_slice(alloc, &first[..i])?;
    items.push(d)?;
    items.extend_from_slice(&second[j + 1..])?;
    items.extend_from_slice(&second[..j])?;
    items.push(f)?;
    items.extend_from_slice(&first[i + 1..])?;
    CycList::from_slice(alloc, items.as_slice())
}

// The vertices at which the darts stand, where w is made one with u.
fn vertices_joined(
    alloc: Global,
    at: &[usize],
    u: usize,
    w: usize,
    last: usize,
) -> Result<Vec<usize>, Memory>
    ensures { IfOk result (λ new. new.items ≡ values (length at.now) (joined_at at.now u w last)) }
{
    let mut new = Vec::new(alloc);
    for x in at {
        let stays = if *x == w { u } else { *x };
        new.push(exchanged(w, last, stays))?;
    }
    Ok(new)
}

// The lists, where that of w is put into that of u.
fn lists_joined(
    alloc: Global,
    lists: &[CycList],
    u: usize,
    w: usize,
    d: usize,
    f: usize,
) -> Result<Vec<CycList>, Memory>
    requires u { u < length lists.now }
    requires w { w < length lists.now }
    requires first { Contains (list_at lists.now u) d }
    requires second { Contains (list_at lists.now w) f }
    ensures { IfOk result (λ new. new.items ≡ values (length lists.now - 1) (joined_list lists.now u w (length lists.now - 1) d f)) }
{
    let last = lists.len() - 1;
    let mut new = Vec::new(alloc);
    for v in 0..last {
        let old = exchanged(w, last, v);
        let list = if old == u {
            spliced_items(alloc, d, f, lists[u].items(), lists[w].items())?
        } else {
            CycList::from_slice(alloc, lists[old].items())?
        };
        new.push(list)?;
    }
    Ok(new)
}

// The vertices at which the darts stand and the lists, with the vertices of darts d and f made one.
pub(crate) fn with_one_vertex(
    alloc: Global,
    at: &[usize],
    lists: &[CycList],
    d: usize,
    f: usize,
) -> Result<(Vec<usize>, Vec<CycList>), Memory>
    requires rotation { IsRotation (system_of at.now lists.now) }
    requires first { d < length at.now }
    requires second { f < length at.now }
    requires apart { slice_index at.now d ≢ slice_index at.now f }
    ensures { IfOk result (λ new. system_of new.0.items new.1.items ≡ merged (system_of at.now lists.now) d f) }
{
    let (u, w) = (at[d], at[f]);
    let last = lists.len() - 1;
    let new_at = vertices_joined(alloc, at, u, w, last)?;
    let new_lists = lists_joined(alloc, lists, u, w, d, f)?;
    Ok((new_at, new_lists))
}
