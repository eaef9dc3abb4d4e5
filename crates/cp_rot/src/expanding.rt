// The vertices and lists with a row of darts moved to a new vertex at the end of a new edge.
ghost use Rattle.std.specs.Prelude.{◌≡◌, ◌≢◌, ℕ, ◌<◌, IfOk, length, set, slice_index, [], ◌∷◌, ◌++◌};
ghost use Rattle.std.specs.List.{Contains};
ghost use Rattle.cp_rot.specs.Systems.{IsRotation};
ghost use Rattle.cp_rot.specs.Tables.{system_of};
ghost use Rattle.cp_rot.specs.Rewrites.{others_from, expanded};
ghost use Rattle.cp_rot.specs.RewriteTables.{row_of, left_of, IsMoved, HasMoved};

use crate::building::copied_lists;
use crate::merging::place;
use cp_base::{CycList, Memory};
use std::alloc::Global;

// The items other than d, from behind d on.
fn others(alloc: Global, items: &[usize], d: usize) -> Result<Vec<usize>, Memory>
    requires { Contains items.now d }
    ensures { IfOk result (λ new. new.items ≡ others_from d items.now) }
{
    let i = place(items, d);
    let mut new = Vec::from_slice(alloc, &items[i + 1..])?;
    new.extend_from_slice(&items[..i])?;
    Ok(new)
}

// The items up to f, none where f is d.
fn row_up_to(alloc: Global, items: &[usize], d: usize, f: usize) -> Result<Vec<usize>, Memory>
    requires { f ≢ d → Contains items.now f }
    ensures { IfOk result (λ new. new.items ≡ row_of d f items.now) }
{
    let mut new = Vec::new(alloc);
    if f != d {
        let i = place(items, f);
        new.extend_from_slice(&items[..i])?;
        new.push(f)?;
    }
    Ok(new)
}

// The list of d, the new dart and the items behind f, all of them where f is d.
fn list_left(
    alloc: Global,
    items: &[usize],
    d: usize,
    f: usize,
    new_dart: usize,
) -> Result<CycList, Memory>
    requires { f ≢ d → Contains items.now f }
    ensures { IfOk result (λ list. list ≡ d ∷ new_dart ∷ left_of d f items.now) }
{
    let start = if f == d { 0 } else { place(items, f) + 1 };
    let mut new = Vec::new(alloc);
    new.push(d)?;
    new.push(new_dart)?;
    new.extend_from_slice(&items[start..])?;
    CycList::from_slice(alloc, new.as_slice())
}

// The list of the new dart and the row.
fn list_moved(alloc: Global, row: &[usize], new_dart: usize) -> Result<CycList, Memory>
    ensures { IfOk result (λ list. list ≡ new_dart ∷ row.now) }
{
    let mut new = Vec::new(alloc);
    new.push(new_dart)?;
    new.extend_from_slice(row)?;
    CycList::from_slice(alloc, new.as_slice())
}

// The darts of the row stand at vertex v.
fn move_row(at: &mut [usize], row: &[usize], v: usize)
    requires { (i : ℕ) → i < length row.now → slice_index row.now i < length at.old }
    ensures { IsMoved at.old row.now v (length row.now) at.new }
{
    for d in row {
        at[*d] = v;
    }
}

// The vertices at which the darts stand, the row at v, with the two new darts at w and v.
fn vertices_with_row(
    alloc: Global,
    at: &[usize],
    row: &[usize],
    w: usize,
    v: usize,
) -> Result<Vec<usize>, Memory>
    requires { (i : ℕ) → i < length row.now → slice_index row.now i < length at.now }
    ensures { IfOk result (λ new. HasMoved at.now row.now w v new.items) }
{
    let mut new = Vec::from_slice(alloc, at)?;
    move_row(new.as_mut_slice(), row, v);
    new.push(w)?;
    new.push(v)?;
    Ok(new)
}

// The lists with another one for w, and one more.
fn lists_with_row(
    alloc: Global,
    lists: &[CycList],
    w: usize,
    left: CycList,
    moved: CycList,
) -> Result<Vec<CycList>, Memory>
    requires { w < length lists.now }
    ensures { IfOk result (λ new. new.items ≡ set lists.now w left ++ moved ∷ []) }
{
    let mut new = copied_lists(alloc, lists)?;
    new[w] = left;
    new.push(moved)?;
    Ok(new)
}

// The vertices at which the darts stand and the lists, with the row of darts behind d up to f at a
// new vertex.
pub(crate) fn with_new_vertex(
    alloc: Global,
    at: &[usize],
    lists: &[CycList],
    d: usize,
    f: usize,
) -> Result<(Vec<usize>, Vec<CycList>), Memory>
    requires rotation { IsRotation (system_of at.now lists.now) }
    requires first { d < length at.now }
    requires second { f < length at.now }
    requires together { slice_index at.now f ≡ slice_index at.now d }
    ensures { IfOk result (λ new. system_of new.0.items new.1.items ≡ expanded (system_of at.now lists.now) d f) }
{
    let (w, x) = (at[d], at.len());
    let items = others(alloc, lists[w].items(), d)?;
    let row = row_up_to(alloc, items.as_slice(), d, f)?;
    let left = list_left(alloc, items.as_slice(), d, f, x)?;
    let moved = list_moved(alloc, row.as_slice(), x + 1)?;
    let new_at = vertices_with_row(alloc, at, row.as_slice(), w, lists.len())?;
    let new_lists = lists_with_row(alloc, lists, w, left, moved)?;
    Ok((new_at, new_lists))
}
