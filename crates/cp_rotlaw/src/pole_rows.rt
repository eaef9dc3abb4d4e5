// The darts of a pole put together by parts.
ghost use Rattle.std.specs.Prelude.{◌≡◌, ◌≢◌, ℕ, ◌+◌, ◌<◌, ◌≤◌, All, Bool, IfOk, [], false, length, not, slice_index, slice_index_or};
ghost use Rattle.std.specs.List.{filter};
ghost use Rattle.cp_lists.specs.CyclicLists.{Has};
ghost use Rattle.cp_lists.specs.Turns.{IsTurn};
ghost use Rattle.cp_conn.specs.Bonds.{IsBond};
ghost use Rattle.cp_rot.specs.Rewrites.{values};
ghost use Rattle.cp_rot.specs.Systems.{Arranges, darts, edges, list_of};
ghost use Rattle.cp_rotlaw.specs.PoleClasses.{HasEndsApart, IsPermutedRow, joined_rows, permuted_list};
ghost use Rattle.cp_rotlaw.specs.Poles.{graph_of};
ghost use Rattle.cp_rotlaw.specs.StarParts.{AreRows};

use crate::pole_parts::{entered_marks, pole_parts};
use crate::star_lists::empty_rows;
use cp_base::{CycList, Items, Memory};
use cp_rot::Rot;
use std::alloc::Global;

// The items whose part is marked, or those whose part is not, in their order.
fn marked_items(
    alloc: Global,
    items: &[usize],
    parts: &[usize],
    marks: &[bool],
) -> Result<Vec<usize>, Memory>
    requires items { All (λ d. d < length parts.now) items.now }
    requires parts { All (λ d. slice_index parts.now d < length marks.now) items.now }
    ensures { IfOk result (λ kept. kept.items ≡ filter (λ d. slice_index_or marks.now (slice_index parts.now d) false) items.now) }
{
    let mut kept = Vec::new(alloc);
    for d in items {
        if marks[parts[*d]] {
            kept.push(*d)?;
        }
    }
    Ok(kept)
}

// The items whose part is not marked, in their order.
fn unmarked_items(
    alloc: Global,
    items: &[usize],
    parts: &[usize],
    marks: &[bool],
) -> Result<Vec<usize>, Memory>
    requires items { All (λ d. d < length parts.now) items.now }
    requires parts { All (λ d. slice_index parts.now d < length marks.now) items.now }
    ensures { IfOk result (λ kept. kept.items ≡ filter (λ d. not (slice_index_or marks.now (slice_index parts.now d) false)) items.now) }
{
    let mut kept = Vec::new(alloc);
    for d in items {
        if !marks[parts[*d]] {
            kept.push(*d)?;
        }
    }
    Ok(kept)
}

// The place of the first item of another part than the first one, or their number.
fn first_of_other_part(items: &[usize], parts: &[usize]) -> usize
    requires { All (λ d. d < length parts.now) items.now }
    ensures within { result ≤ length items.now }
    ensures before { (i : ℕ) → i < result
        → slice_index parts.now (slice_index items.now i) ≡ slice_index parts.now (slice_index items.now 0) }
    ensures apart { result < length items.now
        → slice_index parts.now (slice_index items.now result) ≢ slice_index parts.now (slice_index items.now 0) }
{
    for i in 0..items.len() {
        if parts[items[i]] != parts[items[0]] {
            return i;
        }
    }
    items.len()
}

// The items turned so that the first and the last are of two parts, where there are two.
fn turned_to_other_part(
    alloc: Global,
    items: &[usize],
    parts: &[usize],
) -> Result<Vec<usize>, Memory>
    requires { All (λ d. d < length parts.now) items.now }
    ensures turn { IfOk result (λ turned. IsTurn items.now turned.items) }
    ensures ends { IfOk result (λ turned. (d f : ℕ) → Has d items.now → Has f items.now
        → slice_index parts.now d ≢ slice_index parts.now f
        → HasEndsApart (slice_index parts.now) turned.items) }
{
    let place = first_of_other_part(items, parts);
    let mut turned = Vec::from_slice(alloc, &items[place..])?;
    turned.extend_from_slice(&items[..place])?;
    Ok(turned)
}

// The items in one row for each of `count` parts, in their order.
fn rows_by_part(
    alloc: Global,
    items: &[usize],
    parts: &[usize],
    count: usize,
) -> Result<Vec<Items<usize>>, Memory>
    requires items { All (λ d. d < length parts.now) items.now }
    requires parts { All (λ d. slice_index parts.now d < count) items.now }
    ensures { IfOk result (λ rows. AreRows (slice_index parts.now) items.now count rows.items) }
{
    let mut rows = empty_rows(alloc, count)?;
    for d in items {
        rows[parts[*d]].push(*d)?;
    }
    Ok(rows)
}

// Behind the free items the others in one row for each part: first those of the part of the last dart
// of the order.
fn joined_by_part(
    alloc: Global,
    free: &[usize],
    items: &[usize],
    parts: &[usize],
    count: usize,
    order: &[usize],
) -> Result<Vec<usize>, Memory>
    requires items { All (λ d. d < length parts.now) items.now }
    requires parts { All (λ d. slice_index parts.now d < count) items.now }
    requires order { All (λ d. d < length parts.now) order.now }
    requires order_parts { All (λ d. slice_index parts.now d < count) order.now }
    ensures { IfOk result (λ row. row.items ≡ joined_rows (slice_index parts.now) free.now items.now order.now) }
{
    let rows = rows_by_part(alloc, items, parts, count)?;
    let mut row = Vec::from_slice(alloc, free)?;
    for i in 0..order.len() {
        let x = order[order.len() - 1 - i];
        row.extend_from_slice(rows[parts[x]].items())?;
    }
    Ok(row)
}

// The list of the pole `v` where the pole `u` has the order.
pub(crate) fn permuted_row(
    alloc: Global,
    a: &Rot,
    u: usize,
    v: usize,
    order: &[usize],
) -> Result<Vec<usize>, Memory>
    requires first { u < a.now.vertices }
    requires second { v < a.now.vertices }
    requires bond { IsBond (graph_of a.now) u v }
    requires arranged { Arranges a.now.at u order.now }
    requires many { 1 < length order.now }
    ensures { IfOk result (λ row. IsPermutedRow a.now u v order.now row.items) }
{
    a.is_rotation();
    let parts = pole_parts(alloc, a, u, v)?;
    let marks = entered_marks(alloc, a, u, parts.as_slice())?;
    let (parts, marks) = (parts.as_slice(), marks.as_slice());
    let items = a.list(v).items();
    let held = marked_items(alloc, items, parts, marks)?;
    let free = unmarked_items(alloc, items, parts, marks)?;
    let turned = turned_to_other_part(alloc, held.as_slice(), parts)?;
    joined_by_part(
        alloc,
        free.as_slice(),
        turned.as_slice(),
        parts,
        marks.len(),
        order,
    )
}

// The list of vertex `w`, where the pole `u` has the order and the pole `v` the row.
fn list_with(
    alloc: Global,
    a: &Rot,
    u: usize,
    v: usize,
    order: &[usize],
    row: &[usize],
    w: usize,
) -> Result<CycList, Memory>
    requires { w < a.now.vertices }
    ensures { IfOk result (λ list. list ≡ permuted_list a.now u v order.now row.now w) }
{
    if w == u {
        CycList::from_slice(alloc, order)
    } else if w == v {
        CycList::from_slice(alloc, row)
    } else {
        CycList::from_slice(alloc, a.list(w).items())
    }
}

// The lists, where the pole `u` has the order and the pole `v` the row.
pub(crate) fn permuted_lists(
    alloc: Global,
    a: &Rot,
    u: usize,
    v: usize,
    order: &[usize],
    row: &[usize],
) -> Result<Vec<CycList>, Memory>
    ensures { IfOk result (λ lists. lists.items ≡ values a.now.vertices (permuted_list a.now u v order.now row.now)) }
{
    let mut lists = Vec::new(alloc);
    for w in 0..a.vertices() {
        lists.push(list_with(alloc, a, u, v, order, row, w)?)?;
    }
    Ok(lists)
}
