// The darts and lists of a vertex that is split into parts.
ghost use Rattle.std.specs.Prelude.{◌≡◌, ℕ, ◌+◌, ◌-◌, ◌<◌, ◌≤◌, ◌^◌, List, [], length, slice_index, slice_index_or, IfOk};
ghost use Rattle.cp_rot.specs.Systems.{darts, vertex_of, list_of};
ghost use Rattle.cp_rot.specs.Rewrites.{values};
ghost use Rattle.cp_rotlaw.specs.StarParts.{AreEntered, part_of, star_at, AreRows, star_list};

use crate::star_parts::far_end;
use cp_base::{CycList, Items, Memory};
use cp_rot::Rot;
use std::alloc::Global;

// The number of the part of dart `d`.
fn part(a: &Rot, entered: &[usize], d: usize) -> usize
    requires dart { d < darts a.now }
    requires size { length entered.now ≡ a.now.vertices }
    ensures { result ≡ part_of a.now entered.now d }
{
    entered[far_end(a, d)].saturating_sub(1)
}

// The vertex at which dart `d` stands, where vertex `u` is split.
fn new_vertex(a: &Rot, u: usize, entered: &[usize], d: usize) -> usize
    requires dart { d < darts a.now }
    requires size { length entered.now ≡ a.now.vertices }
    requires few { (x : ℕ) → slice_index entered.now x ≤ darts a.now }
    ensures { result ≡ star_at a.now u (part_of a.now entered.now) d }
{
    let (vertices, darts) = (a.vertices(), a.darts());
    if a.at(d) != u {
        return a.at(d);
    }
    let i = part(a, entered, d);
    prove!(i <= darts);
    if i == 0 { u } else { vertices + (i - 1) }
}

// The vertices at which the darts stand, where vertex `u` is split.
pub(crate) fn star_vertices(
    alloc: Global,
    a: &Rot,
    u: usize,
    entered: &[usize],
) -> Result<Vec<usize>, Memory>
    requires size { length entered.now ≡ a.now.vertices }
    requires few { (x : ℕ) → slice_index entered.now x ≤ darts a.now }
    ensures { IfOk result (λ at. at.items ≡ values (darts a.now) (star_at a.now u (part_of a.now entered.now))) }
{
    let mut at = Vec::new(alloc);
    for d in 0..a.darts() {
        at.push(new_vertex(a, u, entered, d))?;
    }
    Ok(at)
}

// A number of empty rows.
pub(crate) fn empty_rows(alloc: Global, parts: usize) -> Result<Vec<Items<usize>>, Memory>
    ensures size { IfOk result (λ rows. length rows.items ≡ parts) }
    ensures empty { IfOk result (λ rows. (i : ℕ) → slice_index_or rows.items i [] ≡ []) }
{
    let mut rows = Vec::new(alloc);
    for _i in 0..parts {
        rows.push(Items::new(alloc))?;
    }
    Ok(rows)
}

// The darts of vertex `u`, in one row for each part, in the order that they have round it.
pub(crate) fn star_rows(
    alloc: Global,
    a: &Rot,
    u: usize,
    entered: &[usize],
    parts: usize,
) -> Result<Vec<Items<usize>>, Memory>
    requires vertex { u < a.now.vertices }
    requires entered { AreEntered a.now u parts entered.now }
    ensures { IfOk result (λ rows. AreRows (part_of a.now entered.now) (list_of a.now u) parts rows.items) }
{
    let mut rows = empty_rows(alloc, parts)?;
    for d in a.list(u).items() {
        prove!(*d < a.darts());
        let i = part(a, entered, *d);
        rows[i].push(*d)?;
    }
    Ok(rows)
}

// The list of vertex `v`, where vertex `u` is split into parts with these rows.
fn new_list(
    alloc: Global,
    a: &Rot,
    u: usize,
    rows: &[Items<usize>],
    v: usize,
) -> Result<CycList, Memory>
    requires some { 0 < length rows.now }
    requires vertex { v + 1 < a.now.vertices + length rows.now }
    ensures { IfOk result (λ list. list ≡ star_list a.now u rows.now v) }
{
    if v == u {
        CycList::from_slice(alloc, rows[0].items())
    } else if v < a.vertices() {
        CycList::from_slice(alloc, a.list(v).items())
    } else {
        CycList::from_slice(alloc, rows[v + 1 - a.vertices()].items())
    }
}

// The lists, where vertex `u` is split into parts with these rows.
pub(crate) fn star_lists(
    alloc: Global,
    a: &Rot,
    u: usize,
    rows: &[Items<usize>],
) -> Result<Vec<CycList>, Memory>
    requires some { 0 < length rows.now }
    ensures { IfOk result (λ lists. lists.items ≡ values (a.now.vertices + (length rows.now - 1)) (star_list a.now u rows.now)) }
{
    let mut lists = Vec::new(alloc);
    for v in 0..a.vertices() + (rows.len() - 1) {
        lists.push(new_list(alloc, a, u, rows, v)?)?;
    }
    Ok(lists)
}
