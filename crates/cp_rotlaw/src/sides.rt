// The vertices of one side of a bipartite rotation system made one.
ghost use Rattle.std.specs.Prelude.{◌≡◌, ◌+◌, ◌<◌, ◌≤◌, ◌++◌, ℕ, IfOk, MatchOption, false, length, set, slice_index, slice_index_or, true};
ghost use Rattle.cp_lists.specs.CyclicLists.{Has};
ghost use Rattle.cp_faces.specs.Twins.{twin};
ghost use Rattle.cp_rot.specs.Genus.{HasGenusZero};
ghost use Rattle.cp_rot.specs.Systems.{darts, next, vertex_of};
ghost use Rattle.cp_rotlaw.specs.SideOrders.{IsSideOf, IsSideOrder};
ghost use Rattle.cp_rotlaw.specs.SideStates.{IsCorner, IsMerged, IsMerging, NoneLeft, turned_at, vertices_left};

use crate::dipole::edges_of;
use crate::star_parts::far_end;
use crate::systems::other_dart;
use cp_base::{CycList, Memory};
use cp_rot::Rot;
use std::alloc::Global;

// The place of an item.
fn place(items: &[usize], d: usize) -> usize
    requires { Has d items.now }
    ensures within { result < length items.now }
    ensures found { slice_index items.now result ≡ d }
{
    for i in 0..items.len() {
        if items[i] == d {
            return i;
        }
    }
    0
}

// The items of the first list from place `i` on and around, and those of the second from place `j` on.
fn turned_pair(
    alloc: Global,
    first: &[usize],
    i: usize,
    second: &[usize],
    j: usize,
) -> Result<Vec<usize>, Memory>
    requires first { i ≤ length first.now }
    requires second { j ≤ length second.now }
    ensures { IfOk result (λ pair. pair.items ≡ turned_at i first.now ++ turned_at j second.now) }
{
    let mut pair = Vec::from_slice(alloc, &first[i..])?;
    pair.extend_from_slice(&first[..i])?;
    pair.extend_from_slice(&second[j..])?;
    pair.extend_from_slice(&second[..j])?;
    Ok(pair)
}

// Whether dart `x` is a corner.
fn is_corner(a: &Rot, side: &[bool], merged: &[bool], x: usize) -> bool
    requires sides { IsSideOf a.now side.now }
    requires size { length merged.now ≡ a.now.vertices }
    requires dart { x < darts a.now }
    ensures yes { result ≡ true → IsCorner a.now side.now merged.now x }
    ensures no { result ≡ false → IsCorner a.now side.now merged.now x → ⊥ }
{
    a.is_rotation();
    let behind = a.next(x);
    !side[a.at(x)] && merged[far_end(a, x)] && !merged[far_end(a, behind)]
}

// The first corner.
fn corner(a: &Rot, side: &[bool], merged: &[bool]) -> Option<usize>
    requires sides { IsSideOf a.now side.now }
    requires size { length merged.now ≡ a.now.vertices }
    ensures { MatchOption result
        ((x : ℕ) → IsCorner a.now side.now merged.now x → ⊥)
        (λ x. IsCorner a.now side.now merged.now x) }
{
    for x in 0..a.darts() {
        if is_corner(a, side, merged, x) {
            return Some(x);
        }
    }
    None
}

// The first vertex of the side that is not merged.
fn first_left(a: &Rot, side: &[bool], merged: &[bool]) -> Option<usize>
    requires sides { IsSideOf a.now side.now }
    requires size { length merged.now ≡ a.now.vertices }
    ensures { MatchOption result
        (NoneLeft a.now side.now merged.now)
        (λ w. Has w (vertices_left a.now side.now merged.now)) }
{
    for w in 0..a.vertices() {
        if side[w] && !merged[w] {
            return Some(w);
        }
    }
    None
}

// The list with that of one vertex more, merged at a corner.
fn merged_at_corner(
    alloc: Global,
    a: &Rot,
    side: &[bool],
    merged: &[bool],
    row: &[usize],
    x: usize,
) -> Result<Vec<usize>, Memory>
    requires sides { IsSideOf a.now side.now }
    requires state { IsMerging a.now side.now merged.now row.now }
    requires corner { IsCorner a.now side.now merged.now x }
    ensures { IfOk result (λ more.
        IsMerging a.now side.now (set merged.now (vertex_of a.now (twin (next a.now x))) true) more.items) }
{
    a.is_rotation();
    let twin = other_dart(a.next(x));
    let list = a.list(a.at(twin)).items();
    turned_pair(
        alloc,
        row,
        place(row, other_dart(x)),
        list,
        place(list, twin) + 1,
    )
}

// One vertex more of the side, and the list with that of this vertex; none where all are merged.
fn next_merge(
    alloc: Global,
    a: &Rot,
    side: &[bool],
    merged: &[bool],
    row: &[usize],
) -> Result<Option<(usize, Vec<usize>)>, Memory>
    requires sides { IsSideOf a.now side.now }
    requires state { IsMerging a.now side.now merged.now row.now }
    ensures { IfOk result (λ found. MatchOption found
        (NoneLeft a.now side.now merged.now)
        (λ more. Has more.0 (vertices_left a.now side.now merged.now)
        × IsMerging a.now side.now (set merged.now more.0 true) more.1.items)) }
{
    a.is_rotation();
    if let Some(x) = corner(a, side, merged) {
        let w = far_end(a, a.next(x));
        let more = merged_at_corner(alloc, a, side, merged, row, x)?;
        return Ok(Some((w, more)));
    }
    match first_left(a, side, merged) {
        None => Ok(None),
        Some(w) => {
            let more = turned_pair(alloc, row, 0, a.list(w).items(), 0)?;
            Ok(Some((w, more)))
        }
    }
}

// The darts of all vertices of the side, merged one after the other.
fn merged_row(alloc: Global, a: &Rot, side: &[bool]) -> Result<Vec<usize>, Memory>
    requires { IsSideOf a.now side.now }
    ensures { IfOk result (λ row. IsMerged a.now side.now row.items) }
{
    let vertices = a.vertices();
    let mut merged = vec![in alloc; false; vertices]?;
    let mut row = Vec::new(alloc);
    for _k in 0..vertices {
        match next_merge(alloc, a, side, merged.as_slice(), row.as_slice())? {
            None => return Ok(row),
            Some((w, more)) => {
                merged[w] = true;
                row = more;
            }
        }
    }
    Ok(row)
}

/// One cyclic order of all edges of a bipartite system of genus zero: with it the vertices of the side
/// can be made one vertex. The genus stays zero, the order restricted to a vertex of the side is its
/// list, its reverse restricted to another vertex is the list of that one, and on neither side two of
/// the lists cross in it. One walk over the darts for each vertex of the side.
pub fn merge_side(alloc: Global, a: &Rot, side: &[bool]) -> Result<CycList, Memory>
    requires plane { HasGenusZero a.now }
    requires sides { IsSideOf a.now side.now }
    ensures { IfOk result (λ order. IsSideOrder a.now side.now order) }
{
    a.is_rotation();
    let row = merged_row(alloc, a, side)?;
    edges_of(alloc, row.as_slice())
}
