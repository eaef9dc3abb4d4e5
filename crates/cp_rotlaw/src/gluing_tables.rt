// The tables of two rotation systems that are glued.
ghost use Rattle.std.specs.Prelude.{◌≡◌, ◌≢◌, ℕ, ◌+◌, ◌-◌, ◌*◌, ◌/◌, ◌^◌, ◌<◌, ◌≤◌, ◌↔◌, IfOk, IsTrue, length, map, slice_index, slice_index_or};
ghost use Rattle.cp_lists.specs.Count.{count};
ghost use Rattle.cp_faces.specs.Faces.{on_edges};
ghost use Rattle.cp_rot.specs.Systems.{darts, edges, vertex_of, list_of};
ghost use Rattle.cp_faces.specs.Twins.{twin};
ghost use Rattle.cp_rot.specs.Rewrites.{values};
ghost use Rattle.cp_rotlaw.specs.Systems.{is_other};
ghost use Rattle.cp_rotlaw.specs.Glue.{edge_avoids};
ghost use Rattle.cp_rotlaw.specs.GlueTables.{old_vertex, glued_list};

use crate::systems::other_dart;
use cp_base::{CycList, Memory};
use cp_rot::Rot;
use std::alloc::Global;

// The number of vertex v, where u is left out.
pub(crate) fn without_vertex(u: usize, v: usize) -> usize
    ensures { result ≡ count v (is_other u) }
{
    if u < v { v - 1 } else { v }
}

// The vertex that has number x, where u is left out.
fn vertex_numbered(u: usize, x: usize) -> usize
    requires { x < 2 ^ 62 }
    ensures { result ≡ old_vertex u x }
{
    if x < u { x } else { x + 1 }
}

// Whether edge e of b does not end at w.
fn avoids(b: &Rot, w: usize, e: usize) -> bool
    requires { e < edges b.now }
    ensures { result ≡ edge_avoids b.now w e }
{
    b.is_rotation();
    let (source, target) = (b.at(2 * e), b.at(2 * e + 1));
    source != w && target != w
}

// For each edge of b, and behind all, how many edges in front of it do not end at w.
pub(crate) fn kept_before(alloc: Global, b: &Rot, w: usize) -> Result<Vec<usize>, Memory>
    ensures { IfOk result (λ kept. kept.items ≡ values (edges b.now + 1) (λ e. count e (edge_avoids b.now w))) }
{
    let mut kept = Vec::new(alloc);
    let mut number = 0;
    for e in 0..b.darts() / 2 {
        kept.push(number)?;
        if avoids(b, w, e) {
            number += 1;
        }
    }
    kept.push(number)?;
    Ok(kept)
}

// For each dart its number behind `start`, where edge e has the number `kept[e]`.
pub(crate) fn numbers_from(
    alloc: Global,
    start: usize,
    darts: usize,
    kept: &[usize],
) -> Result<Vec<usize>, Memory>
    requires start { start < 2 ^ 60 }
    requires size { darts ≤ 2 * length kept.now }
    requires bound { (e : ℕ) → e < length kept.now → slice_index kept.now e < 2 ^ 60 }
    ensures { IfOk result (λ numbers. numbers.items ≡ values darts (λ d. start + on_edges (slice_index kept.now) d)) }
{
    let mut numbers = Vec::new(alloc);
    for d in 0..darts {
        numbers.push(start + (2 * kept[d / 2] + d % 2))?;
    }
    Ok(numbers)
}

// Writes the first of each pair in the place of the twin of the second.
pub(crate) fn write_partners(numbers: &mut [usize], pairs: &[(usize, usize)])
    requires bound { length numbers.old < 2 ^ 60 }
    requires even { length numbers.old ≡ 2 * (length numbers.old / 2) }
    requires within { (i : ℕ) → i < length pairs.now → (slice_index_or pairs.now i (0, 0)).1 < length numbers.old }
    requires distinct { (i j : ℕ) → i < length pairs.now → j < length pairs.now → (slice_index_or pairs.now i (0, 0)).1 ≡ (slice_index_or pairs.now j (0, 0)).1 → i ≡ j }
    ensures size { length numbers.new ≡ length numbers.old }
    ensures written { (i : ℕ) → i < length pairs.now → slice_index numbers.new (twin (slice_index_or pairs.now i (0, 0)).1) ≡ (slice_index_or pairs.now i (0, 0)).0 }
    ensures others { (d : ℕ) → ((i : ℕ) → i < length pairs.now → twin (slice_index_or pairs.now i (0, 0)).1 ≢ d) → slice_index numbers.new d ≡ slice_index numbers.old d }
{
    for i in 0..pairs.len() {
        let (x, y) = pairs[i];
        let place = other_dart(y);
        numbers[place] = x;
    }
}

// Writes at which vertices the darts of a stand, where u is left out.
pub(crate) fn write_first(at: &mut [usize], a: &Rot, u: usize)
    requires { darts a.now ≤ length at.old }
    ensures size { length at.new ≡ length at.old }
    ensures written { (d : ℕ) → d < darts a.now → slice_index at.new d ≡ count (vertex_of a.now d) (is_other u) }
{
    for d in 0..a.darts() {
        at[d] = without_vertex(u, a.at(d));
    }
}

// Writes at which vertices the darts of b stand that do not stand at w, each at its new number.
pub(crate) fn write_second(at: &mut [usize], b: &Rot, w: usize, numbers: &[usize], start: usize)
    requires start { start < 2 ^ 60 }
    requires size { darts b.now ≡ length numbers.now }
    requires within { (d : ℕ) → d < darts b.now → vertex_of b.now d ≢ w → slice_index numbers.now d < length at.old }
    requires distinct { (d f : ℕ) → d < darts b.now → f < darts b.now → vertex_of b.now d ≢ w → vertex_of b.now f ≢ w → slice_index numbers.now d ≡ slice_index numbers.now f → d ≡ f }
    ensures size { length at.new ≡ length at.old }
    ensures written { (d : ℕ) → d < darts b.now → vertex_of b.now d ≢ w → slice_index at.new (slice_index numbers.now d) ≡ start + count (vertex_of b.now d) (is_other w) }
    ensures others { (x : ℕ) → ((d : ℕ) → d < darts b.now → vertex_of b.now d ≢ w → slice_index numbers.now d ≢ x) → slice_index at.new x ≡ slice_index at.old x }
{
    b.is_rotation();
    for d in 0..b.darts() {
        let v = b.at(d);
        if v != w {
            at[numbers[d]] = start + without_vertex(w, v);
        }
    }
}

// The new numbers of the items.
fn numbered_items(alloc: Global, items: &[usize], numbers: &[usize]) -> Result<CycList, Memory>
    requires { (i : ℕ) → i < length items.now → slice_index items.now i < length numbers.now }
    ensures { IfOk result (λ list. list ≡ map (slice_index numbers.now) items.now) }
{
    let mut new = Vec::new(alloc);
    for i in 0..items.len() {
        new.push(numbers[items[i]])?;
    }
    CycList::from_slice(alloc, new.as_slice())
}

// List x of the result: one of a but that of u, or one of b but that of w with new numbers.
fn list_glued(
    alloc: Global,
    a: &Rot,
    u: usize,
    b: &Rot,
    w: usize,
    numbers: &[usize],
    x: usize,
) -> Result<CycList, Memory>
    requires first { u < a.now.vertices }
    requires second { w < b.now.vertices }
    requires size { darts b.now ≡ length numbers.now }
    requires vertex { x + 2 < a.now.vertices + b.now.vertices }
    ensures { IfOk result (λ list. list ≡ glued_list a.now u b.now w (slice_index numbers.now) x) }
{
    let first = a.vertices() - 1;
    b.is_rotation();
    if x < first {
        CycList::from_slice(alloc, a.list(vertex_numbered(u, x)).items())
    } else {
        numbered_items(
            alloc,
            b.list(vertex_numbered(w, x - first)).items(),
            numbers,
        )
    }
}

// All lists of the result.
pub(crate) fn lists_glued(
    alloc: Global,
    a: &Rot,
    u: usize,
    b: &Rot,
    w: usize,
    numbers: &[usize],
) -> Result<Vec<CycList>, Memory>
    requires first { u < a.now.vertices }
    requires second { w < b.now.vertices }
    requires size { darts b.now ≡ length numbers.now }
    ensures { IfOk result (λ lists. lists.items ≡ values (a.now.vertices + b.now.vertices - 2) (glued_list a.now u b.now w (slice_index numbers.now))) }
{
    let mut lists = Vec::new(alloc);
    for x in 0..a.vertices() + b.vertices() - 2 {
        lists.push(list_glued(alloc, a, u, b, w, numbers, x)?)?;
    }
    Ok(lists)
}
