// The parts into which two poles divide a rotation system.
ghost use Rattle.std.specs.Prelude.{◌≡◌, ℕ, ◌+◌, ◌<◌, IfOk, false, length, slice_index, slice_index_or};
ghost use Rattle.cp_orbits.specs.Connected.{Connected};
ghost use Rattle.cp_conn.specs.Bonds.{IsBond};
ghost use Rattle.cp_conn.specs.Numbering.{AreNumbered};
ghost use Rattle.cp_rot.specs.Rewrites.{values};
ghost use Rattle.cp_rot.specs.Systems.{darts, edges};
ghost use Rattle.cp_rotlaw.specs.PoleClasses.{ArePoleParts, IsEnteredTest, dart_part, pairs_between};
ghost use Rattle.cp_rotlaw.specs.Poles.{graph_of};

use crate::star_parts::{ends_of, far_end};
use cp_base::{Graph, Memory};
use cp_conn::components_without;
use cp_rot::Rot;
use std::alloc::Global;

// For each vertex the number of its component where vertices `u` and `v` are removed.
fn numbers_between(alloc: Global, a: &Rot, u: usize, v: usize) -> Result<Vec<usize>, Memory>
    requires first { u < a.now.vertices }
    requires second { v < a.now.vertices }
    ensures { IfOk result (λ numbers. AreNumbered (Connected (pairs_between a.now u v)) a.now.vertices numbers.items) }
{
    let ends = ends_of(alloc, a)?;
    let graph = Graph::from_ends(alloc, a.vertices(), ends.as_slice())?;
    let mut removed = vec![in alloc; false; a.vertices()]?;
    removed[v] = true;
    removed[u] = true;
    components_without(alloc, &graph, removed.as_slice())
}

// The part of dart `d`.
fn part(a: &Rot, u: usize, v: usize, numbers: &[usize], d: usize) -> usize
    requires dart { d < darts a.now }
    requires size { length numbers.now ≡ a.now.vertices }
    ensures { result ≡ dart_part a.now u v numbers.now d }
{
    let (vertices, darts) = (a.vertices(), a.darts());
    prove!(d < darts);
    let (stand, far) = (a.at(d), far_end(a, d));
    if stand != u && stand != v {
        numbers[stand]
    } else if far != u && far != v {
        numbers[far]
    } else {
        vertices + d / 2
    }
}

// The parts of all darts, where `numbers` tells the components without the poles.
fn parts_by_number(
    alloc: Global,
    a: &Rot,
    u: usize,
    v: usize,
    numbers: &[usize],
) -> Result<Vec<usize>, Memory>
    requires { length numbers.now ≡ a.now.vertices }
    ensures { IfOk result (λ parts. parts.items ≡ values (darts a.now) (dart_part a.now u v numbers.now)) }
{
    let mut parts = Vec::new(alloc);
    for d in 0..a.darts() {
        parts.push(part(a, u, v, numbers, d))?;
    }
    Ok(parts)
}

// For each dart the number of its part, where the poles `u` and `v` are removed.
pub(crate) fn pole_parts(alloc: Global, a: &Rot, u: usize, v: usize) -> Result<Vec<usize>, Memory>
    requires first { u < a.now.vertices }
    requires second { v < a.now.vertices }
    requires bond { IsBond (graph_of a.now) u v }
    ensures size { IfOk result (λ parts. length parts.items ≡ darts a.now) }
    ensures within { IfOk result (λ parts. (d : ℕ) → d < darts a.now
        → slice_index parts.items d < a.now.vertices + edges a.now) }
    ensures parts { IfOk result (λ parts. (number : ℕ → ℕ) × ArePoleParts a.now u v number (slice_index parts.items)) }
{
    a.is_rotation();
    let numbers = numbers_between(alloc, a, u, v)?;
    parts_by_number(alloc, a, u, v, numbers.as_slice())
}

// For each part whether a dart of vertex `u` enters it.
pub(crate) fn entered_marks(
    alloc: Global,
    a: &Rot,
    u: usize,
    parts: &[usize],
) -> Result<Vec<bool>, Memory>
    requires vertex { u < a.now.vertices }
    requires size { length parts.now ≡ darts a.now }
    requires within { (d : ℕ) → d < darts a.now → slice_index parts.now d < a.now.vertices + edges a.now }
    ensures size { IfOk result (λ marks. length marks.items ≡ a.now.vertices + edges a.now) }
    ensures entered { IfOk result (λ marks.
        IsEnteredTest a.now u (slice_index parts.now) (λ c. slice_index_or marks.items c false)) }
{
    let (vertices, darts) = (a.vertices(), a.darts());
    let mut marks = vec![in alloc; false; vertices + darts / 2]?;
    for d in a.list(u).items() {
        prove!(*d < darts);
        let part = parts[*d];
        prove!(part < vertices + darts / 2);
        marks[part] = true;
    }
    Ok(marks)
}
