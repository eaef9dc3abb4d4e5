// The components that the edges of a vertex enter once it is removed, numbered by their least edges.
ghost use Rattle.std.specs.Prelude.{◌≡◌, ℕ, ◌+◌, ◌*◌, ◌<◌, ◌≤◌, ◌^◌, length, map, slice_index, IfOk};
ghost use Rattle.cp_base.specs.Graphs.{AreWithin};
ghost use Rattle.cp_orbits.specs.Connected.{Connected};
ghost use Rattle.cp_conn.specs.CutVertex.{without_vertex};
ghost use Rattle.cp_conn.specs.Numbering.{AreNumbered};
ghost use Rattle.cp_rot.specs.Systems.{darts, vertex_of};
ghost use Rattle.cp_faces.specs.Twins.{twin};
ghost use Rattle.cp_rot.specs.Genus.{end_pairs};
ghost use Rattle.cp_rot.specs.Tables.{stands_at};
ghost use Rattle.cp_rotlaw.specs.Systems.{HasNoLoopAt};
ghost use Rattle.cp_rotlaw.specs.StarParts.{far_key, ArePlaced, AreEntered};

use crate::systems::other_dart;
use cp_base::{Graph, Memory};
use cp_conn::components_without;
use cp_rot::Rot;
use std::alloc::Global;

// The vertex at the other end of dart `d`.
pub(crate) fn far_end(a: &Rot, d: usize) -> usize
    requires { d < darts a.now }
    ensures value { result ≡ vertex_of a.now (twin d) }
    ensures within { result < a.now.vertices }
{
    prove!(d < a.darts());
    a.at(other_dart(d))
}

// The two ends of each edge.
pub(crate) fn ends_of(alloc: Global, a: &Rot) -> Result<Vec<(usize, usize)>, Memory>
    ensures { IfOk result (λ ends. ends.items ≡ end_pairs a.now.at) }
{
    let mut ends = Vec::new(alloc);
    for e in 0..a.darts() / 2 {
        ends.push((a.at(2 * e), a.at(2 * e + 1)))?;
    }
    Ok(ends)
}

// For each vertex the number of its component where vertex `u` is removed.
fn numbers_without(alloc: Global, a: &Rot, u: usize) -> Result<Vec<usize>, Memory>
    requires { u < a.now.vertices }
    ensures { IfOk result (λ numbers. AreNumbered (Connected (without_vertex u (end_pairs a.now.at))) a.now.vertices numbers.items) }
{
    let ends = ends_of(alloc, a)?;
    let graph = Graph::from_ends(alloc, a.vertices(), ends.as_slice())?;
    let mut removed = vec![in alloc; false; a.vertices()]?;
    removed[u] = true;
    components_without(alloc, &graph, removed.as_slice())
}

// For each component one more than the number of its part, 0 where no edge of vertex `u` enters it;
// and the number of parts. `numbers` tells for each vertex the number of its component.
fn places_of(
    alloc: Global,
    a: &Rot,
    u: usize,
    numbers: &[usize],
) -> Result<(Vec<usize>, usize), Memory>
    requires size { length numbers.now ≡ a.now.vertices }
    requires within { (x : ℕ) → x < length numbers.now → slice_index numbers.now x < length numbers.now }
    ensures { IfOk result (λ found. ArePlaced (stands_at a.now.at u) (far_key a.now numbers.now) (length numbers.now) (darts a.now) found.0.items found.1) }
{
    let mut places = vec![in alloc; 0; numbers.len()]?;
    let mut parts = 0;
    for d in 0..a.darts() {
        if a.at(d) == u {
            let component = numbers[far_end(a, d)];
            if places[component] == 0 {
                parts += 1;
                places[component] = parts;
            }
        }
    }
    Ok((places, parts))
}

// What `places` tells for each number.
fn looked_up(alloc: Global, places: &[usize], numbers: &[usize]) -> Result<Vec<usize>, Memory>
    requires { (x : ℕ) → x < length numbers.now → slice_index numbers.now x < length places.now }
    ensures { IfOk result (λ told. told.items ≡ map (slice_index places.now) numbers.now) }
{
    let mut told = Vec::new(alloc);
    for number in numbers {
        told.push(places[*number])?;
    }
    Ok(told)
}

// For each vertex one more than the number of its part, 0 where it is in none, and the number of
// parts: the parts are the components that an edge of vertex `u` enters once `u` is removed, by the
// least of these edges.
pub(crate) fn entered_parts(alloc: Global, a: &Rot, u: usize) -> Result<(Vec<usize>, usize), Memory>
    requires vertex { u < a.now.vertices }
    requires no_loop { HasNoLoopAt a.now u }
    ensures { IfOk result (λ found. AreEntered a.now u found.1 found.0.items) }
{
    let numbers = numbers_without(alloc, a, u)?;
    let (places, parts) = places_of(alloc, a, u, numbers.as_slice())?;
    let entered = looked_up(alloc, places.as_slice(), numbers.as_slice())?;
    prove!(entered.len() == a.vertices());
    Ok((entered, parts))
}
