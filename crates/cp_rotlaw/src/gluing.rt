// Two rotation systems glued at a vertex of each.
ghost use Rattle.std.specs.Prelude.{◌≡◌, ◌≢◌, ℕ, ◌+◌, ◌*◌, ◌/◌, ◌<◌, ◌≤◌, ◌==◌, IfOk, List, length, map, slice_index};
ghost use Rattle.cp_lists.specs.Count.{Exactly};
ghost use Rattle.cp_rot.specs.Systems.{IsRotation, darts, edges, vertex_of};
ghost use Rattle.cp_rot.specs.Genus.{HasGenusZero};
ghost use Rattle.cp_rot.specs.Tables.{system_of};
ghost use Rattle.cp_rotlaw.specs.Systems.{HasNoLoopAt};
ghost use Rattle.cp_rotlaw.specs.Glue.{ArePartners, AreReversed, IsGlued, first_vertex, second_vertex};
ghost use Rattle.cp_rotlaw.specs.GlueTables.{AreNumbers};

use crate::gluing_tables::{
    kept_before, lists_glued, numbers_from, write_first, write_partners, write_second,
};
use cp_base::{CycList, Memory};
use cp_rot::Rot;
use std::alloc::Global;

// The number that each dart of b gets which does not stand at w, and how many edges of b are kept.
fn dart_numbers(
    alloc: Global,
    a: &Rot,
    b: &Rot,
    w: usize,
    pairs: &[(usize, usize)],
) -> Result<(Vec<usize>, usize), Memory>
    requires { Exactly (darts b.now) (λ d. vertex_of b.now d == w) (map (λ pair. pair.1) pairs.now) }
    ensures { IfOk result (λ told. AreNumbers a.now b.now w pairs.now told.0.items told.1) }
{
    let (first, second) = (a.darts(), b.darts());
    let kept = kept_before(alloc, b, w)?;
    let mut numbers = numbers_from(alloc, first, second, kept.as_slice())?;
    write_partners(numbers.as_mut_slice(), pairs);
    let count = kept[second / 2];
    Ok((numbers, count))
}

// At which vertices the darts of the result stand: where a dart of b has the number of one of a, at the
// vertex of the dart of b.
fn vertices_glued(
    alloc: Global,
    a: &Rot,
    u: usize,
    b: &Rot,
    w: usize,
    numbers: &[usize],
    kept: usize,
) -> Result<Vec<usize>, Memory>
    requires first_vertex { u < a.now.vertices }
    requires kept { kept ≤ edges b.now }
    requires size { darts b.now ≡ length numbers.now }
    requires within { (d : ℕ) → d < darts b.now → vertex_of b.now d ≢ w → slice_index numbers.now d < darts a.now + 2 * kept }
    requires distinct { (d f : ℕ) → d < darts b.now → f < darts b.now → vertex_of b.now d ≢ w → vertex_of b.now f ≢ w → slice_index numbers.now d ≡ slice_index numbers.now f → d ≡ f }
    ensures size { IfOk result (λ at. length at.items ≡ darts a.now + 2 * kept) }
    ensures first { IfOk result (λ at. (x : ℕ) → x < darts a.now
        → ((d : ℕ) → d < darts b.now → vertex_of b.now d ≢ w → slice_index numbers.now d ≢ x)
        → slice_index at.items x ≡ first_vertex u (vertex_of a.now x)) }
    ensures second { IfOk result (λ at. (d : ℕ) → d < darts b.now → vertex_of b.now d ≢ w
        → slice_index at.items (slice_index numbers.now d) ≡ second_vertex a.now w (vertex_of b.now d)) }
{
    b.is_rotation();
    let (vertices, darts) = (a.vertices(), a.darts());
    let mut at = vec![in alloc; 0; darts + 2 * kept]?;
    write_first(at.as_mut_slice(), a, u);
    write_second(at.as_mut_slice(), b, w, numbers, vertices - 1);
    Ok(at)
}

// The vertices and lists of the result.
fn glued_parts(
    alloc: Global,
    a: &Rot,
    u: usize,
    b: &Rot,
    w: usize,
    pairs: &[(usize, usize)],
) -> Result<(Vec<usize>, Vec<CycList>), Memory>
    requires first_vertex { u < a.now.vertices }
    requires second_vertex { w < b.now.vertices }
    requires partners { ArePartners a.now u b.now w pairs.now }
    ensures result { IfOk result (λ parts. IsGlued a.now u b.now w pairs.now (system_of parts.0.items parts.1.items)) }
    ensures even { IfOk result (λ parts. length parts.0.items ≡ 2 * (length parts.0.items / 2)) }
{
    a.is_rotation();
    b.is_rotation();
    let (numbers, kept) = dart_numbers(alloc, a, b, w, pairs)?;
    let numbers = numbers.as_slice();
    let at = vertices_glued(alloc, a, u, b, w, numbers, kept)?;
    let lists = lists_glued(alloc, a, u, b, w, numbers)?;
    Ok((at, lists))
}

/// The two systems with vertex `u` of the first and vertex `w` of the second removed, and the edges of
/// partners joined: `pairs` has the darts at `u`, each with its partner at `w`. A joined edge keeps the
/// number that it has in `a`, and its dart that stood at `u` takes the place which the other dart of
/// the partner's edge has in `b`. Vertices and edges of `a` come first, then those of `b`, each in
/// their order. The lists of `u` and `w` are reverse, so a genus of zero stays zero. Linear in the
/// numbers of vertices and darts.
pub fn glue(
    alloc: Global,
    a: &Rot,
    u: usize,
    b: &Rot,
    w: usize,
    pairs: &[(usize, usize)],
) -> Result<Rot, Memory>
    requires first_vertex { u < a.now.vertices }
    requires second_vertex { w < b.now.vertices }
    requires first_plane { HasGenusZero a.now }
    requires second_plane { HasGenusZero b.now }
    requires first_no_loop { HasNoLoopAt a.now u }
    requires second_no_loop { HasNoLoopAt b.now w }
    requires partners { ArePartners a.now u b.now w pairs.now }
    requires reversed { AreReversed a.now u b.now w pairs.now }
    ensures result { IfOk result (λ rot. IsGlued a.now u b.now w pairs.now rot) }
    ensures genus { IfOk result HasGenusZero }
{
    a.is_rotation();
    b.is_rotation();
    let (at, lists) = glued_parts(alloc, a, u, b, w, pairs)?;
    Rot::from_rotation(alloc, at.as_slice(), lists.as_slice())
}
