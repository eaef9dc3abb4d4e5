// Dipoles and gluing, on drawings with known results.
ghost use Rattle.std.specs.Prelude.{◌≡◌, ◌≢◌, ℕ, ◌<◌, IfOk, IsTrue, length, map, reverse, slice_index};
ghost use Rattle.cp_lists.specs.Turns.{IsTurn};
ghost use Rattle.cp_rot.specs.Systems.{darts, vertex_of, list_of};
ghost use Rattle.cp_faces.specs.Twins.{twin};
ghost use Rattle.cp_rot.specs.Genus.{HasGenusZero};
ghost use Rattle.cp_rotlaw.specs.Glue.{ArePartners, AreReversed};

use crate::systems::other_dart;
use crate::tests_systems::{Parts, is_made_of, system};
use crate::{dipole_reversed, glue};
use cp_base::{CycList, Memory};
use cp_rot::{Rot, RotFault};
use std::alloc::Global;

// Whether no edge is a loop.
fn has_no_loops(rot: &Rot) -> bool
    ensures { IsTrue result → (d : ℕ) → d < darts rot.now → vertex_of rot.now (twin d) ≢ vertex_of rot.now d }
{
    for d in 0..rot.darts() {
        if rot.at(other_dart(d)) == rot.at(d) {
            return false;
        }
    }
    true
}

// Whether the lists of a dipole are reverse.
fn is_reversed(alloc: Global, start: Parts) -> Result<bool, RotFault> {
    let rot = system(alloc, start)?;
    if rot.vertices() != 2 || rot.darts() == 0 || !has_no_loops(&rot) {
        return Err(RotFault::Memory);
    }
    Ok(dipole_reversed(alloc, &rot)?)
}

#[test]
fn reversed_dipoles_are_told(rt: HostRuntime) {
    let alloc = rt.alloc();
    let at: &'static [usize] = &[0, 1, 0, 1, 0, 1];
    let rows: [(Parts, bool); 5] = [
        ((at, &[&[0, 2, 4], &[1, 5, 3]]), true),
        ((at, &[&[0, 2, 4], &[1, 3, 5]]), false),
        ((at, &[&[4, 0, 2], &[5, 3, 1]]), true),
        ((&[1, 0], &[&[1], &[0]]), true),
        ((&[0, 1, 1, 0], &[&[3, 0], &[1, 2]]), true),
    ];
    for (start, want) in rows {
        assert_eq!(rt; is_reversed(alloc, start), Ok(want));
    }
}

// The first of each pair.
fn firsts(alloc: Global, pairs: &[(usize, usize)]) -> Result<Vec<usize>, Memory>
    ensures { IfOk result (λ first. first.items ≡ map (λ pair. pair.0) pairs.now) }
{
    let first = pairs.iter().map(|pair| pair.0).collect(alloc)?;
    Ok(first)
}

// The second of each pair, from the last on.
fn seconds_reversed(alloc: Global, pairs: &[(usize, usize)]) -> Result<CycList, Memory>
    ensures { IfOk result (λ list. list ≡ reverse (map (λ pair. pair.1) pairs.now)) }
{
    let second: Vec<usize> = pairs.iter().map(|pair| pair.1).collect(alloc)?;
    CycList::from_slice(alloc, second.as_slice())?.reversed(alloc)
}

// Whether the first list is that of u, and the second a turn of that of w.
fn are_lists(a: &Rot, u: usize, b: &Rot, w: usize, first: &[usize], second: &CycList) -> bool
    requires first { u < a.now.vertices }
    requires second { w < b.now.vertices }
    ensures first { IsTrue result → first.now ≡ list_of a.now u }
    ensures second { IsTrue result → IsTurn second.now (list_of b.now w) }
{
    if first != a.list(u).items() {
        return false;
    }
    second.same_cycle(b.list(w))
}

// Whether the pairs are the darts at u in the order of their list, and darts at w in the reverse order
// of theirs, up to turning.
fn fit(
    alloc: Global,
    a: &Rot,
    u: usize,
    b: &Rot,
    w: usize,
    pairs: &[(usize, usize)],
) -> Result<bool, Memory>
    requires first { u < a.now.vertices }
    requires second { w < b.now.vertices }
    ensures partners { IfOk result (λ fit. IsTrue fit → ArePartners a.now u b.now w pairs.now) }
    ensures reversed { IfOk result (λ fit. IsTrue fit → AreReversed a.now u b.now w pairs.now) }
{
    a.is_rotation();
    b.is_rotation();
    let first = firsts(alloc, pairs)?;
    let second = seconds_reversed(alloc, pairs)?;
    Ok(are_lists(a, u, b, w, first.as_slice(), &second))
}

// Whether the genus is zero.
fn is_plane(alloc: Global, rot: &Rot) -> Result<bool, Memory>
    ensures { IfOk result (λ is. IsTrue is → HasGenusZero rot.now) }
{
    let mut dart_marks = vec![in alloc; false; rot.darts()]?;
    let mut marks = vec![in alloc; false; rot.vertices()]?;
    let mut stack = vec![in alloc; 0; rot.vertices()]?;
    Ok(rot.euler_zero(
        dart_marks.as_mut_slice(),
        marks.as_mut_slice(),
        stack.as_mut_slice(),
    ))
}

// The number of faces of the glued system, if it is the one that is wanted.
fn faces_glued(
    alloc: Global,
    first: (Parts, usize),
    second: (Parts, usize),
    pairs: &[(usize, usize)],
    want: Parts,
) -> Result<Option<usize>, RotFault> {
    let (a, u) = (system(alloc, first.0)?, first.1);
    let (b, w) = (system(alloc, second.0)?, second.1);
    if u >= a.vertices() || w >= b.vertices() || !has_no_loops(&a) || !has_no_loops(&b) {
        return Err(RotFault::Memory);
    }
    let plane = is_plane(alloc, &a)? && is_plane(alloc, &b)?;
    if !plane || !fit(alloc, &a, u, &b, w, pairs)? {
        return Err(RotFault::Memory);
    }
    let rot = glue(alloc, &a, u, &b, w, pairs)?;
    if rot.darts() > 8 || !is_made_of(&rot, want) {
        return Ok(None);
    }
    let mut marks = [true; 8];
    Ok(Some(rot.faces(&mut marks)))
}

#[test]
fn glued_systems_are_the_drawn_ones(rt: HostRuntime) {
    let alloc = rt.alloc();
    let dipole: Parts = (&[0, 1, 0, 1, 0, 1], &[&[0, 2, 4], &[1, 5, 3]]);
    let turned: Parts = (&[0, 1, 0, 1, 0, 1], &[&[4, 0, 2], &[1, 5, 3]]);
    let glued_dipole: Parts = (&[0, 1, 0, 1, 0, 1], &[&[0, 2, 4], &[3, 1, 5]]);
    let star: Parts = (&[0, 1, 0, 2, 0, 3], &[&[0, 2, 4], &[1], &[3], &[5]]);
    let edge: Parts = (&[0, 1], &[&[0], &[1]]);
    let bare_middle: Parts = (&[0, 2], &[&[0], &[], &[1]]);
    let path: Parts = (&[0, 1, 1, 2], &[&[0], &[1, 2], &[3]]);
    let rows: [(
        (Parts, usize),
        (Parts, usize),
        &[(usize, usize)],
        Parts,
        usize,
    ); 8] = [
        (
            (dipole, 1),
            (dipole, 0),
            &[(1, 4), (5, 2), (3, 0)],
            glued_dipole,
            3,
        ),
        (
            (dipole, 1),
            (turned, 0),
            &[(1, 4), (5, 2), (3, 0)],
            glued_dipole,
            3,
        ),
        ((bare_middle, 1), ((&[], &[&[]]), 0), &[], edge, 1),
        (
            (bare_middle, 1),
            ((&[1, 2], &[&[], &[0], &[1]]), 0),
            &[],
            (&[0, 1, 2, 3], &[&[0], &[1], &[2], &[3]]),
            2,
        ),
        (
            (edge, 0),
            (path, 2),
            &[(0, 3)],
            (&[2, 0, 1, 2], &[&[1], &[2], &[3, 0]]),
            1,
        ),
        (
            (path, 1),
            ((&[0, 1, 1, 2, 2, 0], &[&[0, 5], &[1, 2], &[3, 4]]), 0),
            &[(1, 0), (2, 5)],
            (&[0, 2, 3, 1, 2, 3], &[&[0], &[3], &[1, 4], &[5, 2]]),
            1,
        ),
        (
            (edge, 1),
            ((&[0, 2, 0, 1, 0, 2], &[&[0, 2, 4], &[3], &[5, 1]]), 1),
            &[(1, 3)],
            (&[0, 1, 1, 2, 1, 2], &[&[0], &[2, 1, 4], &[5, 3]]),
            2,
        ),
        (
            (star, 0),
            (star, 0),
            &[(0, 4), (2, 2), (4, 0)],
            (&[5, 0, 4, 1, 3, 2], &[&[1], &[3], &[5], &[4], &[2], &[0]]),
            3,
        ),
    ];
    for (first, second, pairs, want, faces) in rows {
        assert_eq!(rt;
            faces_glued(alloc, first, second, pairs, want),
            Ok(Some(faces)),
            "{pairs:?}"
        );
    }
}
