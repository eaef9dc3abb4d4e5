// Splits of small systems, worked out by hand.
ghost use Rattle.std.specs.Prelude.{◌≡◌, ◌≢◌, ℕ, ◌<◌, [], IsTrue, length, slice_index};
ghost use Rattle.cp_rot.specs.Systems.{list_of};
ghost use Rattle.cp_rotlaw.specs.Systems.{HasNoLoopAt};

use crate::star_parts::far_end;
use crate::star_split;
use crate::tests_systems::{Parts, is_made_of, system};
use cp_rot::{Rot, RotFault};
use std::alloc::Global;

// Whether no edge has both ends at vertex `u`.
fn has_no_loop_at(a: &Rot, u: usize) -> bool
    ensures { IsTrue result → HasNoLoopAt a.now u }
{
    for d in 0..a.darts() {
        if a.at(d) == u && far_end(a, d) == u {
            return false;
        }
    }
    true
}

// The system with vertex `u` split. What is no input of `star_split` answers as if memory were wanting.
fn split(alloc: Global, parts: Parts, u: usize) -> Result<Rot, RotFault> {
    let rot = system(alloc, parts)?;
    let mut dart_marks = [true; 8];
    let mut marks = [true; 8];
    let mut stack = [7; 8];
    if rot.darts() > 8 || rot.vertices() > 8 {
        return Err(RotFault::Memory);
    }
    if !rot.euler_zero(&mut dart_marks, &mut marks, &mut stack) || u >= rot.vertices() {
        return Err(RotFault::Memory);
    }
    if rot.list(u).items().len() == 0 || !has_no_loop_at(&rot, u) {
        return Err(RotFault::Memory);
    }
    let star = star_split(alloc, &rot, u)?;
    Ok(star)
}

// Whether splitting vertex `u` of the one gives the other.
fn splits_into(alloc: Global, before: Parts, u: usize, after: Parts) -> Result<bool, RotFault> {
    let star = split(alloc, before, u)?;
    Ok(is_made_of(&star, after))
}

// The numbers of vertices, edges and components of the system with vertex `u` split.
fn counts(alloc: Global, parts: Parts, u: usize) -> Result<(usize, usize, usize), RotFault> {
    let star = split(alloc, parts, u)?;
    let mut marks = [true; 8];
    let mut stack = [7; 8];
    if star.vertices() > 8 {
        return Err(RotFault::Memory);
    }
    let components = star.components(&mut marks, &mut stack);
    Ok((star.vertices(), star.darts() / 2, components))
}

#[test]
fn splits_a_vertex_by_components(rt: HostRuntime) {
    let alloc = rt.alloc();
    let rows: [(Parts, usize, Parts); 5] = [
        // a path, split at its middle
        (
            (&[0, 1, 1, 2], &[&[0], &[1, 2], &[3]]),
            1,
            (&[0, 1, 3, 2], &[&[0], &[1], &[3], &[2]]),
        ),
        // one part
        (
            (&[0, 1, 1, 2, 2, 0], &[&[0, 5], &[1, 2], &[3, 4]]),
            0,
            (&[0, 1, 1, 2, 2, 0], &[&[0, 5], &[1, 2], &[3, 4]]),
        ),
        // the last vertex
        (
            (&[2, 0, 2, 1], &[&[1], &[3], &[2, 0]]),
            2,
            (&[2, 0, 3, 1], &[&[1], &[3], &[0], &[2]]),
        ),
        // three parts, whose least edges are in another order than list and components
        (
            (&[3, 0, 0, 1, 2, 0], &[&[5, 2, 1], &[3], &[4], &[0]]),
            0,
            (&[3, 0, 4, 1, 2, 5], &[&[1], &[3], &[4], &[0], &[2], &[5]]),
        ),
        // one part within the other
        (
            (
                &[0, 1, 0, 2, 0, 2, 0, 1],
                &[&[0, 2, 4, 6], &[1, 7], &[3, 5]],
            ),
            0,
            (
                &[0, 1, 3, 2, 3, 2, 0, 1],
                &[&[0, 6], &[1, 7], &[3, 5], &[2, 4]],
            ),
        ),
    ];
    for (before, u, after) in rows {
        assert_eq!(rt;
            splits_into(alloc, before, u, after),
            Ok(true),
            "{before:?}"
        );
    }
}

#[test]
fn splits_a_path_into_two(rt: HostRuntime) {
    let alloc = rt.alloc();
    let path: Parts = (&[0, 1, 1, 2], &[&[0], &[1, 2], &[3]]);
    assert_eq!(rt; counts(alloc, path, 1), Ok((4, 2, 2)));
}
