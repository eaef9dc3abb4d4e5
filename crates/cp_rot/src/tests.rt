// Systems with known counts, and lists that make none.
ghost use Rattle.std.specs.Prelude.{◌≡◌, ℕ, ◌<◌, IsTrue, length, slice_index};
ghost use Rattle.cp_rot.specs.Systems.{darts, next};
ghost use Rattle.cp_rot.specs.Genus.{InOneFace};

use crate::{Rot, RotFault, first_wrong};
use cp_base::{CycList, Memory};
use std::alloc::Global;

type Counts = (usize, usize, bool, usize, bool);

type Lists = &'static [&'static [usize]];

// Whether each number is below the bound.
fn are_below(numbers: &[usize], bound: usize) -> bool
    ensures { IsTrue result → (i : ℕ) → i < length numbers.now → slice_index numbers.now i < bound }
{
    numbers.iter().all(|number| *number < bound)
}

// Cyclic lists of the same items.
fn cyclic(alloc: Global, lists: Lists) -> Result<Vec<CycList>, Memory> {
    let mut own = Vec::new(alloc);
    for list in lists {
        own.push(CycList::from_slice(alloc, list)?)?;
    }
    Ok(own)
}

// The system of the lists. What is no input of `from_lists` answers as if memory were wanting.
fn system(alloc: Global, vertices: usize, at: &[usize], lists: Lists) -> Result<Rot, RotFault> {
    let lists = cyclic(alloc, lists)?;
    if at.len() % 2 != 0 || !are_below(at, vertices) || lists.len() != vertices {
        return Err(RotFault::Memory);
    }
    Rot::from_lists(alloc, vertices, at, lists.as_slice())
}

// The numbers of faces and components, whether the genus is zero, the dart behind dart 0, and whether
// darts 0 and 1 lie in one face.
fn counts(alloc: Global, vertices: usize, at: &[usize], lists: Lists) -> Result<Counts, RotFault> {
    let rot = system(alloc, vertices, at, lists)?;
    let mut dart_marks = [true; 8];
    let mut marks = [true; 8];
    let mut stack = [7; 8];
    if rot.darts() > 8 || rot.vertices() > 8 {
        return Err(RotFault::Memory);
    }
    let faces = rot.faces(&mut dart_marks);
    let components = rot.components(&mut marks, &mut stack);
    let zero = rot.euler_zero(&mut dart_marks, &mut marks, &mut stack);
    let behind = if rot.darts() > 0 { rot.next(0) } else { 0 };
    let joined = rot.darts() > 1 && rot.same_face(0, 1);
    Ok((faces, components, zero, behind, joined))
}

// The first wrong list, where each dart stands at a vertex.
fn wrong(
    alloc: Global,
    vertices: usize,
    at: &[usize],
    lists: Lists,
) -> Result<Option<usize>, Memory> {
    let lists = cyclic(alloc, lists)?;
    if !are_below(at, vertices) {
        return Err(Memory);
    }
    first_wrong(alloc, vertices, at, lists.as_slice())
}

#[test]
fn counts_and_faults_are_those_of_the_drawings(rt: HostRuntime) {
    let alloc = rt.alloc();
    let rows: [(usize, &[usize], Lists, Result<Counts, RotFault>); 11] = [
        (
            3,
            &[0, 1, 1, 2, 2, 0],
            &[&[0, 5], &[1, 2], &[3, 4]],
            Ok((2, 1, true, 5, false)),
        ),
        (3, &[], &[&[], &[], &[]], Ok((3, 3, true, 0, false))),
        (
            2,
            &[0, 1, 0, 1, 0, 1],
            &[&[0, 2, 4], &[1, 3, 5]],
            Ok((1, 1, false, 2, true)),
        ),
        (
            2,
            &[0, 1, 0, 1, 0, 1],
            &[&[0, 2, 4], &[5, 3, 1]],
            Ok((3, 1, true, 2, false)),
        ),
        (1, &[0, 0], &[&[0, 1]], Ok((2, 1, true, 1, false))),
        (
            1,
            &[0, 0, 0, 0],
            &[&[0, 2, 1, 3]],
            Ok((1, 1, false, 2, true)),
        ),
        (
            5,
            &[0, 1, 1, 2, 2, 0, 3, 4],
            &[&[5, 0], &[1, 2], &[3, 4], &[6], &[7]],
            Ok((3, 2, true, 5, false)),
        ),
        (
            2,
            &[0, 1],
            &[&[0, 0], &[1]],
            Err(RotFault::NotARotation { vertex: 0 }),
        ),
        (
            2,
            &[0, 1],
            &[&[0], &[]],
            Err(RotFault::NotARotation { vertex: 1 }),
        ),
        (
            2,
            &[0, 1],
            &[&[0], &[2]],
            Err(RotFault::NotARotation { vertex: 1 }),
        ),
        (
            3,
            &[0, 1, 1, 2],
            &[&[0], &[2, 3], &[1]],
            Err(RotFault::NotARotation { vertex: 1 }),
        ),
    ];
    for (vertices, at, lists, want) in rows {
        let got = counts(alloc, vertices, at, lists);
        assert_eq!(rt; got, want, "{at:?}");
    }
    assert_eq!(rt; wrong(alloc, 1, &[0, 0], &[&[1, 0]]), Ok(None));
    assert_eq!(rt; wrong(alloc, 1, &[0, 0], &[&[1, 0], &[]]), Ok(Some(1)));
    assert_eq!(rt; wrong(alloc, 2, &[0, 0], &[&[1, 0]]), Ok(Some(1)));
}

#[derive(Clone, Copy)]
enum Rewrite {
    Delete(usize),
    Contract(usize),
    Expand(usize, usize),
    Add(usize, usize),
    Merge(usize, usize),
}

// Whether the darts behind two darts lie in one face.
fn are_behind_in_one_face(rot: &Rot, d: usize, f: usize) -> bool
    requires first { d < darts rot.now }
    requires second { f < darts rot.now }
    ensures { IsTrue result → InOneFace rot.now (next rot.now d) (next rot.now f) }
{
    let (x, y) = (rot.next(d), rot.next(f));
    x < rot.darts() && y < rot.darts() && rot.same_face(x, y)
}

// The rewritten system. What is no input of the rewrite answers as if memory were wanting.
fn rewritten(alloc: Global, rot: &Rot, rewrite: Rewrite) -> Result<Rot, Memory> {
    let darts = rot.darts();
    match rewrite {
        Rewrite::Delete(e) if e < darts / 2 => rot.delete(alloc, e),
        Rewrite::Contract(e) if e < darts / 2 && rot.at(2 * e) != rot.at(2 * e + 1) => {
            rot.contract(alloc, e)
        }
        Rewrite::Expand(d, f) if d < darts && f < darts && rot.at(f) == rot.at(d) => {
            rot.expand(alloc, d, f)
        }
        Rewrite::Add(d, f) if d < darts && f < darts && are_behind_in_one_face(rot, d, f) => {
            rot.add_in_face(alloc, d, f)
        }
        Rewrite::Merge(d, f)
            if d < darts
                && f < darts
                && rot.at(d) != rot.at(f)
                && are_behind_in_one_face(rot, d, f) => { rot.merge_at(alloc, d, f) }
        _ => Err(Memory),
    }
}

// Whether the system has these vertices of darts and these lists.
fn is_system(rot: &Rot, at: &[usize], lists: Lists) -> bool {
    if rot.darts() != at.len() || rot.vertices() != lists.len() {
        return false;
    }
    let mut same = true;
    for d in 0..at.len() {
        same = same && rot.at(d) == at[d];
    }
    for v in 0..lists.len() {
        same = same && rot.list(v).items() == lists[v];
    }
    same
}

// The number of faces of the rewritten system, if it has these vertices of darts and these lists.
fn faces_after(
    alloc: Global,
    start: (usize, &[usize], Lists),
    rewrite: Rewrite,
    at: &[usize],
    lists: Lists,
) -> Result<Option<usize>, RotFault> {
    let rot = system(alloc, start.0, start.1, start.2)?;
    let rot = rewritten(alloc, &rot, rewrite)?;
    if rot.darts() > 8 || !is_system(&rot, at, lists) {
        return Ok(None);
    }
    let mut marks = [true; 8];
    Ok(Some(rot.faces(&mut marks)))
}

#[test]
fn rewrites_give_the_drawn_systems(rt: HostRuntime) {
    let alloc = rt.alloc();
    let triangle: (usize, &[usize], Lists) = (3, &[0, 1, 1, 2, 2, 0], &[&[0, 5], &[1, 2], &[3, 4]]);
    let edge: (usize, &[usize], Lists) = (2, &[0, 1], &[&[0], &[1]]);
    let loops: (usize, &[usize], Lists) = (1, &[0, 0, 0, 0], &[&[0, 1, 2, 3]]);
    let rows: [((usize, &[usize], Lists), Rewrite, &[usize], Lists, usize); 13] = [
        (
            triangle,
            Rewrite::Contract(0),
            &[1, 0, 0, 1],
            &[&[2, 1], &[3, 0]],
            2,
        ),
        (
            triangle,
            Rewrite::Contract(2),
            &[0, 1, 1, 0],
            &[&[3, 0], &[1, 2]],
            2,
        ),
        (
            triangle,
            Rewrite::Expand(0, 0),
            &[0, 1, 1, 2, 2, 0, 0, 3],
            &[&[0, 6, 5], &[1, 2], &[3, 4], &[7]],
            2,
        ),
        (
            triangle,
            Rewrite::Delete(0),
            &[2, 0, 1, 2],
            &[&[1], &[2], &[3, 0]],
            1,
        ),
        (
            triangle,
            Rewrite::Delete(2),
            &[0, 1, 1, 2],
            &[&[0], &[1, 2], &[3]],
            1,
        ),
        (
            triangle,
            Rewrite::Add(0, 2),
            &[0, 1, 1, 2, 2, 0, 0, 1],
            &[&[0, 6, 5], &[1, 2, 7], &[3, 4]],
            3,
        ),
        (
            triangle,
            Rewrite::Merge(0, 2),
            &[0, 0, 0, 1, 1, 0],
            &[&[0, 1, 2, 5], &[3, 4]],
            3,
        ),
        (edge, Rewrite::Contract(0), &[], &[&[]], 1),
        (
            edge,
            Rewrite::Expand(0, 0),
            &[0, 1, 0, 2],
            &[&[0, 2], &[1], &[3]],
            1,
        ),
        (edge, Rewrite::Delete(0), &[], &[&[], &[]], 2),
        (
            edge,
            Rewrite::Add(0, 0),
            &[0, 1, 0, 0],
            &[&[0, 2, 3], &[1]],
            2,
        ),
        (edge, Rewrite::Merge(0, 1), &[0, 0], &[&[0, 1]], 2),
        (
            loops,
            Rewrite::Expand(2, 0),
            &[1, 0, 0, 1, 0, 1],
            &[&[2, 4, 1], &[5, 3, 0]],
            3,
        ),
    ];
    for (start, rewrite, at, lists, faces) in rows {
        assert_eq!(rt;
            faces_after(alloc, start, rewrite, at, lists),
            Ok(Some(faces)),
            "{at:?}"
        );
    }
}

// Whether the stored copy of the system of the lists has the same vertices of darts and lists.
fn is_stored_alike(
    alloc: Global,
    vertices: usize,
    at: &[usize],
    lists: Lists,
) -> Result<bool, RotFault> {
    let rot = system(alloc, vertices, at, lists)?;
    let copy = Rot::stored(alloc, &rot)?;
    Ok(is_system(&copy, at, lists))
}

#[test]
fn what_tells_a_system_is_stored_as_it_is(rt: HostRuntime) {
    let alloc = rt.alloc();
    let rows: [(usize, &[usize], Lists); 3] = [
        (0, &[], &[]),
        (2, &[0, 0], &[&[1, 0], &[]]),
        (3, &[0, 1, 1, 2, 2, 0], &[&[0, 5], &[1, 2], &[3, 4]]),
    ];
    for (vertices, at, lists) in rows {
        assert_eq!(rt;
            is_stored_alike(alloc, vertices, at, lists),
            Ok(true),
            "{at:?}"
        );
    }
}
