// Vertices of different components made one, and the laws, which do nothing when they are called.
ghost use Rattle.std.specs.Prelude.{◌≡◌, ◌≢◌, ℕ, ◌<◌, IfOk, IsTrue};
ghost use Rattle.cp_rot.specs.Systems.{darts, vertex_of};
ghost use Rattle.cp_rot.specs.Genus.{Joined};

use crate::star_parts::ends_of;
use crate::tests_systems::{Parts, is_made_of, system};
use crate::{
    restriction_keeps_genus_zero, run_keeps_genus, split_off_has_genus_of_parts,
    split_off_keeps_genus_zero,
};
use cp_base::{Graph, Memory};
use cp_conn::components;
use cp_rot::{Rot, RotFault};
use std::alloc::Global;

// Whether the vertices of the two darts are in different components.
fn are_apart(alloc: Global, rot: &Rot, d: usize, f: usize) -> Result<bool, Memory>
    requires first { d < darts rot.now }
    requires second { f < darts rot.now }
    ensures differ { IfOk result (λ are. IsTrue are → vertex_of rot.now d ≢ vertex_of rot.now f) }
    ensures joined { IfOk result (λ are. IsTrue are → ¬ Joined rot.now (vertex_of rot.now d) (vertex_of rot.now f)) }
{
    prove!(d < rot.darts());
    let ends = ends_of(alloc, rot)?;
    let graph = Graph::from_ends(alloc, rot.vertices(), ends.as_slice())?;
    let numbers = components(alloc, &graph)?;
    Ok(numbers[rot.at(d)] != numbers[rot.at(f)])
}

// The number of faces of the system with the vertices of the two darts made one, if these are in
// different components and the result is the system that is wanted.
fn faces_merged(
    alloc: Global,
    start: Parts,
    d: usize,
    f: usize,
    want: Parts,
) -> Result<Option<usize>, RotFault> {
    let rot = system(alloc, start)?;
    if d >= rot.darts() || f >= rot.darts() || !are_apart(alloc, &rot, d, f)? {
        return Ok(None);
    }
    let merged = rot.merge_at(alloc, d, f)?;
    if merged.darts() > 8 || !is_made_of(&merged, want) {
        return Ok(None);
    }
    let mut marks = [true; 8];
    Ok(Some(merged.faces(&mut marks)))
}

#[test]
fn vertices_of_different_components_are_merged(rt: HostRuntime) {
    let alloc = rt.alloc();
    let edges: Parts = (&[0, 1, 2, 3], &[&[0], &[1], &[2], &[3]]);
    let path: Parts = (&[0, 1, 1, 2], &[&[0], &[1, 2], &[3]]);
    let rows: [(Parts, usize, usize, Parts, Option<usize>); 4] = [
        (edges, 1, 2, path, Some(1)),
        // a triangle and an edge
        (
            (
                &[0, 1, 1, 2, 2, 0, 3, 4],
                &[&[0, 5], &[1, 2], &[3, 4], &[6], &[7]],
            ),
            6,
            1,
            (
                &[0, 3, 3, 2, 2, 0, 3, 1],
                &[&[0, 5], &[7], &[3, 4], &[6, 2, 1]],
            ),
            Some(2),
        ),
        // the two ends of an edge, and of a path
        (edges, 0, 1, edges, None),
        (path, 0, 3, path, None),
    ];
    for (start, d, f, want, faces) in rows {
        assert_eq!(rt;
            faces_merged(alloc, start, d, f, want),
            Ok(faces),
            "{start:?}"
        );
    }
}

#[test]
fn laws_return(rt: HostRuntime) {
    restriction_keeps_genus_zero();
    split_off_keeps_genus_zero();
    split_off_has_genus_of_parts();
    run_keeps_genus();
}
