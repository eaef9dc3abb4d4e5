// Systems with the edges of a pole in another order, worked out by hand.
ghost use Rattle.std.specs.Prelude.{◌≡◌, ◌≢◌, ℕ, ◌<◌, IsTrue};
ghost use Rattle.cp_conn.specs.Bonds.{IsBond};
ghost use Rattle.cp_faces.specs.Twins.{twin};
ghost use Rattle.cp_rot.specs.Systems.{darts, vertex_of};
ghost use Rattle.cp_rotlaw.specs.Poles.{graph_of};

use crate::permute_components;
use crate::star_parts::far_end;
use crate::tests_systems::{Parts, is_made_of, system};
use cp_rot::{Rot, RotFault};
use std::alloc::Global;

// Whether each edge of `u` ends at `v`.
fn lead_to(a: &Rot, u: usize, v: usize) -> bool
    ensures { IsTrue result → (d : ℕ) → d < darts a.now → vertex_of a.now d ≡ u → vertex_of a.now (twin d) ≡ v }
{
    for d in 0..a.darts() {
        if a.at(d) == u && far_end(a, d) != v {
            return false;
        }
    }
    true
}

// Whether `u` and `v` are the poles of a bond of edges from `u` to `v`.
fn are_poles(a: &Rot, u: usize, v: usize) -> bool
    ensures { IsTrue result → IsBond (graph_of a.now) u v }
{
    a.is_rotation();
    u != v && lead_to(a, u, v)
}

// Whether the darts of the two systems stand at the same vertices.
fn stand_alike(a: &Rot, b: &Rot) -> bool
    ensures { IsTrue result → b.now.at ≡ a.now.at }
{
    if a.darts() != b.darts() {
        return false;
    }
    for d in 0..a.darts() {
        if b.at(d) != a.at(d) {
            return false;
        }
    }
    true
}

// Whether the darts of `u` in the order of the system `want` make this system. What is no input of
// `permute_components` answers as if memory were wanting.
fn permutes_to(
    alloc: Global,
    start: Parts,
    u: usize,
    v: usize,
    want: Parts,
) -> Result<bool, RotFault> {
    let rot = system(alloc, start)?;
    let wanted = system(alloc, want)?;
    let mut dart_marks = [true; 8];
    let mut marks = [true; 8];
    let mut stack = [7; 8];
    if rot.darts() > 8 || rot.vertices() > 8 {
        return Err(RotFault::Memory);
    }
    if !rot.euler_zero(&mut dart_marks, &mut marks, &mut stack) {
        return Err(RotFault::Memory);
    }
    if u >= rot.vertices() || v >= rot.vertices() || u >= wanted.vertices() {
        return Err(RotFault::Memory);
    }
    if !are_poles(&rot, u, v) || !stand_alike(&rot, &wanted) {
        return Err(RotFault::Memory);
    }
    let made = permute_components(alloc, &rot, u, v, wanted.list(u))?;
    Ok(is_made_of(&made, want))
}

#[test]
fn edges_of_a_pole_are_permuted(rt: HostRuntime) {
    let alloc = rt.alloc();
    let four: &'static [usize] = &[0, 1, 0, 1, 0, 1, 0, 1];
    let more: &'static [usize] = &[0, 1, 0, 1, 1, 2];
    let rows: [(Parts, usize, usize, Parts); 4] = [
        (
            (four, &[&[0, 2, 4, 6], &[1, 7, 5, 3]]),
            0,
            1,
            (four, &[&[0, 4, 2, 6], &[7, 3, 5, 1]]),
        ),
        // from the other pole
        (
            (four, &[&[0, 2, 4, 6], &[1, 7, 5, 3]]),
            1,
            0,
            (four, &[&[4, 6, 2, 0], &[1, 3, 7, 5]]),
        ),
        // a dart of the other pole that leads elsewhere
        (
            (more, &[&[0, 2], &[1, 4, 3], &[5]]),
            0,
            1,
            (more, &[&[2, 0], &[4, 1, 3], &[5]]),
        ),
        // one edge
        ((&[0, 1], &[&[0], &[1]]), 0, 1, (&[0, 1], &[&[0], &[1]])),
    ];
    for (start, u, v, want) in rows {
        assert_eq!(rt;
            permutes_to(alloc, start, u, v, want),
            Ok(true),
            "{start:?}"
        );
    }
}
