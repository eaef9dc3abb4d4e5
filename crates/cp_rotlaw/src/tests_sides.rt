// A side of a small bipartite system made one vertex, worked out by hand.
ghost use Rattle.std.specs.Prelude.{◌≡◌, ◌≢◌, ◌<◌, ℕ, [], IsTrue, length, not, true};
ghost use Rattle.cp_faces.specs.Twins.{twin};
ghost use Rattle.cp_rot.specs.Systems.{darts, list_of, vertex_of};
ghost use Rattle.cp_rotlaw.specs.SideOrders.{IsSideOf, in_side};

use crate::merge_side;
use crate::star_parts::far_end;
use crate::tests_systems::{Parts, system};
use cp_base::CycList;
use cp_rot::{Rot, RotFault};
use std::alloc::Global;

// Whether each edge has exactly one end in the side.
fn cross(a: &Rot, side: &[bool]) -> bool
    requires { length side.now ≡ a.now.vertices }
    ensures { IsTrue result → (d : ℕ) → d < darts a.now → in_side side.now (vertex_of a.now (twin d)) ≡ not (in_side side.now (vertex_of a.now d)) }
{
    for d in 0..a.darts() {
        if side[far_end(a, d)] == side[a.at(d)] {
            return false;
        }
    }
    true
}

// Whether each vertex has an edge.
fn are_filled(a: &Rot) -> bool
    ensures { IsTrue result → (v : ℕ) → v < a.now.vertices → list_of a.now v ≢ [] }
{
    for v in 0..a.vertices() {
        if a.list(v).items().is_empty() {
            return false;
        }
    }
    true
}

// Whether some vertex is in the side.
fn has_some(side: &[bool]) -> bool
    ensures { IsTrue result → (v : ℕ) × (v < length side.now) × (in_side side.now v ≡ true) }
{
    for v in 0..side.len() {
        if side[v] {
            return true;
        }
    }
    false
}

// Whether these vertices are a side of the system.
fn is_side(a: &Rot, side: &[bool]) -> bool
    ensures { IsTrue result → IsSideOf a.now side.now }
{
    side.len() == a.vertices() && cross(a, side) && has_some(side) && are_filled(a)
}

// Whether the order of the merged side is one of the two, up to a turn. What is no input of `merge_side`
// answers as if memory were wanting.
fn merges_to(
    alloc: Global,
    start: Parts,
    side: &[bool],
    one: &[usize],
    other: &[usize],
) -> Result<bool, RotFault> {
    let rot = system(alloc, start)?;
    let mut dart_marks = [true; 8];
    let mut marks = [true; 8];
    let mut stack = [7; 8];
    if rot.darts() > 8 || rot.vertices() > 8 {
        return Err(RotFault::Memory);
    }
    if !rot.euler_zero(&mut dart_marks, &mut marks, &mut stack) || !is_side(&rot, side) {
        return Err(RotFault::Memory);
    }
    let order = merge_side(alloc, &rot, side)?;
    let first = CycList::from_slice(alloc, one)?;
    let second = CycList::from_slice(alloc, other)?;
    Ok(order.same_cycle(&first) || order.same_cycle(&second))
}

#[test]
fn a_side_is_made_one_vertex(rt: HostRuntime) {
    let start: Parts = (
        &[0, 2, 0, 2, 1, 2, 0, 3],
        &[&[0, 6, 2], &[4], &[1, 3, 5], &[7]],
    );
    assert_eq!(rt;
        merges_to(
            rt.alloc(),
            start,
            &[true, true, false, false],
            &[0, 2, 3, 1],
            &[0, 3, 2, 1]
        ),
        Ok(true)
    );
}
