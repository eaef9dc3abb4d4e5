// The vertices that stand for the components, by search from each vertex that was not found yet.
ghost use Rattle.std.specs.Prelude.{◌≡◌, ℕ, ◌<◌, ◌≤◌, ◌↔◌, ◌⊎◌, ◌+◌, Bool, true, false, length, slice_index, slice_index_or};
ghost use Rattle.cp_lists.specs.Count.{IsCount, count};
ghost use Rattle.cp_orbits.specs.Connected.{Connected, IsLeastConnected};
ghost use Rattle.cp_rot.specs.Systems.{System, IsRotation, darts, list_of};
ghost use Rattle.cp_rot.specs.Genus.{end_pairs, Joined};
ghost use Rattle.cp_rot.specs.Tables.{IsMarked, IsUnmarked};
ghost use Rattle.cp_rot.specs.Search.{IsPushed, IsClosed, neighbour_at, unmarked};

use crate::faces::clear;
use crate::system::{RotationSystem, other_dart};

// The vertex at the other end of the dart at place i of the list of vertex v.
fn neighbour<T: RotationSystem>(t: &T, v: usize, i: usize) -> usize
    requires vertex { v < (T.system t.now).vertices }
    requires place { i < length (list_of (T.system t.now) v) }
    ensures within { result < (T.system t.now).vertices }
    ensures value { result ≡ neighbour_at (T.system t.now) v i }
{
    t.is_rotation();
    t.at(other_dart(t.item(v, i)))
}

// Marks the unmarked neighbours of vertex w, and puts them on the stack of the given height. The
// new height is returned.
fn push_neighbours<T: RotationSystem>(
    t: &T,
    w: usize,
    marks: &mut [bool],
    stack: &mut [usize],
    height: usize,
) -> usize
    requires vertex { w < (T.system t.now).vertices }
    requires marks { (T.system t.now).vertices ≤ length marks.old }
    requires stack { (T.system t.now).vertices ≤ length stack.old }
    requires room { height + unmarked (T.system t.now) marks.old ≤ (T.system t.now).vertices }
    ensures { IsPushed (T.system t.now) w (length (list_of (T.system t.now) w)) marks.old stack.old height marks.new stack.new result }
{
    let mut top = height;
    for i in 0..t.degree(w) {
        let x = neighbour(t, w, i);
        if !marks[x] {
            marks[x] = true;
            stack[top] = x;
            top += 1;
        }
    }
    top
}

// Marks the vertices of the component of vertex v, which is not marked yet.
fn mark_component<T: RotationSystem>(t: &T, v: usize, marks: &mut [bool], stack: &mut [usize])
    requires rotation { IsRotation (T.system t.now) }
    requires vertex { v < (T.system t.now).vertices }
    requires marks { (T.system t.now).vertices ≤ length marks.old }
    requires stack { (T.system t.now).vertices ≤ length stack.old }
    requires unmarked { IsUnmarked marks.old v }
    requires closed { IsClosed (T.system t.now) marks.old }
    ensures { (x : ℕ) → x < (T.system t.now).vertices → IsMarked marks.new x ↔ (IsMarked marks.old x ⊎ Joined (T.system t.now) v x) }
{
    marks[v] = true;
    stack[0] = v;
    let mut height = 1;
    while height > 0 {
        height -= 1;
        let w = stack[height];
        height = push_neighbours(t, w, marks, stack, height);
    }
}

// The number of vertices that are the least of their component.
pub(crate) fn least_vertices<T: RotationSystem>(
    t: &T,
    marks: &mut [bool],
    stack: &mut [usize],
) -> usize
    requires marks { (T.system t.now).vertices ≤ length marks.old }
    requires stack { (T.system t.now).vertices ≤ length stack.old }
    ensures { IsCount (IsLeastConnected (end_pairs (T.system t.now).at)) (T.system t.now).vertices result }
{
    let vertices = t.vertices();
    clear(marks, vertices);
    let mut least = 0;
    for v in 0..vertices {
        if !marks[v] {
            mark_component(t, v, marks, stack);
            least += 1;
        }
    }
    least
}
