// The darts that stand for the faces, by walks round the faces.
ghost use Rattle.std.specs.Prelude.{◌≡◌, ℕ, ◌<◌, ◌≤◌, ◌↔◌, ◌⊎◌, ◌^◌, IsTrue, Bool, true, false, length, slice_index_or};
ghost use Rattle.cp_lists.specs.Count.{IsCount};
ghost use Rattle.cp_orbits.specs.Orbits.{Reaches, IsLeastOfOrbit};
ghost use Rattle.cp_rot.specs.Systems.{System, IsRotation, darts, list_of};
ghost use Rattle.cp_rot.specs.Genus.{face_step, IsBare, InOneFace};
ghost use Rattle.cp_rot.specs.Tables.{IsMarked, IsUnmarked};

use crate::system::{RotationSystem, other_dart};

// Clears the first marks.
pub(crate) fn clear(marks: &mut [bool], count: usize)
    requires { count ≤ length marks.old }
    ensures { (x : ℕ) → x < count → IsUnmarked marks.new x }
{
    for x in 0..count {
        marks[x] = false;
    }
}

// The dart that comes after dart d on the walk round its face.
fn dart_after<T: RotationSystem>(t: &T, d: usize) -> usize
    requires { d < darts (T.system t.now) }
    ensures within { result < darts (T.system t.now) }
    ensures value { result ≡ face_step (T.system t.now) d }
{
    t.is_rotation();
    t.next(other_dart(d))
}

// Whether the walk round the face of dart x comes to dart y.
pub(crate) fn in_one_face<T: RotationSystem>(t: &T, x: usize, y: usize) -> bool
    requires { x < darts (T.system t.now) }
    ensures { IsTrue result ↔ InOneFace (T.system t.now) x y }
{
    let mut z = x;
    for _steps in 0..t.darts() {
        if z == y {
            return true;
        }
        z = dart_after(t, z);
        if z == x {
            return false;
        }
    }
    false
}

// Marks the darts of the face of dart d, none of which is marked yet.
fn mark_face<T: RotationSystem>(t: &T, d: usize, marks: &mut [bool])
    requires dart { d < darts (T.system t.now) }
    requires room { darts (T.system t.now) ≤ length marks.old }
    requires unmarked { (x : ℕ) → InOneFace (T.system t.now) d x → IsUnmarked marks.old x }
    ensures { (x : ℕ) → x < darts (T.system t.now) → IsMarked marks.new x ↔ (IsMarked marks.old x ⊎ InOneFace (T.system t.now) d x) }
{
    let mut x = d;
    while !marks[x] {
        marks[x] = true;
        x = dart_after(t, x);
    }
}

// The number of darts that are the least of their face.
pub(crate) fn least_darts<T: RotationSystem>(t: &T, marks: &mut [bool]) -> usize
    requires { darts (T.system t.now) ≤ length marks.old }
    ensures count { IsCount (IsLeastOfOrbit (face_step (T.system t.now))) (darts (T.system t.now)) result }
    ensures bound { result < 2 ^ 60 }
{
    let darts = t.darts();
    clear(marks, darts);
    let mut least = 0;
    for d in 0..darts {
        if !marks[d] {
            mark_face(t, d, marks);
            least += 1;
        }
    }
    least
}

// The number of vertices at which no dart stands.
pub(crate) fn bare_vertices<T: RotationSystem>(t: &T) -> usize
    ensures count { IsCount (IsBare (T.system t.now)) (T.system t.now).vertices result }
    ensures bound { result < 2 ^ 60 }
{
    let mut bare = 0;
    for v in 0..t.vertices() {
        if t.degree(v) == 0 {
            bare += 1;
        }
    }
    bare
}
