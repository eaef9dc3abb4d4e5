// Faces, components and genus of each type that tells a rotation system.
ghost use Rattle.std.specs.Prelude.{◌≡◌, ℕ, ◌≤◌, ◌↔◌, IsTrue, length};
ghost use Rattle.cp_rot.specs.Systems.{System, darts};
ghost use Rattle.cp_rot.specs.Genus.{FaceCount, ComponentCount, HasGenusZero};

use crate::components::least_vertices;
use crate::faces::{bare_vertices, least_darts};
use crate::system::RotationSystem;

/// The number of faces: the orbits of the step along a dart and on to the next one, and the
/// vertices at which no dart stands. `marks` has at least as many places as there are darts; what
/// stands in it before and after is open. Linear in the numbers of vertices and darts.
pub fn faces_of<T: RotationSystem>(t: &T, marks: &mut [bool]) -> usize
    requires { darts (T.system t.now) ≤ length marks.old }
    ensures { FaceCount (T.system t.now) result }
{
    let least = least_darts(t, marks);
    let bare = bare_vertices(t);
    least + bare
}

/// The number of connected components. `marks` and `stack` have at least as many places as there
/// are vertices; what stands in them before and after is open. Linear in the numbers of vertices
/// and darts.
pub fn components_of<T: RotationSystem>(t: &T, marks: &mut [bool], stack: &mut [usize]) -> usize
    requires marks { (T.system t.now).vertices ≤ length marks.old }
    requires stack { (T.system t.now).vertices ≤ length stack.old }
    ensures { ComponentCount (T.system t.now) result }
{
    least_vertices(t, marks, stack)
}

/// Whether the Euler genus is zero: V - E + F = 2C, counted over all components. `dart_marks` has
/// at least as many places as there are darts, `marks` and `stack` as there are vertices; what
/// stands in them before and after is open. Linear in the numbers of vertices and darts.
pub fn euler_zero_of<T: RotationSystem>(
    t: &T,
    dart_marks: &mut [bool],
    marks: &mut [bool],
    stack: &mut [usize],
) -> bool
    requires dart_marks { darts (T.system t.now) ≤ length dart_marks.old }
    requires marks { (T.system t.now).vertices ≤ length marks.old }
    requires stack { (T.system t.now).vertices ≤ length stack.old }
    ensures { IsTrue result ↔ HasGenusZero (T.system t.now) }
{
    let vertices = t.vertices();
    let darts = t.darts();
    let faces = faces_of(t, dart_marks);
    let components = components_of(t, marks, stack);
    vertices + faces == darts / 2 + 2 * components
}
