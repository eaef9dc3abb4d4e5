// What the counts need to know of a rotation system.
ghost use Rattle.std.specs.Prelude.{◌≡◌, ℕ, ◌^◌, ◌<◌, length, slice_index};
ghost use Rattle.cp_rot.specs.Systems.{System, IsRotation, darts, vertex_of, list_of, next};
ghost use Rattle.cp_faces.specs.Twins.{twin};

/// What tells a rotation system (Heffter 1891, Edmonds 1960): darts stand at vertices, and round
/// each vertex they have a cyclic order, counterclockwise. Vertices and darts are numbered from 0,
/// and edge e has dart 2e at its source and dart 2e + 1 at its target. The counts of faces and
/// components are proved once, for each type that tells a system, and are linear where each call
/// here takes constant time.
pub trait RotationSystem {
    // the rotation system that a value tells
    ghost system: { Self → System };

    /// The number of vertices.
    fn vertices(&self) -> usize
        ensures value { result ≡ (system self.now).vertices }
        ensures bound { result < 2 ^ 60 }
        ensures rotation { IsRotation (system self.now) };

    /// The number of darts, which is twice the number of edges.
    fn darts(&self) -> usize
        ensures value { result ≡ darts (system self.now) }
        ensures bound { result < 2 ^ 60 }
        ensures rotation { IsRotation (system self.now) };

    /// The number of the vertex at which dart `d` stands.
    fn at(&self, d: usize) -> usize
        requires { d < darts (system self.now) }
        ensures { result ≡ vertex_of (system self.now) d };

    /// The dart behind dart `d` in the list of its vertex, counterclockwise.
    fn next(&self, d: usize) -> usize
        requires { d < darts (system self.now) }
        ensures { result ≡ next (system self.now) d };

    /// The number of darts that stand at vertex `v`.
    fn degree(&self, v: usize) -> usize
        requires { v < (system self.now).vertices }
        ensures { result ≡ length (list_of (system self.now) v) };

    /// The dart at place `i`, counted from 0, of the list of vertex `v`.
    fn item(&self, v: usize, i: usize) -> usize
        requires vertex { v < (system self.now).vertices }
        requires place { i < length (list_of (system self.now) v) }
        ensures { result ≡ slice_index (list_of (system self.now) v) i };

    /// The law of each value: it tells a rotation system, and its numbers fit. Constant time.
    fn is_rotation(&self)
        ensures rotation { IsRotation (system self.now) }
        ensures vertices { (system self.now).vertices < 2 ^ 60 }
        ensures darts { darts (system self.now) < 2 ^ 60 };
}

// The other dart of the same edge.
pub(crate) fn other_dart(d: usize) -> usize
    requires { d < 2 ^ 60 }
    ensures { result ≡ twin d }
{
    if d % 2 == 0 { d + 1 } else { d - 1 }
}
