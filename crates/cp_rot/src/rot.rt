// Rotation systems that are stored, with a table of the next dart.
ghost use Rattle.std.specs.Prelude.{◌≡◌, ◌≢◌, ◌⊎◌, ℕ, ◌+◌, ◌*◌, ◌/◌, ◌^◌, ◌<◌, ◌≤◌, ◌↔◌, IsTrue, IfOk, IfErr, List, length, slice_index};
ghost use Rattle.cp_rot.specs.Systems.{System, IsRotation, darts, edges, vertex_of, list_of, next};
ghost use Rattle.cp_rot.specs.Genus.{FaceCount, ComponentCount, HasGenusZero, InOneFace, Joined};
ghost use Rattle.cp_rot.specs.Rewrites.{deleted, contraction, merged, with_edge, expanded};
ghost use Rattle.cp_rot.specs.Faults.{IsFaultOf};
ghost use Rattle.cp_rot.specs.Tables.{system_of};

use crate::adding::with_edge_between;
use crate::building::{copied_lists, next_table};
use crate::counting::{components_of, euler_zero_of, faces_of};
use crate::deleting::without_edge;
use crate::expanding::with_new_vertex;
use crate::faces::in_one_face;
use crate::merging::with_one_vertex;
use crate::storing::{lists_of, vertices_of_darts};
use crate::system::RotationSystem;
use crate::wrong::first_wrong;
use cp_base::{CycList, Memory};
use std::alloc::Global;
use std::marker::Model;

/// Why lists make no rotation system.
#[derive(Clone, Copy, Debug, PartialEq, Eq)]
pub enum RotFault {
    /// The list of this vertex is no arrangement of the darts that stand there, and no vertex of a
    /// lower number has such a list.
    NotARotation { vertex: usize },
    /// An allocation failed.
    Memory,
}

impl From<Memory> for RotFault {
    ghost use Rattle.cp_rot.specs.declared.rot.RotFault.{RotFault};

    ghost from_gives = { λ _ fault. fault ≡ RotFault.Memory };

    fn from(_error: Memory) -> RotFault {
        RotFault::Memory
    }
}

/// A rotation system (Heffter 1891, Edmonds 1960), seen as a number of vertices, the list of the
/// vertices at which the darts stand, and one list of darts per vertex, counterclockwise. Edge e
/// has dart 2e at its source and dart 2e + 1 at its target.
#[derive(Debug, Drop)]
pub struct Rot {
    at: Vec<usize>,
    lists: Vec<CycList>,
    table: Vec<usize>,
}

impl Model for Rot {
    ghost use Rattle.cp_rot.specs.Systems.{System};
    ghost use Rattle.cp_rot.specs.Tables.{IsStored, system_of};

    ghost Value = { System };

    ghost view = { λ rot. system_of rot.at.items rot.lists.items };

    ghost invariant = { λ rot. IsStored (system_of rot.at.items rot.lists.items) rot.table.items };
}

impl Rot {
    /// The system of these vertices, darts and lists. `at` tells for each dart the number of its
    /// vertex. `NotARotation` names the least vertex whose list is no arrangement of its darts.
    /// Linear in the numbers of vertices, darts and items.
    pub fn from_lists(
        alloc: Global,
        vertices: usize,
        at: &[usize],
        lists: &[CycList],
    ) -> Result<Rot, RotFault>
        requires even { length at.now ≡ 2 * (length at.now / 2) }
        requires placed { (d : ℕ) → d < length at.now → slice_index at.now d < vertices }
        requires listed { length lists.now ≡ vertices }
        ensures found { IfOk result (λ rot. rot ≡ record { vertices = vertices; at = at.now; lists = lists.now }) }
        ensures rotation { IfOk result (λ rot. IsRotation rot) }
        ensures fault { IfErr result (λ fault. IsFaultOf vertices at.now lists.now fault) }
    {
        match first_wrong(alloc, vertices, at, lists)? {
            Some(vertex) => Err(RotFault::NotARotation { vertex }),
            None => {
                let rot = Rot::from_rotation(alloc, at, lists)?;
                Ok(rot)
            }
        }
    }

    /// The system of lists that are known to make one, with as many vertices as there are lists:
    /// nothing is tested again. `at` tells for each dart the number of its vertex. Linear in the
    /// numbers of vertices, darts and items.
    pub fn from_rotation(alloc: Global, at: &[usize], lists: &[CycList]) -> Result<Rot, Memory>
        requires { IsRotation (system_of at.now lists.now) }
        ensures { IfOk result (λ rot. rot ≡ system_of at.now lists.now) }
    {
        let at = Vec::from_slice(alloc, at)?;
        let lists = copied_lists(alloc, lists)?;
        Rot::build(alloc, at, lists)
    }

    /// The same system as the value tells, stored. Linear in the numbers of vertices and darts where
    /// each call of the trait takes constant time.
    pub fn stored<T: RotationSystem>(alloc: Global, t: &T) -> Result<Rot, Memory>
        ensures { IfOk result (λ rot. rot ≡ T.system t.now) }
    {
        let at = vertices_of_darts(alloc, t)?;
        let lists = lists_of(alloc, t)?;
        Rot::build(alloc, at, lists)
    }

    // The same from vectors.
    fn build(alloc: Global, at: Vec<usize>, lists: Vec<CycList>) -> Result<Rot, Memory>
        requires { IsRotation (system_of at.items lists.items) }
        ensures { IfOk result (λ rot. rot ≡ system_of at.items lists.items) }
    {
        let table = next_table(alloc, at.as_slice(), lists.as_slice())?;
        Ok(Rot { at, lists, table })
    }

    /// The number of vertices.
    pub fn vertices(&self) -> usize
        ensures value { result ≡ self.now.vertices }
        ensures bound { result < 2 ^ 60 }
        ensures rotation { IsRotation self.now }
    {
        let _ = &self.table;
        self.lists.as_slice().len()
    }

    /// The number of darts, which is twice the number of edges.
    pub fn darts(&self) -> usize
        ensures value { result ≡ darts self.now }
        ensures bound { result < 2 ^ 60 }
        ensures rotation { IsRotation self.now }
    {
        let _ = &self.table;
        self.at.as_slice().len()
    }

    /// The law of each value: it is a rotation system, and its numbers fit. Constant time.
    pub fn is_rotation(&self)
        ensures rotation { IsRotation self.now }
        ensures vertices { self.now.vertices < 2 ^ 60 }
        ensures darts { darts self.now < 2 ^ 60 }
    {
        let _ = &self.table;
        let _ = (self.lists.as_slice().len(), self.at.as_slice().len());
    }

    /// The number of the vertex at which dart `d` stands.
    pub fn at(&self, d: usize) -> usize
        requires { d < darts self.now }
        ensures { result ≡ vertex_of self.now d }
    {
        self.at[d]
    }

    /// The dart behind dart `d` in the list of its vertex, counterclockwise. Constant time.
    pub fn next(&self, d: usize) -> usize
        requires { d < darts self.now }
        ensures { result ≡ next self.now d }
    {
        self.table[d]
    }

    /// The darts that stand at vertex `v`, counterclockwise.
    pub fn list(&self, v: usize) -> &CycList
        requires { v < self.now.vertices }
        ensures { result.now ≡ list_of self.now v }
    {
        &self.lists[v]
    }

    /// The number of faces: the orbits of the step along a dart and on to the next one, and the
    /// vertices at which no dart stands. `marks` has at least as many places as there are darts;
    /// what stands in it before and after is open. Linear in the numbers of vertices and darts.
    pub fn faces(&self, marks: &mut [bool]) -> usize
        requires { darts self.now ≤ length marks.old }
        ensures { FaceCount self.now result }
    {
        faces_of(self, marks)
    }

    /// The number of connected components. `marks` and `stack` have at least as many places as
    /// there are vertices; what stands in them before and after is open. Linear in the numbers of
    /// vertices and darts.
    pub fn components(&self, marks: &mut [bool], stack: &mut [usize]) -> usize
        requires marks { self.now.vertices ≤ length marks.old }
        requires stack { self.now.vertices ≤ length stack.old }
        ensures { ComponentCount self.now result }
    {
        components_of(self, marks, stack)
    }

    /// Whether the Euler genus is zero: V - E + F = 2C, counted over all components. `dart_marks`
    /// has at least as many places as there are darts, `marks` and `stack` as there are vertices;
    /// what stands in them before and after is open. Linear in the numbers of vertices and darts.
    pub fn euler_zero(
        &self,
        dart_marks: &mut [bool],
        marks: &mut [bool],
        stack: &mut [usize],
    ) -> bool
        requires dart_marks { darts self.now ≤ length dart_marks.old }
        requires marks { self.now.vertices ≤ length marks.old }
        requires stack { self.now.vertices ≤ length stack.old }
        ensures { IsTrue result ↔ HasGenusZero self.now }
    {
        euler_zero_of(self, dart_marks, marks, stack)
    }

    /// Whether darts `x` and `y` lie in one face: the walk round the face of `x` comes to `y`. Linear
    /// in the number of darts of that face.
    pub fn same_face(&self, x: usize, y: usize) -> bool
        requires first { x < darts self.now }
        requires second { y < darts self.now }
        ensures { IsTrue result ↔ InOneFace self.now x y }
    {
        in_one_face(self, x, y)
    }

    /// The system without edge `e`, whose number the last edge takes. A genus of zero stays zero.
    /// Linear in the numbers of vertices and darts.
    pub fn delete(&self, alloc: Global, e: usize) -> Result<Rot, Memory>
        requires { e < edges self.now }
        ensures result { IfOk result (λ rot. rot ≡ deleted self.now e) }
        ensures genus { IfOk result (λ rot. HasGenusZero self.now → HasGenusZero rot) }
    {
        let _ = &self.table;
        let (at, lists) = without_edge(alloc, self.at.as_slice(), self.lists.as_slice(), e)?;
        Rot::build(alloc, at, lists)
    }

    /// The system with the two vertices of edge `e`, which is no loop, made one: the list of its
    /// target is put in place of dart `2e`, from the dart behind `2e + 1` on. The last vertex takes
    /// the number of the target, and the last edge that of `e`. The genus is zero exactly where it
    /// was. Linear in the numbers of vertices and darts.
    pub fn contract(&self, alloc: Global, e: usize) -> Result<Rot, Memory>
        requires edge { e < edges self.now }
        requires no_loop { vertex_of self.now (2 * e) ≢ vertex_of self.now (2 * e + 1) }
        ensures result { IfOk result (λ rot. rot ≡ contraction self.now e) }
        ensures genus { IfOk result (λ rot. HasGenusZero rot ↔ HasGenusZero self.now) }
    {
        let _ = &self.table;
        let (d, f) = (2 * e, 2 * e + 1);
        let (at, lists) = with_one_vertex(alloc, self.at.as_slice(), self.lists.as_slice(), d, f)?;
        let (at, lists) = without_edge(alloc, at.as_slice(), lists.as_slice(), e)?;
        Rot::build(alloc, at, lists)
    }

    /// The system with the vertices of darts `d` and `f` made one: the list of the second vertex,
    /// turned so that `f` is its last dart, is put in behind `d`. The last vertex takes the number of
    /// the second. The darts behind `d` and `f` lie in one face, or the vertices in different
    /// components, so a genus of zero stays zero. Linear in the numbers of vertices and darts.
    pub fn merge_at(&self, alloc: Global, d: usize, f: usize) -> Result<Rot, Memory>
        requires first { d < darts self.now }
        requires second { f < darts self.now }
        requires apart { vertex_of self.now d ≢ vertex_of self.now f }
        requires place { InOneFace self.now (next self.now d) (next self.now f)
            ⊎ ¬ Joined self.now (vertex_of self.now d) (vertex_of self.now f) }
        ensures result { IfOk result (λ rot. rot ≡ merged self.now d f) }
        ensures genus { IfOk result (λ rot. HasGenusZero self.now → HasGenusZero rot) }
    {
        let _ = &self.table;
        let (at, lists) = with_one_vertex(alloc, self.at.as_slice(), self.lists.as_slice(), d, f)?;
        Rot::build(alloc, at, lists)
    }

    /// The system with an edge more, which begins directly behind dart `d` and ends directly behind
    /// dart `f`; where `d` is `f` its first dart comes first. The darts behind `d` and `f` lie in one
    /// face, so a genus of zero stays zero. Linear in the numbers of vertices and darts.
    pub fn add_in_face(&self, alloc: Global, d: usize, f: usize) -> Result<Rot, Memory>
        requires first { d < darts self.now }
        requires second { f < darts self.now }
        requires face { InOneFace self.now (next self.now d) (next self.now f) }
        ensures result { IfOk result (λ rot. rot ≡ with_edge self.now d f) }
        ensures genus { IfOk result (λ rot. HasGenusZero self.now → HasGenusZero rot) }
    {
        let _ = &self.table;
        let (at, lists) = with_edge_between(
            alloc,
            self.at.as_slice(),
            self.lists.as_slice(),
            d,
            f,
        )?;
        Rot::build(alloc, at, lists)
    }

    /// The system with the vertex of darts `d` and `f` expanded to an edge: the darts behind `d` up
    /// to `f`, none where `d` is `f`, move to a new vertex, where they stand behind the second dart of
    /// a new edge. Its first dart stands directly behind `d`, from which on the list is stored. The
    /// genus is zero exactly where it was. Linear in the numbers of vertices and darts.
    pub fn expand(&self, alloc: Global, d: usize, f: usize) -> Result<Rot, Memory>
        requires first { d < darts self.now }
        requires second { f < darts self.now }
        requires together { vertex_of self.now f ≡ vertex_of self.now d }
        ensures result { IfOk result (λ rot. rot ≡ expanded self.now d f) }
        ensures genus { IfOk result (λ rot. HasGenusZero rot ↔ HasGenusZero self.now) }
    {
        let _ = &self.table;
        let (at, lists) = with_new_vertex(alloc, self.at.as_slice(), self.lists.as_slice(), d, f)?;
        Rot::build(alloc, at, lists)
    }
}

impl RotationSystem for Rot {
    ghost system = { λ rot. rot };

    fn vertices(&self) -> usize {
        self.vertices()
    }

    fn darts(&self) -> usize {
        self.darts()
    }

    fn at(&self, d: usize) -> usize {
        self.at(d)
    }

    fn next(&self, d: usize) -> usize {
        self.next(d)
    }

    fn degree(&self, v: usize) -> usize {
        self.list(v).items().len()
    }

    fn item(&self, v: usize, i: usize) -> usize {
        self.list(v).items()[i]
    }

    fn is_rotation(&self) {
        self.is_rotation();
    }
}
