// The border graph as a rotation system that is looked up through tables and not stored.
ghost use Rattle.std.specs.Prelude.{◌≡◌, ◌<◌, ◌≤◌, length, slice_index};
ghost use Rattle.cp_cgraph.specs.Clustered.{nodes, edges};
ghost use Rattle.cp_rot.specs.Systems.{list_of};
ghost use Rattle.cp_border.specs.Borders.{borders, first_border};
ghost use Rattle.cp_border.specs.Views.{IsTold};

use crate::BorderTables;
use crate::arranged::Arranged;
use cp_cgraph::{CGraph, Layout};
use cp_rot::RotationSystem;
use std::marker::Model;

/// The border graph of a graph and an arranged layout, as its tables tell it. It takes no memory,
/// and each call takes constant time.
#[derive(Drop)]
pub struct View<'a> {
    arranged: Arranged<'a>,
    at: &'a [usize],
    next: &'a [usize],
    begins: &'a [usize],
}

impl<'a> Model for View<'a> {
    ghost use Rattle.cp_border.specs.Views.{Drawn, IsTold};

    ghost Value = { Drawn };

    ghost view = { λ t. record { graph = t.arranged.graph.now; layout = t.arranged.layout.now } };

    ghost invariant = { λ t. IsTold t.arranged.graph.now t.arranged.layout.now record { first = t.arranged.first.now; at = t.at.now; following = t.next.now; begins = t.begins.now } };
}

impl<'a> View<'a> {
    /// The border graph that these tables tell.
    pub fn new(g: &'a CGraph, lay: &'a Layout, tables: &'a BorderTables) -> View<'a>
        requires { IsTold g.now lay.now tables.now }
        ensures { result ≡ record { graph = g.now; layout = lay.now } }
    {
        let arranged = Arranged {
            graph: g,
            layout: lay,
            first: &tables.first,
        };
        View {
            arranged,
            at: &tables.at,
            next: &tables.next,
            begins: &tables.begins,
        }
    }

    // The dart at place `i` of the list of border vertex `v`.
    fn border_item(&self, v: usize, i: usize) -> usize
        requires border { nodes self.now.graph ≤ v }
        requires vertex { v < first_border self.now.graph (edges self.now.graph) }
        requires place { i < length (list_of (borders self.now.graph self.now.layout) v) }
        ensures { result ≡ slice_index (list_of (borders self.now.graph self.now.layout) v) i }
    {
        let mut dart = self.begins[v - self.arranged.graph.nodes()];
        for _k in 0..i {
            dart = self.next[dart];
        }
        dart
    }
}

impl<'a> RotationSystem for View<'a> {
    ghost use Rattle.cp_border.specs.Borders.{borders};

    ghost system = { λ t. borders t.graph t.layout };

    fn vertices(&self) -> usize {
        let arranged = &self.arranged;
        arranged.graph.nodes() + arranged.first[arranged.graph.edges()]
    }

    fn darts(&self) -> usize {
        let arranged = &self.arranged;
        let edges = arranged.graph.edges();
        2 * (edges + 2 * arranged.first[edges])
    }

    fn at(&self, d: usize) -> usize {
        let _ = &self.arranged;
        self.at[d]
    }

    fn next(&self, d: usize) -> usize {
        let _ = &self.arranged;
        self.next[d]
    }

    fn degree(&self, v: usize) -> usize {
        if v < self.arranged.graph.nodes() {
            self.arranged.node_items(v).len()
        } else {
            4
        }
    }

    fn item(&self, v: usize, i: usize) -> usize {
        if v < self.arranged.graph.nodes() {
            self.arranged.node_item(v, i)
        } else {
            self.border_item(v, i)
        }
    }

    fn is_rotation(&self) {
        let _ = (self.vertices(), self.darts());
    }
}
