// The tables of a clustered graph that are read.
ghost use Rattle.std.specs.Prelude.{◌≡◌, ◌^◌, ◌<◌, ◌≤◌, length};
ghost use Rattle.cp_cgraph.specs.Clustered.{IsClustered, nodes, edges, clusters, source, target, parent, home, id};

use std::marker::Model;

// The ids of the nodes, the two end nodes of each edge, the parent of each cluster from cluster 1 on,
// and the home of each node. No memory holds more than 2^60 ends or parents.
#[derive(Debug, Drop)]
pub(crate) struct Stored {
    ids: Vec<i32>,
    ends: Vec<(usize, usize)>,
    parents: Vec<usize>,
    homes: Vec<usize>,
}

impl Model for Stored {
    ghost use Rattle.std.specs.Prelude.{◌^◌, ◌<◌, length};
    ghost use Rattle.cp_cgraph.specs.Clustered.{Clustered, IsClustered};

    ghost Value = { Clustered };

    ghost view = { λ g. record { ids = g.ids.items; ends = g.ends.items; parents = g.parents.items; homes = g.homes.items } };

    ghost invariant = { λ g. IsClustered record { ids = g.ids.items; ends = g.ends.items; parents = g.parents.items; homes = g.homes.items } × (length g.ends.items < 2 ^ 60) × (length g.parents.items < 2 ^ 60) };
}

impl Stored {
    // The graph of these tables.
    pub(crate) fn new(
        ids: Vec<i32>,
        ends: Vec<(usize, usize)>,
        parents: Vec<usize>,
        homes: Vec<usize>,
    ) -> Stored
        requires clustered { IsClustered record { ids = ids.items; ends = ends.items; parents = parents.items; homes = homes.items } }
        requires few_edges { length ends.items < 2 ^ 60 }
        requires few_parents { length parents.items < 2 ^ 60 }
        ensures { result ≡ record { ids = ids.items; ends = ends.items; parents = parents.items; homes = homes.items } }
    {
        Stored {
            ids,
            ends,
            parents,
            homes,
        }
    }

    // Edges end at nodes, homes and parents are clusters, and parents have lower numbers; neither edges
    // nor clusters are more than 2^60.
    pub(crate) fn is_clustered(&self)
        ensures clustered { IsClustered self.now }
        ensures few_edges { edges self.now < 2 ^ 60 }
        ensures few_clusters { clusters self.now ≤ 2 ^ 60 }
    {
        let _ = &self.homes;
    }

    pub(crate) fn nodes(&self) -> usize
        ensures value { result ≡ nodes self.now }
        ensures bound { result < 2 ^ 60 }
    {
        self.homes.as_slice().len()
    }

    pub(crate) fn edges(&self) -> usize
        ensures value { result ≡ edges self.now }
        ensures bound { result < 2 ^ 60 }
    {
        self.ends.as_slice().len()
    }

    pub(crate) fn clusters(&self) -> usize
        ensures value { result ≡ clusters self.now }
        ensures bound { result ≤ 2 ^ 60 }
    {
        self.parents.as_slice().len() + 1
    }

    pub(crate) fn id(&self, v: usize) -> i32
        requires { v < nodes self.now }
        ensures { result ≡ id self.now v }
    {
        self.ids[v]
    }

    pub(crate) fn ends(&self, e: usize) -> (usize, usize)
        requires { e < edges self.now }
        ensures ends { result ≡ (source self.now e, target self.now e) }
        ensures source { source self.now e < nodes self.now }
        ensures target { target self.now e < nodes self.now }
    {
        self.ends[e]
    }

    pub(crate) fn home(&self, v: usize) -> usize
        requires { v < nodes self.now }
        ensures value { result ≡ home self.now v }
        ensures cluster { result < clusters self.now }
    {
        self.homes[v]
    }

    pub(crate) fn parent(&self, c: usize) -> usize
        requires inner { 0 < c }
        requires cluster { c < clusters self.now }
        ensures value { result ≡ parent self.now c }
        ensures lower { result < c }
    {
        self.parents[c - 1]
    }
}
