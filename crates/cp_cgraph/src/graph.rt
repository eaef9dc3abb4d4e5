// Clustered graphs as they are stored, and what they tell of their nodes, edges and clusters.
ghost use Rattle.std.specs.Prelude.{◌≡◌, ◌^◌, ◌<◌, ◌≤◌, ◌↔◌, ◌==◌, true, IfOk, length};
ghost use Rattle.std.specs.List.{filter, position_or_len, range_with_len};
ghost use Rattle.cp_lists.specs.Count.{Exactly};
ghost use Rattle.cp_cgraph.specs.Clustered.{IsClustered, nodes, edges, clusters, source, target, parent, home, id};
ghost use Rattle.cp_cgraph.specs.Crossings.{contains, leaves, crossings, IsWithin};
ghost use Rattle.cp_cgraph.specs.LookUps.{IsNested, AreFromTo, depth};

use crate::look_ups::{crossed, depths, lasts};
use crate::stored::Stored;
use crate::walks::{sides, with_reversed};
use cp_base::Memory;
use std::alloc::Global;
use std::marker::Model;

/// A clustered graph (Feng, Cohen and Eades 1995): the ids of the nodes, the two end nodes of each
/// edge, the parent of each cluster from cluster 1 on, and the home of each node, which is the
/// innermost cluster that has it. Nodes, edges and clusters are numbered from 0 on in the order in
/// which they were read, and cluster 0 is the root, which has all nodes.
#[derive(Debug, Drop)]
pub struct CGraph {
    stored: Stored,
    // for each cluster, the greatest number of a cluster within it
    lasts: Vec<usize>,
    // for each cluster, the number of clusters round it, with itself and without the root
    depths: Vec<usize>,
    // for each edge, the number of clusters that it leaves
    crossed: Vec<usize>,
}

impl Model for CGraph {
    ghost use Rattle.cp_cgraph.specs.Clustered.{Clustered};
    ghost use Rattle.cp_cgraph.specs.LookUps.{AreLookUps};

    ghost Value = { Clustered };

    ghost view = { λ g. g.stored };

    ghost invariant = { λ g. AreLookUps g.stored g.lasts.items g.depths.items g.crossed.items };
}

impl CGraph {
    // The graph of these tables, with those that are made of them.
    pub(crate) fn from_stored(alloc: Global, stored: Stored) -> Result<CGraph, Memory>
        requires { IsNested stored }
        ensures { IfOk result (λ g. g ≡ stored) }
    {
        let lasts = lasts(&stored, alloc)?;
        let depths = depths(&stored, alloc)?;
        let crossed = crossed(&stored, alloc)?;
        Ok(CGraph {
            stored,
            lasts,
            depths,
            crossed,
        })
    }

    /// A law, which does nothing when it runs: edges end at nodes, homes and parents are clusters, and
    /// parents have lower numbers; neither edges nor clusters are more than 2^60.
    pub fn is_clustered(&self)
        ensures clustered { IsClustered self.now }
        ensures few_edges { edges self.now < 2 ^ 60 }
        ensures few_clusters { clusters self.now ≤ 2 ^ 60 }
    {
        self.stored.is_clustered();
    }

    // The greatest number of a cluster within cluster `c`.
    fn last(&self, c: usize) -> usize
        requires { c < clusters self.now }
        ensures { AreFromTo self.now c result }
    {
        self.lasts[c]
    }

    // The number of clusters round cluster `c`, with itself and without the root.
    fn depth(&self, c: usize) -> usize
        requires { c < clusters self.now }
        ensures { result ≡ depth self.now c }
    {
        self.depths[c]
    }

    /// The number of nodes.
    pub fn nodes(&self) -> usize
        ensures value { result ≡ nodes self.now }
        ensures bound { result < 2 ^ 60 }
        ensures clustered { IsClustered self.now }
    {
        self.is_clustered();
        self.stored.nodes()
    }

    /// The number of edges.
    pub fn edges(&self) -> usize
        ensures value { result ≡ edges self.now }
        ensures bound { result < 2 ^ 60 }
    {
        self.stored.edges()
    }

    /// The number of clusters, with the root.
    pub fn clusters(&self) -> usize
        ensures value { result ≡ clusters self.now }
        ensures bound { result ≤ 2 ^ 60 }
    {
        self.stored.clusters()
    }

    /// The id that node `v` has in the file.
    pub fn id(&self, v: usize) -> i32
        requires { v < nodes self.now }
        ensures { result ≡ id self.now v }
    {
        self.stored.id(v)
    }

    /// The numbers of the source and the target node of edge `e`.
    pub fn ends(&self, e: usize) -> (usize, usize)
        requires { e < edges self.now }
        ensures ends { result ≡ (source self.now e, target self.now e) }
        ensures source { source self.now e < nodes self.now }
        ensures target { target self.now e < nodes self.now }
    {
        self.stored.ends(e)
    }

    /// The home of node `v`: the number of the innermost cluster that has it.
    pub fn home(&self, v: usize) -> usize
        requires { v < nodes self.now }
        ensures value { result ≡ home self.now v }
        ensures cluster { result < clusters self.now }
    {
        self.stored.home(v)
    }

    /// The cluster directly round cluster `c`, which is not the root. Its number is lower.
    pub fn parent(&self, c: usize) -> usize
        requires inner { 0 < c }
        requires cluster { c < clusters self.now }
        ensures value { result ≡ parent self.now c }
        ensures lower { result < c }
    {
        self.stored.parent(c)
    }

    /// Whether cluster `c` contains node `v`: it is the root, or the node's home or a cluster round
    /// that. Constant time.
    pub fn contains(&self, c: usize, v: usize) -> bool
        requires cluster { c < clusters self.now }
        requires node { v < nodes self.now }
        ensures { result ≡ contains self.now c v }
    {
        self.is_clustered();
        let home = self.home(v);
        c <= home && home <= self.last(c)
    }

    /// Whether edge `e` leaves cluster `c`: the cluster contains exactly one of its two nodes. Constant
    /// time.
    pub fn leaves(&self, c: usize, e: usize) -> bool
        requires cluster { c < clusters self.now }
        requires edge { e < edges self.now }
        ensures { result ≡ leaves self.now c e }
    {
        let (source, target) = self.ends(e);
        if self.contains(c, source) {
            !self.contains(c, target)
        } else {
            self.contains(c, target)
        }
    }

    /// The edges that leave cluster `c`, by rising number. Time in the number of edges.
    pub fn leaving(&self, alloc: Global, c: usize) -> Result<Vec<usize>, Memory>
        requires { c < clusters self.now }
        ensures { IfOk result (λ found. found.items ≡ filter (leaves self.now c) (range_with_len 0 (edges self.now))) }
    {
        let found = (0..self.edges())
            .filter(|e| self.leaves(c, *e))
            .collect(alloc)?;
        Ok(found)
    }

    /// The clusters that edge `e` leaves, in the order in which it crosses their borders: those that
    /// contain the source, from the innermost outward, and then those that contain the target, from
    /// the outermost inward. Time in the number of these clusters.
    pub fn crossings(&self, alloc: Global, e: usize) -> Result<Vec<usize>, Memory>
        requires { e < edges self.now }
        ensures { IfOk result (λ found. found.items ≡ crossings self.now e) }
    {
        self.is_clustered();
        let (left, entered) = sides(&self.stored, alloc, e)?;
        let found = with_reversed(left, entered)?;
        Ok(found)
    }

    /// The number of clusters that edge `e` leaves. Constant time.
    pub fn crossed(&self, e: usize) -> usize
        requires { e < edges self.now }
        ensures value { result ≡ length (crossings self.now e) }
        ensures bound { result < 2 ^ 61 }
    {
        self.is_clustered();
        self.crossed[e]
    }

    /// The place of cluster `c` among the clusters that edge `e` leaves, counted from 0. Constant time.
    pub fn place(&self, e: usize, c: usize) -> usize
        requires edge { e < edges self.now }
        requires cluster { c < clusters self.now }
        requires left { leaves self.now c e ≡ true }
        ensures { result ≡ position_or_len (λ x. x == c) (crossings self.now e) }
    {
        self.is_clustered();
        let (source, target) = self.ends(e);
        if self.contains(c, source) {
            self.depth(self.home(source)) - self.depth(c)
        } else {
            self.crossed(e) - 1 - (self.depth(self.home(target)) - self.depth(c))
        }
    }

    /// A cluster contains a node exactly where it is the node's home or lies round it.
    pub fn contains_within(&self, c: usize, v: usize)
        requires cluster { c < clusters self.now }
        requires node { v < nodes self.now }
        ensures { (contains self.now c v ≡ true) ↔ IsWithin self.now c (home self.now v) }
    {
        self.is_clustered();
    }

    /// The crossings of an edge are exactly the clusters that it leaves, each once.
    pub fn crossings_are_left(&self, e: usize)
        requires { e < edges self.now }
        ensures { Exactly (clusters self.now) (λ c. leaves self.now c e) (crossings self.now e) }
    {
        self.is_clustered();
    }
}
