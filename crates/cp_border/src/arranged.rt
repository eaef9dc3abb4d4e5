// A graph and an arranged layout of it, with the numbers of the border vertices before each edge.
ghost use Rattle.std.specs.Prelude.{◌≡◌, ◌==◌, true, ◌+◌, ◌*◌, ◌^◌, ◌<◌, length, map, slice_index};
ghost use Rattle.std.specs.List.{position_or_len};
ghost use Rattle.cp_cgraph.specs.Clustered.{IsClustered, nodes, edges, clusters};
ghost use Rattle.cp_cgraph.specs.Crossings.{crossings, leaves};
ghost use Rattle.cp_rot.specs.Systems.{darts, place_after};
ghost use Rattle.cp_border.specs.Borders.{borders, sum_below, border_vertex, cluster_list, crossed, end_dart, first_border, first_border_edge, first_segment, node_list, place_before};
ghost use Rattle.cp_border.specs.Good.{IsArranged};
ghost use Rattle.cp_border.specs.ArrangedFacts.{IsArranged-prop};
ghost use Rattle.cp_border.specs.Tables.{HoldsTable, list_at};

use cp_cgraph::{CGraph, Layout};

// A clustered graph, an arranged layout of it, and a table that tells for each edge the number of
// border vertices before it, and last that of all. From these each dart of the border graph is known.
#[derive(Drop)]
pub(crate) struct Arranged<'a> {
    pub(crate) graph: &'a CGraph,
    pub(crate) layout: &'a Layout,
    pub(crate) first: &'a [usize],
    ghost clustered: { IsClustered graph.now },
    ghost arranged: { IsArranged graph.now layout.now } by { IsArranged-prop graph.now layout.now },
    ghost few_vertices: { first_border graph.now (edges graph.now) < 2 ^ 59 },
    ghost few_edges: { edges graph.now + 2 * sum_below (crossed graph.now) (edges graph.now) < 2 ^ 59 },
    ghost first_told: { HoldsTable (edges graph.now + 1) first.now (sum_below (crossed graph.now)) },
}

// The place behind place `k` in a cyclic list of `count` items.
pub(crate) fn place_behind(count: usize, k: usize) -> usize
    requires { k < count }
    ensures { result ≡ place_after count k }
{
    if k + 1 == count { 0 } else { k + 1 }
}

// The place before place `k` in a cyclic list of `count` items.
fn place_ahead(count: usize, k: usize) -> usize
    requires { k < count }
    ensures { result ≡ place_before count k }
{
    if k == 0 { count - 1 } else { k - 1 }
}

// The list of node `v`.
fn list_of_node(lay: &Layout, v: usize) -> &[usize]
    requires { v < length lay.now.nodes }
    ensures { result.now ≡ node_list lay.now v }
{
    lay.nodes.items()[v].items()
}

// The list of cluster `c`.
fn list_of_cluster(lay: &Layout, c: usize) -> &[usize]
    requires inner { 0 < c }
    requires cluster { c < length lay.now.clusters + 1 }
    ensures { result.now ≡ cluster_list lay.now c }
{
    lay.clusters.items()[c - 1].items()
}

impl<'a> Arranged<'a> {
    // The dart of a segment that touches the node where dart `d` of the graph stands.
    fn end_of(&self, d: usize) -> usize
        requires { d < 2 * edges self.now.graph.now }
        ensures { result ≡ end_dart self.now.graph.now d }
    {
        let e = d / 2;
        if d % 2 == 0 {
            2 * (e + self.first[e])
        } else {
            2 * (e + self.first[e] + self.graph.crossed(e)) + 1
        }
    }

    // The darts of the graph at node `v`, in the order of the layout.
    pub(crate) fn node_items(&self, v: usize) -> &'a [usize]
        requires { v < nodes self.now.graph.now }
        ensures { result.now ≡ node_list self.now.layout.now v }
    {
        list_of_node(self.layout, v)
    }

    // The dart of the border graph at place `i` of the list of node `v`.
    pub(crate) fn node_item(&self, v: usize, i: usize) -> usize
        requires node { v < nodes self.now.graph.now }
        requires place { i < length (node_list self.now.layout.now v) }
        ensures value { result ≡ slice_index (map (end_dart self.now.graph.now) (node_list self.now.layout.now v)) i }
        ensures dart { result < darts (borders self.now.graph.now self.now.layout.now) }
    {
        self.end_of(self.node_items(v)[i])
    }

    // The edges that cross the border of cluster `c`, in the order of the layout.
    pub(crate) fn border_items(&self, c: usize) -> &'a [usize]
        requires inner { 0 < c }
        requires cluster { c < clusters self.now.graph.now }
        ensures { result.now ≡ cluster_list self.now.layout.now c }
    {
        list_of_cluster(self.layout, c)
    }

    // The edge at place `k` of the list of cluster `c`.
    fn border_item(&self, c: usize, k: usize) -> usize
        requires inner { 0 < c }
        requires cluster { c < clusters self.now.graph.now }
        requires place { k < length (cluster_list self.now.layout.now c) }
        ensures value { result ≡ slice_index (cluster_list self.now.layout.now c) k }
        ensures edge { result < edges self.now.graph.now }
        ensures left { leaves self.now.graph.now c result ≡ true }
    {
        self.border_items(c)[k]
    }

    // The border vertex at which edge `e` crosses the border of cluster `c`.
    fn vertex_at(&self, e: usize, c: usize) -> usize
        requires edge { e < edges self.now.graph.now }
        requires cluster { c < clusters self.now.graph.now }
        requires left { leaves self.now.graph.now c e ≡ true }
        ensures { result ≡ border_vertex self.now.graph.now e c }
    {
        self.graph.nodes() + self.first[e] + self.graph.place(e, c)
    }

    // The border vertex of the edge at place `k` of the list of cluster `c`.
    pub(crate) fn item_vertex(&self, c: usize, k: usize) -> usize
        requires inner { 0 < c }
        requires cluster { c < clusters self.now.graph.now }
        requires place { k < length (cluster_list self.now.layout.now c) }
        ensures { result ≡ border_vertex self.now.graph.now (slice_index (cluster_list self.now.layout.now c) k) c }
    {
        self.vertex_at(self.border_item(c, k), c)
    }

    // The number of the segment that edge `e` ends with before it crosses the border of cluster `c`.
    fn segment_before(&self, e: usize, c: usize) -> usize
        requires edge { e < edges self.now.graph.now }
        requires cluster { c < clusters self.now.graph.now }
        requires left { leaves self.now.graph.now c e ≡ true }
        ensures value { result ≡ first_segment self.now.graph.now e + position_or_len (λ x. x == c) (crossings self.now.graph.now e) }
        ensures bound { result < 2 ^ 61 }
    {
        e + (self.vertex_at(e, c) - self.graph.nodes())
    }

    // The list of the border vertex of the edge at place `k` of the list of cluster `c`, whose border
    // edges have the darts from `start` on.
    pub(crate) fn border_darts(&self, c: usize, k: usize, start: usize) -> [usize; 4]
        requires inner { 0 < c }
        requires cluster { c < clusters self.now.graph.now }
        requires place { k < length (cluster_list self.now.layout.now c) }
        requires start { start ≡ 2 * first_border_edge self.now.graph.now self.now.layout.now c }
        ensures { result ≡ list_at self.now.graph.now self.now.layout.now c k }
    {
        let count = self.border_items(c).len();
        let e = self.border_item(c, k);
        let segment = self.segment_before(e, c);
        let (source, _target) = self.graph.ends(e);
        let ahead = place_ahead(count, k);
        let begins = start + 2 * k;
        let finishes = start + 2 * ahead + 1;
        if self.graph.contains(c, source) {
            [begins, 2 * segment + 1, finishes, 2 * segment + 2]
        } else {
            [begins, 2 * segment + 2, finishes, 2 * segment + 1]
        }
    }
}
