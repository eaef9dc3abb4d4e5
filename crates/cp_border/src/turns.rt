// For each dart of the border graph the next one round its vertex, and for each border vertex the
// dart with which its list begins, written into places that the caller lends.
ghost use Rattle.std.specs.Prelude.{◌≡◌, ◌≢◌, ℕ, ◌+◌, ◌*◌, ◌<◌, ◌≤◌, length, slice_index, slice_set};
ghost use Rattle.cp_cgraph.specs.Clustered.{nodes, edges, clusters};
ghost use Rattle.cp_rot.specs.Systems.{darts, place_after};
ghost use Rattle.cp_border.specs.Borders.{borders, sum_below, cluster_list, crossed, first_border_edge};
ghost use Rattle.cp_border.specs.Views.{HasTurn, IsViewedUpto};

use crate::arranged::{Arranged, place_behind};

// Writes for each item which one is behind it in the cyclic list.
fn write_turn(items: &[usize], next: &mut [usize])
    requires within { (i : ℕ) → i < length items.now → slice_index items.now i < length next.old }
    requires distinct { (i j : ℕ) → i < length items.now → j < length items.now → slice_index items.now i ≡ slice_index items.now j → i ≡ j }
    ensures written { (i : ℕ) → i < length items.now → slice_index next.new (slice_index items.now i) ≡ slice_index items.now (place_after (length items.now) i) }
    ensures others { (d : ℕ) → ((i : ℕ) → i < length items.now → slice_index items.now i ≢ d) → slice_index next.new d ≡ slice_index next.old d }
{
    for i in 0..items.len() {
        next[items[i]] = items[place_behind(items.len(), i)];
    }
}

// Writes the dart behind one dart.
fn write_dart(dart: usize, behind: usize, next: &mut [usize])
    requires { dart < length next.old }
    ensures { next.new ≡ slice_set next.old dart behind }
{
    next[dart] = behind;
}

impl<'a> Arranged<'a> {
    // Writes for each dart at node `v` the dart behind it, after those of the nodes before it.
    fn write_node(&self, v: usize, next: &mut [usize])
        requires node { v < nodes self.now.graph.now }
        requires room { darts (borders self.now.graph.now self.now.layout.now) ≤ length next.old }
        requires done { (w : ℕ) → w < v → HasTurn (borders self.now.graph.now self.now.layout.now) next.old w }
        ensures { (w : ℕ) → w < v + 1 → HasTurn (borders self.now.graph.now self.now.layout.now) next.new w }
    {
        let count = self.node_items(v).len();
        for i in 0..count {
            let dart = self.node_item(v, i);
            let behind = self.node_item(v, place_behind(count, i));
            write_dart(dart, behind, next);
        }
    }

    // Writes for each dart at a node the dart behind it.
    fn write_nodes(&self, next: &mut [usize])
        requires { darts (borders self.now.graph.now self.now.layout.now) ≤ length next.old }
        ensures { (w : ℕ) → w < nodes self.now.graph.now → HasTurn (borders self.now.graph.now self.now.layout.now) next.new w }
    {
        for v in 0..self.graph.nodes() {
            self.write_node(v, next);
        }
    }

    // Writes the border vertex of the edge at place `k` of the list of cluster `c`, whose border
    // edges have the darts from `start` on.
    fn write_item(&self, c: usize, k: usize, start: usize, next: &mut [usize], begins: &mut [usize])
        requires inner { 0 < c }
        requires cluster { c < clusters self.now.graph.now }
        requires place { k < length (cluster_list self.now.layout.now c) }
        requires start { start ≡ 2 * first_border_edge self.now.graph.now self.now.layout.now c }
        requires room { darts (borders self.now.graph.now self.now.layout.now) ≤ length next.old }
        requires vertices { sum_below (crossed self.now.graph.now) (edges self.now.graph.now) ≤ length begins.old }
        requires done { IsViewedUpto self.now.graph.now self.now.layout.now c k next.old begins.old }
        ensures { IsViewedUpto self.now.graph.now self.now.layout.now c (k + 1) next.new begins.new }
    {
        let vertex = self.item_vertex(c, k);
        let darts = self.border_darts(c, k, start);
        begins[vertex - self.graph.nodes()] = darts[0];
        write_turn(&darts, next);
    }

    // Writes the border vertices on the border of cluster `c`.
    fn write_cluster(&self, c: usize, start: usize, next: &mut [usize], begins: &mut [usize])
        requires inner { 0 < c }
        requires cluster { c < clusters self.now.graph.now }
        requires start { start ≡ 2 * first_border_edge self.now.graph.now self.now.layout.now c }
        requires room { darts (borders self.now.graph.now self.now.layout.now) ≤ length next.old }
        requires vertices { sum_below (crossed self.now.graph.now) (edges self.now.graph.now) ≤ length begins.old }
        requires done { IsViewedUpto self.now.graph.now self.now.layout.now c 0 next.old begins.old }
        ensures { IsViewedUpto self.now.graph.now self.now.layout.now (c + 1) 0 next.new begins.new }
    {
        for k in 0..self.border_items(c).len() {
            self.write_item(c, k, start, next, begins);
        }
    }

    // Writes all vertices: for each dart the one behind it in the list of its vertex, and for each
    // border vertex the first dart of its list.
    pub(crate) fn write_turns(&self, next: &mut [usize], begins: &mut [usize])
        requires room { darts (borders self.now.graph.now self.now.layout.now) ≤ length next.old }
        requires vertices { sum_below (crossed self.now.graph.now) (edges self.now.graph.now) ≤ length begins.old }
        ensures { IsViewedUpto self.now.graph.now self.now.layout.now (clusters self.now.graph.now) 0 next.new begins.new }
    {
        self.write_nodes(next);
        let mut start = 2 * (self.graph.edges() + self.first[self.graph.edges()]);
        for c in 1..self.graph.clusters() {
            self.write_cluster(c, start, next, begins);
            start += 2 * self.border_items(c).len();
        }
    }
}
