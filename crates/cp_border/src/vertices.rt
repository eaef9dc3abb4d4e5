// For each dart of the border graph the vertex at which it stands, written into places that the
// caller lends.
ghost use Rattle.std.specs.Prelude.{◌≡◌, ◌+◌, ◌*◌, ◌<◌, ◌≤◌, length, slice_index};
ghost use Rattle.cp_cgraph.specs.Clustered.{edges, clusters};
ghost use Rattle.cp_rot.specs.Systems.{darts, vertex_of};
ghost use Rattle.cp_border.specs.Borders.{borders, cluster_list, first_border_edge, first_segment, segments};
ghost use Rattle.cp_border.specs.Tables.{HoldsTable, segment_vertices};

use crate::arranged::{Arranged, place_behind};

impl<'a> Arranged<'a> {
    // Writes where the darts of the segments of edge `e` stand, behind those of the edges before it.
    fn write_edge(&self, e: usize, at: &mut [usize])
        requires edge { e < edges self.now.graph.now }
        requires room { 2 * segments self.now.graph.now ≤ length at.old }
        requires done { HoldsTable (2 * first_segment self.now.graph.now e) at.old (slice_index (segment_vertices self.now.graph.now)) }
        ensures { HoldsTable (2 * first_segment self.now.graph.now (e + 1)) at.new (slice_index (segment_vertices self.now.graph.now)) }
    {
        let (source, target) = self.graph.ends(e);
        let border = self.graph.nodes() + self.first[e];
        let start = 2 * (e + self.first[e]);
        let count = self.graph.crossed(e);
        at[start] = source;
        for i in 0..count {
            at[start + 2 * i + 1] = border + i;
            at[start + 2 * i + 2] = border + i;
        }
        at[start + 2 * count + 1] = target;
    }

    // Writes where the darts of all segments stand.
    fn write_segments(&self, at: &mut [usize])
        requires { 2 * segments self.now.graph.now ≤ length at.old }
        ensures { HoldsTable (2 * segments self.now.graph.now) at.new (slice_index (segment_vertices self.now.graph.now)) }
    {
        for e in 0..self.graph.edges() {
            self.write_edge(e, at);
        }
    }

    // Writes where the darts of the border edges of cluster `c` stand, from place `start` on.
    fn write_border(&self, c: usize, start: usize, at: &mut [usize])
        requires inner { 0 < c }
        requires cluster { c < clusters self.now.graph.now }
        requires room { darts (borders self.now.graph.now self.now.layout.now) ≤ length at.old }
        requires start { start ≡ 2 * first_border_edge self.now.graph.now self.now.layout.now c }
        requires done { HoldsTable start at.old (vertex_of (borders self.now.graph.now self.now.layout.now)) }
        ensures { HoldsTable (start + 2 * length (cluster_list self.now.layout.now c)) at.new (vertex_of (borders self.now.graph.now self.now.layout.now)) }
    {
        let count = self.border_items(c).len();
        for k in 0..count {
            at[start + 2 * k] = self.item_vertex(c, k);
            at[start + 2 * k + 1] = self.item_vertex(c, place_behind(count, k));
        }
    }

    // Writes for each dart of the border graph the vertex at which it stands.
    pub(crate) fn write_at(&self, at: &mut [usize])
        requires { darts (borders self.now.graph.now self.now.layout.now) ≤ length at.old }
        ensures { HoldsTable (darts (borders self.now.graph.now self.now.layout.now)) at.new (vertex_of (borders self.now.graph.now self.now.layout.now)) }
    {
        self.write_segments(at);
        let mut start = 2 * (self.graph.edges() + self.first[self.graph.edges()]);
        for c in 1..self.graph.clusters() {
            self.write_border(c, start, at);
            start += 2 * self.border_items(c).len();
        }
    }
}
