// The names of the segments, and those that meet at the borders.
ghost use Rattle.std.specs.Prelude.{◌≡◌, ◌+◌, ◌<◌, ◌^◌, true, [], IfOk, OnOk, length, map};
ghost use Rattle.cp_cgraph.specs.Clustered.{IsClustered, clusters, edges};
ghost use Rattle.cp_cgraph.specs.Crossings.{leaves};
ghost use Rattle.cp_skel.specs.Skeletons.{below, kept_segments};
ghost use Rattle.cp_skel.specs.SolutionLayouts.{name_edge};
ghost use Rattle.cp_skel.specs.SkeletonTables.{ArePaired, border_pair_of, first_name, first_names, graph_edges, left_clusters};

use crate::tables::{empty_lists, push_at};
use cp_base::Memory;
use cp_board::Pairs;
use cp_cgraph::CGraph;
use std::alloc::Global;

// Appends edge `e` once for each of its segments, unless it is a loop.
fn push_segments(g: &CGraph, e: usize, owners: &mut Vec<usize>) -> Result<(), Memory>
    requires edge { e < edges g.now }
    requires done { owners.old.items ≡ map (name_edge g.now) (below (first_name g.now e)) }
    ensures { OnOk result (owners.new.items ≡ map (name_edge g.now) (below (first_name g.now (e + 1)))) }
{
    let (source, target) = g.ends(e);
    if source == target {
        return Ok(());
    }
    for _k in 0..g.crossed(e) + 1 {
        owners.push(e)?;
    }
    Ok(())
}

// The name of the first segment of each edge, and for each name the edge of the segment. Linear in the segments.
pub(crate) fn named_segments(alloc: Global, g: &CGraph) -> Result<(Vec<usize>, Vec<usize>), Memory>
    ensures firsts { IfOk result (λ t. t.0.items ≡ first_names g.now) }
    ensures owners { IfOk result (λ t. t.1.items ≡ graph_edges g.now) }
    ensures few { IfOk result (λ t. length (kept_segments g.now) < 2 ^ 63) }
{
    let mut firsts = Vec::new(alloc);
    let mut owners = Vec::new(alloc);
    for e in 0..g.edges() {
        firsts.push(owners.len())?;
        push_segments(g, e, &mut owners)?;
    }
    Ok((firsts, owners))
}

// A graph with the name of the first segment of each edge.
#[derive(Drop)]
pub(crate) struct Segments<'a> {
    pub(crate) graph: &'a CGraph,
    pub(crate) firsts: &'a [usize],
    ghost clustered: { IsClustered graph.now },
    ghost size: { length firsts.now ≡ edges graph.now },
    ghost told: { firsts.now ≡ first_names graph.now },
    ghost few: { length (kept_segments graph.now) < 2 ^ 63 },
}

impl<'a> Segments<'a> {
    // The names of the segments of edge `e` outside and inside the border of cluster `c`.
    fn border_pair(&self, c: usize, e: usize) -> (usize, usize)
        requires edge { e < edges self.now.graph.now }
        requires cluster { c < clusters self.now.graph.now }
        requires left { leaves self.now.graph.now c e ≡ true }
        ensures { result ≡ border_pair_of self.now.graph.now c e }
    {
        let (source, _target) = self.graph.ends(e);
        let ahead = self.firsts[e] + self.graph.place(e, c);
        if self.graph.contains(c, source) {
            (ahead + 1, ahead)
        } else {
            (ahead, ahead + 1)
        }
    }

    // Adds the pairs of edge `e` to those of the edges before it.
    fn push_pairs(&self, alloc: Global, e: usize, pairs: &mut Vec<Pairs>) -> Result<(), Memory>
        requires edge { e < edges self.now.graph.now }
        requires done { ArePaired self.now.graph.now e [] pairs.old.items }
        ensures { OnOk result (ArePaired self.now.graph.now (e + 1) [] pairs.new.items) }
    {
        let crossings = self.graph.crossings(alloc, e)?;
        self.graph.crossings_are_left(e);
        for c in &crossings {
            push_at(pairs, *c, self.border_pair(*c, e))?;
        }
        Ok(())
    }

    // For each cluster the names of the segments outside and inside its border of each edge that leaves it, by edges.
    // Linear in the segments.
    pub(crate) fn pairs(&self, alloc: Global) -> Result<Vec<Pairs>, Memory>
        ensures { IfOk result (λ pairs. ArePaired self.now.graph.now (edges self.now.graph.now) [] pairs.items) }
    {
        let mut pairs = empty_lists(alloc, self.graph.clusters())?;
        for e in 0..self.graph.edges() {
            self.push_pairs(alloc, e, &mut pairs)?;
        }
        Ok(pairs)
    }
}

// Whether some edge leaves each cluster, by the pairs at its border. Linear in the clusters.
pub(crate) fn left_by_pairs(alloc: Global, g: &CGraph, pairs: &[Pairs]) -> Result<Vec<bool>, Memory>
    requires { ArePaired g.now (edges g.now) [] pairs.now }
    ensures { IfOk result (λ left. left.items ≡ left_clusters g.now) }
{
    let mut left = Vec::new(alloc);
    for c in 0..g.clusters() {
        left.push(pairs[c].len() > 0)?;
    }
    Ok(left)
}
