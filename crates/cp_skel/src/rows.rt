// The vertices, edges and pipes of the skeletons.
ghost use Rattle.std.specs.Prelude.{◌≡◌, ◌≢◌, ◌+◌, ◌<◌, true, [], IfOk, OnOk, length, map};
ghost use Rattle.cp_board.specs.declared.parts.Kind.TheVariants.{P};
ghost use Rattle.cp_cgraph.specs.Clustered.{IsClustered, clusters, edges, nodes, nodes as nodes_of, source, target};
ghost use Rattle.cp_cgraph.specs.Crossings.{leaves};
ghost use Rattle.cp_skel.specs.Skeletons.{begins_at_border, below, ends_at_border, is_left, skeletons, vertex_name};
ghost use Rattle.cp_skel.specs.SkeletonTables.{ArePaired, child_names, first_name, first_rows, left_clusters, node_names, outside_names};
ghost use Rattle.cp_skel.specs.declared.vertex.Vertex.TheVariants.{Child, Node, Outside};

use cp_base::Memory;
use cp_board::{EdgeRow, EdgeRows, Kind, Pairs, Pipe, Pipes, Vert, Verts};
use cp_cgraph::CGraph;
use std::alloc::Global;
use std::mem;

// A graph with the names of the vertices of its nodes and of its clusters.
#[derive(Drop)]
pub(crate) struct VertexNames<'a> {
    pub(crate) graph: &'a CGraph,
    pub(crate) nodes: &'a [usize],
    pub(crate) children: &'a [Option<usize>],
    pub(crate) outsides: &'a [Option<usize>],
    ghost clustered: { IsClustered graph.now },
    ghost nodes_size: { length nodes.now ≡ nodes_of graph.now },
    ghost children_size: { length children.now ≡ clusters graph.now },
    ghost outsides_size: { length outsides.now ≡ clusters graph.now },
    ghost nodes_told: { nodes.now ≡ node_names graph.now },
    ghost children_told: { children.now ≡ child_names graph.now },
    ghost outsides_told: { outsides.now ≡ outside_names graph.now },
}

// Vertices of any order, named from 0 on. Linear.
pub(crate) fn plain_vertices(alloc: Global, n: usize) -> Result<Verts, Memory>
    ensures { IfOk result (λ verts. verts ≡ map (λ v. record { name = v; kind = P }) (below n)) }
{
    let mut verts = Verts::new(alloc);
    for name in 0..n {
        verts.push(Vert {
            name,
            kind: Kind::P,
        })?;
    }
    Ok(verts)
}

impl<'a> VertexNames<'a> {
    // The name of the vertex of node `v`.
    fn node(&self, v: usize) -> usize
        requires { v < nodes self.now.graph.now }
        ensures { result ≡ vertex_name self.now.graph.now (Node v) }
    {
        self.nodes[v]
    }

    // The name of the vertex of cluster `c` in the skeleton of its parent.
    fn child(&self, c: usize) -> usize
        requires cluster { c < clusters self.now.graph.now }
        requires left { is_left self.now.graph.now c ≡ true }
        ensures { result ≡ vertex_name self.now.graph.now (Child c) }
    {
        match self.children[c] {
            Some(name) => name,
            None => unreachable!(),
        }
    }

    // The name of the vertex for the outside of cluster `c`.
    fn outside(&self, c: usize) -> usize
        requires cluster { c < clusters self.now.graph.now }
        requires left { is_left self.now.graph.now c ≡ true }
        ensures { result ≡ vertex_name self.now.graph.now (Outside c) }
    {
        match self.outsides[c] {
            Some(name) => name,
            None => unreachable!(),
        }
    }

    // Where the segments of edge `e` stand at the border of cluster `c`: the one that ends there, and the one that
    // begins there.
    fn at_border(&self, e: usize, c: usize) -> (usize, usize)
        requires edge { e < edges self.now.graph.now }
        requires cluster { c < clusters self.now.graph.now }
        requires left { is_left self.now.graph.now c ≡ true }
        ensures { result ≡ (vertex_name self.now.graph.now (ends_at_border self.now.graph.now e c), vertex_name self.now.graph.now (begins_at_border self.now.graph.now e c)) }
    {
        let (source, _target) = self.graph.ends(e);
        if self.graph.contains(c, source) {
            (self.outside(c), self.child(c))
        } else {
            (self.child(c), self.outside(c))
        }
    }

    // Appends the edges of the segments of edge `e`, which is no loop, to those of the edges before it.
    fn push_segments(&self, alloc: Global, e: usize, rows: &mut EdgeRows) -> Result<(), Memory>
        requires edge { e < edges self.now.graph.now }
        requires no_loop { source self.now.graph.now e ≢ target self.now.graph.now e }
        requires done { rows.old ≡ first_rows self.now.graph.now e }
        ensures { OnOk result (rows.new ≡ first_rows self.now.graph.now (e + 1)) }
    {
        let crossings = self.graph.crossings(alloc, e)?;
        let (source, target) = self.graph.ends(e);
        let mut at = self.node(source);
        for c in &crossings {
            let (ends, begins) = self.at_border(e, *c);
            rows.push(EdgeRow {
                name: rows.len(),
                a: at,
                b: ends,
            })?;
            at = begins;
        }
        rows.push(EdgeRow {
            name: rows.len(),
            a: at,
            b: self.node(target),
        })?;
        Ok(())
    }

    // The edges of the skeletons. Linear in the segments.
    pub(crate) fn edge_rows(&self, alloc: Global) -> Result<EdgeRows, Memory>
        ensures { IfOk result (λ rows. rows ≡ first_rows self.now.graph.now (edges self.now.graph.now)) }
    {
        let mut rows = EdgeRows::new(alloc);
        for e in 0..self.graph.edges() {
            let (source, target) = self.graph.ends(e);
            if source != target {
                self.push_segments(alloc, e, &mut rows)?;
            }
        }
        Ok(rows)
    }

    // The pipes of the skeletons, by the pairs at the border of each cluster. Linear in the clusters.
    pub(crate) fn pipes(
        &self,
        alloc: Global,
        left: &[bool],
        pairs: &mut [Pairs],
    ) -> Result<Pipes, Memory>
        requires left { left.now ≡ left_clusters self.now.graph.now }
        requires pairs { ArePaired self.now.graph.now (edges self.now.graph.now) [] pairs.old }
        ensures { IfOk result (λ pipes. pipes ≡ (skeletons self.now.graph.now).pipes) }
    {
        let mut pipes = Pipes::new(alloc);
        for c in 0..self.graph.clusters() {
            if left[c] {
                let own = mem::replace(&mut pairs[c], Pairs::new(alloc));
                pipes.push(Pipe {
                    name: pipes.len(),
                    a: self.child(c),
                    b: self.outside(c),
                    pairs: own,
                })?;
            }
        }
        Ok(pipes)
    }
}
