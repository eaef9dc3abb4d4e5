// The skeletons of a clustered graph, with what their vertices and edges stand for.
ghost use Rattle.std.specs.Prelude.{◌≡◌, ◌<◌, IfOk, length, None, slice_index, slice_index_or};
ghost use Rattle.cp_board.specs.Instances.{IsSynchronized};
ghost use Rattle.cp_sync.specs.Faults.{with_parts};
ghost use Rattle.cp_skel.specs.SkeletonTables.{told_skeletons};
ghost use Rattle.cp_skel.specs.declared.vertex.Vertex.TheVariants.{Node};

use crate::border_pairs::{Segments, left_by_pairs, named_segments};
use crate::names::{named_children, named_nodes, named_outsides};
use crate::order::ordered;
use crate::rows::{VertexNames, plain_vertices};
use crate::tables::nodes_by_home;
use crate::vertex::Vertex;
use cp_base::Memory;
use cp_board::{EdgeRows, Pipes, Verts};
use cp_cgraph::CGraph;
use cp_sync::{Instance, PartsFault};
use std::alloc::Global;
use std::marker::Model;

/// The skeletons of a clustered graph as one instance (Bläsius, Rutter 2016; Bläsius, Fink, Rutter 2021), with what
/// its vertices and edges stand for.
#[derive(Debug, Drop)]
pub struct Skeletons {
    instance: Instance,
    // what each vertex stands for, by its name
    vertices: Vec<Vertex>,
    // the name of the vertex of each node
    nodes: Vec<usize>,
    // the names of the vertices of each cluster that some edge leaves
    children: Vec<Option<usize>>,
    outsides: Vec<Option<usize>>,
    // the edge of the graph of each edge, by its name
    edges: Vec<usize>,
}

impl Model for Skeletons {
    ghost use Rattle.cp_skel.specs.SkeletonTables.{Told};

    ghost Value = { Told };

    ghost view = { λ k. record { instance = k.instance; vertices = k.vertices.items; nodes = k.nodes.items; children = k.children.items; outsides = k.outsides.items; edges = k.edges.items } };
}

impl Skeletons {
    /// The instance.
    pub fn instance(&self) -> &Instance
        ensures { result.now ≡ self.now.instance }
    {
        &self.instance
    }

    /// What the vertex of this name stands for.
    pub fn vertex(&self, name: usize) -> Vertex
        requires { name < length self.now.vertices }
        ensures { result ≡ slice_index_or self.now.vertices name (Node 0) }
    {
        self.vertices[name]
    }

    /// The name of the vertex of node `v`.
    pub fn node_vertex(&self, v: usize) -> usize
        requires { v < length self.now.nodes }
        ensures { result ≡ slice_index self.now.nodes v }
    {
        self.nodes[v]
    }

    /// The name of the vertex of cluster `c` in the skeleton of its parent. `None` for the root and for a cluster that
    /// no edge leaves.
    pub fn child_vertex(&self, c: usize) -> Option<usize>
        requires { c < length self.now.children }
        ensures { result ≡ slice_index_or self.now.children c None }
    {
        self.children[c]
    }

    /// The name of the vertex for all that lies outside cluster `c`, in its own skeleton. `None` for the root and for a
    /// cluster that no edge leaves.
    pub fn outside_vertex(&self, c: usize) -> Option<usize>
        requires { c < length self.now.outsides }
        ensures { result ≡ slice_index_or self.now.outsides c None }
    {
        self.outsides[c]
    }

    /// The edge of the graph of which the edge of this name is a segment.
    pub fn graph_edge(&self, name: usize) -> usize
        requires { name < length self.now.edges }
        ensures { result ≡ slice_index self.now.edges name }
    {
        self.edges[name]
    }
}

// The instance of parts that keep the rules.
fn whole(alloc: Global, verts: Verts, edges: EdgeRows, pipes: Pipes) -> Result<Instance, Memory>
    requires { IsSynchronized (with_parts verts edges pipes) }
    ensures { IfOk result (λ i. i ≡ with_parts verts edges pipes) }
{
    match Instance::from_parts(alloc, verts, edges, pipes) {
        Ok(instance) => Ok(instance),
        Err(PartsFault::Memory) => Err(Memory),
        Err(PartsFault::Broken { .. }) => unreachable!(),
    }
}

/// The skeletons of a clustered graph. Linear in the numbers of nodes, clusters and edges and in the number of times
/// that edges cross borders, up to a logarithm.
pub fn skeletons_of(alloc: Global, g: &CGraph) -> Result<Skeletons, Memory>
    ensures { IfOk result (λ k. k ≡ told_skeletons g.now) }
{
    let homes = nodes_by_home(alloc, g)?;
    let (firsts, edges) = named_segments(alloc, g)?;
    let segments = Segments {
        graph: g,
        firsts: firsts.as_slice(),
    };
    let mut pairs = segments.pairs(alloc)?;
    let left = left_by_pairs(alloc, g, pairs.as_slice())?;
    let vertices = ordered(alloc, g, homes.as_slice(), left.as_slice())?;
    let nodes = named_nodes(alloc, g, vertices.as_slice())?;
    let children = named_children(alloc, g, vertices.as_slice())?;
    let outsides = named_outsides(alloc, g, vertices.as_slice())?;
    let names = VertexNames {
        graph: g,
        nodes: nodes.as_slice(),
        children: children.as_slice(),
        outsides: outsides.as_slice(),
    };
    let rows = names.edge_rows(alloc)?;
    let pipes = names.pipes(alloc, left.as_slice(), pairs.as_mut_slice())?;
    let verts = plain_vertices(alloc, vertices.len())?;
    let instance = whole(alloc, verts, rows, pipes)?;
    Ok(Skeletons {
        instance,
        vertices,
        nodes,
        children,
        outsides,
        edges,
    })
}
