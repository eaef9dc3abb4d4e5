// The layout that a solution of the skeletons gives.
ghost use Rattle.std.specs.Prelude.{◌≡◌, ◌^◌, ◌<◌, ℕ, IfOk, length, map};
ghost use Rattle.std.specs.List.{All};
ghost use Rattle.cp_lists.specs.Turns.{IsTurn, turned_to_least};
ghost use Rattle.cp_cgraph.specs.Clustered.{IsClustered, clusters, edges, nodes};
ghost use Rattle.cp_board.specs.Solutions.{IsSolution, list_in};
ghost use Rattle.cp_border.specs.Good.{IsGood};
ghost use Rattle.cp_skel.specs.SkeletonLists.{inner_clusters};
ghost use Rattle.cp_skel.specs.Skeletons.{all_vertices, below, kept_segments, segment_name, skeletons, vertex_name};
ghost use Rattle.cp_skel.specs.SkeletonTables.{AreLoopsTold, child_names, graph_edges, name_if_left, node_names, told_skeletons};
ghost use Rattle.cp_skel.specs.SolutionLayouts.{from_least, name_dart, name_edge, solution_layout, solved_cluster, solved_darts, solved_node};
ghost use Rattle.cp_skel.specs.VertexLists.{kept_list};
ghost use Rattle.cp_skel.specs.declared.vertex.Vertex.TheVariants.{Child, Node};

use crate::skeletons::Skeletons;
use crate::tables::{empty_lists, push_at};
use cp_base::{CycList, Items, Memory};
use cp_cgraph::{CGraph, CycLists, Layout};
use cp_sync::Solution;
use std::alloc::Global;

// A graph, its skeletons, and a list of segments for each vertex of them.
#[derive(Drop)]
struct Solved<'a> {
    graph: &'a CGraph,
    skeletons: &'a Skeletons,
    solution: &'a Solution,
    ghost clustered: { IsClustered graph.now },
    ghost few: { edges graph.now < 2 ^ 60 },
    ghost nodes_told: { skeletons.now.nodes ≡ node_names graph.now },
    ghost children_told: { skeletons.now.children ≡ child_names graph.now },
    ghost edges_told: { skeletons.now.edges ≡ graph_edges graph.now },
    ghost named: { map (λ row. row.0) solution.now ≡ below (length (all_vertices graph.now)) },
    ghost segments: { (v : ℕ) → v < length (all_vertices graph.now) → All (λ n. n < length (kept_segments graph.now)) (list_in solution.now v) },
}

// For each node the darts of its loops, each source before its target. Linear.
fn loops_by_node(alloc: Global, g: &CGraph) -> Result<Vec<Items<usize>>, Memory>
    ensures clustered { IsClustered g.now }
    ensures few { IfOk result (λ lists. edges g.now < 2 ^ 60) }
    ensures lists { IfOk result (λ lists. AreLoopsTold g.now (edges g.now) lists.items) }
{
    let mut lists = empty_lists(alloc, g.nodes())?;
    for e in 0..g.edges() {
        let (source, target) = g.ends(e);
        if source == target {
            push_at(&mut lists, source, 2 * e)?;
            push_at(&mut lists, source, 2 * e + 1)?;
        }
    }
    Ok(lists)
}

// The list from its least item on. Linear.
fn from_least_item(alloc: Global, items: &[usize]) -> Result<CycList, Memory>
    ensures { IfOk result (λ list. list ≡ turned_to_least items.now) }
{
    let mut list = CycList::from_slice(alloc, items)?;
    list.turn_to_least();
    Ok(list)
}

impl<'a> Solved<'a> {
    // The edge of the segment of this name.
    fn edge(&self, name: usize) -> usize
        requires { name < length (kept_segments self.now.graph.now) }
        ensures value { result ≡ name_edge self.now.graph.now name }
        ensures edge { result < edges self.now.graph.now }
    {
        self.skeletons.graph_edge(name)
    }

    // The dart of that edge at node `v`.
    fn dart(&self, v: usize, name: usize) -> usize
        requires { name < length (kept_segments self.now.graph.now) }
        ensures { result ≡ name_dart self.now.graph.now v name }
    {
        let e = self.edge(name);
        let (source, _target) = self.graph.ends(e);
        if source == v { 2 * e } else { 2 * e + 1 }
    }

    // The list of the vertex of this name.
    fn list(&self, vertex: usize) -> &[usize]
        requires { vertex < length (all_vertices self.now.graph.now) }
        ensures list { result.now ≡ list_in self.now.solution.now vertex }
        ensures segments { All (λ n. n < length (kept_segments self.now.graph.now)) result.now }
    {
        self.solution.list_of(vertex).items()
    }

    // The name of the vertex of node `v`.
    fn node(&self, v: usize) -> usize
        requires { v < nodes self.now.graph.now }
        ensures value { result ≡ vertex_name self.now.graph.now (Node v) }
        ensures vertex { result < length (all_vertices self.now.graph.now) }
    {
        self.skeletons.node_vertex(v)
    }

    // The name of the vertex of cluster `c` in the skeleton of its parent, if some edge leaves the cluster.
    fn child(&self, c: usize) -> Option<usize>
        requires { c < clusters self.now.graph.now }
        ensures { result ≡ name_if_left self.now.graph.now Child c }
    {
        self.skeletons.child_vertex(c)
    }

    // The darts at node `v` of edges that are no loops, as the solution has them.
    fn node_darts(&self, alloc: Global, v: usize) -> Result<Vec<usize>, Memory>
        requires { v < nodes self.now.graph.now }
        ensures { IfOk result (λ darts. darts.items ≡ solved_darts self.now.graph.now (list_in self.now.solution.now) v) }
    {
        let mut darts = Vec::new(alloc);
        for name in self.list(self.node(v)) {
            darts.push(self.dart(v, *name))?;
        }
        Ok(darts)
    }

    // The edges of the segments of a vertex, as the solution has them.
    fn edges_at(&self, alloc: Global, vertex: usize) -> Result<Vec<usize>, Memory>
        requires { vertex < length (all_vertices self.now.graph.now) }
        ensures { IfOk result (λ found. found.items ≡ map (name_edge self.now.graph.now) (list_in self.now.solution.now vertex)) }
    {
        let mut found = Vec::new(alloc);
        for name in self.list(vertex) {
            found.push(self.edge(*name))?;
        }
        Ok(found)
    }

    // The edges round cluster `c`, as the solution has them in the skeleton of its parent.
    fn cluster_edges(&self, alloc: Global, c: usize) -> Result<Vec<usize>, Memory>
        requires { c < clusters self.now.graph.now }
        ensures { IfOk result (λ found. found.items ≡ solved_cluster self.now.graph.now (list_in self.now.solution.now) c) }
    {
        match self.child(c) {
            None => Ok(Vec::new(alloc)),
            Some(vertex) => self.edges_at(alloc, vertex),
        }
    }

    // The list of each node, with its loops at the end, from its least dart on.
    fn node_lists(&self, alloc: Global, loops: &[Items<usize>]) -> Result<CycLists, Memory>
        requires { AreLoopsTold self.now.graph.now (edges self.now.graph.now) loops.now }
        ensures { IfOk result (λ lists. lists ≡ map (λ v. turned_to_least (solved_node self.now.graph.now (list_in self.now.solution.now) v)) (below (nodes self.now.graph.now))) }
    {
        let mut lists = CycLists::new(alloc);
        for v in 0..self.graph.nodes() {
            let mut darts = self.node_darts(alloc, v)?;
            darts.extend_from_slice(loops[v].items())?;
            lists.push(from_least_item(alloc, darts.as_slice())?)?;
        }
        Ok(lists)
    }

    // The list of each cluster but the root, from its least edge on.
    fn cluster_lists(&self, alloc: Global) -> Result<CycLists, Memory>
        ensures { IfOk result (λ lists. lists ≡ map (λ c. turned_to_least (solved_cluster self.now.graph.now (list_in self.now.solution.now) c)) (inner_clusters self.now.graph.now)) }
    {
        let mut lists = CycLists::new(alloc);
        for c in 1..self.graph.clusters() {
            let found = self.cluster_edges(alloc, c)?;
            lists.push(from_least_item(alloc, found.as_slice())?)?;
        }
        Ok(lists)
    }
}

/// The layout that a solution of the skeletons gives. The list of a node is that of its vertex, each segment replaced
/// by the dart of its edge there, with the loops at the end, each with its source before its target. The list of a
/// cluster is that of its vertex in the skeleton of its parent, each segment replaced by its edge. Each list begins
/// with its least item. Linear in the graph and in the number of times that edges cross borders, up to a logarithm.
pub fn borders_of(alloc: Global, g: &CGraph, k: &Skeletons, s: &Solution) -> Result<Layout, Memory>
    requires skeletons { k.now ≡ told_skeletons g.now }
    requires solution { IsSolution (skeletons g.now) s.now }
    ensures lists { IfOk result (λ l. l ≡ from_least (solution_layout g.now (list_in s.now))) }
    ensures good { IfOk result (IsGood g.now) }
    ensures nodes { IfOk result (λ l. (v : ℕ) → v < nodes g.now → IsTurn (map (segment_name g.now) (kept_list g.now l (Node v))) (list_in s.now (vertex_name g.now (Node v)))) }
{
    let loops = loops_by_node(alloc, g)?;
    let solved = Solved {
        graph: g,
        skeletons: k,
        solution: s,
    };
    let nodes = solved.node_lists(alloc, loops.as_slice())?;
    let clusters = solved.cluster_lists(alloc)?;
    Ok(Layout { nodes, clusters })
}
