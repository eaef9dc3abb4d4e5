// Blocks with given lists.
ghost use Rattle.std.specs.Prelude.{◌≡◌, ◌<◌, [], length, replicate, IfOk, MatchOption};
ghost use Rattle.cp_base.specs.Graphs.{AreWithin};
ghost use Rattle.cp_conn.specs.Blocks.{HaveNoLoop};
ghost use Rattle.cp_embed.specs.ListedBlocks.{IsListedBlock, AreRowsOfEdges, edges_at, list_given};

use cp_base::{CycList, Graph, Items, Memory};
use std::alloc::Global;
use std::marker::Model;

/// For each vertex a cyclic list of its edges, or none. Contracts see it as the list of these.
pub type PsiList = Items<Option<CycList>>;

/// A block, and for some of its vertices a cyclic list of their edges, which they keep in either direction. Contracts
/// see the graph and the list of the optional lists, by vertex.
#[derive(Drop)]
pub struct QBlock {
    graph: Graph,
    psi: PsiList,
    edges: Vec<Items<usize>>,
}

impl Model for QBlock {
    ghost use Rattle.cp_embed.specs.ListedBlocks.{ListedGraph, IsListedBlock, AreRowsOfEdges};
    ghost use Rattle.std.specs.Prelude.{length};

    ghost Value = { ListedGraph };

    ghost view = { λ b. record { graph = b.graph; lists = b.psi } };

    ghost invariant = { λ b. IsListedBlock (record { graph = b.graph; lists = b.psi }) × AreRowsOfEdges b.graph.vertices b.graph.ends (length b.graph.ends) b.edges.items };
}

// An empty row for each vertex.
fn empty_rows(alloc: Global, vertices: usize) -> Result<Vec<Items<usize>>, Memory>
    ensures { IfOk result (λ rows. rows.items ≡ replicate vertices []) }
{
    let mut rows = Vec::with_capacity(alloc, vertices)?;
    for _ in 0..vertices {
        rows.push(Items::new(alloc))?;
    }
    Ok(rows)
}

// The edges of each vertex, rising. Linear in the numbers of vertices and edges.
fn edges_by_vertex(
    alloc: Global,
    vertices: usize,
    ends: &[(usize, usize)],
) -> Result<Vec<Items<usize>>, Memory>
    requires within { AreWithin vertices ends.now }
    requires no_loop { HaveNoLoop ends.now }
    ensures { IfOk result (λ rows. AreRowsOfEdges vertices ends.now (length ends.now) rows.items) }
{
    let mut rows = empty_rows(alloc, vertices)?;
    for edge in 0..ends.len() {
        let (first, second) = ends[edge];
        rows[first].push(edge)?;
        rows[second].push(edge)?;
    }
    Ok(rows)
}

// The same list, or none.
fn copy_of_list(alloc: Global, list: &Option<CycList>) -> Result<Option<CycList>, Memory>
    ensures { IfOk result (λ copy. copy ≡ list.now) }
{
    match list {
        None => Ok(None),
        Some(items) => Ok(Some(CycList::from_slice(alloc, items.items())?)),
    }
}

// The same lists.
fn copy_of_lists(alloc: Global, lists: &[Option<CycList>]) -> Result<PsiList, Memory>
    ensures { IfOk result (λ copies. copies ≡ lists.now) }
{
    let mut copies = Items::new(alloc);
    for list in lists {
        copies.push(copy_of_list(alloc, list)?)?;
    }
    Ok(copies)
}

impl QBlock {
    /// The block of the graph with these lists. Linear in the numbers of vertices and edges.
    pub fn from_parts(alloc: Global, graph: Graph, psi: PsiList) -> Result<QBlock, Memory>
        requires { IsListedBlock (record { graph = graph; lists = psi }) }
        ensures { IfOk result (λ block. block ≡ record { graph = graph; lists = psi }) }
    {
        let edges = edges_by_vertex(alloc, graph.vertices(), graph.ends())?;
        Ok(QBlock { graph, psi, edges })
    }

    /// The graph. It takes no memory.
    pub fn graph(&self) -> &Graph
        ensures value { result.now ≡ self.now.graph }
        ensures block { IsListedBlock self.now }
    {
        &self.graph
    }

    /// The edges of a vertex, rising. It takes no memory.
    pub fn edges_at(&self, vertex: usize) -> &[usize]
        requires { vertex < self.now.graph.vertices }
        ensures value { result.now ≡ edges_at self.now.graph.ends vertex }
        ensures block { IsListedBlock self.now }
    {
        self.edges[vertex].items()
    }

    /// The list that is given for a vertex. It takes no memory.
    pub fn list_of(&self, vertex: usize) -> Option<&CycList>
        requires { vertex < self.now.graph.vertices }
        ensures { MatchOption result (list_given self.now.lists vertex ≡ None) (λ list. list_given self.now.lists vertex ≡ Some list.now) }
    {
        self.psi.items()[vertex].as_ref()
    }

    // The lists of all vertices.
    fn lists(&self) -> &[Option<CycList>]
        ensures { result.now ≡ self.now.lists }
    {
        self.psi.items()
    }

    /// An equal block. Linear in its size.
    pub fn copy(&self, alloc: Global) -> Result<QBlock, Memory>
        ensures { IfOk result (λ copy. copy ≡ self.now) }
    {
        let graph = Graph::from_ends(alloc, self.graph().vertices(), self.graph().ends())?;
        let psi = copy_of_lists(alloc, self.lists())?;
        let block = QBlock::from_parts(alloc, graph, psi)?;
        Ok(block)
    }
}
