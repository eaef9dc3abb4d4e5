// The skeletons of graphs that are read from text.
ghost use Rattle.std.specs.Prelude.{◌≡◌};
ghost use Rattle.cp_skel.specs.SkeletonTables.{told_skeletons};

use crate::{Skeletons, Vertex, skeletons_of};
use cp_base::Memory;
use cp_cgraph::{CGraph, read_graph};
use cp_sync::{Board, Instance};
use std::alloc::Global;
use std::test::Fail;

// The ends of all edges.
fn all_ends(alloc: Global, i: &Instance) -> Result<Vec<(usize, usize)>, Memory> {
    let mut ends = Vec::new(alloc);
    for e in &i.edges(alloc)? {
        ends.push(i.ends(*e))?;
    }
    Ok(ends)
}

// The names of the vertices of all nodes.
fn all_nodes(alloc: Global, g: &CGraph, k: &Skeletons) -> Result<Vec<usize>, Memory>
    requires { k.now ≡ told_skeletons g.now }
{
    let mut names = Vec::new(alloc);
    for v in 0..g.nodes() {
        names.push(k.node_vertex(v))?;
    }
    Ok(names)
}

// The names of the vertices of all clusters.
fn all_clusters(
    alloc: Global,
    g: &CGraph,
    k: &Skeletons,
) -> Result<Vec<(Option<usize>, Option<usize>)>, Memory>
    requires { k.now ≡ told_skeletons g.now }
{
    let mut names = Vec::new(alloc);
    for c in 0..g.clusters() {
        names.push((k.child_vertex(c), k.outside_vertex(c)))?;
    }
    Ok(names)
}

// What a text gives: the names of the vertices of its nodes and of its clusters, and the ends of the edges.
type Row = (
    &'static [u8],
    &'static [usize],
    &'static [(Option<usize>, Option<usize>)],
    &'static [(usize, usize)],
);

// A cluster with two nodes; three edges leave it from one of them and one from the other.
const WORKED: &[u8] =
    b"graph [ node [ id 1 ] node [ id 2 ] node [ id 3 ] node [ id 4 ] edge [ source 1 target 3 ] edge [ source 1 target 3 ] edge [ source 1 target 4 ] edge [ source 2 target 3 ] ] rootcluster [ cluster [ vertex 1 vertex 2 ] ]";

// An empty cluster, and one that no edge leaves, with a loop.
const LEFT_BY_NONE: &[u8] =
    b"graph [ node [ id 1 ] node [ id 2 ] edge [ source 1 target 1 ] edge [ source 1 target 2 ] ] rootcluster [ cluster [ ] cluster [ vertex 1 vertex 2 ] ]";

// An edge that enters two nested clusters, one of which has no node of its own.
const ENTERED: &[u8] =
    b"graph [ node [ id 1 ] node [ id 2 ] edge [ source 2 target 1 ] ] rootcluster [ cluster [ cluster [ vertex 1 ] ] ]";

// Whether the skeletons of the graph have these names and ends.
fn fits(alloc: Global, row: &Row) -> Result<bool, Memory> {
    let Ok(g) = read_graph(alloc, row.0) else {
        return Err(Memory);
    };
    let k = skeletons_of(alloc, &g)?;
    let nodes = all_nodes(alloc, &g, &k)?;
    let clusters = all_clusters(alloc, &g, &k)?;
    let ends = all_ends(alloc, k.instance())?;
    Ok(nodes.as_slice() == row.1 && clusters.as_slice() == row.2 && ends.as_slice() == row.3)
}

#[test]
fn vertices_and_edges_have_their_names(rt: HostRuntime) -> Result<(), Fail> {
    let rows: [Row; 3] = [
        (
            WORKED,
            &[3, 4, 0, 1],
            &[(None, None), (Some(2), Some(5))],
            &[
                (3, 5),
                (2, 0),
                (3, 5),
                (2, 0),
                (3, 5),
                (2, 1),
                (4, 5),
                (2, 0),
            ],
        ),
        (
            LEFT_BY_NONE,
            &[0, 1],
            &[(None, None), (None, None), (None, None)],
            &[(0, 1)],
        ),
        (
            ENTERED,
            &[4, 0],
            &[(None, None), (Some(1), Some(3)), (Some(2), Some(5))],
            &[(0, 1), (3, 2), (5, 4)],
        ),
    ];
    for row in &rows {
        assert!(rt; fits(rt.alloc(), row)?);
    }
    Ok(())
}

// Appends a chain of nested clusters, the innermost of which names a node.
fn push_chain(text: &mut Vec<u8>, vertex: &[u8], depth: usize) -> Result<(), Memory> {
    for _k in 0..depth {
        text.extend_from_slice(b" cluster [")?;
    }
    text.extend_from_slice(vertex)?;
    for _k in 0..depth {
        text.extend_from_slice(b" ]")?;
    }
    Ok(())
}

// A text with two chains of `depth` nested clusters, and an edge from the innermost of the one to that of the other.
fn chains(alloc: Global, depth: usize) -> Result<Vec<u8>, Memory> {
    let mut text = Vec::from_slice(
        alloc,
        b"graph [ node [ id 1 ] node [ id 2 ] edge [ source 1 target 2 ] ] rootcluster [",
    )?;
    push_chain(&mut text, b" vertex 1", depth)?;
    push_chain(&mut text, b" vertex 2", depth)?;
    text.extend_from_slice(b" ]")?;
    Ok(text)
}

// The numbers of vertices and edges of the skeletons.
fn sizes(alloc: Global, text: &[u8]) -> Result<(usize, usize), Memory> {
    let Ok(g) = read_graph(alloc, text) else {
        return Err(Memory);
    };
    let k = skeletons_of(alloc, &g)?;
    let verts = k.instance().verts(alloc)?;
    let edges = k.instance().edges(alloc)?;
    Ok((verts.len(), edges.len()))
}

#[test]
fn an_edge_leaves_many_nested_clusters(rt: HostRuntime) -> Result<(), Fail> {
    let alloc = rt.alloc();
    let text = chains(alloc, 511)?;
    assert_eq!(rt; sizes(alloc, text.as_slice())?, (2046usize, 1023usize));
    Ok(())
}

// What the last vertex stands for, and the edge of the graph of the last edge.
fn last_names(alloc: Global, g: &CGraph, k: &Skeletons) -> Result<Option<(Vertex, usize)>, Memory>
    requires { k.now ≡ told_skeletons g.now }
{
    let verts = k.instance().verts(alloc)?;
    let edges = k.instance().edges(alloc)?;
    if verts.len() == 0 || edges.len() == 0 {
        return Ok(None);
    }
    Ok(Some((k.vertex(verts.len() - 1), k.graph_edge(edges.len() - 1))))
}

// The same of a text.
fn last_of(alloc: Global, text: &[u8]) -> Result<Option<(Vertex, usize)>, Memory> {
    let Ok(g) = read_graph(alloc, text) else {
        return Err(Memory);
    };
    let k = skeletons_of(alloc, &g)?;
    last_names(alloc, &g, &k)
}

#[test]
fn names_lead_back(rt: HostRuntime) -> Result<(), Fail> {
    assert_eq!(rt;
        last_of(rt.alloc(), WORKED)?,
        Some((Vertex::Outside(1), 3usize))
    );
    Ok(())
}
