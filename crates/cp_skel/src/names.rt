// The names of the vertices of nodes and of clusters.
ghost use Rattle.std.specs.Prelude.{◌≡◌, IfOk};
ghost use Rattle.cp_cgraph.specs.Clustered.{IsClustered};
ghost use Rattle.cp_skel.specs.Skeletons.{all_vertices};
ghost use Rattle.cp_skel.specs.SkeletonTables.{child_names, node_names, outside_names};

use crate::vertex::Vertex;
use cp_base::Memory;
use cp_cgraph::CGraph;
use std::alloc::Global;

// The name of the vertex of each node. Linear.
pub(crate) fn named_nodes(
    alloc: Global,
    g: &CGraph,
    vertices: &[Vertex],
) -> Result<Vec<usize>, Memory>
    requires clustered { IsClustered g.now }
    requires vertices { vertices.now ≡ all_vertices g.now }
    ensures { IfOk result (λ names. names.items ≡ node_names g.now) }
{
    let mut names = vec![in alloc; 0; g.nodes()]?;
    for k in 0..vertices.len() {
        if let Vertex::Node(v) = vertices[k] {
            names[v] = k;
        }
    }
    Ok(names)
}

// The name of the vertex of each cluster that some edge leaves, in the skeleton of its parent. Linear.
pub(crate) fn named_children(
    alloc: Global,
    g: &CGraph,
    vertices: &[Vertex],
) -> Result<Vec<Option<usize>>, Memory>
    requires clustered { IsClustered g.now }
    requires vertices { vertices.now ≡ all_vertices g.now }
    ensures { IfOk result (λ names. names.items ≡ child_names g.now) }
{
    let mut names = vec![in alloc; None; g.clusters()]?;
    for k in 0..vertices.len() {
        if let Vertex::Child(c) = vertices[k] {
            names[c] = Some(k);
        }
    }
    Ok(names)
}

// The name of the vertex for the outside of each cluster that some edge leaves. Linear.
pub(crate) fn named_outsides(
    alloc: Global,
    g: &CGraph,
    vertices: &[Vertex],
) -> Result<Vec<Option<usize>>, Memory>
    requires clustered { IsClustered g.now }
    requires vertices { vertices.now ≡ all_vertices g.now }
    ensures { IfOk result (λ names. names.items ≡ outside_names g.now) }
{
    let mut names = vec![in alloc; None; g.clusters()]?;
    for k in 0..vertices.len() {
        if let Vertex::Outside(c) = vertices[k] {
            names[c] = Some(k);
        }
    }
    Ok(names)
}
