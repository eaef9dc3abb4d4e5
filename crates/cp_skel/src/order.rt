// The vertices of the skeletons in the order of their names.
ghost use Rattle.std.specs.Prelude.{◌≡◌, ◌++◌, IfOk, OnOk, map};
ghost use Rattle.cp_cgraph.specs.Clustered.{clusters, home, nodes};
ghost use Rattle.cp_skel.specs.Skeletons.{all_vertices, below};
ghost use Rattle.cp_skel.specs.SkeletonTables.{AreGathered, left_clusters};
ghost use Rattle.cp_skel.specs.declared.vertex.Vertex.TheVariants.{Child, Node};

use crate::tables::children_by_parent;
use crate::vertex::Vertex;
use cp_base::Memory;
use cp_board::Names;
use cp_cgraph::CGraph;
use std::alloc::Global;

// Appends the vertices of some nodes.
fn push_nodes(own: &[usize], vertices: &mut Vec<Vertex>) -> Result<(), Memory>
    ensures { OnOk result (vertices.new.items ≡ vertices.old.items ++ map Node own.now) }
{
    for v in own {
        vertices.push(Vertex::Node(*v))?;
    }
    Ok(())
}

// Appends the vertices of some clusters as they are seen from their parent.
fn push_children(children: &[usize], vertices: &mut Vec<Vertex>) -> Result<(), Memory>
    ensures { OnOk result (vertices.new.items ≡ vertices.old.items ++ map Child children.now) }
{
    for c in children {
        vertices.push(Vertex::Child(*c))?;
    }
    Ok(())
}

// The vertices of the skeletons, by clusters: its nodes, its children that some edge leaves, and the outside. Linear.
pub(crate) fn ordered(
    alloc: Global,
    g: &CGraph,
    homes: &[Names],
    left: &[bool],
) -> Result<Vec<Vertex>, Memory>
    requires homes { AreGathered (home g.now) (clusters g.now) (below (nodes g.now)) homes.now }
    requires left { left.now ≡ left_clusters g.now }
    ensures { IfOk result (λ vertices. vertices.items ≡ all_vertices g.now) }
{
    let children = children_by_parent(alloc, g, left)?;
    let mut vertices = Vec::new(alloc);
    for c in 0..g.clusters() {
        push_nodes(homes[c].items(), &mut vertices)?;
        push_children(children[c].items(), &mut vertices)?;
        if left[c] {
            vertices.push(Vertex::Outside(c))?;
        }
    }
    Ok(vertices)
}
