// Shapes of order trees.
ghost use Rattle.std.specs.Prelude.{◌≡◌, map, IfOk};
ghost use Rattle.cp_force.specs.Shapes.{branch_of, shape_of_tree};

use cp_base::{Branch, Branches, Items, Memory, Shape};
use cp_pq::{Node, Tree};
use std::alloc::Global;

// The node without its owners and vars. Linear in its size.
#[cycle(shapes)]
pub(crate) fn branch_of_node(alloc: Global, node: &Node) -> Result<Branch, Memory>
    ensures { IfOk result (λ branch. branch ≡ branch_of node.now) }
{
    match node {
        Node::Leaf(x) => Ok(Branch::Leaf(*x)),
        Node::P { kids, .. } => {
            let branches = branches_of(alloc, kids.items())?;
            Ok(Branch::P(branches))
        }
        Node::Q { kids, .. } => {
            let row = branches_of(alloc, kids.items())?;
            Ok(Branch::Q(row))
        }
    }
}

// The nodes of a row without their owners and vars.
#[cycle(shapes)]
fn branches_of(alloc: Global, nodes: &[Node]) -> Result<Branches, Memory>
    ensures { IfOk result (λ branches. branches ≡ map branch_of nodes.now) }
{
    let mut branches = Items::new(alloc);
    for node in nodes {
        branches.push(branch_of_node(alloc, node)?)?;
    }
    Ok(branches)
}

/// The root, the P-nodes and the Q-nodes of a tree, without owners and vars. Linear in its size.
pub fn shape_of(alloc: Global, tree: &Tree) -> Result<Shape, Memory>
    ensures { IfOk result (λ shape. shape ≡ shape_of_tree tree.now) }
{
    let body = branch_of_node(alloc, tree.body())?;
    Ok(Shape {
        root: tree.root(),
        body,
    })
}
