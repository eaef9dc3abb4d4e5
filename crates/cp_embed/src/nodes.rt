// Nodes that are put into a tree.
ghost use Rattle.std.specs.Prelude.{◌≡◌, map, IfOk};
ghost use Rattle.cp_pq.specs.declared.node.Node.TheVariants.{Leaf};
ghost use Rattle.cp_pq.specs.Promises.{star_body};
ghost use Rattle.cp_embed.specs.TreeSteps.{row_body};

use cp_base::{Items, Memory};
use cp_pq::{Node, Nodes};
use std::alloc::Global;

// A row of leaves.
fn leaf_nodes(alloc: Global, leaves: &[usize]) -> Result<Nodes, Memory>
    ensures { IfOk result (λ row. row ≡ map Leaf leaves.now) }
{
    let mut row = Items::new(alloc);
    for leaf in leaves {
        row.push(Node::Leaf(*leaf))?;
    }
    Ok(row)
}

// The node that reads the leaves in any order: one P-node, or the one leaf.
pub(crate) fn any_order_node(alloc: Global, owner: usize, leaves: &[usize]) -> Result<Node, Memory>
    ensures { IfOk result (λ node. node ≡ star_body owner leaves.now) }
{
    if leaves.len() == 1 {
        return Ok(Node::Leaf(leaves[0]));
    }
    let kids = leaf_nodes(alloc, leaves)?;
    Ok(Node::P { owner, kids })
}

// The node that reads the leaves in this order or its reverse, by the bit of the var: one Q-node, or the one leaf.
pub(crate) fn row_node(alloc: Global, var: usize, leaves: &[usize]) -> Result<Node, Memory>
    ensures { IfOk result (λ node. node ≡ row_body var leaves.now) }
{
    if leaves.len() == 1 {
        return Ok(Node::Leaf(leaves[0]));
    }
    let kids = leaf_nodes(alloc, leaves)?;
    Ok(Node::Q { var, kids })
}
