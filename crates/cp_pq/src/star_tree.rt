// Trees of one P-node.
ghost use Rattle.std.specs.Prelude.{◌≡◌, ◌≢◌, [], ◌∷◌, map, IfOk};
ghost use Rattle.cp_lists.specs.CyclicLists.{Distinct};
ghost use Rattle.cp_pq.specs.Promises.{IsStar};
ghost use Rattle.cp_pq.specs.declared.node.Node.TheVariants.{Leaf};

use crate::node::{Node, Nodes};
use crate::tree::Tree;
use cp_base::{Items, Memory};
use std::alloc::Global;

/// A row of leaves.
fn leaf_nodes(alloc: Global, leaves: &[usize]) -> Result<Nodes, Memory>
    ensures { IfOk result (λ row. row ≡ map Leaf leaves.now) }
{
    let mut row = Items::new(alloc);
    for leaf in leaves {
        row.push(Node::Leaf(*leaf))?;
    }
    Ok(row)
}

/// The tree whose orders are all orders of the root and the leaves: one P-node, or the one leaf. Linear in the leaves.
pub fn star(
    alloc: Global,
    root: usize,
    leaves: &[usize],
    owner: usize,
    vars: usize,
) -> Result<Tree, Memory>
    requires not_empty { leaves.now ≢ [] }
    requires distinct { Distinct (root ∷ leaves.now) }
    ensures { IfOk result (λ t. IsStar root leaves.now owner vars t) }
{
    let equations = Items::new(alloc);
    if leaves.len() == 1 {
        let leaf = Node::Leaf(leaves[0]);
        return Ok(Tree::from_parts(root, leaf, vars, equations));
    }
    let kids = leaf_nodes(alloc, leaves)?;
    Ok(Tree::from_parts(root, Node::P { owner, kids }, vars, equations))
}
