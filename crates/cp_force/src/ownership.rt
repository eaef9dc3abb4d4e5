// The owner of a tree that is one P-node of leaves.
ghost use Rattle.std.specs.Prelude.{◌≡◌, ℕ, List, MatchOption};
ghost use Rattle.std.specs.List.{list_all};
ghost use Rattle.cp_force.specs.Owners.{is_leaf, IsSoleP};

use cp_pq::{Node, Tree};

// Whether a node is a leaf.
fn is_leaf_node(node: &Node) -> bool
    ensures { result ≡ is_leaf node.now }
{
    match node {
        Node::Leaf(_) => true,
        Node::P { .. } => false,
        Node::Q { .. } => false,
    }
}

// Whether all nodes of a row are leaves.
fn are_leaves(nodes: &[Node]) -> bool
    ensures { result ≡ list_all is_leaf nodes.now }
{
    for node in nodes {
        if !is_leaf_node(node) {
            return false;
        }
    }
    true
}

/// The owner of the body, exactly where the body is one P-node whose kids are all leaves. Linear in its kids. It takes
/// no memory.
pub fn owner_of(tree: &Tree) -> Option<usize>
    ensures { MatchOption result ((owner : ℕ) → IsSoleP tree.now owner → ⊥) (IsSoleP tree.now) }
{
    match tree.body() {
        Node::P { owner, kids } => {
            if are_leaves(kids.items()) {
                return Some(*owner);
            }
            None
        }
        _ => None,
    }
}
