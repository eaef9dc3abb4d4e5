// Trees in which the part that a set of leaves fills is replaced.
ghost use Rattle.std.specs.Prelude.{ℕ, List, IfOk};
ghost use Rattle.cp_pq.specs.Orders.{IsConsecutive};
ghost use Rattle.cp_pq.specs.Trees.{Admits, IsWellFormed};
ghost use Rattle.cp_pq.specs.Promises.{IsLeafSet, IsFreshNode, IsReplaced};

use crate::lists::one;
use crate::node::Node;
use crate::part::Part;
use crate::taking::taken_out;
use crate::tree::Tree;
use cp_base::Memory;
use std::alloc::Global;

/// The tree with the new node in place of the part that the set fills, and this part: one node, or a run of two or more
/// but not all kids of a Q-node, with its var. Each leaf is looked up in the set, and else the cost is linear in the tree.
pub fn replace(alloc: Global, tree: Tree, set: &[usize], new: Node) -> Result<(Tree, Part), Memory>
    requires leaf_set { IsLeafSet set.now tree }
    requires consecutive { (order : List ℕ) → Admits tree order → IsConsecutive set.now order }
    requires fresh { IsFreshNode set.now new tree }
    ensures replaced { IfOk result (λ r. IsReplaced set.now new tree r.0 r.1) }
    ensures well_formed { IfOk result (λ r. IsWellFormed r.0) }
{
    let (hole, part) = taken_out(alloc, tree, set)?;
    let row = one(alloc, new)?;
    let put = hole.filled(alloc, row)?;
    Ok((put, part))
}
