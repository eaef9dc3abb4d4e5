// What the solver asks of an order tree, however it is stored.

use crate::fault::ForceFault;
use cp_base::{CycList, Equation, Memory, Shape};
use cp_pq::{Node, Part, ReduceFault};
use std::alloc::Global;

/// An order tree: a root leaf, a body of P-nodes and Q-nodes, a number of vars and equations over their bits. Contracts
/// see it as the tree of these parts.
pub trait OrderTree: Sized {
    ghost use Rattle.std.specs.Prelude.{◌≡◌, ◌≢◌, ℕ, ◌<◌, ◌∷◌, [], List, length, IfOk, IfErr, MatchOption};
    ghost use Rattle.std.specs.List.{AllByRecursion};
    ghost use Rattle.cp_lists.specs.CyclicLists.{Has, Distinct};
    ghost use Rattle.cp_pq.specs.Bits.{IsMet};
    ghost use Rattle.cp_pq.specs.Nodes.{leaves};
    ghost use Rattle.cp_pq.specs.Orders.{IsConsecutive};
    ghost use Rattle.cp_pq.specs.Trees.{PQTree, IsWellFormed, IsPair, Admits};
    ghost use Rattle.cp_pq.specs.Promises.{IsLeafSet, IsStar, IsReduced, IsNeverConsecutive, IsReplaced, IsForced, IsNeverInRow, IsFreshNode};
    ghost use Rattle.cp_pq.specs.declared.fault.ReduceFault.TheVariants.{NotConsecutive};
    ghost use Rattle.cp_force.specs.declared.fault.ForceFault.TheVariants.{NotOrderable};
    ghost use Rattle.cp_force.specs.Owners.{IsSoleP};
    ghost use Rattle.cp_force.specs.Shapes.{shape_of_tree};

    ghost tree: { Self → PQTree };

    /// The tree of one P-node with these kids, or of the leaf where there is one.
    fn star(
        alloc: Global,
        root: usize,
        leaves: &[usize],
        owner: usize,
        vars: usize,
    ) -> Result<Self, Memory>
        requires not_empty { leaves.now ≢ [] }
        requires distinct { Distinct (root ∷ leaves.now) }
        ensures star { IfOk result (λ star. IsStar root leaves.now owner vars (tree star)) }
        ensures well_formed { IfOk result (λ star. IsWellFormed (tree star)) };

    /// The tree of the orders in which the set is consecutive.
    fn reduce(self, alloc: Global, set: &[usize]) -> Result<Self, ReduceFault>
        requires { IsLeafSet set.now (tree self) }
        ensures reduced { IfOk result (λ new. IsReduced set.now (tree self) (tree new)) }
        ensures well_formed { IfOk result (λ new. IsWellFormed (tree new)) }
        ensures refused { IfErr result (λ fault. fault ≡ NotConsecutive → IsNeverConsecutive set.now (tree self)) };

    /// The tree with the part that holds the set replaced by the node, and this part.
    fn replace(self, alloc: Global, set: &[usize], new: Node) -> Result<(Self, Part), Memory>
        requires leaf_set { IsLeafSet set.now (tree self) }
        requires consecutive { (order : List ℕ) → Admits (tree self) order → IsConsecutive set.now order }
        requires fresh { IsFreshNode set.now new (tree self) }
        ensures replaced { IfOk result (λ r. IsReplaced set.now new (tree self) (tree r.0) r.1) }
        ensures well_formed { IfOk result (λ r. IsWellFormed (tree r.0)) };

    /// The tree of the orders in which the leaves stand in a row in this order where the bit of the var is false, and
    /// in the reverse where it is true.
    fn force(self, alloc: Global, order: &[usize], var: usize) -> Result<Self, ForceFault>
        requires not_empty { order.now ≢ [] }
        requires distinct { Distinct order.now }
        requires leaves_of { (x : ℕ) → Has x order.now → Has x (leaves (tree self).body) }
        requires var_within { var < (tree self).vars }
        ensures forced { IfOk result (λ new. IsForced order.now var (tree self) (tree new)) }
        ensures well_formed { IfOk result (λ new. IsWellFormed (tree new)) }
        ensures refused { IfErr result (λ fault. fault ≡ NotOrderable → IsNeverInRow order.now (tree self)) };

    /// The root, the P-nodes and the Q-nodes, without owners and vars.
    fn shape(&self, alloc: Global) -> Result<Shape, Memory>
        ensures { IfOk result (λ shape. shape ≡ shape_of_tree (tree self.now)) };

    /// The number of vars. It takes no memory.
    fn vars(&self) -> usize
        ensures value { result ≡ (tree self.now).vars }
        ensures well_formed { IsWellFormed (tree self.now) };

    /// The equations over the bits of the vars. It takes no memory.
    fn equations(&self) -> &[Equation]
        ensures value { result.now ≡ (tree self.now).equations }
        ensures well_formed { IsWellFormed (tree self.now) };

    /// An order that makes a pair of the tree with the bits, from the root on.
    fn order_by(&self, alloc: Global, bits: &[bool]) -> Result<CycList, Memory>
        requires one_each { length bits.now ≡ (tree self.now).vars }
        requires met { AllByRecursion (IsMet bits.now) (tree self.now).equations }
        ensures { IfOk result (λ order. IsPair (tree self.now) order bits.now) };

    /// An equal tree.
    fn copy_tree(&self, alloc: Global) -> Result<Self, Memory>
        ensures { IfOk result (λ copy. tree copy ≡ tree self.now) };

    /// The owner of the body, exactly where the body is one P-node whose kids are all leaves. It takes no memory.
    fn sole_owner(&self) -> Option<usize>
        ensures { MatchOption result ((owner : ℕ) → IsSoleP (tree self.now) owner → ⊥) (IsSoleP (tree self.now)) };
}
