// Trees forced to an order of leaves.
ghost use Rattle.std.specs.Prelude.{◌≡◌, ◌≢◌, ◌<◌, ◌++◌, ◌∷◌, [], ℕ, Option, Some, None, map, IfOk, IfErr};
ghost use Rattle.std.specs.List.Sorted.{IsPermutation, IsStrictlyIncreasing};
ghost use Rattle.cp_lists.specs.CyclicLists.{Has, Distinct};
ghost use Rattle.cp_pq.specs.declared.node.Node.{Node};
ghost use Rattle.cp_pq.specs.declared.node.Node.TheVariants.{Leaf};
ghost use Rattle.cp_pq.specs.Nodes.{leaves};
ghost use Rattle.cp_pq.specs.Frames.{fill};
ghost use Rattle.cp_pq.specs.Ties.{tie_equations};
ghost use Rattle.cp_pq.specs.Trees.{PQTree, make_tree, IsWellFormed};
ghost use Rattle.cp_pq.specs.Promises.{IsForced, IsLeafSet, IsNeverConsecutive, IsNeverInRow, IsReduced, in_direction};
ghost use Rattle.cp_force.specs.declared.fault.ForceFault.TheVariants.{NotOrderable};
ghost use Rattle.cp_force.specs.Forced.{forced_node, IsOpened};

use crate::fault::ForceFault;
use crate::fitting::{Ties, fit, fit_run, with_tie};
use cp_base::{Equation, Equations, Items, Memory};
use cp_pq::{Hole, Node, Nodes, Part, ReduceFault, Tree, reduce, taken_out};
use std::alloc::Global;

// The leaves of an order by their numbers.
fn leaf_set(alloc: Global, order: &[usize]) -> Result<Vec<usize>, Memory>
    requires { Distinct order.now }
    ensures permutation { IfOk result (λ set. IsPermutation set.items order.now) }
    ensures rising { IfOk result (λ set. IsStrictlyIncreasing set.items) }
{
    let mut set = Vec::from_slice(alloc, order)?;
    set.sort_unstable();
    Ok(set)
}

// The order, or the order from its end.
fn directed_copy(alloc: Global, order: &[usize], turned: bool) -> Result<Vec<usize>, Memory>
    ensures { IfOk result (λ copy. copy.items ≡ in_direction turned order.now) }
{
    let mut copy = Vec::from_slice(alloc, order)?;
    if turned {
        copy.reverse();
    }
    Ok(copy)
}

// A row of leaves.
fn leaf_row(alloc: Global, order: &[usize]) -> Result<Nodes, Memory>
    ensures { IfOk result (λ row. row ≡ map Leaf order.now) }
{
    let mut row = Items::new(alloc);
    for leaf in order {
        row.push(Node::Leaf(*leaf))?;
    }
    Ok(row)
}

// The one leaf, or a Q-node with the leaves of the order.
fn order_node(alloc: Global, order: &[usize], var: usize) -> Result<Node, Memory>
    requires { order.now ≢ [] }
    ensures { IfOk result (λ node. node ≡ forced_node var order.now) }
{
    if order.len() == 1 {
        return Ok(Node::Leaf(order[0]));
    }
    let kids = leaf_row(alloc, order)?;
    Ok(Node::Q { var, kids })
}

// The row of one node.
fn one_node(alloc: Global, node: Node) -> Result<Nodes, Memory>
    ensures { IfOk result (λ row. row ≡ node ∷ []) }
{
    let mut row = Items::new(alloc);
    row.push(node)?;
    Ok(row)
}

// The equations, and behind them one for each tie to the var.
fn tied(equations: Equations, var: usize, ties: Ties) -> Result<Equations, Memory>
    ensures { IfOk result (λ all. all ≡ equations ++ tie_equations var ties) }
{
    let mut all = equations;
    for (x, odd) in ties {
        all.push(Equation { x, y: var, odd })?;
    }
    Ok(all)
}

// The tree with the row in the hole, and an equation for each tie to the var.
fn closed(alloc: Global, hole: Hole, row: Nodes, var: usize, ties: Ties) -> Result<Tree, Memory>
    requires { (body : Node) × (body ∷ [] ≡ fill hole.frames row)
        × IsWellFormed (make_tree hole.root body hole.vars (hole.equations ++ tie_equations var ties)) }
    ensures { IfOk result (λ tree. (body : Node) → body ∷ [] ≡ fill hole.frames row
        → tree ≡ make_tree hole.root body hole.vars (hole.equations ++ tie_equations var ties)) }
{
    let Hole {
        root,
        frames,
        vars,
        equations,
    } = hole;
    let all = tied(equations, var, ties)?;
    let tied_hole = Hole {
        root,
        frames,
        vars,
        equations: all,
    };
    let tree = tied_hole.filled(alloc, row)?;
    Ok(tree)
}

// The tree with the order in place of one node.
fn put_for_node(
    alloc: Global,
    hole: Hole,
    kids: Nodes,
    order: &[usize],
    var: usize,
) -> Result<Tree, ForceFault>
    requires { (tree : PQTree) × IsOpened order.now var tree hole (record { kids = kids; var = None }) }
    ensures forced { IfOk result (λ new. (tree : PQTree)
        → IsOpened order.now var tree hole (record { kids = kids; var = None }) → IsForced order.now var tree new) }
    ensures refused { IfErr result (λ fault. fault ≡ NotOrderable → (tree : PQTree)
        → IsOpened order.now var tree hole (record { kids = kids; var = None }) → IsNeverInRow order.now tree) }
{
    let found = fit(alloc, &kids.items()[0], order)?;
    match found {
        None => Err(ForceFault::NotOrderable),
        Some(ties) => {
            let node = order_node(alloc, order, var)?;
            let row = one_node(alloc, node)?;
            let tree = closed(alloc, hole, row, var, ties)?;
            Ok(tree)
        }
    }
}

// The tree with the order in place of a run of kids of a Q-node, whose var is tied too.
fn put_for_run(
    alloc: Global,
    hole: Hole,
    kids: Nodes,
    own: usize,
    order: &[usize],
    var: usize,
) -> Result<Tree, ForceFault>
    requires { (tree : PQTree) × IsOpened order.now var tree hole (record { kids = kids; var = Some own }) }
    ensures forced { IfOk result (λ new. (tree : PQTree)
        → IsOpened order.now var tree hole (record { kids = kids; var = Some own }) → IsForced order.now var tree new) }
    ensures refused { IfErr result (λ fault. fault ≡ NotOrderable → (tree : PQTree)
        → IsOpened order.now var tree hole (record { kids = kids; var = Some own }) → IsNeverInRow order.now tree) }
{
    let found = fit_run(alloc, kids.items(), order)?;
    match found {
        None => Err(ForceFault::NotOrderable),
        Some(fitted) => {
            let turned = fitted.0;
            let all = with_tie(fitted.1, own, turned)?;
            let leaves = directed_copy(alloc, order, turned)?;
            let row = leaf_row(alloc, leaves.as_slice())?;
            let tree = closed(alloc, hole, row, var, all)?;
            Ok(tree)
        }
    }
}

// The tree with the order in place of the part.
fn put(
    alloc: Global,
    hole: Hole,
    part: Part,
    order: &[usize],
    var: usize,
) -> Result<Tree, ForceFault>
    requires { (tree : PQTree) × IsOpened order.now var tree hole part }
    ensures forced { IfOk result (λ new. (tree : PQTree) → IsOpened order.now var tree hole part
        → IsForced order.now var tree new) }
    ensures refused { IfErr result (λ fault. fault ≡ NotOrderable → (tree : PQTree)
        → IsOpened order.now var tree hole part → IsNeverInRow order.now tree) }
{
    let Part { kids, var: own } = part;
    match own {
        None => put_for_node(alloc, hole, kids, order, var),
        Some(own_var) => put_for_run(alloc, hole, kids, own_var, order, var),
    }
}

// The tree of the orders in which the set is consecutive.
fn reduced_by(alloc: Global, tree: Tree, set: &[usize]) -> Result<Tree, ForceFault>
    requires { IsLeafSet set.now tree }
    ensures reduced { IfOk result (λ new. IsReduced set.now tree new) }
    ensures refused { IfErr result (λ fault. fault ≡ NotOrderable → IsNeverConsecutive set.now tree) }
{
    match reduce(alloc, tree, set) {
        Ok(reduced) => Ok(reduced),
        Err(ReduceFault::NotConsecutive) => Err(ForceFault::NotOrderable),
        Err(ReduceFault::Memory) => Err(ForceFault::Memory),
    }
}

/// The tree that keeps exactly the orders in which the leaves stand in a row, in this order where the bit of the var is
/// false and in the reverse where it is true. New vars are numbered behind the old ones; one is taken at most. The
/// cost is n log n in the size of the tree.
pub fn force(alloc: Global, tree: Tree, order: &[usize], var: usize) -> Result<Tree, ForceFault>
    requires not_empty { order.now ≢ [] }
    requires distinct { Distinct order.now }
    requires leaves_of { (x : ℕ) → Has x order.now → Has x (leaves tree.body) }
    requires var_within { var < tree.vars }
    ensures forced { IfOk result (λ new. IsForced order.now var tree new) }
    ensures refused { IfErr result (λ fault. fault ≡ NotOrderable → IsNeverInRow order.now tree) }
{
    let set = leaf_set(alloc, order)?;
    let leaves = set.as_slice();
    match reduced_by(alloc, tree, leaves) {
        Err(fault) => Err(fault),
        Ok(reduced) => {
            let (hole, part) = taken_out(alloc, reduced, leaves)?;
            put(alloc, hole, part, order, var)
        }
    }
}
