// Nodes read by bits, copied and told, and each call on a tree once, with answers worked out by hand.
ghost use Rattle.std.specs.Prelude.{IsTrue, ◌∷◌};
ghost use Rattle.cp_pq.specs.SmallTrees.{are_apart, is_star_with};
ghost use Rattle.cp_force.specs.SmallOrders.{is_star_order};

use crate::copying::copy_of_node;
use crate::reading::push_word;
use crate::shaping::branch_of_node;
use crate::{ForceFault, OrderTree, copy_of, order_of, owner_of, shape_of};
use cp_base::{Branch, CycList, Equation, Items, Memory};
use cp_pq::{Node, Nodes, ReduceFault, Tree, star};
use std::alloc::Global;
use std::test::Fail;

fn leaves(alloc: Global, numbers: &[usize]) -> Result<Nodes, Memory> {
    let mut nodes = Items::new(alloc);
    for number in numbers {
        nodes.push(Node::Leaf(*number))?;
    }
    Ok(nodes)
}

// A P-node of a leaf 1 and of a Q-node with the leaves 2, 3 and 4.
fn branching(alloc: Global) -> Result<Node, Memory> {
    let mut kids = leaves(alloc, &[1])?;
    let row = leaves(alloc, &[2, 3, 4])?;
    kids.push(Node::Q { var: 1, kids: row })?;
    Ok(Node::P { owner: 7, kids })
}

#[test]
fn a_q_node_is_read_by_its_bit(rt: HostRuntime) -> Result<(), Fail> {
    let node = copy_of_node(rt.alloc(), &branching(rt.alloc())?)?;
    let mut word = Vec::new(rt.alloc());
    push_word(&node, &[true, false], &mut word)?;
    push_word(&node, &[false, true], &mut word)?;
    assert_eq!(rt; word.as_slice(), [1usize, 2, 3, 4, 1, 4, 3, 2].as_slice());
    Ok(())
}

#[test]
fn a_shape_has_the_nodes(rt: HostRuntime) -> Result<(), Fail> {
    let branch = branch_of_node(rt.alloc(), &branching(rt.alloc())?)?;
    assert!(rt; matches!(branch, Branch::P(_)));
    if let Branch::P(kids) = branch {
        assert_eq!(rt; kids.len(), 2);
        assert!(rt; matches!(kids.items()[1], Branch::Q(_)));
    }
    Ok(())
}

#[test]
fn a_star_has_its_owner_and_an_order(rt: HostRuntime) -> Result<(), Fail> {
    let tree = star(rt.alloc(), 0, &[1, 2, 3, 4], 7, 1)?;
    let copy = copy_of(rt.alloc(), &tree)?;
    assert_eq!(rt; owner_of(&copy), Some(7));
    let order = order_of(rt.alloc(), &tree, &[true])?;
    assert_eq!(rt; order.items(), [0usize, 1, 2, 3, 4].as_slice());
    let shape = shape_of(rt.alloc(), &tree)?;
    assert_eq!(rt; shape.root, 0);
    assert!(rt; matches!(shape.body, Branch::P(_)));
    Ok(())
}

// The star with the root 0, the owner 7 and one var, forced to the order by its var.
fn forced<T: OrderTree + Drop>(
    alloc: Global,
    leaves: &[usize],
    order: &[usize],
) -> Result<T, ForceFault>
    requires { IsTrue (is_star_order leaves.now order.now) }
{
    let star = T::star(alloc, 0, leaves, 7, 1)?;
    star.force(alloc, order, 0)
}

// This tree forced again by the same var.
fn forced_twice<T: OrderTree + Drop>(
    alloc: Global,
    leaves: &[usize],
    order: &[usize],
    again: &[usize],
) -> Result<T, ForceFault>
    requires first { IsTrue (is_star_order leaves.now order.now) }
    requires second { IsTrue (is_star_order leaves.now again.now) }
{
    let star = T::star(alloc, 0, leaves, 7, 1)?;
    let tree = star.force(alloc, order, 0)?;
    tree.force(alloc, again, 0)
}

// The star with the root 0, the owner 7 and one var, reduced by the set.
fn reduced<T: OrderTree + Drop>(
    alloc: Global,
    leaves: &[usize],
    set: &[usize],
) -> Result<T, ReduceFault>
    requires { IsTrue (is_star_with 0 leaves.now set.now) }
{
    let star = T::star(alloc, 0, leaves, 7, 1)?;
    star.reduce(alloc, set)
}

// This tree with the leaf in place of the set.
fn replaced<T: OrderTree + Drop>(
    alloc: Global,
    leaves: &[usize],
    set: &[usize],
    leaf: usize,
) -> Result<T, ReduceFault>
    requires star { IsTrue (is_star_with 0 leaves.now set.now) }
    requires fresh { IsTrue (are_apart (leaf ∷ (0 ∷ leaves.now))) }
{
    let star = T::star(alloc, 0, leaves, 7, 1)?;
    let tree = star.reduce(alloc, set)?;
    let (new, _part) = tree.replace(alloc, set, Node::Leaf(leaf))?;
    Ok(new)
}

// The number of orders that a shape admits: those of its kids, times those in which an inner node reads its kids.
fn count_of_orders(branch: &Branch) -> usize {
    match branch {
        Branch::Leaf(_) => 1,
        Branch::P(kids) => {
            let mut count: usize = 1;
            let mut place: usize = 0;
            for kid in kids.items() {
                place = place.saturating_add(1);
                count = count
                    .saturating_mul(place)
                    .saturating_mul(count_of_orders(kid));
            }
            count
        }
        Branch::Q(kids) => {
            let mut count: usize = 2;
            for kid in kids.items() {
                count = count.saturating_mul(count_of_orders(kid));
            }
            count
        }
    }
}

// What the trait tells of a copy of a tree: its owner, and the number of orders of its shape.
fn told<T: OrderTree + Drop>(alloc: Global, tree: &T) -> Result<(Option<usize>, usize), Memory> {
    let copy = tree.copy_tree(alloc)?;
    let shape = copy.shape(alloc)?;
    Ok((copy.sole_owner(), count_of_orders(&shape.body)))
}

// The order by one bit that is false, where the tree has one var and no equations.
fn order_by_false<T: OrderTree + Drop>(alloc: Global, tree: &T) -> Result<Option<CycList>, Memory> {
    if tree.vars() != 1 || !tree.equations().is_empty() {
        return Ok(None);
    }
    let order = tree.order_by(alloc, &[false])?;
    Ok(Some(order))
}

// Whether the bits meet the equations.
fn are_met(equations: &[Equation], bits: &[bool]) -> bool {
    for equation in equations {
        if (bits.get(equation.x) == bits.get(equation.y)) == equation.odd {
            return false;
        }
    }
    true
}

#[test]
fn a_star_is_forced_in_both_directions(rt: HostRuntime) -> Result<(), Fail> {
    let tree: Tree = forced(rt.alloc(), &[1, 2, 3, 4], &[1, 3, 2])?;
    assert_eq!(rt; told(rt.alloc(), &tree)?, (None, 4));
    let mut word = Vec::new(rt.alloc());
    push_word(tree.body(), &[false], &mut word)?;
    push_word(tree.body(), &[true], &mut word)?;
    assert_eq!(rt; word.as_slice(), [4usize, 1, 3, 2, 4, 2, 3, 1].as_slice());
    Ok(())
}

#[test]
fn one_leaf_in_a_row_changes_nothing(rt: HostRuntime) -> Result<(), Fail> {
    let tree: Tree = forced(rt.alloc(), &[1, 2, 3, 4], &[2])?;
    assert_eq!(rt; told(rt.alloc(), &tree)?, (Some(7), 24));
    Ok(())
}

#[test]
fn a_set_in_a_row_leaves_twelve_orders(rt: HostRuntime) -> Result<(), Fail> {
    let tree: Tree = reduced(rt.alloc(), &[1, 2, 3, 4], &[1, 2])?;
    assert_eq!(rt; told(rt.alloc(), &tree)?, (None, 12));
    Ok(())
}

#[test]
fn a_leaf_in_place_of_a_set_leaves_six_orders(rt: HostRuntime) -> Result<(), Fail> {
    let tree: Tree = replaced(rt.alloc(), &[1, 2, 3, 4], &[1, 2], 5)?;
    assert_eq!(rt; told(rt.alloc(), &tree)?, (Some(7), 6));
    Ok(())
}

#[test]
fn a_q_node_has_no_other_order(rt: HostRuntime) -> Result<(), Fail> {
    let refused = forced_twice::<Tree>(rt.alloc(), &[1, 2, 3], &[1, 2, 3], &[2, 1, 3]);
    assert!(rt; matches!(refused, Err(ForceFault::NotOrderable)));
    Ok(())
}

#[test]
fn a_bit_is_not_both_false_and_true(rt: HostRuntime) -> Result<(), Fail> {
    let tree = forced_twice::<Tree>(rt.alloc(), &[1, 2, 3], &[1, 2, 3], &[3, 2, 1])?;
    assert_eq!(rt; tree.vars(), 1);
    assert!(rt; !are_met(tree.equations(), &[false]));
    assert!(rt; !are_met(tree.equations(), &[true]));
    Ok(())
}

#[test]
fn a_false_bit_reads_the_order_as_it_is(rt: HostRuntime) -> Result<(), Fail> {
    let tree: Tree = forced(rt.alloc(), &[1, 2, 3], &[1, 2, 3])?;
    let order = order_by_false(rt.alloc(), &tree)?;
    assert!(rt; order.is_some());
    if let Some(order) = order {
        assert_eq!(rt; order.items(), [0usize, 1, 2, 3].as_slice());
    }
    Ok(())
}
