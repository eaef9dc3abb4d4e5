// What the calls give on small trees, worked out by hand, and on long ones.
ghost use Rattle.std.specs.Prelude.{◌<◌, ℕ, List, ◌∷◌, IsTrue, IfOk};
ghost use Rattle.std.specs.List.{AllByRecursion};
ghost use Rattle.std.specs.List.Sorted.{IsStrictlyIncreasing};
ghost use Rattle.cp_pq.specs.Bits.{IsOverVars};
ghost use Rattle.cp_pq.specs.Orders.{IsConsecutive};
ghost use Rattle.cp_pq.specs.Trees.{Admits};
ghost use Rattle.cp_pq.specs.SmallTrees.{are_apart, is_star_with, HasLeaves, AreNumbers, IsGrown};

use crate::{Node, Part, ReduceFault, Tree, reduce, replace, star};
use cp_base::{Equation, Equations, Items, Memory};
use std::alloc::Global;

// The owner of each star.
const OWNER: usize = 7;

// Vars 0 and 1 have one bit.
const SAME: Equation = Equation {
    x: 0,
    y: 1,
    odd: false,
};

// No bits meet this equation.
const CONTRADICTION: Equation = Equation {
    x: 0,
    y: 0,
    odd: true,
};

// The star with this root and these leaves, reduced by three sets.
fn star_reduced(
    alloc: Global,
    root: usize,
    leaves: &[usize],
    first: &[usize],
    second: &[usize],
    last: &[usize],
) -> Result<Tree, ReduceFault>
    requires first { IsTrue (is_star_with root leaves.now first.now) }
    requires second { IsTrue (is_star_with root leaves.now second.now) }
    requires last { IsTrue (is_star_with root leaves.now last.now) }
    ensures leaves { IfOk result (λ tree. HasLeaves root leaves.now tree) }
    ensures consecutive { IfOk result (λ tree. (order : List ℕ) → Admits tree order → IsConsecutive last.now order) }
{
    let tree = star(alloc, root, leaves, OWNER, 0)?;
    let once = reduce(alloc, tree, first)?;
    let twice = reduce(alloc, once, second)?;
    reduce(alloc, twice, last)
}

// This star with the last set replaced by a leaf, and the part that the set filled.
fn star_replaced(
    alloc: Global,
    root: usize,
    leaves: &[usize],
    first: &[usize],
    second: &[usize],
    last: &[usize],
    leaf: usize,
) -> Result<(Tree, Part), ReduceFault>
    requires first { IsTrue (is_star_with root leaves.now first.now) }
    requires second { IsTrue (is_star_with root leaves.now second.now) }
    requires last { IsTrue (is_star_with root leaves.now last.now) }
    requires fresh { IsTrue (are_apart (leaf ∷ root ∷ leaves.now)) }
{
    let tree = star_reduced(alloc, root, leaves, first, second, last)?;
    let replaced = replace(alloc, tree, last, Node::Leaf(leaf))?;
    Ok(replaced)
}

// The equations, and one that no bits meet, if there is a var.
fn with_contradiction(vars: usize, equations: Equations) -> Result<Equations, Memory>
    ensures { IfOk result (λ all. AllByRecursion (IsOverVars vars) equations → AllByRecursion (IsOverVars vars) all) }
{
    let mut all = equations;
    if vars == 0 {
        return Ok(all);
    }
    all.push(CONTRADICTION)?;
    Ok(all)
}

// The tree with an equation that no bits meet, if it has a var.
fn contradicted(tree: Tree) -> Result<Tree, Memory>
    ensures { IfOk result (λ t. (root : ℕ) (leaves : List ℕ) → HasLeaves root leaves tree → HasLeaves root leaves t) }
{
    let (root, body, vars, equations) = tree.into_parts();
    let all = with_contradiction(vars, equations)?;
    Ok(Tree::from_parts(root, body, vars, all))
}

// The contradicted tree of a star, reduced by the last set again.
fn contradicted_and_reduced(
    alloc: Global,
    root: usize,
    leaves: &[usize],
    first: &[usize],
    second: &[usize],
    last: &[usize],
) -> Result<Tree, ReduceFault>
    requires first { IsTrue (is_star_with root leaves.now first.now) }
    requires second { IsTrue (is_star_with root leaves.now second.now) }
    requires last { IsTrue (is_star_with root leaves.now last.now) }
{
    let tree = star_reduced(alloc, root, leaves, first, second, second)?;
    let without_pairs = contradicted(tree)?;
    reduce(alloc, without_pairs, last)
}

// The numbers from 1 on, so many.
fn numbers(alloc: Global, count: usize) -> Result<Items<usize>, Memory>
    ensures { IfOk result (λ all. AreNumbers count all) }
{
    let mut all = Items::new(alloc);
    for place in 0..count {
        all.push(place + 1)?;
    }
    Ok(all)
}

// The tree reduced by the first leaf, the first two, the first three and so on, up to all but the last.
fn nested(alloc: Global, tree: Tree, leaves: &[usize]) -> Result<Tree, ReduceFault>
    requires rising { IsStrictlyIncreasing leaves.now }
    requires leaves { (root : ℕ) × HasLeaves root leaves.now tree }
{
    let mut inner = tree;
    for end in 1..leaves.len() {
        inner = reduce(alloc, inner, &leaves[..end])?;
    }
    Ok(inner)
}

// The star of so many leaves, nested.
fn chain(alloc: Global, count: usize) -> Result<Tree, ReduceFault>
    requires { 0 < count }
{
    let leaves = numbers(alloc, count)?;
    let tree = star(alloc, 0, leaves.items(), OWNER, 0)?;
    nested(alloc, tree, leaves.items())
}

// A node with so many leaves, each but the last of which stands beside what is below it.
fn deep_node(alloc: Global, count: usize) -> Result<Node, Memory>
    requires { 0 < count }
    ensures { IfOk result (λ node. IsGrown count node) }
{
    let mut node = Node::Leaf(1);
    for place in 1..count {
        let mut pair = Items::new(alloc);
        pair.push(Node::Leaf(place + 1))?;
        pair.push(node)?;
        node = Node::P {
            owner: OWNER,
            kids: pair,
        };
    }
    Ok(node)
}

// The tree of this node, reduced by two leaves at its depth.
fn deep_reduced(alloc: Global, count: usize) -> Result<Tree, ReduceFault>
    requires { 2 < count }
{
    let node = deep_node(alloc, count)?;
    let equations = Items::new(alloc);
    let tree = Tree::from_parts(0, node, 0, equations);
    reduce(alloc, tree, &[2, 3])
}

// How many orders a node has, where each Q-node is read in either direction.
fn orders(node: &Node) -> usize {
    match node {
        Node::Leaf(_) => 1,
        Node::P { kids, .. } => {
            let mut count: usize = 1;
            let mut place: usize = 0;
            for kid in kids.items() {
                place = place.saturating_add(1);
                count = count.saturating_mul(place).saturating_mul(orders(kid));
            }
            count
        }
        Node::Q { kids, .. } => {
            let mut turns: usize = 2;
            for kid in kids.items() {
                turns = turns.saturating_mul(orders(kid));
            }
            turns
        }
    }
}

// How many inner nodes stand one below the other.
fn depth(node: &Node) -> usize {
    match node {
        Node::Leaf(_) => 0,
        Node::P { kids, .. } | Node::Q { kids, .. } => {
            let mut most: usize = 0;
            for kid in kids.items() {
                most = most.max(depth(kid));
            }
            most.saturating_add(1)
        }
    }
}

// Writes a node: 1 for a P-node and its owner, 2 for a Q-node and its var, their kids, and 0; 10 more for a leaf.
#[cycle(writing)]
fn write_node(node: &Node, text: &mut Items<usize>) -> Result<(), Memory> {
    match node {
        Node::Leaf(leaf) => text.push(leaf.saturating_add(10)),
        Node::P { owner, kids } => {
            text.push(1)?;
            text.push(*owner)?;
            write_row(kids.items(), text)
        }
        Node::Q { var, kids } => {
            text.push(2)?;
            text.push(*var)?;
            write_row(kids.items(), text)
        }
    }
}

// Writes the kids of a node, and 0.
#[cycle(writing)]
fn write_row(kids: &[Node], text: &mut Items<usize>) -> Result<(), Memory> {
    for kid in kids {
        write_node(kid, text)?;
    }
    text.push(0)
}

// The tree as written.
fn written(alloc: Global, tree: &Tree) -> Result<Items<usize>, Memory> {
    let mut text = Items::new(alloc);
    write_node(tree.body(), &mut text)?;
    Ok(text)
}

// The part as written: its kids, and 0.
fn written_part(alloc: Global, part: &Part) -> Result<Items<usize>, Memory> {
    let mut text = Items::new(alloc);
    write_row(part.kids.items(), &mut text)?;
    Ok(text)
}

// What a tree is written as, how many orders its body has where each Q-node is read in either direction, and its
// equations.
type Wanted = (&'static [usize], usize, &'static [Equation]);

// Whether the tree is the one that is wanted.
fn is_wanted(alloc: Global, tree: &Tree, (text, count, equations): Wanted) -> Result<bool, Memory> {
    let own = written(alloc, tree)?;
    Ok(own.items() == text && orders(tree.body()) == count && tree.equations() == equations)
}

// Whether the star reduced by three sets is the tree that is wanted.
fn reduces_to(
    alloc: Global,
    root: usize,
    leaves: &[usize],
    first: &[usize],
    second: &[usize],
    last: &[usize],
    want: Wanted,
) -> Result<bool, ReduceFault>
    requires first { IsTrue (is_star_with root leaves.now first.now) }
    requires second { IsTrue (is_star_with root leaves.now second.now) }
    requires last { IsTrue (is_star_with root leaves.now last.now) }
{
    let tree = star_reduced(alloc, root, leaves, first, second, last)?;
    let is = is_wanted(alloc, &tree, want)?;
    Ok(is)
}

// Whether the contradicted tree of the star, reduced again, is the tree that is wanted.
fn contradicted_to(
    alloc: Global,
    root: usize,
    leaves: &[usize],
    first: &[usize],
    second: &[usize],
    last: &[usize],
    want: Wanted,
) -> Result<bool, ReduceFault>
    requires first { IsTrue (is_star_with root leaves.now first.now) }
    requires second { IsTrue (is_star_with root leaves.now second.now) }
    requires last { IsTrue (is_star_with root leaves.now last.now) }
{
    let tree = contradicted_and_reduced(alloc, root, leaves, first, second, last)?;
    let is = is_wanted(alloc, &tree, want)?;
    Ok(is)
}

// Whether the star reduced by three sets, with the leaf in place of the last set, is the tree that is wanted, and what
// the set filled is written as the part, with this var.
fn replaces_to(
    alloc: Global,
    root: usize,
    leaves: &[usize],
    first: &[usize],
    second: &[usize],
    last: &[usize],
    leaf: usize,
    want: Wanted,
    filled: (&'static [usize], Option<usize>),
) -> Result<bool, ReduceFault>
    requires first { IsTrue (is_star_with root leaves.now first.now) }
    requires second { IsTrue (is_star_with root leaves.now second.now) }
    requires last { IsTrue (is_star_with root leaves.now last.now) }
    requires fresh { IsTrue (are_apart (leaf ∷ root ∷ leaves.now)) }
{
    let (part, var) = filled;
    let (tree, taken) = star_replaced(alloc, root, leaves, first, second, last, leaf)?;
    let is = is_wanted(alloc, &tree, want)?;
    let own = written_part(alloc, &taken)?;
    Ok(is && own.items() == part && taken.var == var)
}

// How many inner nodes of the chain stand one below the other.
fn chain_depth(alloc: Global, count: usize) -> Result<usize, ReduceFault>
    requires { 0 < count }
{
    let tree = chain(alloc, count)?;
    Ok(depth(tree.body()))
}

// How many inner nodes of the reduced deep tree stand one below the other.
fn reduced_depth(alloc: Global, count: usize) -> Result<usize, ReduceFault>
    requires { 2 < count }
{
    let tree = deep_reduced(alloc, count)?;
    Ok(depth(tree.body()))
}

#[test]
fn a_star_keeps_the_orders_with_a_set_consecutive(rt: HostRuntime) {
    let alloc = rt.alloc();
    let all: Wanted = (&[1, 7, 11, 12, 13, 14, 0], 24, &[]);
    let half: Wanted = (&[1, 7, 13, 14, 1, 7, 11, 12, 0, 0], 12, &[]);
    assert_eq!(rt;
        reduces_to(alloc, 0, &[1, 2, 3, 4], &[1], &[3], &[1, 2, 3, 4], all),
        Ok(true)
    );
    assert_eq!(rt;
        reduces_to(alloc, 0, &[1, 2, 3, 4], &[1, 2], &[3], &[1, 2], half),
        Ok(true)
    );
}

#[test]
fn sets_that_meet_are_joined_in_a_q_node(rt: HostRuntime) {
    let alloc = rt.alloc();
    let three: Wanted = (&[2, 0, 11, 12, 13, 0], 2, &[]);
    let beside: Wanted = (&[1, 7, 14, 2, 0, 11, 12, 13, 0, 0], 4, &[]);
    assert_eq!(rt;
        reduces_to(alloc, 0, &[1, 2, 3], &[1, 2], &[2, 3], &[1, 2], three),
        Ok(true)
    );
    assert_eq!(rt;
        reduces_to(alloc, 0, &[1, 2, 3, 4], &[1, 2], &[2, 3], &[2, 3], beside),
        Ok(true)
    );
}

#[test]
fn q_nodes_that_meet_are_tied(rt: HostRuntime) {
    let four: Wanted = (&[2, 1, 11, 12, 13, 14, 0], 2, &[SAME]);
    assert_eq!(rt;
        reduces_to(
            rt.alloc(),
            0,
            &[1, 2, 3, 4],
            &[1, 2],
            &[2, 3],
            &[3, 4],
            four
        ),
        Ok(true)
    );
}

#[test]
fn a_set_apart_in_each_order_is_refused(rt: HostRuntime) {
    assert_eq!(rt;
        reduces_to(
            rt.alloc(),
            0,
            &[1, 2, 3],
            &[1, 2],
            &[2, 3],
            &[1, 3],
            (&[], 0, &[])
        ),
        Err(ReduceFault::NotConsecutive)
    );
}

#[test]
fn equations_alone_do_not_refuse(rt: HostRuntime) {
    let want: Wanted = (&[2, 0, 11, 12, 13, 0], 2, &[CONTRADICTION]);
    assert_eq!(rt;
        contradicted_to(rt.alloc(), 0, &[1, 2, 3], &[1, 2], &[2, 3], &[1, 2], want),
        Ok(true)
    );
}

#[test]
fn a_node_is_replaced(rt: HostRuntime) {
    let alloc = rt.alloc();
    let for_leaf: Wanted = (&[1, 7, 15, 14, 1, 7, 11, 12, 0, 0], 12, &[]);
    let for_all: Wanted = (&[1, 7, 13, 14, 15, 0], 6, &[]);
    assert_eq!(rt;
        replaces_to(
            alloc,
            0,
            &[1, 2, 3, 4],
            &[1, 2],
            &[4],
            &[3],
            5,
            for_leaf,
            (&[13, 0], None)
        ),
        Ok(true)
    );
    assert_eq!(rt;
        replaces_to(
            alloc,
            0,
            &[1, 2, 3, 4],
            &[1],
            &[1],
            &[1, 2],
            5,
            for_all,
            (&[1, 7, 11, 12, 0, 0], None)
        ),
        Ok(true)
    );
}

#[test]
fn a_run_of_a_q_node_is_replaced(rt: HostRuntime) {
    let want: Wanted = (&[2, 0, 11, 15, 0], 2, &[]);
    assert_eq!(rt;
        replaces_to(
            rt.alloc(),
            0,
            &[1, 2, 3],
            &[1, 2],
            &[2, 3],
            &[2, 3],
            5,
            want,
            (&[12, 13, 0], Some(0))
        ),
        Ok(true)
    );
}

#[test]
fn a_star_is_reduced_to_a_long_chain(rt: HostRuntime) {
    assert_eq!(rt; chain_depth(rt.alloc(), 1000), Ok(999));
}

#[test]
fn a_deep_tree_is_reduced(rt: HostRuntime) {
    assert_eq!(rt; reduced_depth(rt.alloc(), 5001), Ok(4999));
}
