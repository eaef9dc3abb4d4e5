// A tree taken apart: nodes that are outside or inside as a whole are taken over, and only the others are closed anew.
ghost use Rattle.std.specs.Prelude.{◌≡◌, ℕ, Bool, true, false, IsTrue, ◌≤◌, ◌<◌, List, [], ◌∷◌, ◌++◌, length, reverse, IfOk};
ghost use Rattle.std.specs.List.Sorted.{IsStrictlyIncreasing};
ghost use Rattle.cp_pq.specs.declared.node.Node.{Node};
ghost use Rattle.cp_pq.specs.Nodes.{is_branching};
ghost use Rattle.cp_pq.specs.Orders.{inside, outside};
ghost use Rattle.cp_pq.specs.Words.{Opposite, has_all};
ghost use Rattle.cp_pq.specs.Frames.{node_of};
ghost use Rattle.cp_pq.specs.Steps.{IsStep, IsGathered, count_in, count_all};
ghost use Rattle.cp_pq.specs.Marks.{AreMarks, IsLow};

use crate::found::Found;
use crate::frame::Label;
use crate::lists::reversed;
use crate::look::{Marks, last_mark, look};
use crate::node::{Node, Nodes};
use crate::step::{Place, Row, Step, Top, close_row, leaf_step};
use cp_base::{Items, Memory};
use std::alloc::Global;

/// What a node is that is inside as a whole and holds `count` leaves.
fn whole_step(alloc: Global, node: Node, count: usize, total: usize) -> Step
    ensures { (q p : ℕ → Bool) → Opposite q p → has_all q node ≡ false → has_all p node ≡ true → count ≡ count_in p node
        → count_in p node ≤ total → IsStep q p total node result }
{
    if count < total {
        return Step::Open {
            found: Found::In(node),
            count,
        };
    }
    Step::Root(Place {
        frames: Items::new(alloc),
        top: Top::Whole(node),
    })
}

/// The row in its order, which was gathered from its end. Linear in the row.
fn turned_row(alloc: Global, row: Row) -> Result<Row, Memory>
    ensures { IfOk result (λ r. (q p : ℕ → Bool) (total : ℕ) (ks : List Node) → IsGathered q p total (reverse ks) row
        → IsGathered q p total ks r) }
{
    match row {
        Row::Open { founds, count } => {
            let in_order = reversed(alloc, founds)?;
            Ok(Row::Open {
                founds: in_order,
                count,
            })
        }
        Row::Root {
            before,
            place,
            after,
        } => {
            let front = reversed(alloc, after)?;
            let back = reversed(alloc, before)?;
            Ok(Row::Root {
                before: front,
                place,
                after: back,
            })
        }
    }
}

/// What an inner node is, from its kids, which were gathered from the end. Linear in their number. It is not inlined, so that
/// the functions that go down a tree have small frames.
#[inline(never)]
fn close_back(alloc: Global, label: Label, row: Row, total: usize) -> Result<Step, Memory>
    ensures { IfOk result (λ s. (q p : ℕ → Bool) (ks : List Node) → Opposite q p → IsGathered q p total (reverse ks) row
        → 2 ≤ length ks → 0 < total → count_all p ks ≤ total → IsStep q p total (node_of label ks) s) }
{
    let in_order = turned_row(alloc, row)?;
    let step = close_row(alloc, label, in_order, total)?;
    Ok(step)
}

/// What the node is, whose marks stand at the end of the stack, and the marks before them.
#[cycle(gathers)]
fn gather(
    alloc: Global,
    node: Node,
    set: &[usize],
    total: usize,
    marks: Marks,
) -> Result<(Step, Marks), Memory>
    ensures { IfOk result (λ r. (rest : List Node) → IsLow set.now total (node ∷ [])
        → AreMarks (outside set.now) (inside set.now) (node ∷ rest) marks
        → IsStep (outside set.now) (inside set.now) total node r.0 × AreMarks (outside set.now) (inside set.now) rest r.1) }
{
    match node {
        Node::Leaf(x) => Ok((leaf_step(alloc, x, set, total), marks)),
        Node::P { owner, kids } => { gather_inner(alloc, Label::P(owner), kids, set, total, marks) }
        Node::Q { var, kids: row } => { gather_inner(alloc, Label::Q(var), row, set, total, marks) }
    }
}

/// What the inner node is, and the marks before its own.
#[cycle(gathers)]
fn gather_inner(
    alloc: Global,
    label: Label,
    kids: Nodes,
    set: &[usize],
    total: usize,
    marks: Marks,
) -> Result<(Step, Marks), Memory>
    ensures { IfOk result (λ r. (rest : List Node) → IsLow set.now total (node_of label kids ∷ [])
        → AreMarks (outside set.now) (inside set.now) (node_of label kids ∷ rest) marks
        → IsStep (outside set.now) (inside set.now) total (node_of label kids) r.0
        × AreMarks (outside set.now) (inside set.now) rest r.1) }
{
    let (mark, left) = last_mark(marks);
    if mark.is_out() {
        let found = Found::Out(label.node(kids));
        return Ok((Step::Open { found, count: 0 }, left));
    }
    if mark.is_in() {
        let whole = whole_step(alloc, label.node(kids), mark.count, total);
        return Ok((whole, left));
    }
    gather_row(alloc, label, kids, set, total, left)
}

/// What the inner node is, whose own mark has been taken, and the marks before those of its kids.
#[cycle(gathers)]
fn gather_row(
    alloc: Global,
    label: Label,
    kids: Nodes,
    set: &[usize],
    total: usize,
    marks: Marks,
) -> Result<(Step, Marks), Memory>
    ensures { IfOk result (λ r. (rest : List Node) → IsLow set.now total (node_of label kids ∷ [])
        → AreMarks (outside set.now) (inside set.now) (reverse kids ++ rest) marks
        → IsStep (outside set.now) (inside set.now) total (node_of label kids) r.0
        × AreMarks (outside set.now) (inside set.now) rest r.1) }
{
    let mut row = Row::Open {
        founds: Items::new(alloc),
        count: 0,
    };
    let mut left = kids;
    let mut ahead = marks;
    while let Some(kid) = left.pop() {
        let (step, fewer) = gather(alloc, kid, set, total, ahead)?;
        ahead = fewer;
        row = row.add(alloc, step)?;
    }
    let whole = close_back(alloc, label, row, total)?;
    Ok((whole, ahead))
}

/// What the node is against the set of `total` leaves. One pass that reads the node and looks each leaf up in the set; then
/// only the nodes that have leaves of both kinds are taken apart, and the others are moved.
pub fn step_of(alloc: Global, node: Node, set: &[usize], total: usize) -> Result<Step, Memory>
    ensures { IfOk result (λ s. IsStrictlyIncreasing set.now → IsTrue (is_branching node) → 0 < total
        → count_in (inside set.now) node ≤ total → IsStep (outside set.now) (inside set.now) total node s) }
{
    let (_, marks) = look(&node, set, Items::new(alloc))?;
    let (step, _) = gather(alloc, node, set, total, marks)?;
    Ok(step)
}
