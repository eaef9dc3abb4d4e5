// What becomes of the node that holds a whole set of leaves, when the leaves are to be consecutive.
ghost use Rattle.std.specs.Prelude.{◌≡◌, ℕ, Bool, true, false, cond, not, ◌||◌, ◌≤◌, length, List, [], ◌∷◌, ◌++◌, filter, map, reverse, IfOk};
ghost use Rattle.std.specs.List.{list_all, AllZip};
ghost use Rattle.cp_pq.specs.Words.{Opposite, has_all, is_met, is_clear};
ghost use Rattle.cp_pq.specs.Founds.{IsGiven, Sorts, is_out, turn_found, turn_behind};
ghost use Rattle.cp_pq.specs.Roots.{IsCore, IsChange};
ghost use Rattle.cp_pq.specs.Steps.{IsTop};
ghost use Rattle.cp_pq.specs.declared.node.Node.{Node};
ghost use Rattle.cp_pq.specs.declared.node.Node.TheVariants.{P, Q};
ghost use Rattle.cp_pq.specs.declared.found.Found.{Found};

use crate::found::{Found, Founds, Ties};
use crate::frame::Label;
use crate::kinds::{Kinds, group, sort};
use crate::lists::{one, reversed};
use crate::node::{Node, Nodes};
use crate::pour::{Poured, pour, whole_row};
use crate::row::is_run;
use crate::step::Top;
use cp_base::{Items, Memory};
use std::alloc::Global;

/// What becomes of a node.
#[derive(Drop)]
pub enum Change {
    /// This node, and no bit is tied.
    Kept(Node),
    /// This node, and vars are tied to this var of the tree.
    Old { node: Node, var: usize, ties: Ties },
    /// This node, and vars are tied to the one new var.
    New { node: Node, ties: Ties },
    /// The leaves can not be consecutive.
    Never,
}

/// A row in the making, whose nodes are turned behind the first that is not outside.
#[derive(Drop)]
struct Turning {
    row: Founds,
    met: bool,
}

impl Turning {
    fn add(self, alloc: Global, found: Found) -> Result<Turning, Memory>
        ensures { IfOk result (λ r. (r.row ≡ self.row ++ cond self.met (turn_found found) found ∷ [])
            × (r.met ≡ (self.met || not (is_out found)))) }
    {
        let Turning { row, met } = self;
        let mut all = row;
        if met {
            let turned = found.turned(alloc)?;
            all.push(turned)?;
            return Ok(Turning {
                row: all,
                met: true,
            });
        }
        let now = !found.is_out();
        all.push(found)?;
        Ok(Turning { row: all, met: now })
    }
}

/// The row, which is given from its end, with all nodes turned behind the first that is not outside.
fn turned_behind(alloc: Global, founds: Founds) -> Result<Founds, Memory>
    ensures { IfOk result (λ r. r ≡ turn_behind (reverse founds)) }
{
    let mut turning = Turning {
        row: Items::new(alloc),
        met: false,
    };
    let mut left = founds;
    while let Some(found) = left.pop() {
        turning = turning.add(alloc, found)?;
    }
    let Turning { row, .. } = turning;
    Ok(row)
}

/// What becomes of a Q-node.
fn change_q(alloc: Global, var: usize, founds: Founds) -> Result<Change, Memory>
    ensures { IfOk result (λ r. (q p : ℕ → Bool) (vars : ℕ) (ks : List Node) → Opposite q p → AllZip (IsGiven q p) ks founds
        → 2 ≤ length (filter (is_met q) ks) → IsChange q p vars (Q var ks) r) }
{
    if !is_run(founds.items()) {
        return Ok(Change::Never);
    }
    let back = reversed(alloc, founds)?;
    let row = turned_behind(alloc, back)?;
    let row_back = reversed(alloc, row)?;
    let no_ties = Items::new(alloc);
    let poured = pour(alloc, row_back, no_ties)?;
    let Poured {
        front,
        back: rear,
        ties,
        torn,
    } = poured;
    if torn {
        return Ok(Change::Never);
    }
    let kids = whole_row(alloc, front, rear)?;
    Ok(Change::Old {
        node: Node::Q { var, kids },
        var,
        ties,
    })
}

/// What becomes of a P-node whose kids are all outside or inside: those inside are put under a P-node of their own.
fn change_whole(alloc: Global, owner: usize, outs: Nodes, ins: Nodes) -> Result<Change, Memory>
    ensures { IfOk result (λ r. (q p : ℕ → Bool) (vars : ℕ) (ks : List Node) → Opposite q p → Sorts q p ks outs ins []
        → has_all p (P owner ks) ≡ false → 2 ≤ length (filter (is_met q) ks) → IsChange q p vars (P owner ks) r) }
{
    let mut kids = outs;
    kids.push(Node::P { owner, kids: ins })?;
    Ok(Change::Kept(Node::P { owner, kids }))
}

/// The one node of a grouped row, as one inside, behind the others.
fn with_group(row: Founds, group: Nodes) -> Result<Founds, Memory>
    ensures { IfOk result (λ r. length group ≤ 1 → r ≡ row ++ map Found.In group) }
{
    let mut all = row;
    let mut left = group;
    if let Some(node) = left.pop() {
        all.push(Found::In(node))?;
    }
    Ok(all)
}

/// The row of the kids that meet the set, with one kid neither outside nor inside.
fn core_one(alloc: Global, owner: usize, ins: Nodes, first: Found) -> Result<Founds, Memory>
    ensures { IfOk result (λ r. (q p : ℕ → Bool) (vars : ℕ) (ks outs : List Node) → Opposite q p
        → Sorts q p ks outs ins (first ∷ []) → 2 ≤ length (filter (is_met q) ks)
        → IsCore q p vars owner (filter (is_met q) ks) r) }
{
    let inner = group(alloc, owner, ins)?;
    let row = one(alloc, first)?;
    with_group(row, inner)
}

/// The row of the kids that meet the set, with two kids neither outside nor inside.
fn core_two(
    alloc: Global,
    owner: usize,
    ins: Nodes,
    first: Found,
    second: Found,
) -> Result<Founds, Memory>
    ensures { IfOk result (λ r. (q p : ℕ → Bool) (vars : ℕ) (ks outs : List Node) → Opposite q p
        → Sorts q p ks outs ins (first ∷ second ∷ []) → 2 ≤ length (filter (is_met q) ks)
        → IsCore q p vars owner (filter (is_met q) ks) r) }
{
    let inner = group(alloc, owner, ins)?;
    let row = one(alloc, first)?;
    let mut all = with_group(row, inner)?;
    let turned = second.turned(alloc)?;
    all.push(turned)?;
    Ok(all)
}

/// What becomes of a P-node, from the row of its kids that meet the set: they go under a Q-node with the new var.
fn change_core(
    alloc: Global,
    owner: usize,
    vars: usize,
    outs: Nodes,
    row: Founds,
) -> Result<Change, Memory>
    ensures { IfOk result (λ r. (q p : ℕ → Bool) (ks : List Node) → Opposite q p → list_all (is_clear q p) ks ≡ true
        → outs ≡ filter (has_all q) ks → 2 ≤ length (filter (is_met q) ks)
        → IsCore q p vars owner (filter (is_met q) ks) row → IsChange q p vars (P owner ks) r) }
{
    let row_back = reversed(alloc, row)?;
    let no_ties = Items::new(alloc);
    let poured = pour(alloc, row_back, no_ties)?;
    let Poured {
        front,
        back,
        ties,
        torn,
    } = poured;
    if torn {
        return Ok(Change::Never);
    }
    let line = whole_row(alloc, front, back)?;
    let inner = Node::Q {
        var: vars,
        kids: line,
    };
    if outs.len() == 0 {
        return Ok(Change::New { node: inner, ties });
    }
    let mut kids = outs;
    kids.push(inner)?;
    Ok(Change::New {
        node: Node::P { owner, kids },
        ties,
    })
}

/// What becomes of a P-node, from its kids.
fn change_p(alloc: Global, owner: usize, vars: usize, kinds: Kinds) -> Result<Change, Memory>
    ensures { IfOk result (λ r. (q p : ℕ → Bool) (ks : List Node) → Opposite q p
        → Sorts q p ks kinds.outs kinds.ins kinds.mixed → has_all p (P owner ks) ≡ false
        → 2 ≤ length (filter (is_met q) ks) → IsChange q p vars (P owner ks) r) }
{
    let Kinds { outs, ins, mixed } = kinds;
    let mut left = mixed;
    let Some(last) = left.pop() else {
        return change_whole(alloc, owner, outs, ins);
    };
    let Some(first) = left.pop() else {
        let row = core_one(alloc, owner, ins, last)?;
        return change_core(alloc, owner, vars, outs, row);
    };
    if left.len() > 0 {
        return Ok(Change::Never);
    }
    let long_row = core_two(alloc, owner, ins, first, last)?;
    change_core(alloc, owner, vars, outs, long_row)
}

/// What becomes of the node that holds the whole set, in a tree with so many vars. Linear in its kids and their lines.
pub fn changed(alloc: Global, top: Top, vars: usize) -> Result<Change, Memory>
    ensures { IfOk result (λ r. (q p : ℕ → Bool) (k : Node) → Opposite q p → IsTop q p k top → IsChange q p vars k r) }
{
    match top {
        Top::Whole(node) => Ok(Change::Kept(node)),
        Top::Met { label, founds } => match label {
            Label::P(owner) => {
                let back = reversed(alloc, founds)?;
                let kinds = sort(alloc, back)?;
                change_p(alloc, owner, vars, kinds)
            }
            Label::Q(var) => change_q(alloc, var, founds),
        },
    }
}
