// What an inner node is against a set of leaves, from what its kids are.
ghost use Rattle.std.specs.Prelude.{◌≡◌, ℕ, Bool, ◌∷◌, ◌++◌, [], ◌≤◌, cond, reverse, length, List, IfOk};
ghost use Rattle.std.specs.List.{list_any, AllZip};
ghost use Rattle.cp_pq.specs.Founds.{IsGiven, Sorts};
ghost use Rattle.cp_pq.specs.Words.{Opposite, group_of};
ghost use Rattle.cp_pq.specs.Frames.{node_of};
ghost use Rattle.cp_pq.specs.declared.node.Node.{Node};
ghost use Rattle.cp_pq.specs.declared.node.Node.TheVariants.{P, Q};
ghost use Rattle.cp_pq.specs.declared.found.Found.{Found};

use crate::found::{Found, Founds};
use crate::frame::Label;
use crate::kinds::{Kinds, group, sort};
use crate::lists::{joined, one, reversed};
use crate::node::{Node, Nodes};
use crate::pour::{Poured, pour, row_of};
use crate::row::{are_in, are_out, is_sorted};
use cp_base::{Items, Memory};
use std::alloc::Global;

/// The line with the kids outside before it and those inside behind it, each grouped.
fn line_between(
    alloc: Global,
    owner: usize,
    front: Nodes,
    back: Nodes,
    outs: Nodes,
    ins: Nodes,
) -> Result<(Nodes, Nodes), Memory>
    ensures { IfOk result (λ r. reverse r.0 ++ r.1 ≡ group_of owner outs ++ ((reverse front ++ back) ++ group_of owner ins)) }
{
    let before = group(alloc, owner, outs)?;
    let after = group(alloc, owner, ins)?;
    let new_front = joined(alloc, front, before)?;
    let new_back = joined(alloc, back, after)?;
    Ok((new_front, new_back))
}

/// What a P-node is whose kids are all outside or inside.
fn close_whole(alloc: Global, owner: usize, outs: Nodes, ins: Nodes) -> Result<Found, Memory>
    ensures { IfOk result (λ f. (q p : ℕ → Bool) (ks : List Node) → Opposite q p → Sorts q p ks outs ins [] → 2 ≤ length ks
        → IsGiven q p (P owner ks) f) }
{
    if ins.len() == 0 {
        return Ok(Found::Out(Node::P { owner, kids: outs }));
    }
    if outs.len() == 0 {
        return Ok(Found::In(Node::P { owner, kids: ins }));
    }
    let (front, back) = line_between(
        alloc,
        owner,
        Items::new(alloc),
        Items::new(alloc),
        outs,
        ins,
    )?;
    let ties = Items::new(alloc);
    Ok(Found::Line { front, back, ties })
}

/// What a P-node is that has one kid neither outside nor inside.
fn close_one(
    alloc: Global,
    owner: usize,
    outs: Nodes,
    ins: Nodes,
    found: Found,
) -> Result<Found, Memory>
    ensures { IfOk result (λ f. (q p : ℕ → Bool) (ks : List Node) → Opposite q p → Sorts q p ks outs ins (found ∷ [])
        → IsGiven q p (P owner ks) f) }
{
    match found {
        Found::Line { front, back, ties } => {
            let (front, back) = line_between(alloc, owner, front, back, outs, ins)?;
            Ok(Found::Line { front, back, ties })
        }
        _ => Ok(Found::Torn),
    }
}

/// What a P-node is, from its kids.
fn close_p(alloc: Global, owner: usize, kinds: Kinds) -> Result<Found, Memory>
    ensures { IfOk result (λ f. (q p : ℕ → Bool) (ks : List Node) → Opposite q p → Sorts q p ks kinds.outs kinds.ins kinds.mixed
        → 2 ≤ length ks → IsGiven q p (P owner ks) f) }
{
    let Kinds { outs, ins, mixed } = kinds;
    let mut left = mixed;
    match left.pop() {
        None => close_whole(alloc, owner, outs, ins),
        Some(found) => {
            if left.len() > 0 {
                return Ok(Found::Torn);
            }
            close_one(alloc, owner, outs, ins, found)
        }
    }
}

/// The row as a line, or nothing where one of its nodes has none.
fn line_found(poured: Poured) -> Found
    ensures { result ≡ cond poured.torn Found.Torn (Found.Line poured.front poured.back poured.ties) }
{
    let Poured {
        front,
        back,
        ties,
        torn,
    } = poured;
    if torn {
        return Found::Torn;
    }
    Found::Line { front, back, ties }
}

/// What a Q-node is, from its kids.
fn close_q(alloc: Global, var: usize, founds: Founds) -> Result<Found, Memory>
    ensures { IfOk result (λ f. (q p : ℕ → Bool) (ks : List Node) → Opposite q p → AllZip (IsGiven q p) ks founds
        → 2 ≤ length ks → IsGiven q p (Q var ks) f) }
{
    let outs = are_out(founds.items());
    let ins = are_in(founds.items());
    let forward = is_sorted(founds.items());
    let back = reversed(alloc, founds)?;
    if outs {
        let kids = row_of(alloc, back)?;
        return Ok(Found::Out(Node::Q { var, kids }));
    }
    if ins {
        let in_kids = row_of(alloc, back)?;
        return Ok(Found::In(Node::Q { var, kids: in_kids }));
    }
    if forward {
        let ties = one(alloc, (var, false))?;
        let poured = pour(alloc, back, ties)?;
        return Ok(line_found(poured));
    }
    if is_sorted(back.items()) {
        let again = reversed(alloc, back)?;
        let back_ties = one(alloc, (var, true))?;
        let back_poured = pour(alloc, again, back_ties)?;
        return Ok(line_found(back_poured));
    }
    Ok(Found::Torn)
}

/// What an inner node is, from its kids. Linear in their number.
pub fn close(alloc: Global, label: Label, founds: Founds) -> Result<Found, Memory>
    ensures { IfOk result (λ f. (q p : ℕ → Bool) (ks : List Node) → Opposite q p → AllZip (IsGiven q p) ks founds
        → 2 ≤ length ks → IsGiven q p (node_of label ks) f) }
{
    match label {
        Label::P(owner) => {
            let back = reversed(alloc, founds)?;
            let kinds = sort(alloc, back)?;
            close_p(alloc, owner, kinds)
        }
        Label::Q(var) => close_q(alloc, var, founds),
    }
}
