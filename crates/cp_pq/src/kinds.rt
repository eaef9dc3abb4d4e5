// The kids of a P-node by their kinds.
ghost use Rattle.std.specs.Prelude.{◌≡◌, ◌∷◌, ◌++◌, [], reverse, IfOk};
ghost use Rattle.std.specs.List.{flat_map};
ghost use Rattle.cp_pq.specs.Founds.{out_node, in_node, mixed_found};
ghost use Rattle.cp_pq.specs.Words.{group_of};

use crate::found::{Found, Founds};
use crate::node::{Node, Nodes};
use cp_base::{Items, Memory};
use std::alloc::Global;

/// The kids outside, those inside, and the others, each in their order.
#[derive(Drop)]
pub struct Kinds {
    pub outs: Nodes,
    pub ins: Nodes,
    pub mixed: Founds,
}

impl Kinds {
    /// Adds a kid behind the others.
    fn add(&mut self, found: Found) -> Result<(), Memory>
        ensures outs { IfOk result (λ _. self.new.outs ≡ self.old.outs ++ flat_map out_node (found ∷ [])) }
        ensures ins { IfOk result (λ _. self.new.ins ≡ self.old.ins ++ flat_map in_node (found ∷ [])) }
        ensures mixed { IfOk result (λ _. self.new.mixed ≡ self.old.mixed ++ flat_map mixed_found (found ∷ [])) }
    {
        match found {
            Found::Out(node) => self.outs.push(node),
            Found::In(node) => self.ins.push(node),
            Found::Line { front, back, ties } => self.mixed.push(Found::Line { front, back, ties }),
            Found::Torn => self.mixed.push(Found::Torn),
        }
    }
}

/// Sorts a row, which is given from its end. Linear in the row.
pub fn sort(alloc: Global, founds: Founds) -> Result<Kinds, Memory>
    ensures outs { IfOk result (λ r. r.outs ≡ flat_map out_node (reverse founds)) }
    ensures ins { IfOk result (λ r. r.ins ≡ flat_map in_node (reverse founds)) }
    ensures mixed { IfOk result (λ r. r.mixed ≡ flat_map mixed_found (reverse founds)) }
{
    let mut kinds = Kinds {
        outs: Items::new(alloc),
        ins: Items::new(alloc),
        mixed: Items::new(alloc),
    };
    let mut left = founds;
    while let Some(found) = left.pop() {
        kinds.add(found)?;
    }
    Ok(kinds)
}

/// Nothing, the one node, or a P-node of several.
pub fn group(alloc: Global, owner: usize, nodes: Nodes) -> Result<Nodes, Memory>
    ensures { IfOk result (λ g. g ≡ group_of owner nodes) }
{
    if nodes.len() < 2 {
        return Ok(nodes);
    }
    let mut row = Items::new(alloc);
    row.push(Node::P { owner, kids: nodes })?;
    Ok(row)
}
