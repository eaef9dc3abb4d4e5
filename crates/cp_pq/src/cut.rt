// A row of nodes cut where its nodes enter and leave a set of leaves.
ghost use Rattle.std.specs.Prelude.{◌≡◌, ◌≢◌, ◌++◌, [], List, IfOk};
ghost use Rattle.cp_pq.specs.declared.node.Node.{Node};
ghost use Rattle.cp_pq.specs.Founds.{out_node, in_node};
ghost use Rattle.cp_pq.specs.Cuts.{IsCut};

use crate::found::{Found, Founds};
use crate::lists::reversed;
use crate::node::Nodes;
use cp_base::{Items, Memory};
use std::alloc::Global;

/// The nodes inside, which stand in one run, and those outside before and behind them.
#[derive(Drop)]
pub struct Cut {
    pub before: Nodes,
    pub run: Nodes,
    pub after: Nodes,
}

impl Cut {
    /// Adds a node behind the others.
    fn add(&mut self, found: Found) -> Result<(), Memory>
        ensures before { IfOk result (λ _. self.old.run ≡ [] → self.new.before ≡ self.old.before ++ out_node found) }
        ensures no_more_before { IfOk result (λ _. self.old.run ≢ [] → self.new.before ≡ self.old.before) }
        ensures run { IfOk result (λ _. self.new.run ≡ self.old.run ++ in_node found) }
        ensures not_yet_after { IfOk result (λ _. self.old.run ≡ [] → self.new.after ≡ self.old.after) }
        ensures after { IfOk result (λ _. self.old.run ≢ [] → self.new.after ≡ self.old.after ++ out_node found) }
    {
        match found {
            Found::In(node) => self.run.push(node),
            Found::Out(node) => {
                if self.run.len() == 0 {
                    return self.before.push(node);
                }
                self.after.push(node)
            }
            _ => Ok(()),
        }
    }
}

/// Cuts a row whose nodes inside, one at least, stand in one run, with no node that is neither inside nor outside. Linear
/// in the row.
pub fn cut_row(alloc: Global, founds: Founds) -> Result<Cut, Memory>
    ensures { IfOk result (λ c. (before run after : List Node) → run ≢ [] → IsCut founds before run after
        → (c.before ≡ before) × (c.run ≡ run) × (c.after ≡ after)) }
{
    let mut parts = Cut {
        before: Items::new(alloc),
        run: Items::new(alloc),
        after: Items::new(alloc),
    };
    let mut left = reversed(alloc, founds)?;
    while let Some(found) = left.pop() {
        parts.add(found)?;
    }
    Ok(parts)
}
