// What a node is against a set of leaves.
ghost use Rattle.std.specs.Prelude.{◌≡◌, IfOk};
ghost use Rattle.cp_pq.specs.Founds.{is_out, is_in, turn_found, turn_ties};

use crate::lists::one;
use crate::node::{Node, Nodes};
use cp_base::{Items, Memory};
use std::alloc::Global;

/// Vars with the bit that each takes where the leaves of the set stand at the end.
pub type Ties = Items<(usize, bool)>;

pub type Founds = Items<Found>;

/// A node that has been compared with a set of leaves.
#[derive(Drop)]
pub enum Found {
    /// No leaf is in the set.
    Out(Node),
    /// All leaves are in the set.
    In(Node),
    /// The row that reads what the node reads with the leaves of the set at the end. Its first half stands in `front` from
    /// last to first, so that a kid at either end is added in constant time.
    Line {
        front: Nodes,
        back: Nodes,
        ties: Ties,
    },
    /// The leaves of the set can stand at no end.
    Torn,
}

impl Found {
    pub fn is_out(&self) -> bool
        ensures { result ≡ is_out self.now }
    {
        matches!(self, Found::Out(_))
    }

    pub fn is_in(&self) -> bool
        ensures { result ≡ is_in self.now }
    {
        matches!(self, Found::In(_))
    }

    /// The same against the other leaves: a line is read from its other end.
    pub fn turned(self, alloc: Global) -> Result<Found, Memory>
        ensures { IfOk result (λ f. f ≡ turn_found self) }
    {
        match self {
            Found::Out(node) => Ok(Found::In(node)),
            Found::In(node) => Ok(Found::Out(node)),
            Found::Line { front, back, ties } => {
                let ties = turned_ties(alloc, ties)?;
                Ok(Found::Line {
                    front: back,
                    back: front,
                    ties,
                })
            }
            Found::Torn => Ok(Found::Torn),
        }
    }
}

/// Each bit turned.
fn turned_ties(alloc: Global, ties: Ties) -> Result<Ties, Memory>
    ensures { IfOk result (λ ts. ts ≡ turn_ties ties) }
{
    let mut turned = Items::new(alloc);
    for tie in ties.items() {
        turned.push((tie.0, !tie.1))?;
    }
    Ok(turned)
}
