// A place in a tree: the nodes round it, from the place up.
ghost use Rattle.std.specs.Prelude.{◌≡◌, ◌∷◌, [], reverse, IfOk};
ghost use Rattle.cp_pq.specs.Frames.{node_of, kids_round, fill};

use crate::lists::{joined, one, reversed};
use crate::node::{Node, Nodes};
use cp_base::{Items, Memory};
use std::alloc::Global;

/// What an inner node has beside its kids.
#[derive(Clone, Copy)]
pub enum Label {
    /// The owner.
    P(usize),
    /// The var.
    Q(usize),
}

impl Label {
    /// The inner node with these kids.
    pub fn node(self, kids: Nodes) -> Node
        ensures { result ≡ node_of self kids }
    {
        match self {
            Label::P(owner) => Node::P { owner, kids },
            Label::Q(var) => Node::Q { var, kids },
        }
    }
}

/// An inner node round a place: its kids before the place and those behind it.
#[derive(Drop)]
pub struct Frame {
    pub label: Label,
    pub before: Nodes,
    pub after: Nodes,
}

/// The nodes round a place, the innermost first.
pub type Frames = Items<Frame>;

impl Frame {
    /// The node with this row in the place.
    fn node(self, alloc: Global, row: Nodes) -> Result<Node, Memory>
        ensures { IfOk result (λ n. n ≡ node_of self.label (kids_round self row)) }
    {
        let Frame {
            label,
            before,
            after,
        } = self;
        let behind = joined(alloc, row, after)?;
        let kids = joined(alloc, before, behind)?;
        Ok(label.node(kids))
    }
}

/// The tree with this row in the place. Linear in the nodes beside the place and in the row.
pub fn row_filled(alloc: Global, frames: Frames, row: Nodes) -> Result<Nodes, Memory>
    ensures { IfOk result (λ r. r ≡ fill frames row) }
{
    let mut left = reversed(alloc, frames)?;
    let mut inner = row;
    while let Some(frame) = left.pop() {
        let node = frame.node(alloc, inner)?;
        inner = one(alloc, node)?;
    }
    Ok(inner)
}

/// The tree with this node in the place. Linear in the nodes beside the place.
pub fn filled(alloc: Global, frames: Frames, node: Node) -> Result<Node, Memory>
    ensures { IfOk result (λ r. r ∷ [] ≡ fill frames (node ∷ [])) }
{
    let row = one(alloc, node)?;
    let mut whole = row_filled(alloc, frames, row)?;
    let Some(body) = whole.pop() else {
        unreachable!()
    };
    Ok(body)
}
