// Shapes of order trees.

use crate::Items;

/// A part of a shape (Booth and Lueker 1976).
#[derive(Debug, Drop)]
pub enum Branch {
    /// An edge.
    Leaf(usize),
    /// An inner node whose kids are read in any order.
    P(Branches),
    /// An inner node whose kids are read in the given order or in its reverse.
    Q(Branches),
}

/// The kids of an inner node, which contracts see as the list of them.
pub type Branches = Items<Branch>;

/// The shape of an order tree, which is the tree without owners and bits.
#[derive(Debug, Drop)]
pub struct Shape {
    /// The root leaf, an edge.
    pub root: usize,
    /// All that hangs below the root leaf.
    pub body: Branch,
}
