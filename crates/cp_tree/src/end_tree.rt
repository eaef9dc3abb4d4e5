// What the orders of an end of a pipe are.

use cp_base::Shape;

/// The cyclic orders that a vertex has in the rotations of its block.
#[derive(Debug, Drop)]
pub enum EndTree {
    /// All orders: the vertex and this P-vertex are a bond.
    Pole(usize),
    /// The orders that the shape admits, if its Q-nodes go with each other.
    Shape(Shape),
}
