// Nodes of order trees.

use cp_base::Items;

/// A row of nodes, which contracts see as the list of them.
pub type Nodes = Items<Node>;

/// A node of an order tree (Booth and Lueker 1976).
#[derive(Drop)]
pub enum Node {
    /// A leaf, by its number.
    Leaf(usize),
    /// Reads its kids in any order. The owner is a number that the caller gives a meaning.
    P { owner: usize, kids: Nodes },
    /// Reads its kids in the given order where the bit of the var is false, and in the reverse order where it is true.
    Q { var: usize, kids: Nodes },
}
