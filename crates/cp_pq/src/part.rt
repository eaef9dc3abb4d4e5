// The part of a tree that a set of leaves fills.

use crate::node::Nodes;

/// What `replace` takes out of a tree. Where `var` is None the part is its one kid; otherwise it is a Q-node with
/// these kids and this var.
#[derive(Drop)]
pub struct Part {
    pub kids: Nodes,
    pub var: Option<usize>,
}
