// Nodes of search trees.

// A node: the root of the tree of the items before its item, its item, the root of the tree of those behind it, and how
// many items all these are.
#[derive(Debug, Drop)]
pub(crate) struct Node<T> {
    pub(crate) before: usize,
    pub(crate) item: T,
    pub(crate) behind: usize,
    pub(crate) count: usize,
}
