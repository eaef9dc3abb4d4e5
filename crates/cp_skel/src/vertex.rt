// What the vertices of skeletons stand for.

/// What a vertex of a skeleton stands for (Bläsius, Rutter 2016). Nodes and clusters are told by their numbers.
#[derive(Clone, Copy, Debug, PartialEq, Eq)]
pub enum Vertex {
    /// A node, in the skeleton of its home.
    Node(usize),
    /// A cluster as it is seen from its parent, in the skeleton of the parent.
    Child(usize),
    /// All that lies outside a cluster, in its own skeleton.
    Outside(usize),
}
