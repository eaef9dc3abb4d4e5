// A part of the graph of a board, numbered.
use cp_base::Graph;
use cp_board::Names;

/// The components of two vertices of a board, as a graph of their own.
#[derive(Debug, Drop)]
pub struct LocalGraph {
    /// The graph. Vertex `i` is the one named `verts[i]`, and edge `j` the one named `edges[j]`.
    pub graph: Graph,
    /// The names of the vertices, rising.
    pub verts: Names,
    /// The names of the edges, rising.
    pub edges: Names,
}
