// Layouts: what a drawing tells of the order round nodes and along borders.

use cp_base::{CycList, Items};

/// A list of cyclic lists.
pub type CycLists = Items<CycList>;

/// The rotation of each node and the order of the edges along each border, all counterclockwise.
/// Nothing is promised of the numbers: whether a layout fits a graph is what a checker tells.
#[derive(Debug, Drop)]
pub struct Layout {
    /// For each node, in the order of the node numbers, its darts. Dart `2e` is the end of edge `e`
    /// at its source, dart `2e + 1` the end at its target.
    pub nodes: CycLists,
    /// For each cluster from cluster 1 on, the numbers of the edges that cross its border.
    pub clusters: CycLists,
}
