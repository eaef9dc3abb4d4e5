// What a check answers.

/// Why a layout is rejected: the first reason that applies, in the order of the variants.
#[derive(Clone, Copy, Debug, PartialEq, Eq)]
pub enum Reject {
    /// The report says that there is no layout.
    NoLayout,
    /// The least node number whose line is missing, has no node, or is no arrangement of the
    /// node's darts.
    NodeLine(usize),
    /// The least cluster number whose line is missing, has no cluster, or does not list exactly
    /// the edges that leave the cluster.
    ClusterLine(usize),
    /// The border graph has `v` vertices, `e` edges, `f` faces and `c` components, and
    /// `v - e + f` is not `2c`.
    Genus {
        v: usize,
        e: usize,
        f: usize,
        c: usize,
    },
}

/// Whether a report has a good layout.
#[derive(Clone, Copy, Debug, PartialEq, Eq)]
pub enum Verdict {
    /// The layout is good for the graph.
    Accepted,
    /// The report has no layout that is good for the graph, for this reason.
    Rejected(Reject),
}
