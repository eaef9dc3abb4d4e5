// What a line of a layout has to hold: the darts at a node, and the edges that leave a cluster.
ghost use Rattle.std.specs.Prelude.{◌≡◌, ◌*◌, ◌<◌, ◌==◌};
ghost use Rattle.cp_cgraph.specs.Clustered.{nodes, edges, clusters, node_of};
ghost use Rattle.cp_cgraph.specs.Crossings.{leaves};

use crate::exact::Wanted;
use cp_cgraph::CGraph;

// The edges that leave cluster `c`.
#[derive(Drop)]
pub(crate) struct LeavingEdges<'a> {
    pub(crate) g: &'a CGraph,
    pub(crate) c: usize,
    ghost cluster: { c < clusters g.now },
}

impl<'a> Wanted for LeavingEdges<'a> {
    ghost bound = { λ t. edges t.g.now };

    ghost wanted = { λ t. leaves t.g.now t.c };

    fn is_wanted(&self, x: usize) -> bool {
        x < self.g.edges() && self.g.leaves(self.c, x)
    }
}

// The node at which dart `d` stands.
pub(crate) fn node_at(g: &CGraph, d: usize) -> usize
    requires { d < 2 * edges g.now }
    ensures value { result ≡ node_of g.now d }
    ensures node { result < nodes g.now }
{
    let (source, target) = g.ends(d / 2);
    if d % 2 == 0 { source } else { target }
}

// The darts that stand at node `v`.
#[derive(Drop)]
pub(crate) struct NodeDarts<'a> {
    pub(crate) g: &'a CGraph,
    pub(crate) v: usize,
}

impl<'a> Wanted for NodeDarts<'a> {
    ghost bound = { λ t. 2 * edges t.g.now };

    ghost wanted = { λ t d. node_of t.g.now d == t.v };

    fn is_wanted(&self, x: usize) -> bool {
        x < 2 * self.g.edges() && node_at(self.g, x) == self.v
    }
}
