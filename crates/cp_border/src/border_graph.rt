// The border graph of a layout whose lines are right.
ghost use Rattle.std.specs.Prelude.{◌≡◌, IfOk, IfErr};
ghost use Rattle.cp_border.specs.Borders.{borders};
ghost use Rattle.cp_border.specs.Good.{IsArranged};
ghost use Rattle.cp_border.specs.Fault.{IsFaultOf};

use crate::lines::{first_wrong_cluster, first_wrong_node};
use crate::{BorderTables, View, write_tables};
use cp_base::Memory;
use cp_cgraph::{CGraph, Layout};
use cp_rot::Rot;
use std::alloc::Global;

/// Why a layout has no border graph.
#[derive(Clone, Copy, Debug, PartialEq, Eq)]
pub enum BorderFault {
    /// The least node number whose list is missing, has no node, or is no arrangement of the darts
    /// that stand at the node.
    Node(usize),
    /// The least cluster number whose list is missing, has no cluster, or does not hold exactly the
    /// edges that leave the cluster, each once. All lists of nodes are right.
    Cluster(usize),
    /// An allocation failed, or the border graph has more vertices than any memory holds.
    Memory,
}

impl From<Memory> for BorderFault {
    ghost use Rattle.cp_border.specs.declared.border_graph.BorderFault.{BorderFault};

    ghost from_gives = { λ _ fault. fault ≡ BorderFault.Memory };

    fn from(_error: Memory) -> BorderFault {
        BorderFault::Memory
    }
}

// The border graph of right lines, by the tables that tell it.
fn arranged_rot(alloc: Global, g: &CGraph, lay: &Layout) -> Result<Rot, Memory>
    requires { IsArranged g.now lay.now }
    ensures { IfOk result (λ rot. rot ≡ borders g.now lay.now) }
{
    let mut tables = BorderTables::for_graph(alloc, g)?;
    write_tables(g, lay, &mut tables);
    Rot::stored(alloc, &View::new(g, lay, &tables))
}

/// The graph and the borders of its clusters as one rotation system: the vertices are the nodes, and
/// behind them one for each crossing of an edge and a border, by edge and along it; the edges are
/// the segments of the edges, and behind them those of the borders. `Node` and `Cluster` tell the
/// first wrong line of the layout. Linear in the numbers of nodes, clusters, edges, items and
/// crossings.
pub fn border_rot(alloc: Global, g: &CGraph, lay: &Layout) -> Result<Rot, BorderFault>
    ensures found { IfOk result (λ rot. rot ≡ borders g.now lay.now) }
    ensures arranged { IfOk result (λ _. IsArranged g.now lay.now) }
    ensures fault { IfErr result (λ fault. IsFaultOf g.now lay.now fault) }
{
    if let Some(node) = first_wrong_node(alloc, g, lay)? {
        return Err(BorderFault::Node(node));
    }
    if let Some(cluster) = first_wrong_cluster(alloc, g, lay)? {
        return Err(BorderFault::Cluster(cluster));
    }
    let rot = arranged_rot(alloc, g, lay)?;
    Ok(rot)
}
