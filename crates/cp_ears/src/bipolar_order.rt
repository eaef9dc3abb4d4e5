// Bipolar orders.
ghost use Rattle.std.specs.Prelude.{IfOk};
ghost use Rattle.cp_conn.specs.Blocks.{HaveNoLoop};
ghost use Rattle.cp_ears.specs.Bipolar.{IsOneBlock, HaveEdges, AreAdjacent, IsBipolar};

use crate::placing::{places_of, put_in_order};
use cp_base::{Graph, Memory};
use cp_conn::search_tree;
use std::alloc::Global;

/// All vertices once, `s` first and `t` last, each other vertex with a neighbour before it and one
/// after it: a bipolar order, or st-order (Lempel, Even, Cederbaum 1967). By low points of a
/// depth-first search (Even, Tarjan 1976; Tarjan 1986): each vertex comes beside its parent, on the
/// side of its low point. Linear in the numbers of vertices and edges, without recursion.
pub fn bipolar(alloc: Global, g: &Graph, s: usize, t: usize) -> Result<Vec<usize>, Memory>
    requires no_loop { HaveNoLoop g.now.ends }
    requires one_block { IsOneBlock g.now.ends }
    requires each_has_edge { HaveEdges g.now.vertices g.now.ends }
    requires joined { AreAdjacent g.now.ends s t }
    ensures { IfOk result (λ order. IsBipolar g.now s t order.items) }
{
    let tree = search_tree(alloc, g, s, t)?;
    let places = places_of(alloc, tree.up.as_slice(), tree.low.as_slice())?;
    put_in_order(alloc, tree.order.as_slice(), places.as_slice())
}
