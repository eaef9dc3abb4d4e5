// The blocks of a graph.
ghost use Rattle.std.specs.Prelude.{length, IfOk};
ghost use Rattle.cp_conn.specs.Blocks.{HaveNoLoop, AreInOneBlock};
ghost use Rattle.cp_conn.specs.Numbering.{AreNumbered};

use crate::edge_links::block_links;
use crate::numbering::numbers_of;
use crate::search::least_connected;
use cp_base::{Graph, Memory};
use std::alloc::Global;

/// The number of the block of each edge. Blocks are numbered from 0 by their least edges; two edges
/// are in one block where they are equal or lie on one simple cycle (Whitney 1932). By low points of
/// a depth-first search (Hopcroft, Tarjan 1973), without recursion: linear in the numbers of vertices
/// and edges.
pub fn blocks(alloc: Global, g: &Graph) -> Result<Vec<usize>, Memory>
    requires { HaveNoLoop g.now.ends }
    ensures { IfOk result (λ numbers. AreNumbered (AreInOneBlock g.now.ends) (length g.now.ends) numbers.items) }
{
    let links = block_links(alloc, g)?;
    let edges = g.ends().len();
    let least = least_connected(alloc, edges, links.as_slice())?;
    let numbers = numbers_of(alloc, least.as_slice())?;
    Ok(numbers)
}
