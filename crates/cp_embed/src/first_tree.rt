// The order tree of the first stage: one vertex is taken.
ghost use Rattle.std.specs.Prelude.{◌≡◌, ◌<◌, [], ◌∷◌, length, slice_index, IfOk, IfErr};
ghost use Rattle.cp_embed.specs.Embeddings.{HasTwoEdges, IsNeverEmbedded};
ghost use Rattle.cp_embed.specs.OwnedTrees.{HaveOwner, HasFreeOwners};
ghost use Rattle.cp_embed.specs.TreeSteps.{IsStageTree};
ghost use Rattle.cp_embed.specs.VertexOrders.{IsTakingOrder, taken_at, last_of, dart_at};
ghost use Rattle.cp_embed.specs.declared.fault.EmbedFault.TheVariants.{NotPlanar};

use crate::block::QBlock;
use crate::edge_lists::{all_but, rest_reversed};
use crate::fault::EmbedFault;
use crate::taking::forced;
use crate::vertex_order::TakingOrder;
use cp_force::OrderTree;
use std::alloc::Global;

// The tree whose pairs are the orders that the first vertex may have, seen from the others: all, or by its bit the
// reverse of what stands behind the root in its given list.
pub(crate) fn first_tree<T: OrderTree + Drop>(
    alloc: Global,
    block: &QBlock,
    order: &TakingOrder,
) -> Result<T, EmbedFault>
    requires order { IsTakingOrder block.now.graph order.now.vertices.items order.now.later.items order.now.root }
    requires two_edges { HasTwoEdges block.now.graph.ends (last_of order.now.vertices.items) }
    ensures stage { IfOk result (λ new. IsStageTree block.now (dart_at block.now.graph.ends (last_of order.now.vertices.items) order.now.root) (taken_at order.now.vertices.items 1) (T.tree new)) }
    ensures owner { IfOk result (λ new. HaveOwner (slice_index order.now.vertices.items 0) (T.tree new)) }
    ensures free { IfOk result (λ new. HasFreeOwners block.now (T.tree new)) }
    ensures refused { IfErr result (λ fault. fault ≡ NotPlanar → IsNeverEmbedded block.now (last_of order.now.vertices.items)) }
{
    let first = order.vertices[0];
    let others = all_but(alloc, block.edges_at(first), order.root)?;
    let star = T::star(
        alloc,
        order.root,
        others.as_slice(),
        first,
        block.graph().vertices(),
    )?;
    let list = match block.list_of(first) {
        None => return Ok(star),
        Some(list) => list,
    };
    let back = rest_reversed(alloc, list.items(), order.root)?;
    let new = forced(alloc, star, back.as_slice(), first)?;
    Ok(new)
}
