// The step of an order tree in which a vertex is taken.
ghost use Rattle.std.specs.Prelude.{◌≡◌, ◌≢◌, ℕ, ◌+◌, ◌<◌, ◌↔◌, true, false, List, [], ◌∷◌, length, slice_index, reverse, IfOk, IfErr};
ghost use Rattle.cp_lists.specs.CyclicLists.{Has, Distinct};
ghost use Rattle.cp_pq.specs.Nodes.{leaves};
ghost use Rattle.cp_pq.specs.Promises.{IsLeafSet, IsReduced, IsForced, IsNeverConsecutive, IsNeverInRow};
ghost use Rattle.cp_pq.specs.Trees.{IsWellFormed};
ghost use Rattle.cp_embed.specs.ListedBlocks.{list_given};
ghost use Rattle.cp_embed.specs.TreeSteps.{IsFreeStep, IsListedStep, IsTreeStep, IsRefusedStep, IsStageTree, IsFreshSet};
ghost use Rattle.cp_embed.specs.VertexOrders.{IsTakingOrder, enters, edges_in, edges_out, taken_at, last_of, dart_at};
ghost use Rattle.cp_embed.specs.declared.fault.EmbedFault.TheVariants.{NotPlanar};

use crate::block::QBlock;
use crate::edge_lists::{cut_list, entering, leaving};
use crate::fault::EmbedFault;
use crate::nodes::{any_order_node, row_node};
use crate::vertex_order::TakingOrder;
use cp_force::{ForceFault, OrderTree};
use cp_pq::{Part, ReduceFault};
use std::alloc::Global;

// The tree whose shape has the set consecutive.
fn reduced<T: OrderTree + Drop>(alloc: Global, old: T, set: &[usize]) -> Result<T, EmbedFault>
    requires { IsLeafSet set.now (T.tree old) }
    ensures reduced { IfOk result (λ new. IsReduced set.now (T.tree old) (T.tree new)) }
    ensures formed { IfOk result (λ new. IsWellFormed (T.tree new)) }
    ensures refused { IfErr result (λ fault. fault ≡ NotPlanar → IsNeverConsecutive set.now (T.tree old)) }
{
    match old.reduce(alloc, set) {
        Ok(new) => Ok(new),
        Err(ReduceFault::NotConsecutive) => Err(EmbedFault::NotPlanar),
        Err(ReduceFault::Memory) => Err(EmbedFault::Memory),
    }
}

// The tree that is forced to the row by the bit of the var.
pub(crate) fn forced<T: OrderTree + Drop>(
    alloc: Global,
    old: T,
    row: &[usize],
    var: usize,
) -> Result<T, EmbedFault>
    requires not_empty { row.now ≢ [] }
    requires distinct { Distinct row.now }
    requires leaves_of { (x : ℕ) → Has x row.now → Has x (leaves (T.tree old).body) }
    requires var_within { var < (T.tree old).vars }
    ensures forced { IfOk result (λ new. IsForced row.now var (T.tree old) (T.tree new)) }
    ensures formed { IfOk result (λ new. IsWellFormed (T.tree new)) }
    ensures refused { IfErr result (λ fault. fault ≡ NotPlanar → IsNeverInRow row.now (T.tree old)) }
{
    match old.force(alloc, row, var) {
        Ok(new) => Ok(new),
        Err(ForceFault::NotOrderable) => Err(EmbedFault::NotPlanar),
        Err(ForceFault::Memory) => Err(EmbedFault::Memory),
    }
}

// Takes a vertex without a given list. One pass over the tree for each of the two calls.
fn take_free<T: OrderTree + Drop>(
    alloc: Global,
    old: T,
    vertex: usize,
    ins: &[usize],
    outs: &[usize],
) -> Result<(T, Part), EmbedFault>
    requires leaf_set { IsLeafSet ins.now (T.tree old) }
    requires fresh { IsFreshSet outs.now (T.tree old) }
    ensures step { IfOk result (λ r. IsFreeStep vertex ins.now outs.now (T.tree old) (T.tree r.0) r.1) }
    ensures formed { IfOk result (λ r. IsWellFormed (T.tree r.0)) }
    ensures refused { IfErr result (λ fault. fault ≡ NotPlanar → IsNeverConsecutive ins.now (T.tree old)) }
{
    let mid = reduced(alloc, old, ins)?;
    let node = any_order_node(alloc, vertex, outs)?;
    let (new, part) = mid.replace(alloc, ins, node)?;
    Ok((new, part))
}

// Takes a vertex with a given list, which is cut into its edges to vertices before and its others.
fn take_listed<T: OrderTree + Drop>(
    alloc: Global,
    old: T,
    vertex: usize,
    list: &[usize],
    later: &[usize],
    ins: &[usize],
    outs: &[usize],
) -> Result<(T, Part), EmbedFault>
    requires leaf_set { IsLeafSet ins.now (T.tree old) }
    requires fresh { IsFreshSet outs.now (T.tree old) }
    requires formed { IsWellFormed (T.tree old) }
    requires var_within { vertex < (T.tree old).vars }
    requires once { Distinct list.now }
    requires within { (i : ℕ) → i < length list.now → slice_index list.now i < length later.now }
    requires ins_are { (k : ℕ) → Has k ins.now ↔ (Has k list.now × (enters later.now vertex k ≡ true)) }
    requires outs_are { (k : ℕ) → Has k outs.now ↔ (Has k list.now × (enters later.now vertex k ≡ false)) }
    ensures step { IfOk result (λ r. IsListedStep vertex list.now ins.now outs.now (T.tree old) (T.tree r.0) r.1) }
    ensures formed { IfOk result (λ r. IsWellFormed (T.tree r.0)) }
    ensures refused { IfErr result (λ fault. fault ≡ NotPlanar → IsRefusedStep (Some list.now) ins.now outs.now (T.tree old)) }
{
    let cut = match cut_list(alloc, list, later, vertex)? {
        Some(cut) => cut,
        None => return Err(EmbedFault::NotPlanar),
    };
    let mid = forced(alloc, old, cut.first.as_slice(), vertex)?;
    let mut back = cut.second;
    back.reverse();
    let node = row_node(alloc, vertex, back.as_slice())?;
    let (new, part) = mid.replace(alloc, ins, node)?;
    Ok((new, part))
}

// What is kept of a vertex that is taken, so that its list can be found again: its edges to vertices behind it, and the
// part that was taken out of the tree.
#[derive(Drop)]
pub(crate) struct Frame {
    pub(crate) vertex: usize,
    pub(crate) outs: Vec<usize>,
    pub(crate) part: Part,
}

// Takes the vertex at a place of the order.
pub(crate) fn take<T: OrderTree + Drop>(
    alloc: Global,
    block: &QBlock,
    order: &TakingOrder,
    place: usize,
    old: T,
) -> Result<(T, Frame), EmbedFault>
    requires order { IsTakingOrder block.now.graph order.now.vertices.items order.now.later.items order.now.root }
    requires some_before { 0 < place }
    requires some_behind { place + 1 < length order.now.vertices.items }
    requires stage { IsStageTree block.now (dart_at block.now.graph.ends (last_of order.now.vertices.items) order.now.root) (taken_at order.now.vertices.items place) (T.tree old) }
    ensures vertex { IfOk result (λ r. r.1.vertex ≡ slice_index order.now.vertices.items place) }
    ensures outs { IfOk result (λ r. r.1.outs.items ≡ edges_out block.now.graph.ends order.now.later.items (slice_index order.now.vertices.items place)) }
    ensures step { IfOk result (λ r. IsTreeStep (list_given block.now.lists (slice_index order.now.vertices.items place)) (slice_index order.now.vertices.items place) (edges_in block.now.graph.ends order.now.later.items (slice_index order.now.vertices.items place)) (edges_out block.now.graph.ends order.now.later.items (slice_index order.now.vertices.items place)) (T.tree old) (T.tree r.0) r.1.part) }
    ensures formed { IfOk result (λ r. IsWellFormed (T.tree r.0)) }
    ensures refused { IfErr result (λ fault. fault ≡ NotPlanar → IsRefusedStep (list_given block.now.lists (slice_index order.now.vertices.items place)) (edges_in block.now.graph.ends order.now.later.items (slice_index order.now.vertices.items place)) (edges_out block.now.graph.ends order.now.later.items (slice_index order.now.vertices.items place)) (T.tree old)) }
{
    let vertex = order.vertices[place];
    let edges = block.edges_at(vertex);
    let ins = entering(alloc, edges, order.later.as_slice(), vertex)?;
    let outs = leaving(alloc, edges, order.later.as_slice(), vertex)?;
    let (new, part) = match block.list_of(vertex) {
        None => take_free(alloc, old, vertex, ins.as_slice(), outs.as_slice())?,
        Some(list) => take_listed(
            alloc,
            old,
            vertex,
            list.items(),
            order.later.as_slice(),
            ins.as_slice(),
            outs.as_slice(),
        )?,
    };
    Ok((new, Frame { vertex, outs, part }))
}
