// The order tree of a block in which each vertex with a list keeps it in the direction of its bit.
ghost use Rattle.std.specs.Prelude.{◌≡◌, ◌≢◌, ◌<◌, ◌∷◌, [], ℕ, Bool, List, length, slice_index, IfOk, IfErr};
ghost use Rattle.cp_lists.specs.CyclicLists.{Has, Distinct};
ghost use Rattle.cp_lists.specs.Turns.{IsTurn};
ghost use Rattle.cp_pq.specs.Bits.{bit_of};
ghost use Rattle.cp_pq.specs.Nodes.{leaves};
ghost use Rattle.cp_pq.specs.Orders.{HasRow};
ghost use Rattle.cp_pq.specs.Promises.{IsForced, in_direction};
ghost use Rattle.cp_pq.specs.Trees.{IsPair};
ghost use Rattle.cp_embed.specs.Embeddings.{HasSomePair, HasTwoEdges};
ghost use Rattle.cp_embed.specs.declared.fault.EmbedFault.TheVariants.{NotPlanar};
ghost use Rattle.cp_flip.specs.DirectedBlocks.{CanBeDirected, IsDirectedTree};

use cp_base::Memory;
use cp_embed::{EmbedFault, Embedded, QBlock, embed};
use cp_force::{ForceFault, OrderTree};
use cp_parity::{ParityFault, solve};
use std::alloc::Global;
use std::marker::Model;

// The place of an item of the list. Linear.
fn place_of(list: &[usize], wanted: usize) -> usize
    requires { Has wanted list.now }
    ensures within { result < length list.now }
    ensures found { slice_index list.now result ≡ wanted }
{
    for (place, item) in list.iter().enumerate() {
        if *item == wanted {
            return place;
        }
    }
    unreachable!()
}

// What stands behind an item in a cyclic list. Linear.
fn rest_behind(alloc: Global, list: &[usize], item: usize) -> Result<Vec<usize>, Memory>
    requires { Has item list.now }
    ensures { IfOk result (λ rest. IsTurn list.now (item ∷ rest.items)) }
{
    let place = place_of(list, item);
    let mut rest = Vec::from_slice(alloc, &list[place + 1..])?;
    rest.extend_from_slice(&list[..place])?;
    Ok(rest)
}

// That some bits meet the equations of a tree.
fn has_pair<T: OrderTree>(alloc: Global, tree: &T) -> Result<(), EmbedFault>
    ensures some { IfOk result (λ u. HasSomePair (T.tree tree.now)) }
    ensures none { IfErr result (λ fault. fault ≡ NotPlanar → HasSomePair (T.tree tree.now) → ⊥) }
{
    match solve(alloc, tree.vars(), tree.equations()) {
        Ok(_) => Ok(()),
        Err(ParityFault::Conflict { .. }) => Err(EmbedFault::NotPlanar),
        Err(ParityFault::Memory) => Err(EmbedFault::Memory),
    }
}

// The tree of the pairs that have the row in the direction of the bit of the var. `NotPlanar` comes exactly where there
// is none.
fn forced<T: OrderTree + Drop>(
    alloc: Global,
    tree: T,
    row: &[usize],
    var: usize,
) -> Result<T, EmbedFault>
    requires not_empty { row.now ≢ [] }
    requires distinct { Distinct row.now }
    requires leaves_of { (x : ℕ) → Has x row.now → Has x (leaves (T.tree tree).body) }
    requires var_within { var < (T.tree tree).vars }
    ensures forced { IfOk result (λ new. IsForced row.now var (T.tree tree) (T.tree new)) }
    ensures some { IfOk result (λ new. HasSomePair (T.tree new)) }
    ensures refused { IfErr result (λ fault. fault ≡ NotPlanar → (order : List ℕ) (bits : List Bool)
        → IsPair (T.tree tree) order bits → HasRow (in_direction (bit_of bits var) row.now) order → ⊥) }
{
    match tree.force(alloc, row, var) {
        Ok(new) => {
            has_pair(alloc, &new)?;
            Ok(new)
        }
        Err(ForceFault::NotOrderable) => Err(EmbedFault::NotPlanar),
        Err(ForceFault::Memory) => Err(EmbedFault::Memory),
    }
}

/// The embeddings of a block by the orders of one of its vertices, and the tree in which this vertex, too, keeps its
/// list. Contracts see the embedding and this tree.
#[derive(Drop)]
pub struct DirectedBlock<T: OrderTree> {
    embedded: Embedded<T>,
    tree: T,
}

impl<T: OrderTree> Model for DirectedBlock<T> {
    ghost use Rattle.std.specs.Coded.{codes};
    ghost use Rattle.cp_pq.specs.contracts.node.Node as node;
    ghost use Rattle.cp_flip.specs.DirectedBlocks.{Directions, IsDirectedTree};

    ghost Value = { Directions };

    ghost coded = { Prim.hlevel (codes, node.the_row.coded) };

    ghost view = { λ d. record { embedding = d.embedded; tree = T.tree d.tree } };

    ghost invariant = { λ d. IsDirectedTree d.embedded.block d.embedded.vertex d.embedded.tree (T.tree d.tree) };
}

impl<T: OrderTree> DirectedBlock<T> {
    // The tree in which the vertex, too, keeps its list.
    pub(crate) fn tree(&self) -> &T
        ensures value { T.tree result.now ≡ self.now.tree }
        ensures exact { IsDirectedTree self.now.embedding.block self.now.embedding.vertex self.now.embedding.tree self.now.tree }
    {
        &self.tree
    }

    // The embeddings by the orders of the vertex.
    pub(crate) fn embedded(&self) -> &Embedded<T>
        ensures { result.now ≡ self.now.embedding }
    {
        &self.embedded
    }
}

/// The order tree of a vertex with at least two edges, in which this vertex keeps its list too: the bits of the vertices
/// in its pairs are exactly the directions in which a rotation system of the block in the plane keeps the given lists.
/// `NotPlanar` comes exactly where there is none. For each vertex a constant number of passes over the tree.
pub fn directed<T: OrderTree + Drop>(
    alloc: Global,
    block: &QBlock,
    t: usize,
) -> Result<DirectedBlock<T>, EmbedFault>
    requires within { t < block.now.graph.vertices }
    requires two_edges { HasTwoEdges block.now.graph.ends t }
    ensures block { IfOk result (λ d. d.embedding.block ≡ block.now) }
    ensures vertex { IfOk result (λ d. d.embedding.vertex ≡ t) }
    ensures tree { IfOk result (λ d. IsDirectedTree block.now t d.embedding.tree d.tree) }
    ensures refused { IfErr result (λ fault. fault ≡ NotPlanar → (bit : ℕ → Bool) → CanBeDirected block.now bit → ⊥) }
{
    let root = block.edges_at(t)[0];
    let embedded: Embedded<T> = embed(alloc, block, t)?;
    let tree = embedded.tree().copy_tree(alloc)?;
    match block.list_of(t) {
        None => Ok(DirectedBlock { embedded, tree }),
        Some(list) => {
            let row = rest_behind(alloc, list.items(), root)?;
            let tree = forced(alloc, tree, row.as_slice(), t)?;
            Ok(DirectedBlock { embedded, tree })
        }
    }
}
