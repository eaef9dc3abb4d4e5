// The order tree of a vertex of a block.
ghost use Rattle.std.specs.Prelude.{◌≡◌, ◌<◌, ◌≤◌, ℕ, None, length, IfOk, IfErr, MatchOption};
ghost use Rattle.cp_conn.specs.Bonds.{IsBond};
ghost use Rattle.cp_force.specs.Owners.{IsSoleP};
ghost use Rattle.cp_pq.specs.Nodes.{leaves};
ghost use Rattle.cp_pq.specs.Trees.{IsPair, IsWellFormed};
ghost use Rattle.cp_embed.specs.Bonds.{as_named};
ghost use Rattle.cp_embed.specs.Embeddings.{HasTwoEdges, IsEmbeddingTree, IsNeverEmbedded, HasSomePair};
ghost use Rattle.cp_embed.specs.EveryOrder.{HasEveryOrder};
ghost use Rattle.cp_embed.specs.ListedBlocks.{list_given};
ghost use Rattle.cp_embed.specs.declared.fault.EmbedFault.TheVariants.{NotPlanar};

use crate::block::QBlock;
use crate::fault::EmbedFault;
use crate::first_tree::first_tree;
use crate::taking::{Frame, take};
use crate::vertex_order::taking_order;
use cp_base::Items;
use cp_force::OrderTree;
use cp_parity::{ParityFault, solve};
use std::alloc::Global;
use std::marker::Model;

/// An order tree of a vertex of a block, with what is needed to find a rotation system for each of its pairs. Contracts
/// see the block, the vertex and the tree.
#[derive(Drop)]
pub struct Embedded<T: OrderTree> {
    block: QBlock,
    vertex: usize,
    first: usize,
    frames: Items<Frame>,
    tree: T,
}

impl<T: OrderTree> Model for Embedded<T> {
    ghost use Rattle.std.specs.Coded.{codes};
    ghost use Rattle.cp_pq.specs.contracts.node.Node as node;
    ghost use Rattle.cp_embed.specs.BuiltTrees.{IsUnwindable};
    ghost use Rattle.cp_embed.specs.Embeddings.{Embedding, IsEmbeddingTree};

    ghost Value = { Embedding };

    ghost coded = { Prim.hlevel (codes, node.the_row.coded) };

    ghost view = { λ m. record { block = m.block; vertex = m.vertex; tree = T.tree m.tree } };

    ghost invariant = { λ m. IsEmbeddingTree m.block m.vertex (T.tree m.tree) × IsUnwindable m.block m.vertex m.first m.frames (T.tree m.tree) };
}

/// That some bits meet the equations of a tree; `NotPlanar` where none do. Linear in the bits and the equations.
pub fn has_pair<T: OrderTree>(alloc: Global, tree: &T) -> Result<(), EmbedFault>
    ensures some { IfOk result (λ u. HasSomePair (T.tree tree.now)) }
    ensures none { IfErr result (λ fault. fault ≡ NotPlanar → HasSomePair (T.tree tree.now) → ⊥) }
{
    match solve(alloc, tree.vars(), tree.equations()) {
        Ok(_) => Ok(()),
        Err(ParityFault::Conflict { .. }) => Err(EmbedFault::NotPlanar),
        Err(ParityFault::Memory) => Err(EmbedFault::Memory),
    }
}

/// The order tree of a vertex with at least two edges. Its root is the vertex's least edge, its var `v` is the direction
/// of vertex `v`, and its pairs, without their further bits, are the cyclic orders of the vertex in the rotation systems
/// of the block in the plane that keep the given list of each other vertex in the direction of its bit. `NotPlanar`
/// comes exactly where there is none. For each vertex a constant number of passes over the tree.
pub fn embed<T: OrderTree + Drop>(
    alloc: Global,
    block: &QBlock,
    t: usize,
) -> Result<Embedded<T>, EmbedFault>
    requires within { t < block.now.graph.vertices }
    requires two_edges { HasTwoEdges block.now.graph.ends t }
    ensures block { IfOk result (λ m. m.block ≡ block.now) }
    ensures vertex { IfOk result (λ m. m.vertex ≡ t) }
    ensures tree { IfOk result (λ m. IsEmbeddingTree block.now t m.tree) }
    ensures refused { IfErr result (λ fault. fault ≡ NotPlanar → IsNeverEmbedded block.now t) }
{
    let order = taking_order(alloc, block, t)?;
    let mut tree: T = first_tree(alloc, block, &order)?;
    let mut frames = Items::new(alloc);
    for place in 1..order.vertices.len() - 1 {
        let (next, frame) = take(alloc, block, &order, place, tree)?;
        tree = next;
        frames.push(frame)?;
    }
    has_pair(alloc, &tree)?;
    let first = order.vertices[0];
    let block = block.copy(alloc)?;
    Ok(Embedded {
        block,
        vertex: t,
        first,
        frames,
        tree,
    })
}

impl<T: OrderTree> Embedded<T> {
    ghost use Rattle.cp_embed.specs.BuiltTrees.{IsUnwindable};

    // The vertex that was taken first, and the frames of the others but the last, in their order.
    pub(crate) fn taken(&self) -> (usize, &[Frame])
        ensures { IsUnwindable self.now.block self.now.vertex result.0 result.1.now self.now.tree }
    {
        (self.first, self.frames.items())
    }

    // The block and the vertex.
    pub(crate) fn block(&self) -> (&QBlock, usize)
        ensures block { result.0.now ≡ self.now.block }
        ensures vertex { result.1 ≡ self.now.vertex }
        ensures exact { IsEmbeddingTree self.now.block self.now.vertex self.now.tree }
    {
        (&self.block, self.vertex)
    }

    /// The tree. It takes no memory.
    pub fn tree(&self) -> &T
        ensures value { T.tree result.now ≡ self.now.tree }
        ensures exact { IsEmbeddingTree self.now.block self.now.vertex self.now.tree }
    {
        &self.tree
    }

    /// The other pole of a bond of the block (Bläsius, Rutter 2016): the owner of the tree's body, exactly where the body
    /// is one P-node whose kids are all leaves. Where the vertex has four edges at least, that is exactly where each
    /// cyclic order of its edges is one of the tree. The pole has no given list. It takes no memory.
    pub fn pole(&self) -> Option<usize>
        ensures owner { MatchOption result ((owner : ℕ) → IsSoleP self.now.tree owner → ⊥) (IsSoleP self.now.tree) }
        ensures every_order { MatchOption result (3 ≤ length (leaves self.now.tree.body)
            → HasEveryOrder self.now.tree → ⊥) (λ owner. HasEveryOrder self.now.tree) }
        ensures bond { MatchOption result (Unit {0}) (IsBond (as_named self.now.block.graph) self.now.vertex) }
        ensures unlisted { MatchOption result (Unit {0}) (λ owner. list_given self.now.block.lists owner ≡ None) }
    {
        self.tree.sole_owner()
    }
}
