// The blocks of a board, embedded.
ghost use Rattle.std.specs.Prelude.{◌≡◌, ℕ, Bool, length, IfOk, IfErr};
ghost use Rattle.cp_board.specs.Instances.{IsSynchronized};
ghost use Rattle.cp_embed.specs.BoardBlocks.{AreEdgesOfBlock, listed_part};
ghost use Rattle.cp_embed.specs.declared.fault.EmbedFault.TheVariants.{NotPlanar};
ghost use Rattle.cp_flip.specs.BlockTrees.{AreBlocksNumbered, AreEmbeddedBlocks, IsEmbeddedBlock, IsFirstUnembeddable, IsWithoutRotation};
ghost use Rattle.cp_flip.specs.CellEquations.{HasOwnVars, vars_of};
ghost use Rattle.cp_flip.specs.DirectedBlocks.{CanBeDirected};

use crate::block_rows::edges_by_number;
use crate::directions::{DirectedBlock, directed};
use crate::fault::BlockFault;
use cp_base::Items;
use cp_embed::{EdgeBlock, EmbedFault, cut_out};
use cp_force::OrderTree;
use cp_sync::{Board, Names};
use std::alloc::Global;

/// A block of a board with its embeddings.
#[derive(Drop)]
pub struct BlockTree<T: OrderTree> {
    /// The names of the vertices, rising.
    pub verts: Names,
    /// The names of the edges, rising.
    pub edges: Names,
    /// The embeddings. None are stored for a block of one edge, which has one in any directions.
    pub directed: Option<DirectedBlock<T>>,
}

impl<T: OrderTree> BlockTree<T> {
    // The number of vars of its tree, or 0 where it has none. It takes no memory.
    pub(crate) fn vars(&self) -> usize
        ensures value { result ≡ vars_of self.now.directed }
        ensures own { HasOwnVars self.now.directed }
    {
        match &self.directed {
            None => 0,
            Some(found) => found.tree().vars(),
        }
    }
}

/// The block that has exactly these edges, which rise, with its embeddings. `NotPlanar` comes exactly where it has no
/// rotation that keeps the lists of its Q-vertices in whatever directions. For each vertex a constant number of passes
/// over the tree.
pub fn embed_block<B: Board, T: OrderTree + Drop>(
    alloc: Global,
    board: &B,
    edges: &[usize],
) -> Result<BlockTree<T>, EmbedFault>
    requires rules { IsSynchronized (B.instance board.now) }
    requires block { AreEdgesOfBlock (B.instance board.now) edges.now }
    ensures edges { IfOk result (λ t. t.edges ≡ edges.now) }
    ensures block { IfOk result (λ t. IsEmbeddedBlock (B.instance board.now) t.verts edges.now t.directed) }
    ensures refused { IfErr result (λ fault. fault ≡ NotPlanar → (bit : ℕ → Bool)
        → CanBeDirected (listed_part (B.instance board.now) edges.now) bit → ⊥) }
{
    let cut = cut_out(alloc, board, edges)?;
    let EdgeBlock {
        block,
        verts,
        edges: kept,
    } = cut;
    if edges.len() == 1 {
        return Ok(BlockTree {
            verts,
            edges: kept,
            directed: None,
        });
    }
    let found: DirectedBlock<T> = directed(alloc, &block, 0)?;
    Ok(BlockTree {
        verts,
        edges: kept,
        directed: Some(found),
    })
}

// The block that has exactly these edges, which rise, with its embeddings. The fault has its least edge.
fn embed_block_of<B: Board, T: OrderTree + Drop>(
    alloc: Global,
    board: &B,
    edges: &[usize],
) -> Result<BlockTree<T>, BlockFault>
    requires rules { IsSynchronized (B.instance board.now) }
    requires block { AreEdgesOfBlock (B.instance board.now) edges.now }
    ensures edges { IfOk result (λ t. t.edges ≡ edges.now) }
    ensures block { IfOk result (λ t. IsEmbeddedBlock (B.instance board.now) t.verts edges.now t.directed) }
    ensures refused { IfErr result (IsWithoutRotation (B.instance board.now) edges.now) }
{
    match embed_block(alloc, board, edges) {
        Ok(tree) => Ok(tree),
        Err(EmbedFault::NotPlanar) => Err(BlockFault::NotPlanar { edge: edges[0] }),
        Err(EmbedFault::Memory) => Err(BlockFault::Memory),
    }
}

/// All blocks of a board with their embeddings, by their least edges, from the names of its edges and the numbers of
/// their blocks. Each block is cut out once. `NotPlanar` comes exactly where some block has no rotation that keeps the
/// lists of its Q-vertices in whatever directions.
pub fn embed_blocks<B: Board, T: OrderTree + Drop>(
    alloc: Global,
    board: &B,
    edges: &[usize],
    numbers: &[usize],
) -> Result<Items<BlockTree<T>>, BlockFault>
    requires { AreBlocksNumbered (B.instance board.now) edges.now numbers.now }
    ensures blocks { IfOk result (λ found. AreEmbeddedBlocks (B.instance board.now) numbers.now found) }
    ensures refused { IfErr result (IsFirstUnembeddable (B.instance board.now)) }
{
    let rows = edges_by_number(alloc, edges, numbers)?;
    let mut found = Items::new(alloc);
    for k in 0..edges.len() {
        let row = rows[numbers[k]].items();
        if row[0] == edges[k] {
            found.push(embed_block_of(alloc, board, row)?)?;
        }
    }
    Ok(found)
}
