// Lists of the blocks of a board, put together at each vertex.
ghost use Rattle.std.specs.Prelude.{◌≡◌, ◌++◌, ◌∷◌, ◌<◌, ◌≤◌, [], length, map, replicate, slice_index, IfOk, OnOk};
ghost use Rattle.std.specs.List.{All, AllByRecursion, Contains};
ghost use Rattle.cp_base.specs.Bits.{IsMet};
ghost use Rattle.cp_board.specs.Instances.{vert_names};
ghost use Rattle.cp_board.specs.Solutions.{IsSolution};
ghost use Rattle.cp_flip.specs.BlockTrees.{AreAllBlocks};
ghost use Rattle.cp_flip.specs.CellEquations.{AreBitsOf, AreCells};
ghost use Rattle.cp_flip.specs.FreeFaults.{IsFree};
ghost use Rattle.cp_flip.specs.GluedLists.{AreAppended, AreBlockLists, AreDirectedLists, AreListsWithin, MeetsTree, final_list, final_lists};

use crate::block_rows::empty_rows;
use crate::block_trees::BlockTree;
use crate::directions::DirectedBlock;
use cp_base::{CycList, Items, Memory};
use cp_embed::{rank_among, unwind};
use cp_force::OrderTree;
use cp_sync::{Board, Solution};
use std::alloc::Global;

// Lists of a rotation system of the block in the plane, in the directions that the bits tell.
fn directed_lists<T: OrderTree>(
    alloc: Global,
    found: &DirectedBlock<T>,
    bits: &[bool],
) -> Result<Vec<CycList>, Memory>
    requires one_each { length bits.now ≡ found.now.tree.vars }
    requires met { AllByRecursion (IsMet bits.now) found.now.tree.equations }
    ensures { IfOk result (λ lists. AreDirectedLists found.now.embedding.block bits.now lists.items) }
{
    let order = found.tree().order_by(alloc, bits)?;
    let embedded = found.embedded();
    let own = &bits[..embedded.tree().vars()];
    let lists = unwind(alloc, embedded, own, &order)?;
    Ok(lists)
}

// The lists of the vertices of a block of one edge.
fn single_lists(alloc: Global, count: usize) -> Result<Vec<CycList>, Memory>
    ensures { IfOk result (λ lists. lists.items ≡ replicate count (0 ∷ [])) }
{
    let mut lists = Vec::with_capacity(alloc, count)?;
    for _ in 0..count {
        lists.push(CycList::from_slice(alloc, &[0])?)?;
    }
    Ok(lists)
}

// The lists of the vertices of a block, in the directions that the bits tell.
fn block_lists<T: OrderTree>(
    alloc: Global,
    block: &BlockTree<T>,
    bits: &[bool],
) -> Result<Vec<CycList>, Memory>
    requires { MeetsTree bits.now block.now.directed }
    ensures { IfOk result (λ lists. AreBlockLists (length block.now.verts) block.now.directed bits.now lists.items) }
{
    match &block.directed {
        None => single_lists(alloc, block.verts.len()),
        Some(found) => directed_lists(alloc, found, bits),
    }
}

// Appends the names of the edges at these places. Linear in the list.
fn push_named(row: &mut Items<usize>, edges: &[usize], list: &[usize]) -> Result<(), Memory>
    requires { All (λ e. e < length edges.now) list.now }
    ensures { OnOk result (row.new ≡ row.old ++ map (slice_index edges.now) list.now) }
{
    for e in list {
        row.push(edges[*e])?;
    }
    Ok(())
}

// The rows, each with the list of its vertex in a block appended. Linear in the lists, up to a logarithm.
fn appended(
    rows: Vec<Items<usize>>,
    all: &[usize],
    verts: &[usize],
    edges: &[usize],
    lists: &[CycList],
) -> Result<Vec<Items<usize>>, Memory>
    requires row_each { length rows.items ≡ length all.now }
    requires lists { AreListsWithin all.now verts.now edges.now lists.now }
    ensures { IfOk result (λ new. AreAppended all.now verts.now edges.now lists.now (length verts.now) rows.items new.items) }
{
    let mut new = rows;
    for k in 0..lists.len() {
        let place = rank_among(all, verts[k]);
        push_named(&mut new[place], edges, lists[k].items())?;
    }
    Ok(new)
}

// The list of a vertex: that of a Q-vertex in the direction that the bit of its cell tells, else its row. Linear.
fn final_list<B: Board>(
    alloc: Global,
    board: &B,
    cells: &[usize],
    bits: &[bool],
    v: usize,
    row: &[usize],
) -> Result<CycList, Memory>
    requires cells { AreCells (B.instance board.now) cells.now }
    requires bits { length cells.now ≤ length bits.now }
    requires live { Contains (vert_names (B.instance board.now)) v }
    ensures { IfOk result (λ list. list ≡ final_list (B.instance board.now) cells.now bits.now v row.now) }
{
    if !board.is_q(v) {
        return CycList::from_slice(alloc, row);
    }
    if bits[rank_among(cells, board.cell(v))] {
        board.psi(v).reversed(alloc)
    } else {
        CycList::from_slice(alloc, board.psi(v).items())
    }
}

// The lists of all vertices. Linear in them, up to a logarithm.
fn solution_of<B: Board>(
    alloc: Global,
    board: &B,
    cells: &[usize],
    bits: &[bool],
    verts: &[usize],
    rows: &[Items<usize>],
) -> Result<Solution, Memory>
    requires cells { AreCells (B.instance board.now) cells.now }
    requires bits { length cells.now ≤ length bits.now }
    requires verts { verts.now ≡ vert_names (B.instance board.now) }
    requires row_each { length rows.now ≡ length verts.now }
    ensures { IfOk result (λ s. s ≡ final_lists (B.instance board.now) cells.now bits.now rows.now) }
{
    let mut solution = Solution::new(alloc);
    for k in 0..verts.len() {
        let list = final_list(alloc, board, cells, bits, verts[k], rows[k].items())?;
        solution.push(verts[k], list)?;
    }
    Ok(solution)
}

// The solution that the bits tell: at each vertex stand its lists in the blocks one behind the other, and a Q-vertex
// has its list in the direction of its cell. Linear in the blocks, up to a logarithm.
pub(crate) fn put_together<B: Board, T: OrderTree>(
    alloc: Global,
    board: &B,
    cells: &[usize],
    verts: &[usize],
    blocks: &[BlockTree<T>],
    bits: &[bool],
) -> Result<Solution, Memory>
    requires cells { AreCells (B.instance board.now) cells.now }
    requires verts { verts.now ≡ vert_names (B.instance board.now) }
    requires blocks { AreAllBlocks (B.instance board.now) blocks.now }
    requires bits { AreBitsOf (B.instance board.now) cells.now blocks.now bits.now }
    requires free { IsFree (B.instance board.now) }
    ensures { IfOk result (IsSolution (B.instance board.now)) }
{
    let mut rows = empty_rows(alloc, verts.len())?;
    let mut first = cells.len();
    for block in blocks {
        let end = first + block.vars();
        let lists = block_lists(alloc, block, &bits[first..end])?;
        rows = appended(
            rows,
            verts,
            block.verts.items(),
            block.edges.items(),
            lists.as_slice(),
        )?;
        first = end;
    }
    let solution = solution_of(alloc, board, cells, bits, verts, rows.as_slice())?;
    Ok(solution)
}
