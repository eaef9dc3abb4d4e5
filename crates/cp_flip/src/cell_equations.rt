// One system of equations for the directions of all cells and all blocks of a board.
ghost use Rattle.std.specs.Prelude.{◌≡◌, ◌++◌, ◌+◌, ◌<◌, ◌^◌, length, map, IfOk, IfErr};
ghost use Rattle.std.specs.List.{All, Contains};
ghost use Rattle.cp_base.specs.Bits.{IsOverVars};
ghost use Rattle.cp_parity.specs.Equations.{HasOddCycle};
ghost use Rattle.cp_board.specs.Instances.{IsSynchronized, vert_names};
ghost use Rattle.cp_flip.specs.BlockTrees.{AreAllBlocks, IsEmbeddedBlock};
ghost use Rattle.cp_flip.specs.CellEquations.{AreBitsOf, AreCells, HasNoSolution, HasOwnVars, block_equations, cells_among, equations_from, shifted, ties, vars_behind, vars_of};

use crate::block_trees::BlockTree;
use cp_base::{Equation, Memory};
use cp_embed::rank_among;
use cp_force::OrderTree;
use cp_parity::{ParityFault, solve};
use cp_sync::Board;
use std::alloc::Global;

// A number of vars and equations over their bits.
#[derive(Drop)]
struct CellEquations {
    vars: usize,
    equations: Vec<Equation>,
}

// The cell of each Q-vertex among these. Linear.
fn cell_of_each<B: Board>(alloc: Global, board: &B, verts: &[usize]) -> Result<Vec<usize>, Memory>
    requires live { All (Contains (vert_names (B.instance board.now))) verts.now }
    ensures { IfOk result (λ cells. cells.items ≡ cells_among (B.instance board.now) verts.now) }
{
    let mut cells = Vec::new(alloc);
    for v in verts {
        if board.is_q(*v) {
            cells.push(board.cell(*v))?;
        }
    }
    Ok(cells)
}

// The cells of the Q-vertices, rising. Linear, up to a logarithm.
pub(crate) fn cells_of<B: Board>(
    alloc: Global,
    board: &B,
    verts: &[usize],
) -> Result<Vec<usize>, Memory>
    requires rules { IsSynchronized (B.instance board.now) }
    requires verts { verts.now ≡ vert_names (B.instance board.now) }
    ensures { IfOk result (λ cells. AreCells (B.instance board.now) cells.items) }
{
    let mut cells = cell_of_each(alloc, board, verts)?;
    cells.sort_unstable();
    cells.dedup();
    Ok(cells)
}

// The equations, and behind them those of a tree with their vars counted from first on. Linear in the latter.
fn with_shifted(
    equations: Vec<Equation>,
    first: usize,
    vars: usize,
    of_tree: &[Equation],
) -> Result<Vec<Equation>, Memory>
    requires over { All (IsOverVars vars) of_tree.now }
    requires room { first + vars < 2 ^ 64 }
    ensures { IfOk result (λ all. all.items ≡ equations.items ++ map (shifted first) of_tree.now) }
{
    let mut all = equations;
    for e in of_tree {
        all.push(Equation {
            x: first + e.x,
            y: first + e.y,
            odd: e.odd,
        })?;
    }
    Ok(all)
}

// The equations, and behind them that the bits of the Q-vertices, whose vars stand in a row from first on, are those of
// their cells. Linear in the vertices, up to a logarithm.
fn with_ties<B: Board>(
    equations: Vec<Equation>,
    board: &B,
    cells: &[usize],
    first: usize,
    verts: &[usize],
) -> Result<Vec<Equation>, Memory>
    requires cells { AreCells (B.instance board.now) cells.now }
    requires live { All (Contains (vert_names (B.instance board.now))) verts.now }
    requires room { first + length verts.now < 2 ^ 64 }
    ensures { IfOk result (λ all. all.items ≡ equations.items ++ ties (B.instance board.now) cells.now first verts.now) }
{
    let mut all = equations;
    for k in 0..verts.len() {
        if board.is_q(verts[k]) {
            let cell = rank_among(cells, board.cell(verts[k]));
            all.push(Equation {
                x: first + k,
                y: cell,
                odd: false,
            })?;
        }
    }
    Ok(all)
}

// The system with the vars and the equations of a block. More vars than numbers have no room in memory. Linear in the
// block, up to a logarithm.
fn with_block<B: Board, T: OrderTree>(
    system: CellEquations,
    board: &B,
    cells: &[usize],
    block: &BlockTree<T>,
) -> Result<CellEquations, Memory>
    requires cells { AreCells (B.instance board.now) cells.now }
    requires block { IsEmbeddedBlock (B.instance board.now) block.now.verts block.now.edges block.now.directed }
    ensures vars { IfOk result (λ all. all.vars ≡ system.vars + vars_of block.now.directed) }
    ensures equations { IfOk result (λ all. all.equations.items ≡ system.equations.items
        ++ block_equations (B.instance board.now) cells.now system.vars block.now.verts block.now.directed) }
    ensures own { IfOk result (λ all. HasOwnVars block.now.directed) }
{
    let CellEquations { vars, equations } = system;
    let Some(found) = &block.directed else {
        return Ok(CellEquations { vars, equations });
    };
    let tree = found.tree();
    let Some(end) = vars.checked_add(tree.vars()) else {
        return Err(Memory);
    };
    let equations = with_shifted(equations, vars, tree.vars(), tree.equations())?;
    let equations = with_ties(equations, board, cells, vars, block.verts.items())?;
    Ok(CellEquations {
        vars: end,
        equations,
    })
}

// The system of all blocks. Linear in them, up to a logarithm.
fn board_equations<B: Board, T: OrderTree>(
    alloc: Global,
    board: &B,
    cells: &[usize],
    blocks: &[BlockTree<T>],
) -> Result<CellEquations, Memory>
    requires cells { AreCells (B.instance board.now) cells.now }
    requires blocks { All (λ t. IsEmbeddedBlock (B.instance board.now) t.verts t.edges t.directed) blocks.now }
    ensures vars { IfOk result (λ all. all.vars ≡ vars_behind (length cells.now) blocks.now) }
    ensures equations { IfOk result (λ all. all.equations.items
        ≡ equations_from (B.instance board.now) cells.now (length cells.now) blocks.now) }
    ensures own { IfOk result (λ all. All (λ t. HasOwnVars t.directed) blocks.now) }
{
    let mut system = CellEquations {
        vars: cells.len(),
        equations: Vec::new(alloc),
    };
    for block in blocks {
        system = with_block(system, board, cells, block)?;
    }
    Ok(system)
}

// Bits for the cells and the blocks that meet all their equations: first those of the cells, then those of each block.
// A conflict comes exactly where the board has no solution, and has an odd cycle of equations. Linear in the blocks, up
// to a logarithm.
pub(crate) fn solved_bits<B: Board, T: OrderTree>(
    alloc: Global,
    board: &B,
    cells: &[usize],
    blocks: &[BlockTree<T>],
) -> Result<Vec<bool>, ParityFault>
    requires cells { AreCells (B.instance board.now) cells.now }
    requires blocks { AreAllBlocks (B.instance board.now) blocks.now }
    ensures bits { IfOk result (λ bits. AreBitsOf (B.instance board.now) cells.now blocks.now bits.items) }
    ensures odd_cycle { IfErr result (HasOddCycle
        (equations_from (B.instance board.now) cells.now (length cells.now) blocks.now)) }
    ensures unsolvable { IfErr result (HasNoSolution (B.instance board.now)) }
{
    let system = board_equations(alloc, board, cells, blocks)?;
    let bits = solve(alloc, system.vars, system.equations.as_slice())?;
    Ok(bits)
}
