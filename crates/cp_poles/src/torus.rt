// Toroidal: a pipe goes whose ends are the poles of a bond.
ghost use Rattle.std.specs.Prelude.{◌≡◌, ℕ, IfErr, IfOk, Some};
ghost use Rattle.cp_board.specs.declared.parts.Pipe.{Pipe};
ghost use Rattle.cp_board.specs.declared.steps.Step.TheVariants.{Toroidal};
ghost use Rattle.cp_board.specs.Instances.{Synchronized, IsSynchronized, graph, pipe_named};
ghost use Rattle.cp_board.specs.Reasons.{HaveUnequalCycles};
ghost use Rattle.cp_board.specs.Reductions.{KeepsSolvable, Performs};
ghost use Rattle.cp_board.specs.Effects.{After};
ghost use Rattle.cp_board.specs.Solutions.{IsSolution, IsSolvable};
ghost use Rattle.cp_board.specs.Steps.{Allowed};
ghost use Rattle.cp_conn.specs.Bonds.{IsBond};
ghost use Rattle.cp_poles.specs.Kept.{IsKeptOrder};
ghost use Rattle.cp_poles.specs.TorusFaults.{IsTorusFaultOf};

use crate::cycles::unequal_lengths;
use crate::free_poles::drop_pipe;
use crate::reordered::reordered;
use crate::rows::{edges_at_places, rows_of_cycles};
use crate::torus_fault::TorusFault;
use crate::turned::turning_places;
use cp_base::{CycList, Memory};
use cp_board::Rewrite;
use cp_sync::{Board, Solution};
use std::alloc::Global;

/// What Toroidal makes of an instance is solvable exactly where the instance is. Constant time.
pub fn toroidal_keeps_solvable()
    ensures { (pipe : ℕ) → KeepsSolvable (Toroidal pipe) }
{}

/// Where a pipe joins the poles of a bond, and two cycles of the edges that it turns into each other differ in length,
/// the instance has no solution. Constant time.
pub fn unequal_cycles_unsolvable()
    ensures { (i : Synchronized) (pipe : ℕ) (p : Pipe) (a b : ℕ) → IsSynchronized i → pipe_named i pipe ≡ Some p → IsBond (graph i) p.a p.b → HaveUnequalCycles i p a b → ¬ IsSolvable i }
{}

// Finds out whether two cycles of a pipe between the poles of a bond differ in length. Linear in the board, up to a
// logarithm.
fn compare_cycles<B: Board>(alloc: Global, board: &B, pipe: usize) -> Result<(), TorusFault>
    requires { (p : Pipe) × (pipe_named (B.instance board.now) pipe ≡ Some p) × IsBond (graph (B.instance board.now)) p.a p.b }
    ensures allowed { IfOk result (λ _. Allowed (B.instance board.now) (Toroidal pipe)) }
    ensures fault { IfErr result (IsTorusFaultOf (B.instance board.now) pipe) }
    ensures rules { IsSynchronized (B.instance board.now) }
{
    let places = turning_places(alloc, board, pipe)?;
    let lengths = unequal_lengths(alloc, places.as_slice())?;
    match lengths {
        Some(cycles) => Err(TorusFault::CyclesDiffer {
            a: cycles.0,
            b: cycles.1,
        }),
        None => Ok(()),
    }
}

/// The rewrite of the step Toroidal, where the step is allowed: the pipe goes. The two ends of the pipe are the poles of
/// a bond. `CyclesDiffer` comes exactly where two cycles of the edges that the pipe turns into each other differ in
/// length: `a` is the length of the cycle of the least edge of the first end, and `b` that of the least edge whose cycle
/// has another length. Then there is no solution. It numbers the components of the board without the two ends once, and
/// asks the board for the ends of all edges: linear in the board, up to a logarithm.
pub fn toroidal<B: Board>(alloc: Global, board: &B, pipe: usize) -> Result<Rewrite, TorusFault>
    requires { (p : Pipe) × (pipe_named (B.instance board.now) pipe ≡ Some p) × IsBond (graph (B.instance board.now)) p.a p.b }
    ensures performed { IfOk result (λ w. Allowed (B.instance board.now) (Toroidal pipe) × Performs (B.instance board.now) (Toroidal pipe) w) }
    ensures fault { IfErr result (IsTorusFaultOf (B.instance board.now) pipe) }
{
    compare_cycles(alloc, board, pipe)?;
    let rewrite = drop_pipe(alloc, pipe)?;
    Ok(rewrite)
}

// An order of the edges of the first end of the pipe that the map of the pipe takes to a turn of itself: the rows of
// the cycles of the map. Linear in the board, up to a logarithm.
fn kept_order<B: Board>(alloc: Global, board: &B, pipe: usize) -> Result<CycList, Memory>
    requires { Allowed (B.instance board.now) (Toroidal pipe) }
    ensures { IfOk result (λ order. (p : Pipe) × (pipe_named (B.instance board.now) pipe ≡ Some p) × IsKeptOrder (B.instance board.now) p order) }
{
    let places = turning_places(alloc, board, pipe)?;
    let rows = rows_of_cycles(alloc, places.as_slice())?;
    let first = board.pipe_ends(pipe).0;
    let edges = board.edges_at(alloc, first)?;
    let order = edges_at_places(alloc, edges.as_slice(), rows.as_slice())?;
    Ok(order)
}

/// The solution before the step Toroidal from one after it: the first end gets an order that the map of the pipe takes
/// to a turn of itself, the parts between the two ends follow, and all other lists stay. With the least edges of the
/// cycles in the first row, and in each further row the edges to which those of the row before it go, the order reads
/// the rows one behind the other. It numbers the components of the board without the two ends once, and asks the board
/// for the ends of all edges: linear in the board, up to a logarithm. The only error is want of memory.
pub fn toroidal_back<B: Board>(
    alloc: Global,
    before: &B,
    pipe: usize,
    after: Solution,
) -> Result<Solution, Memory>
    requires allowed { Allowed (B.instance before.now) (Toroidal pipe) }
    requires solved { (j : Synchronized) × After (B.instance before.now) (Toroidal pipe) j × IsSolution j after }
    ensures { IfOk result (IsSolution (B.instance before.now)) }
{
    before.follows_rules();
    let (a, b) = before.pipe_ends(pipe);
    let order = kept_order(alloc, before, pipe)?;
    let solution = reordered(alloc, before, a, b, order, after)?;
    Ok(solution)
}
