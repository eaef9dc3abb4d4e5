// Solutions turned back over Join.
ghost use Rattle.std.specs.Prelude.{◌≡◌, ◌≢◌, ◌<◌, ℕ, length, map, IfOk};
ghost use Rattle.std.specs.List.{All, Contains};
ghost use Rattle.std.specs.List.Sorted.{IsStrictlyIncreasing};
ghost use Rattle.cp_board.specs.Effects.{After};
ghost use Rattle.cp_board.specs.Instances.{Synchronized};
ghost use Rattle.cp_board.specs.Reductions.{KeepsSolvable};
ghost use Rattle.cp_board.specs.Solutions.{IsSolution, list_in};
ghost use Rattle.cp_board.specs.Steps.{Allowed};
ghost use Rattle.cp_board.specs.declared.steps.Step.{Step};
ghost use Rattle.cp_board.specs.declared.steps.Step.TheVariants.{Join};
ghost use Rattle.cp_join.specs.JoinSteps.{IsJoinStep};
ghost use Rattle.cp_join.specs.InnerSystems.{first_back, second_back, with_orders};

use crate::inner_systems::common_order;
use crate::parted_ends::partings;
use crate::vertex_parts::parts_among;
use cp_base::{CycList, Memory};
use cp_board::{NameKind, Step};
use cp_sync::{Board, Solution};
use std::alloc::Global;

/// What Join makes of an instance is solvable exactly where the instance is. Constant time.
pub fn join_keeps_solvable()
    ensures { (pipe : ℕ) → KeepsSolvable (Join pipe) }
{}

// The edges of the first end in the reverse of an order of the new edges. Linear.
fn first_order(
    alloc: Global,
    pairs: &[(usize, usize)],
    order: &[usize],
) -> Result<Vec<usize>, Memory>
    requires { All (λ k. k < length pairs.now) order.now }
    ensures { IfOk result (λ list. list.items ≡ first_back pairs.now order.now) }
{
    let mut list = Vec::new(alloc);
    for k in order {
        list.push(pairs[*k].0)?;
    }
    list.reverse();
    Ok(list)
}

// The edges of the second end in an order of the new edges. Linear.
fn second_order(
    alloc: Global,
    pairs: &[(usize, usize)],
    order: &[usize],
) -> Result<Vec<usize>, Memory>
    requires { All (λ k. k < length pairs.now) order.now }
    ensures { IfOk result (λ list. list.items ≡ second_back pairs.now order.now) }
{
    let mut list = Vec::new(alloc);
    for k in order {
        list.push(pairs[*k].1)?;
    }
    Ok(list)
}

// The list of a vertex before the step: an end of the pipe has its order, and any other vertex what it has after the
// step. Linear in the list, up to a logarithm.
fn earlier_list(
    alloc: Global,
    v: usize,
    ends: (usize, usize),
    first: &[usize],
    second: &[usize],
    after: &Solution,
) -> Result<CycList, Memory>
    requires { v ≢ ends.0 → v ≢ ends.1 → Contains (map (λ row. row.0) after.now) v }
    ensures { IfOk result (λ list. list ≡ with_orders ends.0 ends.1 first.now second.now (list_in after.now) v) }
{
    if v == ends.0 {
        return CycList::from_slice(alloc, first);
    }
    if v == ends.1 {
        return CycList::from_slice(alloc, second);
    }
    CycList::from_slice(alloc, after.list_of(v).items())
}

// The solution before the step, at its vertices. Linear in all lists, up to a logarithm.
fn earlier_solution(
    alloc: Global,
    verts: &[usize],
    ends: (usize, usize),
    first: &[usize],
    second: &[usize],
    after: &Solution,
) -> Result<Solution, Memory>
    requires rising { IsStrictlyIncreasing verts.now }
    requires names { All (λ v. v ≢ ends.0 → v ≢ ends.1 → Contains (map (λ row. row.0) after.now) v) verts.now }
    ensures { IfOk result (λ s.
        s ≡ map (λ v. (v, with_orders ends.0 ends.1 first.now second.now (list_in after.now) v)) verts.now) }
{
    let mut solution = Solution::new(alloc);
    for v in verts {
        solution.push(*v, earlier_list(alloc, *v, ends, first, second, after)?)?;
    }
    Ok(solution)
}

/// The solution before the step Join from one after it: the inner vertices of the first end are made one vertex, whose
/// list gives the orders of both ends (Bläsius, Fink, Rutter 2021); each other vertex keeps its list, and those of the
/// new vertices are dropped. It searches the board twice, takes one walk over the pairs for each part of the first end,
/// and is linear in the lists and n log n in the pairs beside that. The only error is want of memory.
pub fn join_back<B: Board>(
    alloc: Global,
    before: &B,
    pipe: usize,
    after: Solution,
) -> Result<Solution, Memory>
    requires allowed { Allowed (B.instance before.now) (Join pipe) }
    requires solved { (j : Synchronized) × After (B.instance before.now) (Join pipe) j × IsSolution j after }
    ensures { IfOk result (IsSolution (B.instance before.now)) }
{
    before.follows_rules();
    let ends = before.pipe_ends(pipe);
    let pairs = before.pairs(pipe);
    let first = parts_among(alloc, before, ends.0)?;
    let second = parts_among(alloc, before, ends.1)?;
    let both = partings(alloc, before, first, second)?;
    let hats = before.free_names(alloc, NameKind::Edge, pairs.len())?;
    let order = common_order(alloc, pairs, hats.as_slice(), &both.0, &both.1, &after)?;
    let one = first_order(alloc, pairs, order.items())?;
    let two = second_order(alloc, pairs, order.items())?;
    let verts = before.verts(alloc)?;
    let solution = earlier_solution(
        alloc,
        verts.as_slice(),
        ends,
        one.as_slice(),
        two.as_slice(),
        &after,
    )?;
    Ok(solution)
}

/// The solution before a step of this crate from one after it, by `join_back`, with its cost. The only error is want of
/// memory.
pub fn back<B: Board>(
    alloc: Global,
    before: &B,
    step: &Step,
    after: Solution,
) -> Result<Solution, Memory>
    requires kind { IsJoinStep step.now }
    requires allowed { Allowed (B.instance before.now) step.now }
    requires solved { (j : Synchronized) × After (B.instance before.now) step.now j × IsSolution j after }
    ensures { IfOk result (IsSolution (B.instance before.now)) }
{
    match step {
        Step::Join { pipe } => join_back(alloc, before, *pipe, after),
        Step::Small { .. } => unreachable!(),
        Step::FreePole { .. } => unreachable!(),
        Step::FusePoles { .. } => unreachable!(),
        Step::Toroidal { .. } => unreachable!(),
        Step::Propagate { .. } => unreachable!(),
    }
}
