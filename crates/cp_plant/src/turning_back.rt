// Solutions turned back over Propagate.
ghost use Rattle.std.specs.Prelude.{◌≤◌, ◌^◌, cond, eqb, take, ◌≡◌, ◌≢◌, ℕ, ◌+◌, true, false, ◌<◌, map, reverse, IfOk};
ghost use Rattle.std.specs.List.{All, Contains};
ghost use Rattle.std.specs.List.Sorted.{IsStrictlyIncreasing};
ghost use Rattle.cp_board.specs.Effects.{After};
ghost use Rattle.cp_board.specs.Instances.{Synchronized, IsSynchronized};
ghost use Rattle.cp_board.specs.Names.{new_names};
ghost use Rattle.cp_board.specs.Rewrites.{names_of};
ghost use Rattle.cp_board.specs.Solutions.{IsSolution, list_in};
ghost use Rattle.cp_board.specs.Steps.{Allowed};
ghost use Rattle.cp_board.specs.declared.steps.Step.{Step};
ghost use Rattle.cp_board.specs.declared.steps.Step.TheVariants.{Propagate};
ghost use Rattle.cp_plant.specs.PropagateSteps.{IsPropagateStep};
ghost use Rattle.cp_plant.specs.TreeWords.{with_ends};

use crate::partners::partners_of;
use crate::reading::word_of_tree;
use cp_base::{CycList, Memory, Shape};
use cp_board::{NameKind, Step};
use cp_sync::{Board, Solution};
use std::alloc::Global;

// The number of nodes of a tree that was planted twice in the place of two vertices, by the numbers of vertices before
// and after.
fn node_count(earlier: usize, later: usize) -> usize
    requires { (stay : ℕ) × (nodes : ℕ) × (earlier ≡ stay + 2) × (later ≡ stay + (nodes + nodes)) }
    ensures value { (stay nodes : ℕ) → earlier ≡ stay + 2 → later ≡ stay + (nodes + nodes) → result ≡ nodes }
    ensures bound { result ≤ later }
{
    (later - (earlier - 2)) / 2
}

// Of two ends the one that is not `end`.
fn other_end(ends: (usize, usize), end: usize) -> usize
    ensures { result ≡ cond (eqb ends.0 end) ends.1 ends.0 }
{
    if ends.0 == end { ends.1 } else { ends.0 }
}

// The first half of an even number of new names, rising. Its cost is that of the names.
fn first_names<B: Board>(
    alloc: Global,
    before: &B,
    kind: NameKind,
    n: usize,
) -> Result<Vec<usize>, Memory>
    requires { n < 2 ^ 62 }
    ensures { IfOk result (λ names. names.items ≡ take n (new_names (names_of (B.instance before.now) kind) (n + n))) }
{
    let mut names = before.free_names(alloc, kind, n + n)?;
    names.truncate(n);
    Ok(names)
}

// The list of a vertex before the step: each end has its order, and any other vertex what it has after the step.
// Linear in the list, up to a logarithm.
fn earlier_list(
    alloc: Global,
    v: usize,
    ends: (usize, usize),
    at_end: &[usize],
    at_other: &[usize],
    after: &Solution,
) -> Result<CycList, Memory>
    requires { v ≢ ends.0 → v ≢ ends.1 → Contains (map (λ row. row.0) after.now) v }
    ensures { IfOk result (λ list. list ≡ with_ends ends.0 ends.1 at_end.now at_other.now (list_in after.now) v) }
{
    if v == ends.0 {
        return CycList::from_slice(alloc, at_end);
    }
    if v == ends.1 {
        return CycList::from_slice(alloc, at_other);
    }
    CycList::from_slice(alloc, after.list_of(v).items())
}

// The solution before the step, at its vertices. Linear in all lists, up to a logarithm.
fn earlier_solution(
    alloc: Global,
    verts: &[usize],
    ends: (usize, usize),
    at_end: &[usize],
    at_other: &[usize],
    after: &Solution,
) -> Result<Solution, Memory>
    requires rising { IsStrictlyIncreasing verts.now }
    requires names { All (λ v. v ≢ ends.0 → v ≢ ends.1 → Contains (map (λ row. row.0) after.now) v) verts.now }
    ensures { IfOk result (λ s.
        s ≡ map (λ v. (v, with_ends ends.0 ends.1 at_end.now at_other.now (list_in after.now) v)) verts.now) }
{
    let mut solution = Solution::new(alloc);
    for v in verts {
        solution.push(*v, earlier_list(alloc, *v, ends, at_end, at_other, after)?)?;
    }
    Ok(solution)
}

/// The solution before the step Propagate from one after it: the end of the pipe gets its edges in the order in which
/// the lists read the leaves of the tree that was planted in its place, and the other end the reverse of their partners
/// (Bläsius, Rutter 2016; Bläsius, Fink, Rutter 2021); each other vertex keeps its list, and those of the new vertices
/// are dropped. Linear in all lists and in the pairs of the pipe, up to a logarithm. The only error is want of memory.
pub fn propagate_back<B: Board>(
    alloc: Global,
    before: &B,
    pipe: usize,
    end: usize,
    shape: &Shape,
    after: Solution,
) -> Result<Solution, Memory>
    requires allowed { Allowed (B.instance before.now) (Propagate pipe end shape.now) }
    requires solved { (j : Synchronized) × IsSynchronized j × After (B.instance before.now) (Propagate pipe end shape.now) j × IsSolution j after }
    ensures { IfOk result (IsSolution (B.instance before.now)) }
{
    before.follows_rules();
    let ends = before.pipe_ends(pipe);
    let pairs = before.pairs(pipe);
    let other = other_end(ends, end);
    let verts = before.verts(alloc)?;
    let incident = before.edges_at(alloc, end)?;
    let count = node_count(verts.len(), after.names().len());
    let tops = first_names(alloc, before, NameKind::Edge, count - 1)?;
    let nodes = first_names(alloc, before, NameKind::Vert, count)?;
    let mut word = word_of_tree(
        alloc,
        shape.root,
        tops.as_slice(),
        nodes.as_slice(),
        &after,
        count + incident.len(),
    )?;
    let at_other = partners_of(alloc, pairs, ends.0 == end, word.as_slice())?;
    word.reverse();
    let solution = earlier_solution(
        alloc,
        verts.as_slice(),
        (end, other),
        word.as_slice(),
        at_other.as_slice(),
        &after,
    )?;
    Ok(solution)
}

/// The solution before a step of this crate from one after it, by `propagate_back`, with its cost. The only error is
/// want of memory.
pub fn back<B: Board>(
    alloc: Global,
    before: &B,
    step: &Step,
    after: Solution,
) -> Result<Solution, Memory>
    requires kind { IsPropagateStep step.now }
    requires allowed { Allowed (B.instance before.now) step.now }
    requires solved { (j : Synchronized) × IsSynchronized j × After (B.instance before.now) step.now j × IsSolution j after }
    ensures { IfOk result (IsSolution (B.instance before.now)) }
{
    match step {
        Step::Propagate { pipe, end, shape } => {
            propagate_back(alloc, before, *pipe, *end, shape, after)
        }
        Step::Small { .. } => unreachable!(),
        Step::FreePole { .. } => unreachable!(),
        Step::FusePoles { .. } => unreachable!(),
        Step::Toroidal { .. } => unreachable!(),
        Step::Join { .. } => unreachable!(),
    }
}
