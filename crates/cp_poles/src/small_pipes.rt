// Small: a pipe of at most three pairs goes.
ghost use Rattle.std.specs.Prelude.{◌≡◌, ℕ, map, IfOk};
ghost use Rattle.std.specs.List.{Contains};
ghost use Rattle.cp_board.specs.declared.steps.Step.TheVariants.{Small};
ghost use Rattle.cp_board.specs.Instances.{IsSynchronized, Synchronized, pipe_names};
ghost use Rattle.cp_board.specs.Reductions.{KeepsSolvable, Performs};
ghost use Rattle.cp_board.specs.Effects.{After};
ghost use Rattle.cp_board.specs.Solutions.{IsSolution};
ghost use Rattle.cp_board.specs.Steps.{Allowed};
ghost use Rattle.cp_poles.specs.Small.{first_psi, second_psi, fixed_ends, new_cell, kinds_after, setting};

use cp_base::{CycList, Items, Memory};
use cp_board::{Kind, NameKind, Rewrite, Vert, Verts};
use cp_sync::{Board, Solution};
use std::alloc::Global;

/// What Small makes of an instance is solvable exactly where the instance is. Constant time.
pub fn small_keeps_solvable()
    ensures { (pipe : ℕ) → KeepsSolvable (Small pipe) }
{}

// The first edges of the pairs. Linear.
fn first_list(alloc: Global, pairs: &[(usize, usize)]) -> Result<CycList, Memory>
    ensures { IfOk result (λ list. list ≡ first_psi pairs.now) }
{
    let mut names = Vec::new(alloc);
    for pair in pairs {
        names.push(pair.0)?;
    }
    CycList::from_slice(alloc, names.as_slice())
}

// The second edges of the pairs. Linear.
pub(crate) fn seconds_of(alloc: Global, pairs: &[(usize, usize)]) -> Result<CycList, Memory>
    ensures { IfOk result (λ list. list ≡ map (λ x. x.1) pairs.now) }
{
    let mut names = Vec::new(alloc);
    for pair in pairs {
        names.push(pair.1)?;
    }
    CycList::from_slice(alloc, names.as_slice())
}

// The second edges of the pairs in reverse, from the least on. Linear.
fn second_list(alloc: Global, pairs: &[(usize, usize)]) -> Result<CycList, Memory>
    ensures { IfOk result (λ list. list ≡ second_psi pairs.now) }
{
    let seconds = seconds_of(alloc, pairs)?;
    let mut list = seconds.reversed(alloc)?;
    list.turn_to_least();
    Ok(list)
}

// The two ends of a pipe as Q-vertices of one cell. Linear in the pairs.
fn ends_fixed(
    alloc: Global,
    ends: (usize, usize),
    pairs: &[(usize, usize)],
    cell: usize,
) -> Result<Verts, Memory>
    ensures { IfOk result (λ kinds. kinds ≡ fixed_ends ends pairs.now cell) }
{
    let first = first_list(alloc, pairs)?;
    let second = second_list(alloc, pairs)?;
    let mut kinds = Items::new(alloc);
    kinds.push(Vert {
        name: ends.0,
        kind: Kind::Q { cell, psi: first },
    })?;
    kinds.push(Vert {
        name: ends.1,
        kind: Kind::Q { cell, psi: second },
    })?;
    Ok(kinds)
}

// The least number that is no live cell. Linear in what the board asks for it.
fn free_cell<B: Board>(alloc: Global, board: &B) -> Result<usize, Memory>
    ensures { IfOk result (λ cell. cell ≡ new_cell (B.instance board.now)) }
{
    let names = board.free_names(alloc, NameKind::Cell, 1)?;
    Ok(names[0])
}

// The vertices that get another kind.
fn set_kinds<B: Board>(alloc: Global, board: &B, pipe: usize) -> Result<Verts, Memory>
    requires { Contains (pipe_names (B.instance board.now)) pipe }
    ensures kinds { IfOk result (λ kinds. kinds ≡ kinds_after (B.instance board.now) pipe) }
    ensures rules { IsSynchronized (B.instance board.now) }
{
    let ends = board.pipe_ends(pipe);
    let pairs = board.pairs(pipe);
    if pairs.len() != 3 {
        return Ok(Items::new(alloc));
    }
    let cell = free_cell(alloc, board)?;
    ends_fixed(alloc, ends, pairs, cell)
}

// The rewrite that drops a pipe and sets some kinds.
fn drop_and_set(alloc: Global, pipe: usize, kinds: Verts) -> Result<Rewrite, Memory>
    ensures { IfOk result (λ w. w ≡ setting pipe kinds) }
{
    let mut drop_pipes = Items::new(alloc);
    drop_pipes.push(pipe)?;
    Ok(Rewrite {
        drop_pipes,
        drop_verts: Items::new(alloc),
        add_verts: Items::new(alloc),
        set_kinds: kinds,
        moves: Items::new(alloc),
        add_edges: Items::new(alloc),
        add_pipes: Items::new(alloc),
    })
}

/// The rewrite of the step Small: the pipe goes, and where it has three pairs, its ends become Q-vertices of one new
/// cell. Beside what the board takes to find the least free cell, it takes constant time and memory. The only error is
/// want of memory.
pub fn small<B: Board>(alloc: Global, board: &B, pipe: usize) -> Result<Rewrite, Memory>
    requires { Allowed (B.instance board.now) (Small pipe) }
    ensures { IfOk result (λ w. Performs (B.instance board.now) (Small pipe) w) }
{
    let kinds = set_kinds(alloc, board, pipe)?;
    let rewrite = drop_and_set(alloc, pipe, kinds)?;
    Ok(rewrite)
}

/// The solution before the step Small from one after it: no list changes. Constant time.
pub fn small_back<B: Board>(before: &B, pipe: usize, after: Solution) -> Solution
    requires allowed { Allowed (B.instance before.now) (Small pipe) }
    requires solved { (j : Synchronized) × After (B.instance before.now) (Small pipe) j × IsSolution j after }
    ensures { IsSolution (B.instance before.now) result }
{
    before.follows_rules();
    after
}
