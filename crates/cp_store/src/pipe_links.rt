// The links of pipes: from their degrees and from their ends to their names.
ghost use Rattle.std.specs.Prelude.{◌≡◌, ◌++◌, ◌∷◌, [], ℕ, Bool, List, Some, not, ◌&&◌, eqb, map, IfOk};
ghost use Rattle.std.specs.List.{filter};
ghost use Rattle.cp_board.specs.declared.parts.Pipe.{Pipe};
ghost use Rattle.cp_board.specs.Names.{has};
ghost use Rattle.std.specs.List.Sorted.{IsStrictlyIncreasing};
ghost use Rattle.cp_store.specs.Exchanges.{under, items_of, IsTable};
ghost use Rattle.cp_store.specs.Forests.{Keeps};
ghost use Rattle.cp_store.specs.PipeLinks.{HasPipeLinks, ArePipeTrees};

use crate::forest::Forest;
use crate::linking::{linked, linked_down, unlinked, unlinked_down};
use crate::links::{Link, PipeRoots};
use crate::table::{Table, item_under};
use cp_base::Memory;
use cp_board::Pipe;

// The links with those of a pipe. Logarithmic.
fn with_pipe(forest: &mut Forest<Link>, roots: PipeRoots, p: &Pipe) -> Result<PipeRoots, Memory>
    requires { ArePipeTrees forest.old roots }
    ensures keeps { Keeps forest.old forest.new }
    ensures trees { IfOk result (ArePipeTrees forest.new) }
    ensures links { IfOk result (λ new. (ps : List Pipe) → HasPipeLinks forest.old roots ps
        → HasPipeLinks forest.new new (ps ++ p.now ∷ [])) }
{
    let ranks = linked_down(forest, roots.ranks, p.pairs.len(), p.name)?;
    let first = linked(forest, roots.poles, p.a, p.name)?;
    let poles = linked(forest, first, p.b, p.name)?;
    Ok(PipeRoots { ranks, poles })
}

// The links with those of some pipes. Logarithmic for each.
pub(crate) fn with_pipes(
    forest: &mut Forest<Link>,
    roots: PipeRoots,
    pipes: &[Pipe],
) -> Result<PipeRoots, Memory>
    requires { ArePipeTrees forest.old roots }
    ensures keeps { Keeps forest.old forest.new }
    ensures trees { IfOk result (ArePipeTrees forest.new) }
    ensures links { IfOk result (λ new. (ps : List Pipe) → HasPipeLinks forest.old roots ps
        → HasPipeLinks forest.new new (ps ++ pipes.now)) }
{
    let mut trees = roots;
    for p in pipes {
        trees = with_pipe(forest, trees, p)?;
    }
    Ok(trees)
}

// The links without those of a pipe. Logarithmic.
fn without_pipe(forest: &mut Forest<Link>, roots: PipeRoots, p: &Pipe) -> Result<PipeRoots, Memory>
    requires { ArePipeTrees forest.old roots }
    ensures keeps { Keeps forest.old forest.new }
    ensures trees { IfOk result (ArePipeTrees forest.new) }
    ensures links { IfOk result (λ new. (kept : ℕ → Bool) (ps : List Pipe) → IsStrictlyIncreasing (map (λ q. q.name) ps)
        → under (λ q. q.name) p.now.name ps ≡ Some p.now
        → HasPipeLinks forest.old roots (filter (λ q. kept q.name) ps)
        → HasPipeLinks forest.new new (filter (λ q. kept q.name && not (eqb q.name p.now.name)) ps)) }
{
    let ranks = unlinked_down(forest, roots.ranks, p.pairs.len(), p.name)?;
    let first = unlinked(forest, roots.poles, p.a, p.name)?;
    let poles = unlinked(forest, first, p.b, p.name)?;
    Ok(PipeRoots { ranks, poles })
}

// The links without those of the pipe of this name, if there is one. Logarithmic.
fn without_name(
    forest: &mut Forest<Link>,
    roots: PipeRoots,
    pipes: &Table<Pipe>,
    name: usize,
) -> Result<PipeRoots, Memory>
    requires table { IsTable (λ q. q.name) pipes.now.entries.items }
    requires trees { ArePipeTrees forest.old roots }
    ensures keeps { Keeps forest.old forest.new }
    ensures trees { IfOk result (ArePipeTrees forest.new) }
    ensures links { IfOk result (λ new. (kept : ℕ → Bool)
        → HasPipeLinks forest.old roots (filter (λ q. kept q.name) (items_of pipes.now.entries.items))
        → HasPipeLinks forest.new new
        (filter (λ q. kept q.name && not (eqb q.name name)) (items_of pipes.now.entries.items))) }
{
    match item_under(pipes, name) {
        None => Ok(roots),
        Some(p) => without_pipe(forest, roots, p),
    }
}

// The links without those of the pipes of some names. Logarithmic for each.
pub(crate) fn without_names(
    forest: &mut Forest<Link>,
    roots: PipeRoots,
    pipes: &Table<Pipe>,
    names: &[usize],
) -> Result<PipeRoots, Memory>
    requires table { IsTable (λ q. q.name) pipes.now.entries.items }
    requires trees { ArePipeTrees forest.old roots }
    ensures keeps { Keeps forest.old forest.new }
    ensures trees { IfOk result (ArePipeTrees forest.new) }
    ensures links { IfOk result (λ new. HasPipeLinks forest.old roots (items_of pipes.now.entries.items)
        → HasPipeLinks forest.new new
        (filter (λ q. not (has names.now q.name)) (items_of pipes.now.entries.items))) }
{
    let mut trees = roots;
    for name in names {
        trees = without_name(forest, trees, pipes, *name)?;
    }
    Ok(trees)
}
