// The trees of links of an instance.
ghost use Rattle.std.specs.Prelude.{◌≡◌, ◌++◌, ℕ, Bool, [], not, length, IfOk, OnErr};
ghost use Rattle.std.specs.List.{filter};
ghost use Rattle.cp_board.specs.Names.{has};
ghost use Rattle.cp_store.specs.Exchanges.{items_of, IsTable};
ghost use Rattle.cp_store.specs.Forests.{Keeps};
ghost use Rattle.cp_store.specs.Links.{IsLinkTree, HasLinks};
ghost use Rattle.cp_store.specs.EdgeLinks.{joins, moved_links, added_links};
ghost use Rattle.cp_store.specs.PipeLinks.{HasPipeLinks};

use crate::edge_links::{rewritten_links, with_edges};
use crate::forest::Forest;
use crate::links::{Link, Roots, no_roots};
use crate::pipe_links::{with_pipes, without_names};
use crate::table::Table;
use cp_base::Memory;
use cp_board::{EdgeRow, Pipe, Rewrite};

// The trees of the links of some edges and pipes, in a forest without nodes. Logarithmic for each.
pub(crate) fn roots_of(
    forest: &mut Forest<Link>,
    edges: &[EdgeRow],
    pipes: &[Pipe],
) -> Result<Roots, Memory>
    requires { forest.old ≡ [] }
    ensures ends { IfOk result (λ new. HasLinks forest.new new.ends (joins edges.now)) }
    ensures pipes { IfOk result (λ new. HasPipeLinks forest.new new.pipes pipes.now) }
{
    let none = no_roots();
    let ends = with_edges(forest, none.ends, edges)?;
    let pipes = with_pipes(forest, none.pipes, pipes)?;
    Ok(Roots { ends, pipes })
}

// The trees of the links after a rewrite. Logarithmic for each end of an edge that moves or comes, and for each pipe.
fn rewritten_roots(
    forest: &mut Forest<Link>,
    roots: Roots,
    pipes: &Table<Pipe>,
    w: &Rewrite,
) -> Result<Roots, Memory>
    requires table { IsTable (λ q. q.name) pipes.now.entries.items }
    requires ends { IsLinkTree forest.old roots.ends }
    requires pipes { HasPipeLinks forest.old roots.pipes (items_of pipes.now.entries.items) }
    ensures keeps { Keeps forest.old forest.new }
    ensures ends { IfOk result (λ new. (test : ℕ → ℕ → Bool) → HasLinks forest.old roots.ends test
        → HasLinks forest.new new.ends (added_links w.now.add_edges (moved_links w.now.moves test))) }
    ensures pipes { IfOk result (λ new. HasPipeLinks forest.new new.pipes
        (filter (λ q. not (has w.now.drop_pipes q.name)) (items_of pipes.now.entries.items) ++ w.now.add_pipes)) }
{
    let ends = rewritten_links(forest, roots.ends, w)?;
    let kept = without_names(forest, roots.pipes, pipes, w.drop_pipes.items())?;
    let pipes = with_pipes(forest, kept, w.add_pipes.items())?;
    Ok(Roots { ends, pipes })
}

// The trees of the links after a rewrite. Logarithmic for each end of an edge that moves or comes, and for each pipe.
// After want of memory no node is left of those that were made.
pub(crate) fn with_rewrite(
    forest: &mut Forest<Link>,
    roots: Roots,
    pipes: &Table<Pipe>,
    w: &Rewrite,
) -> Result<Roots, Memory>
    requires table { IsTable (λ q. q.name) pipes.now.entries.items }
    requires ends { IsLinkTree forest.old roots.ends }
    requires pipes { HasPipeLinks forest.old roots.pipes (items_of pipes.now.entries.items) }
    ensures keeps { Keeps forest.old forest.new }
    ensures length { OnErr result (length forest.new ≡ length forest.old) }
    ensures ends { IfOk result (λ new. (test : ℕ → ℕ → Bool) → HasLinks forest.old roots.ends test
        → HasLinks forest.new new.ends (added_links w.now.add_edges (moved_links w.now.moves test))) }
    ensures pipes { IfOk result (λ new. HasPipeLinks forest.new new.pipes
        (filter (λ q. not (has w.now.drop_pipes q.name)) (items_of pipes.now.entries.items) ++ w.now.add_pipes)) }
{
    let mark = forest.len();
    match rewritten_roots(forest, roots, pipes, w) {
        Ok(new) => Ok(new),
        Err(Memory) => {
            forest.cut(mark);
            Err(Memory)
        }
    }
}
