// The links from the ends of edges to the names of the edges.
ghost use Rattle.std.specs.Prelude.{ℕ, Bool, IfOk};
ghost use Rattle.cp_store.specs.Forests.{Keeps};
ghost use Rattle.cp_store.specs.Links.{IsLinkTree, HasLinks};
ghost use Rattle.cp_store.specs.EdgeLinks.{moved_links, added_links};

use crate::forest::Forest;
use crate::linking::{linked, unlinked};
use crate::links::Link;
use cp_base::Memory;
use cp_board::{EdgeMove, EdgeRow, Rewrite};

// The links after moves of ends of edges. Logarithmic for each.
pub(crate) fn with_moves(
    forest: &mut Forest<Link>,
    root: usize,
    moves: &[EdgeMove],
) -> Result<usize, Memory>
    requires { IsLinkTree forest.old root }
    ensures keeps { Keeps forest.old forest.new }
    ensures tree { IfOk result (IsLinkTree forest.new) }
    ensures links { IfOk result (λ new. (test : ℕ → ℕ → Bool) → HasLinks forest.old root test
        → HasLinks forest.new new (moved_links moves.now test)) }
{
    let mut tree = root;
    for m in moves {
        let without = unlinked(forest, tree, m.from, m.edge)?;
        tree = linked(forest, without, m.to, m.edge)?;
    }
    Ok(tree)
}

// The links with those of some edges. Logarithmic for each.
pub(crate) fn with_edges(
    forest: &mut Forest<Link>,
    root: usize,
    edges: &[EdgeRow],
) -> Result<usize, Memory>
    requires { IsLinkTree forest.old root }
    ensures keeps { Keeps forest.old forest.new }
    ensures tree { IfOk result (IsLinkTree forest.new) }
    ensures links { IfOk result (λ new. (test : ℕ → ℕ → Bool) → HasLinks forest.old root test
        → HasLinks forest.new new (added_links edges.now test)) }
{
    let mut tree = root;
    for e in edges {
        let first = linked(forest, tree, e.a, e.name)?;
        tree = linked(forest, first, e.b, e.name)?;
    }
    Ok(tree)
}

// The links after a rewrite. Logarithmic for each end of an edge that moves or comes.
pub(crate) fn rewritten_links(
    forest: &mut Forest<Link>,
    root: usize,
    w: &Rewrite,
) -> Result<usize, Memory>
    requires { IsLinkTree forest.old root }
    ensures keeps { Keeps forest.old forest.new }
    ensures links { IfOk result (λ new. (test : ℕ → ℕ → Bool) → HasLinks forest.old root test
        → HasLinks forest.new new (added_links w.now.add_edges (moved_links w.now.moves test))) }
{
    let moved = with_moves(forest, root, w.moves.items())?;
    with_edges(forest, moved, w.add_edges.items())
}
