// The pipe of greatest degree.
ghost use Rattle.std.specs.Prelude.{◌≤◌, ◌<◌, length, List};
ghost use Rattle.std.specs.List.{All};
ghost use Rattle.cp_board.specs.declared.parts.Pipe.{Pipe};
ghost use Rattle.cp_store.specs.Forests.{items_at};
ghost use Rattle.cp_store.specs.Links.{IsLinkTree, HasLinks, down};
ghost use Rattle.cp_store.specs.PipeLinks.{IsLast, has_degree, pipe_links};
ghost use Rattle.cp_store.specs.BestPipe.{IsBest};

use crate::forest::Forest;
use crate::links::Link;

// The last link of a tree, or `None` where it has none. Logarithmic.
fn last_link(forest: &Forest<Link>, root: usize) -> Option<Link>
    requires { root ≤ length forest.now }
    ensures { IsLast (items_at forest.now root) result }
{
    if root == 0 {
        return None;
    }
    let node = forest.node(root);
    match last_link(forest, node.behind) {
        None => Some(node.item),
        Some(link) => Some(link),
    }
}

// Degree and name of the pipe of greatest degree and least name, or `None` where there is no pipe, from the links of
// the degrees to the names, counted down. Logarithmic.
pub(crate) fn best_pipe(forest: &Forest<Link>, ranks: usize) -> Option<(usize, usize)>
    requires { IsLinkTree forest.now ranks }
    ensures { (ps : List Pipe) → All (λ p. p.name < 18446744073709551616) ps
        → HasLinks forest.now ranks (down (pipe_links has_degree ps)) → IsBest ps result }
{
    match last_link(forest, ranks) {
        None => None,
        Some(link) => Some((link.key, usize::MAX - link.name)),
    }
}
