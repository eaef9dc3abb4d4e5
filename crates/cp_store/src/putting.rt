// Items that are put into trees and taken out.
ghost use Rattle.std.specs.Prelude.{◌≡◌, ◌≤◌, ◌<◌, ◌∷◌, ◌++◌, length, map, true, Some, None, IfOk};
ghost use Rattle.std.specs.List.Sorted.{IsStrictlyIncreasing};
ghost use Rattle.cp_store.specs.Exchanges.{exchanged};
ghost use Rattle.cp_store.specs.Ranks.{rank};
ghost use Rattle.cp_store.specs.Forests.{items_at, Keeps, IsTree};

use crate::balance::balanced;
use crate::forest::Forest;
use crate::ranked::{Rank, Ranked, is_less};
use cp_base::Memory;

// The tree with this item, in the place of the one of its rank where there is one. Logarithmic.
pub(crate) fn with_item<T: Ranked + Drop>(
    forest: &mut Forest<T>,
    root: usize,
    item: T,
) -> Result<usize, Memory>
    requires within { root ≤ length forest.old }
    requires rise { IsStrictlyIncreasing (map T.number (items_at forest.old root)) }
    ensures keeps { Keeps forest.old forest.new }
    ensures tree { IfOk result (λ new. IsTree forest.new new
        (exchanged T.number (T.number item) (Some item) (items_at forest.old root))) }
{
    if root == 0 {
        return forest.fork(0, item, 0);
    }
    let (before, here, behind) = forest.opened(root)?;
    if is_less(item.rank(), here.rank()) {
        let first = with_item(forest, before, item)?;
        balanced(forest, first, here, behind)
    } else if is_less(here.rank(), item.rank()) {
        let last = with_item(forest, behind, item)?;
        balanced(forest, before, here, last)
    } else {
        forest.fork(before, item, behind)
    }
}

// The first item of a tree, and the tree of the others. Logarithmic.
fn first_and_rest<T: Ranked + Drop>(
    forest: &mut Forest<T>,
    root: usize,
) -> Result<(T, usize), Memory>
    requires live { 0 < root }
    requires within { root ≤ length forest.old }
    ensures keeps { Keeps forest.old forest.new }
    ensures within { IfOk result (λ p. p.1 ≤ length forest.new) }
    ensures items { IfOk result (λ p. items_at forest.old root ≡ p.0 ∷ items_at forest.new p.1) }
{
    let (before, here, behind) = forest.opened(root)?;
    if before == 0 {
        return Ok((here, behind));
    }
    let (first, rest) = first_and_rest(forest, before)?;
    let root = balanced(forest, rest, here, behind)?;
    Ok((first, root))
}

// The tree of the items of two trees. Logarithmic.
fn joined<T: Ranked + Drop>(
    forest: &mut Forest<T>,
    before: usize,
    behind: usize,
) -> Result<usize, Memory>
    requires before { before ≤ length forest.old }
    requires behind { behind ≤ length forest.old }
    ensures keeps { Keeps forest.old forest.new }
    ensures tree { IfOk result (λ root. IsTree forest.new root
        (items_at forest.old before ++ items_at forest.old behind)) }
{
    if behind == 0 {
        return Ok(before);
    }
    let (first, rest) = first_and_rest(forest, behind)?;
    balanced(forest, before, first, rest)
}

// The tree without the item of this rank. Logarithmic.
pub(crate) fn without_item<T: Ranked + Drop>(
    forest: &mut Forest<T>,
    root: usize,
    gone: Rank,
) -> Result<usize, Memory>
    requires within { root ≤ length forest.old }
    requires rise { IsStrictlyIncreasing (map T.number (items_at forest.old root)) }
    ensures keeps { Keeps forest.old forest.new }
    ensures tree { IfOk result (λ new. IsTree forest.new new
        (exchanged T.number (rank gone) None (items_at forest.old root))) }
{
    if root == 0 {
        return Ok(0);
    }
    let (before, here, behind) = forest.opened(root)?;
    if is_less(gone, here.rank()) {
        let first = without_item(forest, before, gone)?;
        balanced(forest, first, here, behind)
    } else if is_less(here.rank(), gone) {
        let last = without_item(forest, behind, gone)?;
        balanced(forest, before, here, last)
    } else {
        joined(forest, before, behind)
    }
}
