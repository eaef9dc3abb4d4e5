// Trees that stay balanced by the number of their items (Adams 1993).
ghost use Rattle.std.specs.Prelude.{◌≤◌, ◌∷◌, ◌++◌, length, IfOk};
ghost use Rattle.cp_store.specs.Forests.{items_at, Keeps, IsTree};

use crate::forest::Forest;
use crate::ranked::Ranked;
use cp_base::Memory;

// A tree of the items of one tree, an item, and those of another tree, where the first has too many.
fn lean_behind<T: Ranked + Drop>(
    forest: &mut Forest<T>,
    before: usize,
    item: T,
    behind: usize,
) -> Result<usize, Memory>
    requires before { before ≤ length forest.old }
    requires behind { behind ≤ length forest.old }
    ensures keeps { Keeps forest.old forest.new }
    ensures tree { IfOk result (λ root. IsTree forest.new root
        (items_at forest.old before ++ item ∷ items_at forest.old behind)) }
{
    if before == 0 {
        return forest.fork(before, item, behind);
    }
    let (first, middle, second) = forest.opened(before)?;
    if second == 0 || forest.count(second) < 2 * forest.count(first) + 1 {
        let last = forest.fork(second, item, behind)?;
        return forest.fork(first, middle, last);
    }
    let (inner, top, outer) = forest.opened(second)?;
    let front = forest.fork(first, middle, inner)?;
    let back = forest.fork(outer, item, behind)?;
    forest.fork(front, top, back)
}

// The same where the second has too many.
fn lean_before<T: Ranked + Drop>(
    forest: &mut Forest<T>,
    before: usize,
    item: T,
    behind: usize,
) -> Result<usize, Memory>
    requires before { before ≤ length forest.old }
    requires behind { behind ≤ length forest.old }
    ensures keeps { Keeps forest.old forest.new }
    ensures tree { IfOk result (λ root. IsTree forest.new root
        (items_at forest.old before ++ item ∷ items_at forest.old behind)) }
{
    if behind == 0 {
        return forest.fork(before, item, behind);
    }
    let (first, middle, second) = forest.opened(behind)?;
    if first == 0 || forest.count(first) < 2 * forest.count(second) + 1 {
        let front = forest.fork(before, item, first)?;
        return forest.fork(front, middle, second);
    }
    let (outer, top, inner) = forest.opened(first)?;
    let front = forest.fork(before, item, outer)?;
    let back = forest.fork(inner, middle, second)?;
    forest.fork(front, top, back)
}

// A balanced tree of the items of one tree, an item, and those of another tree, where one insertion or removal made
// them differ. Constant time on average.
pub(crate) fn balanced<T: Ranked + Drop>(
    forest: &mut Forest<T>,
    before: usize,
    item: T,
    behind: usize,
) -> Result<usize, Memory>
    requires before { before ≤ length forest.old }
    requires behind { behind ≤ length forest.old }
    ensures keeps { Keeps forest.old forest.new }
    ensures tree { IfOk result (λ root. IsTree forest.new root
        (items_at forest.old before ++ item ∷ items_at forest.old behind)) }
{
    let (first, second) = (forest.count(before), forest.count(behind));
    if first > 3 * second + 2 {
        lean_behind(forest, before, item, behind)
    } else if second > 3 * first + 2 {
        lean_before(forest, before, item, behind)
    } else {
        forest.fork(before, item, behind)
    }
}
