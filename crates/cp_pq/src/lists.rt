// Lists that are moved as a whole.
ghost use Rattle.std.specs.Prelude.{◌≡◌, ◌++◌, [], ◌∷◌, reverse, IfOk};

use cp_base::{Items, Memory};
use std::alloc::Global;

/// The items from last to first. Linear in their number.
pub fn reversed<T: Drop>(alloc: Global, items: Items<T>) -> Result<Items<T>, Memory>
    ensures { IfOk result (λ back. back ≡ reverse items) }
{
    let mut back = Items::new(alloc);
    let mut left = items;
    while let Some(item) = left.pop() {
        back.push(item)?;
    }
    Ok(back)
}

/// The items, and behind them those of `more` from last to first. Linear in the number of `more`.
pub fn with_reversed<T: Drop>(items: Items<T>, more: Items<T>) -> Result<Items<T>, Memory>
    ensures { IfOk result (λ all. all ≡ items ++ reverse more) }
{
    let mut all = items;
    let mut left = more;
    while let Some(item) = left.pop() {
        all.push(item)?;
    }
    Ok(all)
}

/// The items, and behind them those of `more`. Linear in the number of `more`.
pub fn joined<T: Drop>(alloc: Global, items: Items<T>, more: Items<T>) -> Result<Items<T>, Memory>
    ensures { IfOk result (λ all. all ≡ items ++ more) }
{
    let back = reversed(alloc, more)?;
    with_reversed(items, back)
}

/// The one item.
pub fn one<T: Drop>(alloc: Global, item: T) -> Result<Items<T>, Memory>
    ensures { IfOk result (λ all. all ≡ item ∷ []) }
{
    let mut all = Items::new(alloc);
    all.push(item)?;
    Ok(all)
}
