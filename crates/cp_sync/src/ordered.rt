// Items brought into the order of their names.
ghost use Rattle.std.specs.Prelude.{◌≡◌, ℕ, map, IfOk};
ghost use Rattle.std.specs.List.Sorted.{IsStrictlyIncreasing};
ghost use Rattle.cp_board.specs.Names.{has, by_name};

use crate::named::{Named, item_named};
use cp_base::{Items, Memory};
use std::alloc::Global;

// The list of these items. Linear.
pub(crate) fn stored<T: Drop>(alloc: Global, items: Vec<T>) -> Result<Items<T>, Memory>
    ensures { IfOk result (λ list. list ≡ items.items) }
{
    let mut list = Items::new(alloc);
    for item in items {
        list.push(item)?;
    }
    Ok(list)
}

// The items, of different names, in the order of their names. Linear, up to a logarithm.
pub(crate) fn in_order<T: Named + Drop>(
    alloc: Global,
    mut items: Vec<T>,
) -> Result<Items<T>, Memory>
    requires { IsStrictlyIncreasing (map T.name (by_name T.name items.items)) }
    ensures { IfOk result (λ list. list ≡ by_name T.name items.items) }
{
    items.sort_by_key(|item| item.name())?;
    stored(alloc, items)
}

// Whether the number is one of those that rise. Logarithmic.
pub(crate) fn is_one_of(numbers: &[usize], n: usize) -> bool
    requires { IsStrictlyIncreasing numbers.now }
    ensures { result ≡ has numbers.now n }
{
    item_named(numbers, n).is_some()
}
