// The least names under which no item stands.
ghost use Rattle.std.specs.Prelude.{◌≡◌, not, map, IfOk};
ghost use Rattle.cp_board.specs.Names.{has, new_names};
ghost use Rattle.cp_store.specs.Exchanges.{items_of, IsTable};

use crate::named::Named;
use crate::table::{Table, item_under};
use cp_base::Memory;
use std::alloc::Global;

// Whether no item has this name. Logarithmic.
fn is_gap<T: Named>(table: &Table<T>, name: usize) -> bool
    requires { IsTable T.name table.now.entries.items }
    ensures { result ≡ not (has (map T.name (items_of table.now.entries.items)) name) }
{
    match item_under(table, name) {
        None => true,
        Some(_) => false,
    }
}

// The `n` least names that no item has, rising. Logarithmic for each of them and for each name that it passes over: those
// of the items before the last of them.
pub(crate) fn least_gaps<T: Named>(
    alloc: Global,
    table: &Table<T>,
    n: usize,
) -> Result<Vec<usize>, Memory>
    requires { IsTable T.name table.now.entries.items }
    ensures { IfOk result (λ names. names.items ≡ new_names (map T.name (items_of table.now.entries.items)) n) }
{
    // So many names have no room in memory.
    let Some(size) = table.entries.len().checked_add(n) else {
        return Err(Memory);
    };
    let mut names = Vec::new(alloc);
    for k in 0..size {
        if names.len() >= n {
            return Ok(names);
        }
        if is_gap(table, k) {
            names.push(k)?;
        }
    }
    Ok(names)
}
