// The live names that a table tells.
ghost use Rattle.std.specs.Prelude.{◌≡◌, ◌++◌, [], map, IfOk, OnOk};
ghost use Rattle.cp_store.specs.Exchanges.{with_item, items_of};

use crate::entry::Entry;
use crate::named::Named;
use crate::table::Table;
use cp_base::Memory;
use std::alloc::Global;

// Appends the name of the item of the entry, if it has one.
fn append_name<T: Named>(entry: &Entry<T>, to: &mut Vec<usize>) -> Result<(), Memory>
    ensures { OnOk result (to.new.items ≡ to.old.items ++ map T.name (with_item entry.now.item [])) }
{
    match &entry.item {
        None => Ok(()),
        Some(item) => {
            to.push(item.name())?;
            Ok(())
        }
    }
}

// The names of the items, rising. Linear in the entries.
pub(crate) fn live_names<T: Named>(alloc: Global, table: &Table<T>) -> Result<Vec<usize>, Memory>
    ensures { IfOk result (λ names. names.items ≡ map T.name (items_of table.now.entries.items)) }
{
    let mut names = Vec::new(alloc);
    for entry in table.entries.as_slice() {
        append_name(entry, &mut names)?;
    }
    Ok(names)
}
