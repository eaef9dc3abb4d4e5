// What a table tells.
ghost use Rattle.std.specs.Prelude.{◌≡◌, ◌≤◌, ◌++◌, [], length, IfOk, OnOk};
ghost use Rattle.cp_board.specs.Runs.{slots};
ghost use Rattle.cp_store.specs.Exchanges.{with_item, items_of};
ghost use Rattle.cp_store.specs.Parts.{told, AreTables};

use crate::copies::Part;
use crate::entry::Entry;
use crate::parts::Parts;
use crate::table::Table;
use cp_base::{Items, Memory};
use std::alloc::Global;

// How many items the entry has.
fn count_of<T>(entry: &Entry<T>) -> usize
    ensures value { result ≡ length (with_item entry.now.item []) }
    ensures small { result ≤ 1 }
{
    match &entry.item {
        None => 0,
        Some(_) => 1,
    }
}

// The number of items. Linear in the entries.
pub(crate) fn item_count<T>(table: &Table<T>) -> usize
    ensures value { result ≡ length (items_of table.now.entries.items) }
    ensures small { result ≤ length table.now.entries.items }
{
    let mut count = 0;
    for entry in table.entries.as_slice() {
        count += count_of(entry);
    }
    count
}

// Appends a copy of the item of the entry, if it has one. Linear in the item.
fn append_copy<T: Part + Drop>(
    alloc: Global,
    entry: &Entry<T>,
    to: &mut Items<T>,
) -> Result<(), Memory>
    ensures { OnOk result (to.new ≡ to.old ++ with_item entry.now.item []) }
{
    match &entry.item {
        None => Ok(()),
        Some(item) => {
            to.push(item.copied(alloc)?)?;
            Ok(())
        }
    }
}

// Copies of the items. Linear in the entries and in the items.
pub(crate) fn copied_table<T: Part + Drop>(
    alloc: Global,
    table: &Table<T>,
) -> Result<Items<T>, Memory>
    ensures { IfOk result (λ items. items ≡ items_of table.now.entries.items) }
{
    let mut items = Items::new(alloc);
    for entry in table.entries.as_slice() {
        append_copy(alloc, entry, &mut items)?;
    }
    Ok(items)
}

// The number of vertices, edges and pipes. Linear in the entries.
pub(crate) fn slots_of(parts: &Parts) -> usize
    requires { AreTables parts.now }
    ensures { result ≡ slots (told parts.now) }
{
    item_count(&parts.verts) + item_count(&parts.edges) + item_count(&parts.pipes)
}
