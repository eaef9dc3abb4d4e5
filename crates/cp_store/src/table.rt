// Items in the order of their names, with room for items that are not there.
ghost use Rattle.std.specs.Prelude.{◌≡◌, true, None, Some, MatchOption, OnOk};
ghost use Rattle.cp_board.specs.Names.{has};
ghost use Rattle.cp_store.specs.Exchanges.{under, exchanged, entry_names, items_of, IsTable, IsReserved, IsGrown};

use crate::entry::Entry;
use crate::named::{Named, item_named, lower_place};
use cp_base::Memory;
use std::mem;

// Entries in the order of their names. Those without an item keep room for one.
#[derive(Debug, Drop)]
pub(crate) struct Table<T> {
    pub(crate) entries: Vec<Entry<T>>,
}

// More entries than this have no room in memory.
pub(crate) const MOST_ENTRIES: usize = 2305843009213693952;

// The item of the entry, or `None` where it has none.
fn item_of<T>(entry: &Entry<T>) -> Option<&T>
    ensures { MatchOption result (entry.now.item ≡ None) (λ found. entry.now.item ≡ Some found.now) }
{
    match &entry.item {
        None => None,
        Some(item) => Some(item),
    }
}

// The item of this name, or `None` where there is none. Logarithmic.
pub(crate) fn item_under<T: Named>(table: &Table<T>, name: usize) -> Option<&T>
    requires { IsTable T.name table.now.entries.items }
    ensures { MatchOption result (under T.name name (items_of table.now.entries.items) ≡ None) (λ found. under T.name name (items_of table.now.entries.items) ≡ Some found.now) }
{
    match item_named(table.entries.as_slice(), name) {
        None => None,
        Some(entry) => item_of(entry),
    }
}

// Whether the table has an entry of this name. Logarithmic.
fn has_entry<T: Named>(table: &Table<T>, name: usize) -> bool
    requires { IsTable T.name table.now.entries.items }
    ensures { result ≡ has (entry_names table.now.entries.items) name }
{
    match item_named(table.entries.as_slice(), name) {
        None => false,
        Some(_) => true,
    }
}

// Makes room for an item of this name. Logarithmic where there is room, constant on average for a name that is greater
// than all others, and else linear in the entries of greater names. After want of memory the table has the same items.
pub(crate) fn reserve_name<T: Named + Drop>(table: &mut Table<T>, name: usize) -> Result<(), Memory>
    requires { IsTable T.name table.old.entries.items }
    ensures grown { IsGrown T.name table.old.entries.items table.new.entries.items }
    ensures ok { OnOk result (has (entry_names table.new.entries.items) name ≡ true) }
{
    if has_entry(table, name) {
        return Ok(());
    }
    let entries = table.entries.as_slice();
    if entries.len() >= MOST_ENTRIES {
        return Err(Memory);
    }
    let place = lower_place(entries, name);
    table.entries.insert(place, Entry { name, item: None })?;
    Ok(())
}

// Exchanges what stands under the name of the entry with what the entry has. Logarithmic, without memory.
pub(crate) fn exchange<T: Named>(table: &mut Table<T>, entry: &mut Entry<T>)
    requires table { IsTable T.name table.old.entries.items }
    requires reserved { IsReserved T.name (entry_names table.old.entries.items) entry.old }
    ensures items { items_of table.new.entries.items ≡ exchanged T.name entry.old.name entry.old.item (items_of table.old.entries.items) }
    ensures back { exchanged T.name entry.new.name entry.new.item (items_of table.new.entries.items) ≡ items_of table.old.entries.items }
    ensures table { IsTable T.name table.new.entries.items }
    ensures names { entry_names table.new.entries.items ≡ entry_names table.old.entries.items }
    ensures reserved { IsReserved T.name (entry_names table.old.entries.items) entry.new }
{
    let place = lower_place(table.entries.as_slice(), entry.name);
    mem::swap(&mut table.entries[place].item, &mut entry.item);
}
