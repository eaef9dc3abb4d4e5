// Many exchanges of items of a table, and how they are taken back.
ghost use Rattle.std.specs.Prelude.{◌≡◌, ℕ, ◌+◌, ◌≤◌, true, length, OnOk};
ghost use Rattle.std.specs.List.{All};
ghost use Rattle.std.specs.Vec.{vec_len, vec_capacity};
ghost use Rattle.cp_store.specs.Exchanges.{taken_back, entry_names, items_of, HasItsName, IsTable, IsReserved, IsGrown};

use crate::entry::Entry;
use crate::named::Named;
use crate::table::{Table, exchange, reserve_name};
use cp_base::Memory;

// Makes room for the items of the entries. After want of memory the table has the same items.
pub(crate) fn reserve_entries<T: Named + Drop>(
    table: &mut Table<T>,
    entries: &[Entry<T>],
) -> Result<(), Memory>
    requires table { IsTable T.name table.old.entries.items }
    requires named { All (HasItsName T.name) entries.now }
    ensures grown { IsGrown T.name table.old.entries.items table.new.entries.items }
    ensures ok { OnOk result (All (IsReserved T.name (entry_names table.new.entries.items)) entries.now) }
{
    for entry in entries {
        reserve_name(table, entry.name)?;
    }
    Ok(())
}

// Makes the exchange of each entry, the last one first, and keeps what stood there. Logarithmic for each, without
// memory.
pub(crate) fn exchange_all<T: Named + Drop>(
    table: &mut Table<T>,
    entries: Vec<Entry<T>>,
    done: &mut Vec<Entry<T>>,
)
    requires table { IsTable T.name table.old.entries.items }
    requires reserved { All (IsReserved T.name (entry_names table.old.entries.items)) entries.items }
    requires done_reserved { All (IsReserved T.name (entry_names table.old.entries.items)) done.old.items }
    requires room { vec_len done.old + vec_len entries ≤ vec_capacity done.old }
    ensures items { items_of table.new.entries.items ≡ taken_back T.name entries.items (items_of table.old.entries.items) }
    ensures back { taken_back T.name done.new.items (items_of table.new.entries.items) ≡ taken_back T.name done.old.items (items_of table.old.entries.items) }
    ensures table { IsTable T.name table.new.entries.items }
    ensures names { entry_names table.new.entries.items ≡ entry_names table.old.entries.items }
    ensures reserved { All (IsReserved T.name (entry_names table.old.entries.items)) done.new.items }
{
    let mut rest = entries;
    while let Some(mut entry) = rest.pop() {
        exchange(table, &mut entry);
        done.push_reserved(entry);
    }
}

// Makes the exchange of each entry, the last one first. Logarithmic for each, without memory.
pub(crate) fn take_back<T: Named + Drop>(table: &mut Table<T>, entries: Vec<Entry<T>>)
    requires table { IsTable T.name table.old.entries.items }
    requires reserved { All (IsReserved T.name (entry_names table.old.entries.items)) entries.items }
    ensures items { items_of table.new.entries.items ≡ taken_back T.name entries.items (items_of table.old.entries.items) }
    ensures table { IsTable T.name table.new.entries.items }
    ensures names { entry_names table.new.entries.items ≡ entry_names table.old.entries.items }
{
    let mut rest = entries;
    while let Some(mut entry) = rest.pop() {
        exchange(table, &mut entry);
    }
}
