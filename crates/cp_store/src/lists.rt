// Tables of the lists of an instance.
ghost use Rattle.std.specs.Prelude.{◌≡◌, map, IfOk};
ghost use Rattle.std.specs.List.Sorted.{IsStrictlyIncreasing};
ghost use Rattle.cp_store.specs.Exchanges.{items_of, IsTable};

use crate::copies::Part;
use crate::named::Named;
use crate::plan::push_kept;
use crate::table::{MOST_ENTRIES, Table};
use cp_base::Memory;
use std::alloc::Global;

// The table of copies of the items. Linear in them.
pub(crate) fn table_of<T: Named + Part + Drop>(
    alloc: Global,
    items: &[T],
) -> Result<Table<T>, Memory>
    requires { IsStrictlyIncreasing (map T.name items.now) }
    ensures items { IfOk result (λ table. items_of table.entries.items ≡ items.now) }
    ensures table { IfOk result (λ table. IsTable T.name table.entries.items) }
{
    if items.len() > MOST_ENTRIES {
        return Err(Memory);
    }
    let mut entries = Vec::new(alloc);
    push_kept(alloc, items, &mut entries)?;
    Ok(Table { entries })
}
