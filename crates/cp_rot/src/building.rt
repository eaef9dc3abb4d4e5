// The tables of a new rotation system.
ghost use Rattle.std.specs.Prelude.{◌≡◌, ℕ, ◌<◌, ◌≤◌, ◌≢◌, IfOk, List, length, slice_index};
ghost use Rattle.cp_rot.specs.Systems.{System, IsRotation, darts, next, place_after};
ghost use Rattle.cp_rot.specs.Tables.{IsStored, system_of};

use cp_base::{CycList, Memory};
use std::alloc::Global;

// Copies of all lists.
pub(crate) fn copied_lists(alloc: Global, lists: &[CycList]) -> Result<Vec<CycList>, Memory>
    ensures { IfOk result (λ copy. copy.items ≡ lists.now) }
{
    let mut copy = Vec::new(alloc);
    for list in lists {
        copy.push(CycList::from_slice(alloc, list.items())?)?;
    }
    Ok(copy)
}

// Writes for each item which one is behind it in the cyclic list.
fn write_next(table: &mut [usize], items: &[usize])
    requires within { (i : ℕ) → i < length items.now → slice_index items.now i < length table.old }
    requires distinct { (i j : ℕ) → i < length items.now → j < length items.now → slice_index items.now i ≡ slice_index items.now j → i ≡ j }
    ensures written { (i : ℕ) → i < length items.now → slice_index table.new (slice_index items.now i) ≡ slice_index items.now (place_after (length items.now) i) }
    ensures others { (d : ℕ) → ((i : ℕ) → i < length items.now → slice_index items.now i ≢ d) → slice_index table.new d ≡ slice_index table.old d }
{
    for i in 0..items.len() {
        let after = if i + 1 == items.len() { 0 } else { i + 1 };
        table[items[i]] = items[after];
    }
}

// For each dart the one behind it in the list of its vertex.
pub(crate) fn next_table(
    alloc: Global,
    at: &[usize],
    lists: &[CycList],
) -> Result<Vec<usize>, Memory>
    requires { IsRotation (system_of at.now lists.now) }
    ensures { IfOk result (λ table. IsStored (system_of at.now lists.now) table.items) }
{
    let mut table = vec![in alloc; 0; at.len()]?;
    write_all(table.as_mut_slice(), at, lists);
    Ok(table)
}

// Writes for each dart the one behind it in the list of its vertex.
fn write_all(table: &mut [usize], at: &[usize], lists: &[CycList])
    requires rotation { IsRotation (system_of at.now lists.now) }
    requires size { length table.old ≡ length at.now }
    ensures { IsStored (system_of at.now lists.now) table.new }
{
    for list in lists {
        write_next(table, list.items());
    }
}
