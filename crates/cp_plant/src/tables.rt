// Tables from keys to values, with look-ups in logarithmic time.
ghost use Rattle.std.specs.Prelude.{◌≡◌, ℕ, cond, eqb, IfOk, OnOk};
ghost use Rattle.cp_plant.specs.Tables.{value_or};

use cp_base::Memory;
use std::alloc::Global;
use std::collections::BTreeMap;

pub(crate) type Table = BTreeMap<usize, usize>;

// The value of a key, or the other value where there is none. Logarithmic.
pub(crate) fn value_or(table: &Table, key: usize, other: usize) -> usize
    ensures { result ≡ value_or table.now.entries key other }
{
    match table.get(&key) {
        Some(value) => *value,
        None => other,
    }
}

// Gives a key its value. Logarithmic.
pub(crate) fn put(table: &mut Table, key: usize, value: usize) -> Result<(), Memory>
    ensures { OnOk result ((x other : ℕ) → value_or table.new.entries x other ≡ cond (eqb key x) value (value_or table.old.entries x other)) }
{
    table.insert(key, value)?;
    Ok(())
}

// The table of these pairs, where the first pair of a key tells its value. Linear in the pairs, up to a logarithm.
pub(crate) fn table_of(alloc: Global, pairs: &[(usize, usize)]) -> Result<Table, Memory>
    ensures { IfOk result (λ table. (x other : ℕ) → value_or table.entries x other ≡ value_or pairs.now x other) }
{
    let mut table = BTreeMap::new(alloc);
    for j in 0..pairs.len() {
        let (key, value) = pairs[pairs.len() - 1 - j];
        put(&mut table, key, value)?;
    }
    Ok(table)
}
