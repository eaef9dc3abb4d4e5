// The partners of edges, by the pairs of a pipe.
ghost use Rattle.std.specs.Prelude.{◌≡◌, ℕ, false, map, IfOk};
ghost use Rattle.cp_plant.specs.Tables.{value_or};
ghost use Rattle.cp_plant.specs.TreeWords.{partner_by};

use crate::tables::{Table, put, table_of, value_or};
use cp_base::Memory;
use std::alloc::Global;
use std::collections::BTreeMap;

// The table from second edges to first ones, where the first pair of an edge tells. Linear, up to a logarithm.
fn earlier_edges(alloc: Global, pairs: &[(usize, usize)]) -> Result<Table, Memory>
    ensures { IfOk result (λ table. (x : ℕ) → value_or table.entries x 0 ≡ partner_by pairs.now false x) }
{
    let mut table = BTreeMap::new(alloc);
    for j in 0..pairs.len() {
        let (value, key) = pairs[pairs.len() - 1 - j];
        put(&mut table, key, value)?;
    }
    Ok(table)
}

// The table of partners: from first edges to second ones, or the other way. Linear in the pairs, up to a logarithm.
fn partner_table(alloc: Global, pairs: &[(usize, usize)], first: bool) -> Result<Table, Memory>
    ensures { IfOk result (λ table. (x : ℕ) → value_or table.entries x 0 ≡ partner_by pairs.now first x) }
{
    if first {
        table_of(alloc, pairs)
    } else {
        earlier_edges(alloc, pairs)
    }
}

// The partners of some edges, and 0 where there is none. Linear in pairs and edges, up to a logarithm.
pub(crate) fn partners_of(
    alloc: Global,
    pairs: &[(usize, usize)],
    first: bool,
    list: &[usize],
) -> Result<Vec<usize>, Memory>
    ensures { IfOk result (λ partners. partners.items ≡ map (partner_by pairs.now first) list.now) }
{
    let table = partner_table(alloc, pairs, first)?;
    let mut partners = Vec::new(alloc);
    for x in list {
        partners.push(value_or(&table, *x, 0))?;
    }
    Ok(partners)
}

// Each edge with its partner. Linear in pairs and edges, up to a logarithm.
pub(crate) fn with_partners(
    alloc: Global,
    pairs: &[(usize, usize)],
    first: bool,
    edges: &[usize],
) -> Result<Vec<(usize, usize)>, Memory>
    ensures { IfOk result (λ list. list.items ≡ map (λ x. (x, partner_by pairs.now first x)) edges.now) }
{
    let table = partner_table(alloc, pairs, first)?;
    let mut list = Vec::new(alloc);
    for edge in edges {
        list.push((*edge, value_or(&table, *edge, 0)))?;
    }
    Ok(list)
}
