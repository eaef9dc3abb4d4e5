// The edges of a board by the numbers of their blocks.
ghost use Rattle.std.specs.Prelude.{◌≡◌, ◌<◌, [], length, replicate, IfOk};
ghost use Rattle.std.specs.List.{All};
ghost use Rattle.std.specs.List.Sorted.{IsStrictlyIncreasing};
ghost use Rattle.cp_flip.specs.BlockTrees.{AreRowsByNumber};

use cp_base::{Items, Memory};
use std::alloc::Global;

// So many empty rows.
pub(crate) fn empty_rows(alloc: Global, count: usize) -> Result<Vec<Items<usize>>, Memory>
    ensures { IfOk result (λ rows. rows.items ≡ replicate count []) }
{
    let mut rows = Vec::with_capacity(alloc, count)?;
    for _ in 0..count {
        rows.push(Items::new(alloc))?;
    }
    Ok(rows)
}

// For each number below the number of edges the edges that have it. Linear.
pub(crate) fn edges_by_number(
    alloc: Global,
    edges: &[usize],
    numbers: &[usize],
) -> Result<Vec<Items<usize>>, Memory>
    requires rising { IsStrictlyIncreasing edges.now }
    requires one_each { length numbers.now ≡ length edges.now }
    requires below { All (λ c. c < length edges.now) numbers.now }
    ensures { IfOk result (λ rows. AreRowsByNumber edges.now numbers.now (length edges.now) rows.items) }
{
    let mut rows = empty_rows(alloc, edges.len())?;
    for k in 0..edges.len() {
        rows[numbers[k]].push(edges[k])?;
    }
    Ok(rows)
}
