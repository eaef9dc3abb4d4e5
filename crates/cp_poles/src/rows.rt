// Orders that a permutation takes to a turn of themselves, where all its cycles have one length.
ghost use Rattle.std.specs.Prelude.{◌≡◌, ℕ, ◌<◌, IfOk, length, map, slice_index};
ghost use Rattle.std.specs.List.{All, range_with_len};
ghost use Rattle.cp_base.specs.Permutations.{IsPerm};
ghost use Rattle.cp_poles.specs.Cycles.{HaveLength};
ghost use Rattle.cp_poles.specs.Kept.{IsKeptBy};
ghost use Rattle.cp_poles.specs.Layers.{layers, leaders};

use crate::cycles::{mark_cycle, permutation, unmarked};
use cp_base::{CycList, Memory};
use std::alloc::Global;

// The least place of each cycle, rising, where all cycles have this length. Linear.
fn least_places(alloc: Global, to: &[usize], size: usize) -> Result<Vec<usize>, Memory>
    requires permutes { IsPerm to.now }
    requires one_length { HaveLength to.now size }
    ensures { IfOk result (λ least. least.items ≡ leaders (slice_index to.now) size (range_with_len 0 (length to.now))) }
{
    let mut seen = unmarked(alloc, to.len())?;
    let mut least = Vec::new(alloc);
    for at in 0..to.len() {
        if !seen[at] {
            least.push(at)?;
            mark_cycle(to, &mut seen, at, size);
        }
    }
    Ok(least)
}

// The least places of the cycles, behind them the places to which these go, and so on through all places. Linear.
fn rows_from(to: &[usize], least: Vec<usize>, size: usize) -> Result<Vec<usize>, Memory>
    requires some { 0 < length to.now }
    requires permutes { IsPerm to.now }
    requires one_length { HaveLength to.now size }
    requires least { least.items ≡ leaders (slice_index to.now) size (range_with_len 0 (length to.now)) }
    ensures { IfOk result (λ rows. rows.items ≡ layers (slice_index to.now) size least.items) }
{
    let count = least.len();
    let mut rows = least;
    for k in count..to.len() {
        rows.push(to[rows[k - count]])?;
    }
    Ok(rows)
}

// The places by rows of the cycles, which all have one length: the permutation takes this order to a turn of itself.
// Linear.
pub(crate) fn rows_of_cycles(alloc: Global, to: &[usize]) -> Result<Vec<usize>, Memory>
    requires permutes { IsPerm to.now }
    requires one_length { (size : ℕ) × HaveLength to.now size }
    ensures { IfOk result (λ rows. IsKeptBy to.now rows.items) }
{
    if to.is_empty() {
        return Ok(Vec::new(alloc));
    }
    let perm = permutation(alloc, to)?;
    let size = perm.cycle_length(0);
    let least = least_places(alloc, to, size)?;
    let rows = rows_from(to, least, size)?;
    Ok(rows)
}

// The edges at some places.
pub(crate) fn edges_at_places(
    alloc: Global,
    edges: &[usize],
    places: &[usize],
) -> Result<CycList, Memory>
    requires { All (λ k. k < length edges.now) places.now }
    ensures { IfOk result (λ list. list ≡ map (slice_index edges.now) places.now) }
{
    let mut names = Vec::new(alloc);
    for k in places {
        names.push(edges[*k])?;
    }
    CycList::from_slice(alloc, names.as_slice())
}
