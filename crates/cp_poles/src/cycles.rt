// Lengths of the cycles of a permutation.
ghost use Rattle.std.specs.Prelude.{◌≡◌, ◌≢◌, ℕ, ◌<◌, true, false, IfOk, MatchOption, length, replicate, set, slice_index};
ghost use Rattle.cp_base.specs.Permutations.{IsPerm};
ghost use Rattle.cp_orbits.specs.Orbits.{CycleLength};
ghost use Rattle.cp_poles.specs.Cycles.{AreMarked, HaveLength, IsOtherLength};
ghost use Rattle.cp_poles.specs.Kept.{AddsCycle};

use cp_base::{Memory, Perm, PermFault};
use std::alloc::Global;

// A list that is a permutation, as one. Linear.
pub(crate) fn permutation(alloc: Global, to: &[usize]) -> Result<Perm, Memory>
    requires { IsPerm to.now }
    ensures { IfOk result (λ perm. perm ≡ to.now) }
{
    match Perm::from_slice(alloc, to) {
        Ok(perm) => Ok(perm),
        Err(PermFault::Memory) => Err(Memory),
        Err(PermFault::NotAPermutation { .. }) => unreachable!(),
    }
}

// Marks a place.
fn mark(seen: &mut Vec<bool>, at: usize)
    requires { at < length seen.old.items }
    ensures { seen.new.items ≡ set seen.old.items at true }
{
    seen[at] = true;
}

// Marks the places of the cycle of a place. Linear in its length.
pub(crate) fn mark_cycle(to: &[usize], seen: &mut Vec<bool>, start: usize, size: usize)
    requires permutes { IsPerm to.now }
    requires marks { AreMarked to.now size seen.old.items }
    requires within { start < length to.now }
    requires cycle { CycleLength (slice_index to.now) start size }
    ensures marks { AreMarked to.now size seen.new.items }
    ensures added { AddsCycle to.now start seen.old.items seen.new.items }
{
    let mut at = start;
    for step in 0..size {
        mark(seen, at);
        at = to[at];
    }
}

// The length of the cycle of a place, if it is not this one. Where the place is not marked, it walks the cycle.
fn visit(perm: &Perm, to: &[usize], seen: &mut Vec<bool>, at: usize, size: usize) -> Option<usize>
    requires permutes { IsPerm to.now }
    requires same { perm.now ≡ to.now }
    requires marks { AreMarked to.now size seen.old.items }
    requires within { at < length to.now }
    ensures told { MatchOption result (CycleLength (slice_index to.now) at size) (λ b. CycleLength (slice_index to.now) at b × (size ≢ b)) }
    ensures marks { AreMarked to.now size seen.new.items }
{
    if seen[at] {
        return None;
    }
    let length = perm.cycle_length(at);
    if length != size {
        return Some(length);
    }
    mark_cycle(to, seen, at, size);
    None
}

// A table without marks.
pub(crate) fn unmarked(alloc: Global, n: usize) -> Result<Vec<bool>, Memory>
    ensures { IfOk result (λ seen. seen.items ≡ replicate n false) }
{
    let seen = vec![in alloc; false; n]?;
    Ok(seen)
}

// The length of the cycle of the first place whose cycle has not this length. Linear, since it walks each cycle once.
fn other_length(
    alloc: Global,
    perm: &Perm,
    to: &[usize],
    size: usize,
) -> Result<Option<usize>, Memory>
    requires permutes { IsPerm to.now }
    requires same { perm.now ≡ to.now }
    ensures { IfOk result (λ found. MatchOption found (HaveLength to.now size) (IsOtherLength to.now size)) }
{
    let mut seen = unmarked(alloc, to.len())?;
    for at in 0..to.len() {
        match visit(perm, to, &mut seen, at, size) {
            Some(length) => return Ok(Some(length)),
            None => {}
        }
    }
    Ok(None)
}

// Where two cycles differ in length, the length of the cycle of place 0, and the first other one. Linear.
pub(crate) fn unequal_lengths(alloc: Global, to: &[usize]) -> Result<Option<(usize, usize)>, Memory>
    requires { IsPerm to.now }
    ensures { IfOk result (λ found. MatchOption found ((size : ℕ) × HaveLength to.now size) (λ x. CycleLength (slice_index to.now) 0 x.0 × IsOtherLength to.now x.0 x.1)) }
{
    if to.is_empty() {
        return Ok(None);
    }
    let perm = permutation(alloc, to)?;
    let first = perm.cycle_length(0);
    match other_length(alloc, &perm, to, first)? {
        Some(other) => Ok(Some((first, other))),
        None => Ok(None),
    }
}
