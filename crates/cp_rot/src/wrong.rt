// Which of the lists that are to make a rotation system is the first wrong one.
ghost use Rattle.std.specs.Prelude.{◌≡◌, ℕ, ◌<◌, ◌≤◌, ◌↔◌, ◌==◌, ◌≢◌, Bool, true, false, IsTrue, IfOk, MatchOption, length, slice_index, slice_index_or};
ghost use Rattle.cp_lists.specs.Count.{count};
ghost use Rattle.cp_rot.specs.Systems.{Arranges};
ghost use Rattle.cp_rot.specs.Tables.{IsUnmarked};
ghost use Rattle.cp_rot.specs.FirstWrong.{IsRightList, IsFirstWrong};
ghost use Rattle.cp_rot.specs.Lists.{HasList};

use cp_base::{CycList, Memory};
use std::alloc::Global;

// For each vertex the number of darts that stand there.
fn degrees(alloc: Global, vertices: usize, at: &[usize]) -> Result<Vec<usize>, Memory>
    requires { (d : ℕ) → d < length at.now → slice_index at.now d < vertices }
    ensures length { IfOk result (λ counts. length counts.items ≡ vertices) }
    ensures counts { IfOk result (λ counts. (v : ℕ) → v < vertices → slice_index counts.items v ≡ count (length at.now) (λ d. slice_index at.now d == v)) }
{
    let mut counts = vec![in alloc; 0; vertices]?;
    for v in at {
        counts[*v] += 1;
    }
    Ok(counts)
}

// Whether the items are the darts that stand at vertex v, each once. None of these darts is marked as
// seen before, and the marks of all other darts stay as they are.
fn is_arrangement(at: &[usize], v: usize, degree: usize, items: &[usize], seen: &mut [bool]) -> bool
    requires degree { degree ≡ count (length at.now) (λ d. slice_index at.now d == v) }
    requires room { length at.now ≤ length seen.old }
    requires unseen { (d : ℕ) → slice_index at.now d ≡ v → IsUnmarked seen.old d }
    ensures exact { IsTrue result ↔ Arranges at.now v items.now }
    ensures seen { (d : ℕ) → slice_index at.now d ≢ v → slice_index_or seen.new d false ≡ slice_index_or seen.old d false }
{
    if items.len() != degree {
        return false;
    }
    for d in items {
        if *d >= at.len() || at[*d] != v || seen[*d] {
            return false;
        }
        seen[*d] = true;
    }
    true
}

// The first vertex whose list is wrong, among as many vertices as have lists.
fn first_wrong_below(
    at: &[usize],
    counts: &[usize],
    lists: &[CycList],
    seen: &mut [bool],
) -> Option<usize>
    requires counts { (v : ℕ) → v < length counts.now → slice_index counts.now v ≡ count (length at.now) (λ d. slice_index at.now d == v) }
    requires room { length at.now ≤ length seen.old }
    requires unseen { (d : ℕ) → IsUnmarked seen.old d }
    ensures { MatchOption result ((i : ℕ) → i < length counts.now → HasList at.now lists.now i) (λ v. (v < length counts.now) × ¬ HasList at.now lists.now v × ((i : ℕ) → i < v → HasList at.now lists.now i)) }
{
    for v in 0..counts.len() {
        if v >= lists.len() || !is_arrangement(at, v, counts[v], lists[v].items(), seen) {
            return Some(v);
        }
    }
    None
}

/// The first vertex whose list is missing, or is no arrangement of the darts that stand at the
/// vertex, or the number of the first list that has no vertex. `at` tells for each dart the number
/// of its vertex. `None` where each vertex has its list and each list its vertex. Linear in the
/// numbers of vertices, darts and items.
pub fn first_wrong(
    alloc: Global,
    vertices: usize,
    at: &[usize],
    lists: &[CycList],
) -> Result<Option<usize>, Memory>
    requires placed { (d : ℕ) → d < length at.now → slice_index at.now d < vertices }
    ensures { IfOk result (λ o. MatchOption o ((i : ℕ) → IsRightList vertices at.now lists.now i) (λ i. IsFirstWrong vertices at.now lists.now i)) }
{
    let counts = degrees(alloc, vertices, at)?;
    let mut seen = vec![in alloc; false; at.len()]?;
    if let Some(v) = first_wrong_below(at, counts.as_slice(), lists, seen.as_mut_slice()) {
        return Ok(Some(v));
    }
    if vertices < lists.len() {
        Ok(Some(vertices))
    } else {
        Ok(None)
    }
}
