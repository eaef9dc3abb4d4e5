// The third rule of an instance: the list of a Q-vertex arranges its edges and begins with the least.
ghost use Rattle.std.specs.Prelude.{◌≡◌, ℕ, ◌<◌, true, false, [], length, take, IfOk, MatchOption};
ghost use Rattle.std.specs.List.Sorted.{IsPermutation, IsStrictlyIncreasing};
ghost use Rattle.cp_sync.specs.Checks.{AllBelow, AllRise, IsFirstFailing, IsRightList, HasRightList};

use cp_base::Memory;
use cp_board::{Kind, Names, Vert};
use std::alloc::Global;

// Whether two lists are equal.
pub(crate) fn are_equal(xs: &[usize], ys: &[usize]) -> bool
    ensures yes { result ≡ true → xs.now ≡ ys.now }
    ensures no { result ≡ false → xs.now ≡ ys.now → ⊥ }
{
    if xs.len() != ys.len() {
        return false;
    }
    for k in 0..xs.len() {
        if xs[k] != ys[k] {
            return false;
        }
    }
    true
}

// Whether the list holds each of the edges, which rise, exactly once, and nothing else. Linear, up to a logarithm.
pub(crate) fn arranges(alloc: Global, edges: &[usize], list: &[usize]) -> Result<bool, Memory>
    requires { IsStrictlyIncreasing edges.now }
    ensures yes { IfOk result (λ b. b ≡ true → IsPermutation edges.now list.now) }
    ensures no { IfOk result (λ b. b ≡ false → ¬ IsPermutation edges.now list.now) }
{
    let mut sorted = Vec::from_slice(alloc, list)?;
    sorted.sort()?;
    Ok(are_equal(sorted.as_slice(), edges))
}

// Whether both lists are empty or have one first item.
fn begin_alike(xs: &[usize], ys: &[usize]) -> bool
    ensures yes { result ≡ true → take 1 xs.now ≡ take 1 ys.now }
    ensures no { result ≡ false → take 1 xs.now ≡ take 1 ys.now → ⊥ }
{
    if xs.len() == 0 {
        return ys.len() == 0;
    }
    if ys.len() == 0 {
        return false;
    }
    xs[0] == ys[0]
}

// Whether the list of a Q-vertex arranges its edges and begins with the first of them.
fn is_right_list(alloc: Global, edges: &[usize], kind: &Kind) -> Result<bool, Memory>
    requires { IsStrictlyIncreasing edges.now }
    ensures yes { IfOk result (λ b. b ≡ true → IsRightList edges.now kind.now) }
    ensures no { IfOk result (λ b. b ≡ false → ¬ IsRightList edges.now kind.now) }
{
    match kind {
        Kind::P => Ok(true),
        Kind::Q { psi, .. } => {
            let list = psi.items();
            if !arranges(alloc, edges, list)? {
                return Ok(false);
            }
            Ok(begin_alike(list, edges))
        }
    }
}

// The place of the first vertex whose list is not right. Linear in the vertices and their edges, up to a logarithm.
pub(crate) fn first_wrong_list(
    alloc: Global,
    verts: &[Vert],
    at: &[Names],
) -> Result<Option<usize>, Memory>
    requires one_each { length at.now ≡ length verts.now }
    requires rising { AllRise at.now }
    ensures { IfOk result (λ found. MatchOption found (AllBelow (HasRightList verts.now at.now) (length verts.now)) (IsFirstFailing (HasRightList verts.now at.now) (length verts.now))) }
{
    for k in 0..verts.len() {
        if !is_right_list(alloc, at[k].items(), &verts[k].kind)? {
            return Ok(Some(k));
        }
    }
    Ok(None)
}
