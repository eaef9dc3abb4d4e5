// The fifth rule of an instance: the pairs of a pipe are a bijection, and rise by their first edges.
ghost use Rattle.std.specs.Prelude.{◌≡◌, true, false, length, map, IfOk, MatchOption};
ghost use Rattle.std.specs.List.{All, Contains};
ghost use Rattle.std.specs.List.Sorted.{IsStrictlyIncreasing};
ghost use Rattle.cp_board.specs.Instances.{names_of_verts};
ghost use Rattle.cp_sync.specs.Checks.{AllBelow, AllRise, ArePairs, HasRightPartners, IsFirstFailing};

use crate::lists::{are_equal, arranges};
use crate::named::lower_place;
use cp_base::Memory;
use cp_board::{Names, Pipe, Vert};
use std::alloc::Global;

// The first edges of the pairs.
fn firsts_of(alloc: Global, pairs: &[(usize, usize)]) -> Result<Vec<usize>, Memory>
    ensures { IfOk result (λ names. names.items ≡ map (λ x. x.0) pairs.now) }
{
    let mut names = Vec::new(alloc);
    for pair in pairs {
        names.push(pair.0)?;
    }
    Ok(names)
}

// The second edges of the pairs.
fn seconds_of(alloc: Global, pairs: &[(usize, usize)]) -> Result<Vec<usize>, Memory>
    ensures { IfOk result (λ names. names.items ≡ map (λ x. x.1) pairs.now) }
{
    let mut names = Vec::new(alloc);
    for pair in pairs {
        names.push(pair.1)?;
    }
    Ok(names)
}

// Whether the pairs tell one partner among the second edges for each of the first edges, in their order. Linear, up
// to a logarithm.
pub(crate) fn are_pairs(
    alloc: Global,
    firsts: &[usize],
    seconds: &[usize],
    pairs: &[(usize, usize)],
) -> Result<bool, Memory>
    requires { IsStrictlyIncreasing seconds.now }
    ensures yes { IfOk result (λ b. b ≡ true → ArePairs firsts.now seconds.now pairs.now) }
    ensures no { IfOk result (λ b. b ≡ false → ¬ ArePairs firsts.now seconds.now pairs.now) }
{
    let first = firsts_of(alloc, pairs)?;
    if !are_equal(first.as_slice(), firsts) {
        return Ok(false);
    }
    let second = seconds_of(alloc, pairs)?;
    Ok(arranges(alloc, seconds, second.as_slice())?)
}

// The place of the first pipe whose pairs are not right at its ends. Linear in the pairs, up to a logarithm.
pub(crate) fn first_wrong_pairs(
    alloc: Global,
    verts: &[Vert],
    pipes: &[Pipe],
    at: &[Names],
) -> Result<Option<usize>, Memory>
    requires rising { IsStrictlyIncreasing (names_of_verts verts.now) }
    requires one_each { length at.now ≡ length verts.now }
    requires lists_rise { AllRise at.now }
    requires live { All (λ p. Contains (names_of_verts verts.now) p.a × Contains (names_of_verts verts.now) p.b) pipes.now }
    ensures { IfOk result (λ found. MatchOption found (AllBelow (HasRightPartners verts.now at.now pipes.now) (length pipes.now)) (IsFirstFailing (HasRightPartners verts.now at.now pipes.now) (length pipes.now))) }
{
    for k in 0..pipes.len() {
        let a = lower_place(verts, pipes[k].a);
        let b = lower_place(verts, pipes[k].b);
        if !are_pairs(alloc, at[a].items(), at[b].items(), pipes[k].pairs.items())? {
            return Ok(Some(k));
        }
    }
    Ok(None)
}
