// Permutations of the numbers below a bound.
ghost use Rattle.std.specs.Prelude.{◌≡◌, ℕ, ◌<◌, IfOk, IfErr, MatchOption, length, slice_index};
ghost use Rattle.cp_orbits.specs.Orbits.{CycleLength};
ghost use Rattle.cp_base.specs.Permutations.{IsPerm, IsWrongAt, IsPermFaultOf};

use crate::Memory;
use std::alloc::{AllocError, Global};
use std::marker::Model;

/// Why a list is no permutation.
#[derive(Clone, Copy, Debug, PartialEq, Eq)]
pub enum PermFault {
    /// The value at this place is out of range or stands at an earlier place too, and no earlier place
    /// has such a value.
    NotAPermutation { place: usize },
    /// An allocation failed.
    Memory,
}

impl From<AllocError> for PermFault {
    ghost use Rattle.cp_base.specs.declared.perm.PermFault.{PermFault};

    ghost from_gives = { λ _ fault. fault ≡ PermFault.Memory };

    fn from(_error: AllocError) -> PermFault {
        PermFault::Memory
    }
}

/// A permutation of the numbers below a bound, seen as the list of its values: item `i` is the value
/// of `i`.
#[derive(Debug, Drop)]
pub struct Perm {
    to: Vec<usize>,
}

impl Model for Perm {
    ghost use Rattle.std.specs.Prelude.{List, ℕ};
    ghost use Rattle.cp_base.specs.Permutations.{IsPerm};

    ghost Value = { List ℕ };

    ghost view = { λ perm. perm.to.items };

    ghost invariant = { λ perm. IsPerm perm.to.items };
}

// The first place whose value is wrong.
fn first_wrong(alloc: Global, to: &[usize]) -> Result<Option<usize>, AllocError>
    ensures { IfOk result (λ found. MatchOption found ((i : ℕ) → i < length to.now → ¬ IsWrongAt to.now i) (λ place. (place < length to.now) × IsWrongAt to.now place × ((i : ℕ) → i < place → ¬ IsWrongAt to.now i))) }
{
    let mut seen = vec![in alloc; false; to.len()]?;
    for i in 0..to.len() {
        let value = to[i];
        if value >= to.len() || seen[value] {
            return Ok(Some(i));
        }
        seen[value] = true;
    }
    Ok(None)
}

impl Perm {
    /// The permutation with these values. `NotAPermutation` names the least place whose value is out of
    /// range or stands at an earlier place too. Linear in the number of values.
    pub fn from_slice(alloc: Global, to: &[usize]) -> Result<Perm, PermFault>
        ensures values { IfOk result (λ perm. perm ≡ to.now) }
        ensures permutes { IfOk result (λ perm. IsPerm perm) }
        ensures fault { IfErr result (λ fault. IsPermFaultOf to.now fault) }
    {
        if let Some(place) = first_wrong(alloc, to)? {
            return Err(PermFault::NotAPermutation { place });
        }
        let to = Vec::from_slice(alloc, to)?;
        Ok(Perm { to })
    }

    /// The length of the cycle of `i`: after so many steps, and not after fewer, the permutation leads
    /// from `i` back to it. Linear in the answer.
    pub fn cycle_length(&self, i: usize) -> usize
        requires { i < length self.now }
        ensures { CycleLength (slice_index self.now) i result }
    {
        let to = self.to.as_slice();
        let mut at = to[i];
        let mut length = 1;
        while at != i {
            at = to[at];
            length += 1;
        }
        length
    }
}
