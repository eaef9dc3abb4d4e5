// Small systems for tests.
ghost use Rattle.std.specs.Prelude.{◌≡◌, ℕ, ◌<◌, ◌*◌, IsTrue, length, slice_index};

use cp_base::{CycList, Memory};
use cp_rot::{Rot, RotFault};
use std::alloc::Global;

pub(crate) type Lists = &'static [&'static [usize]];

// The vertices at which the darts stand, and the lists.
pub(crate) type Parts = (&'static [usize], Lists);

// Whether each number is below the bound.
fn are_below(numbers: &[usize], bound: usize) -> bool
    ensures { IsTrue result → (i : ℕ) → i < length numbers.now → slice_index numbers.now i < bound }
{
    numbers.iter().all(|number| *number < bound)
}

// Cyclic lists of the same items.
fn cyclic(alloc: Global, lists: Lists) -> Result<Vec<CycList>, Memory> {
    let mut own = Vec::new(alloc);
    for list in lists {
        own.push(CycList::from_slice(alloc, list)?)?;
    }
    Ok(own)
}

// The system of the lists. What is no input of `from_lists` answers as if memory were wanting.
pub(crate) fn system(alloc: Global, (at, lists): Parts) -> Result<Rot, RotFault> {
    let own = cyclic(alloc, lists)?;
    if at.len() % 2 != 0 || !are_below(at, own.len()) {
        return Err(RotFault::Memory);
    }
    Rot::from_lists(alloc, own.len(), at, own.as_slice())
}

// Whether these are the vertices of the darts and the lists of the system.
pub(crate) fn is_made_of(rot: &Rot, (at, lists): Parts) -> bool {
    if rot.darts() != at.len() || rot.vertices() != lists.len() {
        return false;
    }
    for d in 0..rot.darts() {
        if rot.at(d) != at[d] {
            return false;
        }
    }
    for v in 0..rot.vertices() {
        if rot.list(v).items() != lists[v] {
            return false;
        }
    }
    true
}
