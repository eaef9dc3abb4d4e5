// The first rule of an instance: names rise and fit.
ghost use Rattle.std.specs.Prelude.{◌≡◌, ℕ, ◌<◌, true, false, length, map, MatchOption};
ghost use Rattle.cp_board.specs.Faults.{IsNextName};
ghost use Rattle.cp_sync.specs.Checks.{AllBelow, IsFirstFailing, HasFittingCell, IsNextVert};

use crate::named::Named;
use cp_board::{Kind, Vert};

// Names and cells are below this number.
const NAMES: usize = 9223372036854775808;

// Whether the item at place `k` has a name that fits and is greater than those before it, which rise.
fn is_next_name<T: Named>(items: &[T], k: usize) -> bool
    requires within { k < length items.now }
    requires before { AllBelow (IsNextName (map T.name items.now)) k }
    ensures yes { result ≡ true → IsNextName (map T.name items.now) k }
    ensures no { result ≡ false → ¬ IsNextName (map T.name items.now) k }
{
    let name = items[k].name();
    if name >= NAMES {
        return false;
    }
    if k == 0 {
        return true;
    }
    items[k - 1].name() < name
}

// The place of the first item whose name does not fit or is not greater than those before it. Linear.
pub(crate) fn first_wrong_name<T: Named>(items: &[T]) -> Option<usize>
    ensures { MatchOption result (AllBelow (IsNextName (map T.name items.now)) (length items.now)) (IsFirstFailing (IsNextName (map T.name items.now)) (length items.now)) }
{
    for k in 0..items.len() {
        if !is_next_name(items, k) {
            return Some(k);
        }
    }
    None
}

// Whether the cell of a Q-vertex fits.
fn has_fitting_cell(kind: &Kind) -> bool
    ensures yes { result ≡ true → HasFittingCell kind.now }
    ensures no { result ≡ false → ¬ HasFittingCell kind.now }
{
    match kind {
        Kind::P => true,
        Kind::Q { cell, .. } => *cell < NAMES,
    }
}

// The place of the first vertex whose name or cell is wrong. Linear.
pub(crate) fn first_wrong_vert(verts: &[Vert]) -> Option<usize>
    ensures { MatchOption result (AllBelow (IsNextVert verts.now) (length verts.now)) (IsFirstFailing (IsNextVert verts.now) (length verts.now)) }
{
    for k in 0..verts.len() {
        if !is_next_name(verts, k) {
            return Some(k);
        }
        if !has_fitting_cell(&verts[k].kind) {
            return Some(k);
        }
    }
    None
}
