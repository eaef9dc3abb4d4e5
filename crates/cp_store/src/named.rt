// Items in the order of their names, found by binary search.
ghost use Rattle.std.specs.Prelude.{◌≡◌, ℕ, eqb, map, find, Some, None, MatchOption};
ghost use Rattle.std.specs.List.Sorted.{IsStrictlyIncreasing};
ghost use Rattle.cp_sync.specs.Places.{IsLowerPlace};

use crate::entry::Entry;
use cp_board::{EdgeRow, Pipe, Vert};

// What has a name.
pub(crate) trait Named {
    // the name
    ghost name: { Self → ℕ };

    // The name.
    fn name(&self) -> usize
        ensures { result ≡ name self.now };
}

impl Named for Vert {
    ghost name = { λ v. v.name };

    fn name(&self) -> usize {
        self.name
    }
}

impl Named for EdgeRow {
    ghost name = { λ e. e.name };

    fn name(&self) -> usize {
        self.name
    }
}

impl Named for Pipe {
    ghost name = { λ p. p.name };

    fn name(&self) -> usize {
        self.name
    }
}

impl<T> Named for Entry<T> {
    ghost name = { λ e. e.name };

    fn name(&self) -> usize {
        self.name
    }
}

// The place of the first item whose name is not less than `name`. Logarithmic.
pub(crate) fn lower_place<T: Named>(items: &[T], name: usize) -> usize
    requires { IsStrictlyIncreasing (map T.name items.now) }
    ensures { IsLowerPlace (map T.name items.now) name result }
{
    let mut low = 0;
    let mut high = items.len();
    while low < high {
        let middle = low + (high - low) / 2;
        if items[middle].name() < name {
            low = middle + 1;
        } else {
            high = middle;
        }
    }
    low
}

// The item of this name, if there is one. Logarithmic.
pub(crate) fn item_named<T: Named>(items: &[T], name: usize) -> Option<&T>
    requires { IsStrictlyIncreasing (map T.name items.now) }
    ensures { MatchOption result (find (λ x. eqb (T.name x) name) items.now ≡ None) (λ found. find (λ x. eqb (T.name x) name) items.now ≡ Some found.now) }
{
    let place = lower_place(items, name);
    if place == items.len() {
        return None;
    }
    let item = &items[place];
    if item.name() == name {
        Some(item)
    } else {
        None
    }
}
