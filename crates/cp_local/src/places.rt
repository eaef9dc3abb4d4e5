// Names and their places.
ghost use Rattle.std.specs.Prelude.{◌≡◌, ◌<◌, ◌^◌, length, slice_index, IfOk};
ghost use Rattle.std.specs.List.{Contains};
ghost use Rattle.std.specs.List.Sorted.{IsStrictlyIncreasing};
ghost use Rattle.cp_conn.specs.NamedGraphs.{rank};

use cp_base::{Items, Memory};
use cp_board::Names;
use std::alloc::Global;

/// The place of a name that is one of those that rise. Logarithmic.
pub fn place_of(names: &[usize], name: usize) -> usize
    requires rising { IsStrictlyIncreasing names.now }
    requires live { Contains names.now name }
    ensures value { result ≡ rank names.now name }
    ensures within { result < length names.now }
    ensures few { length names.now < 2 ^ 60 }
{
    match names.binary_search(&name) {
        Ok(place) => place,
        Err(_) => unreachable!(),
    }
}

// The item at a place.
pub(crate) fn item_at(items: &[usize], place: usize) -> usize
    requires { place < length items.now }
    ensures { result ≡ slice_index items.now place }
{
    items[place]
}

// The list of these names. Linear.
pub(crate) fn kept_names(alloc: Global, list: &[usize]) -> Result<Names, Memory>
    ensures { IfOk result (λ names. names ≡ list.now) }
{
    let mut names = Items::new(alloc);
    for name in list {
        names.push(*name)?;
    }
    Ok(names)
}
