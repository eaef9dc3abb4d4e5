// Copies of the parts of an instance.
ghost use Rattle.std.specs.Prelude.{◌≡◌, IfOk};

use cp_base::{CycList, Items, Memory};
use cp_board::{EdgeRow, Kind, Pipe, Vert};
use std::alloc::Global;

// What can be copied in memory of its own.
pub(crate) trait Part {
    // An equal part. Linear in its size.
    fn copied(&self, alloc: Global) -> Result<Self, Memory>
        ensures { IfOk result (λ copy. copy ≡ self.now) };
}

// A list of the same items. Linear in their number.
pub(crate) fn copied_items<T: Copy>(alloc: Global, items: &[T]) -> Result<Items<T>, Memory>
    ensures { IfOk result (λ list. list ≡ items.now) }
{
    let mut list = Items::new(alloc);
    for item in items {
        list.push(*item)?;
    }
    Ok(list)
}

// An equal kind. Linear in the length of its list.
fn copied_kind(alloc: Global, kind: &Kind) -> Result<Kind, Memory>
    ensures { IfOk result (λ copy. copy ≡ kind.now) }
{
    match kind {
        Kind::P => Ok(Kind::P),
        Kind::Q { cell, psi } => {
            let psi = CycList::from_slice(alloc, psi.items())?;
            Ok(Kind::Q { cell: *cell, psi })
        }
    }
}

impl Part for Vert {
    fn copied(&self, alloc: Global) -> Result<Self, Memory> {
        let kind = copied_kind(alloc, &self.kind)?;
        Ok(Vert {
            name: self.name,
            kind,
        })
    }
}

impl Part for EdgeRow {
    fn copied(&self, _alloc: Global) -> Result<Self, Memory> {
        Ok(*self)
    }
}

impl Part for Pipe {
    fn copied(&self, alloc: Global) -> Result<Self, Memory> {
        let pairs = copied_items(alloc, self.pairs.items())?;
        Ok(Pipe {
            name: self.name,
            a: self.a,
            b: self.b,
            pairs,
        })
    }
}
