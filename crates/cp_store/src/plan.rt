// The exchanges that a rewrite makes.
ghost use Rattle.std.specs.Prelude.{◌≡◌, ◌++◌, map, OnOk, IfOk};
ghost use Rattle.cp_store.specs.Rewriting.{kept, gone};
ghost use Rattle.cp_store.specs.Parts.{IsPlanOf};

use crate::copies::Part;
use crate::entry::Entry;
use crate::links::no_roots;
use crate::named::Named;
use crate::parts::Change;
use cp_base::Memory;
use cp_board::Rewrite;
use std::alloc::Global;

// Appends entries without items, by their names. Linear.
fn push_gone<T: Drop>(names: &[usize], to: &mut Vec<Entry<T>>) -> Result<(), Memory>
    ensures { OnOk result (to.new.items ≡ to.old.items ++ map gone names.now) }
{
    for name in names {
        to.push(Entry {
            name: *name,
            item: None,
        })?;
    }
    Ok(())
}

// Appends entries of copies of the items. Linear in them.
pub(crate) fn push_kept<T: Named + Part + Drop>(
    alloc: Global,
    items: &[T],
    to: &mut Vec<Entry<T>>,
) -> Result<(), Memory>
    ensures { OnOk result (to.new.items ≡ to.old.items ++ map (kept T.name) items.now) }
{
    for item in items {
        to.push(Entry {
            name: item.name(),
            item: Some(item.copied(alloc)?),
        })?;
    }
    Ok(())
}

// The exchanges of a rewrite, beside its moves, with copies of all that it brings. Linear in the rewrite.
pub(crate) fn plan_of(alloc: Global, w: &Rewrite) -> Result<Change, Memory>
    ensures { IfOk result (IsPlanOf w.now) }
{
    let mut verts = Vec::new(alloc);
    push_gone(w.drop_verts.items(), &mut verts)?;
    push_kept(alloc, w.set_kinds.items(), &mut verts)?;
    push_kept(alloc, w.add_verts.items(), &mut verts)?;
    let mut edges = Vec::new(alloc);
    push_kept(alloc, w.add_edges.items(), &mut edges)?;
    let mut pipes = Vec::new(alloc);
    push_kept(alloc, w.add_pipes.items(), &mut pipes)?;
    push_gone(w.drop_pipes.items(), &mut pipes)?;
    Ok(Change {
        verts,
        moved: Vec::new(alloc),
        edges,
        pipes,
        roots: no_roots(),
        mark: 0,
    })
}
