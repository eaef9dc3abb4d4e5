// The least names that are not live.
ghost use Rattle.std.specs.Prelude.{◌≡◌, ℕ, length, take, map, IfOk};
ghost use Rattle.std.specs.List.{filter, flat_map, range_with_len};
ghost use Rattle.cp_board.specs.Names.{new_names};
ghost use Rattle.cp_board.specs.Instances.{cell_of};
ghost use Rattle.cp_sync.specs.FreeNames.{TellLive, is_free};

use crate::named::Named;
use cp_base::Memory;
use cp_board::{Kind, Vert};
use std::alloc::Global;

// The names of the items. Linear.
pub(crate) fn names_of<T: Named>(alloc: Global, items: &[T]) -> Result<Vec<usize>, Memory>
    ensures { IfOk result (λ names. names.items ≡ map T.name items.now) }
{
    let mut names = Vec::new(alloc);
    for item in items {
        names.push(item.name())?;
    }
    Ok(names)
}

// The cells of the vertices, one time for each Q-vertex. Linear.
pub(crate) fn cells_of(alloc: Global, verts: &[Vert]) -> Result<Vec<usize>, Memory>
    ensures { IfOk result (λ cells. cells.items ≡ flat_map (λ v. cell_of v.kind) verts.now) }
{
    let mut cells = Vec::new(alloc);
    for v in verts {
        match &v.kind {
            Kind::P => {}
            Kind::Q { cell, .. } => cells.push(*cell)?,
        }
    }
    Ok(cells)
}

// For each number below `size` whether it is live. Linear in both.
fn live_below(alloc: Global, live: &[usize], size: usize) -> Result<Vec<bool>, Memory>
    ensures { IfOk result (λ table. TellLive live.now size table.items) }
{
    let mut table = vec![in alloc; false; size]?;
    for name in live {
        if *name < size {
            table[*name] = true;
        }
    }
    Ok(table)
}

// The first `n` numbers that the table does not tell as live. Linear.
fn first_free(alloc: Global, table: &[bool], n: usize) -> Result<Vec<usize>, Memory>
    ensures { IfOk result (λ names. names.items ≡ take n (filter (is_free table.now) (range_with_len 0 (length table.now)))) }
{
    let mut names = Vec::new(alloc);
    for k in 0..table.len() {
        if names.len() < n {
            if !table[k] {
                names.push(k)?;
            }
        }
    }
    Ok(names)
}

// The `n` least numbers that are not live, rising. Linear in `n` and the number of live ones.
pub(crate) fn least_free(alloc: Global, live: &[usize], n: usize) -> Result<Vec<usize>, Memory>
    ensures { IfOk result (λ names. names.items ≡ new_names live.now n) }
{
    // So many names have no room in memory.
    let Some(size) = live.len().checked_add(n) else {
        return Err(Memory);
    };
    let table = live_below(alloc, live, size)?;
    first_free(alloc, table.as_slice(), n)
}
