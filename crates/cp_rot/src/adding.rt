// The vertices and lists with an edge more.
ghost use Rattle.std.specs.Prelude.{◌≡◌, ℕ, ◌<◌, ◌==◌, cond, IfOk, length};
ghost use Rattle.cp_rot.specs.Systems.{IsRotation};
ghost use Rattle.cp_rot.specs.Tables.{system_of};
ghost use Rattle.cp_rot.specs.Rewrites.{values, with_behind, with_edge};
ghost use Rattle.cp_rot.specs.RewriteTables.{inserted_list};

use cp_base::{CycList, Memory};
use std::alloc::Global;

// The items with b directly behind a.
fn items_with_behind(
    alloc: Global,
    items: &[usize],
    a: usize,
    b: usize,
) -> Result<Vec<usize>, Memory>
    ensures { IfOk result (λ new. new.items ≡ with_behind a b items.now) }
{
    let mut new = Vec::new(alloc);
    for x in items {
        new.push(*x)?;
        if *x == a {
            new.push(b)?;
        }
    }
    Ok(new)
}

// The lists with x directly behind d, and then y directly behind g.
fn lists_with_behind(
    alloc: Global,
    lists: &[CycList],
    d: usize,
    x: usize,
    g: usize,
    y: usize,
) -> Result<Vec<CycList>, Memory>
    ensures { IfOk result (λ new. new.items ≡ values (length lists.now) (inserted_list lists.now d x g y)) }
{
    let mut new = Vec::new(alloc);
    for v in 0..lists.len() {
        let first = items_with_behind(alloc, lists[v].items(), d, x)?;
        let both = items_with_behind(alloc, first.as_slice(), g, y)?;
        new.push(CycList::from_slice(alloc, both.as_slice())?)?;
    }
    Ok(new)
}

// Behind which dart the second dart of the edge stands, x being its first.
fn before_second(d: usize, f: usize, x: usize) -> usize
    ensures { result ≡ cond (f == d) x f }
{
    if f == d { x } else { f }
}

// The vertices at which the darts stand and the lists, with an edge from behind d to behind f.
pub(crate) fn with_edge_between(
    alloc: Global,
    at: &[usize],
    lists: &[CycList],
    d: usize,
    f: usize,
) -> Result<(Vec<usize>, Vec<CycList>), Memory>
    requires rotation { IsRotation (system_of at.now lists.now) }
    requires first { d < length at.now }
    requires second { f < length at.now }
    ensures { IfOk result (λ new. system_of new.0.items new.1.items ≡ with_edge (system_of at.now lists.now) d f) }
{
    let x = at.len();
    let g = before_second(d, f, x);
    let mut new_at = Vec::from_slice(alloc, at)?;
    new_at.push(at[d])?;
    new_at.push(at[f])?;
    let new_lists = lists_with_behind(alloc, lists, d, x, g, x + 1)?;
    Ok((new_at, new_lists))
}
