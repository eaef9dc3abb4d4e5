// The stored table of whatever tells a rotation system.
ghost use Rattle.std.specs.Prelude.{◌≡◌, ◌<◌, IfOk};
ghost use Rattle.cp_rot.specs.Systems.{IsRotation, darts, list_of};

use crate::system::RotationSystem;
use cp_base::{CycList, Memory};
use std::alloc::Global;

// The vertices at which the darts stand.
pub(crate) fn vertices_of_darts<T: RotationSystem>(
    alloc: Global,
    t: &T,
) -> Result<Vec<usize>, Memory>
    ensures { IfOk result (λ at. at.items ≡ (T.system t.now).at) }
{
    let mut at = Vec::new(alloc);
    for d in 0..t.darts() {
        at.push(t.at(d))?;
    }
    Ok(at)
}

// The list of one vertex.
fn list_at<T: RotationSystem>(alloc: Global, t: &T, v: usize) -> Result<CycList, Memory>
    requires { v < (T.system t.now).vertices }
    ensures { IfOk result (λ list. list ≡ list_of (T.system t.now) v) }
{
    let mut items = Vec::new(alloc);
    for i in 0..t.degree(v) {
        items.push(t.item(v, i))?;
    }
    let list = CycList::from_slice(alloc, items.as_slice())?;
    Ok(list)
}

// The lists of all vertices.
pub(crate) fn lists_of<T: RotationSystem>(alloc: Global, t: &T) -> Result<Vec<CycList>, Memory>
    ensures lists { IfOk result (λ lists. lists.items ≡ (T.system t.now).lists) }
    ensures rotation { IfOk result (λ _. IsRotation (T.system t.now)) }
{
    let mut lists = Vec::new(alloc);
    for v in 0..t.vertices() {
        lists.push(list_at(alloc, t, v)?)?;
    }
    Ok(lists)
}
