// The rotation system of the inner vertices after Join: those of the first end before those of the second.
ghost use Rattle.std.specs.Prelude.{◌≡◌, ◌<◌, ◌+◌, ◌^◌, ◌++◌, true, false, length, map, replicate, IfOk, OnOk};
ghost use Rattle.std.specs.List.{All, Contains};
ghost use Rattle.std.specs.List.Sorted.{IsStrictlyIncreasing};
ghost use Rattle.cp_board.specs.Solutions.{list_in};
ghost use Rattle.cp_rotlaw.specs.SideOrders.{IsSideOrder};
ghost use Rattle.cp_join.specs.InnerSystems.{HasInnerLists, first_marks, hat_darts, inner_at, inner_system};

use crate::edge_places::{part_place, parts_by_edge};
use crate::parted_ends::Parting;
use crate::vertex_parts::place_of;
use cp_base::{CycList, Memory};
use cp_rot::Rot;
use cp_rotlaw::merge_side;
use cp_sync::Solution;
use std::alloc::Global;

// The place of the inner vertex of each dart of the new edges. n log n in the number of pairs and edges of the parts.
fn inner_ends(
    alloc: Global,
    pairs: &[(usize, usize)],
    first: &Parting,
    second: &Parting,
) -> Result<Vec<usize>, Memory>
    requires few_first { length first.now.parts < 2 ^ 60 }
    requires few_second { length second.now.parts < 2 ^ 60 }
    ensures { IfOk result (λ at. at.items ≡ inner_at pairs.now first.now second.now) }
{
    let number = first.parts.len();
    let firsts = parts_by_edge(alloc, &first.parts)?;
    let seconds = parts_by_edge(alloc, &second.parts)?;
    let mut at = Vec::new(alloc);
    for k in 0..pairs.len() {
        let (x, y) = pairs[k];
        at.push(part_place(&firsts, &first.parts, x))?;
        at.push(number + part_place(&seconds, &second.parts, y))?;
    }
    Ok(at)
}

// The darts of new edges at one of their ends. Logarithmic for each.
fn darts_of_hats(
    alloc: Global,
    hats: &[usize],
    end: usize,
    list: &[usize],
) -> Result<CycList, Memory>
    requires rising { IsStrictlyIncreasing hats.now }
    requires live { All (Contains hats.now) list.now }
    requires end { end < 2 }
    ensures { IfOk result (λ darts. darts ≡ hat_darts hats.now end list.now) }
{
    let mut darts = Vec::new(alloc);
    for edge in list {
        darts.push(2 * place_of(hats, *edge) + end)?;
    }
    CycList::from_slice(alloc, darts.as_slice())
}

// Adds the darts of the lists of some inner vertices. Linear in these lists, up to a logarithm.
fn push_lists(
    alloc: Global,
    hats: &[usize],
    end: usize,
    verts: &[usize],
    after: &Solution,
    lists: &mut Vec<CycList>,
) -> Result<(), Memory>
    requires rising { IsStrictlyIncreasing hats.now }
    requires names { All (Contains (map (λ row. row.0) after.now)) verts.now }
    requires live { All (λ v. All (Contains hats.now) (list_in after.now v)) verts.now }
    requires end { end < 2 }
    ensures { OnOk result (lists.new.items
        ≡ lists.old.items ++ map (λ v. hat_darts hats.now end (list_in after.now v)) verts.now) }
{
    for v in verts {
        lists.push(darts_of_hats(alloc, hats, end, after.list_of(*v).items())?)?;
    }
    Ok(())
}

// As many marks as there are vertices of both ends: those of the first are set. Linear.
fn marks_of(alloc: Global, first: usize, second: usize) -> Result<Vec<bool>, Memory>
    ensures { IfOk result (λ marks. marks.items ≡ replicate first true ++ replicate second false) }
{
    let mut marks = vec![in alloc; true; first]?;
    for _k in 0..second {
        marks.push(false)?;
    }
    Ok(marks)
}

// The rotation system of the inner vertices. n log n in the number of pairs and edges of the parts, and linear in the
// numbers of inner vertices.
fn inner_rot(
    alloc: Global,
    pairs: &[(usize, usize)],
    hats: &[usize],
    first: &Parting,
    second: &Parting,
    after: &Solution,
) -> Result<Rot, Memory>
    requires { HasInnerLists pairs.now hats.now first.now second.now after.now }
    ensures { IfOk result (λ rot. rot ≡ inner_system pairs.now hats.now first.now second.now (list_in after.now)) }
{
    let at = inner_ends(alloc, pairs, first, second)?;
    let mut lists = Vec::new(alloc);
    push_lists(alloc, hats, 0, first.inner.items(), after, &mut lists)?;
    push_lists(alloc, hats, 1, second.inner.items(), after, &mut lists)?;
    let rot = Rot::from_rotation(alloc, at.as_slice(), lists.as_slice())?;
    Ok(rot)
}

// One order of the new edges, by their places: with it the inner vertices of the first end can be made one vertex. One
// walk over the new edges for each of these vertices, and n log n in their number beside that.
pub(crate) fn common_order(
    alloc: Global,
    pairs: &[(usize, usize)],
    hats: &[usize],
    first: &Parting,
    second: &Parting,
    after: &Solution,
) -> Result<CycList, Memory>
    requires { HasInnerLists pairs.now hats.now first.now second.now after.now }
    ensures { IfOk result (λ order.
        IsSideOrder (inner_system pairs.now hats.now first.now second.now (list_in after.now))
        (first_marks first.now second.now) order) }
{
    let rot = inner_rot(alloc, pairs, hats, first, second, after)?;
    let marks = marks_of(alloc, first.inner.len(), second.inner.len())?;
    let order = merge_side(alloc, &rot, marks.as_slice())?;
    Ok(order)
}
