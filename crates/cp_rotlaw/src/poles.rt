// The parts between two poles of a rotation system in another order.
ghost use Rattle.std.specs.Prelude.{◌≡◌, ◌<◌, IfOk, length};
ghost use Rattle.cp_conn.specs.Bonds.{IsBond};
ghost use Rattle.cp_rot.specs.Genus.{HasGenusZero};
ghost use Rattle.cp_rot.specs.Rewrites.{values};
ghost use Rattle.cp_rot.specs.Systems.{Arranges, darts, vertex_of};
ghost use Rattle.cp_rotlaw.specs.Poles.{IsPermutedAt, graph_of};

use crate::pole_rows::{permuted_lists, permuted_row};
use cp_base::{CycList, Memory};
use cp_rot::Rot;
use std::alloc::Global;

// The vertices at which the darts stand.
fn vertices_of_darts(alloc: Global, a: &Rot) -> Result<Vec<usize>, Memory>
    ensures { IfOk result (λ at. at.items ≡ values (darts a.now) (vertex_of a.now)) }
{
    let mut at = Vec::new(alloc);
    for d in 0..a.darts() {
        at.push(a.at(d))?;
    }
    Ok(at)
}

// The same, where there are two darts.
fn permuted(alloc: Global, a: &Rot, u: usize, v: usize, order: &[usize]) -> Result<Rot, Memory>
    requires first { u < a.now.vertices }
    requires second { v < a.now.vertices }
    requires plane { HasGenusZero a.now }
    requires bond { IsBond (graph_of a.now) u v }
    requires arranged { Arranges a.now.at u order.now }
    requires many { 1 < length order.now }
    ensures result { IfOk result (λ rot. IsPermutedAt a.now u v order.now rot) }
    ensures genus { IfOk result HasGenusZero }
{
    a.is_rotation();
    let at = vertices_of_darts(alloc, a)?;
    let row = permuted_row(alloc, a, u, v, order)?;
    let lists = permuted_lists(alloc, a, u, v, order, row.as_slice())?;
    Rot::from_rotation(alloc, at.as_slice(), lists.as_slice())
}

/// The system where the darts of vertex `u` stand in this order, and the parts behind them between `u`
/// and `v` in the same: `u` and `v` are the poles of a bond, so each dart of `u` leads to a part of its
/// own. The darts of `v` follow in reverse, those of one part in the order that they had, up to a turn;
/// darts of `v` to parts that no dart of `u` enters come first. The graph, the numbers of darts and all
/// other lists stay, and so does genus zero (Bläsius, Fink, Rutter 2021). Linear in the numbers of
/// vertices and darts.
pub fn permute_components(
    alloc: Global,
    a: &Rot,
    u: usize,
    v: usize,
    order: &CycList,
) -> Result<Rot, Memory>
    requires first { u < a.now.vertices }
    requires second { v < a.now.vertices }
    requires plane { HasGenusZero a.now }
    requires bond { IsBond (graph_of a.now) u v }
    requires arranged { Arranges a.now.at u order.now }
    ensures result { IfOk result (λ rot. IsPermutedAt a.now u v order.now rot) }
    ensures genus { IfOk result HasGenusZero }
{
    a.is_rotation();
    if order.items().len() < 2 {
        return Rot::stored(alloc, a);
    }
    permuted(alloc, a, u, v, order.items())
}
