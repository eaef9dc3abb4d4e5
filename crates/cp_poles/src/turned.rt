// The map of a pipe between the poles of a bond, by the places of the edges of its first end.
ghost use Rattle.std.specs.Prelude.{◌≡◌, IfOk, Some, map};
ghost use Rattle.std.specs.List.{All, Contains};
ghost use Rattle.cp_board.specs.declared.parts.Pipe.{Pipe};
ghost use Rattle.cp_board.specs.Instances.{IsSynchronized, graph, pipe_named, vert_names};
ghost use Rattle.cp_conn.specs.Bonds.{IsBond};
ghost use Rattle.cp_poles.specs.Turned.{AreEndLists, AreOnward, IsTurningByPlace, place_back};

use crate::bonds::{along_bond, place_of};
use crate::small_pipes::seconds_of;
use cp_base::{CycList, Memory};
use cp_sync::Board;
use std::alloc::Global;

// The place of the first edge as which a second edge goes back. Logarithmic.
fn turned_place(firsts: &[usize], back: &[usize], seconds: &[usize], partner: usize) -> usize
    requires lists { AreEndLists firsts.now back.now seconds.now }
    requires live { Contains seconds.now partner }
    ensures { result ≡ place_back firsts.now back.now seconds.now partner }
{
    let through = back[place_of(seconds, partner)];
    place_of(firsts, through)
}

// The places of the first edges as which some second edges go back. Linear up to a logarithm.
fn turned_places(
    alloc: Global,
    firsts: &[usize],
    back: &[usize],
    seconds: &[usize],
    partners: &[usize],
) -> Result<Vec<usize>, Memory>
    requires lists { AreEndLists firsts.now back.now seconds.now }
    requires live { All (Contains seconds.now) partners.now }
    ensures { IfOk result (λ places. places.items ≡ map (place_back firsts.now back.now seconds.now) partners.now) }
{
    let mut places = Vec::new(alloc);
    for partner in partners {
        places.push(turned_place(firsts, back, seconds, *partner))?;
    }
    Ok(places)
}

// The edges as which the edges of `u` go on along a bond. Linear in the board, up to a logarithm.
fn onward<B: Board>(alloc: Global, board: &B, u: usize, v: usize) -> Result<CycList, Memory>
    requires live_u { Contains (vert_names (B.instance board.now)) u }
    requires live_v { Contains (vert_names (B.instance board.now)) v }
    requires bond { IsBond (graph (B.instance board.now)) u v }
    ensures { IfOk result (λ list. AreOnward (graph (B.instance board.now)) u v list) }
{
    let found = along_bond(alloc, board, u, v)?;
    match found {
        Some(along) => {
            let list = seconds_of(alloc, along.as_slice())?;
            Ok(list)
        }
        None => unreachable!(),
    }
}

// For the place of each edge of the first end of a pipe that of the edge that goes on, along the bond, as its partner.
// Linear in the board, up to a logarithm.
pub(crate) fn turning_places<B: Board>(
    alloc: Global,
    board: &B,
    pipe: usize,
) -> Result<Vec<usize>, Memory>
    requires bond { (p : Pipe) × (pipe_named (B.instance board.now) pipe ≡ Some p) × IsBond (graph (B.instance board.now)) p.a p.b }
    ensures turning { IfOk result (λ places. (p : Pipe) × (pipe_named (B.instance board.now) pipe ≡ Some p) × IsTurningByPlace (B.instance board.now) p places.items) }
    ensures rules { IsSynchronized (B.instance board.now) }
{
    let ends = board.pipe_ends(pipe);
    let back = onward(alloc, board, ends.1, ends.0)?;
    let pairs = board.pairs(pipe);
    let partners = seconds_of(alloc, pairs)?;
    let first = board.edges_at(alloc, ends.0)?;
    let second = board.edges_at(alloc, ends.1)?;
    let firsts = first.as_slice();
    let seconds = second.as_slice();
    let there = partners.items();
    let places = turned_places(alloc, firsts, back.items(), seconds, there)?;
    Ok(places)
}
