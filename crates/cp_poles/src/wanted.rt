// The order that one end of a pipe must have for the list of the other.
ghost use Rattle.std.specs.Prelude.{◌≡◌, ◌+◌, eqb, true, false, map, reverse, IfOk};
ghost use Rattle.std.specs.List.{Contains};
ghost use Rattle.cp_board.specs.Instances.{pairs_of, pipe_ends_of, pipe_names};
ghost use Rattle.cp_board.specs.Solutions.{list_in};
ghost use Rattle.cp_poles.specs.Wanted.{other_of, partner_in, wanted_by};

use cp_base::{CycList, Memory};
use cp_sync::{Board, Solution};
use std::alloc::Global;

// The second edge of the pair of a first edge. Linear in the pairs.
fn second_of(pairs: &[(usize, usize)], x: usize) -> usize
    ensures { result ≡ partner_in pairs.now true x }
{
    for (a, b) in pairs {
        if *a == x {
            return *b;
        }
    }
    0
}

// The first edge of the pair of a second edge. Linear in the pairs.
fn first_of(pairs: &[(usize, usize)], x: usize) -> usize
    ensures { result ≡ partner_in pairs.now false x }
{
    for (a, b) in pairs {
        if *b == x {
            return *a;
        }
    }
    0
}

// The partner of an edge: of a first edge the second, or of a second edge the first. Linear in the pairs.
fn partner_of(pairs: &[(usize, usize)], first: bool, x: usize) -> usize
    ensures { result ≡ partner_in pairs.now first x }
{
    if first {
        second_of(pairs, x)
    } else {
        first_of(pairs, x)
    }
}

// The partners of some edges. Linear in the pairs for each edge.
pub(crate) fn partners_of(
    alloc: Global,
    pairs: &[(usize, usize)],
    first: bool,
    list: &[usize],
) -> Result<CycList, Memory>
    ensures { IfOk result (λ partners. partners ≡ map (partner_in pairs.now first) list.now) }
{
    let mut partners = Vec::new(alloc);
    for x in list {
        partners.push(partner_of(pairs, first, *x))?;
    }
    CycList::from_slice(alloc, partners.as_slice())
}

// Of two ends the one that is not `end`.
pub(crate) fn other_end(ends: (usize, usize), end: usize) -> usize
    ensures { result ≡ other_of ends end }
{
    if ends.0 == end { ends.1 } else { ends.0 }
}

// The order that mirrors the list that the other end of the pipe has.
pub(crate) fn wanted_order<B: Board>(
    alloc: Global,
    board: &B,
    pipe: usize,
    end: usize,
    s: &Solution,
) -> Result<CycList, Memory>
    requires live { Contains (pipe_names (B.instance board.now)) pipe }
    requires listed { Contains (map (λ row. row.0) s.now) (other_of (pipe_ends_of (B.instance board.now) pipe) end) }
    ensures { IfOk result (λ order. order ≡ wanted_by (pipe_ends_of (B.instance board.now) pipe) (pairs_of (B.instance board.now) pipe) end (list_in s.now)) }
{
    let ends = board.pipe_ends(pipe);
    let other = other_end(ends, end);
    let list = s.list_of(other).items();
    let partners = partners_of(alloc, board.pairs(pipe), ends.0 == other, list)?;
    partners.reversed(alloc)
}
