// What an end of a pipe becomes.
ghost use Rattle.std.specs.Prelude.{◌≡◌, ◌*◌, ◌<◌, ◌^◌, length, take, drop, IfOk};
ghost use Rattle.cp_join.specs.Partings.{AreParted};

use cp_base::{Items, Memory};
use cp_board::{NameKind, Names};
use cp_conn::EdgeParts;
use cp_sync::Board;
use std::alloc::Global;

// What an end of a pipe becomes: its parts, and for each an outer vertex, an inner vertex and a pipe.
#[derive(Drop)]
pub(crate) struct Parting {
    // The edges of each part.
    pub(crate) parts: EdgeParts,
    // The outer vertex of each part.
    pub(crate) outer: Names,
    // The inner vertex of each part.
    pub(crate) inner: Names,
    // The pipe of each part.
    pub(crate) names: Names,
}

// The list of these numbers. Linear.
fn listed(alloc: Global, numbers: &[usize]) -> Result<Names, Memory>
    ensures { IfOk result (λ list. list ≡ numbers.now) }
{
    let mut list = Items::new(alloc);
    for number in numbers {
        list.push(*number)?;
    }
    Ok(list)
}

// The parting of an end with these parts, new vertices, outer before inner ones, and new pipes. Linear.
fn parting_of(
    alloc: Global,
    parts: EdgeParts,
    verts: &[usize],
    pipes: &[usize],
) -> Result<Parting, Memory>
    requires verts { length verts.now ≡ 2 * length parts }
    ensures parts { IfOk result (λ s. s.parts ≡ parts) }
    ensures outer { IfOk result (λ s. s.outer ≡ take (length parts) verts.now) }
    ensures inner { IfOk result (λ s. s.inner ≡ drop (length parts) verts.now) }
    ensures names { IfOk result (λ s. s.names ≡ pipes.now) }
{
    let (outer, inner) = verts.split_at(parts.len());
    Ok(Parting {
        outer: listed(alloc, outer)?,
        inner: listed(alloc, inner)?,
        names: listed(alloc, pipes)?,
        parts,
    })
}

// The partings of both ends, with new names. Linear in what the board asks for these.
pub(crate) fn partings<B: Board>(
    alloc: Global,
    board: &B,
    first: EdgeParts,
    second: EdgeParts,
) -> Result<(Parting, Parting), Memory>
    requires few_first { length first < 2 ^ 60 }
    requires few_second { length second < 2 ^ 60 }
    ensures { IfOk result (λ r. AreParted (B.instance board.now) first second r.0 r.1) }
{
    let number = first.len();
    let all = number + second.len();
    let verts = board.free_names(alloc, NameKind::Vert, 2 * all)?;
    let pipes = board.free_names(alloc, NameKind::Pipe, all)?;
    let (first_verts, second_verts) = verts.as_slice().split_at(2 * number);
    let (first_pipes, second_pipes) = pipes.as_slice().split_at(number);
    let one = parting_of(alloc, first, first_verts, first_pipes)?;
    let two = parting_of(alloc, second, second_verts, second_pipes)?;
    Ok((one, two))
}
