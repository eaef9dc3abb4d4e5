// Splitting a vertex.
ghost use Rattle.std.specs.Prelude.{◌≡◌, ◌≢◌, ◌*◌, ◌/◌, ◌<◌, [], length, IfOk};
ghost use Rattle.cp_rot.specs.Systems.{IsRotation, list_of};
ghost use Rattle.cp_rot.specs.Genus.{HasGenusZero};
ghost use Rattle.cp_rot.specs.Tables.{system_of};
ghost use Rattle.cp_rotlaw.specs.Systems.{HasNoLoopAt};
ghost use Rattle.cp_rotlaw.specs.Stars.{IsStarSplit, HaveSameBlocks};

use crate::star_lists::{star_lists, star_rows, star_vertices};
use crate::star_parts::entered_parts;
use cp_base::{CycList, Memory};
use cp_rot::Rot;
use std::alloc::Global;

/// The system with vertex `u` split into one vertex for each component that an edge of `u` enters
/// once `u` is removed. Each gets the darts into its component, in the order that they had. The
/// vertex of the least edge keeps the number `u`; the others come behind all vertices, by their
/// least edges. All darts keep their numbers. The genus stays zero, and the blocks stay the same
/// (Whitney 1932). Linear in the numbers of vertices and darts.
pub fn star_split(alloc: Global, a: &Rot, u: usize) -> Result<Rot, Memory>
    requires vertex { u < a.now.vertices }
    requires plane { HasGenusZero a.now }
    requires edge { list_of a.now u ≢ [] }
    requires no_loop { HasNoLoopAt a.now u }
    ensures result { IfOk result (λ rot. IsStarSplit a.now u rot) }
    ensures genus { IfOk result HasGenusZero }
    ensures blocks { IfOk result (λ rot. HaveSameBlocks a.now rot) }
{
    prove!(u < a.vertices());
    let (entered, parts) = entered_parts(alloc, a, u)?;
    let at = star_vertices(alloc, a, u, entered.as_slice())?;
    let rows = star_rows(alloc, a, u, entered.as_slice(), parts)?;
    let lists = star_lists(alloc, a, u, rows.as_slice())?;
    Rot::from_rotation(alloc, at.as_slice(), lists.as_slice())
}
