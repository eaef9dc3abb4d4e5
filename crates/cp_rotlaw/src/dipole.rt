// Dipoles of genus zero.
ghost use Rattle.std.specs.Prelude.{◌≡◌, ◌↔◌, ◌/◌, ◌<◌, IfOk, IsTrue, List, map};
ghost use Rattle.cp_rot.specs.Genus.{HasGenusZero};
ghost use Rattle.cp_rotlaw.specs.Dipoles.{IsDipole, AreReverse};

use cp_base::{CycList, Memory};
use cp_rot::Rot;
use std::alloc::Global;

// The edges of the darts.
pub(crate) fn edges_of(alloc: Global, items: &[usize]) -> Result<CycList, Memory>
    ensures { IfOk result (λ list. list ≡ map (λ d. d / 2) items.now) }
{
    let edges: Vec<usize> = items.iter().map(|d| *d / 2).collect(alloc)?;
    CycList::from_slice(alloc, edges.as_slice())
}

// Whether the edges stand round vertex 1 in the reverse of the order that they have round vertex 0.
fn lists_are_reverse(alloc: Global, a: &Rot) -> Result<bool, Memory>
    requires { 1 < a.now.vertices }
    ensures { IfOk result (λ are. IsTrue are ↔ AreReverse a.now) }
{
    let first = edges_of(alloc, a.list(0).items())?;
    let second = edges_of(alloc, a.list(1).items())?;
    let reversed = first.reversed(alloc)?;
    Ok(reversed.same_cycle(&second))
}

/// Whether the edges of a dipole stand round its second vertex in the reverse of the order that they
/// have round the first, up to turning, which is so exactly where its genus is zero. Linear in the
/// number of edges.
pub fn dipole_reversed(alloc: Global, a: &Rot) -> Result<bool, Memory>
    requires { IsDipole a.now }
    ensures reverse { IfOk result (λ is. IsTrue is ↔ AreReverse a.now) }
    ensures genus { IfOk result (λ is. IsTrue is ↔ HasGenusZero a.now) }
{
    a.is_rotation();
    lists_are_reverse(alloc, a)
}
