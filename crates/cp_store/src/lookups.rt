// What the parts of a store tell of one vertex, edge or pipe.
ghost use Rattle.std.specs.Prelude.{◌≡◌, IsTrue};
ghost use Rattle.cp_board.specs.Instances.{is_q, cell_at, psi_at, ends_of, pipe_ends_of, pairs_of};
ghost use Rattle.cp_store.specs.Parts.{told, AreTables};

use crate::parts::Parts;
use crate::table::item_under;
use cp_base::CycList;
use cp_board::Kind;

// Whether `v` is a Q-vertex.
pub(crate) fn has_list(parts: &Parts, v: usize) -> bool
    requires { AreTables parts.now }
    ensures { result ≡ is_q (told parts.now) v }
{
    match item_under(&parts.verts, v) {
        None => false,
        Some(x) => match &x.kind {
            Kind::P => false,
            Kind::Q { .. } => true,
        },
    }
}

// The cell of a Q-vertex.
pub(crate) fn cell_under(parts: &Parts, v: usize) -> usize
    requires { AreTables parts.now }
    ensures { result ≡ cell_at (told parts.now) v }
{
    match item_under(&parts.verts, v) {
        None => 0,
        Some(x) => match &x.kind {
            Kind::P => 0,
            Kind::Q { cell, .. } => *cell,
        },
    }
}

// The list of a Q-vertex.
pub(crate) fn psi_under(parts: &Parts, v: usize) -> &CycList
    requires tables { AreTables parts.now }
    requires list { IsTrue (is_q (told parts.now) v) }
    ensures { result.now ≡ psi_at (told parts.now) v }
{
    match item_under(&parts.verts, v) {
        None => unreachable!(),
        Some(x) => match &x.kind {
            Kind::P => unreachable!(),
            Kind::Q { psi, .. } => psi,
        },
    }
}

// The two ends of an edge.
pub(crate) fn ends_under(parts: &Parts, e: usize) -> (usize, usize)
    requires { AreTables parts.now }
    ensures { result ≡ ends_of (told parts.now) e }
{
    match item_under(&parts.edges, e) {
        None => (0, 0),
        Some(x) => (x.a, x.b),
    }
}

// The two ends of a pipe.
pub(crate) fn pipe_ends_under(parts: &Parts, p: usize) -> (usize, usize)
    requires { AreTables parts.now }
    ensures { result ≡ pipe_ends_of (told parts.now) p }
{
    match item_under(&parts.pipes, p) {
        None => (0, 0),
        Some(x) => (x.a, x.b),
    }
}

// The pairs of a pipe.
pub(crate) fn pairs_under(parts: &Parts, p: usize) -> &[(usize, usize)]
    requires { AreTables parts.now }
    ensures { result.now ≡ pairs_of (told parts.now) p }
{
    match item_under(&parts.pipes, p) {
        None => &[],
        Some(x) => x.pairs.items(),
    }
}
