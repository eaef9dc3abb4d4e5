// The second rule of an instance: the ends of an edge are two different vertices.
ghost use Rattle.std.specs.Prelude.{◌≡◌, ℕ, ◌<◌, true, false, [], length, MatchOption};
ghost use Rattle.std.specs.List.{Contains};
ghost use Rattle.std.specs.List.Sorted.{IsStrictlyIncreasing};
ghost use Rattle.cp_board.specs.Instances.{names_of_verts};
ghost use Rattle.cp_board.specs.Faults.{Keeps, Ends, EdgeAt, HasEnds};
ghost use Rattle.cp_sync.specs.Checks.{AllBelow, IsFirstFailing};

use crate::named::lower_place;
use cp_board::{EdgeRow, Vert};

// Whether a vertex has this name. Logarithmic.
pub(crate) fn is_live(verts: &[Vert], v: usize) -> bool
    requires { IsStrictlyIncreasing (names_of_verts verts.now) }
    ensures yes { result ≡ true → Contains (names_of_verts verts.now) v }
    ensures no { result ≡ false → ¬ Contains (names_of_verts verts.now) v }
{
    let place = lower_place(verts, v);
    if place == verts.len() {
        return false;
    }
    verts[place].name == v
}

// Whether the ends of an edge are two different vertices. Logarithmic.
fn has_ends(verts: &[Vert], e: EdgeRow) -> bool
    requires { IsStrictlyIncreasing (names_of_verts verts.now) }
    ensures yes { result ≡ true → HasEnds record { verts = verts.now; edges = []; pipes = [] } e }
    ensures no { result ≡ false → ¬ HasEnds record { verts = verts.now; edges = []; pipes = [] } e }
{
    if !is_live(verts, e.a) {
        return false;
    }
    if !is_live(verts, e.b) {
        return false;
    }
    e.a != e.b
}

// The place of the first edge whose ends are not two different vertices. Linear in the edges, up to a logarithm.
pub(crate) fn first_wrong_edge(verts: &[Vert], edges: &[EdgeRow]) -> Option<usize>
    requires { IsStrictlyIncreasing (names_of_verts verts.now) }
    ensures { MatchOption result (AllBelow (λ k. Keeps record { verts = verts.now; edges = edges.now; pipes = [] } Ends (EdgeAt k)) (length edges.now)) (IsFirstFailing (λ k. Keeps record { verts = verts.now; edges = edges.now; pipes = [] } Ends (EdgeAt k)) (length edges.now)) }
{
    for k in 0..edges.len() {
        if !has_ends(verts, edges[k]) {
            return Some(k);
        }
    }
    None
}
