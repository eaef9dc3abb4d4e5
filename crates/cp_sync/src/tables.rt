// What each vertex has, by its place.
ghost use Rattle.std.specs.Prelude.{◌≡◌, ◌≢◌, length, IfOk, OnOk, [], ◌∷◌, ◌++◌, ◌<◌, slice_index_or, slice_set};
ghost use Rattle.std.specs.List.{All, Contains};
ghost use Rattle.std.specs.List.Sorted.{IsStrictlyIncreasing};
ghost use Rattle.cp_board.specs.Instances.{names_of_verts};
ghost use Rattle.cp_sync.specs.Tables.{AreAdjacent, AreEmpty, IsPut};

use crate::named::lower_place;
use cp_base::Memory;
use cp_board::{EdgeRow, Names, Vert};
use std::alloc::Global;

// As many empty lists. Linear.
fn empty_lists(alloc: Global, n: usize) -> Result<Vec<Names>, Memory>
    ensures { IfOk result (λ lists. AreEmpty n lists.items) }
{
    let mut lists = Vec::new(alloc);
    'emptying: while lists.len() < n {
        lists.push(Names::new(alloc))?;
    }
    Ok(lists)
}

// Adds an edge to the list at a place.
fn push_at(at: &mut Vec<Names>, place: usize, edge: usize) -> Result<(), Memory>
    requires { place < length at.old.items }
    ensures { OnOk result (at.new.items ≡ slice_set at.old.items place (slice_index_or at.old.items place [] ++ edge ∷ [])) }
{
    at[place].push(edge)?;
    Ok(())
}

// Adds an edge to the lists of its two ends. Logarithmic.
fn put_edge(verts: &[Vert], e: EdgeRow, at: &mut Vec<Names>) -> Result<(), Memory>
    requires rising { IsStrictlyIncreasing (names_of_verts verts.now) }
    requires live { Contains (names_of_verts verts.now) e.a × Contains (names_of_verts verts.now) e.b }
    requires differ { e.a ≢ e.b }
    requires one_each { length at.old.items ≡ length verts.now }
    ensures { OnOk result (IsPut verts.now e at.old.items at.new.items) }
{
    push_at(at, lower_place(verts, e.a), e.name)?;
    push_at(at, lower_place(verts, e.b), e.name)?;
    Ok(())
}

// For each vertex the names of its edges, in the order of the edges. Linear in both, up to a logarithm.
pub(crate) fn adjacency(
    alloc: Global,
    verts: &[Vert],
    edges: &[EdgeRow],
) -> Result<Vec<Names>, Memory>
    requires rising { IsStrictlyIncreasing (names_of_verts verts.now) }
    requires live { All (λ e. Contains (names_of_verts verts.now) e.a × Contains (names_of_verts verts.now) e.b) edges.now }
    requires differ { All (λ e. e.a ≢ e.b) edges.now }
    ensures { IfOk result (λ at. AreAdjacent verts.now edges.now at.items) }
{
    let mut at = empty_lists(alloc, verts.len())?;
    for e in edges {
        put_edge(verts, *e, &mut at)?;
    }
    Ok(at)
}
