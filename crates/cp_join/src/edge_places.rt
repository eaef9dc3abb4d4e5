// The places of edges, told by tables: in which part an edge is, and where it stands in a list.
ghost use Rattle.std.specs.Prelude.{◌≡◌, ◌<◌, ℕ, cond, length, IfOk, OnOk};
ghost use Rattle.std.specs.List.{Contains};
ghost use Rattle.cp_conn.specs.NamedGraphs.{rank};
ghost use Rattle.cp_board.specs.Names.{has};
ghost use Rattle.cp_board.specs.Joins.{part_of, vertex_for};
ghost use Rattle.cp_join.specs.EdgePlaces.{place_in, TellsParts, TellsPlaces};

use cp_base::Memory;
use cp_conn::EdgeParts;
use std::alloc::Global;
use std::collections::BTreeMap;

// The place of each edge that has one.
pub(crate) type Places = BTreeMap<usize, usize>;

// Gives each edge of a part this place. Logarithmic for each.
fn place_part(part: &[usize], place: usize, places: &mut Places) -> Result<(), Memory>
    ensures { OnOk result ((none : ℕ) (e : ℕ)
        → place_in places.new none e ≡ cond (has part.now e) place (place_in places.old none e)) }
{
    for edge in part {
        places.insert(*edge, place)?;
    }
    Ok(())
}

// The table of the first part of each edge. n log n in the edges of the parts.
pub(crate) fn parts_by_edge(alloc: Global, parts: &EdgeParts) -> Result<Places, Memory>
    ensures { IfOk result (TellsParts parts.now) }
{
    let lists = parts.items();
    let mut places = BTreeMap::new(alloc);
    let mut left = lists.len();
    while left > 0 {
        left -= 1;
        place_part(lists[left].items(), left, &mut places)?;
    }
    Ok(places)
}

// The table of the first place of each edge. n log n in the edges.
pub(crate) fn places_by_edge(alloc: Global, edges: &[usize]) -> Result<Places, Memory>
    ensures { IfOk result (TellsPlaces edges.now) }
{
    let mut places = BTreeMap::new(alloc);
    let mut left = edges.len();
    while left > 0 {
        left -= 1;
        places.insert(edges[left], left)?;
    }
    Ok(places)
}

// The place of an edge, or `none`. Logarithmic.
fn place_or(places: &Places, none: usize, edge: usize) -> usize
    ensures { result ≡ place_in places.now none edge }
{
    places.get(&edge).copied().unwrap_or(none)
}

// The place of the part that has the edge, or the number of parts. Logarithmic in the number of edges.
pub(crate) fn part_place(places: &Places, parts: &EdgeParts, edge: usize) -> usize
    requires { TellsParts parts.now places.now }
    ensures { result ≡ part_of parts.now edge }
{
    place_or(places, parts.len(), edge)
}

// The vertex for the part of an edge. Logarithmic in the number of edges.
pub(crate) fn vertex_of(places: &Places, parts: &EdgeParts, verts: &[usize], edge: usize) -> usize
    requires told { TellsParts parts.now places.now }
    requires found { part_of parts.now edge < length verts.now }
    ensures { result ≡ vertex_for parts.now verts.now edge }
{
    verts[part_place(places, parts, edge)]
}

// The place of an edge among some. Logarithmic in their number.
pub(crate) fn place_among(places: &Places, edges: &[usize], edge: usize) -> usize
    requires told { TellsPlaces edges.now places.now }
    requires live { Contains edges.now edge }
    ensures value { result ≡ rank edges.now edge }
    ensures within { result < length edges.now }
{
    place_or(places, edges.len(), edge)
}
