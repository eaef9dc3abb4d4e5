// The places of the vertices of a search tree in a bipolar order.
ghost use Rattle.std.specs.Prelude.{◌≡◌, ℕ, ◌+◌, ◌<◌, length, slice_index, IfOk};
ghost use Rattle.cp_ears.specs.Placing.{IsTree, ArePlaces, ShareRoom, IsPlacing, StandAt};

use cp_base::Memory;
use std::alloc::Global;

// Gives the room of a vertex to its parent too.
fn add_up(up: &[usize], vertex: usize, room: &mut Vec<usize>)
    requires within { vertex < length up.now }
    requires lower { slice_index up.now vertex < vertex }
    requires shared { ShareRoom (length up.now) up.now room.old.items (vertex + 1) }
    ensures { ShareRoom (length up.now) up.now room.new.items vertex }
{
    room[up[vertex]] += room[vertex];
}

// How many vertices are below each vertex, with itself.
fn sizes(alloc: Global, up: &[usize]) -> Result<Vec<usize>, Memory>
    requires some { 0 < length up.now }
    requires lower { (i : ℕ) → 0 < i → i < length up.now → slice_index up.now i < i }
    ensures { IfOk result (λ room. ShareRoom (length up.now) up.now room.items 1) }
{
    let mut room = vec![in alloc; 1; up.len()]?;
    let mut left = up.len();
    while left > 1 {
        left -= 1;
        add_up(up, left, &mut room);
    }
    Ok(room)
}

// Gives a vertex a part of the room of its parent: the front where its low point stands before the
// parent, the back where it stands behind.
fn put(up: &[usize], low: &[usize], vertex: usize, places: &mut Vec<usize>, room: &mut Vec<usize>)
    requires tree { IsTree (length up.now) up.now low.now }
    requires some { 0 < vertex }
    requires within { vertex < length up.now }
    requires placing { IsPlacing (length up.now) up.now low.now places.old.items room.old.items vertex }
    ensures { IsPlacing (length up.now) up.now low.now places.new.items room.new.items (vertex + 1) }
{
    let parent = up[vertex];
    let size = room[vertex];
    room[parent] -= size;
    if places[low[vertex]] < places[parent] {
        places[vertex] = places[parent];
        places[parent] += size;
    } else {
        places[vertex] = places[parent] + room[parent];
    }
}

// The place of each vertex: between its low point and its parent.
pub(crate) fn places_of(alloc: Global, up: &[usize], low: &[usize]) -> Result<Vec<usize>, Memory>
    requires some { 1 < length up.now }
    requires tree { IsTree (length up.now) up.now low.now }
    ensures { IfOk result (λ places. ArePlaces (length up.now) up.now low.now places.items) }
{
    let mut room = sizes(alloc, up)?;
    let mut places = vec![in alloc; 0; up.len()]?;
    for vertex in 1..up.len() {
        put(up, low, vertex, &mut places, &mut room);
    }
    Ok(places)
}

// The items, each at its place.
pub(crate) fn put_in_order(
    alloc: Global,
    items: &[usize],
    places: &[usize],
) -> Result<Vec<usize>, Memory>
    requires size { length places.now ≡ length items.now }
    requires within { (i : ℕ) → i < length items.now → slice_index places.now i < length items.now }
    requires apart { (i j : ℕ) → i < length items.now → j < length items.now → slice_index places.now i ≡ slice_index places.now j → i ≡ j }
    ensures { IfOk result (λ order. StandAt items.now places.now order.items (length items.now)) }
{
    let mut order = vec![in alloc; 0; items.len()]?;
    for i in 0..items.len() {
        order[places[i]] = items[i];
    }
    Ok(order)
}
