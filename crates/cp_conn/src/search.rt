// A search through a graph, breadth first.
ghost use Rattle.std.specs.Prelude.{◌≡◌, ℕ, ◌+◌, ◌*◌, ◌<◌, ◌≤◌, length, slice_index, IfOk, OnOk};
ghost use Rattle.cp_base.specs.Graphs.{AreWithin};
ghost use Rattle.cp_orbits.specs.Classes.{labels};
ghost use Rattle.cp_conn.specs.Darts.{start, finish, AreChained};
ghost use Rattle.cp_conn.specs.Search.{AreMet, AreNear, AreDone, HasGoneOn};

use crate::darts::{DartTable, dart_table, finish_of, start_of};
use cp_base::Memory;
use std::alloc::Global;

// Meets the vertex that the dart ends at, where it was not met before.
fn follow(
    ends: &[(usize, usize)],
    dart: usize,
    least: &mut Vec<usize>,
    queue: &mut Vec<usize>,
) -> Result<(), Memory>
    requires dart_within { dart < 2 * length ends.now }
    requires ends_within { AreWithin (length least.old.items) ends.now }
    requires met { AreMet ends.now (length least.old.items) least.old.items queue.old.items }
    requires begun { slice_index least.old.items (start ends.now dart) < length least.old.items }
    ensures goes_on { OnOk result (HasGoneOn ends.now (length least.old.items) least.old.items queue.old.items least.new.items queue.new.items) }
    ensures reached { OnOk result (slice_index least.new.items (finish ends.now dart) < length least.old.items) }
{
    let from = start_of(ends, dart);
    let to = finish_of(ends, dart);
    if least[to] >= least.len() {
        least[to] = least[from];
        queue.push(to)?;
    }
    Ok(())
}

// Meets all neighbours of a vertex that was met.
fn meet_neighbours(
    ends: &[(usize, usize)],
    darts: &DartTable,
    vertex: usize,
    least: &mut Vec<usize>,
    queue: &mut Vec<usize>,
) -> Result<(), Memory>
    requires chained { AreChained (length least.old.items) ends.now (2 * length ends.now) darts.now.entries.items darts.now.lower.items }
    requires ends_within { AreWithin (length least.old.items) ends.now }
    requires met { AreMet ends.now (length least.old.items) least.old.items queue.old.items }
    requires vertex_within { vertex < length least.old.items }
    requires begun { slice_index least.old.items vertex < length least.old.items }
    ensures goes_on { OnOk result (HasGoneOn ends.now (length least.old.items) least.old.items queue.old.items least.new.items queue.new.items) }
    ensures near { OnOk result (AreNear ends.now (length least.old.items) least.new.items vertex) }
{
    let mut entry = darts.entries[vertex];
    while entry > 0 {
        let dart = entry - 1;
        follow(ends, dart, least, queue)?;
        entry = darts.lower[dart];
    }
    Ok(())
}

// Meets all that the vertices of the queue lead to. The neighbours of the first `done` were met.
fn run_queue(
    ends: &[(usize, usize)],
    darts: &DartTable,
    mut done: usize,
    least: &mut Vec<usize>,
    queue: &mut Vec<usize>,
) -> Result<(), Memory>
    requires chained { AreChained (length least.old.items) ends.now (2 * length ends.now) darts.now.entries.items darts.now.lower.items }
    requires ends_within { AreWithin (length least.old.items) ends.now }
    requires met { AreMet ends.now (length least.old.items) least.old.items queue.old.items }
    requires within { done ≤ length queue.old.items }
    requires some_done { AreDone ends.now (length least.old.items) least.old.items queue.old.items done }
    ensures goes_on { OnOk result (HasGoneOn ends.now (length least.old.items) least.old.items queue.old.items least.new.items queue.new.items) }
    ensures all_done { OnOk result (AreDone ends.now (length least.old.items) least.new.items queue.new.items (length queue.new.items)) }
{
    while done < queue.len() {
        let vertex = queue[done];
        meet_neighbours(ends, darts, vertex, least, queue)?;
        done += 1;
    }
    Ok(())
}

// Meets the component of a vertex, where it was not met before. The vertices below it were met.
fn visit(
    ends: &[(usize, usize)],
    darts: &DartTable,
    vertex: usize,
    least: &mut Vec<usize>,
    queue: &mut Vec<usize>,
) -> Result<(), Memory>
    requires chained { AreChained (length least.old.items) ends.now (2 * length ends.now) darts.now.entries.items darts.now.lower.items }
    requires ends_within { AreWithin (length least.old.items) ends.now }
    requires met { AreMet ends.now (length least.old.items) least.old.items queue.old.items }
    requires vertex_within { vertex < length least.old.items }
    requires all_done { AreDone ends.now (length least.old.items) least.old.items queue.old.items (length queue.old.items) }
    requires lower_met { (x : ℕ) → x < vertex → slice_index least.old.items x < length least.old.items }
    ensures size { OnOk result (length least.new.items ≡ length least.old.items) }
    ensures met { OnOk result (AreMet ends.now (length least.old.items) least.new.items queue.new.items) }
    ensures all_done { OnOk result (AreDone ends.now (length least.old.items) least.new.items queue.new.items (length queue.new.items)) }
    ensures more_met { OnOk result ((x : ℕ) → x < vertex + 1 → slice_index least.new.items x < length least.old.items) }
{
    if least[vertex] >= least.len() {
        let done = queue.len();
        least[vertex] = vertex;
        queue.push(vertex)?;
        run_queue(ends, darts, done, least, queue)?;
    }
    Ok(())
}

// The least vertex of the component of each vertex. Linear in the numbers of vertices and edges.
pub(crate) fn least_connected(
    alloc: Global,
    vertices: usize,
    ends: &[(usize, usize)],
) -> Result<Vec<usize>, Memory>
    requires { AreWithin vertices ends.now }
    ensures size { IfOk result (λ least. length least.items ≡ vertices) }
    ensures labelled { IfOk result (λ least. (x : ℕ) → x < vertices → slice_index least.items x ≡ labels ends.now x) }
{
    let darts = dart_table(alloc, vertices, ends)?;
    let mut least = vec![in alloc; vertices; vertices]?;
    let mut queue = Vec::new(alloc);
    for vertex in 0..vertices {
        visit(ends, &darts, vertex, &mut least, &mut queue)?;
    }
    Ok(least)
}
