// The darts of a graph, found by the vertex that they start at.
ghost use Rattle.std.specs.Prelude.{◌≡◌, ◌*◌, ◌<◌, length, IfOk};
ghost use Rattle.cp_base.specs.Graphs.{AreWithin};
ghost use Rattle.cp_conn.specs.Darts.{start, finish, AreChained};

use cp_base::Memory;
use std::alloc::Global;

// The vertex that a dart starts at.
pub(crate) fn start_of(ends: &[(usize, usize)], dart: usize) -> usize
    requires { dart < 2 * length ends.now }
    ensures { result ≡ start ends.now dart }
{
    let (first, second) = ends[dart / 2];
    if dart % 2 == 0 { first } else { second }
}

// The vertex that a dart ends at.
pub(crate) fn finish_of(ends: &[(usize, usize)], dart: usize) -> usize
    requires { dart < 2 * length ends.now }
    ensures { result ≡ finish ends.now dart }
{
    let (first, second) = ends[dart / 2];
    if dart % 2 == 0 { second } else { first }
}

// For each vertex one more than its highest dart, or 0; for each dart one more than the next lower
// dart that starts at the same vertex, or 0.
#[derive(Drop)]
pub(crate) struct DartTable {
    pub(crate) entries: Vec<usize>,
    pub(crate) lower: Vec<usize>,
}

// The table of all darts. Linear in the numbers of vertices and edges.
pub(crate) fn dart_table(
    alloc: Global,
    vertices: usize,
    ends: &[(usize, usize)],
) -> Result<DartTable, Memory>
    requires { AreWithin vertices ends.now }
    ensures { IfOk result (λ t. AreChained vertices ends.now (2 * length ends.now) t.entries.items t.lower.items) }
{
    let mut entries = vec![in alloc; 0; vertices]?;
    let mut lower = Vec::new(alloc);
    for dart in 0..2 * ends.len() {
        let vertex = start_of(ends, dart);
        lower.push(entries[vertex])?;
        entries[vertex] = dart + 1;
    }
    Ok(DartTable { entries, lower })
}
