// Bonds of two vertices of a board.
ghost use Rattle.std.specs.Prelude.{◌≡◌, ◌≢◌, ◌↔◌, ℕ, ◌<◌, ◌^◌, length, false, true, IfOk, IsTrue, MatchOption, replicate, set};
ghost use Rattle.std.specs.List.{All, Contains};
ghost use Rattle.std.specs.List.Sorted.{IsStrictlyIncreasing};
ghost use Rattle.cp_board.specs.Instances.{IsSynchronized, edge_names, graph, vert_names};
ghost use Rattle.cp_conn.specs.Bonds.{IsBond};
ghost use Rattle.cp_conn.specs.NamedGraphs.{edges_at, far, rank};
ghost use Rattle.cp_poles.specs.Between.{AreEntries, AreTaken, IsAlongBond, entry, number_of};
ghost use Rattle.cp_poles.specs.LocalBonds.{IsBetween, local_part};

use cp_base::Memory;
use cp_conn::components_without;
use cp_local::{LocalGraph, local_graph};
use cp_sync::Board;
use std::alloc::Global;

// The components of two vertices of a board, and for each of their vertices, by its place, the number of its component
// where the two are removed.
#[derive(Drop)]
struct Between {
    local: LocalGraph,
    numbers: Vec<usize>,
}

// The place of a name that is one of those that rise. Logarithmic.
pub(crate) fn place_of(names: &[usize], name: usize) -> usize
    requires rising { IsStrictlyIncreasing names.now }
    requires live { Contains names.now name }
    ensures value { result ≡ rank names.now name }
    ensures within { result < length names.now }
    ensures bound { result < 2 ^ 60 }
{
    match names.binary_search(&name) {
        Ok(place) => place,
        Err(_) => unreachable!(),
    }
}

// The marks of two places.
fn two_marked(alloc: Global, n: usize, u: usize, v: usize) -> Result<Vec<bool>, Memory>
    requires u { u < n }
    requires v { v < n }
    ensures { IfOk result (λ marks. marks.items ≡ set (set (replicate n false) v true) u true) }
{
    let mut marks = vec![in alloc; false; n]?;
    marks[v] = true;
    marks[u] = true;
    Ok(marks)
}

// The components without two vertices. It costs what `local_graph` costs, and is linear beside that.
fn parts_between<B: Board>(alloc: Global, board: &B, u: usize, v: usize) -> Result<Between, Memory>
    requires live_u { Contains (vert_names (B.instance board.now)) u }
    requires live_v { Contains (vert_names (B.instance board.now)) v }
    ensures { IfOk result (IsBetween (B.instance board.now) u v) }
{
    let local = local_graph(alloc, board, u, v)?;
    let names = local.verts.items();
    let removed = two_marked(alloc, names.len(), place_of(names, u), place_of(names, v))?;
    let numbers = components_without(alloc, &local.graph, removed.as_slice())?;
    Ok(Between { local, numbers })
}

// The end of an edge that is not `at`.
fn far_end<B: Board>(board: &B, at: usize, e: usize) -> usize
    requires { Contains (edge_names (B.instance board.now)) e }
    ensures value { result ≡ far (graph (B.instance board.now)) at e }
    ensures rules { IsSynchronized (B.instance board.now) }
{
    let (a, b) = board.ends(e);
    if a == at { b } else { a }
}

// The number of the component of a vertex. Logarithmic.
fn part_of<B: Board>(board: &B, between: &Between, u: usize, v: usize, x: usize) -> usize
    requires between { IsBetween (B.instance board.now) u v between.now }
    requires within { Contains between.now.local.verts x }
    ensures value { result ≡ number_of (local_part (B.instance board.now) between.now) between.now.numbers.items x }
    ensures within { result < length between.now.numbers.items }
{
    between.numbers[place_of(between.local.verts.items(), x)]
}

// A table without entries.
fn empty_table(alloc: Global, n: usize) -> Result<Vec<Option<usize>>, Memory>
    ensures { IfOk result (λ table. table.items ≡ replicate n None) }
{
    let table = vec![in alloc; None; n]?;
    Ok(table)
}

// Takes the entry of a component out of the table.
fn take_entry(table: &mut Vec<Option<usize>>, part: usize) -> Option<usize>
    requires { part < length table.old.items }
    ensures found { result ≡ entry table.old.items part }
    ensures left { table.new.items ≡ set table.old.items part None }
{
    let found = table[part];
    table[part] = None;
    found
}

// For each component an edge of `v` into it, if there is one. It asks the board for the ends of each edge of `v`.
fn entries<B: Board>(
    alloc: Global,
    board: &B,
    between: &Between,
    u: usize,
    v: usize,
) -> Result<Vec<Option<usize>>, Memory>
    requires { IsBetween (B.instance board.now) u v between.now }
    ensures { IfOk result (λ table. AreEntries (local_part (B.instance board.now) between.now) v between.now.numbers.items
        (edges_at (local_part (B.instance board.now) between.now) v) table.items) }
{
    let edges = board.edges_at(alloc, v)?;
    let mut table = empty_table(alloc, between.numbers.len())?;
    for e in &edges {
        let far = far_end(board, v, *e);
        let part = part_of(board, between, u, v, far);
        table[part] = Some(*e);
    }
    Ok(table)
}

// Each edge of `u` with the edge of `v` as which it goes on, or `None` where the two are no bond.
fn taken<B: Board>(
    alloc: Global,
    board: &B,
    between: &Between,
    u: usize,
    v: usize,
) -> Result<Option<Vec<(usize, usize)>>, Memory>
    requires between { IsBetween (B.instance board.now) u v between.now }
    requires differ { u ≢ v }
    ensures { IfOk result (λ found. MatchOption found (¬ IsBond (graph (B.instance board.now)) u v) (λ along. IsAlongBond (graph (B.instance board.now)) u v along.items)) }
{
    let mut table = entries(alloc, board, between, u, v)?;
    let edges = board.edges_at(alloc, u)?;
    let mut along = Vec::new(alloc);
    for e in &edges {
        let far = far_end(board, u, *e);
        if far == v {
            along.push((*e, *e))?;
        } else {
            let part = part_of(board, between, u, v, far);
            match take_entry(&mut table, part) {
                Some(f) => along.push((*e, f))?,
                None => return Ok(None),
            }
        }
    }
    Ok(Some(along))
}

// Each edge of `u` with the edge of `v` as which it goes on along their bond, or `None` where they are no bond.
// Linear in the components of the two, up to a logarithm.
pub(crate) fn along_bond<B: Board>(
    alloc: Global,
    board: &B,
    u: usize,
    v: usize,
) -> Result<Option<Vec<(usize, usize)>>, Memory>
    requires live_u { Contains (vert_names (B.instance board.now)) u }
    requires live_v { Contains (vert_names (B.instance board.now)) v }
    ensures { IfOk result (λ found. MatchOption found (¬ IsBond (graph (B.instance board.now)) u v) (λ along. IsAlongBond (graph (B.instance board.now)) u v along.items)) }
{
    if u == v {
        return Ok(None);
    }
    let parts = parts_between(alloc, board, u, v)?;
    taken(alloc, board, &parts, u, v)
}

// Each edge of `u` with the edge of `v` as which it goes on along their bond. Linear in the components of the two, up
// to a logarithm.
pub(crate) fn bond_pairs<B: Board>(
    alloc: Global,
    board: &B,
    u: usize,
    v: usize,
) -> Result<Vec<(usize, usize)>, Memory>
    requires live_u { Contains (vert_names (B.instance board.now)) u }
    requires live_v { Contains (vert_names (B.instance board.now)) v }
    requires bond { IsBond (graph (B.instance board.now)) u v }
    ensures { IfOk result (λ along. IsAlongBond (graph (B.instance board.now)) u v along.items) }
{
    let found = along_bond(alloc, board, u, v)?;
    match found {
        Some(along) => Ok(along),
        None => unreachable!(),
    }
}

/// Whether two vertices are the poles of a bond: `v` is adjacent to each component of the rest that an edge of `u`
/// enters, and no two edges of `u` enter one (Bläsius, Fink, Rutter 2021). Both are live. The only error is want of
/// memory. It searches the components of the two vertices once: it asks the board for the edges of each vertex there
/// and a constant number of times for the ends of each of these edges, and is linear beside that, up to a logarithm.
pub fn is_bond<B: Board>(alloc: Global, board: &B, u: usize, v: usize) -> Result<bool, Memory>
    requires live_u { Contains (vert_names (B.instance board.now)) u }
    requires live_v { Contains (vert_names (B.instance board.now)) v }
    ensures { IfOk result (λ yes. IsTrue yes ↔ IsBond (graph (B.instance board.now)) u v) }
{
    let along = along_bond(alloc, board, u, v)?;
    Ok(along.is_some())
}
