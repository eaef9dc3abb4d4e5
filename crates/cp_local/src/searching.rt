// The search for the components of two vertices.
ghost use Rattle.std.specs.Prelude.{◌≡◌, ℕ, ◌+◌, ◌<◌, ◌++◌, ◌↔◌, fold, length, slice_index, IfOk, OnOk};
ghost use Rattle.std.specs.List.{All, Contains};
ghost use Rattle.std.specs.List.Sorted.{IsStrictlyIncreasing};
ghost use Rattle.cp_lists.specs.CyclicLists.{Has};
ghost use Rattle.cp_board.specs.Instances.{vert_names, edge_names};
ghost use Rattle.cp_local.specs.LocalGraphs.{AreComponents};
ghost use Rattle.cp_local.specs.Searching.{AreJoinedTo, IsSearched, with_ends};

use crate::places::item_at;
use cp_base::Memory;
use cp_sync::Board;
use indexmap::IndexSet;
use std::alloc::Global;

// The vertices and the edges of some components, both rising.
#[derive(Drop)]
pub(crate) struct Components {
    pub(crate) verts: Vec<usize>,
    pub(crate) edges: Vec<usize>,
}

// Adds the ends of some edges to the vertices that are found, and the edges. In constant time on average for each.
fn add_edges<B: Board>(
    board: &B,
    at: &[usize],
    verts: &mut IndexSet<usize>,
    edges: &mut Vec<usize>,
) -> Result<(), Memory>
    requires { All (Contains (edge_names (B.instance board.now))) at.now }
    ensures verts { OnOk result (verts.new.keys ≡ fold (with_ends (B.instance board.now)) verts.old.keys at.now) }
    ensures edges { OnOk result (edges.new.items ≡ edges.old.items ++ at.now) }
{
    for edge in at {
        let (a, b) = board.ends(*edge);
        verts.insert_full(a)?;
        verts.insert_full(b)?;
        edges.push(*edge)?;
    }
    Ok(())
}

// Adds the edges of the vertex at place `k` of those that are found, and their ends. It asks the board once for these
// edges and once for the ends of each, and is linear beside that.
fn visit<B: Board>(
    alloc: Global,
    board: &B,
    k: usize,
    verts: &mut IndexSet<usize>,
    edges: &mut Vec<usize>,
) -> Result<(), Memory>
    requires within { k < length verts.old.keys }
    requires searched { IsSearched (B.instance board.now) k verts.old.keys edges.old.items }
    ensures searched { OnOk result (IsSearched (B.instance board.now) (k + 1) verts.new.keys edges.new.items) }
    ensures kept { OnOk result ((x : ℕ) → Has x verts.old.keys → Has x verts.new.keys) }
    ensures joined { OnOk result (AreJoinedTo (B.instance board.now) verts.old.keys verts.new.keys) }
{
    let x = item_at(verts.as_slice(), k);
    let at = board.edges_at(alloc, x)?;
    add_edges(board, at.as_slice(), verts, edges)?;
    Ok(())
}

// The items of a list in rising order, each once. Linear, up to a logarithm.
fn rising_items(alloc: Global, list: &[usize]) -> Result<Vec<usize>, Memory>
    ensures rise { IfOk result (λ sorted. IsStrictlyIncreasing sorted.items) }
    ensures same { IfOk result (λ sorted. (x : ℕ) → Has x sorted.items ↔ Has x list.now) }
{
    let mut sorted = Vec::from_slice(alloc, list)?;
    sorted.sort_unstable();
    sorted.dedup();
    Ok(sorted)
}

// The vertices and the edges of the components of two vertices. It asks the board once for the edges of each of these
// vertices and once for the ends of each of these edges at each of its ends, and is linear beside that, up to a
// logarithm.
pub(crate) fn components_of<B: Board>(
    alloc: Global,
    board: &B,
    u: usize,
    v: usize,
) -> Result<Components, Memory>
    requires live_u { Contains (vert_names (B.instance board.now)) u }
    requires live_v { Contains (vert_names (B.instance board.now)) v }
    ensures { IfOk result (λ found. AreComponents (B.instance board.now) u v found.verts.items found.edges.items) }
{
    board.follows_rules();
    let mut verts: IndexSet<usize> = IndexSet::new(alloc);
    verts.insert_full(u)?;
    verts.insert_full(v)?;
    let mut edges = Vec::new(alloc);
    let mut k = 0;
    'search: while k < verts.len() {
        visit(alloc, board, k, &mut verts, &mut edges)?;
        k += 1;
    }
    let rising_verts = rising_items(alloc, verts.as_slice())?;
    let rising_edges = rising_items(alloc, edges.as_slice())?;
    Ok(Components {
        verts: rising_verts,
        edges: rising_edges,
    })
}
