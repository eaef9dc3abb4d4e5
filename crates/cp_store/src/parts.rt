// The parts of a stored instance, and changes of them.
ghost use Rattle.std.specs.Prelude.{◌≡◌, ◌+◌, ◌≤◌, [], true, length, OnOk, IfOk};
ghost use Rattle.std.specs.List.{All};
ghost use Rattle.std.specs.Vec.{vec_len, vec_capacity};
ghost use Rattle.cp_board.specs.Names.{has};
ghost use Rattle.cp_board.specs.Instances.{names_of_edges};
ghost use Rattle.cp_board.specs.Rewrites.{after_moves};
ghost use Rattle.cp_store.specs.Exchanges.{taken_back, HasItsName, items_of};
ghost use Rattle.cp_store.specs.Parts.{told, AreTables, undone, HasRoom, HasMoreRoom, IsEmptyFor};

use crate::changes::{exchange_all, reserve_entries, take_back};
use crate::entry::Entry;
use crate::links::{Roots, no_roots};
use crate::moves::move_ends;
use crate::table::Table;
use cp_base::Memory;
use cp_board::{EdgeMove, EdgeRow, Pipe, Vert};
use std::alloc::Global;

// Vertices, edges and pipes under their names.
#[derive(Debug, Drop)]
pub(crate) struct Parts {
    pub(crate) verts: Table<Vert>,
    pub(crate) edges: Table<EdgeRow>,
    pub(crate) pipes: Table<Pipe>,
}

// What stood under names before a change.
#[derive(Debug, Drop)]
pub(crate) struct Change {
    pub(crate) verts: Vec<Entry<Vert>>,
    // The edges before they moved.
    pub(crate) moved: Vec<Entry<EdgeRow>>,
    // What stood under the names of the new edges.
    pub(crate) edges: Vec<Entry<EdgeRow>>,
    pub(crate) pipes: Vec<Entry<Pipe>>,
    // The trees of the links, and the number of nodes of the trees.
    pub(crate) roots: Roots,
    pub(crate) mark: usize,
}

// Takes a change back. Logarithmic for each entry, without memory.
pub(crate) fn undo_change(parts: &mut Parts, change: Change)
    requires tables { AreTables parts.old }
    requires room { HasRoom parts.old change }
    ensures told { told parts.new ≡ undone change (told parts.old) }
    ensures tables { AreTables parts.new }
    ensures room { HasMoreRoom parts.old parts.new }
{
    take_back(&mut parts.verts, change.verts);
    take_back(&mut parts.edges, change.edges);
    take_back(&mut parts.edges, change.moved);
    take_back(&mut parts.pipes, change.pipes);
}

// Makes room for the entries of a plan. After want of memory the parts tell the same instance.
pub(crate) fn reserve_change(parts: &mut Parts, plan: &Change) -> Result<(), Memory>
    requires tables { AreTables parts.old }
    requires verts { All (HasItsName (λ v. v.name)) plan.now.verts.items }
    requires moved { All (HasItsName (λ e. e.name)) plan.now.moved.items }
    requires edges { All (HasItsName (λ e. e.name)) plan.now.edges.items }
    requires pipes { All (HasItsName (λ p. p.name)) plan.now.pipes.items }
    ensures told { told parts.new ≡ told parts.old }
    ensures tables { AreTables parts.new }
    ensures more { HasMoreRoom parts.old parts.new }
    ensures room { OnOk result (HasRoom parts.new plan.now) }
{
    reserve_entries(&mut parts.verts, plan.verts.as_slice())?;
    reserve_entries(&mut parts.edges, plan.moved.as_slice())?;
    reserve_entries(&mut parts.edges, plan.edges.as_slice())?;
    reserve_entries(&mut parts.pipes, plan.pipes.as_slice())?;
    Ok(())
}

// A list without items, with memory for some.
fn room_for<T: Drop>(alloc: Global, n: usize) -> Result<Vec<Entry<T>>, Memory>
    ensures items { IfOk result (λ list. list.items ≡ []) }
    ensures room { IfOk result (λ list. vec_len list + n ≤ vec_capacity list) }
{
    let mut list = Vec::new(alloc);
    list.reserve(n)?;
    Ok(list)
}

// A change without entries, with memory for those of a plan and some moves.
pub(crate) fn empty_for(alloc: Global, plan: &Change, moves: usize) -> Result<Change, Memory>
    ensures { IfOk result (IsEmptyFor plan.now moves) }
{
    let verts = room_for(alloc, plan.verts.len())?;
    let moved = room_for(alloc, moves)?;
    let edges = room_for(alloc, plan.edges.len())?;
    let pipes = room_for(alloc, plan.pipes.len())?;
    Ok(Change {
        verts,
        moved,
        edges,
        pipes,
        roots: no_roots(),
        mark: 0,
    })
}

// Moves ends of edges and makes the exchanges of a plan, and keeps what stood there. Logarithmic for each, without
// memory.
pub(crate) fn make_change(parts: &mut Parts, plan: Change, moves: &[EdgeMove], done: &mut Change)
    requires tables { AreTables parts.old }
    requires room { HasRoom parts.old plan }
    requires live { All (λ m. has (names_of_edges (told parts.old).edges) m.edge ≡ true) moves.now }
    requires empty { IsEmptyFor plan (length moves.now) done.old }
    ensures verts { (told parts.new).verts ≡ taken_back (λ v. v.name) plan.verts.items (told parts.old).verts }
    ensures edges { (told parts.new).edges
        ≡ taken_back (λ e. e.name) plan.edges.items (after_moves moves.now (told parts.old).edges) }
    ensures pipes { (told parts.new).pipes ≡ taken_back (λ p. p.name) plan.pipes.items (told parts.old).pipes }
    ensures back { undone done.new (told parts.new) ≡ told parts.old }
    ensures tables { AreTables parts.new }
    ensures more { HasMoreRoom parts.old parts.new }
    ensures room { HasRoom parts.new done.new }
{
    exchange_all(&mut parts.verts, plan.verts, &mut done.verts);
    move_ends(&mut parts.edges, moves, &mut done.moved);
    exchange_all(&mut parts.edges, plan.edges, &mut done.edges);
    exchange_all(&mut parts.pipes, plan.pipes, &mut done.pipes);
}

// The change with the trees of the links before it, and the number of nodes.
pub(crate) fn with_links(change: Change, roots: Roots, mark: usize) -> Change
    ensures { result ≡ record change { roots = roots; mark = mark } }
{
    Change {
        verts: change.verts,
        moved: change.moved,
        edges: change.edges,
        pipes: change.pipes,
        roots,
        mark,
    }
}
