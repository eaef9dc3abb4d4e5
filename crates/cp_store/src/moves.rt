// Moves of ends of edges, as exchanges.
ghost use Rattle.std.specs.Prelude.{◌≡◌, ◌+◌, ◌≤◌, Some, true, map, length};
ghost use Rattle.std.specs.List.{All};
ghost use Rattle.std.specs.Vec.{vec_len, vec_capacity};
ghost use Rattle.cp_board.specs.Names.{has};
ghost use Rattle.cp_board.specs.Instances.{names_of_edges};
ghost use Rattle.cp_board.specs.Rewrites.{moved_end, after_moves};
ghost use Rattle.cp_store.specs.Exchanges.{under, exchanged, taken_back, entry_names, items_of, IsTable, IsReserved};

use crate::entry::Entry;
use crate::table::{Table, exchange, item_under};
use cp_board::{EdgeMove, EdgeRow};

// The edge after a move that names it.
fn after_move(e: EdgeRow, m: &EdgeMove) -> EdgeRow
    requires { e.name ≡ m.now.edge }
    ensures { result ≡ moved_end m.now e }
{
    if e.a == m.from {
        EdgeRow {
            name: e.name,
            a: m.to,
            b: e.b,
        }
    } else {
        EdgeRow {
            name: e.name,
            a: e.a,
            b: m.to,
        }
    }
}

// The edge of a live name. Logarithmic.
fn row_of(edges: &Table<EdgeRow>, e: usize) -> EdgeRow
    requires table { IsTable (λ x. x.name) edges.now.entries.items }
    requires live { has (names_of_edges (items_of edges.now.entries.items)) e ≡ true }
    ensures { under (λ x. x.name) e (items_of edges.now.entries.items) ≡ Some result }
{
    match item_under(edges, e) {
        None => unreachable!(),
        Some(row) => *row,
    }
}

// Moves an end of an edge, and gives what stood under its name. Logarithmic, without memory.
fn move_end(edges: &mut Table<EdgeRow>, m: &EdgeMove) -> Entry<EdgeRow>
    requires table { IsTable (λ x. x.name) edges.old.entries.items }
    requires live { has (names_of_edges (items_of edges.old.entries.items)) m.now.edge ≡ true }
    ensures items { items_of edges.new.entries.items ≡ map (moved_end m.now) (items_of edges.old.entries.items) }
    ensures back { exchanged (λ x. x.name) result.name result.item (items_of edges.new.entries.items) ≡ items_of edges.old.entries.items }
    ensures table { IsTable (λ x. x.name) edges.new.entries.items }
    ensures names { entry_names edges.new.entries.items ≡ entry_names edges.old.entries.items }
    ensures reserved { IsReserved (λ x. x.name) (entry_names edges.old.entries.items) result }
{
    let row = row_of(edges, m.edge);
    let mut entry = Entry {
        name: m.edge,
        item: Some(after_move(row, m)),
    };
    exchange(edges, &mut entry);
    entry
}

// Moves ends of edges, one after another, and keeps what stood under their names. Logarithmic for each, without memory.
pub(crate) fn move_ends(
    edges: &mut Table<EdgeRow>,
    moves: &[EdgeMove],
    done: &mut Vec<Entry<EdgeRow>>,
)
    requires table { IsTable (λ x. x.name) edges.old.entries.items }
    requires live { All (λ m. has (names_of_edges (items_of edges.old.entries.items)) m.edge ≡ true) moves.now }
    requires done_reserved { All (IsReserved (λ x. x.name) (entry_names edges.old.entries.items)) done.old.items }
    requires room { vec_len done.old + length moves.now ≤ vec_capacity done.old }
    ensures items { items_of edges.new.entries.items ≡ after_moves moves.now (items_of edges.old.entries.items) }
    ensures back { taken_back (λ x. x.name) done.new.items (items_of edges.new.entries.items) ≡ taken_back (λ x. x.name) done.old.items (items_of edges.old.entries.items) }
    ensures table { IsTable (λ x. x.name) edges.new.entries.items }
    ensures names { entry_names edges.new.entries.items ≡ entry_names edges.old.entries.items }
    ensures reserved { All (IsReserved (λ x. x.name) (entry_names edges.old.entries.items)) done.new.items }
{
    for m in moves {
        done.push_reserved(move_end(edges, m));
    }
}
