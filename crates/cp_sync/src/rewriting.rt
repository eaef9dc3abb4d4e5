// The parts of an instance after a rewrite.
ghost use Rattle.std.specs.Prelude.{◌≡◌, ℕ, ◌++◌, map, IfOk, OnOk};
ghost use Rattle.std.specs.List.{All, Contains};
ghost use Rattle.std.specs.List.Sorted.{IsStrictlyIncreasing};
ghost use Rattle.cp_lists.specs.CyclicLists.{Distinct};
ghost use Rattle.cp_board.specs.Names.{rising};
ghost use Rattle.cp_board.specs.Instances.{names_of_verts, names_of_edges};
ghost use Rattle.cp_board.specs.Changes.{verts_by_name, edges_by_name, pipes_by_name};
ghost use Rattle.cp_board.specs.Rewrites.{with_kinds, moved_end, after_moves};
ghost use Rattle.cp_sync.specs.Rewriting.{kept_verts, kept_pipes};

use crate::copies::{Part, append_copies};
use crate::named::{item_named, lower_place};
use crate::ordered::{in_order, is_one_of};
use cp_base::Memory;
use cp_board::{EdgeMove, EdgeRow, EdgeRows, Names, Pipe, Pipes, Rewrite, Vert, Verts};
use std::alloc::Global;

// A copy of the vertex, with the kind that is set for it. Logarithmic in the number of kinds, and linear in the list.
fn with_set_kind(alloc: Global, kinds: &[Vert], v: &Vert) -> Result<Vert, Memory>
    requires { IsStrictlyIncreasing (names_of_verts kinds.now) }
    ensures { IfOk result (λ w. w ≡ with_kinds kinds.now v.now) }
{
    match item_named(kinds, v.name) {
        Some(set) => set.copied(alloc),
        None => v.copied(alloc),
    }
}

// Appends copies of the vertices that are not dropped, with the kinds that are set for them. Linear, up to a logarithm.
fn append_kept_verts(
    alloc: Global,
    verts: &[Vert],
    dropped: &[usize],
    kinds: &[Vert],
    to: &mut Vec<Vert>,
) -> Result<(), Memory>
    requires dropped_rise { IsStrictlyIncreasing dropped.now }
    requires kinds_rise { IsStrictlyIncreasing (names_of_verts kinds.now) }
    ensures { OnOk result (to.new.items ≡ to.old.items ++ kept_verts dropped.now kinds.now verts.now) }
{
    for v in verts {
        if !is_one_of(dropped, v.name) {
            to.push(with_set_kind(alloc, kinds, v)?)?;
        }
    }
    Ok(())
}

// The numbers, which differ, in rising order. Linear, up to a logarithm.
fn rising_numbers(alloc: Global, numbers: &[usize]) -> Result<Names, Memory>
    requires { Distinct numbers.now }
    ensures value { IfOk result (λ list. list ≡ rising numbers.now) }
    ensures rising { IfOk result IsStrictlyIncreasing }
{
    in_order(alloc, Vec::from_slice(alloc, numbers)?)
}

// Copies of the vertices, whose names differ, in the order of their names. Linear, up to a logarithm.
fn verts_in_order(alloc: Global, verts: &[Vert]) -> Result<Verts, Memory>
    requires { Distinct (names_of_verts verts.now) }
    ensures value { IfOk result (λ list. list ≡ verts_by_name verts.now) }
    ensures rising { IfOk result (λ list. IsStrictlyIncreasing (names_of_verts list)) }
{
    let mut copies = Vec::new(alloc);
    append_copies(alloc, verts, &mut copies)?;
    in_order(alloc, copies)
}

// The vertices after a rewrite. Linear in them and in the rewrite, up to a logarithm.
pub(crate) fn verts_after(alloc: Global, verts: &[Vert], w: &Rewrite) -> Result<Verts, Memory>
    requires dropped_once { Distinct w.now.drop_verts }
    requires kinds_once { Distinct (names_of_verts w.now.set_kinds) }
    requires rising { IsStrictlyIncreasing (names_of_verts (verts_by_name (kept_verts w.now.drop_verts w.now.set_kinds (verts.now ++ w.now.add_verts)))) }
    ensures { IfOk result (λ after. after ≡ verts_by_name (kept_verts w.now.drop_verts w.now.set_kinds (verts.now ++ w.now.add_verts))) }
{
    let dropped = rising_numbers(alloc, w.drop_verts.items())?;
    let kinds = verts_in_order(alloc, w.set_kinds.items())?;
    let mut kept = Vec::new(alloc);
    append_kept_verts(alloc, verts, dropped.items(), kinds.items(), &mut kept)?;
    append_kept_verts(
        alloc,
        w.add_verts.items(),
        dropped.items(),
        kinds.items(),
        &mut kept,
    )?;
    in_order(alloc, kept)
}

// The edge after a move that names it.
fn after_move(e: EdgeRow, m: &EdgeMove) -> EdgeRow
    requires { e.name ≡ m.now.edge }
    ensures { result ≡ moved_end m.now e }
{
    if e.a == m.from {
        EdgeRow {
            name: e.name,
            a: m.to,
            b: e.b,
        }
    } else {
        EdgeRow {
            name: e.name,
            a: e.a,
            b: m.to,
        }
    }
}

// Moves an end of an edge. Logarithmic.
fn move_end(edges: &mut [EdgeRow], m: &EdgeMove)
    requires rising { IsStrictlyIncreasing (names_of_edges edges.old) }
    requires live { Contains (names_of_edges edges.old) m.now.edge }
    ensures { edges.new ≡ map (moved_end m.now) edges.old }
{
    let place = lower_place(edges, m.edge);
    let e = edges[place];
    edges[place] = after_move(e, m);
}

// Moves ends of edges, one after another. Linear in the moves, up to a logarithm.
fn move_ends(edges: &mut [EdgeRow], moves: &[EdgeMove])
    requires rising { IsStrictlyIncreasing (names_of_edges edges.old) }
    requires live { All (λ m. Contains (names_of_edges edges.old) m.edge) moves.now }
    ensures { edges.new ≡ after_moves moves.now edges.old }
{
    for m in moves {
        move_end(edges, m);
    }
}

// The edges after a rewrite. Linear in them and in the rewrite, up to a logarithm.
pub(crate) fn edges_after(alloc: Global, edges: &[EdgeRow], w: &Rewrite) -> Result<EdgeRows, Memory>
    requires rising { IsStrictlyIncreasing (names_of_edges edges.now) }
    requires live { All (λ m. Contains (names_of_edges edges.now) m.edge) w.now.moves }
    requires after_rising { IsStrictlyIncreasing (names_of_edges (edges_by_name (after_moves w.now.moves edges.now ++ w.now.add_edges))) }
    ensures { IfOk result (λ after. after ≡ edges_by_name (after_moves w.now.moves edges.now ++ w.now.add_edges)) }
{
    let mut after = Vec::from_slice(alloc, edges)?;
    move_ends(after.as_mut_slice(), w.moves.items());
    append_copies(alloc, w.add_edges.items(), &mut after)?;
    in_order(alloc, after)
}

// Appends copies of the pipes that are not dropped. Linear in them, up to a logarithm.
fn append_kept_pipes(
    alloc: Global,
    pipes: &[Pipe],
    dropped: &[usize],
    to: &mut Vec<Pipe>,
) -> Result<(), Memory>
    requires { IsStrictlyIncreasing dropped.now }
    ensures { OnOk result (to.new.items ≡ to.old.items ++ kept_pipes dropped.now pipes.now) }
{
    for p in pipes {
        if !is_one_of(dropped, p.name) {
            to.push(p.copied(alloc)?)?;
        }
    }
    Ok(())
}

// The pipes after a rewrite. Linear in them and in the rewrite, up to a logarithm.
pub(crate) fn pipes_after(alloc: Global, pipes: &[Pipe], w: &Rewrite) -> Result<Pipes, Memory>
    requires dropped_once { Distinct w.now.drop_pipes }
    requires rising { IsStrictlyIncreasing (map (λ p. p.name) (pipes_by_name (kept_pipes w.now.drop_pipes pipes.now ++ w.now.add_pipes))) }
    ensures { IfOk result (λ after. after ≡ pipes_by_name (kept_pipes w.now.drop_pipes pipes.now ++ w.now.add_pipes)) }
{
    let dropped = rising_numbers(alloc, w.drop_pipes.items())?;
    let mut kept = Vec::new(alloc);
    append_kept_pipes(alloc, pipes, dropped.items(), &mut kept)?;
    append_copies(alloc, w.add_pipes.items(), &mut kept)?;
    in_order(alloc, kept)
}
