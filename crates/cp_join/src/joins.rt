// Join: a pipe between two cut vertices goes, and its ends are parted.
ghost use Rattle.std.specs.Prelude.{◌≡◌, ℕ, ◌<◌, ◌++◌, length, map, IfOk, OnOk};
ghost use Rattle.std.specs.List.{All, Contains, zip};
ghost use Rattle.cp_board.specs.declared.steps.Step.TheVariants.{Join};
ghost use Rattle.cp_board.specs.Changes.{free_vert};
ghost use Rattle.cp_board.specs.Joins.{part_of, part_pipes};
ghost use Rattle.cp_board.specs.Reductions.{Performs};
ghost use Rattle.cp_board.specs.Steps.{Allowed};
ghost use Rattle.cp_join.specs.EdgePlaces.{TellsPlaces};
ghost use Rattle.cp_join.specs.Partings.{FitPairs, IsParting, new_verts};
ghost use Rattle.cp_join.specs.Joining.{moves_to, part_moves, hat_among, hat_row, joining};

use crate::edge_places::{Places, parts_by_edge, place_among, places_by_edge, vertex_of};
use crate::parted_ends::{Parting, partings};
use crate::vertex_parts::parts_among;
use cp_base::{Items, Memory};
use cp_board::{
    EdgeMove, EdgeRow, EdgeRows, Kind, Moves, NameKind, Pairs, Pipe, Pipes, Rewrite, Vert, Verts,
};
use cp_sync::Board;
use std::alloc::Global;

// The first edges of the pairs. Linear.
fn firsts_of(alloc: Global, pairs: &[(usize, usize)]) -> Result<Vec<usize>, Memory>
    ensures { IfOk result (λ edges. edges.items ≡ map (λ x. x.0) pairs.now) }
{
    let mut edges = Vec::new(alloc);
    for pair in pairs {
        edges.push(pair.0)?;
    }
    Ok(edges)
}

// The second edges of the pairs. Linear.
fn seconds_of(alloc: Global, pairs: &[(usize, usize)]) -> Result<Vec<usize>, Memory>
    ensures { IfOk result (λ edges. edges.items ≡ map (λ x. x.1) pairs.now) }
{
    let mut edges = Vec::new(alloc);
    for pair in pairs {
        edges.push(pair.1)?;
    }
    Ok(edges)
}

// Adds the moves of the edges of a part from `u` to its outer vertex. Linear.
fn push_moves(u: usize, outer: usize, part: &[usize], moves: &mut Moves) -> Result<(), Memory>
    ensures { OnOk result (moves.new ≡ moves.old ++ moves_to u outer part.now) }
{
    for edge in part {
        moves.push(EdgeMove {
            edge: *edge,
            from: u,
            to: outer,
        })?;
    }
    Ok(())
}

// Adds the moves of all edges of `u` to the outer vertices of their parts. Linear.
fn push_part_moves(u: usize, end: &Parting, moves: &mut Moves) -> Result<(), Memory>
    requires { length end.now.outer ≡ length end.now.parts }
    ensures { OnOk result (moves.new ≡ moves.old ++ part_moves u end.now.outer end.now.parts) }
{
    let parts = end.parts.items();
    let outer = end.outer.items();
    for k in 0..parts.len() {
        push_moves(u, outer[k], parts[k].items(), moves)?;
    }
    Ok(())
}

// The new edges, one for each pair, between the inner vertices. n log n in the number of pairs and edges of the parts.
fn new_edges(
    alloc: Global,
    pairs: &[(usize, usize)],
    hats: &[usize],
    first: &Parting,
    second: &Parting,
) -> Result<EdgeRows, Memory>
    requires hats { length hats.now ≡ length pairs.now }
    requires firsts { All (λ x. part_of first.now.parts x.0 < length first.now.inner) pairs.now }
    requires seconds { All (λ x. part_of second.now.parts x.1 < length second.now.inner) pairs.now }
    ensures { IfOk result (λ rows. rows ≡ map (hat_row first.now.parts first.now.inner second.now.parts second.now.inner) (zip hats.now pairs.now)) }
{
    let firsts = parts_by_edge(alloc, &first.parts)?;
    let seconds = parts_by_edge(alloc, &second.parts)?;
    let mut rows = Items::new(alloc);
    for k in 0..pairs.len() {
        let (x, y) = pairs[k];
        rows.push(EdgeRow {
            name: hats[k],
            a: vertex_of(&firsts, &first.parts, first.inner.items(), x),
            b: vertex_of(&seconds, &second.parts, second.inner.items(), y),
        })?;
    }
    Ok(rows)
}

// The pairs of a part's pipe: each edge with the new edge of its pair. Logarithmic for each.
fn part_pairs(
    alloc: Global,
    places: &Places,
    edges: &[usize],
    hats: &[usize],
    part: &[usize],
) -> Result<Pairs, Memory>
    requires told { TellsPlaces edges.now places.now }
    requires hats { length hats.now ≡ length edges.now }
    requires among { All (Contains edges.now) part.now }
    ensures { IfOk result (λ pairs. pairs ≡ map (λ e. (e, hat_among edges.now hats.now e)) part.now) }
{
    let mut pairs = Items::new(alloc);
    for edge in part {
        pairs.push((*edge, hats[place_among(places, edges, *edge)]))?;
    }
    Ok(pairs)
}

// Adds the pipes of the parts of an end. n log n in the number of its edges.
fn push_pipes(
    alloc: Global,
    edges: &[usize],
    hats: &[usize],
    end: &Parting,
    pipes: &mut Pipes,
) -> Result<(), Memory>
    requires hats { length hats.now ≡ length edges.now }
    requires among { All (All (Contains edges.now)) end.now.parts }
    requires each { IsParting end.now.parts end.now }
    ensures { OnOk result (pipes.new ≡ pipes.old ++ part_pipes (hat_among edges.now hats.now) end.now.names end.now.outer end.now.inner end.now.parts) }
{
    let places = places_by_edge(alloc, edges)?;
    let parts = end.parts.items();
    for k in 0..parts.len() {
        let pairs = part_pairs(alloc, &places, edges, hats, parts[k].items())?;
        pipes.push(Pipe {
            name: end.names.items()[k],
            a: end.outer.items()[k],
            b: end.inner.items()[k],
            pairs,
        })?;
    }
    Ok(())
}

// Adds P-vertices of these names. Linear.
fn push_verts(names: &[usize], verts: &mut Verts) -> Result<(), Memory>
    ensures { OnOk result (verts.new ≡ verts.old ++ map free_vert names.now) }
{
    for name in names {
        verts.push(Vert {
            name: *name,
            kind: Kind::P,
        })?;
    }
    Ok(())
}

// The new vertices of both ends. Linear.
fn all_verts(alloc: Global, first: &Parting, second: &Parting) -> Result<Verts, Memory>
    ensures { IfOk result (λ verts. verts ≡ map free_vert (new_verts first.now second.now)) }
{
    let mut verts = Items::new(alloc);
    push_verts(first.outer.items(), &mut verts)?;
    push_verts(first.inner.items(), &mut verts)?;
    push_verts(second.outer.items(), &mut verts)?;
    push_verts(second.inner.items(), &mut verts)?;
    Ok(verts)
}

// The moves of the edges of both ends. Linear.
fn all_moves(
    alloc: Global,
    ends: (usize, usize),
    first: &Parting,
    second: &Parting,
) -> Result<Moves, Memory>
    requires first { length first.now.outer ≡ length first.now.parts }
    requires second { length second.now.outer ≡ length second.now.parts }
    ensures { IfOk result (λ moves. moves ≡ part_moves ends.0 first.now.outer first.now.parts ++ part_moves ends.1 second.now.outer second.now.parts) }
{
    let mut moves = Items::new(alloc);
    push_part_moves(ends.0, first, &mut moves)?;
    push_part_moves(ends.1, second, &mut moves)?;
    Ok(moves)
}

// The new pipes of both ends. n log n in the number of pairs.
fn all_pipes(
    alloc: Global,
    pairs: &[(usize, usize)],
    hats: &[usize],
    first: &Parting,
    second: &Parting,
) -> Result<Pipes, Memory>
    requires hats { length hats.now ≡ length pairs.now }
    requires firsts { All (All (Contains (map (λ x. x.0) pairs.now))) first.now.parts }
    requires seconds { All (All (Contains (map (λ x. x.1) pairs.now))) second.now.parts }
    requires first { IsParting first.now.parts first.now }
    requires second { IsParting second.now.parts second.now }
    ensures { IfOk result (λ pipes. pipes ≡ part_pipes (hat_among (map (λ x. x.0) pairs.now) hats.now) first.now.names first.now.outer first.now.inner first.now.parts ++ part_pipes (hat_among (map (λ x. x.1) pairs.now) hats.now) second.now.names second.now.outer second.now.inner second.now.parts) }
{
    let firsts = firsts_of(alloc, pairs)?;
    let seconds = seconds_of(alloc, pairs)?;
    let mut pipes = Items::new(alloc);
    push_pipes(alloc, firsts.as_slice(), hats, first, &mut pipes)?;
    push_pipes(alloc, seconds.as_slice(), hats, second, &mut pipes)?;
    Ok(pipes)
}

// The rewrite of Join from its parts. n log n in the number of pairs and edges of the parts.
fn rewrite_of(
    alloc: Global,
    pipe: usize,
    ends: (usize, usize),
    pairs: &[(usize, usize)],
    hats: &[usize],
    first: &Parting,
    second: &Parting,
) -> Result<Rewrite, Memory>
    requires { FitPairs pairs.now hats.now first.now second.now }
    ensures { IfOk result (λ w. w ≡ joining pipe ends pairs.now first.now second.now hats.now) }
{
    let mut drop_pipes = Items::new(alloc);
    drop_pipes.push(pipe)?;
    let mut drop_verts = Items::new(alloc);
    drop_verts.push(ends.0)?;
    drop_verts.push(ends.1)?;
    Ok(Rewrite {
        drop_pipes,
        drop_verts,
        add_verts: all_verts(alloc, first, second)?,
        set_kinds: Items::new(alloc),
        moves: all_moves(alloc, ends, first, second)?,
        add_edges: new_edges(alloc, pairs, hats, first, second)?,
        add_pipes: all_pipes(alloc, pairs, hats, first, second)?,
    })
}

/// The rewrite of the step Join: both ends of the pipe, which are cut vertices, are parted into outer vertices, one for
/// each part of their edges, and one bipartite graph of as many inner vertices has one new edge for each pair
/// (Bläsius, Fink, Rutter 2021). `pipe` is the name of the pipe. The only error is want of memory. It searches the
/// board twice, and takes n log n in the number of pairs beside that.
pub fn join<B: Board>(alloc: Global, board: &B, pipe: usize) -> Result<Rewrite, Memory>
    requires { Allowed (B.instance board.now) (Join pipe) }
    ensures { IfOk result (λ w. Performs (B.instance board.now) (Join pipe) w) }
{
    let ends = board.pipe_ends(pipe);
    let pairs = board.pairs(pipe);
    let first = parts_among(alloc, board, ends.0)?;
    let second = parts_among(alloc, board, ends.1)?;
    let both = partings(alloc, board, first, second)?;
    let hats = board.free_names(alloc, NameKind::Edge, pairs.len())?;
    let rewrite = rewrite_of(alloc, pipe, ends, pairs, hats.as_slice(), &both.0, &both.1)?;
    Ok(rewrite)
}
