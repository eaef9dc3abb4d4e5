// The rewrite of Propagate, from the rows that are planted at both ends of the pipe.
ghost use Rattle.std.specs.Prelude.{◌≡◌, ◌++◌, false, true, slice_index, take, IfOk, OnOk};
ghost use Rattle.std.specs.List.{zip};
ghost use Rattle.cp_board.specs.Changes.{pairs_by_first};
ghost use Rattle.cp_board.specs.Names.{has, put};
ghost use Rattle.cp_board.specs.Plantings.{holder, lower_end, tree_edges};
ghost use Rattle.cp_plant.specs.Rewriting.{end_moves, order_of, place_of, planted_pipe, planted_pipes, planted_vert, planted_verts, propagating};
ghost use Rattle.cp_board.specs.declared.parts.Kind.TheVariants.{Q};
ghost use Rattle.cp_lists.specs.Turns.{turned_to_least};

use crate::planting::PlantedNode;
use cp_base::{CycList, Items, Memory};
use cp_board::{
    EdgeMove, EdgeRow, EdgeRows, Kind, Moves, Pairs, Pipe, Pipes, Rewrite, Vert, Verts,
};
use std::alloc::Global;
use std::marker::Model;

// What is planted at one end of a pipe: the end and its edges, the rows, and the names of the edges between nodes.
#[derive(Debug, Drop)]
pub(crate) struct PlantedEnd {
    pub(crate) end: usize,
    pub(crate) own: Vec<usize>,
    pub(crate) rows: Vec<PlantedNode>,
    pub(crate) edges: Vec<usize>,
}

impl Model for PlantedEnd {
    ghost use Rattle.cp_plant.specs.Rewriting.{PlantedEnd as SpecEnd};

    ghost Value = { SpecEnd };

    ghost view = { λ e. record { end = e.end; own = e.own.items; rows = e.rows.items; edges = e.edges.items } };
}

// Whether the edge is one of these. Linear.
fn holds(edges: &[usize], edge: usize) -> bool
    ensures { result ≡ has edges.now edge }
{
    for e in edges {
        if *e == edge {
            return true;
        }
    }
    false
}

// Whether the edge is the first of these. Constant time.
fn leads(edges: &[usize], edge: usize) -> bool
    ensures { result ≡ has (take 1 edges.now) edge }
{
    match edges.first() {
        Some(first) => *first == edge,
        None => false,
    }
}

// The vertex of the first row that has the edge, and 0 where none has it. Linear in the edges of the rows.
fn holder_of(rows: &[PlantedNode], edge: usize) -> usize
    ensures { result ≡ holder rows.now edge }
{
    for row in rows {
        if holds(row.edges.as_slice(), edge) {
            return row.vertex;
        }
    }
    0
}

// The vertex of the row below the edge, and 0 where there is none. Linear in the number of rows.
fn lower_end_of(rows: &[PlantedNode], edge: usize) -> usize
    ensures { result ≡ lower_end rows.now edge }
{
    for row in rows {
        if leads(row.edges.as_slice(), edge) {
            return row.vertex;
        }
    }
    0
}

// Adds the moves of these edges from `u` to the vertices that hold them. At most quadratic.
fn push_moves(
    u: usize,
    rows: &[PlantedNode],
    edges: &[usize],
    moves: &mut Moves,
) -> Result<(), Memory>
    ensures { OnOk result (moves.new ≡ moves.old ++ end_moves u rows.now edges.now) }
{
    for edge in edges {
        moves.push(EdgeMove {
            edge: *edge,
            from: u,
            to: holder_of(rows, *edge),
        })?;
    }
    Ok(())
}

// Adds the edges between the nodes. At most quadratic.
fn push_tree_edges(
    rows: &[PlantedNode],
    edges: &[usize],
    added: &mut EdgeRows,
) -> Result<(), Memory>
    ensures { OnOk result (added.new ≡ added.old ++ tree_edges rows.now edges.now) }
{
    for edge in edges {
        added.push(EdgeRow {
            name: *edge,
            a: holder_of(rows, *edge),
            b: lower_end_of(rows, *edge),
        })?;
    }
    Ok(())
}

// A Q-kind with these edges, or with their reverse in the mirror. Linear.
fn fixed_kind(alloc: Global, mirrored: bool, cell: usize, edges: &[usize]) -> Result<Kind, Memory>
    ensures { IfOk result (λ kind. kind ≡ Q cell (turned_to_least (order_of mirrored edges.now))) }
{
    let list = CycList::from_slice(alloc, edges)?;
    let mut psi = if mirrored {
        list.reversed(alloc)?
    } else {
        list
    };
    psi.turn_to_least();
    Ok(Kind::Q { cell, psi })
}

// The vertex of a row. Linear in its edges.
fn vert_of(alloc: Global, mirrored: bool, cell: usize, row: &PlantedNode) -> Result<Vert, Memory>
    ensures { IfOk result (λ vert. vert ≡ planted_vert mirrored cell row.now) }
{
    let kind = if row.fixed {
        fixed_kind(alloc, mirrored, cell, row.edges.as_slice())?
    } else {
        Kind::P
    };
    Ok(Vert {
        name: row.vertex,
        kind,
    })
}

// The name in place k, and 0 where there is none.
fn cell_at(cells: &[usize], k: usize) -> usize
    ensures { result ≡ slice_index cells.now k }
{
    cells.get(k).copied().unwrap_or(0)
}

// Adds the vertices of the rows, where the Q-nodes take the cells in turn. Linear in the edges of the rows.
fn push_verts(
    alloc: Global,
    mirrored: bool,
    cells: &[usize],
    rows: &[PlantedNode],
    verts: &mut Verts,
) -> Result<(), Memory>
    ensures { OnOk result (verts.new ≡ verts.old ++ planted_verts mirrored cells.now 0 rows.now) }
{
    let mut place = 0;
    for k in 0..rows.len() {
        let row = &rows[k];
        verts.push(vert_of(alloc, mirrored, cell_at(cells, place), row)?)?;
        if row.fixed {
            place += 1;
        }
    }
    Ok(())
}

// The place of the first pair whose first edge is greater, or the number of pairs. Linear.
fn place_for(pairs: &[(usize, usize)], edge: usize) -> usize
    ensures { result ≡ place_of pairs.now edge }
{
    for k in 0..pairs.len() {
        if edge < pairs[k].0 {
            return k;
        }
    }
    pairs.len()
}

// Puts a pair in front of the first one whose first edge is greater. Linear.
fn put_pair(pairs: &mut Vec<(usize, usize)>, pair: (usize, usize)) -> Result<(), Memory>
    ensures { OnOk result (pairs.new.items ≡ put (λ x. x.0) pair pairs.old.items) }
{
    let place = place_for(pairs.as_slice(), pair.0);
    pairs.insert(place, pair)?;
    Ok(())
}

// The pairs as a list. Linear.
fn listed(alloc: Global, pairs: &[(usize, usize)]) -> Result<Pairs, Memory>
    ensures { IfOk result (λ list. list ≡ pairs.now) }
{
    let mut list = Items::new(alloc);
    for pair in pairs {
        list.push(*pair)?;
    }
    Ok(list)
}

// Each of the first edges with the second one at its place, in the order of the first. At most quadratic.
fn node_pairs(alloc: Global, firsts: &[usize], seconds: &[usize]) -> Result<Pairs, Memory>
    ensures { IfOk result (λ pairs. pairs ≡ pairs_by_first (zip firsts.now seconds.now)) }
{
    let number = firsts.len().min(seconds.len());
    let mut sorted = Vec::new(alloc);
    for j in 0..number {
        let k = number - 1 - j;
        put_pair(&mut sorted, (firsts[k], seconds[k]))?;
    }
    listed(alloc, sorted.as_slice())
}

// The pipe between the vertices of two P-nodes. At most quadratic in the number of their edges.
fn pipe_of(
    alloc: Global,
    name: usize,
    row: &PlantedNode,
    other: &PlantedNode,
) -> Result<Pipe, Memory>
    ensures { IfOk result (λ pipe. pipe ≡ planted_pipe name row.now other.now) }
{
    let pairs = node_pairs(alloc, row.edges.as_slice(), other.edges.as_slice())?;
    Ok(Pipe {
        name,
        a: row.vertex,
        b: other.vertex,
        pairs,
    })
}

// Adds the pipes between P-nodes of one place, which take the names in turn. At most quadratic.
fn push_pipes(
    alloc: Global,
    names: &[usize],
    rows: &[PlantedNode],
    others: &[PlantedNode],
    pipes: &mut Pipes,
) -> Result<(), Memory>
    ensures { OnOk result (pipes.new ≡ pipes.old ++ planted_pipes names.now 0 (zip rows.now others.now)) }
{
    let number = rows.len().min(others.len());
    let mut place = 0;
    for k in 0..number {
        let row = &rows[k];
        if !row.fixed {
            pipes.push(pipe_of(alloc, cell_at(names, place), row, &others[k])?)?;
            place += 1;
        }
    }
    Ok(())
}

// The new vertices of both ends. Linear in the edges of the rows.
fn both_verts(
    alloc: Global,
    u: &PlantedEnd,
    w: &PlantedEnd,
    cells: &[usize],
) -> Result<Verts, Memory>
    ensures { IfOk result (λ verts. verts ≡ planted_verts false cells.now 0 u.now.rows ++ planted_verts true cells.now 0 w.now.rows) }
{
    let mut verts = Items::new(alloc);
    push_verts(alloc, false, cells, u.rows.as_slice(), &mut verts)?;
    push_verts(alloc, true, cells, w.rows.as_slice(), &mut verts)?;
    Ok(verts)
}

// The moves of the edges of both ends. At most quadratic.
fn both_moves(alloc: Global, u: &PlantedEnd, w: &PlantedEnd) -> Result<Moves, Memory>
    ensures { IfOk result (λ moves. moves ≡ end_moves u.now.end u.now.rows u.now.own ++ end_moves w.now.end w.now.rows w.now.own) }
{
    let mut moves = Items::new(alloc);
    push_moves(u.end, u.rows.as_slice(), u.own.as_slice(), &mut moves)?;
    push_moves(w.end, w.rows.as_slice(), w.own.as_slice(), &mut moves)?;
    Ok(moves)
}

// The edges between the nodes at both ends. At most quadratic.
fn both_edges(alloc: Global, u: &PlantedEnd, w: &PlantedEnd) -> Result<EdgeRows, Memory>
    ensures { IfOk result (λ edges. edges ≡ tree_edges u.now.rows u.now.edges ++ tree_edges w.now.rows w.now.edges) }
{
    let mut edges = Items::new(alloc);
    push_tree_edges(u.rows.as_slice(), u.edges.as_slice(), &mut edges)?;
    push_tree_edges(w.rows.as_slice(), w.edges.as_slice(), &mut edges)?;
    Ok(edges)
}

// The rewrite of Propagate from what is planted at both ends. At most quadratic in the edges of the rows.
pub(crate) fn rewrite_of(
    alloc: Global,
    pipe: usize,
    u: &PlantedEnd,
    w: &PlantedEnd,
    cells: &[usize],
    names: &[usize],
) -> Result<Rewrite, Memory>
    ensures { IfOk result (λ r. r ≡ propagating pipe u.now w.now cells.now names.now) }
{
    let mut drop_pipes = Items::new(alloc);
    drop_pipes.push(pipe)?;
    let mut drop_verts = Items::new(alloc);
    drop_verts.push(u.end)?;
    drop_verts.push(w.end)?;
    let mut add_pipes = Items::new(alloc);
    push_pipes(
        alloc,
        names,
        u.rows.as_slice(),
        w.rows.as_slice(),
        &mut add_pipes,
    )?;
    Ok(Rewrite {
        drop_pipes,
        drop_verts,
        add_verts: both_verts(alloc, u, w, cells)?,
        set_kinds: Items::new(alloc),
        moves: both_moves(alloc, u, w)?,
        add_edges: both_edges(alloc, u, w)?,
        add_pipes,
    })
}
