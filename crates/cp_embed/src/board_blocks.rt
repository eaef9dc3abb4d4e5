// Blocks of a board, cut out as blocks with lists.
ghost use Rattle.std.specs.Prelude.{◌≡◌, true, false, filter, map, slice_index, eqb, length, IfOk, MatchOption};
ghost use Rattle.std.specs.List.{All, Contains};
ghost use Rattle.std.specs.List.Sorted.{IsStrictlyIncreasing};
ghost use Rattle.cp_conn.specs.NamedGraphs.{rank};
ghost use Rattle.cp_board.specs.Names.{has};
ghost use Rattle.cp_board.specs.Instances.{IsSynchronized, vert_names, edge_names, graph};
ghost use Rattle.cp_sync.specs.Numbering.{numbered_ends};
ghost use Rattle.cp_embed.specs.BoardBlocks.{part_with, list_among, AreBlockEdges, AreEdgesOfBlock, IsCutOut};
ghost use Rattle.cp_embed.specs.BoardCuts.{both_ends};

use crate::block::{PsiList, QBlock};
use cp_base::{CycList, Graph, Items, Memory};
use cp_conn::blocks;
use cp_sync::{Board, Names, graph_of};
use std::alloc::Global;

/// A block of a board.
#[derive(Drop)]
pub struct EdgeBlock {
    /// The block. Vertex `i` is the one named `verts[i]`, and edge `j` the one named `edges[j]`. A Q-vertex has what
    /// its list has of the edges of the block; a P-vertex has no list.
    pub block: QBlock,
    /// The names of the vertices, rising.
    pub verts: Names,
    /// The names of the edges, rising.
    pub edges: Names,
}

// The place of a number among some that rise, or `None` where it is none of them. Logarithmic.
fn place_among(names: &[usize], name: usize) -> Option<usize>
    requires { IsStrictlyIncreasing names.now }
    ensures { MatchOption result (has names.now name ≡ false) (λ place. (has names.now name ≡ true) × (place ≡ rank names.now name)) }
{
    match names.binary_search(&name) {
        Ok(place) => Some(place),
        Err(_) => None,
    }
}

/// The place of a number that is one of those that rise. Logarithmic.
pub fn rank_among(names: &[usize], name: usize) -> usize
    requires rising { IsStrictlyIncreasing names.now }
    requires one { Contains names.now name }
    ensures { result ≡ rank names.now name }
{
    match place_among(names, name) {
        Some(place) => place,
        None => unreachable!(),
    }
}

// The list of these numbers. Linear.
fn kept_names(alloc: Global, numbers: &[usize]) -> Result<Names, Memory>
    ensures { IfOk result (λ names. names ≡ numbers.now) }
{
    let mut names = Items::new(alloc);
    for number in numbers {
        names.push(*number)?;
    }
    Ok(names)
}

// The two ends of each edge, one behind the other. It asks the board for the ends of each edge once.
fn both_ends<B: Board>(alloc: Global, board: &B, edges: &[usize]) -> Result<Vec<usize>, Memory>
    requires live { All (Contains (edge_names (B.instance board.now))) edges.now }
    ensures { IfOk result (λ ends. ends.items ≡ both_ends (graph (B.instance board.now)) edges.now) }
{
    let mut verts = Vec::new(alloc);
    for e in edges {
        let (a, b) = board.ends(*e);
        verts.push(a)?;
        verts.push(b)?;
    }
    Ok(verts)
}

// The vertices that are ends of some of the edges, rising. Linear, up to a logarithm.
fn verts_of<B: Board>(alloc: Global, board: &B, edges: &[usize]) -> Result<Vec<usize>, Memory>
    requires rules { IsSynchronized (B.instance board.now) }
    requires live { All (Contains (edge_names (B.instance board.now))) edges.now }
    ensures { IfOk result (λ verts. verts.items ≡ (part_with (graph (B.instance board.now)) edges.now).verts) }
{
    let mut verts = both_ends(alloc, board, edges)?;
    verts.sort_unstable();
    verts.dedup();
    Ok(verts)
}

// The ends of the edges by the places of the vertices. Linear, up to a logarithm.
fn ends_among<B: Board>(
    alloc: Global,
    board: &B,
    verts: &[usize],
    edges: &[usize],
) -> Result<Vec<(usize, usize)>, Memory>
    requires rules { IsSynchronized (B.instance board.now) }
    requires live { All (Contains (edge_names (B.instance board.now))) edges.now }
    requires verts { verts.now ≡ (part_with (graph (B.instance board.now)) edges.now).verts }
    ensures { IfOk result (λ ends. ends.items ≡ map (numbered_ends (part_with (graph (B.instance board.now)) edges.now)) edges.now) }
{
    let mut ends = Vec::new(alloc);
    for e in edges {
        let (a, b) = board.ends(*e);
        ends.push((rank_among(verts, a), rank_among(verts, b)))?;
    }
    Ok(ends)
}

// Those of a list that are among the edges, each by its place there. Linear in the list, up to a logarithm.
fn places_among(alloc: Global, edges: &[usize], list: &[usize]) -> Result<Vec<usize>, Memory>
    requires { IsStrictlyIncreasing edges.now }
    ensures { IfOk result (λ places. places.items ≡ map (rank edges.now) (filter (has edges.now) list.now)) }
{
    let mut places = Vec::new(alloc);
    for e in list {
        match place_among(edges, *e) {
            Some(place) => places.push(place)?,
            None => {}
        }
    }
    Ok(places)
}

// What the list of a Q-vertex has of the edges, each by its place among them. Linear in the list, up to a logarithm.
fn list_of<B: Board>(
    alloc: Global,
    board: &B,
    edges: &[usize],
    v: usize,
) -> Result<Option<CycList>, Memory>
    requires rising { IsStrictlyIncreasing edges.now }
    requires live { Contains (vert_names (B.instance board.now)) v }
    ensures { IfOk result (λ list. list ≡ list_among (B.instance board.now) edges.now v) }
{
    if !board.is_q(v) {
        return Ok(None);
    }
    let places = places_among(alloc, edges, board.psi(v).items())?;
    let list = CycList::from_slice(alloc, places.as_slice())?;
    Ok(Some(list))
}

// What the list of each Q-vertex has of the edges. Linear in these lists, up to a logarithm.
fn lists_of<B: Board>(
    alloc: Global,
    board: &B,
    verts: &[usize],
    edges: &[usize],
) -> Result<PsiList, Memory>
    requires rising { IsStrictlyIncreasing edges.now }
    requires live { All (Contains (vert_names (B.instance board.now))) verts.now }
    ensures { IfOk result (λ lists. lists ≡ map (list_among (B.instance board.now) edges.now) verts.now) }
{
    let mut lists = Items::new(alloc);
    for v in verts {
        lists.push(list_of(alloc, board, edges, *v)?)?;
    }
    Ok(lists)
}

/// The block that has exactly these edges, which rise. It asks the board twice for the ends of each edge and once for
/// the list of each Q-vertex, and is linear in these, up to a logarithm.
pub fn cut_out<B: Board>(alloc: Global, board: &B, edges: &[usize]) -> Result<EdgeBlock, Memory>
    requires rules { IsSynchronized (B.instance board.now) }
    requires block { AreEdgesOfBlock (B.instance board.now) edges.now }
    ensures { IfOk result (λ cut. IsCutOut (B.instance board.now) edges.now cut) }
{
    let verts = verts_of(alloc, board, edges)?;
    let ends = ends_among(alloc, board, verts.as_slice(), edges)?;
    let lists = lists_of(alloc, board, verts.as_slice(), edges)?;
    let graph = Graph::from_ends(alloc, verts.len(), ends.as_slice())?;
    let block = QBlock::from_parts(alloc, graph, lists)?;
    Ok(EdgeBlock {
        block,
        verts: kept_names(alloc, verts.as_slice())?,
        edges: kept_names(alloc, edges)?,
    })
}

// The names with this number. Linear.
fn names_numbered(
    alloc: Global,
    names: &[usize],
    numbers: &[usize],
    number: usize,
) -> Result<Vec<usize>, Memory>
    requires rising { IsStrictlyIncreasing names.now }
    requires one_each { length numbers.now ≡ length names.now }
    ensures { IfOk result (λ kept. kept.items ≡ filter (λ e. eqb (slice_index numbers.now (rank names.now e)) number) names.now) }
{
    let mut kept = Vec::new(alloc);
    for k in 0..names.len() {
        if numbers[k] == number {
            kept.push(names[k])?;
        }
    }
    Ok(kept)
}

/// The block of an edge (Whitney 1932), with vertices and edges numbered in the order of their names. It asks the board
/// at most three times for the ends of each edge, and is linear in the board and in the lists of the Q-vertices of the
/// block, up to a logarithm.
pub fn block_of<B: Board>(alloc: Global, board: &B, e: usize) -> Result<EdgeBlock, Memory>
    requires { Contains (edge_names (B.instance board.now)) e }
    ensures edges { IfOk result (λ cut. AreBlockEdges (B.instance board.now) e cut.edges) }
    ensures cut { IfOk result (λ cut. IsCutOut (B.instance board.now) cut.edges cut) }
{
    let g = graph_of(alloc, board)?;
    let numbers = blocks(alloc, &g.graph)?;
    let number = numbers[rank_among(g.edges.items(), e)];
    let edges = names_numbered(alloc, g.edges.items(), numbers.as_slice(), number)?;
    let cut = cut_out(alloc, board, edges.as_slice())?;
    Ok(cut)
}
