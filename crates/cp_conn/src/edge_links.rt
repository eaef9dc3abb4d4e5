// Links between the edges of a block.
ghost use Rattle.std.specs.Prelude.{◌≡◌, ℕ, ◌<◌, length, slice_index, IfOk, OnOk};
ghost use Rattle.cp_base.specs.Graphs.{AreWithin};
ghost use Rattle.cp_conn.specs.Links.{AreBlockLinks};
ghost use Rattle.cp_conn.specs.Blocks.{HaveNoLoop};
ghost use Rattle.cp_conn.specs.SearchForest.{forest_of};
ghost use Rattle.cp_conn.specs.TreeLinks.{deeper, AreEdgeLinks, AddsTreeLinks, LinksUp};

use crate::low_points::low_points;
use crate::search_forest::{SearchForest, search_forest};
use cp_base::{Graph, Memory};
use std::alloc::Global;

// The end of an edge that has the higher number.
fn deeper_end(number: &[usize], first: usize, second: usize) -> usize
    requires first_within { first < length number.now }
    requires second_within { second < length number.now }
    ensures { result ≡ deeper number.now (first, second) }
{
    if number[first] < number[second] {
        second
    } else {
        first
    }
}

// Links each edge with the tree edge of its deeper end.
fn edge_links(
    alloc: Global,
    ends: &[(usize, usize)],
    forest: &SearchForest,
) -> Result<Vec<(usize, usize)>, Memory>
    requires ends_within { AreWithin (length forest.now.number.items) ends.now }
    requires edge_each { length forest.now.edge.items ≡ length forest.now.number.items }
    ensures { IfOk result (λ links. AreEdgeLinks ends.now (forest_of forest.now) (length ends.now) links.items) }
{
    let mut links = Vec::new(alloc);
    for edge in 0..ends.len() {
        let (first, second) = ends[edge];
        let vertex = deeper_end(forest.number.as_slice(), first, second);
        links.push((edge, forest.edge[vertex]))?;
    }
    Ok(links)
}

// Links the tree edges of a vertex and of its parent, where an edge leads from the vertex or from
// below it past the parent.
fn link_up(
    forest: &SearchForest,
    low: &[usize],
    vertex: usize,
    links: &mut Vec<(usize, usize)>,
) -> Result<(), Memory>
    requires number_each { length forest.now.number.items ≡ length low.now }
    requires parent_each { length forest.now.parent.items ≡ length low.now }
    requires edge_each { length forest.now.edge.items ≡ length low.now }
    requires vertex_within { vertex < length low.now }
    requires parent_within { slice_index forest.now.parent.items vertex < length low.now }
    ensures { OnOk result (LinksUp (forest_of forest.now) low.now vertex links.old.items links.new.items) }
{
    let parent = forest.parent[vertex];
    if low[vertex] < forest.number[parent] {
        links.push((forest.edge[vertex], forest.edge[parent]))?;
    }
    Ok(())
}

// Links the tree edges of each vertex and of its parent, where an edge leads from the vertex or from
// below it past the parent.
fn link_tree_edges(
    forest: &SearchForest,
    low: &[usize],
    links: &mut Vec<(usize, usize)>,
) -> Result<(), Memory>
    requires number_each { length forest.now.number.items ≡ length low.now }
    requires parent_each { length forest.now.parent.items ≡ length low.now }
    requires edge_each { length forest.now.edge.items ≡ length low.now }
    requires parents_within { (v : ℕ) → v < length low.now → slice_index forest.now.parent.items v < length low.now }
    ensures { OnOk result (AddsTreeLinks (forest_of forest.now) low.now (length low.now) links.old.items links.new.items) }
{
    for vertex in 0..low.len() {
        link_up(forest, low, vertex, links)?;
    }
    Ok(())
}

// Links for the edges of each block: two edges are in one block where links connect them. Linear in
// the numbers of vertices and edges.
pub(crate) fn block_links(alloc: Global, g: &Graph) -> Result<Vec<(usize, usize)>, Memory>
    requires { HaveNoLoop g.now.ends }
    ensures { IfOk result (λ links. AreBlockLinks g.now.ends g.now.vertices links.items) }
{
    let ends = g.ends();
    let forest = search_forest(alloc, g.vertices(), ends)?;
    let low = low_points(alloc, g.vertices(), ends, &forest)?;
    let mut links = edge_links(alloc, ends, &forest)?;
    link_tree_edges(&forest, low.as_slice(), &mut links)?;
    Ok(links)
}
