// Orders of small graphs, worked out by hand.
ghost use Rattle.std.specs.Prelude.{◌≡◌, ◌<◌, ◌≤◌, false, true, length, slice_index, slice_index_or, IsTrue, IfOk, EachIndex, MatchOption};
ghost use Rattle.cp_base.specs.Graphs.{AreWithin};
ghost use Rattle.cp_conn.specs.Blocks.{HaveNoLoop};
ghost use Rattle.cp_ears.specs.Bipolar.{HaveEdges, IsOneBlock};

use crate::{bipolar, prefixes_are_connected};
use cp_base::{Graph, Memory};
use cp_conn::{blocks, search_tree};
use std::alloc::Global;
use std::test::Fail;

// Whether all numbers are 0.
fn are_zero(numbers: &[usize]) -> bool
    ensures { IsTrue result → EachIndex numbers.now (λ k. slice_index numbers.now k ≡ 0) }
{
    numbers.iter().all(|number| *number == 0)
}

// Whether all are true.
fn are_true(flags: &[bool]) -> bool
    ensures { IsTrue result → EachIndex flags.now (λ k. slice_index_or flags.now k false ≡ true) }
{
    flags.iter().all(|flag| *flag)
}

// Whether each vertex is an end of some edge.
fn have_edges(alloc: Global, vertices: usize, ends: &[(usize, usize)]) -> Result<bool, Memory>
    requires { AreWithin vertices ends.now }
    ensures { IfOk result (λ all. IsTrue all → HaveEdges vertices ends.now) }
{
    let mut touched = vec![in alloc; false; vertices]?;
    for (first, second) in ends {
        touched[*first] = true;
        touched[*second] = true;
    }
    Ok(are_true(touched.as_slice()))
}

// The graph, if it is one block with an edge at each vertex.
fn graph_of_one_block(
    alloc: Global,
    vertices: usize,
    ends: &[(usize, usize)],
) -> Result<Option<Graph>, Memory>
    requires ends_within { AreWithin vertices ends.now }
    requires no_loop { HaveNoLoop ends.now }
    ensures graph { IfOk result (λ found. MatchOption found (Unit {0}) (λ g. g ≡ record { vertices = vertices; ends = ends.now })) }
    ensures one_block { IfOk result (λ found. MatchOption found (Unit {0}) (λ g. IsOneBlock g.ends)) }
    ensures each_has_edge { IfOk result (λ found. MatchOption found (Unit {0}) (λ g. HaveEdges g.vertices g.ends)) }
{
    let g = Graph::from_ends(alloc, vertices, ends)?;
    let numbers = blocks(alloc, &g)?;
    if !are_zero(numbers.as_slice()) || !have_edges(alloc, vertices, ends)? {
        return Ok(None);
    }
    Ok(Some(g))
}

// Whether the graph is one block with an edge at each vertex, and its order between the ends of an edge
// is one of these two.
fn has_order(
    alloc: Global,
    vertices: usize,
    ends: &[(usize, usize)],
    edge: usize,
    order: &[usize],
    other: &[usize],
) -> Result<bool, Memory>
    requires ends_within { AreWithin vertices ends.now }
    requires no_loop { HaveNoLoop ends.now }
    requires edge_within { edge < length ends.now }
{
    let (s, t) = ends[edge];
    match graph_of_one_block(alloc, vertices, ends)? {
        Some(g) => {
            let found = bipolar(alloc, &g, s, t)?;
            prefixes_are_connected(&g, s, t, found.as_slice());
            Ok(found.as_slice() == order || found.as_slice() == other)
        }
        None => Ok(false),
    }
}

// Whether the graph is one block with an edge at each vertex, and this is its search tree from the first
// end of an edge over the second: the order, and for each place from the second on the place of the
// parent and the low point.
fn has_tree(
    alloc: Global,
    vertices: usize,
    ends: &[(usize, usize)],
    edge: usize,
    order: &[usize],
    places: &[(usize, usize)],
) -> Result<bool, Memory>
    requires ends_within { AreWithin vertices ends.now }
    requires no_loop { HaveNoLoop ends.now }
    requires edge_within { edge < length ends.now }
{
    let (s, t) = ends[edge];
    match graph_of_one_block(alloc, vertices, ends)? {
        Some(g) => {
            let tree = search_tree(alloc, &g, s, t)?;
            let found = tree.up.iter().copied().zip(tree.low.iter().copied());
            Ok(tree.order.as_slice() == order && found.skip(1).eq(places.iter().copied()))
        }
        None => Ok(false),
    }
}

#[test]
fn orders_of_small_graphs(rt: HostRuntime) -> Result<(), Fail> {
    let alloc = rt.alloc();
    assert_eq!(rt;
        has_order(alloc, 3, &[(0, 1), (1, 2), (0, 2)], 2, &[0, 1, 2], &[]),
        Ok(true),
        "a triangle"
    );
    assert_eq!(rt;
        has_order(alloc, 2, &[(0, 1), (1, 0)], 1, &[1, 0], &[]),
        Ok(true),
        "parallel edges"
    );
    let all_pairs = [(0, 1), (0, 2), (0, 3), (1, 2), (1, 3), (2, 3)];
    assert_eq!(rt;
        has_order(alloc, 4, &all_pairs, 2, &[0, 1, 2, 3], &[0, 2, 1, 3]),
        Ok(true),
        "four vertices, all joined"
    );
    let six = [(0, 1), (1, 2), (2, 3), (3, 4), (4, 5), (5, 0)];
    assert_eq!(rt;
        has_order(alloc, 6, &six, 5, &[5, 4, 3, 2, 1, 0], &[]),
        Ok(true),
        "a cycle"
    );
    let chord = [(0, 1), (1, 2), (2, 3), (3, 0), (1, 3)];
    assert_eq!(rt;
        has_order(alloc, 4, &chord, 3, &[3, 2, 1, 0], &[]),
        Ok(true),
        "a cycle with a chord"
    );
    Ok(())
}

#[test]
fn search_trees_of_small_graphs(rt: HostRuntime) -> Result<(), Fail> {
    let alloc = rt.alloc();
    assert_eq!(rt;
        has_tree(
            alloc,
            3,
            &[(0, 1), (1, 2), (0, 2)],
            2,
            &[0, 2, 1],
            &[(0, 0), (1, 0)]
        ),
        Ok(true),
        "a triangle"
    );
    let chord = [(0, 1), (1, 2), (2, 3), (3, 0), (1, 3)];
    assert_eq!(rt;
        has_tree(
            alloc,
            4,
            &chord,
            3,
            &[3, 0, 1, 2],
            &[(0, 0), (1, 0), (2, 0)]
        ),
        Ok(true),
        "a cycle with a chord"
    );
    let long = [(0, 1), (1, 2), (2, 3), (3, 4), (4, 0), (1, 3)];
    assert_eq!(rt;
        has_tree(
            alloc,
            5,
            &long,
            0,
            &[0, 1, 3, 4, 2],
            &[(0, 0), (1, 0), (2, 0), (2, 1)]
        ),
        Ok(true),
        "a low point that is the parent of the parent"
    );
    Ok(())
}

// Whether the order of a long cycle goes round it.
fn goes_round(alloc: Global, vertices: usize) -> Result<bool, Memory>
    requires { 2 ≤ vertices }
{
    let mut ends = Vec::new(alloc);
    let mut order = Vec::new(alloc);
    for vertex in 0..vertices - 1 {
        ends.push((vertex, vertex + 1))?;
        order.push(vertex)?;
    }
    ends.push((vertices - 1, 0))?;
    order.push(vertices - 1)?;
    order.reverse();
    has_order(
        alloc,
        vertices,
        ends.as_slice(),
        vertices - 1,
        order.as_slice(),
        &[],
    )
}

#[test]
fn order_of_a_long_cycle(rt: HostRuntime) -> Result<(), Fail> {
    assert_eq!(rt; goes_round(rt.alloc(), 100_000), Ok(true));
    Ok(())
}
