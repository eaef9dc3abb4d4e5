// What the calls answer on small graphs, worked out by hand, and on two long ones.
ghost use Rattle.std.specs.Prelude.{◌≡◌, ℕ, ◌<◌, ◌⊎◌, length, slice_index_or, IsTrue};
ghost use Rattle.cp_base.specs.Graphs.{AreWithin};
ghost use Rattle.cp_conn.specs.Blocks.{HaveNoLoop};

use crate::{blocks, components, components_without, edges_by_block, is_cut_vertex};
use cp_base::{Graph, Memory};
use std::alloc::Global;
use std::test::Fail;

// The vertices of the long path and of the long cycle.
const LONG: usize = 100_000;

// Whether these are the component numbers of a graph, these its only cut vertices and these the block
// numbers of its edges.
fn has_parts(
    alloc: Global,
    vertices: usize,
    ends: &[(usize, usize)],
    numbers: &[usize],
    cuts: &[usize],
    block_numbers: &[usize],
) -> Result<bool, Memory>
    requires ends_within { AreWithin vertices ends.now }
    requires no_loop { HaveNoLoop ends.now }
{
    let g = Graph::from_ends(alloc, vertices, ends)?;
    let by_vertex = components(alloc, &g)?;
    let by_edge = blocks(alloc, &g)?;
    let mut right = by_vertex.as_slice() == numbers && by_edge.as_slice() == block_numbers;
    for v in 0..g.vertices() {
        if is_cut_vertex(alloc, &g, v)? != cuts.contains(&v) {
            right = false;
        }
    }
    Ok(right)
}

// Whether these are the component numbers of a graph where some vertices are removed.
fn has_parts_without(
    alloc: Global,
    ends: &[(usize, usize)],
    removed: &[bool],
    numbers: &[usize],
) -> Result<bool, Memory>
    requires { AreWithin (length removed.now) ends.now }
{
    let g = Graph::from_ends(alloc, removed.len(), ends)?;
    let by_vertex = components_without(alloc, &g, removed)?;
    Ok(by_vertex.as_slice() == numbers)
}

// Whether these are the edges at a vertex, by block.
fn has_blocks_at(
    alloc: Global,
    vertices: usize,
    ends: &[(usize, usize)],
    v: usize,
    parts: &[&[usize]],
) -> Result<bool, Memory>
    requires ends_within { AreWithin vertices ends.now }
    requires no_loop { HaveNoLoop ends.now }
    requires within { v < vertices }
{
    let g = Graph::from_ends(alloc, vertices, ends)?;
    let found = edges_by_block(alloc, &g, v)?;
    let mut right = found.len() == parts.len();
    for (list, part) in found.items().iter().zip(parts) {
        if list.items() != *part {
            right = false;
        }
    }
    Ok(right)
}

#[test]
fn parts_of_small_graphs(rt: HostRuntime) -> Result<(), Fail> {
    let alloc = rt.alloc();
    let tail = [(0, 1), (1, 2), (2, 0), (2, 3)];
    let found = has_parts(alloc, 5, &tail, &[0, 0, 0, 0, 1], &[2], &[0, 0, 0, 1]);
    assert_eq!(rt;
        found,
        Ok(true),
        "a triangle with a tail, and a vertex alone"
    );
    let found = has_parts(alloc, 0, &[], &[], &[], &[]);
    assert_eq!(rt; found, Ok(true), "no vertex");
    let parallel = [(0, 1), (1, 0)];
    let found = has_parts(alloc, 2, &parallel, &[0, 0], &[], &[0, 0]);
    assert_eq!(rt; found, Ok(true), "parallel edges");
    let path = [(2, 1), (1, 0)];
    let found = has_parts(alloc, 3, &path, &[0, 0, 0], &[1], &[0, 1]);
    assert_eq!(rt; found, Ok(true), "a path");
    let two = [(4, 3), (0, 2), (2, 4), (1, 0), (3, 2), (1, 2)];
    let found = has_parts(alloc, 5, &two, &[0, 0, 0, 0, 0], &[2], &[0, 1, 0, 1, 0, 1]);
    assert_eq!(rt; found, Ok(true), "two triangles at one vertex");
    let square = [(0, 1), (2, 3), (1, 2), (3, 0), (3, 1)];
    let found = has_parts(alloc, 4, &square, &[0, 0, 0, 0], &[], &[0, 0, 0, 0, 0]);
    assert_eq!(rt; found, Ok(true), "a square with a diagonal");
    let found = has_blocks_at(alloc, 5, &tail, 2, &[&[1, 2], &[3]]);
    assert_eq!(rt; found, Ok(true), "a triangle and a bridge");
    let found = has_blocks_at(alloc, 5, &tail, 4, &[]);
    assert_eq!(rt; found, Ok(true), "a vertex without edges");
    let found = has_blocks_at(alloc, 2, &parallel, 1, &[&[0, 1]]);
    assert_eq!(rt; found, Ok(true), "two parallel edges");
    let found = has_blocks_at(alloc, 5, &two, 2, &[&[1, 5], &[2, 4]]);
    assert_eq!(rt; found, Ok(true), "two triangles");
    Ok(())
}

#[test]
fn parts_where_vertices_are_removed(rt: HostRuntime) -> Result<(), Fail> {
    let alloc = rt.alloc();
    let tail = [(0, 1), (1, 2), (2, 0), (2, 3)];
    let none = [false, false, false, false, false];
    let found = has_parts_without(alloc, &tail, &none, &[0, 0, 0, 0, 1]);
    assert_eq!(rt; found, Ok(true), "no vertex of a triangle with a tail");
    let two = [false, false, true, false, false];
    let found = has_parts_without(alloc, &tail, &two, &[0, 0, 1, 2, 3]);
    assert_eq!(rt; found, Ok(true), "its cut vertex");
    let theta = [(0, 1), (0, 2), (2, 4), (0, 3), (3, 1), (4, 1)];
    let poles = [true, true, false, false, false];
    let found = has_parts_without(alloc, &theta, &poles, &[0, 1, 2, 3, 2]);
    assert_eq!(rt; found, Ok(true), "two poles with three paths between them");
    let all = [true, true, true, true, true];
    let found = has_parts_without(alloc, &theta, &all, &[0, 1, 2, 3, 4]);
    assert_eq!(rt; found, Ok(true), "all vertices");
    Ok(())
}

// Whether all ends are vertices.
fn are_within(vertices: usize, ends: &[(usize, usize)]) -> bool
    ensures { IsTrue result → AreWithin vertices ends.now }
{
    ends.iter()
        .all(|pair| pair.0 < vertices && pair.1 < vertices)
}

// Whether no edge is a loop.
fn have_no_loop(ends: &[(usize, usize)]) -> bool
    ensures { IsTrue result → HaveNoLoop ends.now }
{
    ends.iter().all(|pair| pair.0 != pair.1)
}

// Whether the graph is connected, and its edges are in one block or each in a block of its own.
fn is_long(alloc: Global, ends: &[(usize, usize)], in_one_block: bool) -> Result<bool, Memory> {
    if !are_within(LONG, ends) || !have_no_loop(ends) {
        return Ok(false);
    }
    let g = Graph::from_ends(alloc, LONG, ends)?;
    let mut right = components(alloc, &g)?.iter().all(|number| *number == 0);
    for (edge, number) in blocks(alloc, &g)?.iter().enumerate() {
        if *number != if in_one_block { 0 } else { edge } {
            right = false;
        }
    }
    Ok(right)
}

#[test]
fn long_graphs(rt: HostRuntime) -> Result<(), Fail> {
    let alloc = rt.alloc();
    let mut ends = Vec::new(alloc);
    for v in 1..LONG {
        ends.push((v - 1, v))?;
    }
    assert_eq!(rt; is_long(alloc, ends.as_slice(), false), Ok(true), "a path");
    ends.push((LONG - 1, 0))?;
    assert_eq!(rt; is_long(alloc, ends.as_slice(), true), Ok(true), "a cycle");
    Ok(())
}
