// Embeddings of small blocks, worked out by hand.
ghost use Rattle.std.specs.Prelude.{◌≡◌, ℕ, ◌<◌, ◌≤◌, false, true, length, slice_index, slice_index_or, replicate, None, IsTrue, IfOk, EachIndex, MatchOption};
ghost use Rattle.cp_base.specs.Graphs.{AreWithin};
ghost use Rattle.cp_conn.specs.Blocks.{HaveNoLoop};
ghost use Rattle.cp_ears.specs.Bipolar.{HaveEdges, IsOneBlock};

use crate::{EmbedFault, Embedded, PsiList, QBlock, embed, unwind};
use cp_base::{Branch, CycList, Graph, Items, Memory};
use cp_conn::blocks;
use cp_force::OrderTree;
use cp_parity::{ParityFault, solve};
use cp_pq::Tree;
use std::alloc::Global;
use std::test::Fail;

// Whether all numbers are 0.
fn are_zero(numbers: &[usize]) -> bool
    ensures { IsTrue result → EachIndex numbers.now (λ k. slice_index numbers.now k ≡ 0) }
{
    numbers.iter().all(|number| *number == 0)
}

// Whether all are true.
fn are_true(flags: &[bool]) -> bool
    ensures { IsTrue result → EachIndex flags.now (λ k. slice_index_or flags.now k false ≡ true) }
{
    flags.iter().all(|flag| *flag)
}

// Whether each vertex is an end of some edge.
fn have_edges(alloc: Global, vertices: usize, ends: &[(usize, usize)]) -> Result<bool, Memory>
    requires { AreWithin vertices ends.now }
    ensures { IfOk result (λ all. IsTrue all → HaveEdges vertices ends.now) }
{
    let mut touched = vec![in alloc; false; vertices]?;
    for (first, second) in ends {
        touched[*first] = true;
        touched[*second] = true;
    }
    Ok(are_true(touched.as_slice()))
}

// No list for each of so many vertices.
fn no_lists(alloc: Global, vertices: usize) -> Result<PsiList, Memory>
    ensures { IfOk result (λ lists. lists ≡ replicate vertices None) }
{
    let mut lists = Items::new(alloc);
    for _ in 0..vertices {
        lists.push(None)?;
    }
    Ok(lists)
}

// The tree of a vertex in the graph without lists, where the graph is one block with an edge at each vertex and the
// vertex has two edges.
fn embedded(
    alloc: Global,
    vertices: usize,
    ends: &[(usize, usize)],
    vertex: usize,
) -> Result<Option<Embedded<Tree>>, EmbedFault>
    requires ends_within { AreWithin vertices ends.now }
    requires no_loop { HaveNoLoop ends.now }
    requires vertex_within { vertex < vertices }
{
    let graph = Graph::from_ends(alloc, vertices, ends)?;
    let numbers = blocks(alloc, &graph)?;
    if !are_zero(numbers.as_slice()) || !have_edges(alloc, vertices, ends)? {
        return Ok(None);
    }
    let lists = no_lists(alloc, vertices)?;
    let block = QBlock::from_parts(alloc, graph, lists)?;
    if block.edges_at(vertex).len() < 2 {
        return Ok(None);
    }
    let found = embed(alloc, &block, vertex)?;
    Ok(Some(found))
}

// An order of the vertex, with the lists of all vertices.
fn unwound(
    alloc: Global,
    found: &Embedded<Tree>,
) -> Result<Option<(CycList, Vec<CycList>)>, Memory> {
    let tree = found.tree();
    let bits = match solve(alloc, OrderTree::vars(tree), OrderTree::equations(tree)) {
        Ok(bits) => bits,
        Err(ParityFault::Conflict { .. }) => return Ok(None),
        Err(ParityFault::Memory) => return Err(Memory),
    };
    let order = tree.order_by(alloc, bits.as_slice())?;
    let lists = unwind(alloc, found, bits.as_slice(), &order)?;
    Ok(Some((order, lists)))
}

// Whether the lists are these up to turns.
fn are_lists(alloc: Global, lists: &[CycList], wanted: &[[usize; 3]]) -> Result<bool, Memory> {
    for i in 0..lists.len() {
        if i >= wanted.len() {
            return Ok(false);
        }
        let list = CycList::from_slice(alloc, &wanted[i])?;
        if !list.same_cycle(&lists[i]) {
            return Ok(false);
        }
    }
    Ok(lists.len() == wanted.len())
}

#[test]
fn k4_has_one_system_and_its_mirror(rt: HostRuntime) -> Result<(), Fail> {
    let alloc = rt.alloc();
    let ends = [(0, 1), (0, 2), (0, 3), (1, 2), (1, 3), (2, 3)];
    let found = embedded(alloc, 4, &ends, 3)?.expect(&rt, "one block");
    assert_eq!(rt; found.pole(), None);
    let (_order, lists) = unwound(alloc, &found)?.expect(&rt, "a pair");
    let one = [[0, 2, 1], [3, 4, 0], [1, 5, 3], [2, 4, 5]];
    let other = [[1, 2, 0], [0, 4, 3], [3, 5, 1], [5, 4, 2]];
    let is_one = are_lists(alloc, lists.as_slice(), &one)?;
    let is_other = are_lists(alloc, lists.as_slice(), &other)?;
    assert!(rt; is_one || is_other);
    Ok(())
}

#[test]
fn the_centre_of_a_wheel_has_one_order_and_its_mirror(rt: HostRuntime) -> Result<(), Fail> {
    let alloc = rt.alloc();
    let ends = [
        (0, 1),
        (0, 2),
        (0, 3),
        (0, 4),
        (1, 2),
        (2, 3),
        (3, 4),
        (4, 1),
    ];
    let found = embedded(alloc, 5, &ends, 0)?.expect(&rt, "one block");
    assert_eq!(rt; found.pole(), None);
    let shape = found.tree().shape(alloc)?;
    assert_eq!(rt; shape.root, 0);
    assert!(rt; matches!(&shape.body, Branch::Q(_)));
    if let Branch::Q(kids) = &shape.body {
        assert_eq!(rt; kids.len(), 3);
        assert!(rt; matches!(kids.items()[1], Branch::Leaf(2)));
    }
    Ok(())
}

#[test]
fn parallel_edges_have_a_pole(rt: HostRuntime) -> Result<(), Fail> {
    let ends = [(0, 1), (0, 1), (1, 0), (0, 1)];
    let found = embedded(rt.alloc(), 2, &ends, 1)?.expect(&rt, "one block");
    assert_eq!(rt; found.pole(), Some(0));
    Ok(())
}

#[test]
fn k5_and_k33_have_no_tree(rt: HostRuntime) -> Result<(), Fail> {
    let alloc = rt.alloc();
    let k5 = embedded(
        alloc,
        5,
        &[
            (0, 1),
            (0, 2),
            (0, 3),
            (0, 4),
            (1, 2),
            (1, 3),
            (1, 4),
            (2, 3),
            (2, 4),
            (3, 4),
        ],
        0,
    );
    assert!(rt; matches!(k5, Err(EmbedFault::NotPlanar)));
    let k33 = embedded(
        alloc,
        6,
        &[
            (0, 3),
            (0, 4),
            (0, 5),
            (1, 3),
            (1, 4),
            (1, 5),
            (2, 3),
            (2, 4),
            (2, 5),
        ],
        0,
    );
    assert!(rt; matches!(k33, Err(EmbedFault::NotPlanar)));
    Ok(())
}
