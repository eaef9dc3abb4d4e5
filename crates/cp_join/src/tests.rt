// Small instances by hand, where memory suffices.
ghost use Rattle.std.specs.Prelude.{◌≡◌, ◌≤◌, IsTrue, IfOk};
ghost use Rattle.std.specs.List.{Contains};
ghost use Rattle.cp_board.specs.declared.steps.Step.TheVariants.{Join};
ghost use Rattle.cp_board.specs.Instances.{vert_names, pipe_names};
ghost use Rattle.cp_board.specs.Names.{has};
ghost use Rattle.cp_board.specs.Steps.{Allowed};

use crate::vertex_parts::parts_among;
use crate::{join, parts_at};
use cp_base::{Items, Memory};
use cp_board::Pairs;
use cp_conn::EdgeParts;
use cp_sync::{Board, EdgeRow, EdgeRows, Instance, Kind, PartsFault, Pipe, Pipes, Vert, Verts};
use std::alloc::Global;
use std::test::Fail;

// An edge by its name and its ends, and a pipe by its name, its ends and its pairs.
type Edge = (usize, usize, usize);

type PipeParts<'a> = (usize, usize, usize, &'a [(usize, usize)]);

// P-vertices of these names.
fn free_verts(alloc: Global, names: &[usize]) -> Result<Verts, Memory> {
    let mut verts = Verts::new(alloc);
    for name in names {
        verts.push(Vert {
            name: *name,
            kind: Kind::P,
        })?;
    }
    Ok(verts)
}

// The rows of these edges.
fn edge_rows(alloc: Global, list: &[Edge]) -> Result<EdgeRows, Memory> {
    let mut edges = EdgeRows::new(alloc);
    for (name, a, b) in list {
        edges.push(EdgeRow {
            name: *name,
            a: *a,
            b: *b,
        })?;
    }
    Ok(edges)
}

// A pipe of these parts.
fn pipe_of(alloc: Global, parts: &PipeParts) -> Result<Pipe, Memory> {
    let (name, a, b, list) = *parts;
    let mut pairs: Pairs = Items::new(alloc);
    for pair in list {
        pairs.push(*pair)?;
    }
    Ok(Pipe { name, a, b, pairs })
}

// The instance of these vertices, edges and pipes.
fn instance(
    alloc: Global,
    verts: &[usize],
    edges: &[Edge],
    pipes: &[PipeParts],
) -> Result<Instance, PartsFault> {
    let verts = free_verts(alloc, verts)?;
    let edges = edge_rows(alloc, edges)?;
    let mut list = Pipes::new(alloc);
    for parts in pipes {
        list.push(pipe_of(alloc, parts)?)?;
    }
    Instance::from_parts(alloc, verts, edges, list)
}

// Whether there are at least four pairs and at least two parts of each end.
fn are_several(pairs: usize, first: usize, second: usize) -> bool
    ensures pairs { IsTrue result → 4 ≤ pairs }
    ensures first { IsTrue result → 2 ≤ first }
    ensures second { IsTrue result → 2 ≤ second }
{
    pairs >= 4 && first >= 2 && second >= 2
}

// Whether the pipe has at least four pairs and each of its ends several parts.
fn can_join(alloc: Global, i: &Instance, pipe: usize) -> Result<bool, Memory>
    requires { Contains (pipe_names i.now) pipe }
    ensures { IfOk result (λ b. IsTrue b → Allowed i.now (Join pipe)) }
{
    let ends = i.pipe_ends(pipe);
    let first = parts_among(alloc, i, ends.0)?;
    let second = parts_among(alloc, i, ends.1)?;
    let pairs = i.pairs(pipe);
    Ok(are_several(pairs.len(), first.len(), second.len()))
}

// Makes the Join at the pipe of greatest degree. Whether it was allowed.
fn make_join(alloc: Global, i: &mut Instance) -> Result<bool, Memory> {
    let Some(pipe) = i.max_pipe() else {
        return Ok(false);
    };
    if !can_join(alloc, i, pipe)? {
        return Ok(false);
    }
    let rewrite = join(alloc, i, pipe)?;
    i.rewrite(alloc, &rewrite)?;
    Ok(true)
}

// Whether the number is one of these.
fn holds(numbers: &[usize], number: usize) -> bool
    ensures { result ≡ has numbers.now number }
{
    for n in numbers {
        if *n == number {
            return true;
        }
    }
    false
}

// The edges of a vertex in parts, or `None` where it is none of the instance.
fn parts_of(alloc: Global, i: &Instance, u: usize) -> Result<Option<EdgeParts>, Memory> {
    let verts = i.verts(alloc)?;
    if !holds(verts.as_slice(), u) {
        return Ok(None);
    }
    Ok(Some(parts_at(alloc, i, u)?))
}

// The first instance of the worked run: a pipe between vertices of two components.
const WORKED_EDGES: [Edge; 8] = [
    (0, 3, 5),
    (1, 2, 0),
    (2, 3, 5),
    (3, 2, 0),
    (4, 3, 5),
    (5, 2, 1),
    (6, 4, 5),
    (7, 2, 0),
];

const WORKED_JOINED: [Edge; 12] = [
    (0, 3, 10),
    (1, 6, 0),
    (2, 3, 10),
    (3, 6, 0),
    (4, 3, 10),
    (5, 7, 1),
    (6, 4, 11),
    (7, 6, 0),
    (8, 8, 12),
    (9, 8, 12),
    (10, 9, 12),
    (11, 8, 13),
];

fn worked(alloc: Global) -> Result<Instance, PartsFault> {
    instance(
        alloc,
        &[0, 1, 2, 3, 4, 5],
        &WORKED_EDGES,
        &[(0, 2, 5, &[(1, 0), (3, 2), (5, 4), (7, 6)])],
    )
}

fn worked_joined(alloc: Global) -> Result<Instance, PartsFault> {
    instance(
        alloc,
        &[0, 1, 3, 4, 6, 7, 8, 9, 10, 11, 12, 13],
        &WORKED_JOINED,
        &[
            (1, 6, 8, &[(1, 8), (3, 9), (7, 11)]),
            (2, 7, 9, &[(5, 10)]),
            (3, 10, 12, &[(0, 8), (2, 9), (4, 10)]),
            (4, 11, 13, &[(6, 11)]),
        ],
    )
}

#[test]
fn the_worked_join_gives_the_instance_that_stands_there(rt: HostRuntime) -> Result<(), Fail> {
    let alloc = rt.alloc();
    let mut i = worked(alloc)?;
    assert!(rt; make_join(alloc, &mut i)?);
    let wanted = worked_joined(alloc)?;
    let found = format!(in alloc; "{i:?}")?;
    let wanted = format!(in alloc; "{wanted:?}")?;
    assert_eq!(rt; found.as_str(), wanted.as_str());
    Ok(())
}

// A pipe between the vertices 0 and 1 of one component, which both have edges to vertex 2.
const NEAR_EDGES: [Edge; 8] = [
    (0, 0, 2),
    (1, 0, 2),
    (2, 0, 4),
    (3, 0, 4),
    (4, 1, 2),
    (5, 1, 2),
    (6, 1, 5),
    (7, 1, 5),
];

const NEAR_JOINED: [Edge; 12] = [
    (0, 6, 2),
    (1, 6, 2),
    (2, 7, 4),
    (3, 7, 4),
    (4, 10, 2),
    (5, 10, 2),
    (6, 11, 5),
    (7, 11, 5),
    (8, 8, 12),
    (9, 8, 13),
    (10, 9, 12),
    (11, 9, 13),
];

fn near(alloc: Global) -> Result<Instance, PartsFault> {
    instance(
        alloc,
        &[0, 1, 2, 3, 4, 5],
        &NEAR_EDGES,
        &[(0, 0, 1, &[(0, 4), (1, 6), (2, 5), (3, 7)])],
    )
}

fn near_joined(alloc: Global) -> Result<Instance, PartsFault> {
    instance(
        alloc,
        &[2, 3, 4, 5, 6, 7, 8, 9, 10, 11, 12, 13],
        &NEAR_JOINED,
        &[
            (1, 6, 8, &[(0, 8), (1, 9)]),
            (2, 7, 9, &[(2, 10), (3, 11)]),
            (3, 10, 12, &[(4, 8), (5, 10)]),
            (4, 11, 13, &[(6, 9), (7, 11)]),
        ],
    )
}

#[test]
fn ends_in_one_component_are_parted(rt: HostRuntime) -> Result<(), Fail> {
    let alloc = rt.alloc();
    let mut i = near(alloc)?;
    assert!(rt; make_join(alloc, &mut i)?);
    let wanted = near_joined(alloc)?;
    let found = format!(in alloc; "{i:?}")?;
    let wanted = format!(in alloc; "{wanted:?}")?;
    assert_eq!(rt; found.as_str(), wanted.as_str());
    Ok(())
}

// A pipe between the vertices 0 and 1, which edge 0 joins.
const ADJACENT_EDGES: [Edge; 7] = [
    (0, 0, 1),
    (1, 0, 2),
    (2, 0, 2),
    (3, 0, 2),
    (4, 1, 3),
    (5, 1, 3),
    (6, 1, 3),
];

const ADJACENT_JOINED: [Edge; 11] = [
    (0, 4, 8),
    (1, 5, 2),
    (2, 5, 2),
    (3, 5, 2),
    (4, 9, 3),
    (5, 9, 3),
    (6, 9, 3),
    (7, 6, 11),
    (8, 7, 10),
    (9, 7, 11),
    (10, 7, 11),
];

fn adjacent(alloc: Global) -> Result<Instance, PartsFault> {
    instance(
        alloc,
        &[0, 1, 2, 3],
        &ADJACENT_EDGES,
        &[(0, 0, 1, &[(0, 4), (1, 0), (2, 5), (3, 6)])],
    )
}

fn adjacent_joined(alloc: Global) -> Result<Instance, PartsFault> {
    instance(
        alloc,
        &[2, 3, 4, 5, 6, 7, 8, 9, 10, 11],
        &ADJACENT_JOINED,
        &[
            (1, 4, 6, &[(0, 7)]),
            (2, 5, 7, &[(1, 8), (2, 9), (3, 10)]),
            (3, 8, 10, &[(0, 8)]),
            (4, 9, 11, &[(4, 7), (5, 9), (6, 10)]),
        ],
    )
}

#[test]
fn adjacent_ends_are_parted(rt: HostRuntime) -> Result<(), Fail> {
    let alloc = rt.alloc();
    let mut i = adjacent(alloc)?;
    assert!(rt; make_join(alloc, &mut i)?);
    let wanted = adjacent_joined(alloc)?;
    let found = format!(in alloc; "{i:?}")?;
    let wanted = format!(in alloc; "{wanted:?}")?;
    assert_eq!(rt; found.as_str(), wanted.as_str());
    Ok(())
}

#[test]
fn parts_rise_and_stand_by_their_least_edges(rt: HostRuntime) -> Result<(), Fail> {
    let alloc = rt.alloc();
    let i = worked(alloc)?;
    let Some(parts) = parts_of(alloc, &i, 2)? else {
        panic!(rt; "no vertex");
    };
    let [first, second] = parts.items() else {
        panic!(rt; "not two parts");
    };
    assert_eq!(rt; first.items(), [1usize, 3, 7].as_slice());
    assert_eq!(rt; second.items(), [5usize].as_slice());
    Ok(())
}

// Vertex 0 with an edge to each of as many others.
fn star(alloc: Global, number: usize) -> Result<Instance, PartsFault> {
    let mut verts = free_verts(alloc, &[0])?;
    let mut edges = EdgeRows::new(alloc);
    for k in 1..number {
        verts.push(Vert {
            name: k,
            kind: Kind::P,
        })?;
        edges.push(EdgeRow {
            name: k,
            a: k,
            b: 0,
        })?;
    }
    Instance::from_parts(alloc, verts, edges, Pipes::new(alloc))
}

#[test]
fn a_vertex_can_have_twenty_parts(rt: HostRuntime) -> Result<(), Fail> {
    let alloc = rt.alloc();
    let i = star(alloc, 21)?;
    let Some(parts) = parts_of(alloc, &i, 0)? else {
        panic!(rt; "no vertex");
    };
    assert_eq!(rt; parts.len(), 20);
    Ok(())
}
