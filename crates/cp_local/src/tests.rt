// The components of two vertices of a small instance, where memory suffices.
ghost use Rattle.std.specs.Prelude.{IsTrue, IfOk};
ghost use Rattle.std.specs.List.{Contains};
ghost use Rattle.cp_board.specs.Instances.{vert_names};

use crate::{LocalGraph, local_graph};
use cp_base::{Items, Memory};
use cp_sync::{Board, EdgeRow, EdgeRows, Instance, Kind, PartsFault, Pipes, Vert, Verts};
use std::alloc::Global;
use std::test::Fail;

// An instance without pipes whose vertices are P-vertices of these names.
fn instance(
    alloc: Global,
    names: &[usize],
    rows: &[(usize, usize, usize)],
) -> Result<Instance, PartsFault> {
    let mut verts = Verts::new(alloc);
    for name in names {
        verts.push(Vert {
            name: *name,
            kind: Kind::P,
        })?;
    }
    let mut edges = EdgeRows::new(alloc);
    for (name, a, b) in rows {
        edges.push(EdgeRow {
            name: *name,
            a: *a,
            b: *b,
        })?;
    }
    let pipes: Pipes = Items::new(alloc);
    Instance::from_parts(alloc, verts, edges, pipes)
}

// Whether this is the name of a vertex.
fn is_live(alloc: Global, i: &Instance, v: usize) -> Result<bool, Memory>
    ensures { IfOk result (λ yes. IsTrue yes → Contains (vert_names i.now) v) }
{
    let verts = i.verts(alloc)?;
    Ok(verts.contains(&v))
}

// The components of two vertices, where they are live.
fn found(alloc: Global, i: &Instance, u: usize, v: usize) -> Result<Option<LocalGraph>, Memory> {
    if !is_live(alloc, i, u)? || !is_live(alloc, i, v)? {
        return Ok(None);
    }
    let local = local_graph(alloc, i, u, v)?;
    Ok(Some(local))
}

#[test]
fn a_component_is_left_out(rt: HostRuntime) -> Result<(), Fail> {
    let alloc = rt.alloc();
    let rows = [(5, 1, 4), (6, 2, 7), (8, 3, 7), (9, 6, 9)];
    let i = instance(alloc, &[1, 2, 3, 4, 6, 7, 9], &rows)?;
    let one = found(alloc, &i, 3, 3)?.expect(&rt, "a live vertex");
    assert!(rt; one.verts.items() == [2, 3, 7].as_slice());
    assert!(rt; one.edges.items() == [6, 8].as_slice());
    let two = found(alloc, &i, 9, 2)?.expect(&rt, "live vertices");
    assert!(rt; two.verts.items() == [2, 3, 6, 7, 9].as_slice());
    assert!(rt; two.edges.items() == [6, 8, 9].as_slice());
    assert!(rt; two.graph.ends() == [(0, 3), (1, 3), (2, 4)].as_slice());
    Ok(())
}
