// Small instances, where memory suffices.
ghost use Rattle.std.specs.Prelude.{◌≡◌, ◌≢◌, [], IfOk};

use crate::{FreeFault, first_crossing, solve_free};
use cp_base::{CycList, Memory};
use cp_embed::{EdgeBlock, block_of};
use cp_pq::Tree;
use cp_sync::{Board, EdgeRow, EdgeRows, Instance, Kind, PartsFault, Pipes, Solution, Vert, Verts};
use std::alloc::Global;
use std::test::Fail;

// A Q-vertex 0 with the edges from 0 on in their order, which end at these vertices, and the P-vertices 1 and 2.
fn fan(alloc: Global, ends: &[usize]) -> Result<Instance, PartsFault>
    ensures { IfOk result (λ i. i.pipes ≡ []) }
{
    let psi = CycList::from_slice(alloc, &[0, 1, 2, 3])?;
    let mut verts = Verts::new(alloc);
    verts.push(Vert {
        name: 0,
        kind: Kind::Q { cell: 0, psi },
    })?;
    verts.push(Vert {
        name: 1,
        kind: Kind::P,
    })?;
    verts.push(Vert {
        name: 2,
        kind: Kind::P,
    })?;
    let mut edges = EdgeRows::new(alloc);
    for (name, b) in ends.iter().enumerate() {
        edges.push(EdgeRow { name, a: 0, b: *b })?;
    }
    Instance::from_parts(alloc, verts, edges, Pipes::new(alloc))
}

// The block of the least edge.
fn first_block(alloc: Global, i: &Instance) -> Result<Option<EdgeBlock>, Memory> {
    let edges = i.edges(alloc)?;
    if edges.len() == 0 {
        return Ok(None);
    }
    let cut = block_of(alloc, i, edges[0])?;
    Ok(Some(cut))
}

// The list of the least vertex of a block.
fn first_list(cut: &EdgeBlock) -> Option<&CycList> {
    if cut.block.graph().vertices() == 0 {
        return None;
    }
    cut.block.list_of(0)
}

#[test]
fn blocks_in_turn_cross(rt: HostRuntime) -> Result<(), Fail> {
    let alloc = rt.alloc();
    let crossed = fan(alloc, &[1, 2, 1, 2])?;
    assert_eq!(rt; first_crossing(alloc, &crossed)?, Some(0));
    let apart = fan(alloc, &[1, 1, 2, 2])?;
    assert_eq!(rt; first_crossing(alloc, &apart)?, None);
    Ok(())
}

#[test]
fn a_block_keeps_its_part_of_a_list(rt: HostRuntime) -> Result<(), Fail> {
    let alloc = rt.alloc();
    let i = fan(alloc, &[1, 2, 1, 1])?;
    let Some(cut) = first_block(alloc, &i)? else {
        panic!(rt; "no edge");
    };
    assert_eq!(rt; cut.edges.items(), [0usize, 2, 3].as_slice());
    assert_eq!(rt; cut.verts.items(), [0usize, 1].as_slice());
    let Some(list) = first_list(&cut) else {
        panic!(rt; "no list");
    };
    assert_eq!(rt; list.items(), [0usize, 1, 2].as_slice());
    Ok(())
}

// Q-vertices in these cells with these lists. Each two, from 0 on, are joined by the next N edges.
fn hubs<const N: usize>(
    alloc: Global,
    cells: &[usize],
    lists: &[[usize; N]],
) -> Result<Instance, PartsFault>
    requires { N ≢ 0 }
    ensures { IfOk result (λ i. i.pipes ≡ []) }
{
    let mut verts = Verts::new(alloc);
    for (name, (cell, list)) in cells.iter().zip(lists).enumerate() {
        let psi = CycList::from_slice(alloc, list)?;
        let cell = *cell;
        verts.push(Vert {
            name,
            kind: Kind::Q { cell, psi },
        })?;
    }
    let mut edges = EdgeRows::new(alloc);
    for name in 0..lists.len() / 2 * N {
        let a = name / N * 2;
        edges.push(EdgeRow { name, a, b: a + 1 })?;
    }
    Instance::from_parts(alloc, verts, edges, Pipes::new(alloc))
}

// So many P-vertices with these edges.
fn plain(alloc: Global, vertices: usize, ends: &[(usize, usize)]) -> Result<Instance, PartsFault>
    ensures { IfOk result (λ i. i.pipes ≡ []) }
{
    let mut verts = Verts::new(alloc);
    for name in 0..vertices {
        verts.push(Vert {
            name,
            kind: Kind::P,
        })?;
    }
    let mut edges = EdgeRows::new(alloc);
    for (name, (a, b)) in ends.iter().enumerate() {
        edges.push(EdgeRow { name, a: *a, b: *b })?;
    }
    Instance::from_parts(alloc, verts, edges, Pipes::new(alloc))
}

// Why the instance is not solved, if it is not.
fn reason(alloc: Global, i: &Instance) -> Option<FreeFault>
    requires { i.now.pipes ≡ [] }
{
    match solve_free::<Instance, Tree>(alloc, i) {
        Ok(_) => None,
        Err(fault) => Some(fault),
    }
}

#[test]
fn each_reason_is_told(rt: HostRuntime) -> Result<(), Fail> {
    let alloc = rt.alloc();
    let crossed = fan(alloc, &[1, 2, 1, 2])?;
    let crosses = FreeFault::BlocksCross { vertex: 0 };
    assert_eq!(rt; reason(alloc, &crossed), Some(crosses));
    let five = [
        (0, 1),
        (0, 2),
        (0, 3),
        (0, 4),
        (1, 2),
        (1, 3),
        (1, 4),
        (2, 3),
        (2, 4),
        (3, 4),
    ];
    let complete = plain(alloc, 5, &five)?;
    let not_planar = FreeFault::NotPlanar { edge: 0 };
    assert_eq!(rt; reason(alloc, &complete), Some(not_planar));
    Ok(())
}

#[test]
fn vertices_of_a_cell_have_one_direction(rt: HostRuntime) -> Result<(), Fail> {
    let alloc = rt.alloc();
    let conflict = Some(FreeFault::Conflict);
    let alike = hubs(alloc, &[5, 5], &[[0, 1, 2], [0, 1, 2]])?;
    assert_eq!(rt; reason(alloc, &alike), conflict);
    let mirrored = hubs(alloc, &[5, 5], &[[0, 1, 2], [0, 2, 1]])?;
    assert_eq!(rt; reason(alloc, &mirrored), None);
    let of_degree_two = hubs(alloc, &[5, 5], &[[0, 1], [0, 1]])?;
    assert_eq!(rt; reason(alloc, &of_degree_two), None);
    Ok(())
}

#[test]
fn cells_bind_two_blocks(rt: HostRuntime) -> Result<(), Fail> {
    let alloc = rt.alloc();
    let conflict = Some(FreeFault::Conflict);
    let cells = [7, 3, 7, 3];
    let torn = hubs(alloc, &cells, &[[0, 1, 2], [0, 2, 1], [3, 4, 5], [3, 4, 5]])?;
    assert_eq!(rt; reason(alloc, &torn), conflict);
    let bound = hubs(alloc, &cells, &[[0, 1, 2], [0, 2, 1], [3, 4, 5], [3, 5, 4]])?;
    assert_eq!(rt; reason(alloc, &bound), None);
    Ok(())
}

#[test]
fn a_vertex_in_many_blocks_has_all_its_edges(rt: HostRuntime) -> Result<(), Fail> {
    let alloc = rt.alloc();
    let star = plain(alloc, 5, &[(0, 1), (2, 0), (0, 3), (4, 0)])?;
    let solution: Solution = match solve_free::<Instance, Tree>(alloc, &star) {
        Ok(solution) => solution,
        Err(_) => panic!(rt; "not solved"),
    };
    assert_eq!(rt; solution.names(), [0usize, 1, 2, 3, 4].as_slice());
    Ok(())
}
