// Instances, boards and solutions by their calls, where memory suffices.
ghost use Rattle.std.specs.Prelude.{◌≡◌, map, IfOk};
ghost use Rattle.cp_board.specs.Instances.{IsSynchronized};
ghost use Rattle.cp_board.specs.Rows as rows;
ghost use Rattle.cp_sync.specs.WorkedRows.{bond, bond_lists, edge_row, edge_move, first_join};

use crate::copies::copied_items;
use crate::{
    Board, EdgeMove, EdgeRow, EdgeRows, Instance, Kind, Moves, NameKind, Outcome, PartsFault, Pipe,
    Pipes, Reason, Rewrite, Solution, Vert, Verts, first_instance_copy, graph_of, rot_of,
};
use cp_base::{CycList, Memory};
use cp_rot::faces_of;
use std::alloc::Global;
use std::test::Fail;

// P-vertices of these names.
fn free_verts(alloc: Global, names: &[usize]) -> Result<Verts, Memory>
    ensures { IfOk result (λ verts. verts ≡ map rows.vert names.now) }
{
    let mut verts = Verts::new(alloc);
    for name in names {
        verts.push(Vert {
            name: *name,
            kind: Kind::P,
        })?;
    }
    Ok(verts)
}

// Edges by their names and their ends.
fn edge_rows(alloc: Global, list: &[(usize, usize, usize)]) -> Result<EdgeRows, Memory>
    ensures { IfOk result (λ edges. edges ≡ map edge_row list.now) }
{
    let mut edges = EdgeRows::new(alloc);
    for (name, a, b) in list {
        edges.push(EdgeRow {
            name: *name,
            a: *a,
            b: *b,
        })?;
    }
    Ok(edges)
}

// Moves by the edge, the end and the vertex to which it goes.
fn edge_moves(alloc: Global, list: &[(usize, usize, usize)]) -> Result<Moves, Memory>
    ensures { IfOk result (λ moves. moves ≡ map edge_move list.now) }
{
    let mut moves = Moves::new(alloc);
    for (edge, from, to) in list {
        moves.push(EdgeMove {
            edge: *edge,
            from: *from,
            to: *to,
        })?;
    }
    Ok(moves)
}

// A pipe by its parts.
fn pipe(
    alloc: Global,
    name: usize,
    a: usize,
    b: usize,
    pairs: &[(usize, usize)],
) -> Result<Pipe, Memory>
    ensures { IfOk result (λ p. p ≡ rows.pipe name a b pairs.now) }
{
    let pairs = copied_items(alloc, pairs)?;
    Ok(Pipe { name, a, b, pairs })
}

// The parts of the first instance of the worked run, and of the one after its Join.
const FIRST_VERTS: [usize; 6] = [0, 1, 2, 3, 4, 5];

const FIRST_EDGES: [(usize, usize, usize); 8] = [
    (0, 3, 5),
    (1, 2, 0),
    (2, 3, 5),
    (3, 2, 0),
    (4, 3, 5),
    (5, 2, 1),
    (6, 4, 5),
    (7, 2, 0),
];

const JOINED_VERTS: [usize; 12] = [0, 1, 3, 4, 6, 7, 8, 9, 10, 11, 12, 13];

const JOINED_EDGES: [(usize, usize, usize); 12] = [
    (0, 3, 10),
    (1, 6, 0),
    (2, 3, 10),
    (3, 6, 0),
    (4, 3, 10),
    (5, 7, 1),
    (6, 4, 11),
    (7, 6, 0),
    (8, 8, 12),
    (9, 8, 12),
    (10, 9, 12),
    (11, 8, 13),
];

// The vertices that the Join drops, those that it adds, its moves and its new edges.
const DROPPED_VERTS: [usize; 2] = [2, 5];

const NEW_VERTS: [usize; 8] = [6, 7, 8, 9, 10, 11, 12, 13];

const MOVES: [(usize, usize, usize); 8] = [
    (1, 2, 6),
    (3, 2, 6),
    (5, 2, 7),
    (7, 2, 6),
    (0, 5, 10),
    (2, 5, 10),
    (4, 5, 10),
    (6, 5, 11),
];

const NEW_EDGES: [(usize, usize, usize); 4] = [(8, 8, 12), (9, 8, 12), (10, 9, 12), (11, 8, 13)];

// The pipe of the first instance.
fn first_pipes(alloc: Global) -> Result<Pipes, Memory>
    ensures { IfOk result (λ pipes. pipes ≡ rows.first.pipes) }
{
    let mut pipes = Pipes::new(alloc);
    pipes.push(pipe(alloc, 0, 2, 5, &[(1, 0), (3, 2), (5, 4), (7, 6)])?)?;
    Ok(pipes)
}

// The first instance of the worked run.
fn first(alloc: Global) -> Result<Instance, PartsFault>
    ensures { IfOk result (λ i. i ≡ rows.first) }
{
    let verts = free_verts(alloc, &FIRST_VERTS)?;
    let edges = edge_rows(alloc, &FIRST_EDGES)?;
    let pipes = first_pipes(alloc)?;
    Instance::from_parts(alloc, verts, edges, pipes)
}

// The pipes after its Join.
fn joined_pipes(alloc: Global) -> Result<Pipes, Memory>
    ensures { IfOk result (λ pipes. pipes ≡ rows.joined.pipes) }
{
    let mut pipes = Pipes::new(alloc);
    pipes.push(pipe(alloc, 1, 6, 8, &[(1, 8), (3, 9), (7, 11)])?)?;
    pipes.push(pipe(alloc, 2, 7, 9, &[(5, 10)])?)?;
    pipes.push(pipe(alloc, 3, 10, 12, &[(0, 8), (2, 9), (4, 10)])?)?;
    pipes.push(pipe(alloc, 4, 11, 13, &[(6, 11)])?)?;
    Ok(pipes)
}

// The instance after its Join.
fn joined(alloc: Global) -> Result<Instance, PartsFault>
    ensures value { IfOk result (λ i. i ≡ rows.joined) }
    ensures rules { IfOk result (λ i. IsSynchronized i) }
{
    let verts = free_verts(alloc, &JOINED_VERTS)?;
    let edges = edge_rows(alloc, &JOINED_EDGES)?;
    let pipes = joined_pipes(alloc)?;
    Instance::from_parts(alloc, verts, edges, pipes)
}

// The rewrite of its Join.
fn join(alloc: Global) -> Result<Rewrite, Memory>
    ensures { IfOk result (λ w. w ≡ first_join) }
{
    let drop_pipes = copied_items(alloc, &[0])?;
    let drop_verts = copied_items(alloc, &DROPPED_VERTS)?;
    let add_verts = free_verts(alloc, &NEW_VERTS)?;
    let moves = edge_moves(alloc, &MOVES)?;
    let add_edges = edge_rows(alloc, &NEW_EDGES)?;
    let add_pipes = joined_pipes(alloc)?;
    Ok(Rewrite {
        drop_pipes,
        drop_verts,
        add_verts,
        set_kinds: Verts::new(alloc),
        moves,
        add_edges,
        add_pipes,
    })
}

// The first instance after its Join by a rewrite, and the instance that stands there.
fn first_and_joined(alloc: Global) -> Result<(Instance, Instance), PartsFault> {
    let mut i = first(alloc)?;
    let joined = joined(alloc)?;
    let w = join(alloc)?;
    i.rewrite(alloc, &w)?;
    Ok((i, joined))
}

// Two P-vertices with four edges between them.
fn bond(alloc: Global) -> Result<Instance, PartsFault>
    ensures { IfOk result (λ i. i ≡ bond) }
{
    let verts = free_verts(alloc, &[0, 1])?;
    let edges = edge_rows(alloc, &[(0, 0, 1), (1, 0, 1), (2, 0, 1), (3, 0, 1)])?;
    Instance::from_parts(alloc, verts, edges, Pipes::new(alloc))
}

// Lists of their edges that are reverse to each other.
fn bond_lists(alloc: Global) -> Result<Solution, Memory>
    ensures { IfOk result (λ s. s ≡ bond_lists) }
{
    let mut s = Solution::new(alloc);
    s.push(0, CycList::from_slice(alloc, &[0, 1, 2, 3])?)?;
    s.push(1, CycList::from_slice(alloc, &[0, 3, 2, 1])?)?;
    Ok(s)
}

// One vertex, and an edge named 5 from it to itself.
fn looped(alloc: Global) -> Result<Instance, PartsFault> {
    let verts = free_verts(alloc, &[0])?;
    let edges = edge_rows(alloc, &[(5, 0, 0)])?;
    Instance::from_parts(alloc, verts, edges, Pipes::new(alloc))
}

#[test]
fn an_edge_with_one_end_is_refused(rt: HostRuntime) -> Result<(), Fail> {
    let made = looped(rt.alloc());
    assert!(rt; matches!(made, Err(PartsFault::Broken { rule: 2, name: 5 })));
    Ok(())
}

#[test]
fn the_first_join_gives_the_instance_that_stands_there(rt: HostRuntime) -> Result<(), Fail> {
    let alloc = rt.alloc();
    let (found, wanted) = first_and_joined(alloc)?;
    let found = format!(in alloc; "{found:?}")?;
    let wanted = format!(in alloc; "{wanted:?}")?;
    assert_eq!(rt; found.as_str(), wanted.as_str());
    Ok(())
}

#[test]
fn a_copy_tells_the_same_names(rt: HostRuntime) -> Result<(), Fail> {
    let alloc = rt.alloc();
    let i = first(alloc)?;
    let copy = first_instance_copy(alloc, &i)?;
    let verts = copy.verts(alloc)?;
    assert_eq!(rt; verts.as_slice(), FIRST_VERTS.as_slice());
    assert_eq!(rt; copy.max_pipe(), Some(0));
    Ok(())
}

#[test]
fn the_least_free_names_are_behind_the_live_ones(rt: HostRuntime) -> Result<(), Fail> {
    let alloc = rt.alloc();
    let i = first(alloc)?;
    let names = i.free_names(alloc, NameKind::Vert, 8)?;
    assert_eq!(rt; names.as_slice(), NEW_VERTS.as_slice());
    Ok(())
}

#[test]
fn the_graph_of_a_board_is_numbered_by_name(rt: HostRuntime) -> Result<(), Fail> {
    let alloc = rt.alloc();
    let i = first(alloc)?;
    let g = graph_of(alloc, &i)?;
    assert_eq!(rt; g.graph.vertices(), 6);
    assert_eq!(rt; g.graph.ends().len(), 8);
    Ok(())
}

#[test]
fn a_bond_with_reverse_lists_has_four_faces(rt: HostRuntime) -> Result<(), Fail> {
    let alloc = rt.alloc();
    let i = bond(alloc)?;
    let s = bond_lists(alloc)?;
    let rot = rot_of(alloc, &i, &s)?;
    let mut marks = vec![in alloc; false; rot.darts()]?;
    let faces = faces_of(&rot, marks.as_mut_slice());
    assert_eq!(rt; faces, 4);
    Ok(())
}

#[test]
fn lists_are_found_and_exchanged_by_name(rt: HostRuntime) -> Result<(), Fail> {
    let mut solution = Solution::new(rt.alloc());
    solution.push(3, CycList::from_slice(rt.alloc(), &[0, 2, 4])?)?;
    solution.push(7, CycList::from_slice(rt.alloc(), &[5])?)?;
    assert_eq!(rt; solution.names(), [3usize, 7].as_slice());
    assert_eq!(rt; solution.list_of(7).items(), [5usize].as_slice());
    solution.set_list(3, CycList::from_slice(rt.alloc(), &[4, 2, 0])?);
    assert_eq!(rt; solution.names(), [3usize, 7].as_slice());
    assert_eq!(rt; solution.list_of(3).items(), [4usize, 2, 0].as_slice());
    assert_eq!(rt; solution.list_of(7).items(), [5usize].as_slice());
    assert!(rt; matches!(Outcome::Solved(solution), Outcome::Solved(_)));
    assert!(rt; matches!(Outcome::Failed(Reason::Conflict), Outcome::Failed(_)));
    Ok(())
}
