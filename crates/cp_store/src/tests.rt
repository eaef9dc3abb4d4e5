// A store by its calls, where memory suffices, on the worked run: a Join and four Small.
ghost use Rattle.std.specs.Prelude.{◌≡◌, ◌++◌, ◌∷◌, [], map, IfOk, OnOk};
ghost use Rattle.cp_board.specs.Instances.{IsSynchronized};
ghost use Rattle.cp_board.specs.Rewrites.{dropping};
ghost use Rattle.cp_board.specs.Rows as rows;
ghost use Rattle.cp_sync.specs.WorkedRows.{edge_row, edge_move, first_join};
ghost use Rattle.cp_store.specs.WorkedSteps.{fixed_row, fixing, first_small, second_small};

use crate::Store;
use crate::copies::copied_items;
use cp_base::{CycList, Memory};
use cp_board::{
    EdgeMove, EdgeRow, EdgeRows, Kind, Moves, Names, Pipe, Pipes, Rewrite, Vert, Verts,
};
use cp_sync::{Board, Instance, NameKind, PartsFault};
use std::alloc::Global;
use std::test::Fail;

// Appends P-vertices of these names.
fn push_free(names: &[usize], verts: &mut Verts) -> Result<(), Memory>
    ensures { OnOk result (verts.new ≡ verts.old ++ map rows.vert names.now) }
{
    for name in names {
        verts.push(Vert {
            name: *name,
            kind: Kind::P,
        })?;
    }
    Ok(())
}

// A Q-vertex by its name, its cell and its list.
type FixedRow = (usize, usize, [usize; 3]);

// Appends Q-vertices.
fn push_fixed(alloc: Global, list: &[FixedRow], verts: &mut Verts) -> Result<(), Memory>
    ensures { OnOk result (verts.new ≡ verts.old ++ map fixed_row list.now) }
{
    for (name, cell, psi) in list {
        let psi = CycList::from_slice(alloc, psi)?;
        verts.push(Vert {
            name: *name,
            kind: Kind::Q { cell: *cell, psi },
        })?;
    }
    Ok(())
}

// P-vertices of these names.
fn free_verts(alloc: Global, names: &[usize]) -> Result<Verts, Memory>
    ensures { IfOk result (λ verts. verts ≡ map rows.vert names.now) }
{
    let mut verts = Verts::new(alloc);
    push_free(names, &mut verts)?;
    Ok(verts)
}

// Edges by their names and their ends.
fn edge_rows(alloc: Global, list: &[(usize, usize, usize)]) -> Result<EdgeRows, Memory>
    ensures { IfOk result (λ edges. edges ≡ map edge_row list.now) }
{
    let mut edges = EdgeRows::new(alloc);
    for (name, a, b) in list {
        edges.push(EdgeRow {
            name: *name,
            a: *a,
            b: *b,
        })?;
    }
    Ok(edges)
}

// Moves by the edge, the end and the vertex to which it goes.
fn edge_moves(alloc: Global, list: &[(usize, usize, usize)]) -> Result<Moves, Memory>
    ensures { IfOk result (λ moves. moves ≡ map edge_move list.now) }
{
    let mut moves = Moves::new(alloc);
    for (edge, from, to) in list {
        moves.push(EdgeMove {
            edge: *edge,
            from: *from,
            to: *to,
        })?;
    }
    Ok(moves)
}

// A pipe by its parts.
fn pipe(
    alloc: Global,
    name: usize,
    a: usize,
    b: usize,
    pairs: &[(usize, usize)],
) -> Result<Pipe, Memory>
    ensures { IfOk result (λ p. p ≡ rows.pipe name a b pairs.now) }
{
    let pairs = copied_items(alloc, pairs)?;
    Ok(Pipe { name, a, b, pairs })
}

// The parts of the first instance, and the edges after the Join.
const FIRST_VERTS: [usize; 6] = [0, 1, 2, 3, 4, 5];

const FIRST_EDGES: [(usize, usize, usize); 8] = [
    (0, 3, 5),
    (1, 2, 0),
    (2, 3, 5),
    (3, 2, 0),
    (4, 3, 5),
    (5, 2, 1),
    (6, 4, 5),
    (7, 2, 0),
];

const JOINED_VERTS: [usize; 12] = [0, 1, 3, 4, 6, 7, 8, 9, 10, 11, 12, 13];

const JOINED_EDGES: [(usize, usize, usize); 12] = [
    (0, 3, 10),
    (1, 6, 0),
    (2, 3, 10),
    (3, 6, 0),
    (4, 3, 10),
    (5, 7, 1),
    (6, 4, 11),
    (7, 6, 0),
    (8, 8, 12),
    (9, 8, 12),
    (10, 9, 12),
    (11, 8, 13),
];

// The vertices that the Join drops, those that it adds, its moves and its new edges.
const DROPPED_VERTS: [usize; 2] = [2, 5];

const NEW_VERTS: [usize; 8] = [6, 7, 8, 9, 10, 11, 12, 13];

const MOVES: [(usize, usize, usize); 8] = [
    (1, 2, 6),
    (3, 2, 6),
    (5, 2, 7),
    (7, 2, 6),
    (0, 5, 10),
    (2, 5, 10),
    (4, 5, 10),
    (6, 5, 11),
];

const NEW_EDGES: [(usize, usize, usize); 4] = [(8, 8, 12), (9, 8, 12), (10, 9, 12), (11, 8, 13)];

// The kinds that the two Small of three pairs set.
const FIRST_KINDS: [FixedRow; 2] = [(6, 0, [1, 3, 7]), (8, 0, [8, 11, 9])];

const SECOND_KINDS: [FixedRow; 2] = [(10, 1, [0, 2, 4]), (12, 1, [8, 10, 9])];

// The pipe of the first instance.
fn first_pipes(alloc: Global) -> Result<Pipes, Memory>
    ensures { IfOk result (λ pipes. pipes ≡ rows.first.pipes) }
{
    let mut pipes = Pipes::new(alloc);
    pipes.push(pipe(alloc, 0, 2, 5, &[(1, 0), (3, 2), (5, 4), (7, 6)])?)?;
    Ok(pipes)
}

// The pipes after the Join.
fn joined_pipes(alloc: Global) -> Result<Pipes, Memory>
    ensures { IfOk result (λ pipes. pipes ≡ rows.joined.pipes) }
{
    let mut pipes = Pipes::new(alloc);
    pipes.push(pipe(alloc, 1, 6, 8, &[(1, 8), (3, 9), (7, 11)])?)?;
    pipes.push(pipe(alloc, 2, 7, 9, &[(5, 10)])?)?;
    pipes.push(pipe(alloc, 3, 10, 12, &[(0, 8), (2, 9), (4, 10)])?)?;
    pipes.push(pipe(alloc, 4, 11, 13, &[(6, 11)])?)?;
    Ok(pipes)
}

// The pipes after the first Small.
fn second_pipes(alloc: Global) -> Result<Pipes, Memory>
    ensures { IfOk result (λ pipes. pipes ≡ rows.second.pipes) }
{
    let mut pipes = Pipes::new(alloc);
    pipes.push(pipe(alloc, 2, 7, 9, &[(5, 10)])?)?;
    pipes.push(pipe(alloc, 3, 10, 12, &[(0, 8), (2, 9), (4, 10)])?)?;
    pipes.push(pipe(alloc, 4, 11, 13, &[(6, 11)])?)?;
    Ok(pipes)
}

// The pipes after the second Small.
fn third_pipes(alloc: Global) -> Result<Pipes, Memory>
    ensures { IfOk result (λ pipes. pipes ≡ rows.third.pipes) }
{
    let mut pipes = Pipes::new(alloc);
    pipes.push(pipe(alloc, 2, 7, 9, &[(5, 10)])?)?;
    pipes.push(pipe(alloc, 4, 11, 13, &[(6, 11)])?)?;
    Ok(pipes)
}

// The vertices after the first Small.
fn second_verts(alloc: Global) -> Result<Verts, Memory>
    ensures { IfOk result (λ verts. verts ≡ rows.second.verts) }
{
    let mut verts = free_verts(alloc, &[0, 1, 3, 4])?;
    push_fixed(alloc, &[(6, 0, [1, 3, 7])], &mut verts)?;
    push_free(&[7], &mut verts)?;
    push_fixed(alloc, &[(8, 0, [8, 11, 9])], &mut verts)?;
    push_free(&[9, 10, 11, 12, 13], &mut verts)?;
    Ok(verts)
}

// The vertices after the second Small.
fn third_verts(alloc: Global) -> Result<Verts, Memory>
    ensures { IfOk result (λ verts. verts ≡ rows.third.verts) }
{
    let mut verts = free_verts(alloc, &[0, 1, 3, 4])?;
    push_fixed(alloc, &[(6, 0, [1, 3, 7])], &mut verts)?;
    push_free(&[7], &mut verts)?;
    push_fixed(alloc, &[(8, 0, [8, 11, 9])], &mut verts)?;
    push_free(&[9], &mut verts)?;
    push_fixed(alloc, &[(10, 1, [0, 2, 4])], &mut verts)?;
    push_free(&[11], &mut verts)?;
    push_fixed(alloc, &[(12, 1, [8, 10, 9])], &mut verts)?;
    push_free(&[13], &mut verts)?;
    Ok(verts)
}

// The first instance.
fn first(alloc: Global) -> Result<Instance, PartsFault>
    ensures { IfOk result (λ i. i ≡ rows.first) }
{
    let verts = free_verts(alloc, &FIRST_VERTS)?;
    let edges = edge_rows(alloc, &FIRST_EDGES)?;
    let pipes = first_pipes(alloc)?;
    Instance::from_parts(alloc, verts, edges, pipes)
}

// The instance after the Join keeps the rules.
fn joined_keeps_rules(alloc: Global) -> Result<(), PartsFault>
    ensures { OnOk result (IsSynchronized rows.joined) }
{
    let verts = free_verts(alloc, &JOINED_VERTS)?;
    let edges = edge_rows(alloc, &JOINED_EDGES)?;
    let pipes = joined_pipes(alloc)?;
    let _made = Instance::from_parts(alloc, verts, edges, pipes)?;
    Ok(())
}

// So does the one after the first Small.
fn second_keeps_rules(alloc: Global) -> Result<(), PartsFault>
    ensures { OnOk result (IsSynchronized rows.second) }
{
    let verts = second_verts(alloc)?;
    let edges = edge_rows(alloc, &JOINED_EDGES)?;
    let pipes = second_pipes(alloc)?;
    let _made = Instance::from_parts(alloc, verts, edges, pipes)?;
    Ok(())
}

// And so does the one after the second.
fn third_keeps_rules(alloc: Global) -> Result<(), PartsFault>
    ensures { OnOk result (IsSynchronized rows.third) }
{
    let verts = third_verts(alloc)?;
    let edges = edge_rows(alloc, &JOINED_EDGES)?;
    let pipes = third_pipes(alloc)?;
    let _made = Instance::from_parts(alloc, verts, edges, pipes)?;
    Ok(())
}

// The rewrite of the Join.
fn join(alloc: Global) -> Result<Rewrite, Memory>
    ensures { IfOk result (λ w. w ≡ first_join) }
{
    let drop_pipes = copied_items(alloc, &[0])?;
    let drop_verts = copied_items(alloc, &DROPPED_VERTS)?;
    let add_verts = free_verts(alloc, &NEW_VERTS)?;
    let moves = edge_moves(alloc, &MOVES)?;
    let add_edges = edge_rows(alloc, &NEW_EDGES)?;
    let add_pipes = joined_pipes(alloc)?;
    Ok(Rewrite {
        drop_pipes,
        drop_verts,
        add_verts,
        set_kinds: Verts::new(alloc),
        moves,
        add_edges,
        add_pipes,
    })
}

// The rewrite that takes a pipe away and gives vertices these kinds.
fn small(alloc: Global, pipe: usize, kinds: &[FixedRow]) -> Result<Rewrite, Memory>
    ensures { IfOk result (λ w. w ≡ fixing pipe kinds.now) }
{
    let mut drop_pipes = Names::new(alloc);
    drop_pipes.push(pipe)?;
    let mut set_kinds = Verts::new(alloc);
    push_fixed(alloc, kinds, &mut set_kinds)?;
    Ok(Rewrite {
        drop_pipes,
        drop_verts: Names::new(alloc),
        add_verts: Verts::new(alloc),
        set_kinds,
        moves: Moves::new(alloc),
        add_edges: EdgeRows::new(alloc),
        add_pipes: Pipes::new(alloc),
    })
}

// The store of the first instance.
fn first_store(alloc: Global) -> Result<Store, PartsFault>
    ensures { IfOk result (λ s. s ≡ rows.first ∷ []) }
{
    let i = first(alloc)?;
    let store = Store::from_instance(alloc, &i)?;
    Ok(store)
}

// Makes the Join.
fn make_join(alloc: Global, store: &mut Store) -> Result<(), PartsFault>
    requires { store.old ≡ rows.first ∷ [] }
    ensures { OnOk result (store.new ≡ rows.joined ∷ rows.first ∷ []) }
{
    joined_keeps_rules(alloc)?;
    let w = join(alloc)?;
    store.rewrite(alloc, &w)?;
    Ok(())
}

// Makes the first Small, and then the second.
fn make_small(alloc: Global, store: &mut Store) -> Result<(), PartsFault>
    requires { store.old ≡ rows.joined ∷ rows.first ∷ [] }
    ensures { OnOk result (store.new ≡ rows.third ∷ rows.second ∷ rows.joined ∷ rows.first ∷ []) }
{
    second_keeps_rules(alloc)?;
    third_keeps_rules(alloc)?;
    let first = small(alloc, 1, &FIRST_KINDS)?;
    store.rewrite(alloc, &first)?;
    let second = small(alloc, 3, &SECOND_KINDS)?;
    store.rewrite(alloc, &second)?;
    Ok(())
}

// The rewrite that drops a pipe.
fn without_pipe(alloc: Global, pipe: usize) -> Result<Rewrite, Memory>
    ensures { IfOk result (λ w. w ≡ dropping pipe) }
{
    let mut drop_pipes = Names::new(alloc);
    drop_pipes.push(pipe)?;
    Ok(Rewrite {
        drop_pipes,
        drop_verts: Names::new(alloc),
        add_verts: Verts::new(alloc),
        set_kinds: Verts::new(alloc),
        moves: Moves::new(alloc),
        add_edges: EdgeRows::new(alloc),
        add_pipes: Pipes::new(alloc),
    })
}

// Drops the pipe of greatest degree, if there is a pipe: a Small of fewer than three pairs.
fn drop_greatest(alloc: Global, store: &mut Store) -> Result<(), Memory> {
    let Some(pipe) = store.max_pipe() else {
        return Ok(());
    };
    let w = without_pipe(alloc, pipe)?;
    store.rewrite(alloc, &w)
}

// The number of parts, of rewrites that can be undone, and the greatest pipe.
fn counted(store: &Store) -> (usize, usize, Option<usize>) {
    (store.slots(), store.depth(), store.max_pipe())
}

// Undoes a rewrite, and tells these numbers, or `None` where there was nothing to undo.
fn undone(store: &mut Store) -> Option<(usize, usize, Option<usize>)> {
    if store.undo() {
        Some(counted(store))
    } else {
        None
    }
}

#[test]
fn the_worked_run_and_back(rt: HostRuntime) -> Result<(), Fail> {
    let alloc = rt.alloc();
    let mut store = first_store(alloc)?;
    assert_eq!(rt; counted(&store), (15, 0, Some(0)));
    make_join(alloc, &mut store)?;
    assert_eq!(rt; counted(&store), (28, 1, Some(1)));
    make_small(alloc, &mut store)?;
    drop_greatest(alloc, &mut store)?;
    drop_greatest(alloc, &mut store)?;
    assert_eq!(rt; counted(&store), (24, 5, None));
    assert_eq!(rt; undone(&mut store), Some((25, 4, Some(4))));
    assert_eq!(rt; undone(&mut store), Some((26, 3, Some(2))));
    assert_eq!(rt; undone(&mut store), Some((27, 2, Some(3))));
    assert_eq!(rt; undone(&mut store), Some((28, 1, Some(1))));
    assert_eq!(rt; undone(&mut store), Some((15, 0, Some(0))));
    assert_eq!(rt; undone(&mut store), None);
    assert_eq!(rt; counted(&store), (15, 0, Some(0)));
    Ok(())
}

// The present instance as text.
fn told(alloc: Global, store: &Store) -> Result<String, Fail> {
    let i = store.present(alloc)?;
    let text = format!(in alloc; "{i:?}")?;
    Ok(text)
}

// Undoes a rewrite. Whether there was one and the instance before it has this text.
fn goes_back_to(alloc: Global, store: &mut Store, wanted: &str) -> Result<bool, Fail> {
    let was = store.undo();
    let text = told(alloc, store)?;
    Ok(was && text.as_str() == wanted)
}

#[test]
fn each_undo_gives_the_instance_before(rt: HostRuntime) -> Result<(), Fail> {
    let alloc = rt.alloc();
    let mut store = first_store(alloc)?;
    let first = told(alloc, &store)?;
    make_join(alloc, &mut store)?;
    let joined = told(alloc, &store)?;
    make_small(alloc, &mut store)?;
    let third = told(alloc, &store)?;
    drop_greatest(alloc, &mut store)?;
    assert!(rt; goes_back_to(alloc, &mut store, third.as_str())?);
    assert!(rt; store.undo());
    assert!(rt; goes_back_to(alloc, &mut store, joined.as_str())?);
    assert!(rt; goes_back_to(alloc, &mut store, first.as_str())?);
    Ok(())
}

#[test]
fn dropped_names_are_free(rt: HostRuntime) -> Result<(), Fail> {
    let alloc = rt.alloc();
    let mut store = first_store(alloc)?;
    make_join(alloc, &mut store)?;
    let names = store.free_names(alloc, NameKind::Vert, 3)?;
    assert_eq!(rt; names.as_slice(), [2usize, 5, 14].as_slice());
    Ok(())
}
