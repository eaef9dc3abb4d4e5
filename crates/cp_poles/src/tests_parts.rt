// Small instances and rewrites by their numbers, for tests.

use cp_base::{CycList, Memory};
use cp_board::{EdgeRow, EdgeRows, Kind, Moves, Names, Pairs, Pipe, Pipes, Rewrite, Vert, Verts};
use cp_sync::{Instance, PartsFault};
use std::alloc::Global;

// A pipe by its name, its ends and its pairs.
pub(crate) type PipeParts<'a> = (usize, usize, usize, &'a [(usize, usize)]);

// An instance by the names of its P-vertices, its edges with their ends, and its pipes.
#[derive(Clone, Copy, Debug)]
pub(crate) struct Parts<'a> {
    pub(crate) verts: &'a [usize],
    pub(crate) edges: &'a [(usize, usize, usize)],
    pub(crate) pipes: &'a [PipeParts<'a>],
}

// A rewrite by the pipes that it drops, the Q-vertices that it makes, with their cells and lists, and new pipes.
#[derive(Clone, Copy, Debug)]
pub(crate) struct Want<'a> {
    pub(crate) drops: &'a [usize],
    pub(crate) fixed: &'a [(usize, usize, &'a [usize])],
    pub(crate) pipes: &'a [PipeParts<'a>],
}

// The P-vertices of these names.
fn free_verts(alloc: Global, names: &[usize]) -> Result<Verts, Memory> {
    let mut verts = Verts::new(alloc);
    for name in names {
        verts.push(Vert {
            name: *name,
            kind: Kind::P,
        })?;
    }
    Ok(verts)
}

// Q-vertices with their cells and lists.
fn fixed_verts(alloc: Global, list: &[(usize, usize, &[usize])]) -> Result<Verts, Memory> {
    let mut verts = Verts::new(alloc);
    for (name, cell, psi) in list {
        let psi = CycList::from_slice(alloc, psi)?;
        verts.push(Vert {
            name: *name,
            kind: Kind::Q { cell: *cell, psi },
        })?;
    }
    Ok(verts)
}

// Edges by their names and their ends.
fn edge_rows(alloc: Global, list: &[(usize, usize, usize)]) -> Result<EdgeRows, Memory> {
    let mut edges = EdgeRows::new(alloc);
    for (name, a, b) in list {
        edges.push(EdgeRow {
            name: *name,
            a: *a,
            b: *b,
        })?;
    }
    Ok(edges)
}

// Pairs of edges.
fn pairs(alloc: Global, list: &[(usize, usize)]) -> Result<Pairs, Memory> {
    let mut pairs = Pairs::new(alloc);
    for pair in list {
        pairs.push(*pair)?;
    }
    Ok(pairs)
}

// Pipes by their parts.
fn pipes(alloc: Global, list: &[PipeParts<'_>]) -> Result<Pipes, Memory> {
    let mut pipes = Pipes::new(alloc);
    for (name, a, b, of) in list {
        let pairs = pairs(alloc, of)?;
        pipes.push(Pipe {
            name: *name,
            a: *a,
            b: *b,
            pairs,
        })?;
    }
    Ok(pipes)
}

// Names, as a list of them.
fn names(alloc: Global, list: &[usize]) -> Result<Names, Memory> {
    let mut names = Names::new(alloc);
    for name in list {
        names.push(*name)?;
    }
    Ok(names)
}

// The instance of these parts.
pub(crate) fn instance(alloc: Global, parts: Parts<'_>) -> Result<Instance, PartsFault> {
    let verts = free_verts(alloc, parts.verts)?;
    let edges = edge_rows(alloc, parts.edges)?;
    let pipes = pipes(alloc, parts.pipes)?;
    Instance::from_parts(alloc, verts, edges, pipes)
}

// The rewrite of these parts.
pub(crate) fn wanted(alloc: Global, want: Want<'_>) -> Result<Rewrite, Memory> {
    let drop_pipes = names(alloc, want.drops)?;
    let set_kinds = fixed_verts(alloc, want.fixed)?;
    let add_pipes = pipes(alloc, want.pipes)?;
    Ok(Rewrite {
        drop_pipes,
        drop_verts: Names::new(alloc),
        add_verts: Verts::new(alloc),
        set_kinds,
        moves: Moves::new(alloc),
        add_edges: EdgeRows::new(alloc),
        add_pipes,
    })
}
