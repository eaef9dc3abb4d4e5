// The rules of an instance, and its tables.
ghost use Rattle.std.specs.Prelude.{◌≡◌, IfOk, IfErr, MatchOption};
ghost use Rattle.std.specs.List.{All};
ghost use Rattle.cp_board.specs.Instances.{IsSynchronized};
ghost use Rattle.cp_board.specs.Faults.{IsFirstBroken, Keeps, parts, Names as FirstRule};
ghost use Rattle.cp_sync.specs.Faults.{IsFaultOf, with_parts};
ghost use Rattle.cp_sync.specs.Tables.{AreAdjacent, ArePiped};

use crate::ends::first_wrong_edge;
use crate::fault::PartsFault;
use crate::lists::first_wrong_list;
use crate::names::{first_wrong_name, first_wrong_vert};
use crate::pairs::first_wrong_pairs;
use crate::piping::{mark_all, unpiped};
use crate::tables::adjacency;
use cp_board::{EdgeRow, Names, Pipe, Vert};
use std::alloc::Global;

// The name of the first part that breaks the first rule. Linear.
fn first_misnamed(verts: &[Vert], edges: &[EdgeRow], pipes: &[Pipe]) -> Option<usize>
    ensures { let i = with_parts verts.now edges.now pipes.now in MatchOption result (All (Keeps i FirstRule) (parts i)) (IsFirstBroken i 1) }
{
    if let Some(k) = first_wrong_vert(verts) {
        return Some(verts[k].name);
    }
    if let Some(k) = first_wrong_name(edges) {
        return Some(edges[k].name);
    }
    if let Some(k) = first_wrong_name(pipes) {
        return Some(pipes[k].name);
    }
    None
}

// The edges and the pipe of each vertex, by its place, where all five rules are kept. Linear, up to a logarithm.
pub(crate) fn tables(
    alloc: Global,
    verts: &[Vert],
    edges: &[EdgeRow],
    pipes: &[Pipe],
) -> Result<(Vec<Names>, Vec<Option<usize>>), PartsFault>
    ensures rules { IfOk result (λ t. IsSynchronized (with_parts verts.now edges.now pipes.now)) }
    ensures edges { IfOk result (λ t. AreAdjacent verts.now edges.now t.0.items) }
    ensures pipes { IfOk result (λ t. ArePiped verts.now pipes.now t.1.items) }
    ensures err { IfErr result (IsFaultOf (with_parts verts.now edges.now pipes.now)) }
{
    if let Some(name) = first_misnamed(verts, edges, pipes) {
        return Err(PartsFault::Broken { rule: 1, name });
    }
    if let Some(k) = first_wrong_edge(verts, edges) {
        return Err(PartsFault::Broken {
            rule: 2,
            name: edges[k].name,
        });
    }
    let at = adjacency(alloc, verts, edges)?;
    if let Some(k) = first_wrong_list(alloc, verts, at.as_slice())? {
        return Err(PartsFault::Broken {
            rule: 3,
            name: verts[k].name,
        });
    }
    let mut piped = unpiped(alloc, verts.len())?;
    if let Some(k) = mark_all(verts, pipes, &mut piped) {
        return Err(PartsFault::Broken {
            rule: 4,
            name: pipes[k].name,
        });
    }
    if let Some(k) = first_wrong_pairs(alloc, verts, pipes, at.as_slice())? {
        return Err(PartsFault::Broken {
            rule: 5,
            name: pipes[k].name,
        });
    }
    Ok((at, piped))
}
