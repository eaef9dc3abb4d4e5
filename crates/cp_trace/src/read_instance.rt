// An instance, read exactly.
ghost use Rattle.std.specs.Prelude.{◌≡◌, ◌++◌, ◌∷◌, MatchOption, IfOk};
ghost use Rattle.cp_board.specs.Instances.{IsSynchronized};
ghost use Rattle.cp_sync.specs.Faults.{with_parts};
ghost use Rattle.cp_trace.specs.Reading.{AreParts, StopsInInstance};
ghost use Rattle.cp_trace.specs.Texts.{instance_lines, text_of};

use crate::read_lists::{read_edges, read_pipes, read_verts};
use crate::word::after_line;
use cp_base::Memory;
use cp_board::{EdgeRows, Pipes, Verts};
use cp_sync::{Instance, PartsFault};
use std::alloc::Global;

// The vertices, edges and pipes that the first lines tell, and what stands behind them.
fn read_parts(alloc: Global, bytes: &[u8]) -> Result<(Verts, EdgeRows, Pipes, &[u8]), Memory>
    ensures { IfOk result (λ r. AreParts bytes.now (with_parts r.0 r.1 r.2) r.3.now) }
{
    let (verts, behind_verts) = read_verts(alloc, bytes)?;
    let (edges, behind_edges) = read_edges(alloc, behind_verts)?;
    let (pipes, rest) = read_pipes(alloc, behind_edges)?;
    Ok((verts, edges, pipes, rest))
}

// The instance of these parts, if they keep the rules.
fn instance_of(
    alloc: Global,
    verts: Verts,
    edges: EdgeRows,
    pipes: Pipes,
) -> Result<Option<Instance>, Memory>
    ensures { IfOk result (λ found. MatchOption found (IsSynchronized (with_parts verts edges pipes) → ⊥) (λ i. IsSynchronized i × (i ≡ with_parts verts edges pipes))) }
{
    match Instance::from_parts(alloc, verts, edges, pipes) {
        Ok(instance) => Ok(Some(instance)),
        Err(PartsFault::Broken { .. }) => Ok(None),
        Err(PartsFault::Memory) => Err(Memory),
    }
}

// The instance that the first lines tell, and what stands behind it; or the first line that does not go on with one, and
// what stands behind. Linear in the length of the lines, up to a logarithm.
pub(crate) fn read_instance(
    alloc: Global,
    bytes: &[u8],
) -> Result<(Option<Instance>, &[u8]), Memory>
    ensures { IfOk result (λ r. MatchOption r.0 (StopsInInstance bytes.now r.1.now) (λ i. IsSynchronized i × (bytes.now ≡ text_of (instance_lines i) ++ r.1.now))) }
{
    let Some(inside) = after_line(bytes, b"instance") else {
        return Ok((None, bytes));
    };
    let (verts, edges, pipes, rest) = read_parts(alloc, inside)?;
    let Some(after) = after_line(rest, b"instance end") else {
        return Ok((None, rest));
    };
    match instance_of(alloc, verts, edges, pipes)? {
        Some(instance) => Ok((Some(instance), after)),
        None => Ok((None, rest)),
    }
}
