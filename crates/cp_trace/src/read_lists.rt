// The lines of an instance behind each other, read as far as they go.
ghost use Rattle.std.specs.Prelude.{◌≡◌, MatchOption, IfOk};
ghost use Rattle.cp_board.specs.declared.parts.Vert.{Vert as AnyVert};
ghost use Rattle.cp_board.specs.declared.parts.EdgeRow.{EdgeRow as AnyEdge};
ghost use Rattle.cp_board.specs.declared.parts.Pipe.{Pipe as AnyPipe};
ghost use Rattle.cp_trace.specs.Faults.{AreToldEdges, AreToldPipes, AreToldVerts, IsToldEdge, IsToldPipe, IsToldVert};
ghost use Rattle.cp_trace.specs.Reading.{AreLines, GoesNoFurther, IsAbove};
ghost use Rattle.cp_trace.specs.Texts.{edge_line, pipe_line, vert_line};

use crate::read_parts::{edge_of, is_above, pipe_of, vert_of};
use crate::word::cut;
use cp_base::{Items, Memory};
use cp_board::{EdgeRow, EdgeRows, Pipe, Pipes, Vert, Verts};
use std::alloc::Global;

// The vertex that the line tells, if its name is greater than the last one.
fn next_vert(alloc: Global, last: Option<usize>, line: &[u8]) -> Result<Option<Vert>, Memory>
    ensures { IfOk result (λ found. MatchOption found ((v : AnyVert) → IsToldVert v → IsAbove last v.name → line.now ≡ vert_line v → ⊥) (λ v. IsToldVert v × IsAbove last v.name × (line.now ≡ vert_line v))) }
{
    let Some(vert) = vert_of(alloc, line)? else {
        return Ok(None);
    };
    if is_above(last, vert.name) {
        Ok(Some(vert))
    } else {
        Ok(None)
    }
}

// The vertices that the first lines tell, and what stands behind them. Linear in the length of these lines.
pub(crate) fn read_verts(alloc: Global, bytes: &[u8]) -> Result<(Verts, &[u8]), Memory>
    ensures { IfOk result (λ r. AreLines vert_line AreToldVerts bytes.now r.0 r.1.now × GoesNoFurther vert_line AreToldVerts r.0 r.1.now) }
{
    let mut verts = Items::new(alloc);
    let mut last = None;
    let mut rest = bytes;
    while let Some((line, after)) = cut(rest, b'\n') {
        let Some(vert) = next_vert(alloc, last, line)? else {
            return Ok((verts, rest));
        };
        last = Some(vert.name);
        verts.push(vert)?;
        rest = after;
    }
    Ok((verts, rest))
}

// The edge that the line tells, if its name is greater than the last one.
fn next_edge(last: Option<usize>, line: &[u8]) -> Option<EdgeRow>
    ensures { MatchOption result ((e : AnyEdge) → IsToldEdge e → IsAbove last e.name → line.now ≡ edge_line e → ⊥) (λ e. IsToldEdge e × IsAbove last e.name × (line.now ≡ edge_line e)) }
{
    let edge = edge_of(line)?;
    if is_above(last, edge.name) {
        Some(edge)
    } else {
        None
    }
}

// The edges that the first lines tell, and what stands behind them. Linear in the length of these lines.
pub(crate) fn read_edges(alloc: Global, bytes: &[u8]) -> Result<(EdgeRows, &[u8]), Memory>
    ensures { IfOk result (λ r. AreLines edge_line AreToldEdges bytes.now r.0 r.1.now × GoesNoFurther edge_line AreToldEdges r.0 r.1.now) }
{
    let mut edges = Items::new(alloc);
    let mut last = None;
    let mut rest = bytes;
    while let Some((line, after)) = cut(rest, b'\n') {
        let Some(edge) = next_edge(last, line) else {
            return Ok((edges, rest));
        };
        last = Some(edge.name);
        edges.push(edge)?;
        rest = after;
    }
    Ok((edges, rest))
}

// The pipe that the line tells, if its name is greater than the last one.
fn next_pipe(alloc: Global, last: Option<usize>, line: &[u8]) -> Result<Option<Pipe>, Memory>
    ensures { IfOk result (λ found. MatchOption found ((p : AnyPipe) → IsToldPipe p → IsAbove last p.name → line.now ≡ pipe_line p → ⊥) (λ p. IsToldPipe p × IsAbove last p.name × (line.now ≡ pipe_line p))) }
{
    let Some(pipe) = pipe_of(alloc, line)? else {
        return Ok(None);
    };
    if is_above(last, pipe.name) {
        Ok(Some(pipe))
    } else {
        Ok(None)
    }
}

// The pipes that the first lines tell, and what stands behind them. Linear in the length of these lines.
pub(crate) fn read_pipes(alloc: Global, bytes: &[u8]) -> Result<(Pipes, &[u8]), Memory>
    ensures { IfOk result (λ r. AreLines pipe_line AreToldPipes bytes.now r.0 r.1.now × GoesNoFurther pipe_line AreToldPipes r.0 r.1.now) }
{
    let mut pipes = Items::new(alloc);
    let mut last = None;
    let mut rest = bytes;
    while let Some((line, after)) = cut(rest, b'\n') {
        let Some(pipe) = next_pipe(alloc, last, line)? else {
            return Ok((pipes, rest));
        };
        last = Some(pipe.name);
        pipes.push(pipe)?;
        rest = after;
    }
    Ok((pipes, rest))
}
