// From a run to its text.
ghost use Rattle.std.specs.Prelude.{◌≡◌, ◌++◌, ◌∷◌, [], ◌^◌, ◌<◌, codes, cond, map, IfOk, OnOk};
ghost use Rattle.std.specs.List.{All, Contains, flat_map, join_with_byte};
ghost use Rattle.cp_board.specs.Instances.{IsSynchronized, edge_names, pipe_names, vert_names};
ghost use Rattle.cp_trace.specs.Parts.{edge_under, pipe_under, vert_under};
ghost use Rattle.cp_trace.specs.Texts.{body_text, edge_line, end_line, instance_lines, kind_text, pipe_line, reason_line, step_line, text_of, vert_line};
ghost use Rattle.cp_trace.specs.Traces.{AreNumbers, IsTextOf, reason_numbers, reason_of, run_of, step_numbers};

use crate::named_parts::pipe_names_of;
use crate::numbers::{push_keyed, push_number, push_pairs};
use cp_base::{Branch, Memory};
use cp_board::{Reason, Step};
use cp_sync::{Board, Instance, Outcome};
use std::alloc::Global;

// Appends a line that is known, with its line feed.
fn push_line(text: &mut Vec<u8>, line: &[u8]) -> Result<(), Memory>
    ensures { OnOk result (text.new.items ≡ text.old.items ++ (line.now ++ 10 ∷ [])) }
{
    text.extend_from_slice(line)?;
    text.push(b'\n')?;
    Ok(())
}

// Appends what is asked of the order of a vertex.
fn push_kind(alloc: Global, text: &mut Vec<u8>, i: &Instance, v: usize) -> Result<(), Memory>
    requires { Contains (vert_names i.now) v }
    ensures { OnOk result (text.new.items ≡ text.old.items ++ kind_text (vert_under i.now v).kind) }
{
    if i.is_q(v) {
        push_keyed(alloc, text, b" Q", &[i.cell(v)])?;
        push_keyed(alloc, text, b":", i.psi(v).items())
    } else {
        text.extend_from_slice(b" P")?;
        Ok(())
    }
}

// Appends the line of a vertex.
fn push_vert(alloc: Global, text: &mut Vec<u8>, i: &Instance, v: usize) -> Result<(), Memory>
    requires { Contains (vert_names i.now) v }
    ensures { OnOk result (text.new.items ≡ text.old.items ++ (vert_line (vert_under i.now v) ++ 10 ∷ [])) }
{
    push_keyed(alloc, text, b"vertex", &[v])?;
    push_kind(alloc, text, i, v)?;
    text.push(b'\n')?;
    Ok(())
}

// Appends the line of an edge.
fn push_edge(alloc: Global, text: &mut Vec<u8>, i: &Instance, e: usize) -> Result<(), Memory>
    requires { Contains (edge_names i.now) e }
    ensures { OnOk result (text.new.items ≡ text.old.items ++ (edge_line (edge_under i.now e) ++ 10 ∷ [])) }
{
    let (a, b) = i.ends(e);
    push_keyed(alloc, text, b"edge", &[e, a, b])?;
    text.push(b'\n')?;
    Ok(())
}

// Appends the line of a pipe.
fn push_pipe(alloc: Global, text: &mut Vec<u8>, i: &Instance, p: usize) -> Result<(), Memory>
    requires { Contains (pipe_names i.now) p }
    ensures { OnOk result (text.new.items ≡ text.old.items ++ (pipe_line (pipe_under i.now p) ++ 10 ∷ [])) }
{
    let (a, b) = i.pipe_ends(p);
    push_keyed(alloc, text, b"pipe", &[p, a, b])?;
    text.push(b':')?;
    push_pairs(alloc, text, i.pairs(p))?;
    text.push(b'\n')?;
    Ok(())
}

// Appends the lines of vertices.
fn push_vert_rows(
    alloc: Global,
    text: &mut Vec<u8>,
    i: &Instance,
    names: &[usize],
) -> Result<(), Memory>
    requires { All (Contains (vert_names i.now)) names.now }
    ensures { OnOk result (text.new.items ≡ text.old.items ++ flat_map (λ v. vert_line (vert_under i.now v) ++ 10 ∷ []) names.now) }
{
    for v in names {
        push_vert(alloc, text, i, *v)?;
    }
    Ok(())
}

// Appends the lines of all vertices.
fn push_verts(alloc: Global, text: &mut Vec<u8>, i: &Instance) -> Result<(), Memory>
    ensures text { OnOk result (text.new.items ≡ text.old.items ++ text_of (map vert_line i.now.verts)) }
    ensures rules { IsSynchronized i.now }
{
    let names = i.verts(alloc)?;
    push_vert_rows(alloc, text, i, names.as_slice())
}

// Appends the lines of edges.
fn push_edge_rows(
    alloc: Global,
    text: &mut Vec<u8>,
    i: &Instance,
    names: &[usize],
) -> Result<(), Memory>
    requires { All (Contains (edge_names i.now)) names.now }
    ensures { OnOk result (text.new.items ≡ text.old.items ++ flat_map (λ e. edge_line (edge_under i.now e) ++ 10 ∷ []) names.now) }
{
    for e in names {
        push_edge(alloc, text, i, *e)?;
    }
    Ok(())
}

// Appends the lines of all edges.
fn push_edges(alloc: Global, text: &mut Vec<u8>, i: &Instance) -> Result<(), Memory>
    ensures { OnOk result (text.new.items ≡ text.old.items ++ text_of (map edge_line i.now.edges)) }
{
    let names = i.edges(alloc)?;
    push_edge_rows(alloc, text, i, names.as_slice())
}

// Appends the lines of pipes.
fn push_pipe_rows(
    alloc: Global,
    text: &mut Vec<u8>,
    i: &Instance,
    names: &[usize],
) -> Result<(), Memory>
    requires { All (Contains (pipe_names i.now)) names.now }
    ensures { OnOk result (text.new.items ≡ text.old.items ++ flat_map (λ p. pipe_line (pipe_under i.now p) ++ 10 ∷ []) names.now) }
{
    for p in names {
        push_pipe(alloc, text, i, *p)?;
    }
    Ok(())
}

// Appends the lines of all pipes.
fn push_pipes(alloc: Global, text: &mut Vec<u8>, i: &Instance) -> Result<(), Memory>
    ensures { OnOk result (text.new.items ≡ text.old.items ++ text_of (map pipe_line i.now.pipes)) }
{
    let names = pipe_names_of(alloc, i)?;
    push_pipe_rows(alloc, text, i, names.as_slice())
}

// Appends the lines of an instance.
pub(crate) fn push_instance(alloc: Global, text: &mut Vec<u8>, i: &Instance) -> Result<(), Memory>
    ensures text { OnOk result (text.new.items ≡ text.old.items ++ text_of (instance_lines i.now)) }
    ensures rules { OnOk result (IsSynchronized i.now) }
{
    push_line(text, b"instance")?;
    push_verts(alloc, text, i)?;
    push_edges(alloc, text, i)?;
    push_pipes(alloc, text, i)?;
    push_line(text, b"instance end")
}

// Appends a branch of a shape. Linear in its size.
#[cycle(bodies)]
pub(crate) fn push_body(alloc: Global, text: &mut Vec<u8>, body: &Branch) -> Result<(), Memory>
    ensures { OnOk result (text.new.items ≡ text.old.items ++ body_text body.now) }
{
    match body {
        Branch::Leaf(edge) => push_number(alloc, text, *edge),
        Branch::P(kids) => {
            text.push(b'P')?;
            push_kids(alloc, text, kids.items())
        }
        Branch::Q(kids) => {
            text.push(b'Q')?;
            push_kids(alloc, text, kids.items())
        }
    }
}

// Appends the blank in front of a kid, but for the first.
fn push_gap(text: &mut Vec<u8>, is_first: bool) -> Result<(), Memory>
    ensures { OnOk result (text.new.items ≡ text.old.items ++ cond is_first [] (32 ∷ [])) }
{
    if !is_first {
        text.push(b' ')?;
    }
    Ok(())
}

// Appends the kids of an inner node in their brackets.
#[cycle(bodies)]
fn push_kids(alloc: Global, text: &mut Vec<u8>, kids: &[Branch]) -> Result<(), Memory>
    ensures { OnOk result (text.new.items ≡ text.old.items ++ 91 ∷ join_with_byte 32 (map body_text kids.now) ++ 93 ∷ []) }
{
    text.push(b'[')?;
    let mut is_first = true;
    for kid in kids {
        push_gap(text, is_first)?;
        push_body(alloc, text, kid)?;
        is_first = false;
    }
    text.push(b']')?;
    Ok(())
}

// Appends what the line of a step says.
pub(crate) fn push_step(alloc: Global, text: &mut Vec<u8>, step: &Step) -> Result<(), Memory>
    ensures { OnOk result (text.new.items ≡ text.old.items ++ step_line step.now) }
{
    match step {
        Step::Small { pipe } => push_keyed(alloc, text, b"step small", &[*pipe]),
        Step::FreePole { pipe, end, pole } => {
            push_keyed(alloc, text, b"step free", &[*pipe, *end, *pole])
        }
        Step::FusePoles { pipe, end, pole } => {
            push_keyed(alloc, text, b"step fuse", &[*pipe, *end, *pole])
        }
        Step::Toroidal { pipe } => push_keyed(alloc, text, b"step torus", &[*pipe]),
        Step::Join { pipe } => push_keyed(alloc, text, b"step join", &[*pipe]),
        Step::Propagate { pipe, end, shape } => {
            push_keyed(alloc, text, b"step tree", &[*pipe, *end, shape.root])?;
            text.push(b' ')?;
            push_body(alloc, text, &shape.body)
        }
    }
}

// Appends the line of a step.
fn push_step_line(alloc: Global, text: &mut Vec<u8>, step: &Step) -> Result<(), Memory>
    ensures { OnOk result (text.new.items ≡ text.old.items ++ (step_line step.now ++ 10 ∷ [])) }
{
    push_step(alloc, text, step)?;
    text.push(b'\n')?;
    Ok(())
}

// Appends the lines of the steps.
fn push_steps(alloc: Global, text: &mut Vec<u8>, steps: &[Step]) -> Result<(), Memory>
    ensures { OnOk result (text.new.items ≡ text.old.items ++ text_of (map step_line steps.now)) }
{
    for step in steps {
        push_step_line(alloc, text, step)?;
    }
    Ok(())
}

// Appends what is to blame where there is no solution.
pub(crate) fn push_reason(alloc: Global, text: &mut Vec<u8>, reason: Reason) -> Result<(), Memory>
    ensures { OnOk result (text.new.items ≡ text.old.items ++ reason_line reason) }
{
    match reason {
        Reason::NotPlanar(edge) => push_keyed(alloc, text, b"failed not-planar", &[edge]),
        Reason::CyclesDiffer { a, b } => push_keyed(alloc, text, b"failed cycles", &[a, b]),
        Reason::BlocksCross(vertex) => push_keyed(alloc, text, b"failed cross", &[vertex]),
        Reason::Conflict => push_keyed(alloc, text, b"failed conflict", &[]),
    }
}

// Appends the lines behind the last instance.
fn push_end(alloc: Global, text: &mut Vec<u8>, outcome: &Outcome) -> Result<(), Memory>
    ensures { OnOk result (text.new.items ≡ text.old.items ++ text_of (end_line (reason_of outcome.now) ∷ codes "end" ∷ [])) }
{
    match outcome {
        Outcome::Solved(_) => text.extend_from_slice(b"solved")?,
        Outcome::Failed(reason) => push_reason(alloc, text, *reason)?,
    }
    text.extend_from_slice(b"\nend\n")?;
    Ok(())
}

/// Writes the one text of a run: its first instance, its steps, its last instance, and whether it solved the first one,
/// without the solution. Linear in the length of the text, up to a logarithm.
pub fn write_trace(
    alloc: Global,
    first: &Instance,
    steps: &[Step],
    last: &Instance,
    outcome: &Outcome,
) -> Result<Vec<u8>, Memory>
    requires steps_fit { All (λ step. AreNumbers (step_numbers step)) steps.now }
    requires reason_fits { AreNumbers (reason_numbers (reason_of outcome.now)) }
    ensures { IfOk result (λ text. IsTextOf text.items (run_of first.now steps.now last.now outcome.now)) }
{
    let mut text = Vec::new(alloc);
    push_line(&mut text, b"cplan-trace 1")?;
    push_instance(alloc, &mut text, first)?;
    push_steps(alloc, &mut text, steps)?;
    push_instance(alloc, &mut text, last)?;
    push_end(alloc, &mut text, outcome)?;
    Ok(text)
}
