// The run of reductions of a graph's skeletons, as a text.
ghost use Rattle.std.specs.Prelude.{◌≡◌, ◌^◌, ◌<◌, ℕ, List, length, IfOk};
ghost use Rattle.cp_board.specs.Instances.{edge_names};
ghost use Rattle.cp_cgraph.specs.GraphTexts.{IsGraphText};
ghost use Rattle.cp_app.specs.Answer.{IsTraceOf, Traced};

use crate::End;
use crate::refusing::refusal;
use cp_base::Memory;
use cp_cgraph::{CGraph, read_graph};
use cp_drive::solve_instance;
use cp_skel::skeletons_of;
use cp_sync::{Board, Instance};
use cp_trace::write_trace;
use std::alloc::Global;

// The number of the edges, which fits into a text. Linear.
fn count_edges(alloc: Global, i: &Instance) -> Result<usize, Memory>
    ensures value { IfOk result (λ n. n ≡ length (edge_names i.now)) }
    ensures few { IfOk result (λ n. length (edge_names i.now) < 2 ^ 63) }
{
    let names = i.edges(alloc)?;
    Ok(names.len())
}

/// The text of the run of reductions that solves the skeletons of a clustered graph, or shows that they have no
/// solution (Bläsius, Fink, Rutter 2021). Costs what its skeletons and `solve_instance` cost, and is linear in the two
/// instances that it tells, up to a logarithm, and in the steps.
pub fn trace_graph(alloc: Global, graph: &CGraph) -> Result<Vec<u8>, Memory>
    ensures { IfOk result (λ text. IsTraceOf graph.now text.items) }
{
    graph.is_clustered();
    let skeletons = skeletons_of(alloc, graph)?;
    let first = skeletons.instance();
    let run = solve_instance(alloc, first)?;
    run.last.follows_rules();
    let _count = count_edges(alloc, &run.last)?;
    write_trace(alloc, first, run.steps.items(), &run.last, &run.outcome)
}

// The end and the text of a graph.
fn traced(alloc: Global, graph: &CGraph) -> Result<(End, Vec<u8>), Memory>
    ensures { IfOk result (λ a. (text : List ℕ) → IsGraphText text graph.now → Traced text a.0 a.1.items) }
{
    let text = trace_graph(alloc, graph)?;
    Ok((End::Done, text))
}

/// The end and its text. Costs what `read_graph` and `trace_graph` cost.
pub(crate) fn trace_text(alloc: Global, bytes: &[u8]) -> Result<(End, Vec<u8>), Memory>
    ensures { IfOk result (λ a. Traced bytes.now a.0 a.1.items) }
{
    match read_graph(alloc, bytes) {
        Ok(graph) => traced(alloc, &graph),
        Err(fault) => refusal(alloc, fault),
    }
}
