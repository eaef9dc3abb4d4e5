// The graph that a text says, without its clusters.
ghost use Rattle.std.specs.Prelude.{◌≡◌, IfErr, IfOk};
ghost use Rattle.cp_cgraph.specs.GraphTexts.{IsTextFault};
ghost use Rattle.graph_parts.specs.Answer.{IsPlainText, plain};

use cp_base::{Graph, Memory};
use cp_cgraph::{CGraph, TextFault, read_graph};
use std::alloc::Global;

// The two ends of each edge.
fn ends_of(alloc: Global, graph: &CGraph) -> Result<Vec<(usize, usize)>, Memory>
    ensures { IfOk result (λ ends. ends.items ≡ graph.now.ends) }
{
    let mut ends = Vec::new(alloc);
    for edge in 0..graph.edges() {
        ends.push(graph.ends(edge))?;
    }
    Ok(ends)
}

// The nodes and edges of a clustered graph.
fn plain_of(alloc: Global, graph: &CGraph) -> Result<Graph, Memory>
    ensures { IfOk result (λ g. g ≡ plain graph.now) }
{
    let ends = ends_of(alloc, graph)?;
    let g = Graph::from_ends(alloc, graph.nodes(), ends.as_slice())?;
    Ok(g)
}

/// The graph that the text says, or its first fault. Linear on average in the text.
pub fn graph_of(alloc: Global, text: &[u8]) -> Result<Graph, TextFault>
    ensures graph { IfOk result (IsPlainText text.now) }
    ensures fault { IfErr result (IsTextFault text.now) }
{
    let graph = read_graph(alloc, text)?;
    match plain_of(alloc, &graph) {
        Ok(g) => Ok(g),
        Err(Memory) => Err(TextFault::Memory),
    }
}
