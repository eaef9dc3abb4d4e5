// The clustered graph that a text says.
ghost use Rattle.std.specs.Prelude.{IfErr, IfOk};
ghost use Rattle.cp_cgraph.specs.GraphTexts.{IsGraphText, IsListText, IsTextFault};

use crate::graph::CGraph;
use crate::kind::GraphKind;
use crate::reader::graph_or_fault;
use cp_base::Memory;
use cp_gml::{GmlList, GrammarKind, ListFault, read_list};
use std::alloc::Global;
use thiserror::Error;

/// Why a text says no clustered graph: a kind, and an offset in bytes, counted from the first one of the text.
#[derive(Clone, Copy, Debug, PartialEq, Eq, Error)]
pub enum TextFault {
    /// The text is no list of keys and values.
    #[error("grammar fault {kind} at byte {at}")]
    Grammar { kind: GrammarKind, at: usize },
    /// The list says no clustered graph.
    #[error("graph fault {kind} at byte {at}")]
    Graph { kind: GraphKind, at: usize },
    /// An allocation failed.
    #[error("out of memory")]
    Memory,
}

// The list of keys and values that the text is.
fn list_of(alloc: Global, text: &[u8]) -> Result<GmlList, TextFault>
    ensures list { IfOk result (λ list. IsListText text.now list) }
    ensures fault { IfErr result (IsTextFault text.now) }
{
    match read_list(alloc, text) {
        Ok(list) => Ok(list),
        Err(ListFault::Grammar { kind, at }) => Err(TextFault::Grammar { kind, at }),
        Err(ListFault::Memory) => Err(TextFault::Memory),
    }
}

/// The clustered graph that a text in GML says, or its first fault. Costs what `parse` and `build` cost.
///
/// # Errors
///
/// `Grammar` exactly where the text is no list of keys and values, `Graph` exactly where it is one that says no
/// clustered graph. `Memory` where an allocation fails.
pub fn read_graph(alloc: Global, text: &[u8]) -> Result<CGraph, TextFault>
    ensures graph { IfOk result (IsGraphText text.now) }
    ensures fault { IfErr result (IsTextFault text.now) }
{
    let list = list_of(alloc, text)?;
    match graph_or_fault(alloc, &list) {
        Ok(Ok(graph)) => Ok(graph),
        Ok(Err((at, kind))) => Err(TextFault::Graph { kind, at }),
        Err(Memory) => Err(TextFault::Memory),
    }
}
