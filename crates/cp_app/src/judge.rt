// The verdict on a report.
ghost use Rattle.std.specs.Prelude.{IfOk};
ghost use Rattle.cp_check.specs.Judging.{IsVerdict};

use cp_base::Memory;
use cp_cgraph::CGraph;
use cp_check::{Scratch, Verdict, check};
use cp_report::Report;
use std::alloc::Global;

/// Whether the report has a good layout for the graph. All memory is taken before the check begins.
/// Linear in the graph, the report and the border graph.
pub(crate) fn verdict(alloc: Global, graph: &CGraph, report: &Report) -> Result<Verdict, Memory>
    ensures { IfOk result (IsVerdict graph.now report.now) }
{
    let mut scratch = Scratch::for_graph(alloc, graph)?;
    Ok(check(graph, report, &mut scratch))
}
