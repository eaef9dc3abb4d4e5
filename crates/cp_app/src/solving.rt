// The answer to the text of a graph: a good layout, or that there is none.
ghost use Rattle.std.specs.Prelude.{◌≡◌, ℕ, List, IfOk};
ghost use Rattle.cp_cgraph.specs.GraphTexts.{IsGraphText};
ghost use Rattle.cp_drive.specs.Driving.{IsRunFrom};
ghost use Rattle.cp_report.specs.Texts.{report_text};
ghost use Rattle.cp_skel.specs.SkeletonTables.{told_skeletons};
ghost use Rattle.cp_skel.specs.Skeletons.{skeletons};
ghost use Rattle.cp_app.specs.Answer.{IsSolvedReport, Solved, end_of};

use crate::End;
use crate::refusing::refusal;
use cp_base::Memory;
use cp_border::Decide;
use cp_cgraph::{CGraph, Layout, read_graph};
use cp_drive::{Run, solve_instance};
use cp_report::{Report, write_report};
use cp_skel::{Skeletons, borders_of, skeletons_of};
use cp_sync::Outcome;
use std::alloc::Global;

// The report of a graph by a run of reductions of its skeletons.
fn report_of(alloc: Global, graph: &CGraph, tables: &Skeletons, run: &Run) -> Result<Report, Memory>
    requires skeletons { tables.now ≡ told_skeletons graph.now }
    requires run { IsRunFrom (skeletons graph.now) run.now }
    ensures { IfOk result (IsSolvedReport graph.now) }
{
    graph.is_clustered();
    match &run.outcome {
        Outcome::Solved(solution) => {
            let layout = borders_of(alloc, graph, tables, solution)?;
            Ok(Report::Yes(layout))
        }
        Outcome::Failed(_) => Ok(Report::No),
    }
}

/// A good layout of a clustered graph, each list from its least item on, or that there is none (Feng, Cohen, Eades
/// 1995; Bläsius, Fink, Rutter 2021). Costs what its skeletons and `solve_instance` cost.
pub fn solve_graph(alloc: Global, graph: &CGraph) -> Result<Report, Memory>
    ensures { IfOk result (IsSolvedReport graph.now) }
{
    let skeletons = skeletons_of(alloc, graph)?;
    let run = solve_instance(alloc, skeletons.instance())?;
    report_of(alloc, graph, &skeletons, &run)
}

/// What decides clustered planarity by synchronized planarity (Bläsius, Fink, Rutter 2021).
#[derive(Clone, Copy, Debug, PartialEq, Eq)]
pub struct Solver;

impl Decide for Solver {
    fn decide(&mut self, alloc: Global, g: &CGraph) -> Result<Option<Layout>, Memory> {
        match solve_graph(alloc, g)? {
            Report::Yes(layout) => Ok(Some(layout)),
            Report::No => Ok(None),
        }
    }
}

// The end and the text of a report.
fn told(alloc: Global, report: &Report) -> Result<(End, Vec<u8>), Memory>
    ensures { IfOk result (λ a. (a.0 ≡ end_of report.now) × (a.1.items ≡ report_text report.now)) }
{
    let text = write_report(alloc, report)?;
    match report {
        Report::Yes(_) => Ok((End::Yes, text)),
        Report::No => Ok((End::No, text)),
    }
}

// The end and the text of a graph.
fn solved(alloc: Global, graph: &CGraph) -> Result<(End, Vec<u8>), Memory>
    ensures { IfOk result (λ a. (text : List ℕ) → IsGraphText text graph.now → Solved text a.0 a.1.items) }
{
    let report = solve_graph(alloc, graph)?;
    told(alloc, &report)
}

/// The end and its text. Costs what `read_graph` and `solve_graph` cost.
pub(crate) fn solve_text(alloc: Global, bytes: &[u8]) -> Result<(End, Vec<u8>), Memory>
    ensures { IfOk result (λ a. Solved bytes.now a.0 a.1.items) }
{
    match read_graph(alloc, bytes) {
        Ok(graph) => solved(alloc, &graph),
        Err(fault) => refusal(alloc, fault),
    }
}
