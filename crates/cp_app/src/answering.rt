// The answer to all bytes of an input.
ghost use Rattle.std.specs.Prelude.{IfOk};
ghost use Rattle.cp_app.specs.Answer.{Checked, Judged};
ghost use Rattle.cp_app.specs.Verdicts.{Tells};

use crate::judge::verdict;
use crate::refusing::refusal;
use crate::{End, texts};
use cp_base::Memory;
use cp_cgraph::read_graph;
use cp_check::Verdict;
use cp_report::{Report, ReportFault, read_report};
use std::alloc::Global;

// The end and the line of a verdict.
fn told(alloc: Global, verdict: Verdict) -> Result<(End, Vec<u8>), Memory>
    ensures { IfOk result (λ a. Tells verdict a.0 a.1.items) }
{
    match verdict {
        Verdict::Accepted => Ok((End::Accepted, Vec::from_slice(alloc, texts::ACCEPTED)?)),
        Verdict::Rejected(reason) => Ok((End::Rejected(reason), texts::rejected(alloc, reason)?)),
    }
}

// The answer to a report and the text behind it.
fn judged(alloc: Global, report: &Report, text: &[u8]) -> Result<(End, Vec<u8>), Memory>
    ensures { IfOk result (λ a. Judged report.now text.now a.0 a.1.items) }
{
    match read_graph(alloc, text) {
        Ok(graph) => told(alloc, verdict(alloc, &graph, report)?),
        Err(fault) => refusal(alloc, fault),
    }
}

/// The end and its text. Linear in the number of bytes and of the places where edges cross borders, on
/// average, since ids are looked up by a hash.
pub(crate) fn answer_to(alloc: Global, bytes: &[u8]) -> Result<(End, Vec<u8>), Memory>
    ensures { IfOk result (λ a. Checked bytes.now a.0 a.1.items) }
{
    match read_report(alloc, bytes) {
        Ok((report, length)) => {
            let (_, text) = bytes.split_at(length);
            judged(alloc, &report, text)
        }
        Err(ReportFault::Bad { kind, line }) => {
            let text = texts::bad_report(alloc, kind, line)?;
            Ok((End::BadReport { kind, line }, text))
        }
        Err(ReportFault::Memory) => Err(Memory),
    }
}
