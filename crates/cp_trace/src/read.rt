// From a text to its run.
ghost use Rattle.std.specs.Prelude.{◌≡◌, ◌+◌, ◌≤◌, MatchOption, IfErr, IfOk};
ghost use Rattle.cp_trace.specs.Faults.{IfBad, IsFaultAt};
ghost use Rattle.cp_trace.specs.Reading.{StopsInRun, feeds};
ghost use Rattle.cp_trace.specs.Traces.{IsTextOf};

use crate::read_end::read_end;
use crate::read_instance::read_instance;
use crate::read_steps::read_steps;
use crate::word::after_line;
use crate::{Trace, TraceFault};
use cp_base::Memory;
use std::alloc::Global;

// How many lines end in the bytes.
fn line_feeds(bytes: &[u8]) -> usize
    ensures { result ≡ feeds bytes.now }
{
    bytes.iter().filter(|b| **b == b'\n').count()
}

// The number of the line that begins where the rest of the bytes does.
fn line_number(bytes: &[u8], rest: &[u8]) -> usize
    requires { feeds rest.now ≤ feeds bytes.now }
    ensures { result + feeds rest.now ≡ feeds bytes.now + 1 }
{
    line_feeds(bytes) - line_feeds(rest) + 1
}

// The run that the bytes tell, and the bytes behind it, which are none; or what stands behind the lines before the first
// one that is at fault.
fn read_run(alloc: Global, bytes: &[u8]) -> Result<(Option<Trace>, &[u8]), Memory>
    ensures { IfOk result (λ r. MatchOption r.0 (StopsInRun bytes.now r.1.now) (IsTextOf bytes.now)) }
{
    let Some(inside) = after_line(bytes, b"cplan-trace 1") else {
        return Ok((None, bytes));
    };
    let (found_first, behind_first) = read_instance(alloc, inside)?;
    let Some(first) = found_first else {
        return Ok((None, behind_first));
    };
    let (steps, behind_steps) = read_steps(alloc, behind_first)?;
    let (found_last, behind_last) = read_instance(alloc, behind_steps)?;
    let Some(last) = found_last else {
        return Ok((None, behind_last));
    };
    let Some((solved, behind_reason)) = read_end(behind_last) else {
        return Ok((None, behind_last));
    };
    let Some(rest) = after_line(behind_reason, b"end") else {
        return Ok((None, behind_reason));
    };
    if !rest.is_empty() {
        return Ok((None, rest));
    }
    Ok((
        Some(Trace {
            first,
            steps,
            last,
            solved,
        }),
        rest,
    ))
}

/// Reads the run whose one text the bytes are. A fault tells the first line that is no whole line or may not stand behind
/// the lines before it: a line `instance end` may stand only where its instance keeps the five rules, and steps may be
/// any. Where the bytes stop, it is the line that is missing, and where they go on behind the line `end`, the line after
/// it. Linear in the length of the bytes, up to a logarithm.
pub fn read_trace(alloc: Global, bytes: &[u8]) -> Result<Trace, TraceFault>
    ensures run { IfOk result (IsTextOf bytes.now) }
    ensures fault { IfErr result (λ fault. IfBad fault (IsFaultAt bytes.now)) }
{
    let (found, rest) = read_run(alloc, bytes)?;
    match found {
        Some(trace) => Ok(trace),
        None => Err(TraceFault::Bad {
            line: line_number(bytes, rest),
        }),
    }
}
