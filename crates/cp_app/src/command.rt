// The commands.
ghost use Rattle.std.specs.Prelude.{◌↔◌, IsTrue, map, string_bytes};
ghost use Rattle.cp_app.specs.Answer.{IsCheck, IsSolve, IsTrace};

use crate::End;
use crate::answering::answer_to;
use crate::solving::solve_text;
use crate::tracing::trace_text;
use cp_base::Memory;
use cp_io::Command;
use std::alloc::Global;

/// Whether the words are the one command `check`.
fn is_check(words: &[String]) -> bool
    ensures { IsTrue result ↔ IsCheck (map string_bytes words.now) }
{
    match words {
        [word] => word.as_str() == "check",
        _ => false,
    }
}

/// Whether the words are the one command `solve`.
fn is_solve(words: &[String]) -> bool
    ensures { IsTrue result ↔ IsSolve (map string_bytes words.now) }
{
    match words {
        [word] => word.as_str() == "solve",
        _ => false,
    }
}

/// Whether the words are the one command `trace`.
fn is_trace(words: &[String]) -> bool
    ensures { IsTrue result ↔ IsTrace (map string_bytes words.now) }
{
    match words {
        [word] => word.as_str() == "trace",
        _ => false,
    }
}

/// What the words of the command line may ask for.
#[derive(Clone, Copy, Debug, PartialEq, Eq)]
pub(crate) enum Asked {
    /// `check`: a report and a graph are read, and the layout is checked.
    Check,
    /// `solve`: a graph is read and solved.
    Solve,
    /// `trace`: a graph is read, and the run that solves its skeletons is told.
    Trace,
}

impl Command for Asked {
    ghost use Rattle.cp_app.specs.Answer.{Asks, Answers};

    type End = End;

    ghost asks = { Asks };

    ghost answers = { Answers };

    fn asked_of(words: &[String]) -> Option<Asked> {
        if is_check(words) {
            return Some(Asked::Check);
        }
        if is_solve(words) {
            return Some(Asked::Solve);
        }
        if is_trace(words) {
            return Some(Asked::Trace);
        }
        None
    }

    fn answer(self, alloc: Global, bytes: &[u8]) -> Result<(End, Vec<u8>), Memory> {
        match self {
            Asked::Check => answer_to(alloc, bytes),
            Asked::Solve => solve_text(alloc, bytes),
            Asked::Trace => trace_text(alloc, bytes),
        }
    }
}
