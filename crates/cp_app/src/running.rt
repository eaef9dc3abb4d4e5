// The whole of a run.
ghost use Rattle.std.specs.Prelude.{◌≡◌, ◌≢◌, ◌<◌, ◌≤◌, ◌⊎◌, [], ℕ, List, Some, IsTrue, drop, length, map, string_bytes};
ghost use Rattle.std.specs.Io.KnownBytes.{Appends, IsAtEnd};
ghost use Rattle.cp_cgraph.specs.Clustered.{Clustered};
ghost use Rattle.cp_cgraph.specs.GraphTexts.{IsGraphText};
ghost use Rattle.cp_io.specs.Answered.{FailedReading};
ghost use Rattle.cp_io.specs.Causes.{Rose};
ghost use Rattle.cp_io.specs.Commands.{read_fault_line};
ghost use Rattle.cp_io.specs.Streams.{Took, most_bytes};
ghost use Rattle.cp_report.specs.Texts.{BeginsWith};
ghost use Rattle.cp_report.specs.declared.report.Report.{Report};
ghost use Rattle.cp_app.specs.Answer.{IsCheck, IsCommand, IsSolve, IsTrace};
ghost use Rattle.cp_app.specs.Run.{IsAnswer, IsJudged, IsSolvedEnd, Wrote, WroteFront};

use crate::command::Asked;
use crate::{End, texts};
use cp_io::{Ends, Sink, Source, run_command};
use std::alloc::Global;

/// Runs the program: `words` are the words of the command line without the program's name. All
/// texts go to the sink, those of refusals too. `solve` reads a graph and writes a report: a good
/// layout, or that there is none. `check` reads a report and behind it a graph, and tells whether the
/// report's layout is good for the graph. `check` is linear on average in the number of bytes and of
/// places where edges cross borders; `solve` costs what `solve_instance` costs on the skeletons.
/// `trace` reads a graph and writes the run of reductions that solves its skeletons or shows that they
/// have no solution.
pub fn run<S: Source, K: Sink>(alloc: Global, words: &[String], source: &mut S, sink: &mut K) -> End
    ensures answer { IsAnswer result → Wrote (map string_bytes words.now) (S.left source.old) (K.taken sink.old) (K.taken sink.new) result }
    ensures unread { ¬ IsCommand (map string_bytes words.now) → source.new ≡ source.old }
    ensures usage { ¬ IsCommand (map string_bytes words.now) → (result ≡ End.Usage) ⊎ (result ≡ End.WriteFault) }
    ensures too_long { result ≡ End.TooLong → Took (S.left source.old) (S.left source.new) (λ bytes. most_bytes < length bytes) }
    ensures read_whole { IsCommand (map string_bytes words.now) → IsAnswer result → result ≢ End.TooLong → IsAtEnd (S.left source.new) }
    ensures finished { result ≢ End.WriteFault → result ≢ End.Memory → IsTrue (K.finished sink.new) }
    ensures read_fault { result ≡ End.ReadFault → FailedReading (S.left source.old) (S.left source.new) (S.faults source.old) (S.faults source.new)
        × Appends (K.taken sink.old) (K.taken sink.new) read_fault_line }
    ensures write_fault { result ≡ End.WriteFault → Rose (K.faults sink.old) (K.faults sink.new)
        × WroteFront (map string_bytes words.now) (S.left source.old) (S.left source.new) (S.faults source.old) (S.faults source.new) (K.taken sink.old) (K.taken sink.new) }
    ensures memory { result ≡ End.Memory → sink.new ≡ sink.old }
    ensures clean { IsAnswer result → (S.faults source.new ≡ S.faults source.old) × (K.faults sink.new ≡ K.faults sink.old) }
    ensures complete { (bytes : List ℕ) (r : Report) (n : ℕ) (g : Clustered) → IsCheck (map string_bytes words.now) → S.left source.old ≡ Some bytes
        → length bytes ≤ most_bytes → BeginsWith bytes r n → IsGraphText (drop n bytes) g
        → ¬ Rose (S.faults source.old) (S.faults source.new) → ¬ Rose (K.faults sink.old) (K.faults sink.new)
        → IsJudged result ⊎ (result ≡ End.Memory) }
    ensures solved { (bytes : List ℕ) (g : Clustered) → IsSolve (map string_bytes words.now) → S.left source.old ≡ Some bytes
        → length bytes ≤ most_bytes → IsGraphText bytes g
        → ¬ Rose (S.faults source.old) (S.faults source.new) → ¬ Rose (K.faults sink.old) (K.faults sink.new)
        → IsSolvedEnd result ⊎ (result ≡ End.Memory) }
    ensures traced { (bytes : List ℕ) (g : Clustered) → IsTrace (map string_bytes words.now) → S.left source.old ≡ Some bytes
        → length bytes ≤ most_bytes → IsGraphText bytes g
        → ¬ Rose (S.faults source.old) (S.faults source.new) → ¬ Rose (K.faults sink.old) (K.faults sink.new)
        → (result ≡ End.Done) ⊎ (result ≡ End.Memory) }
{
    let ends = Ends {
        usage: End::Usage,
        too_long: End::TooLong,
        read_fault: End::ReadFault,
        write_fault: End::WriteFault,
        memory: End::Memory,
    };
    run_command::<Asked, S, K>(alloc, words, texts::USAGE, ends, source, sink)
}
