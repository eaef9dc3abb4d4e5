// The whole of a run.
ghost use Rattle.std.specs.Prelude.{◌≡◌, ◌≢◌, ◌<◌, ◌⊎◌, IsTrue, length, map, string_bytes};
ghost use Rattle.std.specs.Io.KnownBytes.{Appends, IsAtEnd};
ghost use Rattle.cp_io.specs.Answered.{FailedReading};
ghost use Rattle.cp_io.specs.Causes.{Rose};
ghost use Rattle.cp_io.specs.Commands.{read_fault_line};
ghost use Rattle.cp_io.specs.Streams.{Took, most_bytes};
ghost use Rattle.graph_parts.specs.Asking.{Asks};
ghost use Rattle.graph_parts.specs.Run.{IsAnswer, Wrote, WroteFront};
ghost use Rattle.graph_parts.specs.declared.ask.Asked.{Asked as AnyAsked};

use crate::ask::Asked;
use crate::end::End;
use crate::texts;
use cp_io::{Ends, Sink, Source, run_command};
use std::alloc::Global;

/// Runs the program: `words` are the words of the command line without the program's name. All texts
/// go to the sink, those of refusals too. Linear on average in the number of bytes.
pub fn run<S: Source, K: Sink>(alloc: Global, words: &[String], source: &mut S, sink: &mut K) -> End
    ensures answer { IsAnswer result → Wrote (map string_bytes words.now) (S.left source.old) (K.taken sink.old) (K.taken sink.new) result }
    ensures unread { ((a : AnyAsked) → ¬ Asks (map string_bytes words.now) a) → source.new ≡ source.old }
    ensures usage { ((a : AnyAsked) → ¬ Asks (map string_bytes words.now) a) → (result ≡ End.Usage) ⊎ (result ≡ End.WriteFault) }
    ensures too_long { result ≡ End.TooLong → Took (S.left source.old) (S.left source.new) (λ bytes. most_bytes < length bytes) }
    ensures read_whole { (a : AnyAsked) → Asks (map string_bytes words.now) a → IsAnswer result → result ≢ End.TooLong → IsAtEnd (S.left source.new) }
    ensures finished { result ≢ End.WriteFault → result ≢ End.Memory → IsTrue (K.finished sink.new) }
    ensures read_fault { result ≡ End.ReadFault → FailedReading (S.left source.old) (S.left source.new) (S.faults source.old) (S.faults source.new)
        × Appends (K.taken sink.old) (K.taken sink.new) read_fault_line }
    ensures write_fault { result ≡ End.WriteFault → Rose (K.faults sink.old) (K.faults sink.new)
        × WroteFront (map string_bytes words.now) (S.left source.old) (S.left source.new) (S.faults source.old) (S.faults source.new) (K.taken sink.old) (K.taken sink.new) }
    ensures memory { result ≡ End.Memory → sink.new ≡ sink.old }
    ensures clean { IsAnswer result → (S.faults source.new ≡ S.faults source.old) × (K.faults sink.new ≡ K.faults sink.old) }
{
    let ends = Ends {
        usage: End::Usage,
        too_long: End::TooLong,
        read_fault: End::ReadFault,
        write_fault: End::WriteFault,
        memory: End::Memory,
    };
    run_command::<Asked, S, K>(alloc, words, texts::USAGE, ends, source, sink)
}
