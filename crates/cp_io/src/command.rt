// A run of commands: words, read, answer, tell.
ghost use Rattle.std.specs.Prelude.{◌≡◌, ◌≢◌, ◌<◌, ◌≤◌, ◌⊎◌, ℕ, List, IfOk, IsTrue, MatchOption, length, map, string_bytes};
ghost use Rattle.std.specs.Io.KnownBytes.{Appends, IsAtEnd};
ghost use Rattle.cp_io.specs.Answered.{FailedReading, WroteAnswer, WroteAnswerFront};
ghost use Rattle.cp_io.specs.Causes.{Rose};
ghost use Rattle.cp_io.specs.Commands.{Answer, AreApart, IsAnswer, IsOwn, read_fault_line};
ghost use Rattle.cp_io.specs.Streams.{Took, most_bytes};
ghost use Rattle.cp_io.specs.declared.command.Ends.{Ends as AnyEnds};

use crate::streams::{Sink, Source};
use crate::whole::{ReadEnd, read_all, tell};
use cp_base::Memory;
use std::alloc::Global;

const READ_FAULT: &[u8] = b"read fault\n";

const TOO_LONG: &[u8] = b"input too long\n";

/// How a run ends where no command answers.
#[derive(Clone, Copy, Debug, PartialEq, Eq)]
pub struct Ends<E> {
    /// The words ask for no command.
    pub usage: E,
    /// The source gave more than `MOST_BYTES` bytes.
    pub too_long: E,
    /// The source failed.
    pub read_fault: E,
    /// The sink failed.
    pub write_fault: E,
    /// Memory is wanting, and nothing was written.
    pub memory: E,
}

/// What the words of a command line may ask for, and how that is answered.
pub trait Command: Copy {
    /// How runs end.
    type End: Copy;

    // The words ask for this command.
    ghost asks: { List (List ℕ) → Self → Type 0 };

    // The command may answer the bytes with this end and text.
    ghost answers: { Self → List ℕ → Self.End → List ℕ → Type 0 };

    /// What the words ask for, if anything.
    fn asked_of(words: &[String]) -> Option<Self>
        ensures { MatchOption result ((command : Self) → ¬ asks (map string_bytes words.now) command) (asks (map string_bytes words.now)) };

    /// The end and the text that answer the bytes.
    fn answer(self, alloc: Global, bytes: &[u8]) -> Result<(Self::End, Vec<u8>), Memory>
        ensures { IfOk result (λ a. answers self bytes.now a.0 a.1.items) };
}

/// Runs the command that the words ask for on the bytes of the source, and writes its text, or `usage` where
/// they ask for none; a source that fails or gives too much is told by a line too. All texts go to the sink.
/// Costs what the command costs, beyond time and memory linear in the number of bytes.
pub fn run_command<C: Command, S: Source, K: Sink>(
    alloc: Global,
    words: &[String],
    usage: &[u8],
    ends: Ends<C::End>,
    source: &mut S,
    sink: &mut K,
) -> C::End
    requires apart { AreApart ends }
    requires own { (command : C) (bytes : List ℕ) (end : C.End) (text : List ℕ) → C.answers command bytes end text → IsOwn ends end }
    ensures answer { IsAnswer ends result → WroteAnswer (Answer C.asks C.answers ends usage.now (map string_bytes words.now)) (S.left source.old) (K.taken sink.old) (K.taken sink.new) result }
    ensures unread { ((command : C) → ¬ C.asks (map string_bytes words.now) command) → source.new ≡ source.old }
    ensures usage { ((command : C) → ¬ C.asks (map string_bytes words.now) command) → (result ≡ ends.usage) ⊎ (result ≡ ends.write_fault) }
    ensures too_long { result ≡ ends.too_long → Took (S.left source.old) (S.left source.new) (λ bytes. most_bytes < length bytes) }
    ensures read_whole { (command : C) → C.asks (map string_bytes words.now) command → IsAnswer ends result → result ≢ ends.too_long → IsAtEnd (S.left source.new) }
    ensures finished { result ≢ ends.write_fault → result ≢ ends.memory → IsTrue (K.finished sink.new) }
    ensures read_fault { result ≡ ends.read_fault → FailedReading (S.left source.old) (S.left source.new) (S.faults source.old) (S.faults source.new)
        × Appends (K.taken sink.old) (K.taken sink.new) read_fault_line }
    ensures write_fault { result ≡ ends.write_fault → Rose (K.faults sink.old) (K.faults sink.new)
        × WroteAnswerFront (Answer C.asks C.answers ends usage.now (map string_bytes words.now)) read_fault_line (S.left source.old) (S.left source.new) (S.faults source.old) (S.faults source.new) (K.taken sink.old) (K.taken sink.new) }
    ensures memory { result ≡ ends.memory → sink.new ≡ sink.old }
    ensures clean { IsAnswer ends result → (S.faults source.new ≡ S.faults source.old) × (K.faults sink.new ≡ K.faults sink.old) }
{
    let Some(command) = C::asked_of(words) else {
        return tell(sink, usage, ends.usage, ends.write_fault);
    };
    match read_all(alloc, source) {
        Ok(bytes) => match command.answer(alloc, &bytes) {
            Ok((end, text)) => tell(sink, &text, end, ends.write_fault),
            Err(Memory) => ends.memory,
        },
        Err(ReadEnd::Fault) => tell(sink, READ_FAULT, ends.read_fault, ends.write_fault),
        Err(ReadEnd::TooLong) => tell(sink, TOO_LONG, ends.too_long, ends.write_fault),
        Err(ReadEnd::Memory) => ends.memory,
    }
}
