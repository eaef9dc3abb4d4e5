// Reading all of a source and writing all of a text.
ghost use Rattle.std.specs.Prelude.{◌≡◌, ◌≢◌, ◌≤◌, ◌⊎◌, IsTrue, OnErr, OnOk};
ghost use Rattle.std.specs.Io.KnownBytes.{Appends};
ghost use Rattle.cp_io.specs.Causes.{HasCause, Rose};
ghost use Rattle.cp_io.specs.Streams.{CountsFault, ReadTo, TookFront};

use crate::streams::{Failed, Sink, Source};
use std::alloc::{AllocError, Global};
use thiserror::Error;

/// The most bytes that an input may have: 64 MiB.
pub const MOST_BYTES: usize = 67_108_864;

/// The bytes that one read asks for at most.
const PIECE: usize = 65_536;

/// Why the bytes of a source were not read to their end.
#[derive(Clone, Copy, Debug, PartialEq, Eq, Error)]
pub enum ReadEnd {
    /// The device failed before more than `MOST_BYTES` bytes came.
    #[error("read fault")]
    Fault,
    /// More than `MOST_BYTES` bytes came.
    #[error("input too long")]
    TooLong,
    /// An allocation failed. The bytes that were read by then are gone.
    #[error("out of memory")]
    Memory,
}

impl From<AllocError> for ReadEnd {
    ghost use Rattle.std.specs.Prelude.{◌≡◌};
    ghost use Rattle.cp_io.specs.declared.whole.ReadEnd.TheVariants as ends;

    ghost from_gives = { λ _ e. e ≡ ends.Memory };

    fn from(_error: AllocError) -> ReadEnd {
        ReadEnd::Memory
    }
}

/// Reads all bytes up to the end of the input. Of an input that is too long it takes more than
/// `MOST_BYTES` bytes, and how many more is open. Linear in the number of bytes.
pub fn read_all<S: Source>(alloc: Global, source: &mut S) -> Result<Vec<u8>, ReadEnd>
    ensures bytes { ReadTo (λ v. v.items) MOST_BYTES (S.left source.old) (S.left source.new) result }
    ensures later { S.faults source.old ≤ S.faults source.new }
    ensures cause { CountsFault (S.faults source.old) (S.faults source.new) result }
{
    let mut piece = [0u8; PIECE];
    let mut bytes = Vec::new(alloc);
    while bytes.len() <= MOST_BYTES {
        match source.read(&mut piece) {
            Ok(0) => return Ok(bytes),
            Ok(count) => bytes.extend_from_slice(&piece[..count])?,
            Err(Failed) => return Err(ReadEnd::Fault),
        }
    }
    Err(ReadEnd::TooLong)
}

/// Writes the whole text and finishes the sink. After an error a front of the text was taken. Takes
/// no memory, and calls the sink at most once for each byte of the text and once more.
pub fn write_all<K: Sink>(sink: &mut K, text: &[u8]) -> Result<(), Failed>
    ensures whole { OnOk result (Appends (K.taken sink.old) (K.taken sink.new) text.now) }
    ensures finished { OnOk result (IsTrue (K.finished sink.new)) }
    ensures front { OnErr result (TookFront (K.taken sink.old) (K.taken sink.new) text.now) }
    ensures cause { HasCause (K.faults sink.old) (K.faults sink.new) result }
{
    let mut rest = text;
    while !rest.is_empty() {
        let count = sink.write(rest)?;
        let (_, after) = rest.split_at(count);
        rest = after;
    }
    sink.finish()
}

/// Writes the whole text and finishes the sink. Answers `end`, or `failed` where the sink failed and
/// a front of the text was taken. Costs what `write_all` costs.
pub fn tell<K: Sink, E: Copy>(sink: &mut K, text: &[u8], end: E, failed: E) -> E
    requires { end ≢ failed }
    ensures cases { (result ≡ end) ⊎ (result ≡ failed) }
    ensures whole { result ≢ failed → Appends (K.taken sink.old) (K.taken sink.new) text.now }
    ensures finished { result ≢ failed → IsTrue (K.finished sink.new) }
    ensures kept { result ≢ failed → K.faults sink.new ≡ K.faults sink.old }
    ensures fault { result ≡ failed → Rose (K.faults sink.old) (K.faults sink.new) × TookFront (K.taken sink.old) (K.taken sink.new) text.now }
{
    match write_all(sink, text) {
        Ok(()) => end,
        Err(Failed) => failed,
    }
}
