// How a run ended, read exactly.
ghost use Rattle.std.specs.Prelude.{◌≡◌, ◌++◌, ◌∷◌, [], ℕ, ◌<◌, ◌^◌, MatchOption, codes};
ghost use Rattle.std.specs.Fmt.{decimal};
ghost use Rattle.cp_board.specs.declared.steps.Reason.{Reason as AnyReason};
ghost use Rattle.cp_trace.specs.Faults.{AreSmall};
ghost use Rattle.cp_trace.specs.Reading.{words};
ghost use Rattle.cp_trace.specs.Texts.{end_line, reason_line};
ghost use Rattle.cp_trace.specs.Traces.{reason_numbers};

use crate::read_steps::one_number;
use crate::read_words::{take_end, take_number, take_word};
use crate::word::{Words, after_line, cut};
use cp_board::Reason;

// The number behind these two words, alone.
fn named_number(line: &[u8], key: &[u8]) -> Option<usize>
    ensures { MatchOption result ((n : ℕ) → n < 2 ^ 63 → words line.now ≡ codes "failed" ∷ key.now ∷ decimal n ∷ [] → ⊥) (λ n. (n < 2 ^ 63) × (words line.now ≡ codes "failed" ∷ key.now ∷ decimal n ∷ [])) }
{
    let mut words = Words::new(line);
    take_word(&mut words, b"failed")?;
    take_word(&mut words, key)?;
    one_number(&mut words)
}

// The two lengths behind `failed cycles`.
fn two_lengths(line: &[u8]) -> Option<(usize, usize)>
    ensures { MatchOption result ((a b : ℕ) → a < 2 ^ 63 → b < 2 ^ 63 → words line.now ≡ codes "failed" ∷ codes "cycles" ∷ decimal a ∷ decimal b ∷ [] → ⊥) (λ r. (r.0 < 2 ^ 63) × (r.1 < 2 ^ 63) × (words line.now ≡ codes "failed" ∷ codes "cycles" ∷ decimal r.0 ∷ decimal r.1 ∷ [])) }
{
    let mut words = Words::new(line);
    take_word(&mut words, b"failed")?;
    take_word(&mut words, b"cycles")?;
    let a = take_number(&mut words)?;
    let b = one_number(&mut words)?;
    Some((a, b))
}

// Whether the line is `failed conflict`.
fn conflict(line: &[u8]) -> Option<()>
    ensures { MatchOption result (words line.now ≡ codes "failed" ∷ codes "conflict" ∷ [] → ⊥) (λ _. words line.now ≡ codes "failed" ∷ codes "conflict" ∷ []) }
{
    let mut words = Words::new(line);
    take_word(&mut words, b"failed")?;
    take_word(&mut words, b"conflict")?;
    take_end(&mut words)
}

// What is to blame, where the line tells it.
fn reason_of(line: &[u8]) -> Option<Reason>
    ensures { MatchOption result ((r : AnyReason) → AreSmall (reason_numbers (Some r)) → line.now ≡ reason_line r → ⊥) (λ r. AreSmall (reason_numbers (Some r)) × (line.now ≡ reason_line r)) }
{
    if let Some(edge) = named_number(line, b"not-planar") {
        return Some(Reason::NotPlanar(edge));
    }
    if let Some((a, b)) = two_lengths(line) {
        return Some(Reason::CyclesDiffer { a, b });
    }
    if let Some(vertex) = named_number(line, b"cross") {
        return Some(Reason::BlocksCross(vertex));
    }
    match conflict(line) {
        Some(()) => Some(Reason::Conflict),
        None => None,
    }
}

// How the run ended, by the first line, and what stands behind it.
pub(crate) fn read_end(bytes: &[u8]) -> Option<(Option<Reason>, &[u8])>
    ensures { MatchOption result ((r : _) (after : _) → AreSmall (reason_numbers r) → bytes.now ≡ end_line r ++ 10 ∷ after → ⊥) (λ r. AreSmall (reason_numbers r.0) × (bytes.now ≡ end_line r.0 ++ 10 ∷ r.1.now)) }
{
    if let Some(after) = after_line(bytes, b"solved") {
        return Some((None, after));
    }
    let (line, after) = cut(bytes, b'\n')?;
    let reason = reason_of(line)?;
    Some((Some(reason), after))
}
