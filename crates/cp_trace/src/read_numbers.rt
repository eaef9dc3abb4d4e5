// Numbers read exactly.
ghost use Rattle.std.specs.Prelude.{◌≡◌, ℕ, ◌<◌, ◌^◌, map, IsTrue, ◌↔◌, MatchOption, IfOk};
ghost use Rattle.std.specs.Fmt.{decimal};
ghost use Rattle.cp_trace.specs.Faults.{AreSmall};
ghost use Rattle.cp_trace.specs.Reading.{IsPlain};

use crate::word::Words;
use cp_base::Memory;
use std::alloc::Global;
use std::str;

// Whether the first byte can begin a number: a zero stands alone.
fn is_plain(text: &[u8]) -> bool
    ensures { IsTrue result ↔ IsPlain text.now }
{
    match text {
        [] => false,
        [b'0'] => true,
        [first, ..] => *first >= b'1' && *first <= b'9',
    }
}

// The number that the word spells, if it has a place in memory.
fn stored_number(text: &[u8]) -> Option<usize>
    ensures { MatchOption result ((n : ℕ) → n < 2 ^ 64 → text.now ≡ decimal n → ⊥) (λ n. (n < 2 ^ 64) × (text.now ≡ decimal n)) }
{
    if !is_plain(text) {
        return None;
    }
    str::from_utf8(text).ok()?.parse::<usize>().ok()
}

// The number below 9223372036854775808 that the word spells.
pub(crate) fn number_of(text: &[u8]) -> Option<usize>
    ensures { MatchOption result ((n : ℕ) → n < 2 ^ 63 → text.now ≡ decimal n → ⊥) (λ n. (n < 2 ^ 63) × (text.now ≡ decimal n)) }
{
    let number = stored_number(text)?;
    if number < 9223372036854775808 {
        Some(number)
    } else {
        None
    }
}

// The numbers that the words spell.
pub(crate) fn numbers_of(alloc: Global, mut words: Words<'_>) -> Result<Option<Vec<usize>>, Memory>
    ensures { IfOk result (λ found. MatchOption found ((numbers : _) → AreSmall numbers → words.entry ≡ map decimal numbers → ⊥) (λ numbers. AreSmall numbers.items × (words.entry ≡ map decimal numbers.items))) }
{
    let mut numbers = Vec::new(alloc);
    while let Some(word) = words.next() {
        match number_of(word) {
            Some(number) => numbers.push(number)?,
            None => return Ok(None),
        }
    }
    Ok(Some(numbers))
}
