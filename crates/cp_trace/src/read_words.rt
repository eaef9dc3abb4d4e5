// Words taken from a line one by one.
ghost use Rattle.std.specs.Prelude.{◌≡◌, ◌++◌, ◌∷◌, [], ℕ, ◌<◌, ◌^◌, MatchOption};
ghost use Rattle.std.specs.Fmt.{decimal};
ghost use Rattle.cp_trace.specs.Reading.{label_word, pair_word};

use crate::read_numbers::number_of;
use crate::word::{Words, cut};

// Takes this word.
pub(crate) fn take_word(words: &mut Words<'_>, word: &[u8]) -> Option<()>
    ensures { MatchOption result ((later : _) → words.old ≡ word.now ∷ later → ⊥) (λ _. words.old ≡ word.now ∷ words.new) }
{
    if words.next()? == word {
        Some(())
    } else {
        None
    }
}

// Takes a number.
pub(crate) fn take_number(words: &mut Words<'_>) -> Option<usize>
    ensures { MatchOption result ((n : ℕ) (later : _) → n < 2 ^ 63 → words.old ≡ decimal n ∷ later → ⊥) (λ n. (n < 2 ^ 63) × (words.old ≡ decimal n ∷ words.new)) }
{
    number_of(words.next()?)
}

// The number that the word spells with a colon behind it.
fn label_of(word: &[u8]) -> Option<usize>
    ensures { MatchOption result ((n : ℕ) → n < 2 ^ 63 → word.now ≡ label_word n → ⊥) (λ n. (n < 2 ^ 63) × (word.now ≡ label_word n)) }
{
    let (colon, digits) = word.split_last()?;
    if *colon == b':' {
        number_of(digits)
    } else {
        None
    }
}

// Takes a number with a colon behind it.
pub(crate) fn take_label(words: &mut Words<'_>) -> Option<usize>
    ensures { MatchOption result ((n : ℕ) (later : _) → n < 2 ^ 63 → words.old ≡ label_word n ∷ later → ⊥) (λ n. (n < 2 ^ 63) × (words.old ≡ label_word n ∷ words.new)) }
{
    label_of(words.next()?)
}

// Takes this word and a number.
pub(crate) fn take_keyed(words: &mut Words<'_>, key: &[u8]) -> Option<usize>
    ensures { MatchOption result ((n : ℕ) (later : _) → n < 2 ^ 63 → words.old ≡ key.now ∷ decimal n ∷ later → ⊥) (λ n. (n < 2 ^ 63) × (words.old ≡ key.now ∷ decimal n ∷ words.new)) }
{
    take_word(words, key)?;
    take_number(words)
}

// That no word is left.
pub(crate) fn take_end(words: &mut Words<'_>) -> Option<()>
    ensures { MatchOption result (words.old ≡ [] → ⊥) (λ _. words.old ≡ []) }
{
    match words.next() {
        None => Some(()),
        Some(_) => None,
    }
}

// The pair that the word spells.
pub(crate) fn pair_of(word: &[u8]) -> Option<(usize, usize)>
    ensures { MatchOption result ((x y : ℕ) → x < 2 ^ 63 → y < 2 ^ 63 → word.now ≡ pair_word (x, y) → ⊥) (λ pair. (pair.0 < 2 ^ 63) × (pair.1 < 2 ^ 63) × (word.now ≡ pair_word pair)) }
{
    let (first, second) = cut(word, b'/')?;
    Some((number_of(first)?, number_of(second)?))
}
