// Numbers and items as words.
ghost use Rattle.std.specs.Prelude.{◌≡◌, ◌++◌, ◌∷◌, [], ℕ, ◌<◌, ◌^◌, IsTrue, ◌↔◌, MatchOption};
ghost use Rattle.std.specs.Fmt.{decimal};
ghost use Rattle.cp_report.specs.Texts.{dart_text};
ghost use Rattle.cp_report.specs.Reading.{IsPlain, row_item, row_limit};

use crate::row::Row;
use std::str;

/// Whether the first byte can begin a number: a zero stands alone.
fn is_plain(text: &[u8]) -> bool
    ensures { IsTrue result ↔ IsPlain text.now }
{
    match text {
        [] => false,
        [b'0'] => true,
        [first, ..] => *first >= b'1' && *first <= b'9',
    }
}

/// The number that the word spells.
fn number_of(text: &[u8]) -> Option<u32>
    ensures { MatchOption result ((n : ℕ) → n < 2 ^ 32 → text.now ≡ decimal n → ⊥) (λ n. (n < 2 ^ 32) × (text.now ≡ decimal n)) }
{
    if !is_plain(text) {
        return None;
    }
    str::from_utf8(text).ok()?.parse::<u32>().ok()
}

/// The number that the word spells with a colon.
fn labelled(word: &[u8]) -> Option<u32>
    ensures { MatchOption result ((n : ℕ) → n < 2 ^ 32 → word.now ≡ decimal n ++ 58 ∷ [] → ⊥) (λ n. (n < 2 ^ 32) × (word.now ≡ decimal n ++ 58 ∷ [])) }
{
    let (colon, digits) = word.split_last()?;
    if *colon == b':' {
        number_of(digits)
    } else {
        None
    }
}

/// Whether the word is this number with a colon.
pub(crate) fn is_label(word: &[u8], number: usize) -> bool
    ensures { IsTrue result ↔ ((number < 2 ^ 32) × (word.now ≡ decimal number ++ 58 ∷ [])) }
{
    match labelled(word) {
        Some(found) => found as usize == number,
        None => false,
    }
}

/// The dart that the word spells.
fn dart_of(word: &[u8]) -> Option<usize>
    ensures { MatchOption result ((dart : ℕ) → dart < 2 ^ 33 → word.now ≡ dart_text dart → ⊥) (λ dart. (dart < 2 ^ 33) × (word.now ≡ dart_text dart)) }
{
    let (end, digits) = word.split_last()?;
    let edge = number_of(digits)? as usize;
    match *end {
        b's' => Some(2 * edge),
        b't' => Some(2 * edge + 1),
        _ => None,
    }
}

/// The item of such a line that the word spells.
pub(crate) fn item_of(word: &[u8], row: Row) -> Option<usize>
    ensures { MatchOption result ((item : ℕ) → item < row_limit row → word.now ≡ row_item row item → ⊥) (λ item. (item < row_limit row) × (word.now ≡ row_item row item)) }
{
    match row {
        Row::Nodes => dart_of(word),
        Row::Clusters => Some(number_of(word)? as usize),
    }
}
