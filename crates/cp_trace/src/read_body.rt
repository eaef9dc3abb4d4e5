// Branches of shapes, read exactly.
ghost use Rattle.std.specs.Prelude.{◌≡◌, ◌++◌, ◌∷◌, [], ℕ, List, ◌<◌, ◌^◌, ◌||◌, IsTrue, MatchOption, IfOk, false, nat_lt, position};
ghost use Rattle.std.specs.Fmt.{decimal};
ghost use Rattle.std.specs.Str.Parse.{AllDigits};
ghost use Rattle.cp_base.specs.declared.shape.Branch.{Branch as AnyBranch};
ghost use Rattle.cp_trace.specs.Bodies.{AreKidsAt, GoOnWith, HasNoDigit, IsBodyAt};

use crate::read_numbers::number_of;
use crate::word::after_front;
use cp_base::{Branch, Branches, Items, Memory};
use std::alloc::Global;

// Where the first byte stands that is no digit, if there is one.
fn digits_end(bytes: &[u8]) -> Option<usize>
    ensures { result ≡ position (λ b. nat_lt b 48 || nat_lt 57 b) bytes.now }
{
    bytes.iter().position(|b| *b < b'0' || *b > b'9')
}

// The digits at the front, and what stands behind them.
fn digits_and_rest(bytes: &[u8]) -> (&[u8], &[u8])
    ensures { AllDigits 10 result.0.now × HasNoDigit result.1.now × (bytes.now ≡ result.0.now ++ result.1.now) }
{
    match digits_end(bytes) {
        Some(end) => bytes.split_at(end),
        None => (bytes, &[]),
    }
}

// The number at the front, and what stands behind its digits.
fn number_at(bytes: &[u8]) -> Option<(usize, &[u8])>
    ensures { MatchOption result ((n : ℕ) (rest : List ℕ) → n < 2 ^ 63 → HasNoDigit rest → bytes.now ≡ decimal n ++ rest → ⊥) (λ r. (r.0 < 2 ^ 63) × HasNoDigit r.1.now × (bytes.now ≡ decimal r.0 ++ r.1.now)) }
{
    let (digits, rest) = digits_and_rest(bytes);
    Some((number_of(digits)?, rest))
}

// Whether a digit stands first.
fn begins_with_digit(bytes: &[u8]) -> bool
    ensures no { result ≡ false → HasNoDigit bytes.now }
    ensures yes { IsTrue result → HasNoDigit bytes.now → ⊥ }
{
    match bytes.split_first() {
        None => false,
        Some((first, _)) => *first >= b'0' && *first <= b'9',
    }
}

// A leaf at the front.
fn read_leaf(bytes: &[u8]) -> Option<(Branch, &[u8])>
    ensures { MatchOption result ((x : ℕ) (rest : List ℕ) → x < 2 ^ 63 → HasNoDigit rest → bytes.now ≡ decimal x ++ rest → ⊥) (λ r. IsBodyAt bytes.now r.0 r.1.now) }
{
    let (edge, rest) = number_at(bytes)?;
    Some((Branch::Leaf(edge), rest))
}

// The branch whose text stands at the front, and what stands behind it. Linear in the length of the text.
#[cycle(branches)]
pub(crate) fn read_body(alloc: Global, bytes: &[u8]) -> Result<Option<(Branch, &[u8])>, Memory>
    ensures { IfOk result (λ found. MatchOption found ((b : AnyBranch) (rest : List ℕ) → IsBodyAt bytes.now b rest → ⊥) (λ r. IsBodyAt bytes.now r.0 r.1.now)) }
{
    if let Some(inside) = after_front(bytes, b"P[") {
        return match read_kids(alloc, inside)? {
            Some((kids, rest)) => Ok(Some((Branch::P(kids), rest))),
            None => Ok(None),
        };
    }
    if let Some(inside) = after_front(bytes, b"Q[") {
        return match read_kids(alloc, inside)? {
            Some((kids, rest)) => Ok(Some((Branch::Q(kids), rest))),
            None => Ok(None),
        };
    }
    match read_leaf(bytes) {
        Some((leaf, rest)) => Ok(Some((leaf, rest))),
        None => Ok(None),
    }
}

// The kids, if a bracket closes them and no digit follows.
fn closed(kids: Branches, byte: u8, after: &[u8]) -> Option<(Branches, &[u8])>
    ensures { MatchOption result (byte ≡ 93 → HasNoDigit after.now → ⊥) (λ r. (byte ≡ 93) × HasNoDigit r.1.now × (r.0 ≡ kids) × (r.1.now ≡ after.now)) }
{
    if byte == b']' && !begins_with_digit(after) {
        Some((kids, after))
    } else {
        None
    }
}

// The kids whose text stands at the front, with the bracket that closes them, and what stands behind it.
#[cycle(branches)]
fn read_kids(alloc: Global, bytes: &[u8]) -> Result<Option<(Branches, &[u8])>, Memory>
    ensures { IfOk result (λ found. MatchOption found ((kids : List AnyBranch) (rest : List ℕ) → AreKidsAt bytes.now kids rest → ⊥) (λ r. AreKidsAt bytes.now r.0 r.1.now)) }
{
    let mut kids = Items::new(alloc);
    if let Some(after) = after_front(bytes, b"]") {
        return match closed(kids, b']', after) {
            Some((none, rest)) => Ok(Some((none, rest))),
            None => Ok(None),
        };
    }
    let mut text = bytes;
    loop {
        let Some((kid, behind)) = read_body(alloc, text)? else {
            return Ok(None);
        };
        kids.push(kid)?;
        let Some((byte, after)) = behind.split_first() else {
            return Ok(None);
        };
        if *byte != b' ' {
            return match closed(kids, *byte, after) {
                Some((all, rest)) => Ok(Some((all, rest))),
                None => Ok(None),
            };
        }
        text = after;
    }
}
