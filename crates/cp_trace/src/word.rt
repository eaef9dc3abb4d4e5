// Bytes cut into words and lines.
ghost use Rattle.std.specs.Prelude.{◌≡◌, ◌==◌, ◌++◌, ◌∷◌, [], IsTrue, ◌↔◌, MatchOption, position};
ghost use Rattle.cp_trace.specs.Reading.{Lacks, words};

use std::marker::Model;

// Where the byte stands first.
fn place_of(bytes: &[u8], byte: u8) -> Option<usize>
    ensures { result ≡ position (λ b. b == byte) bytes.now }
{
    bytes.iter().position(|b| *b == byte)
}

// What stands before the first such byte, and what stands behind it.
pub(crate) fn cut(bytes: &[u8], byte: u8) -> Option<(&[u8], &[u8])>
    ensures { MatchOption result (Lacks byte bytes.now) (λ parts. Lacks byte parts.0.now × (bytes.now ≡ parts.0.now ++ byte ∷ parts.1.now)) }
{
    let place = place_of(bytes, byte)?;
    let (front, back) = bytes.split_at(place);
    let (_, after) = back.split_first()?;
    Some((front, after))
}

// What stands behind these bytes, if the others begin with them.
pub(crate) fn after_front<'a>(bytes: &'a [u8], front: &[u8]) -> Option<&'a [u8]>
    ensures { MatchOption result ((after : _) → bytes.now ≡ front.now ++ after → ⊥) (λ after. bytes.now ≡ front.now ++ after.now) }
{
    bytes.strip_prefix(front)
}

// What stands behind this line, if the bytes begin with it.
pub(crate) fn after_line<'a>(bytes: &'a [u8], line: &[u8]) -> Option<&'a [u8]>
    ensures { MatchOption result ((after : _) → bytes.now ≡ line.now ++ 10 ∷ after → ⊥) (λ after. bytes.now ≡ line.now ++ 10 ∷ after.now) }
{
    after_front(after_front(bytes, line)?, b"\n")
}

// The words of a line from some place on.
#[derive(Drop)]
pub(crate) struct Words<'a> {
    rest: &'a [u8],
    more: bool,
}

impl<'a> Model for Words<'a> {
    ghost use Rattle.std.specs.Prelude.{List, ℕ, cond, []};
    ghost use Rattle.cp_trace.specs.Reading.{words};

    ghost Value = { List (List ℕ) };

    ghost view = { λ left. cond left.more (words left.rest.now) [] };
}

impl<'a> Words<'a> {
    pub fn new(line: &'a [u8]) -> Words<'a>
        ensures { result ≡ words line.now }
    {
        Words {
            rest: line,
            more: true,
        }
    }

    pub fn next(&mut self) -> Option<&'a [u8]>
        ensures { MatchOption result ((self.old ≡ []) × (self.new ≡ [])) (λ word. self.old ≡ word.now ∷ self.new) }
    {
        if !self.more {
            return None;
        }
        let whole = self.rest;
        match cut(whole, b' ') {
            Some((word, after)) => {
                self.rest = after;
                Some(word)
            }
            None => {
                self.more = false;
                Some(whole)
            }
        }
    }

    // The bytes of the words that are left, if there are some.
    pub fn left(&self) -> Option<&'a [u8]>
        ensures { MatchOption result (self.now ≡ []) (λ bytes. self.now ≡ words bytes.now) }
    {
        if self.more { Some(self.rest) } else { None }
    }
}
