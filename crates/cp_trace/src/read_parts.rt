// The lines of an instance, read exactly.
ghost use Rattle.std.specs.Prelude.{◌≡◌, ◌++◌, ◌∷◌, [], ℕ, List, ◌+◌, ◌<◌, ◌≤◌, ◌^◌, ◌↔◌, map, codes, IsTrue, MatchOption, IfOk};
ghost use Rattle.std.specs.Fmt.{decimal};
ghost use Rattle.std.specs.List.{AllByRecursion};
ghost use Rattle.std.specs.List.Sorted.{IsStrictlyIncreasing};
ghost use Rattle.cp_board.specs.declared.parts.Kind.{Kind as AnyKind};
ghost use Rattle.cp_board.specs.declared.parts.Vert.{Vert as AnyVert};
ghost use Rattle.cp_board.specs.declared.parts.EdgeRow.{EdgeRow as AnyEdge};
ghost use Rattle.cp_board.specs.declared.parts.Pipe.{Pipe as AnyPipe};
ghost use Rattle.cp_trace.specs.Faults.{AreSmall, AreToldPairs, HasLeastFirst, IsPair, IsToldEdge, IsToldKind, IsToldPipe, IsToldVert};
ghost use Rattle.cp_trace.specs.Reading.{IsAbove, edge_words, kind_words, label_word, pair_word, pipe_words, vert_words};
ghost use Rattle.cp_trace.specs.Texts.{edge_line, pipe_line, vert_line};

use crate::read_numbers::numbers_of;
use crate::read_words::{pair_of, take_end, take_keyed, take_label, take_number};
use crate::word::Words;
use cp_base::{CycList, Items, Memory};
use cp_board::{EdgeRow, Kind, Pairs, Pipe, Vert};
use std::alloc::Global;

// Whether no number is less than the first.
fn has_least_first(numbers: &[usize]) -> bool
    ensures { IsTrue result ↔ HasLeastFirst numbers.now }
{
    match numbers.split_first() {
        None => true,
        Some((first, rest)) => are_at_least(*first, rest),
    }
}

// Whether no number is less than the bound.
fn are_at_least(bound: usize, numbers: &[usize]) -> bool
    ensures { IsTrue result ↔ AllByRecursion (λ x. bound ≤ x) numbers.now }
{
    numbers.iter().all(|x| bound <= *x)
}

// The kind of a Q-vertex, behind the letter.
fn listed_kind(alloc: Global, mut words: Words<'_>) -> Result<Option<Kind>, Memory>
    ensures { IfOk result (λ found. MatchOption found ((k : AnyKind) → IsToldKind k → codes "Q" ∷ words.entry ≡ kind_words k → ⊥) (λ k. IsToldKind k × (codes "Q" ∷ words.entry ≡ kind_words k))) }
{
    let Some(cell) = take_label(&mut words) else {
        return Ok(None);
    };
    let Some(psi) = numbers_of(alloc, words)? else {
        return Ok(None);
    };
    if has_least_first(psi.as_slice()) {
        let psi = CycList::from_slice(alloc, psi.as_slice())?;
        Ok(Some(Kind::Q { cell, psi }))
    } else {
        Ok(None)
    }
}

// The kind of a P-vertex, behind the letter.
fn free_kind(words: &mut Words<'_>) -> Result<Option<Kind>, Memory>
    ensures { IfOk result (λ found. MatchOption found ((k : AnyKind) → IsToldKind k → codes "P" ∷ words.old ≡ kind_words k → ⊥) (λ k. IsToldKind k × (codes "P" ∷ words.old ≡ kind_words k))) }
{
    match take_end(words) {
        Some(()) => Ok(Some(Kind::P)),
        None => Ok(None),
    }
}

// What is asked of the order of a vertex.
fn kind_of(alloc: Global, mut words: Words<'_>) -> Result<Option<Kind>, Memory>
    ensures { IfOk result (λ found. MatchOption found ((k : AnyKind) → IsToldKind k → words.entry ≡ kind_words k → ⊥) (λ k. IsToldKind k × (words.entry ≡ kind_words k))) }
{
    let Some(letter) = words.next() else {
        return Ok(None);
    };
    if letter == b"Q".as_slice() {
        return listed_kind(alloc, words);
    }
    if letter == b"P".as_slice() {
        return free_kind(&mut words);
    }
    Ok(None)
}

// The vertex that the line tells. Linear in the length of the line.
pub(crate) fn vert_of(alloc: Global, line: &[u8]) -> Result<Option<Vert>, Memory>
    ensures { IfOk result (λ found. MatchOption found ((v : AnyVert) → IsToldVert v → line.now ≡ vert_line v → ⊥) (λ v. IsToldVert v × (line.now ≡ vert_line v))) }
{
    let mut words = Words::new(line);
    let Some(name) = take_keyed(&mut words, b"vertex") else {
        return Ok(None);
    };
    match kind_of(alloc, words)? {
        Some(kind) => Ok(Some(Vert { name, kind })),
        None => Ok(None),
    }
}

// The edge that the words tell.
fn edge_by_words(words: &mut Words<'_>) -> Option<EdgeRow>
    ensures { MatchOption result ((e : AnyEdge) → IsToldEdge e → words.old ≡ edge_words e → ⊥) (λ e. IsToldEdge e × (words.old ≡ edge_words e)) }
{
    let name = take_keyed(words, b"edge")?;
    let a = take_number(words)?;
    let b = take_number(words)?;
    take_end(words)?;
    Some(EdgeRow { name, a, b })
}

// The edge that the line tells. Linear in the length of the line.
pub(crate) fn edge_of(line: &[u8]) -> Option<EdgeRow>
    ensures { MatchOption result ((e : AnyEdge) → IsToldEdge e → line.now ≡ edge_line e → ⊥) (λ e. IsToldEdge e × (line.now ≡ edge_line e)) }
{
    let mut words = Words::new(line);
    edge_by_words(&mut words)
}

// The pairs that the words spell.
fn spelled_pairs(alloc: Global, mut words: Words<'_>) -> Result<Option<Pairs>, Memory>
    ensures { IfOk result (λ found. MatchOption found ((pairs : List (ℕ × ℕ)) → AllByRecursion IsPair pairs → words.entry ≡ map pair_word pairs → ⊥) (λ pairs. AllByRecursion IsPair pairs × (words.entry ≡ map pair_word pairs))) }
{
    let mut pairs = Items::new(alloc);
    while let Some(word) = words.next() {
        match pair_of(word) {
            Some(pair) => pairs.push(pair)?,
            None => return Ok(None),
        }
    }
    Ok(Some(pairs))
}

// Whether the number is greater than the last one, if there is one.
pub(crate) fn is_above(last: Option<usize>, number: usize) -> bool
    ensures { IsTrue result ↔ IsAbove last number }
{
    match last {
        None => true,
        Some(last) => last < number,
    }
}

// Whether the first edges of the pairs rise.
fn firsts_rise(pairs: &[(usize, usize)]) -> bool
    ensures { IsTrue result ↔ IsStrictlyIncreasing (map (λ x. x.0) pairs.now) }
{
    let mut last = None;
    for pair in pairs {
        if !is_above(last, pair.0) {
            return false;
        }
        last = Some(pair.0);
    }
    true
}

// The pairs that the words spell, if they rise.
fn pairs_of(alloc: Global, words: Words<'_>) -> Result<Option<Pairs>, Memory>
    ensures { IfOk result (λ found. MatchOption found ((pairs : List (ℕ × ℕ)) → AreToldPairs pairs → words.entry ≡ map pair_word pairs → ⊥) (λ pairs. AreToldPairs pairs × (words.entry ≡ map pair_word pairs))) }
{
    let Some(pairs) = spelled_pairs(alloc, words)? else {
        return Ok(None);
    };
    if firsts_rise(pairs.items()) {
        Ok(Some(pairs))
    } else {
        Ok(None)
    }
}

// The name and the ends of a pipe.
fn pipe_head(words: &mut Words<'_>) -> Option<(usize, usize, usize)>
    ensures { MatchOption result ((name a b : ℕ) (later : _) → name < 2 ^ 63 → a < 2 ^ 63 → b < 2 ^ 63 → words.old ≡ codes "pipe" ∷ decimal name ∷ decimal a ∷ label_word b ∷ later → ⊥) (λ r. (r.0 < 2 ^ 63) × (r.1 < 2 ^ 63) × (r.2 < 2 ^ 63) × (words.old ≡ codes "pipe" ∷ decimal r.0 ∷ decimal r.1 ∷ label_word r.2 ∷ words.new)) }
{
    let name = take_keyed(words, b"pipe")?;
    let a = take_number(words)?;
    let b = take_label(words)?;
    Some((name, a, b))
}

// The pipe that the line tells. Linear in the length of the line.
pub(crate) fn pipe_of(alloc: Global, line: &[u8]) -> Result<Option<Pipe>, Memory>
    ensures { IfOk result (λ found. MatchOption found ((p : AnyPipe) → IsToldPipe p → line.now ≡ pipe_line p → ⊥) (λ p. IsToldPipe p × (line.now ≡ pipe_line p))) }
{
    let mut words = Words::new(line);
    let Some((name, a, b)) = pipe_head(&mut words) else {
        return Ok(None);
    };
    match pairs_of(alloc, words)? {
        Some(pairs) => Ok(Some(Pipe { name, a, b, pairs })),
        None => Ok(None),
    }
}
