// The lines of reductions, read exactly.
ghost use Rattle.std.specs.Prelude.{◌≡◌, ◌≢◌, ◌∷◌, [], ℕ, ◌<◌, ◌^◌, MatchOption, IfOk, codes};
ghost use Rattle.std.specs.Fmt.{decimal};
ghost use Rattle.cp_base.specs.declared.shape.Branch.{Branch as AnyBranch};
ghost use Rattle.cp_base.specs.Shapes.{leaves};
ghost use Rattle.cp_board.specs.declared.steps.Step.{Step as AnyStep};
ghost use Rattle.cp_trace.specs.declared.step_key.StepKey.{StepKey as AnyKey};
ghost use Rattle.cp_trace.specs.Faults.{AreSmall, IsToldStep};
ghost use Rattle.std.specs.List.{AllByRecursion};
ghost use Rattle.cp_trace.specs.Reading.{AreLines, GoesNoFurther};
ghost use Rattle.cp_trace.specs.StepWords.{key_of_step, key_word, step_args};
ghost use Rattle.cp_trace.specs.Texts.{body_text, step_line};

use crate::read_body::read_body;
use crate::read_words::{take_end, take_number, take_word};
use crate::step_key::StepKey;
use crate::word::{Words, cut};
use cp_base::{Items, Memory, Shape};
use cp_board::{Step, StepList};
use std::alloc::Global;

// Which reduction the word names.
fn key_of(word: &[u8]) -> Option<StepKey>
    ensures { MatchOption result ((k : AnyKey) → word.now ≡ key_word k → ⊥) (λ k. word.now ≡ key_word k) }
{
    if word == b"small".as_slice() {
        Some(StepKey::Small)
    } else if word == b"free".as_slice() {
        Some(StepKey::Free)
    } else if word == b"fuse".as_slice() {
        Some(StepKey::Fuse)
    } else if word == b"torus".as_slice() {
        Some(StepKey::Torus)
    } else if word == b"join".as_slice() {
        Some(StepKey::Join)
    } else if word == b"tree".as_slice() {
        Some(StepKey::Tree)
    } else {
        None
    }
}

// Takes the one number that is left.
pub(crate) fn one_number(words: &mut Words<'_>) -> Option<usize>
    ensures { MatchOption result ((n : ℕ) → n < 2 ^ 63 → words.old ≡ decimal n ∷ [] → ⊥) (λ n. (n < 2 ^ 63) × (words.old ≡ decimal n ∷ [])) }
{
    let number = take_number(words)?;
    take_end(words)?;
    Some(number)
}

// Takes three numbers.
fn three_numbers(words: &mut Words<'_>) -> Option<(usize, usize, usize)>
    ensures { MatchOption result ((a b c : ℕ) (later : _) → a < 2 ^ 63 → b < 2 ^ 63 → c < 2 ^ 63 → words.old ≡ decimal a ∷ decimal b ∷ decimal c ∷ later → ⊥) (λ r. (r.0 < 2 ^ 63) × (r.1 < 2 ^ 63) × (r.2 < 2 ^ 63) × (words.old ≡ decimal r.0 ∷ decimal r.1 ∷ decimal r.2 ∷ words.new)) }
{
    let first = take_number(words)?;
    let second = take_number(words)?;
    let third = take_number(words)?;
    Some((first, second, third))
}

// The short reduction with this key that the words tell.
fn short_step(key: StepKey, words: &mut Words<'_>) -> Option<Step>
    ensures { MatchOption result ((s : AnyStep) → IsToldStep s → key_of_step s ≡ key → key ≢ StepKey.Tree → words.old ≡ step_args s → ⊥) (λ s. IsToldStep s × (key_of_step s ≡ key) × (words.old ≡ step_args s)) }
{
    match key {
        StepKey::Small => {
            let pipe = one_number(words)?;
            Some(Step::Small { pipe })
        }
        StepKey::Free => {
            let (pipe, end, pole) = three_numbers(words)?;
            take_end(words)?;
            Some(Step::FreePole { pipe, end, pole })
        }
        StepKey::Fuse => {
            let (pipe, end, pole) = three_numbers(words)?;
            take_end(words)?;
            Some(Step::FusePoles { pipe, end, pole })
        }
        StepKey::Torus => {
            let pipe = one_number(words)?;
            Some(Step::Toroidal { pipe })
        }
        StepKey::Join => {
            let pipe = one_number(words)?;
            Some(Step::Join { pipe })
        }
        StepKey::Tree => None,
    }
}

// The shape whose body the bytes spell.
fn shape_of(alloc: Global, root: usize, bytes: &[u8]) -> Result<Option<Shape>, Memory>
    ensures { IfOk result (λ found. MatchOption found ((b : AnyBranch) → AreSmall (leaves b) → bytes.now ≡ body_text b → ⊥) (λ s. AreSmall (leaves s.body) × (s.root ≡ root) × (bytes.now ≡ body_text s.body))) }
{
    let Some((body, rest)) = read_body(alloc, bytes)? else {
        return Ok(None);
    };
    if rest.is_empty() {
        Ok(Some(Shape { root, body }))
    } else {
        Ok(None)
    }
}

// The reduction with a shape that the words tell.
fn tree_step(alloc: Global, words: &mut Words<'_>) -> Result<Option<Step>, Memory>
    ensures { IfOk result (λ found. MatchOption found ((s : AnyStep) → IsToldStep s → key_of_step s ≡ StepKey.Tree → words.old ≡ step_args s → ⊥) (λ s. IsToldStep s × (key_of_step s ≡ StepKey.Tree) × (words.old ≡ step_args s))) }
{
    let Some((pipe, end, root)) = three_numbers(words) else {
        return Ok(None);
    };
    let Some(bytes) = words.left() else {
        return Ok(None);
    };
    match shape_of(alloc, root, bytes)? {
        Some(shape) => Ok(Some(Step::Propagate { pipe, end, shape })),
        None => Ok(None),
    }
}

// The reduction with this key that the words tell.
fn keyed_step(alloc: Global, key: StepKey, words: &mut Words<'_>) -> Result<Option<Step>, Memory>
    ensures { IfOk result (λ found. MatchOption found ((s : AnyStep) → IsToldStep s → key_of_step s ≡ key → words.old ≡ step_args s → ⊥) (λ s. IsToldStep s × (key_of_step s ≡ key) × (words.old ≡ step_args s))) }
{
    if let StepKey::Tree = key {
        return tree_step(alloc, words);
    }
    match short_step(key, words) {
        Some(step) => Ok(Some(step)),
        None => Ok(None),
    }
}

// Takes the words in front of the numbers.
fn take_key(words: &mut Words<'_>) -> Option<StepKey>
    ensures { MatchOption result ((k : AnyKey) (later : _) → words.old ≡ codes "step" ∷ key_word k ∷ later → ⊥) (λ k. words.old ≡ codes "step" ∷ key_word k ∷ words.new) }
{
    take_word(words, b"step")?;
    key_of(words.next()?)
}

// The reduction that the line tells. Linear in the length of the line.
pub(crate) fn step_of(alloc: Global, line: &[u8]) -> Result<Option<Step>, Memory>
    ensures { IfOk result (λ found. MatchOption found ((s : AnyStep) → IsToldStep s → line.now ≡ step_line s → ⊥) (λ s. IsToldStep s × (line.now ≡ step_line s))) }
{
    let mut words = Words::new(line);
    let Some(key) = take_key(&mut words) else {
        return Ok(None);
    };
    match keyed_step(alloc, key, &mut words)? {
        Some(step) => Ok(Some(step)),
        None => Ok(None),
    }
}

// The reductions that the first lines tell, and what stands behind them. Linear in the length of these lines.
pub(crate) fn read_steps(alloc: Global, bytes: &[u8]) -> Result<(StepList, &[u8]), Memory>
    ensures { IfOk result (λ r. AreLines step_line (AllByRecursion IsToldStep) bytes.now r.0 r.1.now × GoesNoFurther step_line (AllByRecursion IsToldStep) r.0 r.1.now) }
{
    let mut steps = Items::new(alloc);
    let mut rest = bytes;
    while let Some((line, after)) = cut(rest, b'\n') {
        let Some(step) = step_of(alloc, line)? else {
            return Ok((steps, rest));
        };
        steps.push(step)?;
        rest = after;
    }
    Ok((steps, rest))
}
