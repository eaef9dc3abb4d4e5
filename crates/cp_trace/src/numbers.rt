// Numbers appended to a text.
ghost use Rattle.std.specs.Prelude.{◌≡◌, ◌++◌, ◌∷◌, [], OnOk};
ghost use Rattle.std.specs.Fmt.{decimal};
ghost use Rattle.std.specs.List.{flat_map};
ghost use Rattle.cp_trace.specs.Texts.{keyed, pair_text, spaced};

use cp_base::Memory;
use std::alloc::Global;

// Appends a number in decimal.
pub(crate) fn push_number(alloc: Global, text: &mut Vec<u8>, number: usize) -> Result<(), Memory>
    ensures { OnOk result (text.new.items ≡ text.old.items ++ decimal number) }
{
    let digits = format!(in alloc; "{number}")?;
    text.extend_from_slice(digits.as_bytes())?;
    Ok(())
}

// Appends a number behind a blank.
fn push_spaced(alloc: Global, text: &mut Vec<u8>, number: usize) -> Result<(), Memory>
    ensures { OnOk result (text.new.items ≡ text.old.items ++ spaced number) }
{
    text.push(b' ')?;
    push_number(alloc, text, number)
}

// Appends numbers, each behind a blank.
fn push_numbers(alloc: Global, text: &mut Vec<u8>, numbers: &[usize]) -> Result<(), Memory>
    ensures { OnOk result (text.new.items ≡ text.old.items ++ flat_map spaced numbers.now) }
{
    for number in numbers {
        push_spaced(alloc, text, *number)?;
    }
    Ok(())
}

// Appends a key and numbers, each behind a blank.
pub(crate) fn push_keyed(
    alloc: Global,
    text: &mut Vec<u8>,
    key: &[u8],
    numbers: &[usize],
) -> Result<(), Memory>
    ensures { OnOk result (text.new.items ≡ text.old.items ++ keyed key.now numbers.now) }
{
    text.extend_from_slice(key)?;
    push_numbers(alloc, text, numbers)
}

// Appends a pair behind a blank.
fn push_pair(alloc: Global, text: &mut Vec<u8>, first: usize, second: usize) -> Result<(), Memory>
    ensures { OnOk result (text.new.items ≡ text.old.items ++ pair_text (first, second)) }
{
    push_spaced(alloc, text, first)?;
    text.push(b'/')?;
    push_number(alloc, text, second)
}

// Appends pairs, each behind a blank.
pub(crate) fn push_pairs(
    alloc: Global,
    text: &mut Vec<u8>,
    pairs: &[(usize, usize)],
) -> Result<(), Memory>
    ensures { OnOk result (text.new.items ≡ text.old.items ++ flat_map pair_text pairs.now) }
{
    for (first, second) in pairs {
        push_pair(alloc, text, *first, *second)?;
    }
    Ok(())
}
