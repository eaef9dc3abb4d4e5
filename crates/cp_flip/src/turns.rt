// Whether two numbers of a list take turns.
ghost use Rattle.std.specs.Prelude.{◌≡◌, ◌<◌, true, false, length, IfOk};
ghost use Rattle.cp_flip.specs.TakingTurns.{TakeTurns, TakesNoTurns, IsLastPlace, AreLastPlaces};

use cp_base::Memory;
use std::alloc::Global;

// The last place of the number at a place. Linear.
fn last_place(numbers: &[usize], place: usize) -> usize
    requires { place < length numbers.now }
    ensures { IsLastPlace numbers.now place result }
{
    let mut last = place;
    for k in place + 1..numbers.len() {
        if numbers[k] == numbers[place] {
            last = k;
        }
    }
    last
}

// For each place the last place of its number. Quadratic.
fn last_places(alloc: Global, numbers: &[usize]) -> Result<Vec<usize>, Memory>
    ensures { IfOk result (λ lasts. AreLastPlaces numbers.now lasts.items) }
{
    let mut lasts = Vec::new(alloc);
    for place in 0..numbers.len() {
        lasts.push(last_place(numbers, place))?;
    }
    Ok(lasts)
}

// Whether the number at this place takes turns with one that stands behind it: this one stands again behind a later
// place of the first. Linear.
fn takes_turns_from(numbers: &[usize], lasts: &[usize], place: usize) -> bool
    requires within { place < length numbers.now }
    requires lasts { AreLastPlaces numbers.now lasts.now }
    ensures yes { result ≡ true → TakeTurns numbers.now }
    ensures no { result ≡ false → TakesNoTurns numbers.now place }
{
    let mut far = 0;
    for k in place + 1..numbers.len() {
        if numbers[k] == numbers[place] {
            if far > k {
                return true;
            }
        } else if lasts[k] > far {
            far = lasts[k];
        }
    }
    false
}

// Whether two numbers of the list take turns. Quadratic.
pub(crate) fn take_turns(alloc: Global, numbers: &[usize]) -> Result<bool, Memory>
    ensures yes { IfOk result (λ b. b ≡ true → TakeTurns numbers.now) }
    ensures no { IfOk result (λ b. b ≡ false → ¬ TakeTurns numbers.now) }
{
    let lasts = last_places(alloc, numbers)?;
    for place in 0..numbers.len() {
        if takes_turns_from(numbers, lasts.as_slice(), place) {
            return Ok(true);
        }
    }
    Ok(false)
}
