// Numbers of classes, from the least member of each class.
ghost use Rattle.std.specs.Prelude.{◌≡◌, ℕ, ◌<◌, ◌≤◌, eqb, length, slice_index, IfOk};
ghost use Rattle.cp_lists.specs.Count.{count};

use cp_base::Memory;
use std::alloc::Global;

// How many least members each class's least member has below it. `least` tells the least member of
// the class of each number. Linear in its length.
pub(crate) fn numbers_of(alloc: Global, least: &[usize]) -> Result<Vec<usize>, Memory>
    requires lower { (x : ℕ) → x < length least.now → slice_index least.now x ≤ x }
    requires leads { (x : ℕ) → x < length least.now → slice_index least.now (slice_index least.now x) ≡ slice_index least.now x }
    ensures size { IfOk result (λ numbers. length numbers.items ≡ length least.now) }
    ensures counted { IfOk result (λ numbers. (x : ℕ) → x < length least.now → slice_index numbers.items x ≡ count (slice_index least.now x) (λ y. eqb (slice_index least.now y) y)) }
{
    let mut numbers = Vec::new(alloc);
    let mut classes = 0;
    for x in 0..least.len() {
        if least[x] == x {
            numbers.push(classes)?;
            classes += 1;
        } else {
            numbers.push(numbers[least[x]])?;
        }
    }
    Ok(numbers)
}
