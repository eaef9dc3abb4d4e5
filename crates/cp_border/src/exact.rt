// Whether a list holds exactly what is wanted, each once, by marks that the caller lends.
ghost use Rattle.std.specs.Prelude.{◌≡◌, ◌≢◌, ℕ, ◌<◌, ◌≤◌, ◌↔◌, Bool, true, false, IsTrue, length, slice_index, slice_index_or};
ghost use Rattle.cp_lists.specs.Count.{count, Exactly};

// What tells which numbers below a bound are wanted.
pub(crate) trait Wanted {
    ghost bound: { Self → ℕ };

    ghost wanted: { Self → ℕ → Bool };

    // Whether number `x` is below the bound and wanted.
    fn is_wanted(&self, x: usize) -> bool
        ensures { IsTrue result ↔ ((x < bound self.now) × (wanted self.now x ≡ true)) };
}

// Marks the items from the first one on, as far as they are wanted and not marked yet, and tells how
// many these are.
fn mark_items<T: Wanted>(t: &T, items: &[usize], seen: &mut [bool]) -> usize
    requires room { T.bound t.now ≤ length seen.old }
    requires unseen { (x : ℕ) → slice_index_or seen.old x false ≡ false }
    ensures within { result ≤ length items.now }
    ensures below { (k : ℕ) → k < result → slice_index items.now k < T.bound t.now }
    ensures others { (x : ℕ) → ((k : ℕ) → k < result → slice_index items.now k ≢ x) → slice_index_or seen.new x false ≡ false }
    ensures all { result ≡ length items.now → count (T.bound t.now) (T.wanted t.now) ≤ result → Exactly (T.bound t.now) (T.wanted t.now) items.now }
    ensures stopped { result < length items.now → ¬ Exactly (T.bound t.now) (T.wanted t.now) items.now }
{
    for i in 0..items.len() {
        let x = items[i];
        if !t.is_wanted(x) || seen[x] {
            return i;
        }
        seen[x] = true;
    }
    items.len()
}

// Takes the marks of the first `count` items away, beside which nothing is marked.
fn clear_items(items: &[usize], count: usize, seen: &mut [bool])
    requires within { count ≤ length items.now }
    requires below { (k : ℕ) → k < count → slice_index items.now k < length seen.old }
    requires others { (x : ℕ) → ((k : ℕ) → k < count → slice_index items.now k ≢ x) → slice_index_or seen.old x false ≡ false }
    ensures { (x : ℕ) → slice_index_or seen.new x false ≡ false }
{
    for k in 0..count {
        seen[items[k]] = false;
    }
}

// Whether the items are what is wanted, each once. Nothing is marked before and afterwards.
pub(crate) fn holds_exactly<T: Wanted>(
    t: &T,
    total: usize,
    items: &[usize],
    seen: &mut [bool],
) -> bool
    requires total { total ≡ count (T.bound t.now) (T.wanted t.now) }
    requires room { T.bound t.now ≤ length seen.old }
    requires unseen { (x : ℕ) → slice_index_or seen.old x false ≡ false }
    ensures exact { IsTrue result ↔ Exactly (T.bound t.now) (T.wanted t.now) items.now }
    ensures seen { (x : ℕ) → slice_index_or seen.new x false ≡ false }
{
    let marked = mark_items(t, items, seen);
    clear_items(items, marked, seen);
    marked == items.len() && marked == total
}
