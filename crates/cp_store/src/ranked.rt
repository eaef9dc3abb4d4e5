// What has a rank, and can be shared.
ghost use Rattle.std.specs.Prelude.{◌≡◌, ℕ, ◌+◌, ◌*◌, ltb, IfOk};
ghost use Rattle.cp_store.specs.Ranks.{rank};

use cp_base::Memory;

// A rank by two numbers, of which the first counts more.
pub(crate) type Rank = (usize, usize);

// What has a rank, and can be had at two places.
pub(crate) trait Ranked {
    // the rank
    ghost number: { Self → ℕ };

    // The rank.
    fn rank(&self) -> Rank
        ensures { rank result ≡ number self.now };

    // The same once more. Constant time.
    fn shared(&self) -> Result<Self, Memory>
        ensures { IfOk result (λ x. x ≡ self.now) };
}

// Whether the first rank is less.
pub(crate) fn is_less(a: Rank, b: Rank) -> bool
    ensures { result ≡ ltb (rank a) (rank b) }
{
    a.0 < b.0 || a.0 == b.0 && a.1 < b.1
}
