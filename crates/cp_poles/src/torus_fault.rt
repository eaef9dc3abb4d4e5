// Why Toroidal is not allowed at a bond.

use cp_base::Memory;

/// Why `toroidal` gives no rewrite.
#[derive(Clone, Copy, Debug, PartialEq, Eq)]
pub enum TorusFault {
    /// Two cycles of the edges that the pipe turns into each other differ in length: `a` is the length of the cycle of
    /// the least edge of the first end, and `b` that of the least edge whose cycle has another length.
    CyclesDiffer { a: usize, b: usize },
    /// An allocation failed.
    Memory,
}

impl From<Memory> for TorusFault {
    ghost use Rattle.std.specs.Prelude.{◌≡◌};
    ghost use Rattle.cp_poles.specs.declared.torus_fault.TorusFault.TheVariants.{Memory};

    ghost from_gives = { λ _ fault. fault ≡ Memory };

    fn from(_: Memory) -> TorusFault {
        TorusFault::Memory
    }
}
