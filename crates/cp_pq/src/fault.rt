// Why a tree cannot be reduced.

use cp_base::Memory;
use thiserror::Error;

/// Why `reduce` gives no tree.
#[derive(Clone, Copy, Debug, PartialEq, Eq, Error)]
pub enum ReduceFault {
    /// The shape of the tree admits no order in which the leaves are consecutive.
    #[error("the leaves cannot be consecutive")]
    NotConsecutive,
    /// An allocation failed.
    #[error("out of memory")]
    Memory,
}

impl From<Memory> for ReduceFault {
    ghost use Rattle.std.specs.Prelude.{◌≡◌};
    ghost use Rattle.cp_pq.specs.declared.fault.ReduceFault.TheVariants.{Memory};

    ghost from_gives = { λ _ fault. fault ≡ Memory };

    fn from(_: Memory) -> ReduceFault {
        ReduceFault::Memory
    }
}
