// Why a tree cannot be forced to an order.

use cp_base::Memory;
use thiserror::Error;

/// Why `force` gives no tree.
#[derive(Clone, Copy, Debug, PartialEq, Eq, Error)]
pub enum ForceFault {
    /// The shape of the tree admits no order in which the leaves stand in a row in this order or its reverse.
    #[error("the leaves cannot stand in this order")]
    NotOrderable,
    /// An allocation failed.
    #[error("out of memory")]
    Memory,
}

impl From<Memory> for ForceFault {
    ghost use Rattle.std.specs.Prelude.{◌≡◌};
    ghost use Rattle.cp_force.specs.declared.fault.ForceFault.TheVariants.{Memory};

    ghost from_gives = { λ _ fault. fault ≡ Memory };

    fn from(_: Memory) -> ForceFault {
        ForceFault::Memory
    }
}
