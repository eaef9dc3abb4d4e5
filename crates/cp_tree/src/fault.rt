// Why a vertex has no order tree.

use cp_base::Memory;
use thiserror::Error;

/// Why `tree_at` gives no tree.
#[derive(Clone, Copy, Debug, PartialEq, Eq, Error)]
pub enum TreeFault {
    /// The block of this edge, its least, has no rotation of Euler genus zero that keeps its Q-vertices.
    #[error("the block of edge {0} is not planar with its lists")]
    NotPlanar(usize),
    /// An allocation failed.
    #[error("out of memory")]
    Memory,
}

impl From<Memory> for TreeFault {
    ghost use Rattle.std.specs.Prelude.{◌≡◌};
    ghost use Rattle.cp_tree.specs.declared.fault.TreeFault.TheVariants.{Memory};

    ghost from_gives = { λ _ fault. fault ≡ Memory };

    fn from(_: Memory) -> TreeFault {
        TreeFault::Memory
    }
}
