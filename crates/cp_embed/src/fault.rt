// Why a block has no embedding.

use cp_base::Memory;
use thiserror::Error;

/// Why `embed` gives no tree.
#[derive(Clone, Copy, Debug, PartialEq, Eq, Error)]
pub enum EmbedFault {
    /// The block has no rotation system in the plane that keeps the given lists.
    #[error("the block is not planar with these lists")]
    NotPlanar,
    /// An allocation failed.
    #[error("out of memory")]
    Memory,
}

impl From<Memory> for EmbedFault {
    ghost use Rattle.std.specs.Prelude.{◌≡◌};
    ghost use Rattle.cp_embed.specs.declared.fault.EmbedFault.TheVariants.{Memory};

    ghost from_gives = { λ _ fault. fault ≡ Memory };

    fn from(_: Memory) -> EmbedFault {
        EmbedFault::Memory
    }
}
