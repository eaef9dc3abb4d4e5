// Why parts make no instance.

use cp_base::Memory;
use thiserror::Error;

/// Why vertices, edges and pipes make no instance.
#[derive(Clone, Copy, Debug, PartialEq, Eq, Error)]
pub enum PartsFault {
    /// The least rule that is broken, from 1 to 5, and the name of the first part that breaks it: vertices come before
    /// edges, and edges before pipes.
    #[error("rule {rule} is broken at {name}")]
    Broken { rule: u8, name: usize },
    /// Want of memory.
    #[error("out of memory")]
    Memory,
}

impl From<Memory> for PartsFault {
    ghost use Rattle.std.specs.Prelude.{◌≡◌};
    ghost use Rattle.cp_sync.specs.declared.fault.PartsFault.TheVariants.{Memory};

    ghost from_gives = { λ _ fault. fault ≡ Memory };

    fn from(_: Memory) -> PartsFault {
        PartsFault::Memory
    }
}
