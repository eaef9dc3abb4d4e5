// Why no bits meet some equations.

use cp_base::{Items, Memory};
use thiserror::Error;

/// A row of places of equations, counted from 0. Contracts see it as the list of them.
pub type Places = Items<usize>;

/// Why `solve` gives no bits.
#[derive(Debug, Drop, Error)]
pub enum ParityFault {
    /// No bits meet all equations. The equations at these places form a closed walk of vars, and an odd number
    /// of them is odd. A place may stand more than once.
    #[error("an odd cycle of equations")]
    Conflict { cycle: Places },
    /// An allocation failed.
    #[error("out of memory")]
    Memory,
}

impl From<Memory> for ParityFault {
    ghost use Rattle.std.specs.Prelude.{◌≡◌};
    ghost use Rattle.cp_parity.specs.declared.fault.ParityFault.TheVariants.{Memory};

    ghost from_gives = { λ _ fault. fault ≡ Memory };

    fn from(_: Memory) -> ParityFault {
        ParityFault::Memory
    }
}
