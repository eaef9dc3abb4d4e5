// Why a board without pipes is not solved.

use cp_base::Memory;
use cp_parity::ParityFault;
use thiserror::Error;

/// Why the blocks of a board are not embedded.
#[derive(Clone, Copy, Debug, PartialEq, Eq, Error)]
pub enum BlockFault {
    /// A block has no rotation system in the plane that keeps the lists of its Q-vertices in whatever directions. The
    /// edge is the least of the first such block.
    #[error("the block of edge {edge} is not planar with its lists")]
    NotPlanar { edge: usize },
    /// An allocation failed.
    #[error("out of memory")]
    Memory,
}

impl From<Memory> for BlockFault {
    ghost use Rattle.std.specs.Prelude.{◌≡◌};
    ghost use Rattle.cp_flip.specs.declared.fault.BlockFault.TheVariants.{Memory};

    ghost from_gives = { λ _ fault. fault ≡ Memory };

    fn from(_: Memory) -> BlockFault {
        BlockFault::Memory
    }
}

/// Why a board without pipes has no solution.
#[derive(Clone, Copy, Debug, PartialEq, Eq, Error)]
pub enum FreeFault {
    /// A block has no rotation system in the plane that keeps the lists of its Q-vertices in whatever directions. The
    /// edge is the least of the first such block.
    #[error("the block of edge {edge} is not planar with its lists")]
    NotPlanar { edge: usize },
    /// Two blocks cross at a Q-vertex: its list has edges of them in turn. This is the least such vertex.
    #[error("blocks cross at vertex {vertex}")]
    BlocksCross { vertex: usize },
    /// No directions of the cells serve all blocks.
    #[error("the directions of cells conflict")]
    Conflict,
    /// An allocation failed.
    #[error("out of memory")]
    Memory,
}

impl From<Memory> for FreeFault {
    ghost use Rattle.std.specs.Prelude.{◌≡◌};
    ghost use Rattle.cp_flip.specs.declared.fault.FreeFault.TheVariants.{Memory};

    ghost from_gives = { λ _ fault. fault ≡ Memory };

    fn from(_: Memory) -> FreeFault {
        FreeFault::Memory
    }
}

impl From<BlockFault> for FreeFault {
    ghost use Rattle.std.specs.Prelude.{◌≡◌};
    ghost use Rattle.cp_flip.specs.Faults.{of_block};

    ghost from_gives = { λ fault free. free ≡ of_block fault };

    fn from(fault: BlockFault) -> FreeFault {
        match fault {
            BlockFault::NotPlanar { edge } => FreeFault::NotPlanar { edge },
            BlockFault::Memory => FreeFault::Memory,
        }
    }
}

impl From<ParityFault> for FreeFault {
    ghost use Rattle.std.specs.Prelude.{◌≡◌};
    ghost use Rattle.cp_flip.specs.Faults.{of_parity};

    ghost from_gives = { λ fault free. free ≡ of_parity fault };

    fn from(fault: ParityFault) -> FreeFault {
        match fault {
            ParityFault::Conflict { .. } => FreeFault::Conflict,
            ParityFault::Memory => FreeFault::Memory,
        }
    }
}
