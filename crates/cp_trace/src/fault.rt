// Why bytes are no trace.

use cp_base::Memory;
use thiserror::Error;

/// Why bytes are no trace.
#[derive(Clone, Copy, Debug, PartialEq, Eq, Error)]
pub enum TraceFault {
    /// The first line that is no whole line or may not stand behind the lines before it is line `line`, where the first
    /// line of the bytes is line 1.
    #[error("bad trace line {line}")]
    Bad { line: usize },
    /// An allocation failed.
    #[error("out of memory")]
    Memory,
}

impl From<Memory> for TraceFault {
    ghost use Rattle.std.specs.Prelude.{◌≡◌};
    ghost use Rattle.cp_trace.specs.declared.fault.TraceFault.TheVariants as faults;

    ghost from_gives = { λ _ e. e ≡ faults.Memory };

    fn from(_error: Memory) -> TraceFault {
        TraceFault::Memory
    }
}
