// What a report says, and how a text of one can be wrong.

use cp_base::Memory;
use cp_cgraph::Layout;
use thiserror::Error;

/// An answer to the question whether a clustered graph is c-planar.
#[derive(Debug, Drop)]
pub enum Report {
    /// It is, by this layout. Nothing is promised of the layout.
    Yes(Layout),
    /// It is not.
    No,
}

/// Why bytes begin with no text of a report.
#[derive(Clone, Copy, Debug, PartialEq, Eq, Error)]
pub enum ReportFault {
    /// The text is wrong or cut off at the line `line`, where the first line of the bytes is line 1.
    /// `kind` is the number of a `ReportKind`. Kind 1: it is not the heading. Kind 2: it is neither `yes`
    /// nor `no`. Kind 3: it is a whole line that cannot follow the lines before it. Kind 4: it is missing,
    /// or lacks its line feed.
    #[error("bad report {kind} line {line}")]
    Bad { kind: u8, line: usize },
    /// An allocation failed.
    #[error("out of memory")]
    Memory,
}

impl From<Memory> for ReportFault {
    ghost use Rattle.std.specs.Prelude.{◌≡◌};
    ghost use Rattle.cp_report.specs.declared.report.ReportFault.TheVariants as faults;

    ghost from_gives = { λ _ e. e ≡ faults.Memory };

    fn from(_error: Memory) -> ReportFault {
        ReportFault::Memory
    }
}
