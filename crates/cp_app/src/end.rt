// How a run ends.
ghost use Rattle.std.specs.Prelude.{◌≡◌};
ghost use Rattle.cp_app.specs.Ends.{code_of};

use cp_check::Reject;

/// How a run ends, with what it tells beside its text.
#[derive(Clone, Copy, Debug, PartialEq, Eq)]
pub enum End {
    /// The graph is c-planar.
    Yes,
    /// The graph is not c-planar.
    No,
    /// The layout is good for the graph.
    Accepted,
    /// The layout is not good for the graph.
    Rejected(Reject),
    /// The command ran.
    Done,
    /// The graph's text is outside the format: the kind of its first fault, and the offset of that
    /// fault in bytes, counted from the first byte of the graph's text.
    Refused { kind: u8, at: usize },
    /// The bytes begin with no report: the kind of the first fault, and its line counted from 1.
    BadReport { kind: u8, line: usize },
    /// The words are no command.
    Usage,
    /// The source failed.
    ReadFault,
    /// The sink failed.
    WriteFault,
    /// The source gave more than 67108864 bytes.
    TooLong,
    /// Memory is wanting, and nothing was written.
    Memory,
}

impl End {
    /// The exit status of the program.
    pub fn code(&self) -> u8
        ensures { result ≡ code_of self.now }
    {
        match self {
            End::Yes | End::Accepted | End::Done => 0,
            End::No | End::Rejected(_) => 1,
            End::Refused { .. } | End::BadReport { .. } => 2,
            End::Usage => 3,
            End::ReadFault => 4,
            End::WriteFault => 5,
            End::TooLong => 6,
            End::Memory => 7,
        }
    }
}
