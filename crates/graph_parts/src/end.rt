// How a run ends.
ghost use Rattle.std.specs.Prelude.{◌≡◌};
ghost use Rattle.graph_parts.specs.Ends.{code_of};

/// How a run ends.
#[derive(Clone, Copy, Debug, PartialEq, Eq)]
pub enum End {
    /// The numbers were written.
    Done,
    /// The graph has not what is asked for: a loop, where blocks are asked for, or not one block
    /// without loops with an edge at each vertex, where a bipolar order is.
    Unfit,
    /// The bytes are outside the format of a graph: the kind of the first fault, and its offset in bytes.
    Refused { kind: u8, at: usize },
    /// The words ask for nothing.
    Usage,
    /// The source failed.
    ReadFault,
    /// The sink failed.
    WriteFault,
    /// The source gave more than 67108864 bytes.
    TooLong,
    /// Memory is wanting, and nothing was written.
    Memory,
}

impl End {
    /// The exit status of the program.
    pub fn code(&self) -> u8
        ensures { result ≡ code_of self.now }
    {
        match self {
            End::Done => 0,
            End::Unfit => 1,
            End::Refused { .. } => 2,
            End::Usage => 3,
            End::ReadFault => 4,
            End::WriteFault => 5,
            End::TooLong => 6,
            End::Memory => 7,
        }
    }
}
