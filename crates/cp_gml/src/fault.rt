// Why a text has no list.
ghost use Rattle.std.specs.Prelude.{◌≡◌};
ghost use Rattle.cp_gml.specs.Lists.{with_number};

use crate::kind::GrammarKind;
use cp_base::Memory;
use thiserror::Error;

/// Why a text has no list, with the kind of its first fault.
#[derive(Clone, Copy, Debug, PartialEq, Eq, Error)]
pub enum ListFault {
    /// The text is not in the grammar. `at` is the offset of the first byte that does not fit, or for the
    /// end of the text its length. It counts bytes from the first one of the text, the three of a byte
    /// order mark too.
    #[error("grammar fault {kind} at byte {at}")]
    Grammar { kind: GrammarKind, at: usize },
    /// An allocation failed.
    #[error("out of memory")]
    Memory,
}

impl From<Memory> for ListFault {
    ghost use Rattle.std.specs.Prelude.{◌≡◌};
    ghost use Rattle.cp_gml.specs.declared.fault.ListFault.TheVariants.{Memory};

    ghost from_gives = { λ _ fault. fault ≡ Memory };

    fn from(_: Memory) -> ListFault {
        ListFault::Memory
    }
}

/// Why `parse` gives no list.
#[derive(Clone, Copy, Debug, PartialEq, Eq, Error)]
pub enum GmlFault {
    /// The text is not in the grammar. `kind` is the number of a `GrammarKind`:
    ///
    /// 1. a byte that begins no token, no blank and no comment,
    /// 2. a string without a closing quote, at its opening one,
    /// 3. a number that is neither an integer nor a real,
    /// 4. a number, a string or an opening bracket where a key or a closing bracket is due,
    /// 5. a word, a closing bracket or the end of the text where a value is due,
    /// 6. the end of the text where a key is due, inside a list between brackets,
    /// 7. a closing bracket where a key is due, outside of all brackets,
    /// 8. an opening bracket as a value, of a list at depth 513.
    ///
    /// `at` is the offset of the first byte that does not fit, or for the end of the text its
    /// length. It counts bytes from the first one of the text, the three of a byte order mark too.
    #[error("grammar fault {kind} at byte {at}")]
    Grammar { kind: u8, at: usize },
    /// An allocation failed.
    #[error("out of memory")]
    Memory,
}

// The fault with the number of its kind.
pub(crate) fn with_number(fault: ListFault) -> GmlFault
    ensures { result ≡ with_number fault }
{
    match fault {
        ListFault::Grammar { kind, at } => GmlFault::Grammar {
            kind: kind.number(),
            at,
        },
        ListFault::Memory => GmlFault::Memory,
    }
}
