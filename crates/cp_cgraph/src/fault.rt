// Why a list says no clustered graph.
ghost use Rattle.std.specs.Prelude.{◌≡◌, [], ◌∷◌, ◌++◌, MatchOption, OnOk};
ghost use Rattle.cp_cgraph.specs.Entries.{keyed};
ghost use Rattle.cp_cgraph.specs.GraphFaults.{IsFirst, later};

use crate::entries::has_key;
use crate::kind::GraphKind;
use cp_base::{Items, Memory};
use cp_gml::Entry;
use thiserror::Error;

/// Why `build` gives no graph.
#[derive(Clone, Copy, Debug, PartialEq, Eq, Error)]
pub enum GraphFault {
    /// The list says no clustered graph. `kind` is the number of a `GraphKind`:
    ///
    /// 10. no `graph` entry at depth 0, at the end of the list,
    /// 11. a second or later `graph` entry at depth 0, at its key,
    /// 12. a first `graph`, a first `rootcluster`, a `node`, an `edge` or a `cluster` whose value is no
    ///     list, at the value,
    /// 13. a node without an `id`, at its bracket,
    /// 14. a second or later `id` of a node, or `source` or `target` of an edge, at that key,
    /// 15. the value of the first `id`, `source` or `target`, or of a `vertex`, that is no id, at the value,
    /// 16. the id of an earlier node, at the value,
    /// 17. a `source` or `target` that no node has as its id, at the value,
    /// 18. a second or later `rootcluster` entry at depth 0 or in the graph list, at its key,
    /// 19. a `vertex` that no node has as its id, at the value,
    /// 20. a `vertex` that names a node which an earlier `vertex` names, at the value,
    /// 21. an edge without a `source` or without a `target`, at its bracket.
    ///
    /// `at` is the offset, in bytes from the first one of the text.
    #[error("graph fault {kind} at byte {at}")]
    Graph { kind: u8, at: usize },
    /// An allocation failed.
    #[error("out of memory")]
    Memory,
}

impl From<Memory> for GraphFault {
    ghost use Rattle.std.specs.Prelude.{◌≡◌};
    ghost use Rattle.cp_cgraph.specs.declared.fault.GraphFault.TheVariants as causes;

    ghost from_gives = { λ _ e. e ≡ causes.Memory };

    fn from(_: Memory) -> GraphFault {
        GraphFault::Memory
    }
}

// An offset and a kind.
pub(crate) type Fault = (usize, GraphKind);

// Notes a fault of this kind at the key of each entry with the key.
pub(crate) fn note_later(
    entries: &[Entry],
    key: &[u8],
    kind: GraphKind,
    faults: &mut Items<Fault>,
) -> Result<(), Memory>
    ensures { OnOk result (faults.new ≡ faults.old ++ later kind (keyed key.now entries.now)) }
{
    'noting: for entry in entries {
        if has_key(entry, key) {
            faults.push((entry.key_at, kind))?;
        }
    }
    Ok(())
}

// The one of two faults that stands first: at the lesser offset, and there of the lesser kind.
fn sooner(first: Fault, second: Fault) -> Fault
    ensures { IsFirst (first ∷ second ∷ []) result }
{
    if second.0 < first.0 || (second.0 == first.0 && second.1.number() < first.1.number()) {
        second
    } else {
        first
    }
}

// The first of some faults.
pub(crate) fn first_fault(faults: &[Fault]) -> Option<Fault>
    ensures { MatchOption result (faults.now ≡ []) (IsFirst faults.now) }
{
    let mut first = None;
    'seeking: for fault in faults {
        first = match first {
            None => Some(*fault),
            Some(found) => Some(sooner(found, *fault)),
        };
    }
    first
}
