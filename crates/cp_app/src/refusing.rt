// The answer to a text that says no graph.
ghost use Rattle.std.specs.Prelude.{ℕ, List, IfOk};
ghost use Rattle.cp_cgraph.specs.GraphTexts.{IsTextFault};
ghost use Rattle.cp_app.specs.Answer.{Refusal};

use crate::{End, texts};
use cp_base::Memory;
use cp_cgraph::TextFault;
use std::alloc::Global;

/// The end and the line of the first fault of a text.
pub(crate) fn refusal(alloc: Global, fault: TextFault) -> Result<(End, Vec<u8>), Memory>
    ensures { IfOk result (λ a. (text : List ℕ) → IsTextFault text fault → Refusal text a.0 a.1.items) }
{
    match fault {
        TextFault::Grammar { kind, at } => {
            let line = texts::grammar_fault(alloc, kind, at)?;
            let number = kind.number();
            Ok((End::Refused { kind: number, at }, line))
        }
        TextFault::Graph { kind, at } => {
            let line = texts::graph_fault(alloc, kind, at)?;
            let number = kind.number();
            Ok((End::Refused { kind: number, at }, line))
        }
        TextFault::Memory => Err(Memory),
    }
}
