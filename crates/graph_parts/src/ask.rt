// What the words of the command line ask for.
ghost use Rattle.std.specs.Prelude.{◌≡◌, MatchOption};
ghost use Rattle.graph_parts.specs.Asking.{Asks, word_of};
ghost use Rattle.graph_parts.specs.declared.ask.Asked.{Asked as AnyAsked};

use crate::answering::answer_to;
use crate::end::End;
use cp_base::Memory;
use cp_io::Command;
use std::alloc::Global;

/// What a run prints.
#[derive(Clone, Copy, Debug, PartialEq, Eq)]
pub enum Asked {
    /// The number of vertices and the number of edges.
    Edges,
    /// The number of the component of each vertex.
    Components,
    /// The number of the block of each edge.
    Blocks,
    /// The vertices in a bipolar order between the ends of edge 0.
    Bipolar,
}

// What one word asks for.
fn asked_by(word: &str) -> Option<Asked>
    ensures { MatchOption result ((a : AnyAsked) → ¬ (word.now ≡ word_of a)) (λ a. word.now ≡ word_of a) }
{
    match word {
        "edges" => Some(Asked::Edges),
        "components" => Some(Asked::Components),
        "blocks" => Some(Asked::Blocks),
        "bipolar" => Some(Asked::Bipolar),
        _ => None,
    }
}

impl Command for Asked {
    ghost use Rattle.graph_parts.specs.Answer.{Told};

    type End = End;

    ghost asks = { Asks };

    ghost answers = { Told };

    /// What the words ask for: one word alone does.
    fn asked_of(words: &[String]) -> Option<Asked> {
        match words {
            [word] => asked_by(word.as_str()),
            _ => None,
        }
    }

    fn answer(self, alloc: Global, bytes: &[u8]) -> Result<(End, Vec<u8>), Memory> {
        answer_to(alloc, self, bytes)
    }
}
