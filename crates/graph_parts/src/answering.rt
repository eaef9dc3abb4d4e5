// The answer to all bytes of an input.
ghost use Rattle.std.specs.Prelude.{IfOk};
ghost use Rattle.graph_parts.specs.Answer.{Told};

use crate::ask::Asked;
use crate::end::End;
use crate::graph::graph_of;
use crate::numbers::numbers_of;
use crate::texts;
use cp_base::Memory;
use cp_cgraph::TextFault;
use std::alloc::Global;

/// The end and its text. Linear on average in the number of bytes.
pub fn answer_to(alloc: Global, asked: Asked, bytes: &[u8]) -> Result<(End, Vec<u8>), Memory>
    ensures { IfOk result (λ a. Told asked bytes.now a.0 a.1.items) }
{
    match graph_of(alloc, bytes) {
        Ok(g) => match numbers_of(alloc, asked, &g)? {
            Some(numbers) => Ok((End::Done, texts::number_text(alloc, numbers.as_slice())?)),
            None => Ok((End::Unfit, Vec::from_slice(alloc, texts::UNFIT)?)),
        },
        Err(TextFault::Grammar { kind, at }) => {
            let number = kind.number();
            let line = texts::refused(alloc, number, at)?;
            Ok((End::Refused { kind: number, at }, line))
        }
        Err(TextFault::Graph { kind, at }) => {
            let number = kind.number();
            let line = texts::refused(alloc, number, at)?;
            Ok((End::Refused { kind: number, at }, line))
        }
        Err(TextFault::Memory) => Err(Memory),
    }
}
