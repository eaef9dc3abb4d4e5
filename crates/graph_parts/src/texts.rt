// The lines that a run writes.
ghost use Rattle.std.specs.Prelude.{◌≡◌, IfOk, string_bytes};
ghost use Rattle.graph_parts.specs.Texts.{number_lines, refused_line};

use cp_base::Memory;
use std::alloc::Global;

pub const USAGE: &[u8] = b"usage: graph_parts edges|components|blocks|bipolar\n";

pub const UNFIT: &[u8] = b"no answer\n";

/// The line of a fault of the text.
pub fn refused(alloc: Global, kind: u8, at: usize) -> Result<Vec<u8>, Memory>
    ensures { IfOk result (λ text. text.items ≡ refused_line kind at) }
{
    Ok(format!(in alloc; "refused {kind} at {at}\n")?.into_bytes())
}

/// A line for each number. Linear in the length of the text.
pub fn number_text(alloc: Global, numbers: &[usize]) -> Result<Vec<u8>, Memory>
    ensures { IfOk result (λ text. text.items ≡ number_lines numbers.now) }
{
    let mut text = String::new(alloc);
    for number in numbers {
        writeln!(text, "{number}")?;
    }
    Ok(text.into_bytes())
}
