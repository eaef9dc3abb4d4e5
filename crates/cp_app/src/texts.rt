// The lines that a run writes.
ghost use Rattle.std.specs.Prelude.{◌≡◌, IfOk};
ghost use Rattle.cp_gml.specs.Kinds.{grammar_name, grammar_number};
ghost use Rattle.cp_cgraph.specs.Kinds.{graph_name, graph_number};
ghost use Rattle.cp_app.specs.Texts.{bad_report_line, refused_line, rejected_line};

use cp_base::Memory;
use cp_cgraph::GraphKind;
use cp_check::Reject;
use cp_gml::GrammarKind;
use std::alloc::Global;

pub(crate) const USAGE: &[u8] = b"usage: cplan COMMAND [N]\n";

pub(crate) const ACCEPTED: &[u8] = b"accepted\n";

/// The line that tells why a layout is rejected.
pub(crate) fn rejected(alloc: Global, reason: Reject) -> Result<Vec<u8>, Memory>
    ensures { IfOk result (λ text. text.items ≡ rejected_line reason) }
{
    match reason {
        Reject::NoLayout => Ok(format!(in alloc; "rejected no layout\n")?.into_bytes()),
        Reject::NodeLine(node) => Ok(format!(in alloc; "rejected node {node}\n")?.into_bytes()),
        Reject::ClusterLine(cluster) => {
            Ok(format!(in alloc; "rejected cluster {cluster}\n")?.into_bytes())
        }
        Reject::Genus { v, e, f, c } => {
            Ok(format!(in alloc; "rejected genus v {v} e {e} f {f} c {c}\n")?.into_bytes())
        }
    }
}

/// The line of a report at fault.
pub(crate) fn bad_report(alloc: Global, kind: u8, line: usize) -> Result<Vec<u8>, Memory>
    ensures { IfOk result (λ text. text.items ≡ bad_report_line kind line) }
{
    Ok(format!(in alloc; "bad report {kind} line {line}\n")?.into_bytes())
}

// The line of a fault with its name.
fn refused(alloc: Global, kind: u8, name: &str, at: usize) -> Result<Vec<u8>, Memory>
    ensures { IfOk result (λ text. text.items ≡ refused_line name.now kind at) }
{
    Ok(format!(in alloc; "refused {kind} {name} at {at}\n")?.into_bytes())
}

/// The line of a grammar fault.
pub(crate) fn grammar_fault(alloc: Global, kind: GrammarKind, at: usize) -> Result<Vec<u8>, Memory>
    ensures { IfOk result (λ text. text.items ≡ refused_line (grammar_name kind) (grammar_number kind) at) }
{
    refused(alloc, kind.number(), kind.name(), at)
}

/// The line of a graph fault.
pub(crate) fn graph_fault(alloc: Global, kind: GraphKind, at: usize) -> Result<Vec<u8>, Memory>
    ensures { IfOk result (λ text. text.items ≡ refused_line (graph_name kind) (graph_number kind) at) }
{
    refused(alloc, kind.number(), kind.name(), at)
}
