// The graph list and the root list.
ghost use Rattle.std.specs.Prelude.{◌≡◌, ◌++◌, [], ◌∷◌, drop, IfOk, OnOk, codes};
ghost use Rattle.std.specs.Option.{option_copied};
ghost use Rattle.cp_gml.specs.Trees.{tree};
ghost use Rattle.cp_cgraph.specs.Entries.{keyed};
ghost use Rattle.cp_cgraph.specs.GraphFaults.{graph_list, graph_faults, list_of_first, unlisted, roots, root_faults, root_tree};
ghost use Rattle.cp_cgraph.specs.Passes.{first_of, later_of, unlisted_of, list_in, read};

use crate::clusters::{Clusters, read_list};
use crate::entries::{from_first, until};
use crate::fault::{Fault, note_later};
use crate::kind::GraphKind;
use cp_base::{Items, Memory};
use cp_gml::{Entry, GmlValue};
use std::alloc::Global;

// The entries of the value of an entry. Notes a value that is no list.
fn list_of<'a>(entry: &'a Entry, faults: &mut Items<Fault>) -> Result<&'a [Entry], Memory>
    ensures list { IfOk result (λ list. list.now ≡ list_of_first (entry.now ∷ [])) }
    ensures faults { OnOk result (faults.new ≡ faults.old ++ unlisted entry.now) }
{
    match &entry.value {
        GmlValue::List(list) => Ok(list.entries.items()),
        _ => {
            faults.push((entry.value_at, GraphKind::NotAList))?;
            Ok(&[])
        }
    }
}

// The graph list of a list that ends at `end`. Notes what is wrong with the `graph` entries.
pub(crate) fn graph_list<'a>(
    entries: &'a [Entry],
    end: usize,
    faults: &mut Items<Fault>,
) -> Result<&'a [Entry], Memory>
    ensures list { IfOk result (λ list. list.now ≡ graph_list entries.now) }
    ensures faults { OnOk result (faults.new ≡ faults.old ++ graph_faults end (keyed (codes "graph") entries.now)) }
{
    match from_first(entries, b"graph") {
        [] => {
            faults.push((end, GraphKind::NoGraph))?;
            Ok(&[])
        }
        [first, rest @ ..] => {
            let list = list_of(first, faults)?;
            note_later(rest, b"graph", GraphKind::SecondGraph, faults)?;
            Ok(list)
        }
    }
}

// The first `rootcluster` entry, which may be found already. Notes the others.
fn first_root<'a>(
    found: Option<&'a Entry>,
    entries: &'a [Entry],
    faults: &mut Items<Fault>,
) -> Result<Option<&'a Entry>, Memory>
    ensures root { IfOk result (λ root. option_copied root ≡ first_of (option_copied found.entry) (keyed (codes "rootcluster") entries.now)) }
    ensures faults { OnOk result (faults.new ≡ faults.old ++ later_of (option_copied found.entry) (keyed (codes "rootcluster") entries.now)) }
{
    if found.is_some() {
        note_later(entries, b"rootcluster", GraphKind::SecondRoot, faults)?;
        return Ok(found);
    }
    match from_first(entries, b"rootcluster") {
        [] => Ok(None),
        [first, rest @ ..] => {
            note_later(rest, b"rootcluster", GraphKind::SecondRoot, faults)?;
            Ok(Some(first))
        }
    }
}

// The clusters of the root list that an entry gives, behind the faults that are known.
fn read_root(alloc: Global, root: Option<&Entry>, faults: Items<Fault>) -> Result<Clusters, Memory>
    ensures { IfOk result (λ out. out ≡ read 0 (tree (list_in (option_copied root.entry))) record { parents = []; names = []; faults = faults ++ unlisted_of (option_copied root.entry) }) }
{
    let mut out = Clusters {
        parents: Items::new(alloc),
        names: Items::new(alloc),
        faults,
    };
    let Some(entry) = root else {
        return Ok(out);
    };
    match &entry.value {
        GmlValue::List(list) => read_list(list, 0, &mut out)?,
        _ => out.faults.push((entry.value_at, GraphKind::NotAList))?,
    }
    Ok(out)
}

// The entries behind the first one.
fn behind_first(entries: &[Entry]) -> &[Entry]
    ensures { result.now ≡ drop 1 entries.now }
{
    match entries {
        [] => entries,
        [_, rest @ ..] => rest,
    }
}

// The clusters of a list with this graph list, behind the faults that are known.
pub(crate) fn read_roots(
    alloc: Global,
    entries: &[Entry],
    graph: &[Entry],
    known: Items<Fault>,
) -> Result<Clusters, Memory>
    requires { graph.now ≡ graph_list entries.now }
    ensures { IfOk result (λ out. out ≡ read 0 (root_tree entries.now) record { parents = []; names = []; faults = known ++ root_faults (roots entries.now) }) }
{
    let mut faults = known;
    let place = until(entries, b"graph");
    let before = first_root(None, &entries[..place], &mut faults)?;
    let inside = first_root(before, graph, &mut faults)?;
    let root = first_root(inside, behind_first(&entries[place..]), &mut faults)?;
    read_root(alloc, root, faults)
}
