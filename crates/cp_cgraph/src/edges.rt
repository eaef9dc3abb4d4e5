// Edges of a graph list, with their ends.
ghost use Rattle.std.specs.Prelude.{◌≡◌, ◌++◌, [], Some, IfOk, OnOk, codes};
ghost use Rattle.std.specs.List.{flat_map, position};
ghost use Rattle.std.specs.Ordering.{int_eq};
ghost use Rattle.cp_cgraph.specs.Entries.{keyed, first_id};
ghost use Rattle.cp_cgraph.specs.GraphFaults.{end_faults, edge_faults, unknown_end};
ghost use Rattle.cp_cgraph.specs.GraphOf.{node_of_id, ends_of_edge};

use crate::entries::has_key;
use crate::fault::Fault;
use crate::ids::Ids;
use crate::kind::GraphKind;
use crate::nodes::read_id;
use cp_base::{Items, Memory};
use cp_gml::{Entry, GmlValue};
use std::alloc::Global;

// The node that the first entry with the key names. Notes what is wrong with the entries of that key.
// The edge's bracket stands at `at`.
fn read_end(
    entries: &[Entry],
    key: &[u8],
    at: usize,
    ids: &Ids,
    faults: &mut Items<Fault>,
) -> Result<Option<usize>, Memory>
    ensures end { IfOk result (λ node. node ≡ node_of_id ids.now (first_id (keyed key.now entries.now))) }
    ensures faults { OnOk result (faults.new ≡ faults.old ++ end_faults ids.now at (keyed key.now entries.now)) }
{
    match read_id(entries, key, (at, GraphKind::MissingEnd), faults)? {
        None => Ok(None),
        Some((id, id_at)) => find_node(id, id_at, ids, faults),
    }
}

// The node with the id, whose value stands at `at`. Notes an id that no node has.
fn find_node(
    id: i32,
    at: usize,
    ids: &Ids,
    faults: &mut Items<Fault>,
) -> Result<Option<usize>, Memory>
    ensures end { IfOk result (λ node. node ≡ position (int_eq id) ids.now) }
    ensures faults { OnOk result (faults.new ≡ faults.old ++ unknown_end ids.now (Some (id, at))) }
{
    let node = ids.place(id);
    if node.is_none() {
        faults.push((at, GraphKind::UnknownEnd))?;
    }
    Ok(node)
}

// Reads an edge.
fn read_edge(
    entry: &Entry,
    ids: &Ids,
    ends: &mut Items<(usize, usize)>,
    faults: &mut Items<Fault>,
) -> Result<(), Memory>
    ensures ends { OnOk result (ends.new ≡ ends.old ++ ends_of_edge ids.now entry.now) }
    ensures faults { OnOk result (faults.new ≡ faults.old ++ edge_faults ids.now entry.now) }
{
    let GmlValue::List(list) = &entry.value else {
        faults.push((entry.value_at, GraphKind::NotAList))?;
        return Ok(());
    };
    let entries = list.entries.items();
    let source = read_end(entries, b"source", entry.value_at, ids, faults)?;
    let target = read_end(entries, b"target", entry.value_at, ids, faults)?;
    if let (Some(v), Some(w)) = (source, target) {
        ends.push((v, w))?;
    }
    Ok(())
}

// The ends of the edges of a graph list whose nodes have the ids.
pub(crate) fn read_edges(
    alloc: Global,
    entries: &[Entry],
    ids: &Ids,
    faults: &mut Items<Fault>,
) -> Result<Items<(usize, usize)>, Memory>
    ensures ends { IfOk result (λ ends. ends ≡ flat_map (ends_of_edge ids.now) (keyed (codes "edge") entries.now)) }
    ensures faults { OnOk result (faults.new ≡ faults.old ++ flat_map (edge_faults ids.now) (keyed (codes "edge") entries.now)) }
{
    let mut ends = Items::new(alloc);
    'edges: for entry in entries {
        if has_key(entry, b"edge") {
            read_edge(entry, ids, &mut ends, faults)?;
        }
    }
    Ok(ends)
}
