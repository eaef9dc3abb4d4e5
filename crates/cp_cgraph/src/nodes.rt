// Nodes of a graph list, with their ids.
ghost use Rattle.std.specs.Prelude.{◌≡◌, ◌++◌, [], IfOk, OnOk, codes};
ghost use Rattle.std.specs.List.{flat_map};
ghost use Rattle.cp_cgraph.specs.Entries.{keyed, first_id, id_value, placed};
ghost use Rattle.cp_cgraph.specs.GraphFaults.{id_faults, bad_id, node_faults, nodes_faults, ids_of_node};

use crate::entries::{from_first, has_key, id_value};
use crate::fault::{Fault, note_later};
use crate::ids::Ids;
use crate::kind::GraphKind;
use cp_base::{Items, Memory};
use cp_gml::{Entry, GmlValue};

// An id and the offset of its value.
pub(crate) type Placed = (i32, usize);

// The id of the first entry with the key. Notes what is wrong with the entries of that key.
pub(crate) fn read_id(
    entries: &[Entry],
    key: &[u8],
    missing: Fault,
    faults: &mut Items<Fault>,
) -> Result<Option<Placed>, Memory>
    ensures id { IfOk result (λ id. id ≡ first_id (keyed key.now entries.now)) }
    ensures faults { OnOk result (faults.new ≡ faults.old ++ id_faults missing (keyed key.now entries.now)) }
{
    match from_first(entries, key) {
        [] => {
            faults.push(missing)?;
            Ok(None)
        }
        [first, rest @ ..] => {
            let id = read_value(first, faults)?;
            note_later(rest, key, GraphKind::RepeatedKey, faults)?;
            Ok(id)
        }
    }
}

// The id of an entry. Notes a value that is no id.
fn read_value(entry: &Entry, faults: &mut Items<Fault>) -> Result<Option<Placed>, Memory>
    ensures id { IfOk result (λ id. id ≡ placed (id_value entry.now.value) entry.now.value_at) }
    ensures faults { OnOk result (faults.new ≡ faults.old ++ bad_id (placed (id_value entry.now.value) entry.now.value_at) entry.now.value_at) }
{
    match id_value(&entry.value) {
        Some(n) => Ok(Some((n, entry.value_at))),
        None => {
            faults.push((entry.value_at, GraphKind::BadId))?;
            Ok(None)
        }
    }
}

// Reads a node after those with the ids.
fn read_node(entry: &Entry, ids: Ids, faults: &mut Items<Fault>) -> Result<Ids, Memory>
    ensures ids { IfOk result (λ r. r ≡ ids ++ ids_of_node entry.now) }
    ensures faults { OnOk result (faults.new ≡ faults.old ++ node_faults ids entry.now) }
{
    let GmlValue::List(list) = &entry.value else {
        faults.push((entry.value_at, GraphKind::NotAList))?;
        return Ok(ids);
    };
    let missing = (entry.value_at, GraphKind::MissingId);
    match read_id(list.entries.items(), b"id", missing, faults)? {
        None => Ok(ids),
        Some((id, at)) => {
            if ids.place(id).is_some() {
                faults.push((at, GraphKind::DuplicateNode))?;
            }
            ids.with(id)
        }
    }
}

// Reads the nodes of a graph list after those with the ids.
pub(crate) fn read_nodes(
    entries: &[Entry],
    first: Ids,
    faults: &mut Items<Fault>,
) -> Result<Ids, Memory>
    ensures ids { IfOk result (λ ids. ids ≡ first ++ flat_map ids_of_node (keyed (codes "node") entries.now)) }
    ensures faults { OnOk result (faults.new ≡ faults.old ++ nodes_faults first (keyed (codes "node") entries.now)) }
{
    let mut ids = first;
    'nodes: for entry in entries {
        if has_key(entry, b"node") {
            ids = read_node(entry, ids, faults)?;
        }
    }
    Ok(ids)
}
