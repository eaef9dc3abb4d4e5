// Nested clusters, and what names nodes in them.
ghost use Rattle.std.specs.Prelude.{◌≡◌, [], ◌∷◌, OnOk};
ghost use Rattle.cp_gml.specs.Trees.{tree};
ghost use Rattle.cp_gml.specs.declared.tree.GmlList.{out-GmlList};
ghost use Rattle.cp_cgraph.specs.Passes.{read, with_name};
ghost use Rattle.cp_cgraph.specs.Entries.{vertex_id};

use crate::entries::{has_key, vertex_id};
use crate::fault::Fault;
use crate::kind::GraphKind;
use cp_base::{Items, Memory};
use cp_gml::{Entry, GmlList, GmlValue};

// A `vertex` entry of the list of a cluster: the id that it has, and the offset of the value.
#[derive(Clone, Copy, Debug)]
pub(crate) struct Name {
    pub cluster: usize,
    pub id: i32,
    pub at: usize,
}

// What has been read of nested clusters: the parents of those that were opened inside the root, the
// names of nodes, and the faults.
#[derive(Debug, Drop)]
pub(crate) struct Clusters {
    pub parents: Items<usize>,
    pub names: Items<Name>,
    pub faults: Items<Fault>,
}

// Reads an entry of the list of a cluster.
#[cycle(walk)]
fn read_entry(entry: &Entry, cluster: usize, out: &mut Clusters) -> Result<(), Memory>
    ensures { OnOk result (out.new ≡ read cluster (tree (entry.now ∷ [])) out.old) }
{
    if has_key(entry, b"cluster") {
        if let GmlValue::List(list) = &entry.value {
            out.parents.push(cluster)?;
            read_list(list, out.parents.len(), out)?;
        } else {
            out.faults.push((entry.value_at, GraphKind::NotAList))?;
        }
    } else if has_key(entry, b"vertex") {
        read_name(entry, cluster, out)?;
    }
    Ok(())
}

// Reads the list of a cluster.
#[cycle(walk)]
pub(crate) fn read_list(list: &GmlList, cluster: usize, out: &mut Clusters) -> Result<(), Memory>
    ensures { OnOk result (out.new ≡ read cluster (tree (out-GmlList list.now).entries) out.old) }
{
    'entries: for entry in list.entries.items() {
        read_entry(entry, cluster, out)?;
    }
    Ok(())
}

// Reads a `vertex` entry.
fn read_name(entry: &Entry, cluster: usize, out: &mut Clusters) -> Result<(), Memory>
    ensures { OnOk result (out.new ≡ with_name cluster (vertex_id entry.now.value) entry.now.value_at out.old) }
{
    match vertex_id(&entry.value) {
        Some(id) => out.names.push(Name {
            cluster,
            id,
            at: entry.value_at,
        }),
        None => out.faults.push((entry.value_at, GraphKind::BadId)),
    }
}
