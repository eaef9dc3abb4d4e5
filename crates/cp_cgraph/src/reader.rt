// The clustered graph that a list says.
ghost use Rattle.std.specs.Prelude.{◌≡◌, [], IfOk, IfErr};
ghost use Rattle.cp_gml.specs.declared.tree.GmlList.{out-GmlList};
ghost use Rattle.cp_cgraph.specs.GraphFaults.{IfGraph, IsFaultOf, faults};
ghost use Rattle.cp_cgraph.specs.GraphOf.{IsGraphOf, graph_of};
ghost use Rattle.cp_cgraph.specs.Parts.{AreReadFrom};

use crate::clusters::{Clusters, Name};
use crate::edges::read_edges;
use crate::fault::{Fault, GraphFault, first_fault};
use crate::graph::CGraph;
use crate::hashes::digest_of_lists;
use crate::ids::Ids;
use crate::names::{homes, read_names};
use crate::nodes::read_nodes;
use crate::roots::{graph_list, read_roots};
use crate::stored::Stored;
use cp_base::{Items, Memory};
use cp_gml::{Entry, GmlList};
use std::alloc::Global;

// What is read of a list: the ids of its nodes, the ends of its edges, the parents of its clusters, the
// names of nodes and their ids, and all faults.
#[derive(Drop)]
struct Parts {
    ids: Ids,
    ends: Items<(usize, usize)>,
    parents: Items<usize>,
    names: Items<Name>,
    named: Ids,
    faults: Items<Fault>,
}

// Reads a list that ends at `end`.
fn read_parts(alloc: Global, entries: &[Entry], end: usize) -> Result<Parts, Memory>
    ensures { IfOk result (AreReadFrom end entries.now) }
{
    let mut known = Items::new(alloc);
    let graph = graph_list(entries, end, &mut known)?;
    let ids = read_nodes(graph, Ids::new(alloc, digest_of_lists(graph)), &mut known)?;
    let ends = read_edges(alloc, graph, &ids, &mut known)?;
    let Clusters {
        parents,
        names,
        mut faults,
    } = read_roots(alloc, entries, graph, known)?;
    let named = read_names(alloc, names.items(), &ids, &mut faults)?;
    Ok(Parts {
        ids,
        ends,
        parents,
        names,
        named,
        faults,
    })
}

// The tables of the graph of the parts of some entries.
fn tables(alloc: Global, parts: &Parts, end: usize, entries: &[Entry]) -> Result<Stored, Memory>
    requires { AreReadFrom end entries.now parts.now }
    ensures { IfOk result (λ g. g ≡ graph_of entries.now) }
{
    let ids = Vec::from_slice(alloc, parts.ids.ids())?;
    let ends = Vec::from_slice(alloc, parts.ends.items())?;
    let parents = Vec::from_slice(alloc, parts.parents.items())?;
    let homes = homes(alloc, parts.ids.ids(), parts.names.items(), &parts.named)?;
    Ok(Stored::new(ids, ends, parents, homes))
}

// The graph of the parts of some entries.
fn graph(alloc: Global, parts: &Parts, end: usize, entries: &[Entry]) -> Result<CGraph, Memory>
    requires { AreReadFrom end entries.now parts.now }
    ensures { IfOk result (λ g. g ≡ graph_of entries.now) }
{
    let stored = tables(alloc, parts, end, entries)?;
    CGraph::from_stored(alloc, stored)
}

// The clustered graph that a list says, or its first fault.
pub(crate) fn graph_or_fault(alloc: Global, list: &GmlList) -> Result<Result<CGraph, Fault>, Memory>
    ensures graph { IfOk result (λ said. IfOk said (IsGraphOf (out-GmlList list.now).end (out-GmlList list.now).entries)) }
    ensures fault { IfOk result (λ said. IfErr said (λ f. IsFaultOf (out-GmlList list.now).end (out-GmlList list.now).entries f.1 f.0)) }
{
    let entries = list.entries.items();
    let parts = read_parts(alloc, entries, list.end)?;
    match first_fault(parts.faults.items()) {
        Some(fault) => Ok(Err(fault)),
        None => Ok(Ok(graph(alloc, &parts, list.end, entries)?)),
    }
}

/// The clustered graph that a list of keys and values says (the format is Himsolt's GML, with clusters
/// in nested lists of their own), or its first fault. Memory linear in the number of entries, and time
/// linear in that number and the number of times that an edge leaves a cluster, on average; a call inside
/// the other for each cluster that is open. Ids are looked up by a hash (SipHash-1-3) that takes a digest of
/// all ids before each id.
///
/// Nodes and edges are the `node` and `edge` entries of the first `graph` entry, and are numbered in
/// their order; an edge names its ends by the ids of nodes, which may stand after it. The root list is
/// the value of the first `rootcluster` entry, at depth 0 or in the graph list, in reading order. Each
/// list has its clusters in its `cluster` entries, which are numbered in the order in which they are
/// opened, and names the nodes whose home it is in its `vertex` entries. A node that is not named has
/// the root, cluster 0, as its home. All other keys are skipped.
///
/// # Errors
///
/// `Graph` exactly where the list has faults: the one of least offset, and among these of least kind.
/// `Memory` where an allocation fails.
pub fn build(alloc: Global, list: &GmlList) -> Result<CGraph, GraphFault>
    ensures graph { IfOk result (IsGraphOf (out-GmlList list.now).end (out-GmlList list.now).entries) }
    ensures fault { IfErr result (λ e. IfGraph e (IsFaultOf (out-GmlList list.now).end (out-GmlList list.now).entries)) }
{
    match graph_or_fault(alloc, list)? {
        Ok(graph) => Ok(graph),
        Err((at, kind)) => Err(GraphFault::Graph {
            kind: kind.number(),
            at,
        }),
    }
}
