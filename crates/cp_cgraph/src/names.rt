// The nodes that `vertex` entries name, and the homes of nodes.
ghost use Rattle.std.specs.Prelude.{◌≡◌, ◌++◌, [], map, IfOk, OnOk};
ghost use Rattle.cp_cgraph.specs.GraphFaults.{name_faults, names_faults};
ghost use Rattle.cp_cgraph.specs.GraphOf.{home_by};

use crate::clusters::Name;
use crate::fault::Fault;
use crate::hashes::digest_of_names;
use crate::ids::Ids;
use crate::kind::GraphKind;
use cp_base::{Items, Memory};
use std::alloc::Global;

// The id of a name.
fn id_of(name: &Name) -> i32
    ensures { result ≡ name.now.id }
{
    name.id
}

// Notes an id that no node has, or that is named already.
fn check_name(
    id: i32,
    at: usize,
    ids: &Ids,
    named: &Ids,
    faults: &mut Items<Fault>,
) -> Result<(), Memory>
    ensures { OnOk result (faults.new ≡ faults.old ++ name_faults ids.now named.now id at) }
{
    if ids.place(id).is_none() {
        faults.push((at, GraphKind::UnknownVertex))?;
    } else if named.place(id).is_some() {
        faults.push((at, GraphKind::VertexTwice))?;
    }
    Ok(())
}

// The ids of some names, in order. Notes what is wrong with them.
pub(crate) fn read_names(
    alloc: Global,
    names: &[Name],
    ids: &Ids,
    faults: &mut Items<Fault>,
) -> Result<Ids, Memory>
    ensures named { IfOk result (λ named. named ≡ map (λ m. m.id) names.now) }
    ensures faults { OnOk result (faults.new ≡ faults.old ++ names_faults ids.now [] names.now) }
{
    let mut named = Ids::new(alloc, digest_of_names(names));
    'names: for name in names {
        let id = id_of(name);
        check_name(id, name.at, ids, &named, faults)?;
        named = named.with(id)?;
    }
    Ok(named)
}

// The cluster of the first of the names with the id, or 0 where there is none.
fn home(names: &[Name], named: &Ids, id: i32) -> usize
    requires { named.now ≡ map (λ m. m.id) names.now }
    ensures { result ≡ home_by names.now id }
{
    match named.place(id) {
        None => 0,
        Some(place) => names[place].cluster,
    }
}

// The homes of the nodes with the ids.
pub(crate) fn homes(
    alloc: Global,
    ids: &[i32],
    names: &[Name],
    named: &Ids,
) -> Result<Vec<usize>, Memory>
    requires { named.now ≡ map (λ m. m.id) names.now }
    ensures { IfOk result (λ homes. homes.items ≡ map (home_by names.now) ids.now) }
{
    let mut homes = Vec::new(alloc);
    'homes: for id in ids {
        homes.push(home(names, named, *id))?;
    }
    Ok(homes)
}
