// Border graphs of graphs that are read from text.
use crate::{BorderFault, border_rot};
use cp_base::{CycList, Memory};
use cp_cgraph::{CycLists, Layout, build};
use cp_gml::parse;
use std::alloc::Global;

// A loop and two parallel edges from a node two clusters deep to one outside.
const NESTED: &[u8] =
    b"graph [ node [ id 1 ] node [ id 2 ] edge [ source 1 target 1 ] edge [ source 1 target 2 ] edge [ source 1 target 2 ] ] rootcluster [ cluster [ cluster [ vertex 1 ] ] ]";

type Lists = &'static [&'static [usize]];

// Cyclic lists of these items.
fn cyclic(alloc: Global, lists: &[&[usize]]) -> Result<CycLists, Memory> {
    let mut all = CycLists::new(alloc);
    for list in lists {
        all.push(CycList::from_slice(alloc, list)?)?;
    }
    Ok(all)
}

// The numbers of vertices and darts of the border graph.
fn sizes(
    alloc: Global,
    nodes: &[&[usize]],
    clusters: &[&[usize]],
) -> Result<(usize, usize), BorderFault> {
    let list = match parse(alloc, NESTED) {
        Ok(list) => list,
        Err(_) => return Err(BorderFault::Memory),
    };
    let g = match build(alloc, &list) {
        Ok(g) => g,
        Err(_) => return Err(BorderFault::Memory),
    };
    let lay = Layout {
        nodes: cyclic(alloc, nodes)?,
        clusters: cyclic(alloc, clusters)?,
    };
    let rot = border_rot(alloc, &g, &lay)?;
    Ok((rot.vertices(), rot.darts()))
}

#[test]
fn first_wrong_line_is_told(rt: HostRuntime) {
    let alloc = rt.alloc();
    let rows: [(Lists, Lists, Result<(usize, usize), BorderFault>); 6] = [
        (&[&[0, 1, 2, 4], &[3, 5]], &[&[1, 2], &[1, 2]], Ok((6, 22))),
        (
            &[&[0, 1, 2, 4]],
            &[&[1, 2], &[1, 2]],
            Err(BorderFault::Node(1)),
        ),
        (
            &[&[0, 1, 2, 2], &[3, 5]],
            &[&[1, 2]],
            Err(BorderFault::Node(0)),
        ),
        (
            &[&[0, 1, 2, 4], &[3, 5]],
            &[&[1, 2]],
            Err(BorderFault::Cluster(2)),
        ),
        (
            &[&[0, 1, 2, 4], &[3, 5]],
            &[&[1, 1], &[]],
            Err(BorderFault::Cluster(1)),
        ),
        (
            &[&[0, 1, 2, 4], &[3, 5]],
            &[&[2, 1], &[1, 2], &[]],
            Err(BorderFault::Cluster(3)),
        ),
    ];
    for (nodes, clusters, expected) in rows {
        assert_eq!(rt; sizes(alloc, nodes, clusters), expected);
    }
}
