// Nested clusters, and what their edges cross.
use crate::{CGraph, GraphFault, build, one_graph};
use cp_base::Memory;
use cp_gml::parse;
use std::alloc::Global;
use std::process::Abort;

type Parts = (
    &'static [i32],
    &'static [(usize, usize)],
    &'static [usize],
    &'static [usize],
);

// The crossings of the last edge, and the edges that leave the last cluster.
fn crossed(alloc: Global, text: &[u8]) -> Result<(Vec<usize>, Vec<usize>), Memory> {
    let Ok(list) = parse(alloc, text) else {
        return Err(Memory);
    };
    let Ok(g) = build(alloc, &list) else {
        return Err(Memory);
    };
    if g.edges() == 0 {
        return Err(Memory);
    }
    let crossings = g.crossings(alloc, g.edges() - 1)?;
    let leaving = g.leaving(alloc, g.clusters() - 1)?;
    Ok((crossings, leaving))
}

#[test]
fn clusters_are_left_outward_and_entered_inward(rt: HostRuntime) {
    let alloc = rt.alloc();
    let rows: [(&[u8], &[usize], &[usize]); 7] = [
        (
            b"rootcluster [ cluster [ cluster [ vertex 1 ] ] ] graph [ node [ id 1 ] node [ id 2 ] edge [ source 1 target 1 ] edge [ source 1 target 2 ] edge [ source 1 target 2 ] ]",
            &[2, 1],
            &[1, 2],
        ),
        (
            b"rootcluster [ cluster [ cluster [ vertex 1 ] ] cluster [ cluster [ vertex 2 ] ] ] graph [ node [ id 1 ] node [ id 2 ] edge [ source 1 target 2 ] ]",
            &[2, 1, 3, 4],
            &[0],
        ),
        (
            b"rootcluster [ cluster [ cluster [ vertex 1 ] cluster [ vertex 2 ] ] ] graph [ node [ id 1 ] node [ id 2 ] edge [ source 2 target 1 ] ]",
            &[3, 2],
            &[0],
        ),
        (
            b"rootcluster [ cluster [ vertex 1 vertex 2 ] cluster [ ] ] graph [ node [ id 1 ] node [ id 2 ] edge [ source 2 target 1 ] ]",
            &[],
            &[],
        ),
        (
            b"graph [ node [ id 1 ] node [ id 2 ] edge [ source 1 target 2 ] rootcluster [ cluster [ vertex 1 ] ] ]",
            &[1],
            &[0],
        ),
        (
            b"graph [ node [ id 1 ] node [ id 2 ] node [ id 3 ] edge [ source 1 target 2 ] ] rootcluster [ cluster [ vertex 1 vertex 2 vertex 3 ] ]",
            &[],
            &[],
        ),
        (
            b"graph [ node [ id 7 ] edge [ source 7 target 7 ] ]",
            &[],
            &[],
        ),
    ];
    for (text, crossings, leaving) in rows {
        match crossed(alloc, text) {
            Ok((found, left)) => {
                assert_eq!(rt; found.as_slice(), crossings);
                assert_eq!(rt; left.as_slice(), leaving);
            }
            Err(_) => assert!(rt; false, "no graph"),
        }
    }
}

// Whether the nodes have these ids and homes.
fn has_nodes(g: &CGraph, ids: &[i32], homes: &[usize]) -> bool {
    if ids.len() != g.nodes() || homes.len() != g.nodes() {
        return false;
    }
    for v in 0..g.nodes() {
        if g.id(v) != ids[v] || g.home(v) != homes[v] {
            return false;
        }
    }
    true
}

// Whether the edges have these ends.
fn has_edges(g: &CGraph, ends: &[(usize, usize)]) -> bool {
    if ends.len() != g.edges() {
        return false;
    }
    for e in 0..g.edges() {
        if g.ends(e) != ends[e] {
            return false;
        }
    }
    true
}

// Whether the clusters inside the root have these parents.
fn has_clusters(g: &CGraph, parents: &[usize]) -> bool {
    if parents.len() + 1 != g.clusters() {
        return false;
    }
    for c in 1..g.clusters() {
        if g.parent(c) != parents[c - 1] {
            return false;
        }
    }
    true
}

// Whether the text says the graph of these tables.
fn says(alloc: Global, text: &[u8], parts: Parts) -> bool {
    let (ids, ends, parents, homes) = parts;
    let Ok(list) = parse(alloc, text) else {
        return false;
    };
    match build(alloc, &list) {
        Ok(g) => has_nodes(&g, ids, homes) && has_edges(&g, ends) && has_clusters(&g, parents),
        Err(_) => false,
    }
}

// Whether this is the first fault of the text.
fn fails(alloc: Global, text: &[u8], kind: u8, at: usize) -> bool {
    let Ok(list) = parse(alloc, text) else {
        return false;
    };
    match build(alloc, &list) {
        Ok(_) => false,
        Err(fault) => fault == GraphFault::Graph { kind, at },
    }
}

#[test]
fn texts_have_the_first_faults_of_the_table(rt: HostRuntime) {
    let alloc = rt.alloc();
    let rows: [(&[u8], u8, usize); 24] = [
        (b"", 10, 0),
        (b"graph [ ] graph [ ]", 11, 10),
        (b"graph [ ] graph [ rootcluster 5 ]", 11, 10),
        (b"graph 5", 12, 6),
        (b"graph [ node 5 ]", 12, 13),
        (b"graph [ ] rootcluster 5", 12, 22),
        (b"graph [ ] rootcluster [ cluster 5 ]", 12, 32),
        (b"graph [ node [ ] ]", 13, 13),
        (b"graph [ node [ id 1 id 2 ] ]", 14, 20),
        (
            b"graph [ node [ id 1 ] edge [ source 1 target 1 source 2 ] ]",
            14,
            47,
        ),
        (b"graph [ node [ id \"1\" ] ]", 15, 18),
        (b"graph [ node [ id 2147483648 ] ]", 15, 18),
        (b"graph [ ] rootcluster [ vertex \"w1\" ]", 15, 31),
        (b"graph [ ] rootcluster [ vertex \"V1\" ]", 15, 31),
        (b"graph [ ] rootcluster [ vertex \"\" ]", 15, 31),
        (b"graph [ node [ id 1 ] node [ id 1 ] ]", 16, 32),
        (
            b"graph [ node [ id 4 ] edge [ source 4 target 9 ] ] rootcluster [ vertex 4 cluster [ vertex 4 ] ]",
            17,
            45,
        ),
        (b"graph [ ] rootcluster [ ] rootcluster [ ]", 18, 26),
        (b"graph [ rootcluster [ ] ] rootcluster [ ]", 18, 26),
        (b"rootcluster [ ] graph [ rootcluster [ ] ]", 18, 24),
        (b"graph [ ] rootcluster [ vertex 7 ]", 19, 31),
        (
            b"rootcluster [ vertex 4 cluster [ vertex 4 ] ] graph [ node [ id 4 ] edge [ source 4 target 9 ] ]",
            20,
            40,
        ),
        (
            b"graph [ node [ id 4 ] ] rootcluster [ vertex 4 vertex \"v4\" ]",
            20,
            54,
        ),
        (b"graph [ edge [ ] ]", 21, 13),
    ];
    for (text, kind, at) in rows {
        assert!(rt;
            fails(alloc, text, kind, at),
            "{text:?}: not {kind} at {at}"
        );
    }
    one_graph();
}

#[test]
fn texts_say_the_graphs_of_the_table(rt: HostRuntime) {
    let alloc = rt.alloc();
    let rows: [(&[u8], Parts); 5] = [
        (b"graph [ ]", (&[], &[], &[], &[])),
        (
            b"# exported graph\nCreator \"a graph tool\"\ngraph [\n  directed 1\n  node [\n    id 0\n    label \"a\"\n    graphics [ x 10.5 y -3.0E+1 w 20 fill \"#FFFFFF\" ]\n  ]\n  node [ id 1 label \"b\" ]\n  edge [ source 0 target 1 graphics [ type \"line\" width 1.0 ] ]\n]\nrootcluster [\n  vertex \"1\"\n  cluster [ id 1 label \"c\" vertex \"v0\" ]\n]\n",
            (&[0, 1], &[(0, 1)], &[0], &[1, 0]),
        ),
        (
            b"rootcluster [ cluster [ cluster [ vertex 7 ] ] cluster [ vertex \"v-5\" ] ] graph [ edge [ source 7 target -5 ] edge [ source -5 target -5 ] node [ id -5 ] node [ id 7 ] node [ id 9 ] ]",
            (&[-5, 7, 9], &[(1, 0), (0, 0)], &[0, 1, 0], &[3, 2, 0]),
        ),
        (
            b"graph [ node [ id -2147483648 ] node [ id 2147483647 ] edge [ source 2147483647 target -2147483648 ] ] rootcluster [ vertex \"v-2147483648\" ]",
            (&[-2_147_483_648, 2_147_483_647], &[(1, 0)], &[], &[0, 0]),
        ),
        (
            b"graph [ node [ id 1 ] rootcluster [ cluster [ vertex 1 ] ] ]",
            (&[1], &[], &[0], &[1]),
        ),
    ];
    for (text, parts) in rows {
        assert!(rt; says(alloc, text, parts), "{text:?}: another graph");
    }
}
