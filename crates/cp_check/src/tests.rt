// What no clause says: that memory suffices for graphs that are read from text, and their verdicts.
use crate::{Reject, Scratch, Verdict, check};
use cp_base::Memory;
use cp_cgraph::{CGraph, build};
use cp_gml::parse;
use cp_report::read_report;
use std::alloc::Global;
use std::test::Fail;

const CYCLE: &str =
    "graph [ node [ id 1 ] node [ id 2 ] node [ id 3 ] node [ id 4 ]\nedge [ source 1 target 2 ] edge [ source 3 target 4 ]\nedge [ source 2 target 3 ] edge [ source 4 target 1 ] ]\nrootcluster [ cluster [ vertex 1 vertex 3 ] ]\n";

// Graphs and reports, each with its verdict.
const ROWS: [(&str, &str, Verdict); 11] = [
    // an empty cluster beside isolated nodes: each node is a face and a component of its own
    (
        "graph [ node [ id 1 ] node [ id 2 ] node [ id 3 ] rootcluster [ cluster [ ] ] ]",
        "cplan-report 1\nyes\nnode 0:\nnode 1:\nnode 2:\ncluster 1:\nend\n",
        Verdict::Accepted,
    ),
    // one edge leaves a cluster: its border is a loop
    (
        "graph [ node [ id 1 ] node [ id 2 ] edge [ source 1 target 2 ] rootcluster [ cluster [ vertex 1 ] ] ]",
        "cplan-report 1\nyes\nnode 0: 0s\nnode 1: 0t\ncluster 1: 0\nend\n",
        Verdict::Accepted,
    ),
    // clusters that no edge leaves
    (
        "graph [ node [ id 1 ] node [ id 2 ] edge [ source 1 target 2 ] ] rootcluster [ cluster [ cluster [ cluster [ vertex 1 vertex 2 ] ] ] ]",
        "cplan-report 1\nyes\nnode 0: 0s\nnode 1: 0t\ncluster 1:\ncluster 2:\ncluster 3:\nend\n",
        Verdict::Accepted,
    ),
    // a loop, and parallel edges that cross two nested borders
    (
        "graph [ node [ id 1 ] node [ id 2 ]\nedge [ source 1 target 1 ]\nedge [ source 1 target 2 ] edge [ source 1 target 2 ]\nrootcluster [ cluster [ cluster [ vertex 1 ] ] ] ]\n",
        "cplan-report 1\nyes\nnode 0: 0s 0t 1s 2s\nnode 1: 1t 2t\ncluster 1: 1 2\ncluster 2: 1 2\nend\n",
        Verdict::Accepted,
    ),
    (
        CYCLE,
        "cplan-report 1\nyes\nnode 0: 0s 3t\nnode 1: 0t 2s\nnode 2: 1s 2t\nnode 3: 1t 3s\ncluster 1: 0 1 2\nend\n",
        Verdict::Rejected(Reject::ClusterLine(1)),
    ),
    ("graph [ ]", "cplan-report 1\nyes\nend\n", Verdict::Accepted),
    (
        "graph [ ]",
        "cplan-report 1\nno\nend\n",
        Verdict::Rejected(Reject::NoLayout),
    ),
    // a list or a cluster line too many, and a node line before a cluster line
    (
        "graph [ node [ id 7 ] ]",
        "cplan-report 1\nyes\nnode 0:\nnode 1:\nend\n",
        Verdict::Rejected(Reject::NodeLine(1)),
    ),
    (
        "graph [ ]",
        "cplan-report 1\nyes\ncluster 1:\nend\n",
        Verdict::Rejected(Reject::ClusterLine(1)),
    ),
    (
        "graph [ node [ id 7 ] rootcluster [ cluster [ ] ] ]",
        "cplan-report 1\nyes\nend\n",
        Verdict::Rejected(Reject::NodeLine(0)),
    ),
    // three edges between two nodes, in one order at both
    (
        "graph [ node [ id 1 ] node [ id 2 ] edge [ source 1 target 2 ] edge [ source 1 target 2 ] edge [ source 1 target 2 ] ]",
        "cplan-report 1\nyes\nnode 0: 0s 1s 2s\nnode 1: 0t 1t 2t\nend\n",
        Verdict::Rejected(Reject::Genus {
            v: 2,
            e: 3,
            f: 1,
            c: 1,
        }),
    ),
];

// Layouts of the cycle of four, in which opposite nodes make a cluster, by its border list: one that
// is good, one in another order, and the good one again from another item on.
const ORDERS: [(&str, Verdict); 3] = [
    (
        "cplan-report 1\nyes\nnode 0: 0s 3t\nnode 1: 0t 2s\nnode 2: 1s 2t\nnode 3: 1t 3s\ncluster 1: 0 2 1 3\nend\n",
        Verdict::Accepted,
    ),
    (
        "cplan-report 1\nyes\nnode 0: 0s 3t\nnode 1: 0t 2s\nnode 2: 1s 2t\nnode 3: 1t 3s\ncluster 1: 0 1 2 3\nend\n",
        Verdict::Rejected(Reject::Genus {
            v: 8,
            e: 12,
            f: 4,
            c: 1,
        }),
    ),
    (
        "cplan-report 1\nyes\nnode 0: 0s 3t\nnode 1: 0t 2s\nnode 2: 1s 2t\nnode 3: 1t 3s\ncluster 1: 1 3 0 2\nend\n",
        Verdict::Accepted,
    ),
];

// The graph of a text. Other texts answer as if memory were wanting.
pub(crate) fn graph_of(alloc: Global, text: &str) -> Result<CGraph, Memory> {
    match parse(alloc, text.as_bytes()) {
        Ok(list) => build(alloc, &list).ok().ok_or(Memory),
        Err(_) => Err(Memory),
    }
}

// The verdict on the report of a text, or `None` where the scratch does not fit.
fn judged(
    alloc: Global,
    g: &CGraph,
    text: &str,
    s: &mut Scratch,
) -> Result<Option<Verdict>, Memory> {
    match read_report(alloc, text.as_bytes()) {
        Ok((report, _)) => {
            if s.fits(g) {
                Ok(Some(check(g, &report, s)))
            } else {
                Ok(None)
            }
        }
        Err(_) => Err(Memory),
    }
}

#[test]
fn reports_are_judged(rt: HostRuntime) -> Result<(), Fail> {
    for (graph, report, verdict) in ROWS {
        let g = graph_of(rt.alloc(), graph)?;
        let mut s = Scratch::for_graph(rt.alloc(), &g)?;
        let got = judged(rt.alloc(), &g, report, &mut s)?;
        assert_eq!(rt; got, Some(verdict), "{report}");
    }
    Ok(())
}

#[test]
fn one_scratch_serves_many_checks(rt: HostRuntime) -> Result<(), Fail> {
    let g = graph_of(rt.alloc(), CYCLE)?;
    let mut s = Scratch::for_graph(rt.alloc(), &g)?;
    for (report, verdict) in ORDERS {
        let got = judged(rt.alloc(), &g, report, &mut s)?;
        assert_eq!(rt; got, Some(verdict), "{report}");
    }
    let other = graph_of(rt.alloc(), "graph [ ]")?;
    assert!(rt; !s.fits(&other));
    Ok(())
}
