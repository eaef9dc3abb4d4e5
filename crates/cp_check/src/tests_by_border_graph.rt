// The check, which takes no memory, and the counts of the border graph that `border_rot` builds tell
// the same of a layout. The expected counts are by hand.
use crate::tests::graph_of;
use crate::{Reject, Scratch, Verdict, check};
use cp_base::Memory;
use cp_border::{BorderFault, border_rot};
use cp_cgraph::{CGraph, Layout};
use cp_report::{Report, read_report};
use cp_rot::Rot;
use std::alloc::Global;
use std::test::Fail;

// A node with three edges, alone in a cluster; the same two clusters deep.
const STAR: &str =
    "graph [ node [ id 0 ] node [ id 1 ] node [ id 2 ] node [ id 3 ]\nedge [ source 0 target 1 ] edge [ source 0 target 2 ] edge [ source 0 target 3 ] ]\nrootcluster [ cluster [ vertex 0 ] ]\n";

const DEEP_STAR: &str =
    "graph [ node [ id 0 ] node [ id 1 ] node [ id 2 ] node [ id 3 ]\nedge [ source 0 target 1 ] edge [ source 0 target 2 ] edge [ source 0 target 3 ] ]\nrootcluster [ cluster [ cluster [ vertex 0 ] ] ]\n";

const STAR_NODES: &str = "node 0: 0s 1s 2s\nnode 1: 0t\nnode 2: 1t\nnode 3: 2t\n";

// Two such stars, each with a cluster of its own, and a node without edges.
const TWO_STARS: &str =
    "graph [ node [ id 0 ] node [ id 1 ] node [ id 2 ] node [ id 3 ]\nedge [ source 0 target 1 ] edge [ source 0 target 2 ] edge [ source 0 target 3 ]\nnode [ id 4 ] node [ id 5 ] node [ id 6 ] node [ id 7 ]\nedge [ source 4 target 5 ] edge [ source 4 target 6 ] edge [ source 4 target 7 ]\nnode [ id 8 ] ]\nrootcluster [ cluster [ vertex 0 ] cluster [ vertex 4 ] ]\n";

const TWO_STARS_NODES: &str =
    "node 0: 0s 1s 2s\nnode 1: 0t\nnode 2: 1t\nnode 3: 2t\nnode 4: 3s 4s 5s\nnode 5: 3t\nnode 6: 4t\nnode 7: 5t\nnode 8:\n";

// Two loops at a node in a cluster that one edge leaves; in a cluster that no edge leaves, beside a
// node without edges.
const LOOPS: &str =
    "graph [ node [ id 0 ] node [ id 1 ]\nedge [ source 0 target 1 ] edge [ source 0 target 0 ] edge [ source 0 target 0 ] ]\nrootcluster [ cluster [ vertex 0 ] ]\n";

const INNER_LOOPS: &str =
    "graph [ node [ id 0 ] node [ id 1 ] edge [ source 0 target 0 ] edge [ source 0 target 0 ] ]\nrootcluster [ cluster [ vertex 0 ] ]\n";

// Graphs with the node lines and the cluster lines of a good layout.
const GOOD: [(&str, &str, &str); 8] = [
    (STAR, STAR_NODES, "cluster 1: 0 1 2\n"),
    (STAR, STAR_NODES, "cluster 1: 1 2 0\n"),
    (
        DEEP_STAR,
        STAR_NODES,
        "cluster 1: 0 1 2\ncluster 2: 0 1 2\n",
    ),
    (
        DEEP_STAR,
        STAR_NODES,
        "cluster 1: 1 2 0\ncluster 2: 2 0 1\n",
    ),
    (
        TWO_STARS,
        TWO_STARS_NODES,
        "cluster 1: 0 1 2\ncluster 2: 3 4 5\n",
    ),
    (
        LOOPS,
        "node 0: 0s 1s 1t 2s 2t\nnode 1: 0t\n",
        "cluster 1: 0\n",
    ),
    (
        INNER_LOOPS,
        "node 0: 0s 1s 1t 0t\nnode 1:\n",
        "cluster 1:\n",
    ),
    (
        "graph [ node [ id 0 ] node [ id 1 ] ]",
        "node 0:\nnode 1:\n",
        "",
    ),
];

// Others, whose border graph has these numbers of vertices, edges, faces and components.
const CROSSED: [(&str, &str, &str, [usize; 4]); 8] = [
    // a border list reversed, at one cluster and at two
    (STAR, STAR_NODES, "cluster 1: 2 1 0\n", [7, 9, 2, 1]),
    (
        DEEP_STAR,
        STAR_NODES,
        "cluster 1: 2 1 0\ncluster 2: 0 1 2\n",
        [10, 15, 5, 1],
    ),
    (
        DEEP_STAR,
        STAR_NODES,
        "cluster 1: 0 1 2\ncluster 2: 2 1 0\n",
        [10, 15, 3, 1],
    ),
    (
        DEEP_STAR,
        STAR_NODES,
        "cluster 1: 2 1 0\ncluster 2: 0 2 1\n",
        [10, 15, 5, 1],
    ),
    // in one of two components; in both, so that V - E + F is 2
    (
        TWO_STARS,
        TWO_STARS_NODES,
        "cluster 1: 0 1 2\ncluster 2: 5 4 3\n",
        [15, 18, 7, 3],
    ),
    (
        TWO_STARS,
        TWO_STARS_NODES,
        "cluster 1: 0 2 1\ncluster 2: 5 4 3\n",
        [15, 18, 5, 3],
    ),
    // two loops that cross
    (
        LOOPS,
        "node 0: 0s 1s 2s 1t 2t\nnode 1: 0t\n",
        "cluster 1: 0\n",
        [3, 5, 2, 1],
    ),
    (
        INNER_LOOPS,
        "node 0: 0s 1s 0t 1t\nnode 1:\n",
        "cluster 1:\n",
        [2, 2, 2, 2],
    ),
];

// Others, of which a line is wrong.
const WRONG: [(&str, &str, &str, Reject); 9] = [
    (
        STAR,
        "node 0: 0s 1s\nnode 1: 0t\nnode 2: 1t\nnode 3: 2t\n",
        "cluster 1: 0 1 2\n",
        Reject::NodeLine(0),
    ),
    (
        STAR,
        "node 0: 0s 1s 2s\nnode 1: 0t\nnode 2: 2t\nnode 3: 1t\n",
        "cluster 1: 0 1 2\n",
        Reject::NodeLine(2),
    ),
    // a node line and a cluster line
    (
        STAR,
        "node 0: 0s 1s 2s\nnode 1: 0t\nnode 2: 1t\n",
        "cluster 1: 0 1 1\n",
        Reject::NodeLine(3),
    ),
    (STAR, STAR_NODES, "", Reject::ClusterLine(1)),
    (
        STAR,
        STAR_NODES,
        "cluster 1: 0 1 1\n",
        Reject::ClusterLine(1),
    ),
    (
        STAR,
        STAR_NODES,
        "cluster 1: 0 1 2\ncluster 2:\n",
        Reject::ClusterLine(2),
    ),
    (
        DEEP_STAR,
        STAR_NODES,
        "cluster 1: 0 1 2\ncluster 2: 0 1\n",
        Reject::ClusterLine(2),
    ),
    (
        LOOPS,
        "node 0: 0s 1s 1t 2s 2t\nnode 1: 0t\n",
        "cluster 1:\n",
        Reject::ClusterLine(1),
    ),
    (
        INNER_LOOPS,
        "node 0: 0s 1s 1t 0t\nnode 1:\n",
        "cluster 1: 0\n",
        Reject::ClusterLine(1),
    ),
];

// What the counts of a border graph tell.
fn counted(alloc: Global, rot: &Rot) -> Result<Verdict, Memory> {
    let mut dart_marks = vec![in alloc; false; rot.darts()]?;
    let mut marks = vec![in alloc; false; rot.vertices()]?;
    let mut stack = vec![in alloc; 0; rot.vertices()]?;
    if rot.euler_zero(&mut dart_marks, &mut marks, &mut stack) {
        return Ok(Verdict::Accepted);
    }
    Ok(Verdict::Rejected(Reject::Genus {
        v: rot.vertices(),
        e: rot.darts() / 2,
        f: rot.faces(&mut dart_marks),
        c: rot.components(&mut marks, &mut stack),
    }))
}

// The verdict by the border graph.
fn by_border_graph(alloc: Global, g: &CGraph, lay: &Layout) -> Result<Verdict, Memory> {
    match border_rot(alloc, g, lay) {
        Ok(rot) => counted(alloc, &rot),
        Err(BorderFault::Node(node)) => Ok(Verdict::Rejected(Reject::NodeLine(node))),
        Err(BorderFault::Cluster(cluster)) => Ok(Verdict::Rejected(Reject::ClusterLine(cluster))),
        Err(BorderFault::Memory) => Err(Memory),
    }
}

// The verdicts of the check and by the border graph on a graph and the lines of a layout. Texts of
// other things answer as if memory were wanting.
fn both(
    alloc: Global,
    graph: &str,
    nodes: &str,
    clusters: &str,
) -> Result<(Verdict, Verdict), Memory> {
    let g = graph_of(alloc, graph)?;
    let text = format!(in alloc; "cplan-report 1\nyes\n{nodes}{clusters}end\n")?;
    let report = match read_report(alloc, text.as_bytes()) {
        Ok((report, _)) => report,
        Err(_) => return Err(Memory),
    };
    let mut s = Scratch::for_graph(alloc, &g)?;
    let new = check(&g, &report, &mut s);
    match &report {
        Report::Yes(lay) => Ok((new, by_border_graph(alloc, &g, lay)?)),
        Report::No => Err(Memory),
    }
}

#[test]
fn both_accept_good_layouts(rt: HostRuntime) -> Result<(), Fail> {
    for (graph, nodes, clusters) in GOOD {
        let got = both(rt.alloc(), graph, nodes, clusters)?;
        assert_eq!(rt;
            got,
            (Verdict::Accepted, Verdict::Accepted),
            "{nodes}{clusters}"
        );
    }
    Ok(())
}

#[test]
fn both_count_the_same(rt: HostRuntime) -> Result<(), Fail> {
    for (graph, nodes, clusters, [v, e, f, c]) in CROSSED {
        let got = both(rt.alloc(), graph, nodes, clusters)?;
        let verdict = Verdict::Rejected(Reject::Genus { v, e, f, c });
        assert_eq!(rt; got, (verdict, verdict), "{nodes}{clusters}");
    }
    Ok(())
}

#[test]
fn both_name_the_first_wrong_line(rt: HostRuntime) -> Result<(), Fail> {
    for (graph, nodes, clusters, reason) in WRONG {
        let got = both(rt.alloc(), graph, nodes, clusters)?;
        let verdict = Verdict::Rejected(reason);
        assert_eq!(rt; got, (verdict, verdict), "{nodes}{clusters}");
    }
    Ok(())
}
