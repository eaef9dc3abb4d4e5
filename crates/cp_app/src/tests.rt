// What no clause says: that runs end with an answer where memory suffices, and the exact texts.
use crate::{End, one_answer, run};
use cp_base::Memory;
use cp_io::{MemSink, MemSource, StdSource};
use std::alloc::Global;
use std::io;
use std::io::Read;
use std::test::Fail;

const TRIANGLE: &str =
    "cplan-report 1\nyes\nnode 0: 0s 2t\nnode 1: 0t 1s\nnode 2: 1t 2s\nend\ngraph [\nnode [ id 1 ] node [ id 2 ] node [ id 3 ]\nedge [ source 1 target 2 ]\nedge [ source 2 target 3 ]\nedge [ source 3 target 1 ]\n]\n";

// Inputs, each with its status and its line.
const CHECKS: [(&str, u8, &str); 22] = [
    (TRIANGLE, 0, "accepted\n"),
    // an empty cluster beside isolated nodes: each node is a face and a component of its own
    (
        "cplan-report 1\nyes\nnode 0:\nnode 1:\nnode 2:\ncluster 1:\nend\ngraph [ node [ id 1 ] node [ id 2 ] node [ id 3 ] rootcluster [ cluster [ ] ] ]",
        0,
        "accepted\n",
    ),
    // one edge leaves a cluster: its border is a loop
    (
        "cplan-report 1\nyes\nnode 0: 0s\nnode 1: 0t\ncluster 1: 0\nend\ngraph [ node [ id 1 ] node [ id 2 ] edge [ source 1 target 2 ] rootcluster [ cluster [ vertex 1 ] ] ]",
        0,
        "accepted\n",
    ),
    // clusters that no edge leaves
    (
        "cplan-report 1\nyes\nnode 0: 0s\nnode 1: 0t\ncluster 1:\ncluster 2:\ncluster 3:\nend\ngraph [ node [ id 1 ] node [ id 2 ] edge [ source 1 target 2 ] ] rootcluster [ cluster [ cluster [ cluster [ vertex 1 vertex 2 ] ] ] ]",
        0,
        "accepted\n",
    ),
    // a loop, and parallel edges that cross two nested borders
    (
        "cplan-report 1\nyes\nnode 0: 0s 0t 1s 2s\nnode 1: 1t 2t\ncluster 1: 1 2\ncluster 2: 1 2\nend\ngraph [ node [ id 1 ] node [ id 2 ]\nedge [ source 1 target 1 ]\nedge [ source 1 target 2 ] edge [ source 1 target 2 ]\nrootcluster [ cluster [ cluster [ vertex 1 ] ] ] ]\n",
        0,
        "accepted\n",
    ),
    // opposite nodes of a cycle of four: the border takes the edges in another order
    (
        "cplan-report 1\nyes\nnode 0: 0s 3t\nnode 1: 0t 2s\nnode 2: 1s 2t\nnode 3: 1t 3s\ncluster 1: 0 1 2 3\nend\ngraph [ node [ id 1 ] node [ id 2 ] node [ id 3 ] node [ id 4 ]\nedge [ source 1 target 2 ] edge [ source 3 target 4 ]\nedge [ source 2 target 3 ] edge [ source 4 target 1 ] ]\nrootcluster [ cluster [ vertex 1 vertex 3 ] ]\n",
        1,
        "rejected genus v 8 e 12 f 4 c 1\n",
    ),
    (
        "cplan-report 1\nyes\nnode 0: 0s 3t\nnode 1: 0t 2s\nnode 2: 1s 2t\nnode 3: 1t 3s\ncluster 1: 0 1 2\nend\ngraph [ node [ id 1 ] node [ id 2 ] node [ id 3 ] node [ id 4 ]\nedge [ source 1 target 2 ] edge [ source 3 target 4 ]\nedge [ source 2 target 3 ] edge [ source 4 target 1 ] ]\nrootcluster [ cluster [ vertex 1 vertex 3 ] ]\n",
        1,
        "rejected cluster 1\n",
    ),
    (
        "cplan-report 1\nyes\nnode 0: 0s 3t\nnode 1: 0t 2s\nnode 2: 1s 2t\nnode 3: 1t 3s\ncluster 1: 0 2 1 3\nend\ngraph [ node [ id 1 ] node [ id 2 ] node [ id 3 ] node [ id 4 ]\nedge [ source 1 target 2 ] edge [ source 3 target 4 ]\nedge [ source 2 target 3 ] edge [ source 4 target 1 ] ]\nrootcluster [ cluster [ vertex 1 vertex 3 ] ]\n",
        0,
        "accepted\n",
    ),
    // another graph than that of the layout
    (
        "cplan-report 1\nyes\nnode 0: 0s 2t\nnode 1: 0t 1s\nnode 2: 1t 2s\nend\ngraph [ node [ id 1 ] node [ id 2 ] node [ id 3 ] edge [ source 1 target 2 ] edge [ source 1 target 3 ] edge [ source 2 target 3 ] ]",
        1,
        "rejected node 0\n",
    ),
    (
        "cplan-report 1\nno\nend\ngraph [ ]",
        1,
        "rejected no layout\n",
    ),
    ("cplan-report 1\nyes\nend\ngraph [ ]", 0, "accepted\n"),
    // a list or a cluster line too many, and a node line before a cluster line
    (
        "cplan-report 1\nyes\nnode 0:\nnode 1:\nend\ngraph [ node [ id 7 ] ]",
        1,
        "rejected node 1\n",
    ),
    (
        "cplan-report 1\nyes\ncluster 1:\nend\ngraph [ ]",
        1,
        "rejected cluster 1\n",
    ),
    (
        "cplan-report 1\nyes\nend\ngraph [ node [ id 7 ] rootcluster [ cluster [ ] ] ]",
        1,
        "rejected node 0\n",
    ),
    // three edges between two nodes, in one order at both
    (
        "cplan-report 1\nyes\nnode 0: 0s 1s 2s\nnode 1: 0t 1t 2t\nend\ngraph [ node [ id 1 ] node [ id 2 ] edge [ source 1 target 2 ] edge [ source 1 target 2 ] edge [ source 1 target 2 ] ]",
        1,
        "rejected genus v 2 e 3 f 1 c 1\n",
    ),
    // an ordinary file of a graph tool
    (
        "cplan-report 1\nyes\nnode 0: 0s\nnode 1: 0t\ncluster 1: 0\nend\n# exported graph\r\nCreator \"a graph tool\"\r\ngraph [\r\n  directed 1\r\n  node [\r\n    id 0\r\n    label \"a\"\r\n    graphics [ x 10.5 y -3.0E+1 w 20 fill \"#FFFFFF\" ]\r\n  ]\r\n  node [ id 1 label \"b\" ]\r\n  edge [ source 0 target 1 graphics [ type \"line\" width 1.0 ] ]\r\n]\r\nrootcluster [\r\n  vertex \"1\"\r\n  cluster [ id 1 label \"c\" vertex \"v0\" ]\r\n]\r\n",
        0,
        "accepted\n",
    ),
    // reports at fault
    (
        "cplan-report 9\nyes\nend\ngraph [ ]",
        2,
        "bad report 1 line 1\n",
    ),
    ("cplan-report 1\nmaybe\n", 2, "bad report 2 line 2\n"),
    (
        "cplan-report 1\nyes\nnode 1:\nend\n",
        2,
        "bad report 3 line 3\n",
    ),
    (
        "cplan-report 1\nyes\nnode 0: 01s\nend\n",
        2,
        "bad report 3 line 3\n",
    ),
    ("cplan-report 1\nyes\n", 2, "bad report 4 line 3\n"),
    ("cplan-report 1\nno\nend", 2, "bad report 4 line 3\n"),
];

// Texts of graphs, each with the line that stands for it behind an empty report.
pub(crate) const GRAPHS: [(&str, &str); 22] = [
    ("graph [ ] ;", "refused 1 BadByte at 10\n"),
    ("a \"x", "refused 2 OpenString at 2\n"),
    ("a 1.2.3", "refused 3 BadNumber at 2\n"),
    ("graph [ ] 5", "refused 4 KeyExpected at 10\n"),
    ("graph", "refused 5 ValueExpected at 5\n"),
    ("graph [ node [ id 1", "refused 6 ListOpen at 19\n"),
    ("graph [ ] ]", "refused 7 StrayClose at 10\n"),
    ("", "refused 10 NoGraph at 0\n"),
    ("graph [ ] graph [ ]", "refused 11 SecondGraph at 10\n"),
    ("graph 5", "refused 12 NotAList at 6\n"),
    ("graph [ node [ ] ]", "refused 13 MissingId at 13\n"),
    (
        "graph [ node [ id 1 id 2 ] ]",
        "refused 14 RepeatedKey at 20\n",
    ),
    ("graph [ node [ id \"1\" ] ]", "refused 15 BadId at 18\n"),
    (
        "graph [ node [ id 1 ] node [ id 1 ] ]",
        "refused 16 DuplicateNode at 32\n",
    ),
    (
        "graph [ node [ id 4 ] edge [ source 4 target 9 ] ] rootcluster [ vertex 4 cluster [ vertex 4 ] ]",
        "refused 17 UnknownEnd at 45\n",
    ),
    (
        "graph [ ] rootcluster [ ] rootcluster [ ]",
        "refused 18 SecondRoot at 26\n",
    ),
    (
        "graph [ ] rootcluster [ vertex 7 ]",
        "refused 19 UnknownVertex at 31\n",
    ),
    (
        "rootcluster [ vertex 4 cluster [ vertex 4 ] ] graph [ node [ id 4 ] edge [ source 4 target 9 ] ]",
        "refused 20 VertexTwice at 40\n",
    ),
    ("graph [ edge [ ] ]", "refused 21 MissingEnd at 13\n"),
    ("graph [ ]", "accepted\n"),
    ("\u{feff}graph [ ]", "accepted\n"),
    ("\u{feff}graph [ ] ;", "refused 1 BadByte at 13\n"),
];

// K5, its nodes and edges, with what stands behind the last edge.
pub(crate) const FIVE: &str =
    "node [ id 1 ] node [ id 2 ] node [ id 3 ] node [ id 4 ] node [ id 5 ] edge [ source 1 target 3 ] edge [ source 1 target 4 ] edge [ source 1 target 5 ] edge [ source 2 target 3 ] edge [ source 2 target 4 ] edge [ source 2 target 5 ] edge [ source 3 target 4 ] edge [ source 3 target 5 ] edge [ source 4 target 5 ]";

// Graphs that have one answer, each with its status and its text.
const SOLVED: [(&str, u8, &str); 7] = [
    ("graph [ ]", 0, "cplan-report 1\nyes\nend\n"),
    (
        "graph [\nnode [ id 1 ] node [ id 2 ] node [ id 3 ]\nedge [ source 1 target 2 ]\nedge [ source 2 target 3 ]\nedge [ source 3 target 1 ]\n]\n",
        0,
        "cplan-report 1\nyes\nnode 0: 0s 2t\nnode 1: 0t 1s\nnode 2: 1t 2s\nend\n",
    ),
    // clusters that no edge leaves, one of them empty
    (
        "graph [ node [ id 1 ] node [ id 2 ] node [ id 3 ] edge [ source 1 target 2 ] ] rootcluster [ cluster [ vertex 1 vertex 2 vertex 3 ] ]",
        0,
        "cplan-report 1\nyes\nnode 0: 0s\nnode 1: 0t\nnode 2:\ncluster 1:\nend\n",
    ),
    (
        "graph [ node [ id 1 ] node [ id 2 ] edge [ source 1 target 2 ] ] rootcluster [ cluster [ cluster [ cluster [ vertex 1 vertex 2 ] ] ] ]",
        0,
        "cplan-report 1\nyes\nnode 0: 0s\nnode 1: 0t\ncluster 1:\ncluster 2:\ncluster 3:\nend\n",
    ),
    // a loop stands behind the other edges, its source before its target
    (
        "graph [ node [ id 1 ] node [ id 2 ] edge [ source 1 target 1 ] edge [ source 2 target 1 ] ]",
        0,
        "cplan-report 1\nyes\nnode 0: 0s 0t 1t\nnode 1: 1s\nend\n",
    ),
    (
        "graph [ node [ id 1 ] node [ id 2 ] edge [ source 1 target 2 ] rootcluster [ cluster [ vertex 1 ] ] ]",
        0,
        "cplan-report 1\nyes\nnode 0: 0s\nnode 1: 0t\ncluster 1: 0\nend\n",
    ),
    ("graph [ ] ]", 2, "refused 7 StrayClose at 10\n"),
];

// The words of a command line.
pub(crate) fn words_of(alloc: Global, words: &[&str]) -> Result<Vec<String>, Memory> {
    let mut row = Vec::new(alloc);
    for word in words {
        row.push(String::from_str(alloc, word)?)?;
    }
    Ok(row)
}

// Runs a command on an input, and gives the status and what was written.
pub(crate) fn ran(alloc: Global, word: &str, input: &[u8]) -> Result<(u8, MemSink), Memory> {
    let words = words_of(alloc, &[word])?;
    let mut source = MemSource::new(alloc, input, 8, &[])?;
    let mut sink = MemSink::new(alloc, 100_000, 1000, &[])?;
    let end = run(alloc, words.as_slice(), &mut source, &mut sink);
    Ok((end.code(), sink))
}

// Checks an input, and gives the status and what was written.
pub(crate) fn checked(alloc: Global, input: &[u8]) -> Result<(u8, MemSink), Memory> {
    ran(alloc, "check", input)
}

#[test]
fn graphs_are_solved(rt: HostRuntime) -> Result<(), Fail> {
    for (graph, code, text) in SOLVED {
        let (got, sink) = ran(rt.alloc(), "solve", graph.as_bytes())?;
        assert_eq!(rt; sink.bytes(), text.as_bytes(), "{graph}");
        assert_eq!(rt; got, code, "{graph}");
    }
    Ok(())
}

#[test]
fn an_edge_more_is_too_many(rt: HostRuntime) -> Result<(), Fail> {
    let graph = format!(in rt.alloc(); "graph [ {FIVE} ]")?;
    let (code, report) = ran(rt.alloc(), "solve", graph.as_bytes())?;
    assert_eq!(rt; code, 0);
    let mut both = Vec::from_slice(rt.alloc(), report.bytes())?;
    both.extend_from_slice(graph.as_bytes())?;
    let (_, sink) = checked(rt.alloc(), both.as_slice())?;
    assert_eq!(rt; sink.bytes(), b"accepted\n".as_slice());

    let graph = format!(in rt.alloc(); "graph [ {FIVE} edge [ source 1 target 2 ] ]")?;
    let (code, report) = ran(rt.alloc(), "solve", graph.as_bytes())?;
    assert_eq!(rt; code, 1);
    assert_eq!(rt; report.bytes(), b"cplan-report 1\nno\nend\n".as_slice());
    Ok(())
}

#[test]
fn reports_are_checked(rt: HostRuntime) -> Result<(), Fail> {
    for (input, code, line) in CHECKS {
        let (got, sink) = checked(rt.alloc(), input.as_bytes())?;
        assert_eq!(rt; sink.bytes(), line.as_bytes(), "{input}");
        assert_eq!(rt; got, code, "{input}");
    }
    Ok(())
}

#[test]
fn graphs_are_refused_at_their_first_fault(rt: HostRuntime) -> Result<(), Fail> {
    for (graph, line) in GRAPHS {
        let input = format!(in rt.alloc(); "cplan-report 1\nyes\nend\n{graph}")?;
        let (_, sink) = checked(rt.alloc(), input.as_bytes())?;
        assert_eq!(rt; sink.bytes(), line.as_bytes(), "{graph}");
    }
    // 512 lists one inside the other are let through, and 513 are not
    for (depth, line) in [
        (512usize, "accepted\n"),
        (513, "refused 8 TooDeep at 1025\n"),
    ] {
        let mut input = String::from_str(rt.alloc(), "cplan-report 1\nyes\nend\n")?;
        for _ in 0..depth {
            input.push_str("a[")?;
        }
        for _ in 0..depth {
            input.push_str("]")?;
        }
        input.push_str("graph[]")?;
        let (_, sink) = checked(rt.alloc(), input.as_bytes())?;
        assert_eq!(rt; sink.bytes(), line.as_bytes());
    }
    Ok(())
}

#[test]
fn failing_devices_are_told(rt: HostRuntime) -> Result<(), Fail> {
    let words = words_of(rt.alloc(), &["check"])?;
    let mut source = MemSource::new(rt.alloc(), TRIANGLE.as_bytes(), 8, &[2])?;
    let mut sink = MemSink::new(rt.alloc(), 100, 100, &[])?;
    let end = run(rt.alloc(), words.as_slice(), &mut source, &mut sink);
    assert_eq!(rt; end, End::ReadFault);
    assert_eq!(rt; end.code(), 4);
    assert_eq!(rt; sink.bytes(), b"read fault\n".as_slice());

    let mut source = MemSource::new(rt.alloc(), TRIANGLE.as_bytes(), 100, &[])?;
    let mut sink = MemSink::new(rt.alloc(), 100, 5, &[2])?;
    let end = run(rt.alloc(), words.as_slice(), &mut source, &mut sink);
    assert_eq!(rt; end, End::WriteFault);
    assert_eq!(rt; end.code(), 5);
    assert_eq!(rt; sink.bytes(), b"accep".as_slice());
    Ok(())
}

#[test]
fn other_words_are_no_command(rt: HostRuntime) -> Result<(), Fail> {
    let rows: [&[&str]; 5] = [
        &[],
        &["solve", "solve"],
        &["check", "check"],
        &["checks"],
        &[""],
    ];
    for row in rows {
        let words = words_of(rt.alloc(), row)?;
        let mut source = MemSource::new(rt.alloc(), TRIANGLE.as_bytes(), 100, &[1])?;
        let mut sink = MemSink::new(rt.alloc(), 100, 100, &[])?;
        let end = run(rt.alloc(), words.as_slice(), &mut source, &mut sink);
        assert_eq!(rt; end, End::Usage);
        assert_eq!(rt; sink.bytes(), b"usage: cplan COMMAND [N]\n".as_slice());
    }
    Ok(())
}

#[test]
fn an_input_above_64_mebibytes_is_too_long(rt: HostRuntime) -> Result<(), Fail> {
    let words = words_of(rt.alloc(), &["check"])?;
    let mut source = StdSource::new(io::repeat(b' ').take(67_108_865));
    let mut sink = MemSink::new(rt.alloc(), 100, 100, &[])?;
    let end = run(rt.alloc(), words.as_slice(), &mut source, &mut sink);
    assert_eq!(rt; end, End::TooLong);
    assert_eq!(rt; end.code(), 6);
    assert_eq!(rt; sink.bytes(), b"input too long\n".as_slice());
    one_answer();
    Ok(())
}
