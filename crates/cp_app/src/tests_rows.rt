// Worked rows of `solve` and `trace`, told by hand.
use crate::tests::{FIVE, GRAPHS, checked, ran, words_of};
use crate::{End, run};
use cp_base::Memory;
use cp_io::{MemSink, MemSource, StdSource};
use std::alloc::Global;
use std::io;
use std::io::Read;
use std::test::Fail;

// An ordinary file of a graph tool.
const EXPORTED: &str =
    "# exported graph\r\nCreator \"a graph tool\"\r\ngraph [\r\n  directed 1\r\n  node [\r\n    id 0\r\n    label \"a\"\r\n    graphics [ x 10.5 y -3.0E+1 w 20 fill \"#FFFFFF\" ]\r\n  ]\r\n  node [ id 1 label \"b\" ]\r\n  edge [ source 0 target 1 graphics [ type \"line\" width 1.0 ] ]\r\n]\r\nrootcluster [\r\n  vertex \"1\"\r\n  cluster [ id 1 label \"c\" vertex \"v0\" ]\r\n]\r\n";

// A cycle of four nodes, two opposite ones of which are a cluster.
const OPPOSITE: &str =
    "graph [ node [ id 1 ] node [ id 2 ] node [ id 3 ] node [ id 4 ]\nedge [ source 1 target 2 ] edge [ source 3 target 4 ]\nedge [ source 2 target 3 ] edge [ source 4 target 1 ] ]\nrootcluster [ cluster [ vertex 1 vertex 3 ] ]\n";

// A cluster whose border has both ends as cut vertices, with parts of three edges and of one.
const PARTS: &str =
    "graph [ node [ id 1 ] node [ id 2 ] node [ id 3 ] node [ id 4 ]\nedge [ source 1 target 3 ] edge [ source 1 target 3 ]\nedge [ source 1 target 4 ] edge [ source 2 target 3 ] ]\nrootcluster [ cluster [ vertex 1 vertex 2 ] ]\n";

// Its run: both ends are taken apart, and the four small pipes that come go one by one.
const PARTS_RUN: &str =
    "cplan-trace 1\ninstance\nvertex 0 P\nvertex 1 P\nvertex 2 P\nvertex 3 P\nvertex 4 P\nvertex 5 P\nedge 0 3 5\nedge 1 2 0\nedge 2 3 5\nedge 3 2 0\nedge 4 3 5\nedge 5 2 1\nedge 6 4 5\nedge 7 2 0\npipe 0 2 5: 1/0 3/2 5/4 7/6\ninstance end\nstep join 0\nstep small 1\nstep small 3\nstep small 2\nstep small 4\ninstance\nvertex 0 P\nvertex 1 P\nvertex 3 P\nvertex 4 P\nvertex 6 Q 0: 1 3 7\nvertex 7 P\nvertex 8 Q 0: 8 11 9\nvertex 9 P\nvertex 10 Q 1: 0 2 4\nvertex 11 P\nvertex 12 Q 1: 8 10 9\nvertex 13 P\nedge 0 3 10\nedge 1 6 0\nedge 2 3 10\nedge 3 6 0\nedge 4 3 10\nedge 5 7 1\nedge 6 4 11\nedge 7 6 0\nedge 8 8 12\nedge 9 8 12\nedge 10 9 12\nedge 11 8 13\ninstance end\nsolved\nend\n";

// Inputs of a command that have one text, each with its status.
const ROWS: [(&str, &str, u8, &str); 5] = [
    (
        "solve",
        "graph [ node [ id 1 ] node [ id 2 ] node [ id 3 ] rootcluster [ cluster [ ] ] ]",
        0,
        "cplan-report 1\nyes\nnode 0:\nnode 1:\nnode 2:\ncluster 1:\nend\n",
    ),
    (
        "solve",
        EXPORTED,
        0,
        "cplan-report 1\nyes\nnode 0: 0s\nnode 1: 0t\ncluster 1: 0\nend\n",
    ),
    ("trace", PARTS, 0, PARTS_RUN),
    (
        "trace",
        "graph [ ]",
        0,
        "cplan-trace 1\ninstance\ninstance end\ninstance\ninstance end\nsolved\nend\n",
    ),
    ("trace", "graph [ ] ]", 2, "refused 7 StrayClose at 10\n"),
];

#[test]
fn rows_have_their_texts(rt: HostRuntime) -> Result<(), Fail> {
    for (word, input, code, text) in ROWS {
        let (got, sink) = ran(rt.alloc(), word, input.as_bytes())?;
        assert_eq!(rt; sink.bytes(), text.as_bytes(), "{input}");
        assert_eq!(rt; got, code, "{input}");
    }
    // a planar graph with a cluster of two nodes whose border cannot be drawn
    let graph = format!(in rt.alloc();
        "graph [ {FIVE} rootcluster [ cluster [ vertex 1 vertex 2 ] ] ]"
    )?;
    let (code, report) = ran(rt.alloc(), "solve", graph.as_bytes())?;
    assert_eq!(rt; code, 1);
    assert_eq!(rt; report.bytes(), b"cplan-report 1\nno\nend\n".as_slice());
    Ok(())
}

#[test]
fn solve_refuses_what_check_refuses(rt: HostRuntime) -> Result<(), Fail> {
    for (graph, line) in GRAPHS {
        let (got, sink) = ran(rt.alloc(), "solve", graph.as_bytes())?;
        if got == 2 {
            assert_eq!(rt; sink.bytes(), line.as_bytes(), "{graph}");
        } else {
            assert_eq!(rt; line, "accepted\n", "{graph}");
            assert_eq!(rt;
                sink.bytes(),
                b"cplan-report 1\nyes\nend\n".as_slice(),
                "{graph}"
            );
        }
    }
    Ok(())
}

// The report of a graph with the graph behind it, checked.
fn solved_and_checked(alloc: Global, graph: &str) -> Result<(MemSink, MemSink), Memory> {
    let (_, report) = ran(alloc, "solve", graph.as_bytes())?;
    let mut both = Vec::from_slice(alloc, report.bytes())?;
    both.extend_from_slice(graph.as_bytes())?;
    let (_, line) = checked(alloc, both.as_slice())?;
    Ok((report, line))
}

#[test]
fn a_border_goes_round_opposite_nodes(rt: HostRuntime) -> Result<(), Fail> {
    let (report, line) = solved_and_checked(rt.alloc(), OPPOSITE)?;
    let front =
        "cplan-report 1\nyes\nnode 0: 0s 3t\nnode 1: 0t 2s\nnode 2: 1s 2t\nnode 3: 1t 3s\ncluster 1: 0";
    let one = format!(in rt.alloc(); "{front} 2 1 3\nend\n")?;
    let other = format!(in rt.alloc(); "{front} 3 1 2\nend\n")?;
    let found = report.bytes();
    assert!(rt; found == one.as_bytes() || found == other.as_bytes());
    assert_eq!(rt; line.bytes(), b"accepted\n".as_slice());
    Ok(())
}

#[test]
fn solve_tells_failing_devices(rt: HostRuntime) -> Result<(), Fail> {
    let words = words_of(rt.alloc(), &["solve"])?;
    let mut source = MemSource::new(rt.alloc(), OPPOSITE.as_bytes(), 8, &[2])?;
    let mut sink = MemSink::new(rt.alloc(), 100, 100, &[])?;
    let end = run(rt.alloc(), words.as_slice(), &mut source, &mut sink);
    assert_eq!(rt; end, End::ReadFault);
    assert_eq!(rt; sink.bytes(), b"read fault\n".as_slice());

    let mut source = MemSource::new(rt.alloc(), b"graph [ ]", 100, &[])?;
    let mut sink = MemSink::new(rt.alloc(), 100, 5, &[2])?;
    let end = run(rt.alloc(), words.as_slice(), &mut source, &mut sink);
    assert_eq!(rt; end, End::WriteFault);
    assert_eq!(rt; sink.bytes(), b"cplan".as_slice());
    Ok(())
}

#[test]
fn solve_takes_64_mebibytes(rt: HostRuntime) -> Result<(), Fail> {
    let words = words_of(rt.alloc(), &["solve"])?;
    for (size, end, line) in [
        (
            67_108_864u64,
            End::Refused {
                kind: 10,
                at: 67_108_864,
            },
            "refused 10 NoGraph at 67108864\n",
        ),
        (67_108_865, End::TooLong, "input too long\n"),
    ] {
        let mut source = StdSource::new(io::repeat(b' ').take(size));
        let mut sink = MemSink::new(rt.alloc(), 100, 100, &[])?;
        let got = run(rt.alloc(), words.as_slice(), &mut source, &mut sink);
        assert_eq!(rt; got, end);
        assert_eq!(rt; sink.bytes(), line.as_bytes());
    }
    Ok(())
}

// A node with nine hundred edges to nodes of their own and in a hundred triangles: it lies in a thousand blocks.
fn thousand_blocks(alloc: Global) -> Result<String, Memory> {
    let mut text = String::from_str(alloc, "graph [ node [ id 0 ]")?;
    for i in 1..1101u64 {
        let part = format!(in alloc; " node [ id {i} ] edge [ source 0 target {i} ]")?;
        text.push_str(part.as_str())?;
    }
    for i in 450..550u64 {
        let part = format!(in alloc;
            " edge [ source {a} target {b} ]",
            a = 2 * i + 1,
            b = 2 * i + 2
        )?;
        text.push_str(part.as_str())?;
    }
    text.push_str(" ]")?;
    Ok(text)
}

#[test]
fn a_node_lies_in_a_thousand_blocks(rt: HostRuntime) -> Result<(), Fail> {
    let graph = thousand_blocks(rt.alloc())?;
    let (_, line) = solved_and_checked(rt.alloc(), graph.as_str())?;
    assert_eq!(rt; line.bytes(), b"accepted\n".as_slice());
    Ok(())
}

// The edges between five nodes.
const PAIRS: [&str; 10] = [
    " edge [ source 1 target 2 ]",
    " edge [ source 1 target 3 ]",
    " edge [ source 1 target 4 ]",
    " edge [ source 1 target 5 ]",
    " edge [ source 2 target 3 ]",
    " edge [ source 2 target 4 ]",
    " edge [ source 2 target 5 ]",
    " edge [ source 3 target 4 ]",
    " edge [ source 3 target 5 ]",
    " edge [ source 4 target 5 ]",
];

// The graph on five nodes with the edges whose bits are set in a number.
fn graph_of_bits(alloc: Global, number: u64) -> Result<String, Memory> {
    let mut text = String::from_str(alloc, "graph [")?;
    text.push_str(" node [ id 1 ] node [ id 2 ] node [ id 3 ] node [ id 4 ] node [ id 5 ]")?;
    let mut bits = number;
    for pair in PAIRS {
        if bits % 2 == 1 {
            text.push_str(pair)?;
        }
        bits /= 2;
    }
    text.push_str(" ]")?;
    Ok(text)
}

// Of the graphs on five nodes without loops and parallel edges all are planar but the one that has all ten edges
// (Kuratowski 1930).
#[test]
fn one_graph_on_five_nodes_is_not_planar(rt: HostRuntime) -> Result<(), Fail> {
    for number in 0..1024u64 {
        let graph = graph_of_bits(rt.alloc(), number)?;
        let (_, line) = solved_and_checked(rt.alloc(), graph.as_str())?;
        let wanted = if number == 1023 {
            b"rejected no layout\n".as_slice()
        } else {
            b"accepted\n".as_slice()
        };
        assert_eq!(rt; line.bytes(), wanted, "{number}");
    }
    Ok(())
}
