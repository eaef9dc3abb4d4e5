// The texts and statuses of runs, worked out by hand.
use crate::running::run;
use cp_base::Memory;
use cp_io::{MemSink, MemSource};
use std::alloc::Global;
use std::test::Fail;

// A triangle with a tail, and a vertex alone.
const TAIL: &str =
    "graph [ node [ id 7 ] node [ id 5 ] node [ id 3 ] node [ id 4 ] node [ id 9 ] edge [ source 7 target 5 ] edge [ source 5 target 3 ] edge [ source 3 target 7 ] edge [ source 3 target 4 ] ]";

const TRIANGLE: &str =
    "graph [ node [ id 0 ] node [ id 1 ] node [ id 2 ] edge [ source 0 target 1 ] edge [ source 1 target 2 ] edge [ source 2 target 0 ] ]";

const LOOP: &str = "graph [ node [ id 0 ] edge [ source 0 target 0 ] ]";

// Words and inputs, each with its status and its text.
const RUNS: [(&str, &str, u8, &str); 14] = [
    ("edges", TAIL, 0, "5\n4\n"),
    ("components", TAIL, 0, "0\n0\n0\n0\n1\n"),
    ("blocks", TAIL, 0, "0\n0\n0\n1\n"),
    ("bipolar", TAIL, 1, "no answer\n"),
    ("bipolar", TRIANGLE, 0, "0\n2\n1\n"),
    (
        "bipolar",
        "graph [ node [ id 0 ] node [ id 1 ] node [ id 2 ] edge [ source 2 target 0 ] ]",
        1,
        "no answer\n",
    ),
    ("components", LOOP, 0, "0\n"),
    ("blocks", LOOP, 1, "no answer\n"),
    ("bipolar", LOOP, 1, "no answer\n"),
    ("blocks", "graph [ ]", 0, ""),
    ("bipolar", "graph [ ]", 1, "no answer\n"),
    ("edges", "graph", 2, "refused 5 at 5\n"),
    ("edges", "graph [ node [ ] ]", 2, "refused 13 at 13\n"),
    (
        "bridges",
        "graph [ ]",
        3,
        "usage: graph_parts edges|components|blocks|bipolar\n",
    ),
];

// Runs on a word and an input, and gives the status and what was written.
fn told(alloc: Global, word: &str, input: &str) -> Result<(u8, MemSink), Memory> {
    let mut words = Vec::new(alloc);
    words.push(String::from_str(alloc, word)?)?;
    let mut source = MemSource::new(alloc, input.as_bytes(), 8, &[])?;
    let mut sink = MemSink::new(alloc, 100, 100, &[])?;
    let end = run(alloc, words.as_slice(), &mut source, &mut sink);
    Ok((end.code(), sink))
}

#[test]
fn graphs_are_answered(rt: HostRuntime) -> Result<(), Fail> {
    for (word, input, code, text) in RUNS {
        let (got, sink) = told(rt.alloc(), word, input)?;
        assert_eq!(rt; sink.bytes(), text.as_bytes(), "{word} of {input}");
        assert_eq!(rt; got, code, "{word} of {input}");
    }
    Ok(())
}
