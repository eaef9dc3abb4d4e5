//! Prints the parts of a graph, one number a line, so that `components`, `blocks` and `bipolar` can be
//! measured: the word of the command line says which, and standard input is the graph in GML.
#![tactic(auto)]

mod answering;
mod ask;
mod end;
mod graph;
mod numbers;
mod one_block;
mod running;
#[cfg(test)]
mod tests;
mod texts;

use cp_io::{StdSink, StdSource};
use running::run;
use std::env::Env;
use std::process::ExitCode;
use std::{env, io};

/// The status where the words of the command line cannot be had.
const NO_WORDS: u8 = 8;

/// The words of the command line without the program's name.
fn words_of(rt: &(impl Env + AllocGlobal)) -> io::Result<Vec<String>> {
    let mut words = Vec::new(rt.alloc());
    for word in env::args(rt)?.skip(1) {
        words.push(word)?;
    }
    Ok(words)
}

fn main(rt: HostRuntime) -> ExitCode {
    let Ok(words) = words_of(&rt) else {
        return ExitCode::from(NO_WORDS);
    };
    let mut source = StdSource::new(rt.reader());
    let mut sink = StdSink::new(io::writer(&rt));
    let end = run(rt.alloc(), words.as_slice(), &mut source, &mut sink);
    ExitCode::from(end.code())
}
