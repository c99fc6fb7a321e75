//! The program `ivshm`: it passes its words, standard input and standard output to the top call,
//! and ends with the number of its status. `ivshm_cli` does the work. The arguments and the two
//! real streams are the trusted edge: no contract describes them.
#![tactic(auto)]

use ivs_base::{InputSource, OutputSink};
use ivshm_cli::{status_of_words, words_of};
use peer_runner::OpenGate;
use std::process::ExitCode;
use std::{env, io};

fn main(rt: HostRuntime) -> ExitCode {
    let words = words_of(rt.alloc(), env::args(&rt));
    let mut source = InputSource::new(rt.reader());
    let mut sink = OutputSink::new(io::writer(&rt));
    let mut ran = None;
    status_of_words(
        &rt,
        rt.alloc(),
        words,
        &mut source,
        &mut sink,
        &OpenGate,
        &mut ran,
    )
    .exit_code()
}
