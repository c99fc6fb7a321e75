//! The program `ivshm_chart`: it reads a record, and writes a picture of its history as an SVG
//! file, or as a text for a terminal. It uses `record_text` for the record, `trace_replay` for the
//! line at which it leaves the lawful history, and `record_chart` for the picture. The top call is
//! [`program::chart`], over any source and sink. The arguments and the two real streams are the
//! trusted edge: no contract describes them.
#![tactic(auto)]

mod fronts;
mod program;
mod replies;
#[cfg(test)]
mod tests;
mod words;

use ivs_base::{InputSource, OutputSink};
use program::status_of_words;
use program_edge::words_of;
use std::process::ExitCode;
use std::{env, io};

fn main(rt: HostRuntime) -> ExitCode {
    let words = words_of(rt.alloc(), env::args(&rt));
    let mut source = InputSource::new(rt.reader());
    let mut sink = OutputSink::new(io::writer(&rt));
    let mut drawn = None;
    status_of_words(rt.alloc(), words, &mut source, &mut sink, &mut drawn).exit_code()
}
