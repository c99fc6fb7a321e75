//! The program `ivshm_explain`: it reads what a form of `ivshm` reads, and says in words what
//! `ivshm` answers to it with a code.
//!
//! # Design
//!
//! - A verdict is that of the text's own grammar (`parse` of `scenario_text`, `port_text` and
//!   `frame_bridge`): its number names the first bad line. So the explanation and `ivshm` name one
//!   line, by one definition each (`specs/Verdicts`). An image and a capture file are judged by
//!   `section_dump` and `frame_capture` likewise, and their first fault has its place in bytes.
//! - A difference is that of `trace_replay`, and the line due is that of the lawful history, which
//!   the simulator plays for the record's scenario. Both are kept whole in addition to the record.
//!   A record of many millions of lines takes much memory.
//! - An explanation begins with the line that `ivshm` answers and with the faulty line or bytes
//!   (`IsExplained`). The explanation after that is for people. It comes from a second reading of
//!   the lines by a table of their forms, and no contract covers it. `checks/faults` holds it to
//!   words written by hand.
#![tactic(auto)]

mod capture_words;
mod difference_text;
mod difference_words;
mod differences;
mod explaining;
mod fault_words;
mod image_words;
mod line_words;
mod number_words;
mod order_words;
mod places;
mod program;
mod shapes;
mod size_words;
mod texts;
mod verdicts;

use ivs_base::{InputSource, OutputSink};
use program::status_of_words;
use program_edge::words_of;
use std::process::ExitCode;
use std::{env, io};

fn main(rt: HostRuntime) -> ExitCode {
    let words = words_of(rt.alloc(), env::args(&rt));
    let mut source = InputSource::new(rt.reader());
    let mut sink = OutputSink::new(io::writer(&rt));
    status_of_words(rt.alloc(), words, &mut source, &mut sink).exit_code()
}
