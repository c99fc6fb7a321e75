//! The question of a row, and its answer by the top call.
use ivs_base::{MemorySink, MemorySource};
use ivshm_cli::ivshm;
use peer_runner::OpenGate;
use std::alloc::Global;
use std::io;
use std::io::ErrorKind;
use std::thread::Threads;

/// The greatest length of an output, in bytes.
const ROOM: usize = 1 << 24;

/// A question: the words, the input, the size of the pieces in which the input is read, and the
/// calls that fail.
#[derive(Drop)]
pub(crate) struct Question {
    pub(crate) is_asked: bool,
    pub(crate) is_call: bool,
    pub(crate) words: Vec<String>,
    pub(crate) input: Vec<u8>,
    pub(crate) piece: u64,
    pub(crate) failing_reads: Vec<u64>,
    pub(crate) failing_writes: Vec<u64>,
}

/// An answer: a status, the text written, and whether peers ran.
#[derive(Drop)]
pub(crate) struct Answer {
    pub(crate) status: u64,
    pub(crate) output: Vec<u8>,
    pub(crate) has_run: bool,
}

impl Question {
    /// Returns a question without words and without input.
    pub(crate) fn new(alloc: Global) -> Question {
        Question {
            is_asked: false,
            is_call: false,
            words: Vec::new(alloc),
            input: Vec::new(alloc),
            piece: 4096,
            failing_reads: Vec::new(alloc),
            failing_writes: Vec::new(alloc),
        }
    }

    /// Sets the words, which are written with a blank between them. `""` is the empty word.
    pub(crate) fn ask(&mut self, alloc: Global, is_call: bool, words: &str) -> io::Result<()> {
        self.is_asked = true;
        self.is_call = is_call;
        if !words.is_empty() {
            for word in words.split(' ') {
                let word = if word == "\"\"" { "" } else { word };
                self.words.push(String::from_str(alloc, word)?)?;
            }
        }
        Ok(())
    }

    /// Whether peers must run if the status of the answer is 0.
    pub(crate) fn runs(&self) -> bool {
        match self.words.first() {
            Some(word) => word.as_str() == "run",
            None => false,
        }
    }

    /// Returns the answer of the top call.
    pub(crate) fn answer<R: Threads + Sync>(&self, rt: &R, alloc: Global) -> io::Result<Answer> {
        let piece = self.piece.clamp(1, 65536) as usize;
        let mut source = MemorySource::new(
            alloc,
            self.input.as_slice(),
            piece,
            self.failing_reads.as_slice(),
        )
        .map_err(|_| ErrorKind::OutOfMemory)?;
        let mut sink = MemorySink::new(alloc, ROOM, piece, self.failing_writes.as_slice()).map_err(
            |_| ErrorKind::OutOfMemory,
        )?;
        let mut ran = None;
        let status = ivshm(
            rt,
            alloc,
            self.words.as_slice(),
            &mut source,
            &mut sink,
            &OpenGate,
            &mut ran,
        );
        Ok(Answer {
            status: u64::from(status.exit_number()),
            output: sink.bytes().to_vec(alloc)?,
            has_run: ran.is_some(),
        })
    }
}
