//! Calls of the two ends of a link, over a memory that a row may change: the lines of their steps.
use crate::bytes::{add_hex, halves, number};
use link_endpoint::{Call, Endpoint};
use section_map::Geometry;
use split_ring::steps::{Access, Note};
use split_ring::{Queue, SHORTEST_FRAME};
use std::alloc::{AllocError, Global};
use std::io;
use std::io::ErrorKind;

/// The number of words of the region: a State Table of 1,024 words, and two sections of 4,096.
const WORDS: usize = 9_216;

/// The size of a section, in bytes.
const SECTION: u64 = 16_384;

/// A link: the words of its region, its two ends, and the lines of their steps.
#[derive(Drop)]
struct Link {
    words: Vec<u32>,
    first: Endpoint,
    second: Endpoint,
    lines: String,
}

/// Sets a word of the region.
fn put(words: &mut [u32], word: usize, value: u32) -> io::Result<u32> {
    if word >= words.len() {
        return Err(io::Error::from(ErrorKind::NotFound));
    }
    words[word] = value;
    Ok(0)
}

/// Makes an access of peer `me`. Returns the value that a read meets, and 0 for another access.
fn met(words: &mut [u32], me: u32, access: Access) -> io::Result<u32> {
    match access {
        Access::Read(word) => Ok(*words.get(word as usize).ok_or(ErrorKind::NotFound)?),
        Access::Write(word, value) => put(words, word as usize, value),
        Access::State(state) => put(words, me as usize, state),
        Access::Ring { .. } | Access::Nothing => Ok(0),
    }
}

/// Adds the line of an access of peer `me` that met `value`.
fn add_access(lines: &mut String, me: u32, access: Access, value: u32) -> Result<(), AllocError> {
    match access {
        Access::Read(word) => write!(lines, "r {me} {word} {value}\n"),
        Access::Write(word, value) => write!(lines, "w {me} {word} {value}\n"),
        Access::State(state) => write!(lines, "s {me} {state}\n"),
        Access::Ring { target, vector } => write!(lines, "d {me} {target} {vector}\n"),
        Access::Nothing => write!(lines, "idle {me}\n"),
    }
}

/// Adds the line of a mark with the bytes of a frame.
fn add_frame(
    alloc: Global,
    lines: &mut String,
    me: u32,
    mark: &str,
    frame: &[u8],
) -> Result<(), AllocError> {
    let digits = hex::encode(alloc, frame)?;
    let digits = digits.as_str();
    write!(lines, "{mark} {me} {digits}\n")
}

/// Adds the line of a note of peer `me`.
fn add_note(
    alloc: Global,
    lines: &mut String,
    me: u32,
    end: &Endpoint,
    note: Note,
) -> Result<(), AllocError> {
    match note {
        Note::Saw(value) => write!(lines, "saw {me} {value}\n"),
        Note::Reclaim(count) => write!(lines, "reclaim {me} {count}\n"),
        Note::Full => write!(lines, "full {me}\n"),
        Note::Accept => add_frame(alloc, lines, me, "accept", end.offered()),
        Note::Look(count) => write!(lines, "look {me} {count}\n"),
        Note::Deliver => add_frame(alloc, lines, me, "deliver", end.delivered()),
        Note::Return => write!(lines, "return {me}\n"),
        Note::Done => write!(lines, "done {me}\n"),
        Note::Down => write!(lines, "down {me}\n"),
        Note::Refuse(refused) => {
            let (field, value) = (refused.field, refused.value);
            write!(lines, "refuse {me} {field:?} {value}\n")
        }
        Note::Over => write!(lines, "over {me}\n"),
    }
}

/// Opens the call of this name. An offer has the digits of its frame.
fn open(alloc: Global, end: &mut Endpoint, name: &str, digits: &str) -> io::Result<()> {
    if end.busy() {
        return Err(io::Error::from(ErrorKind::InvalidData));
    }
    match name {
        "tick" => end.begin(Call::Tick),
        "poll" => end.begin(Call::Poll),
        "stop" => end.begin(Call::Stop),
        "offer" => {
            let mut frame = Vec::new(alloc);
            add_hex(alloc, &mut frame, digits)?;
            if !(SHORTEST_FRAME as usize..=end.longest() as usize).contains(&frame.len()) {
                return Err(io::Error::from(ErrorKind::InvalidData));
            }
            end.offer(frame.as_slice());
        }
        _ => return Err(io::Error::from(ErrorKind::InvalidData)),
    }
    Ok(())
}

/// The steps of a peer's call that a row asks for: at most how many, and whether the lines count.
#[derive(Clone, Copy)]
struct Asked {
    me: u32,
    most: u64,
    is_quiet: bool,
}

/// Makes these steps of the open call, and adds their lines.
fn step(
    alloc: Global,
    words: &mut [u32],
    end: &mut Endpoint,
    asked: Asked,
    lines: &mut String,
) -> io::Result<()> {
    let me = asked.me;
    for _ in 0..asked.most {
        if !end.busy() {
            break;
        }
        let access = end.next();
        let value = met(words, me, access)?;
        let notes = end.took(value);
        if !asked.is_quiet {
            add_access(lines, me, access, value)?;
            for note in notes.as_slice() {
                add_note(alloc, lines, me, &*end, *note)?;
            }
        }
    }
    Ok(())
}

/// Makes the steps of the call with this name, or the rest of the open call.
fn call(
    alloc: Global,
    words: &mut [u32],
    end: &mut Endpoint,
    asked: Asked,
    call: &str,
    lines: &mut String,
) -> io::Result<()> {
    let (name, digits) = halves(call);
    if name != "rest" {
        open(alloc, end, name, digits)?;
    }
    step(alloc, words, end, asked, lines)
}

impl Link {
    /// Returns a link of this version. Its memory has zeros, and both ends are new.
    fn new(alloc: Global, version: u32, mtu: u32) -> io::Result<Link> {
        let Ok(geometry) = Geometry::new(2, 4_096, 0, SECTION) else {
            return Err(io::Error::from(ErrorKind::InvalidData));
        };
        if !(1..=3).contains(&version) {
            return Err(io::Error::from(ErrorKind::InvalidData));
        }
        let Ok(queue) = Queue::of_version(version, SECTION, mtu) else {
            return Err(io::Error::from(ErrorKind::InvalidData));
        };
        Ok(Link {
            words: vec![in alloc; 0; WORDS]?,
            first: Endpoint::new(alloc, 0, &geometry, &queue, 1).map_err(
                |_| ErrorKind::OutOfMemory,
            )?,
            second: Endpoint::new(alloc, 1, &geometry, &queue, 1).map_err(
                |_| ErrorKind::OutOfMemory,
            )?,
            lines: String::new(alloc),
        })
    }

    /// Takes a line of the input: `put WORD VALUE`, or a call.
    fn take(&mut self, alloc: Global, line: &str) -> io::Result<()> {
        let words = self.words.as_mut_slice();
        if let Some(rest) = line.strip_prefix("put ") {
            let (word, value) = halves(rest);
            let value = value.parse::<u32>().map_err(|_| ErrorKind::InvalidData)?;
            put(words, number(word)? as usize, value)?;
            return Ok(());
        }
        let (is_quiet, line) = match line.strip_prefix("quietly ") {
            Some(rest) => (true, rest),
            None => (false, line),
        };
        let (most, line) = match line.strip_prefix("first ") {
            Some(rest) => {
                let (count, rest) = halves(rest);
                (number(count)?, rest)
            }
            None => (u64::MAX, line),
        };
        let lines = &mut self.lines;
        let asked = |me: u32| Asked { me, most, is_quiet };
        match halves(line) {
            ("0", rest) => call(alloc, words, &mut self.first, asked(0), rest, lines),
            ("1", rest) => call(alloc, words, &mut self.second, asked(1), rest, lines),
            _ => Err(io::Error::from(ErrorKind::InvalidData)),
        }
    }
}

/// Returns the lines of the calls that the input has, one a line.
pub(crate) fn lines(alloc: Global, input: &[u8], version: u32, mtu: u32) -> io::Result<Vec<u8>> {
    let text = str::from_utf8(input).map_err(|_| ErrorKind::InvalidData)?;
    let mut link = Link::new(alloc, version, mtu)?;
    for line in text.split_terminator('\n') {
        link.take(alloc, line)?;
    }
    Ok(link.lines.into_bytes())
}
