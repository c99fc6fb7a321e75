//! The meaning of a difference, in words: the law, the fields of the two lines, and the lines
//! around.

use crate::difference_text::line_in_record;
use crate::differences::Difference;
use ivs_base::Frame;
use lawful_history::Line;
use record_text::put_lines;
use split_ring::{SHORTEST_FRAME, high_half, low_half};
use std::alloc::{AllocError, Global};
use trace_replay::Law;

/// The length of an Ethernet frame's header in bytes, which is that of the shortest frame.
const HEADER: usize = SHORTEST_FRAME as usize;

/// The number of lines that are shown before the differing one, and after it.
const AROUND: usize = 3;

/// The statement of a law.
fn law_words(law: Law) -> &'static str {
    match law {
        Law::Order =>
            "order: the schedule has another peer's step there, or the histories don't end together\n",
        Law::Device =>
            "device: the registers, interrupts, MSI-X region or configuration space of the device say otherwise\n",
        Law::Touch => "touch: a peer wrote where it may not, or was denied where it may\n",
        Law::Memory => "memory: a read gives the value that was written last to its word\n",
        Law::Link =>
            "link: the marks of a call (saw, look, accept, deliver, refuse ..) follow from what it read\n",
        Law::Call => "call: the call takes another step there\n",
    }
}

/// The fields of an Ethernet frame by their names.
fn frame_words(alloc: Global, which: &str, frame: &Frame) -> Result<String, AllocError> {
    let bytes = frame.bytes();
    let size = bytes.len();
    if size < HEADER {
        return format!(in alloc;
            "{which}: a frame of {size} bytes, too short for a header of {HEADER}\n"
        );
    }
    let to = hex::encode(alloc, &bytes[..6])?;
    let from = hex::encode(alloc, &bytes[6..12])?;
    let kind = hex::encode(alloc, &bytes[12..HEADER])?;
    let data = size - HEADER;
    format!(in alloc;
        "{which}: a frame of {size} bytes: destination {to}, source {from}, type {kind}, then {data} bytes\n"
    )
}

/// The value of a word in its halves and in hexadecimal.
fn value_words(
    alloc: Global,
    which: &str,
    verb: &str,
    peer: u32,
    word: u32,
    value: u32,
) -> Result<String, AllocError> {
    let low = low_half(value);
    let high = high_half(value);
    format!(in alloc;
        "{which}: peer {peer} {verb} word {word}, value {value}, which is {high} in the high half and {low} in the low half\n"
    )
}

/// The fields of a line by their names; nothing if its own words say as much.
fn fields_words(alloc: Global, which: &str, line: &Line) -> Result<String, AllocError> {
    match line {
        Line::Read { peer, word, value } => {
            value_words(alloc, which, "reads", *peer, *word, *value)
        }
        Line::Write { peer, word, value } => {
            value_words(alloc, which, "writes", *peer, *word, *value)
        }
        Line::Accept { frame, .. } | Line::Deliver { frame, .. } => {
            frame_words(alloc, which, frame)
        }
        _ => Ok(String::new(alloc)),
    }
}

/// The fields of the line with this number.
fn fields_at(
    alloc: Global,
    which: &str,
    lines: &[Line],
    number: u64,
) -> Result<String, AllocError> {
    match lines.get(number.saturating_sub(1) as usize) {
        Some(line) => fields_words(alloc, which, line),
        None => Ok(String::new(alloc)),
    }
}

/// Appends the lines around the differing one, each with its number in the record.
fn put_around(alloc: Global, out: &mut Vec<u8>, difference: &Difference) -> Result<(), AllocError> {
    let lines = difference.trace.lines.items();
    let at = difference.fault.line.saturating_sub(1) as usize;
    let number = line_in_record(difference).unwrap_or(0);
    for k in at.saturating_sub(AROUND)..at.saturating_add(AROUND).min(lines.len()) {
        let its = number.saturating_sub(at as u64).saturating_add(k as u64);
        let mark = if k == at { ">" } else { " " };
        let front = format!(in alloc; "{mark} {its}: ")?;
        out.extend_from_slice(front.as_bytes())?;
        put_lines(out, &lines[k..k + 1])?;
    }
    Ok(())
}

/// The meaning of the difference.
pub fn difference_words(alloc: Global, difference: &Difference) -> Result<Vec<u8>, AllocError> {
    let line = difference.fault.line;
    let mut words = Vec::new(alloc);
    words.extend_from_slice(law_words(difference.fault.law).as_bytes())?;
    let found = fields_at(alloc, "found", difference.trace.lines.items(), line)?;
    words.extend_from_slice(found.as_bytes())?;
    let due = fields_at(alloc, "due", difference.lawful.items(), line)?;
    words.extend_from_slice(due.as_bytes())?;
    words.extend_from_slice(b"the record's lines around it:\n")?;
    put_around(alloc, &mut words, difference)?;
    Ok(words)
}
