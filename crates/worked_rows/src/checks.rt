//! The expected output of a row, and the report of a difference.
use crate::runs::{Run, run_difference};
use std::alloc::{AllocError, Global};

/// The kind of an expectation.
#[derive(Clone, Copy, PartialEq, Eq)]
pub(crate) enum Kind {
    /// The output is the bytes.
    Whole,
    /// The output begins with the bytes.
    Begins,
    /// The output ends with the bytes.
    Ends,
    /// The output contains the bytes.
    Has,
    /// This number of lines begin with the bytes.
    Count(u64),
    /// This number of lines equal the bytes.
    Lines(u64),
    /// The line with this number equals the bytes.
    Line(u64),
    /// The lines with the beginning are the bytes, one after another.
    Only,
    /// Among the lines that begin like the bytes, a run has exactly these numbers in place of `#`.
    Run(Run),
}

/// An expectation: its kind, the beginning of the lines that it concerns, and the bytes to compare
/// with.
#[derive(Drop)]
pub(crate) struct Wanted {
    pub(crate) kind: Kind,
    pub(crate) beginning: Vec<u8>,
    pub(crate) bytes: Vec<u8>,
}

/// The most bytes of a line that are shown.
const SHOWN: usize = 80;

/// Adds bytes in quotes. A byte without a letter or sign is shown by its two hexadecimal digits.
pub(crate) fn add_shown(out: &mut String, bytes: &[u8]) -> Result<(), AllocError> {
    out.push('\'')?;
    for byte in bytes.iter().take(SHOWN) {
        if byte.is_ascii_graphic() || *byte == b' ' {
            out.push(char::from(*byte))?;
        } else {
            write!(out, "\\x{byte:02x}")?;
        }
    }
    out.push('\'')
}

/// Returns the number of line ends in the bytes.
fn line_ends(bytes: &[u8]) -> usize {
    bytes.iter().filter(|byte| **byte == b'\n').count()
}

/// Returns the first `count` bytes, or all if there are fewer.
fn front_of(bytes: &[u8], count: usize) -> &[u8] {
    &bytes[..count.min(bytes.len())]
}

/// Returns the bytes from an offset on, up to the next line end.
fn line_from(bytes: &[u8], start: usize) -> &[u8] {
    let rest = bytes.get(start..).unwrap_or(&[]);
    rest.split(|byte| *byte == b'\n').next().unwrap_or(&[])
}

/// Returns the number of bytes after the last line end.
fn last_length(bytes: &[u8]) -> usize {
    let mut count: usize = 0;
    for byte in bytes {
        count = if *byte == b'\n' {
            0
        } else {
            count.saturating_add(1)
        };
    }
    count
}

/// Returns the length of the common prefix.
fn same_bytes(found: &[u8], wanted: &[u8]) -> usize {
    let mut count: usize = 0;
    for (one, other) in found.iter().zip(wanted.iter()) {
        if *one != *other {
            return count;
        }
        count = count.saturating_add(1);
    }
    count
}

/// Returns the first difference of the two, or `None` if they are equal. `number` is the number of
/// the first line.
fn difference(
    alloc: Global,
    number: usize,
    found: &[u8],
    wanted: &[u8],
) -> Result<Option<String>, AllocError> {
    if found == wanted {
        return Ok(None);
    }
    let same = same_bytes(found, wanted);
    let front = front_of(wanted, same);
    let line = number.saturating_add(line_ends(front));
    let last = last_length(front);
    let byte = last.saturating_sub(SHOWN / 2);
    let start = same.saturating_sub(last.min(SHOWN / 2));
    let mut text = format!(in alloc; "line {line} from byte {byte} is ")?;
    let is = line_from(found, start);
    add_shown(&mut text, is)?;
    text.push_str(", and must be ")?;
    let due = line_from(wanted, start);
    add_shown(&mut text, due)?;
    Ok(Some(text))
}

/// Returns a report of the number of lines found, if it isn't the expected one.
fn count_difference(
    alloc: Global,
    found: usize,
    wanted: u64,
    are: &str,
    bytes: &[u8],
) -> Result<Option<String>, AllocError> {
    if found as u64 == wanted {
        return Ok(None);
    }
    let mut text = format!(in alloc; "{found} lines {are} ")?;
    add_shown(&mut text, bytes)?;
    write!(text, ", and must be {wanted}")?;
    Ok(Some(text))
}

/// Returns a report if the output doesn't contain the bytes.
fn missing(alloc: Global, found: &[u8], bytes: &[u8]) -> Result<Option<String>, AllocError> {
    for start in 0..=found.len() {
        if found.get(start..).unwrap_or(&[]).starts_with(bytes) {
            return Ok(None);
        }
    }
    let mut text = String::from_str(alloc, "the output has no ")?;
    add_shown(&mut text, bytes)?;
    Ok(Some(text))
}

/// Returns the difference between the end of the output and these bytes.
fn end_difference(alloc: Global, found: &[u8], bytes: &[u8]) -> Result<Option<String>, AllocError> {
    let start = found.len().saturating_sub(bytes.len());
    let front = front_of(found, start);
    let end = found.get(start..).unwrap_or(&[]);
    difference(alloc, line_ends(front).saturating_add(1), end, bytes)
}

/// Returns the difference between the line with this number and these bytes.
fn line_difference(
    alloc: Global,
    number: u64,
    found: &[u8],
    bytes: &[u8],
) -> Result<Option<String>, AllocError> {
    let place = number.saturating_sub(1) as usize;
    let line = found.split(|byte| *byte == b'\n').nth(place).unwrap_or(&[]);
    difference(alloc, place.saturating_add(1), line, bytes)
}

/// Returns the lines with this beginning, one after another.
fn lines_beginning(alloc: Global, found: &[u8], beginning: &[u8]) -> Result<Vec<u8>, AllocError> {
    let mut lines = Vec::new(alloc);
    for line in found.split(|byte| *byte == b'\n') {
        if line.starts_with(beginning) {
            lines.extend_from_slice(line)?;
            lines.push(b'\n')?;
        }
    }
    Ok(lines)
}

impl Wanted {
    /// Returns the difference between this output and the expectation.
    pub(crate) fn fault(&self, alloc: Global, found: &[u8]) -> Result<Option<String>, AllocError> {
        let bytes = self.bytes.as_slice();
        match self.kind {
            Kind::Whole => difference(alloc, 1, found, bytes),
            Kind::Begins => {
                let front = front_of(found, bytes.len());
                difference(alloc, 1, front, bytes)
            }
            Kind::Ends => end_difference(alloc, found, bytes),
            Kind::Has => missing(alloc, found, bytes),
            Kind::Count(wanted) => {
                let lines = found.split(|byte| *byte == b'\n');
                let count = lines.filter(|line| line.starts_with(bytes)).count();
                count_difference(alloc, count, wanted, "begin with", bytes)
            }
            Kind::Lines(wanted) => {
                let lines = found.split(|byte| *byte == b'\n');
                let count = lines.filter(|line| *line == bytes).count();
                count_difference(alloc, count, wanted, "are", bytes)
            }
            Kind::Line(number) => line_difference(alloc, number, found, bytes),
            Kind::Only => {
                let lines = lines_beginning(alloc, found, self.beginning.as_slice())?;
                difference(alloc, 1, lines.as_slice(), bytes)
            }
            Kind::Run(wanted) => run_difference(alloc, wanted, found, bytes),
        }
    }
}
