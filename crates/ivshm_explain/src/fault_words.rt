//! The fault of a refused text and the right words there, in words.

use crate::capture_words::capture_words;
use crate::image_words::image_words;
use crate::line_words::bad_line_words;
use crate::number_words::{bad_number_words, bytes_words};
use crate::order_words::{bad_order_words, bad_peer_words, not_running_words};
use crate::shapes::Grammar;
use crate::size_words::{bad_geometry_words, no_end_words};
use crate::texts::FaultyText;
use frame_capture::MOST_ACTS;
use line_format::cut;
use program_edge::{Command, Place, Reason, Refusal, limit};
use split_ring::{FRAME_OVERHEAD, LEAST_MTU, SHORTEST_FRAME};
use std::alloc::{AllocError, Global};

/// Whether a line `end` precedes the line with this number, or is anywhere if the number is 0.
fn is_after_scenario(bytes: &[u8], number: u64) -> bool {
    let last = if number == 0 { u64::MAX } else { number };
    let mut rest = bytes;
    for _ in 1..last {
        let Some((line, more)) = cut(b'\n', rest) else {
            return false;
        };
        if line == b"end".as_slice() {
            return true;
        }
        rest = more;
    }
    false
}

/// A refused text, as the lines around the faulty one are read.
fn faulty_text(form: Command, bytes: &[u8], number: u64) -> FaultyText {
    let (grammar, before) = match form {
        Command::Ports => (Grammar::Ports, 0),
        Command::Bridge => (Grammar::Bridge, 0),
        Command::Replay | Command::Renew | Command::Capture(_) => {
            if number == 1 || is_after_scenario(bytes, number) {
                (Grammar::History, 1)
            } else {
                (Grammar::Scenario, 1)
            }
        }
        _ => (Grammar::Scenario, 0),
    };
    FaultyText {
        bytes,
        grammar,
        before,
    }
}

/// The least and the most bytes of a frame of this text.
fn frame_sizes(text: &FaultyText) -> (u64, u64) {
    let least = u64::from(SHORTEST_FRAME);
    match text.grammar {
        Grammar::Bridge => (least, u64::from(LEAST_MTU) + FRAME_OVERHEAD),
        _ => (
            least,
            text.head_number(b"mtu").saturating_add(FRAME_OVERHEAD),
        ),
    }
}

/// The fault of the text as a whole, in words.
fn whole_words(alloc: Global, text: &FaultyText, reason: Reason) -> Result<String, AllocError> {
    match reason {
        Reason::NoEnd => no_end_words(alloc, text),
        Reason::BadPeer => {
            let last = text.peers().saturating_sub(1);
            format!(in alloc;
                "the scenario has no such peer: `config 0` to `config {last}` are due\n"
            )
        }
        Reason::BadCount { kept, found } => {
            format!(in alloc;
                "the last line states {kept} history lines, and there are {found}: `end {found}` is due\n"
            )
        }
        _ => format!(in alloc; "the text is refused\n"),
    }
}

/// The fault of the line with this number, in words.
fn line_words(
    alloc: Global,
    text: &FaultyText,
    number: u64,
    reason: Reason,
) -> Result<String, AllocError> {
    match reason {
        Reason::BadLine => bad_line_words(alloc, text, number),
        Reason::BadOrder => bad_order_words(alloc, text, number),
        Reason::BadNumber => bad_number_words(alloc, text, number),
        Reason::BadPeer => bad_peer_words(alloc, text, number),
        Reason::BadFrame => {
            let (least, most) = frame_sizes(text);
            bytes_words(alloc, text, number, least, most)
        }
        Reason::BadMessage => bytes_words(alloc, text, number, 1, text.head_number(b"message")),
        Reason::BadGeometry => bad_geometry_words(alloc, text, number),
        Reason::TooManyTurns => {
            format!(in alloc;
                "with this line the acts count for more than {MOST_ACTS}: a `turn P K` counts for K, and any other act for 1\n"
            )
        }
        Reason::TooManyFrames => { format!(in alloc; "this is frame 10001: 10000 are the most\n") }
        Reason::NotRunning => not_running_words(alloc, text, number),
        _ => format!(in alloc; "the line is refused\n"),
    }
}

/// The fault of a text that a form refuses, in words.
fn text_words(
    alloc: Global,
    form: Command,
    bytes: &[u8],
    refusal: Refusal,
) -> Result<String, AllocError> {
    let text = faulty_text(form, bytes, refusal.place.number());
    match refusal.place {
        Place::Line(number) => line_words(alloc, &text, number, refusal.reason),
        _ => whole_words(alloc, &text, refusal.reason),
    }
}

/// The fault of the bytes that a form refuses, and the right bytes there, in words.
pub fn fault_words(
    alloc: Global,
    form: Command,
    bytes: &[u8],
    refusal: Refusal,
) -> Result<String, AllocError> {
    if refusal.reason == Reason::TooLong {
        let most = limit(form).unwrap_or(0);
        return format!(in alloc; "there are more than {most} bytes, and this form reads no more\n");
    }
    match form {
        Command::Dump => image_words(alloc, bytes, refusal),
        Command::Feed(_) => capture_words(alloc, bytes, refusal),
        _ => text_words(alloc, form, bytes, refusal),
    }
}
