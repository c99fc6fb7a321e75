//! The label of a row, next to its mark.

use crate::rows::Row;
use crate::words::{value_text, word_name};
use ivs_base::Frame;
use lawful_history::Line;
use scenario_text::Scenario;
use split_ring::{FieldName, Refused};
use std::alloc::{AllocError, Global};

/// The number of bytes of a frame that are shown.
const FIRST_BYTES: usize = 6;

/// Returns the name of a state. Every state above 3 counts as RUN.
pub fn state_name(state: u32) -> &'static str {
    match state {
        0 => "RESET",
        1 => "INIT",
        2 => "READY",
        3 => "RUN",
        _ => "as RUN",
    }
}

/// Returns a count with a comma before each three digits.
pub fn grouped(alloc: Global, count: u64) -> Result<String, AllocError> {
    let thousands = count / 1000;
    let rest = count % 1000;
    if thousands == 0 {
        format!(in alloc; "{rest}")
    } else if thousands < 1000 {
        format!(in alloc; "{thousands},{rest:03}")
    } else {
        let millions = thousands / 1000;
        let middle = thousands % 1000;
        format!(in alloc; "{millions},{middle:03},{rest:03}")
    }
}

/// Returns `3 turns`, or `1 turn`.
fn counted(alloc: Global, count: u64, one: &str, many: &str) -> Result<String, AllocError> {
    if count == 1 {
        return format!(in alloc; "1 {one}");
    }
    let count = grouped(alloc, count)?;
    format!(in alloc; "{count} {many}")
}

/// Returns the length of a frame and its first bytes.
fn frame_text(alloc: Global, verb: &str, frame: &Frame) -> Result<String, AllocError> {
    let bytes = frame.bytes();
    let size = bytes.len();
    let first = hex::encode(alloc, &bytes[..size.min(FIRST_BYTES)])?;
    let more = if size > FIRST_BYTES { ".." } else { "" };
    format!(in alloc; "{verb} {size} bytes {first}{more}")
}

/// Returns a field and the value that was refused.
fn refusal_text(alloc: Global, refused: &Refused) -> Result<String, AllocError> {
    let field = refused.field.name();
    let value = refused.value;
    format!(in alloc; "refuses {field} {value}")
}

/// Returns the label of a write.
fn one_write_text(
    alloc: Global,
    scenario: &Scenario,
    peer: u32,
    word: u32,
    value: u32,
) -> Result<String, AllocError> {
    let name = word_name(alloc, scenario, peer, word)?;
    let value = value_text(alloc, scenario, word, value)?;
    format!(in alloc; "{name} = {value}")
}

/// The relation between the lines of a row.
#[derive(Clone, Copy, Debug, PartialEq, Eq)]
pub enum Folded {
    One,
    Storm(u64),
    Clear(u64),
}

/// Returns how the writes of a row belong together. `peer` makes the first of them.
pub fn folded_of(storms: &[u32], peer: u32, row: &Row) -> Folded {
    if row.count == 1 {
        Folded::One
    } else if storms.contains(&peer) {
        Folded::Storm(row.count)
    } else {
        Folded::Clear(row.count)
    }
}

/// Returns the label of a write, or of the writes that share a row.
fn write_text(
    alloc: Global,
    scenario: &Scenario,
    peer: u32,
    word: u32,
    value: u32,
    folded: Folded,
) -> Result<String, AllocError> {
    match folded {
        Folded::Storm(count) => {
            let writes = counted(alloc, count, "write", "writes")?;
            format!(in alloc; "storm, {writes}")
        }
        Folded::Clear(count) => {
            let count = grouped(alloc, count)?;
            format!(in alloc; "{count} words cleared")
        }
        Folded::One => one_write_text(alloc, scenario, peer, word, value),
    }
}
/// Returns the label of a device access.
fn device_text(alloc: Global, line: &Line) -> Result<String, AllocError> {
    match line {
        Line::ConfigRead {
            offset,
            width,
            value,
            ..
        } => {
            let bytes = counted(alloc, u64::from(*width), "byte", "bytes")?;
            format!(in alloc; "config {offset}, {bytes}: {value}")
        }
        Line::ConfigWrite {
            offset,
            width,
            value,
            ..
        } => {
            let bytes = counted(alloc, u64::from(*width), "byte", "bytes")?;
            format!(in alloc; "config {offset}, {bytes} = {value}")
        }
        Line::RegisterRead { offset, value, .. } => {
            let name = register_name(*offset);
            format!(in alloc; "register {offset}{name}: {value}")
        }
        Line::RegisterWrite { offset, value, .. } => {
            let name = register_name(*offset);
            format!(in alloc; "register {offset}{name} = {value}")
        }
        Line::MsixRead { offset, value, .. } => format!(in alloc; "MSI-X {offset}: {value}"),
        Line::MsixWrite { offset, value, .. } => format!(in alloc; "MSI-X {offset} = {value}"),
        _ => format!(in alloc; "?"),
    }
}

/// Returns the name of a register, by its byte offset.
fn register_name(offset: u32) -> &'static str {
    match offset {
        0 => " ID",
        4 => " Maximum Peers",
        8 => " Interrupt Control",
        12 => " Doorbell",
        16 => " State",
        _ => "",
    }
}

/// Returns the label of a mark.
fn mark_text(alloc: Global, line: &Line) -> Result<String, AllocError> {
    match line {
        Line::Saw { value, .. } => {
            let name = state_name(*value);
            format!(in alloc; "saw {value} {name}")
        }
        Line::Reclaim { count, .. } => format!(in alloc; "finds {count} returned"),
        Line::Look { count, .. } => format!(in alloc; "finds {count} new"),
        Line::Full { .. } => format!(in alloc; "full"),
        Line::Done { .. } => format!(in alloc; "done"),
        Line::Over { .. } => format!(in alloc; "over"),
        Line::Down { .. } => format!(in alloc; "not in RUN"),
        Line::Accept { frame, .. } => frame_text(alloc, "accepts", frame),
        Line::Deliver { frame, .. } => frame_text(alloc, "delivers", frame),
        Line::Return { .. } => format!(in alloc; "returned one"),
        Line::Refuse { refused, .. } => refusal_text(alloc, refused),
        Line::Session { opened, other, .. } => {
            format!(in alloc; "session {opened} with {other}")
        }
        _ => device_text(alloc, line),
    }
}

/// Returns the label of a write of the Doorbell register.
fn bell_text(alloc: Global, peer: u32, target: u32, vector: u32) -> Result<String, AllocError> {
    if target == peer {
        return format!(in alloc; "rings itself, vector {vector}");
    }
    format!(in alloc; "rings {target}, vector {vector}")
}

/// Returns the label of a row, by its first line.
pub fn label_of(
    alloc: Global,
    scenario: &Scenario,
    storms: &[u32],
    line: &Line,
    row: &Row,
) -> Result<String, AllocError> {
    match line {
        Line::Read { peer, word, value } => {
            let name = word_name(alloc, scenario, *peer, *word)?;
            let value = value_text(alloc, scenario, *word, *value)?;
            format!(in alloc; "{name}: {value}")
        }
        Line::Write { peer, word, value } => {
            let folded = folded_of(storms, *peer, row);
            write_text(alloc, scenario, *peer, *word, *value, folded)
        }
        Line::Denied { peer, word } => {
            let name = word_name(alloc, scenario, *peer, *word)?;
            format!(in alloc; "denied: {name}")
        }
        Line::State { value, .. } => {
            let name = state_name(*value);
            format!(in alloc; "State = {value} {name}")
        }
        Line::Doorbell {
            peer,
            target,
            vector,
        } => bell_text(alloc, *peer, *target, *vector),
        Line::Interrupt { vector, .. } => format!(in alloc; "interrupt, vector {vector}"),
        Line::Lost { vector, .. } => format!(in alloc; "lost interrupt, vector {vector}"),
        Line::Reset { .. } => format!(in alloc; "device reset"),
        Line::Idle { .. } => {
            let turns = counted(alloc, row.count, "turn", "turns")?;
            format!(in alloc; "idle, {turns}")
        }
        _ => mark_text(alloc, line),
    }
}
