//! The tracks of a peer's column: the band of its state, and the brackets of its calls.

use crate::labels::state_name;
use crate::lines::line_at;
use crate::places::{ROW, column_x, row_y};
use crate::rows::Row;
use crate::sheets::Sheet;
use ivs_base::NoMemory;
use lawful_history::Line;
use split_ring::FieldName;

/// An open call: the row of its first step, and its name as far as it is known.
#[derive(Clone, Copy, Debug, PartialEq, Eq)]
struct Call {
    from: usize,
    name: &'static str,
}

/// Returns the state that a line sets the peer to, if it sets one.
fn state_set(line: &Line, peer: u32) -> Option<u32> {
    match line {
        Line::State {
            peer: writer,
            value,
        } if *writer == peer => Some(*value),
        Line::Reset { peer: owner } if *owner == peer => Some(0),
        _ => None,
    }
}

/// Returns the state of the peer after these lines, a prefix of a history.
pub fn state_after(lines: &[Line], peer: u32) -> u32 {
    let mut state = 0;
    for line in lines {
        if let Some(value) = state_set(line, peer) {
            state = value;
        }
    }
    state
}

/// Returns the name of the class of a state.
pub fn state_class(state: u32) -> &'static str {
    match state {
        0 => "s0",
        1 => "s1",
        2 => "s2",
        _ => "s3",
    }
}

/// Draws the band of a state from one row to the row before another.
fn put_band(
    sheet: &mut Sheet,
    peer: u32,
    state: u32,
    from: usize,
    to: usize,
) -> Result<(), NoMemory> {
    let top = row_y(from);
    let height = row_y(to).saturating_sub(top);
    let x = column_x(peer);
    if height == 0 {
        return Ok(());
    }
    sheet.rect(state_class(state), x, top, 10, height)?;
    if height >= 4 * ROW {
        sheet.words_down("band", x + 2, top + 4, state_name(state))?;
    }
    Ok(())
}

/// Draws the band of a peer's state down its column.
pub fn put_bands(
    sheet: &mut Sheet,
    lines: &[Line],
    first: u64,
    rows: &[Row],
    peer: u32,
) -> Result<(), NoMemory> {
    let before = (first.saturating_sub(1)).min(lines.len() as u64) as usize;
    let mut state = state_after(&lines[..before], peer);
    let mut from = 0;
    for (at, row) in rows.iter().enumerate() {
        if let Some(line) = line_at(lines, row.first)
            && let Some(next) = state_set(line, peer)
        {
            put_band(sheet, peer, state, from, at)?;
            state = next;
            from = at;
        }
    }
    put_band(sheet, peer, state, from, rows.len())
}

/// Returns the name of the call of a line, as far as the line shows it, or `None` if it belongs to
/// no call.
pub fn call_of(line: &Line) -> Option<&'static str> {
    match line {
        Line::Saw { .. } => Some("tick"),
        Line::Reclaim { .. } | Line::Full { .. } | Line::Accept { .. } => Some("offer"),
        Line::Look { .. } | Line::Done { .. } | Line::Deliver { .. } | Line::Return { .. } => {
            Some("poll")
        }
        Line::Refuse { refused, .. } => match refused.field {
            FieldName::UsedIndex | FieldName::UsedId => Some("offer"),
            _ => Some("poll"),
        },
        Line::State { .. } => Some("stop"),
        Line::Read { .. } | Line::Write { .. } | Line::Over { .. } | Line::Down { .. } => {
            Some("call")
        }
        _ => None,
    }
}

/// Whether the line ends the call.
pub fn ends_call(line: &Line) -> bool {
    matches!(
        line,
        Line::Full { .. } | Line::Done { .. } | Line::Over { .. } | Line::Down { .. }
    )
}

/// Returns the name of a call after one more line, which shows the second name.
fn name_after(name: &'static str, call_name: &'static str) -> &'static str {
    match (name, call_name) {
        (_, "call") => name,
        ("call", _) => call_name,
        (_, "stop") => name,
        ("stop", _) => call_name,
        _ => name,
    }
}

/// Draws the bracket of a call from one row to another.
fn put_bracket(
    sheet: &mut Sheet,
    class: &str,
    peer: u32,
    call: Call,
    to: usize,
) -> Result<(), NoMemory> {
    let x = column_x(peer);
    let top = row_y(call.from) + 2;
    let end = row_y(to) + ROW - 2;
    sheet.step(class, (x + 20, top), x + 15, (x + 20, end))?;
    if end.saturating_sub(top) > 2 * ROW {
        sheet.words_down("call", x + 20, top + 4, call.name)?;
    }
    Ok(())
}

/// Draws the brackets of an honest peer's calls down its column.
pub fn put_calls(
    sheet: &mut Sheet,
    lines: &[Line],
    rows: &[Row],
    peer: u32,
) -> Result<(), NoMemory> {
    let mut call: Option<Call> = None;
    for (at, row) in rows.iter().enumerate() {
        let Some(line) = line_at(lines, row.first) else {
            continue;
        };
        if line.peer() != peer {
            continue;
        }
        if let Some(call_name) = call_of(line) {
            let open = call.unwrap_or(Call {
                from: at,
                name: "call",
            });
            let more = Call {
                from: open.from,
                name: name_after(open.name, call_name),
            };
            if ends_call(line) {
                put_bracket(sheet, "bracket", peer, more, at)?;
                call = None;
            } else {
                call = Some(more);
            }
        } else if matches!(line, Line::Reset { .. }) {
            if let Some(cut) = call {
                put_bracket(sheet, "bracket cut", peer, cut, at.saturating_sub(1))?;
            }
            call = None;
        }
    }
    match call {
        Some(open) => put_bracket(
            sheet,
            "bracket cut",
            peer,
            open,
            rows.len().saturating_sub(1),
        ),
        None => Ok(()),
    }
}
