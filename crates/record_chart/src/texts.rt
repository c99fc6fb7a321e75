//! The text of a picture, for a terminal.
ghost use Rattle.std.specs.Prelude.{◌≤◌};

use crate::arrows::Arrow;
use crate::labels::{label_of, state_name};
use crate::lines::line_at;
use crate::pages::Page;
use crate::pictures::Picture;
use crate::rows::Row;
use crate::titles::{has_line, left_out_words, shown_by, title_of};
use crate::tracks::{call_of, ends_call, state_after};
use ivs_base::NoMemory;
use lawful_history::Line;
use record_text::Trace;
use std::alloc::{AllocError, Global};

/// The right edge of the numbers of lines, in characters.
const NUMBER: usize = 11;

/// The left edge of the first column, in characters.
const LEFT: usize = 13;

/// The width of a peer's column, in characters.
const COLUMN: usize = 42;

/// The greatest number of peers.
const PEERS: usize = 8;

/// Returns the left edge of a peer's column.
fn column_at(peer: usize) -> usize
    ensures { result ≤ 400 }
{
    LEFT + COLUMN * peer.min(PEERS)
}

/// Returns the sign of a line next to its peer's label, and whether a call of the peer is open
/// after it. `open` says whether one is open before it.
fn call_sign(open: bool, line: &Line) -> (&'static str, bool) {
    match (call_of(line), open) {
        (Some(_), _) if ends_call(line) => (if open { "\\" } else { "-" }, false),
        (Some(_), true) => ("|", true),
        (Some(_), false) => ("/", true),
        (None, true) if matches!(line, Line::Reset { .. }) => ("~", false),
        (None, true) => ("|", true),
        (None, false) => (" ", false),
    }
}

/// Appends the heads of the columns: each peer's number, kind and State before the first row.
fn put_heads(alloc: Global, page: &mut Page, trace: &Trace, first: u64) -> Result<(), NoMemory> {
    let lines = trace.lines.items();
    let before = first.saturating_sub(1).min(lines.len() as u64) as usize;
    page.put_left_of(NUMBER, "line")?;
    for (at, honest) in trace.scenario.honest.items().iter().enumerate() {
        let kind = if *honest { "honest" } else { "hostile" };
        let state = state_name(state_after(&lines[..before], at.min(PEERS) as u32));
        let head = format!(in alloc; "peer {at}, {kind}, {state}")?;
        page.put(column_at(at) + 2, head.as_str())?;
    }
    page.end_row()
}

/// Returns the other end of the arrow from a line or to it, with a sign; nothing if there is none.
fn arrow_text(alloc: Global, arrows: &[Arrow], number: u64) -> Result<String, AllocError> {
    for arrow in arrows {
        if arrow.to == number {
            let from = arrow.from;
            return format!(in alloc; " <- {from}");
        }
        if arrow.from == number {
            let to = arrow.to;
            return format!(in alloc; " -> {to}");
        }
    }
    Ok(String::new(alloc))
}

/// Returns the label of a row with the other end of its arrow.
fn words_of(
    alloc: Global,
    trace: &Trace,
    picture: &Picture,
    line: &Line,
    row: &Row,
) -> Result<String, AllocError> {
    let label = label_of(alloc, &trace.scenario, &picture.storms, line, row)?;
    match line {
        Line::Accept { .. } | Line::Deliver { .. } => {
            let arrow = arrow_text(alloc, &picture.arrows, row.first)?;
            format!(in alloc; "{label}{arrow}")
        }
        _ => Ok(label),
    }
}

/// Writes the cells of a row: the label in its peer's column, and a bar in each column whose peer
/// has an open call.
fn put_cells(
    page: &mut Page,
    open: &[bool; 8],
    peer: usize,
    sign: &str,
    words: &str,
) -> Result<(), NoMemory> {
    for at in 0..PEERS {
        if at == peer {
            page.put(column_at(at), sign)?;
            page.put(column_at(at) + 2, words)?;
        } else if open[at] {
            page.put(column_at(at), "|")?;
        }
    }
    if peer >= PEERS {
        page.put(column_at(0) + 2, words)?;
    }
    Ok(())
}

/// Appends the rows.
fn put_rows(
    alloc: Global,
    page: &mut Page,
    trace: &Trace,
    picture: &Picture,
    differs: Option<u64>,
) -> Result<(), NoMemory> {
    let mut open = [false; 8];
    for row in &picture.rows {
        let Some(line) = line_at(trace.lines.items(), row.first) else {
            continue;
        };
        let peer = line.peer() as usize;
        let mut sign = " ";
        if peer < PEERS && trace.scenario.is_link(peer as u32) {
            let (its, is_open) = call_sign(open[peer], line);
            sign = its;
            open[peer] = is_open;
        }
        let words = words_of(alloc, trace, picture, line, row)?;
        let number = row.first;
        let number = format!(in alloc; "{number}")?;
        page.put(0, if has_line(row, differs) { ">" } else { "" })?;
        page.put_left_of(NUMBER, number.as_str())?;
        put_cells(page, &open, peer, sign, words.as_str())?;
        page.end_row()?;
    }
    Ok(())
}

/// Returns the text of a picture of the lines of a record from line `first` on, for a terminal. The
/// record has `total` lines, and differs from the lawful history first at line `differs`, if it
/// does. The trace has all lines that are shown, and those before them.
pub fn draw_text(
    alloc: Global,
    trace: &Trace,
    total: u64,
    first: u64,
    picture: &Picture,
    differs: Option<u64>,
) -> Result<Vec<u8>, NoMemory> {
    let mut page = Page::new(alloc);
    let title = title_of(alloc, first, shown_by(&picture.rows), total, differs)?;
    page.put(0, title.as_str())?;
    page.end_row()?;
    put_heads(alloc, &mut page, trace, first)?;
    put_rows(alloc, &mut page, trace, picture, differs)?;
    if picture.left_out > 0 {
        let words = left_out_words(alloc, picture.left_out)?;
        page.put(0, words.as_str())?;
        page.end_row()?;
    }
    Ok(page.into_bytes())
}
