//! The SVG file of a picture.

use crate::arrows::Arrow;
use crate::labels::{Folded, folded_of, label_of, state_name};
use crate::lines::line_at;
use crate::pictures::Picture;
use crate::places::{COLUMN, GUTTER, LABEL, MOST_ROWS, NUMBER, ROW, TOP, column_x, row_y};
use crate::rows::Row;
use crate::sheets::Sheet;
use crate::titles::{has_line, left_out_words, shown_by, title_of};
use crate::tracks::{put_bands, put_calls, state_class};
use ivs_base::NoMemory;
use lawful_history::Line;
use record_text::Trace;
use scenario_text::Scenario;
use std::alloc::Global;

/// The colours, for light paper and for dark paper.
const STYLE: &str = "<style>
text{font:11px system-ui,sans-serif;fill:#1f2328}
.title{font-size:14px;font-weight:600}
.peer,.state{font-weight:600}
.number{text-anchor:end;fill:#59636e}
.soft{fill:#59636e}
.warn{fill:#cf222e;font-weight:600}
.frame{fill:#8250df;font-weight:600}
.call{font-size:10px;fill:#59636e}
.band{font-size:8px;fill:#fff}
.paper{fill:#fff}
.s0{fill:#6e7781}.s1{fill:#9a6700}.s2{fill:#0969da}.s3{fill:#1a7f37}
.read{fill:none;stroke:#1f2328;stroke-width:1.2}
.write{fill:#1f2328}
.bar{fill:#afb8c1;opacity:.5}
.stripe{fill:#818b98;opacity:.12}
.differs{fill:#cf222e;opacity:.25}
.bracket{fill:none;stroke:#59636e;stroke-width:1.2}
.cut{stroke-dasharray:3 2}
.bell{fill:none;stroke:#0969da;stroke-width:1.2}
.bellhead{fill:#0969da}
.lost{fill:none;stroke:#cf222e;stroke-width:1.4;stroke-dasharray:3 2}
.reset{fill:none;stroke:#cf222e;stroke-width:1.4}
.way{fill:none;stroke:#8250df;stroke-width:4;opacity:.45;stroke-linejoin:round}
.wayhead{fill:#8250df}
@media (prefers-color-scheme:dark){
text{fill:#e6edf3}
.number,.soft,.call{fill:#9198a1}
.warn{fill:#ff7b72}.frame{fill:#d2a8ff}
.paper{fill:#0d1117}
.read{stroke:#e6edf3}.write{fill:#e6edf3}
.bar{fill:#6e7681}
.bracket{stroke:#9198a1}
.bell{stroke:#58a6ff}.bellhead{fill:#58a6ff}
.lost,.reset{stroke:#ff7b72}
.way{stroke:#d2a8ff}.wayhead{fill:#d2a8ff}
}
</style>
";

/// The shape of a row.
#[derive(Clone, Copy, Debug, PartialEq, Eq)]
enum Shape {
    Read,
    Write,
    Bar,
    Warning,
    State,
    Bell(u32),
    Comes,
    Lost,
    Reset,
    Frame,
    Mark,
}

/// Returns the shape of a row, by its first line.
fn shape_of(storms: &[u32], line: &Line, row: &Row) -> Shape {
    match line {
        Line::Read { .. }
        | Line::ConfigRead { .. }
        | Line::RegisterRead { .. }
        | Line::MsixRead { .. } => Shape::Read,
        Line::Write { peer, .. } if folded_of(storms, *peer, row) != Folded::One => Shape::Bar,
        Line::Write { .. }
        | Line::ConfigWrite { .. }
        | Line::RegisterWrite { .. }
        | Line::MsixWrite { .. } => Shape::Write,
        Line::Denied { .. } | Line::Refuse { .. } => Shape::Warning,
        Line::State { .. } | Line::Session { .. } => Shape::State,
        Line::Doorbell { target, .. } => Shape::Bell(*target),
        Line::Interrupt { .. } => Shape::Comes,
        Line::Lost { .. } => Shape::Lost,
        Line::Reset { .. } => Shape::Reset,
        Line::Accept { .. } | Line::Deliver { .. } => Shape::Frame,
        _ => Shape::Mark,
    }
}

/// Returns the class of a row's words.
fn words_class(shape: Shape) -> &'static str {
    match shape {
        Shape::Warning | Shape::Lost | Shape::Reset => "warn",
        Shape::State => "state",
        Shape::Frame => "frame",
        Shape::Mark => "soft",
        _ => "plain",
    }
}

/// Draws a doorbell as an arrow to the column of its target.
fn put_bell(sheet: &mut Sheet, peers: u32, peer: u32, target: u32, y: u64) -> Result<(), NoMemory> {
    if target >= peers || target == peer {
        return Ok(());
    }
    let x = column_x(peer);
    let end = column_x(target);
    if peer < target {
        sheet.level("bell", x + 200, end.saturating_sub(10), y)?;
        sheet.head("bellhead", end.saturating_sub(4), y, true)
    } else {
        sheet.level("bell", x.saturating_sub(4), end + COLUMN + 6, y)?;
        sheet.head("bellhead", end + COLUMN, y, false)
    }
}

/// Draws the mark of a row.
fn put_mark(
    sheet: &mut Sheet,
    peers: u32,
    peer: u32,
    shape: Shape,
    row: usize,
) -> Result<(), NoMemory> {
    let x = column_x(peer);
    let y = row_y(row) + ROW / 2;
    match shape {
        Shape::Read => sheet.circle("read", x + 38, y),
        Shape::Write => sheet.circle("write", x + 38, y),
        Shape::Bar => sheet.rect("bar", x + 34, y - 7, COLUMN - 40, 14),
        Shape::Bell(target) => put_bell(sheet, peers, peer, target, y),
        Shape::Comes => {
            sheet.level("bell", x + 18, x + 38, y)?;
            sheet.head("bellhead", x + 12, y, false)
        }
        Shape::Lost => {
            sheet.level("lost", x + 25, x + 38, y)?;
            sheet.words("warn", x + 17, y + 4, "x")
        }
        Shape::Reset => sheet.level("reset", x, x + COLUMN, y - 8),
        _ => Ok(()),
    }
}

/// Draws a row: its number, its mark and its label.
fn put_row(
    alloc: Global,
    sheet: &mut Sheet,
    trace: &Trace,
    storms: &[u32],
    at: usize,
    row: &Row,
) -> Result<(), NoMemory> {
    let Some(line) = line_at(trace.lines.items(), row.first) else {
        return Ok(());
    };
    let peers = trace.scenario.geometry.peers();
    let peer = line.peer();
    let shape = shape_of(storms, line, row);
    let base = row_y(at) + 12;
    let number = row.first;
    let number = format!(in alloc; "{number}")?;
    sheet.words("number", NUMBER, base, number.as_str())?;
    let label = label_of(alloc, &trace.scenario, storms, line, row)?;
    if peer >= peers {
        let label = format!(in alloc; "peer {peer}: {label}")?;
        return sheet.words_within("warn", column_x(0) + 46, base, LABEL, label.as_str());
    }
    put_mark(sheet, peers, peer, shape, at)?;
    sheet.words_within(
        words_class(shape),
        column_x(peer) + 46,
        base,
        LABEL,
        label.as_str(),
    )
}

/// Marks the row of the line at which the record differs from the lawful history, if it is shown.
fn put_difference(
    sheet: &mut Sheet,
    peers: u32,
    rows: &[Row],
    differs: Option<u64>,
) -> Result<(), NoMemory> {
    let width = column_x(peers) - GUTTER;
    for (at, row) in rows.iter().enumerate() {
        if has_line(row, differs) {
            sheet.rect("differs", 0, row_y(at), width, ROW)?;
        }
    }
    Ok(())
}

/// Returns the index of the row of this line, or of the first or the last row.
fn row_of(rows: &[Row], number: u64) -> usize {
    let mut found = 0;
    for (at, row) in rows.iter().enumerate() {
        if row.first <= number {
            found = at;
        }
    }
    found
}

/// Draws the arrow of a frame from its acceptance to its delivery.
fn put_arrow(
    sheet: &mut Sheet,
    lines: &[Line],
    rows: &[Row],
    arrow: &Arrow,
    lane: u64,
) -> Result<(), NoMemory> {
    let Some(line) = line_at(lines, arrow.to) else {
        return Ok(());
    };
    let is_right = line.peer() == 1;
    let left = column_x(0) + COLUMN - 4;
    let right = column_x(1) - 4;
    let lane = left + 10 + 7 * lane.min(3);
    let end = row_y(row_of(rows, arrow.to)) + ROW / 2;
    let is_seen = match rows.first() {
        Some(row) => row.first <= arrow.from,
        None => false,
    };
    let start = if is_seen {
        row_y(row_of(rows, arrow.from)) + ROW / 2
    } else {
        TOP - 4
    };
    if is_right {
        sheet.step("way", (left, start), lane, (right - 6, end))?;
        sheet.head("wayhead", right, end, true)
    } else {
        sheet.step("way", (right, start), lane, (left + 6, end))?;
        sheet.head("wayhead", left, end, false)
    }
}

/// Draws the legend of the colour of a state, 0 to 3.
fn put_state(sheet: &mut Sheet, state: u32) -> Result<(), NoMemory> {
    let x = 16 + 72 * u64::from(state.min(3));
    sheet.rect(state_class(state), x, 38, 10, 10)?;
    sheet.words("soft", x + 14, 47, state_name(state))
}

/// Draws the part above the rows: the legend of colours and marks, and the heads of the columns.
fn put_heads(alloc: Global, sheet: &mut Sheet, scenario: &Scenario) -> Result<(), NoMemory> {
    sheet.words("number", NUMBER, TOP - 14, "line")?;
    for state in 0..4 {
        put_state(sheet, state)?;
    }
    sheet.circle("read", 314, 43)?;
    sheet.words("soft", 322, 47, "reads")?;
    sheet.circle("write", 376, 43)?;
    sheet.words("soft", 384, 47, "writes")?;
    sheet.level("bell", 442, 458, 43)?;
    sheet.head("bellhead", 464, 43, true)?;
    sheet.words("soft", 470, 47, "doorbell, interrupt")?;
    sheet.level("way", 614, 628, 43)?;
    sheet.head("wayhead", 634, 43, true)?;
    sheet.words("soft", 640, 47, "frame")?;
    for (at, honest) in scenario.honest.items().iter().enumerate() {
        let kind = if *honest { "honest" } else { "hostile" };
        let peer = at.min(8) as u32;
        let words = format!(in alloc; "peer {peer}, {kind}")?;
        sheet.words("peer", column_x(peer), TOP - 14, words.as_str())?;
    }
    Ok(())
}

/// Writes the head of the file: its size, its title and its description.
fn put_start(
    alloc: Global,
    sheet: &mut Sheet,
    trace: &Trace,
    picture: &Picture,
    title: &str,
) -> Result<(), NoMemory> {
    let peers = trace.scenario.geometry.peers();
    let width = (column_x(peers) - GUTTER).max(680) + 44;
    let height = row_y(picture.rows.len()) + 40;
    let rows = picture.rows.len();
    let arrows = picture.arrows.len();
    let start = format!(in alloc;
        "<svg xmlns='http://www.w3.org/2000/svg' width='{width}' height='{height}' viewBox='0 0 {width} {height}' "
    )?;
    sheet.raw(start.as_str())?;
    let start = format!(in alloc;
        "role='img' aria-labelledby='title desc'>\n<title id='title'>{title}</title>\n"
    )?;
    sheet.raw(start.as_str())?;
    let text = format!(in alloc;
        "<desc id='desc'>A record of {peers} peers, a column for each, from the upper edge down: {rows} rows. Arrows from the acceptance of a frame to its delivery: {arrows}.</desc>\n"
    )?;
    sheet.raw(text.as_str())?;
    sheet.raw(STYLE)?;
    sheet.rect("paper", 0, 0, width, height)?;
    sheet.words("title", 16, 24, title)
}

/// Draws faint stripes that help the eye to follow a row.
fn put_stripes(sheet: &mut Sheet, peers: u32, rows: usize) -> Result<(), NoMemory> {
    let width = column_x(peers) - GUTTER;
    for at in 0..rows.min(MOST_ROWS) {
        if at % 2 == 1 {
            sheet.rect("stripe", 0, row_y(at), width, ROW)?;
        }
    }
    Ok(())
}

/// Draws the part below the rows.
fn put_end(alloc: Global, sheet: &mut Sheet, picture: &Picture) -> Result<(), NoMemory> {
    let base = row_y(picture.rows.len()) + 20;
    if picture.left_out > 0 {
        let words = left_out_words(alloc, picture.left_out)?;
        sheet.words("warn", 16, base, words.as_str())?;
    }
    sheet.raw("</svg>\n")
}

/// Returns the SVG file of a picture of the lines of a record from line `first` on. The record has
/// `total` lines, and differs from the lawful history first at line `differs`, if it does. The
/// trace has all lines that are shown, and those before them.
pub fn draw(
    alloc: Global,
    trace: &Trace,
    total: u64,
    first: u64,
    picture: &Picture,
    differs: Option<u64>,
) -> Result<Vec<u8>, NoMemory> {
    let lines = trace.lines.items();
    let rows = picture.rows.as_slice();
    let peers = trace.scenario.geometry.peers();
    let title = title_of(alloc, first, shown_by(rows), total, differs)?;
    let mut sheet = Sheet::new(alloc);
    put_start(alloc, &mut sheet, trace, picture, title.as_str())?;
    put_stripes(&mut sheet, peers, rows.len())?;
    put_difference(&mut sheet, peers, rows, differs)?;
    put_heads(alloc, &mut sheet, &trace.scenario)?;
    for peer in 0..peers.min(8) {
        put_bands(&mut sheet, lines, first, rows, peer)?;
        if trace.scenario.is_link(peer) {
            put_calls(&mut sheet, lines, rows, peer)?;
        }
    }
    for (at, arrow) in picture.arrows.iter().enumerate() {
        put_arrow(&mut sheet, lines, rows, arrow, (at % 4) as u64)?;
    }
    for (at, row) in rows.iter().enumerate() {
        put_row(alloc, &mut sheet, trace, &picture.storms, at, row)?;
    }
    put_end(alloc, &mut sheet, picture)?;
    Ok(sheet.into_bytes())
}
