//! Writing a record's text.
ghost use Rattle.std.specs.Prelude.{◌≡◌, ℕ, [], ◌++◌, ◌<◌, ◌^◌, OnOk, IfOk, Ok, length, slice_index};
ghost use Rattle.line_format.specs.Rows.{row, line_of_row};
ghost use Rattle.record_text.specs.Table.{pieces_of};
ghost use Rattle.record_text.specs.LineRows.{row_of_line};
ghost use Rattle.record_text.specs.Spelling.{Fits, AllFit, record_of, spelling};
ghost use Rattle.record_text.specs.Judge.{answer};

use crate::forms::LineForm;
use crate::growing::put_lines;
use crate::trace::Trace;
use crate::versions::first_line;
use ivs_base::{Frame, NoMemory};
use lawful_history::Line;
use line_format::{put_four, put_line, put_named, put_one, put_three, put_two, put_with_bytes};
use scenario_text::put_scenario;
use split_ring::Refused;
use std::alloc::{AllocError, Global};

/// Appends the line of a form without a frame.
#[tactic(auto, unfolding(line_format::specs::Rows::line_of_row))]
fn put(out: &mut Vec<u8>, form: LineForm, numbers: &[u64]) -> Result<(), AllocError>
    ensures { OnOk result (out.new.items ≡ out.old.items ++ line_of_row pieces_of (row form numbers.now [])) }
{
    put_line(out, form.slots(), numbers, &[])
}

/// Appends the line of a refusal.
fn put_refusal(out: &mut Vec<u8>, peer: u32, refused: &Refused) -> Result<(), AllocError>
    ensures { OnOk result (out.new.items ≡
        out.old.items ++ line_of_row pieces_of (row_of_line (Line.Refuse peer refused.now))) }
{
    let name = refused.field.name().as_bytes();
    put_named(out, b"refuse", peer, name, refused.value)
}

/// The bytes of the frame.
fn bytes_of(frame: &Frame) -> &[u8]
    ensures bytes { result.now ≡ frame.now }
    ensures fit { (i : ℕ) → slice_index frame.now i < 256 }
{
    let bytes = frame.bytes();
    let _len = bytes.len();
    bytes
}

/// The value that was refused.
fn value_of(refused: &Refused) -> u64
    ensures value { result ≡ refused.now.value }
    ensures fits { refused.now.value < 2 ^ 64 }
{
    refused.value
}

/// Appends a history line.
#[tactic(auto, unfolding(line_format::specs::Rows::line_of_row))]
pub fn put_history_line(out: &mut Vec<u8>, line: &Line) -> Result<(), AllocError>
    ensures put { OnOk result (out.new.items ≡ out.old.items ++ line_of_row pieces_of (row_of_line line.now)) }
    ensures fits { Fits line.now }
{
    match line {
        Line::Read { peer, word, value } => put_three(out, b"r", *peer, *word, *value),
        Line::Write { peer, word, value } => put_three(out, b"w", *peer, *word, *value),
        Line::Denied { peer, word } => put_two(out, b"denied", *peer, *word),
        Line::State { peer, value } => put_two(out, b"s", *peer, *value),
        Line::Doorbell {
            peer,
            target,
            vector,
        } => put_three(out, b"d", *peer, *target, *vector),
        Line::Interrupt { peer, vector } => put_two(out, b"i", *peer, *vector),
        Line::Lost { peer, vector } => put_two(out, b"lost", *peer, *vector),
        Line::Reset { peer } => put_one(out, b"x", *peer),
        Line::Idle { peer } => put_one(out, b"idle", *peer),
        Line::ConfigRead {
            peer,
            offset,
            width,
            value,
        } => put_four(out, b"cr", *peer, *offset, *width, *value),
        Line::ConfigWrite {
            peer,
            offset,
            width,
            value,
        } => put_four(out, b"cw", *peer, *offset, *width, *value),
        Line::RegisterRead {
            peer,
            offset,
            value,
        } => put_three(out, b"mr", *peer, *offset, *value),
        Line::RegisterWrite {
            peer,
            offset,
            value,
        } => put_three(out, b"mw", *peer, *offset, *value),
        Line::MsixRead {
            peer,
            offset,
            value,
        } => put_three(out, b"tr", *peer, *offset, *value),
        Line::MsixWrite {
            peer,
            offset,
            value,
        } => put_three(out, b"tw", *peer, *offset, *value),
        Line::Saw { peer, value } => put_two(out, b"saw", *peer, *value),
        Line::Reclaim { peer, count } => put_two(out, b"reclaim", *peer, *count),
        Line::Look { peer, count } => put_two(out, b"look", *peer, *count),
        Line::Full { peer } => put_one(out, b"full", *peer),
        Line::Done { peer } => put_one(out, b"done", *peer),
        Line::Over { peer } => put_one(out, b"over", *peer),
        Line::Down { peer } => put_one(out, b"down", *peer),
        Line::Accept { peer, frame } => put_with_bytes(out, b"accept", *peer, bytes_of(frame)),
        Line::Deliver { peer, frame } => put_with_bytes(out, b"deliver", *peer, bytes_of(frame)),
        Line::Return { peer } => put_one(out, b"return", *peer),
        Line::Refuse { peer, refused } => {
            let _value = value_of(refused);
            put_refusal(out, *peer, refused)
        }
        Line::Session {
            peer,
            opened,
            other,
        } => put_three(out, b"session", *peer, *opened, *other),
    }
}

/// Appends the text of the record.
fn put_record(out: &mut Vec<u8>, trace: &Trace) -> Result<(), AllocError>
    ensures put { OnOk result (out.new.items ≡ out.old.items ++ spelling (record_of trace.now)) }
    ensures fits { OnOk result (AllFit trace.now.lines) }
    ensures count { OnOk result (length trace.now.lines < 2 ^ 64) }
{
    let lines = trace.lines.items();
    out.extend_from_slice(first_line(trace.version))?;
    out.push(b'\n')?;
    put_scenario(out, &trace.scenario)?;
    put_lines(out, lines)?;
    put(out, LineForm::Count, &[lines.len() as u64])?;
    Ok(())
}

/// The text of the record, which is its one spelling. NoMemory says that memory ran out.
// claim text, again: `print` writes the one spelling, which names the version, and it is read as
//    the record. A record holds only values that have a spelling.
pub fn print(alloc: Global, trace: &Trace) -> Result<Vec<u8>, NoMemory>
    ensures text { IfOk result (λ text. text.items ≡ spelling (record_of trace.now)) }
    // The text that is written is read as the record.
    ensures again { IfOk result (λ text. answer text.items ≡ Ok (record_of trace.now)) }
{
    let mut out = Vec::new(alloc);
    put_record(&mut out, trace)?;
    Ok(out)
}
