//! Writing a running record's text.
ghost use Rattle.std.specs.Prelude.{◌≡◌, ◌++◌, ◌+◌, ◌≤◌, ◌<◌, ◌^◌, OnOk, IfOk, All, map, length, []};
ghost use Rattle.line_format.specs.Rows.{row, line_of_row, text_of};
ghost use Rattle.record_text.specs.OwnParts.{part_of};
ghost use Rattle.record_text.specs.RunTable.{run_pieces_of};
ghost use Rattle.record_text.specs.RunSpelling.{IsPart, RunRecord, IsRunRecord, run_of, own_row, rows_of_part, rows_of_parts, run_spelling, IsRunSpelling};
ghost use Rattle.record_text.specs.Spelling.{AllFit};

use crate::forms::LineForm;
use crate::own_trace::OwnTrace;
use crate::printing::put_history_line;
use crate::run_forms::RunForm;
use crate::run_trace::RunTrace;
use ivs_base::NoMemory;
use lawful_history::Line;
use line_format::put_line;
use scenario_text::put_scenario;
use std::alloc::{AllocError, Global};

/// Appends the line of a form.
#[tactic(auto, unfolding(line_format::specs::Rows::line_of_row))]
fn put(out: &mut Vec<u8>, form: RunForm, numbers: &[u64]) -> Result<(), AllocError>
    ensures { OnOk result (out.new.items ≡ out.old.items ++ line_of_row run_pieces_of (row form numbers.now [])) }
{
    put_line(out, form.slots(), numbers, &[])
}

/// Appends a peer's own lines.
fn put_own_lines(out: &mut Vec<u8>, lines: &[Line]) -> Result<(), AllocError>
    ensures put { OnOk result (out.new.items ≡ out.old.items ++ text_of run_pieces_of (map own_row lines.now)) }
    ensures fits { OnOk result (AllFit lines.now) }
{
    for line in lines {
        put_history_line(out, line)?;
    }
    Ok(())
}

/// The number of turns that the peer took.
fn turns_of(trace: &OwnTrace) -> u64
    ensures value { result ≡ trace.now.turns }
    ensures fits { trace.now.turns < 2 ^ 64 }
{
    trace.turns
}

/// Appends the actions of a peer.
fn put_part(out: &mut Vec<u8>, trace: &OwnTrace) -> Result<(), AllocError>
    ensures put { OnOk result (out.new.items ≡
        out.old.items ++ text_of run_pieces_of (rows_of_part (part_of trace.now))) }
    ensures is { OnOk result (IsPart (part_of trace.now)) }
{
    put(out, RunForm::Peer, &[u64::from(trace.peer)])?;
    put_own_lines(out, trace.lines.items())?;
    put(out, RunForm::Turns, &[turns_of(trace)])?;
    let end = if trace.finished {
        RunForm::Finished
    } else {
        RunForm::Spent
    };
    put(out, end, &[])?;
    Ok(())
}

/// Appends the part of each peer, and returns the number of lines.
fn put_parts(out: &mut Vec<u8>, traces: &[OwnTrace]) -> Result<u64, AllocError>
    ensures put { OnOk result (out.new.items ≡
        out.old.items ++ text_of run_pieces_of (rows_of_parts (map part_of traces.now))) }
    ensures are { OnOk result (All IsPart (map part_of traces.now)) }
    ensures count { IfOk result (λ count. count ≡ length (rows_of_parts (map part_of traces.now))) }
{
    let mut count = 0;
    for trace in traces {
        put_part(out, trace)?;
        count += trace.lines.items().len() as u64 + 3;
    }
    Ok(count)
}

/// Appends the text of the running record.
fn put_run(out: &mut Vec<u8>, trace: &RunTrace) -> Result<(), AllocError>
    ensures put { OnOk result (out.new.items ≡ out.old.items ++ run_spelling (run_of trace.now)) }
    ensures is { OnOk result (IsRunRecord (run_of trace.now)) }
{
    out.extend_from_slice(b"run 2\n")?;
    put_scenario(out, &trace.scenario)?;
    let count = put_parts(out, trace.peers.items())?;
    put(out, RunForm::Own(LineForm::Count), &[count])
}

/// The text of the running record, which is its one spelling. NoMemory says that memory ran out.
// claim text, alone: `print_run` writes the one spelling of what each running peer did, and no
//    other running record has that text.
pub fn print_run(alloc: Global, trace: &RunTrace) -> Result<Vec<u8>, NoMemory>
    ensures text { IfOk result (λ text. IsRunSpelling (run_of trace.now) text.items) }
    // No other running record has this text.
    ensures alone { IfOk result (λ text. (other : RunRecord) → IsRunSpelling other text.items →
        other ≡ run_of trace.now) }
{
    let mut out = Vec::new(alloc);
    put_run(&mut out, trace)?;
    Ok(out)
}
