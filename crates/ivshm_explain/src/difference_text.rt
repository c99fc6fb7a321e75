//! The text of a difference: the answer of `ivshm`, the number of the line, the line found there
//! and the lines due.
ghost use Rattle.std.specs.Prelude.{◌≡◌, ◌+◌, ◌++◌, IfOk, IfSome, OnOk, length};
ghost use Rattle.ivshm_explain.specs.DifferenceText.{line_said, line_in_record, certain_text, IsDifferenceText};

use crate::difference_words::difference_words;
use crate::differences::Difference;
use crate::places::put_number;
use ivs_base::NoMemory;
use lawful_history::Line;
use record_text::put_lines;
use scenario_text::Scenario;
use std::alloc::{AllocError, Global};
use trace_replay::difference_line;

/// Appends the history line with this number, from 1, or the words for no line.
fn put_line_at(out: &mut Vec<u8>, lines: &[Line], number: u64) -> Result<(), AllocError>
    ensures { OnOk result (out.new.items ≡ out.old.items ++ line_said lines.now number) }
{
    let at = number.saturating_sub(1) as usize;
    if at < lines.len() {
        put_lines(out, &lines[at..at + 1])
    } else {
        out.extend_from_slice(b"none, since the history has ended\n")?;
        Ok(())
    }
}

/// Returns the number of peers of the scenario.
fn peer_count(scenario: &Scenario) -> u64
    ensures { result ≡ length scenario.now.honest }
{
    scenario.honest.items().len() as u64
}

/// Returns the number of acts of the scenario.
fn act_count(scenario: &Scenario) -> u64
    ensures { result ≡ length scenario.now.acts }
{
    scenario.acts.items().len() as u64
}

/// The number of a history line in a record with these counts: eight lines, `begin` and `end` come
/// before the history besides. None comes if it passes the last number.
fn number_in_record(line: u64, peers: u64, acts: u64) -> Option<u64>
    ensures { IfSome result (λ number. number ≡ line + peers + acts + 10) }
{
    line.checked_add(peers)?.checked_add(acts)?.checked_add(10)
}

/// The number of the differing line in the record, whose first line is line 1. None comes if it
/// passes the last number.
pub fn line_in_record(difference: &Difference) -> Option<u64>
    ensures { IfSome result (λ number. number ≡ line_in_record difference.now) }
{
    let scenario = &difference.trace.scenario;
    let line = difference.fault.line;
    let Some(number) = number_in_record(line, peer_count(scenario), act_count(scenario)) else {
        return None;
    };
    Some(number)
}

/// The answer, the line's number in the record, the line found, the line due, and these words.
fn joined(alloc: Global, difference: &Difference, words: &[u8]) -> Result<Vec<u8>, NoMemory>
    ensures { IfOk result (λ text. text.items ≡ certain_text difference.now ++ words.now) }
{
    let Some(number) = line_in_record(difference) else {
        return Err(NoMemory);
    };
    let line = difference.fault.line;
    let mut text = difference_line(alloc, difference.fault)?;
    put_number(alloc, &mut text, number)?;
    put_line_at(&mut text, difference.trace.lines.items(), line)?;
    text.extend_from_slice(b"due: ")?;
    put_line_at(&mut text, difference.lawful.items(), line)?;
    text.extend_from_slice(words)?;
    Ok(text)
}

/// The explanation of a difference.
pub fn difference_text(alloc: Global, difference: &Difference) -> Result<Vec<u8>, NoMemory>
    ensures { IfOk result (λ text. IsDifferenceText difference.now text.items) }
{
    let words = difference_words(alloc, difference)?;
    let text = joined(alloc, difference, &words)?;
    Ok(text)
}
