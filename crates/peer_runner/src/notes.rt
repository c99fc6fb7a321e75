//! The lines of a running peer's steps.
ghost use Rattle.std.specs.Prelude.{◌≡◌, ◌<◌, ◌++◌, map, OnOk};
ghost use Rattle.lawful_history.specs.EventRecords.{access_lines, mark_line};
ghost use Rattle.peer_runner.specs.Turns.{interrupt_lines, interrupt_line, finds_nothing, is_quiet};
ghost use Rattle.peer_runner.specs.Runners.{session_lines, lines_stepped, lines_done, marks_of_notes};

use crate::doorbell_paths::Done;
use ivs_base::NoMemory;
use lawful_history::{Line, Lines};
use link_endpoint::Endpoint;
use split_ring::steps::{Access, Note};
use std::alloc::Global;
use step_lines::line_of;

/// Appends the line of an access, if the access has one.
pub fn record_access(me: u32, access: Access, value: u32, lines: &mut Lines) -> Result<(), NoMemory>
    ensures { OnOk result (lines.new ≡ lines.old ++ access_lines me access value) }
{
    let line = match access {
        Access::Read(word) => Line::Read {
            peer: me,
            word,
            value,
        },
        Access::Write(word, value) => Line::Write {
            peer: me,
            word,
            value,
        },
        Access::State(value) => Line::State { peer: me, value },
        Access::Ring { target, vector } => Line::Doorbell {
            peer: me,
            target,
            vector,
        },
        Access::Nothing => return Ok(()),
    };
    lines.push(line)
}

/// Appends the lines of a step's notes.
fn record_notes(
    alloc: Global,
    me: u32,
    end: &Endpoint,
    notes: &[Note],
    lines: &mut Lines,
) -> Result<(), NoMemory>
    ensures { OnOk result (lines.new ≡ lines.old ++ map (mark_line me) (marks_of_notes end.now notes.now)) }
{
    for note in notes {
        let line = line_of(alloc, me, end, *note)?;
        lines.push(line)?;
    }
    Ok(())
}

/// Whether these are the notes of a call that found nothing and was over in one step.
fn finds_nothing(end: &Endpoint, notes: &[Note]) -> bool
    ensures { result ≡ finds_nothing (marks_of_notes end.now notes.now) }
{
    matches!(
        notes,
        [Note::Saw(_), Note::Over] | [Note::Look(0), Note::Done] | [Note::Reclaim(0), Note::Full]
    )
}

/// Whether this is the step of a quiet call. `first` says whether the call begins with the step.
fn is_quiet(first: bool, access: Access, end: &Endpoint, notes: &[Note]) -> bool
    ensures { result ≡ is_quiet first access (marks_of_notes end.now notes.now) }
{
    match access {
        Access::Read(_) => first && finds_nothing(end, notes),
        Access::Write(..) | Access::State(_) | Access::Ring { .. } | Access::Nothing => false,
    }
}

/// The state of the peer at the start of a step, as far as the step's lines need it.
#[derive(Clone, Copy, Debug)]
pub struct RecordedStep {
    /// Whether the call begins with the step.
    pub first: bool,
    /// The number of sessions that the peer opened.
    pub opened: u32,
    /// The session number that the peer stored or loaded for the step.
    pub met: Option<u32>,
    /// The access of the step.
    pub access: Access,
}

/// Appends the mark of a session after a State step with 3, if a number was loaded for the step.
fn record_session(me: u32, step: RecordedStep, lines: &mut Lines) -> Result<(), NoMemory>
    ensures { OnOk result (lines.new ≡ lines.old ++ session_lines me step.opened step.met step.access) }
{
    match (step.met, step.access) {
        (Some(other), Access::State(3)) => lines.push(Line::Session {
            peer: me,
            opened: step.opened,
            other,
        }),
        _ => Ok(()),
    }
}

/// Appends the lines of a step that read `value`, unless the call of the step is quiet.
fn record_lines(
    alloc: Global,
    me: u32,
    step: RecordedStep,
    value: u32,
    end: &Endpoint,
    notes: &[Note],
    lines: &mut Lines,
) -> Result<(), NoMemory>
    ensures { OnOk result (lines.new ≡ lines.old ++ lines_stepped me step value (marks_of_notes end.now notes.now)) }
{
    if is_quiet(step.first, step.access, end, notes) {
        return Ok(());
    }
    record_access(me, step.access, value, lines)?;
    record_session(me, step, lines)?;
    record_notes(alloc, me, end, notes, lines)
}

/// Appends the lines of a step that is done by this turn.
pub fn record_step(
    alloc: Global,
    me: u32,
    step: RecordedStep,
    done: Done,
    end: &Endpoint,
    notes: &[Note],
    lines: &mut Lines,
) -> Result<(), NoMemory>
    ensures { OnOk result (lines.new ≡ lines.old ++ lines_done me step done (marks_of_notes end.now notes.now)) }
{
    match done {
        Done::Stepped(value) => record_lines(alloc, me, step, value, end, notes, lines),
        Done::Cleared(_) => {
            record_access(me, step.access, 0, lines)?;
            record_notes(alloc, me, end, notes, lines)
        }
        Done::Rung => record_notes(alloc, me, end, notes, lines),
    }
}

/// Appends the line of one bit, if the look found the bit.
fn record_interrupt(me: u32, bit: u32, found: u64, lines: &mut Lines) -> Result<(), NoMemory>
    requires { bit < 64 }
    ensures { OnOk result (lines.new ≡ lines.old ++ interrupt_line me bit found) }
{
    if (found >> bit) & 1 == 0 {
        return Ok(());
    }
    lines.push(Line::Interrupt {
        peer: me,
        vector: bit,
    })
}

/// Appends a line for each bit that a look found, ascending. Stops after the highest bit: for an
/// empty word this is one test.
pub fn record_interrupts(me: u32, found: u64, lines: &mut Lines) -> Result<(), NoMemory>
    ensures { OnOk result (lines.new ≡ lines.old ++ interrupt_lines 64 me found) }
{
    for bit in 0..64 {
        let rest = found >> bit;
        if rest == 0 {
            return Ok(());
        }
        record_interrupt(me, bit, found, lines)?;
    }
    Ok(())
}
