//! Compares a record's text with the lawful history while that is played.

ghost use Rattle.std.specs.Prelude.{ℕ, List, IfOk, OnOk, IfErr};
ghost use Rattle.scenario_text.specs.Scenario.{World};
ghost use Rattle.lawful_history.specs.declared.line.Line.{Line};
ghost use Rattle.record_text.specs.Judge.{answer};
ghost use Rattle.record_text.specs.Answers.{Refuses};
ghost use Rattle.record_text.specs.Readers.{IsReading};
ghost use Rattle.trace_replay.specs.Beside.{IsBeside, IsRead};
ghost use Rattle.trace_replay.specs.Texts.{IsVerdictOfText};

use crate::verdict::Verdict;
use ivs_base::NoMemory;
use link_model::{ExpectedRun, StepFault};
use record_text::{Reader, RecordFault};
use std::alloc::Global;

/// Takes the lines that wait while the text continues with them. Parses no line. Returns `NoMemory`
/// if memory ran out.
pub fn pass_alike(expected_run: &mut ExpectedRun, reader: &mut Reader) -> Result<(), NoMemory>
    requires { (bytes : List ℕ) × IsBeside bytes expected_run.old reader.old }
    ensures { (bytes : List ℕ) → IsBeside bytes expected_run.old reader.old →
        OnOk result (IsBeside bytes expected_run.new reader.new) }
{
    loop {
        let waiting = expected_run.waiting();
        if waiting.is_empty() || !reader.pass(waiting)? {
            return Ok(());
        }
        expected_run.pass()?;
    }
}

/// Reads the lines that are left and keeps none. Returns the first fault of the text, and
/// `NoMemory` if memory ran out.
fn read_on(alloc: Global, reader: &mut Reader) -> Result<(), RecordFault>
    ensures read { (bytes : List ℕ) (version : ℕ) (world : World) (lines : List Line) →
        IsReading bytes version world lines reader.old → OnOk result (IsRead bytes version world lines) }
    ensures refused { (bytes : List ℕ) (version : ℕ) (world : World) (lines : List Line) →
        IsReading bytes version world lines reader.old → IfErr result (λ fault. Refuses fault (answer bytes)) }
{
    while let Some(_line) = reader.next(alloc)? {}
    Ok(())
}

/// Reads the lines that are left one by one, and compares them with the lawful history up to the
/// first that differs. Returns the verdict, or the first fault of the text, and `NoMemory` if
/// memory ran out.
pub fn judge(
    alloc: Global,
    expected_run: &mut ExpectedRun,
    reader: &mut Reader,
) -> Result<Verdict, RecordFault>
    requires { (bytes : List ℕ) × IsBeside bytes expected_run.old reader.old }
    ensures verdict { (bytes : List ℕ) → IsBeside bytes expected_run.old reader.old →
        IfOk result (IsVerdictOfText bytes) }
    ensures refused { (bytes : List ℕ) → IsBeside bytes expected_run.old reader.old →
        IfErr result (λ fault. Refuses fault (answer bytes)) }
{
    while let Some(line) = reader.next(alloc)? {
        match expected_run.take(reader.count, &line) {
            Ok(()) => {}
            Err(StepFault::Unlawful(fault)) => {
                read_on(alloc, reader)?;
                return Ok(Verdict::Differs(fault));
            }
            Err(StepFault::NoMemory) => return Err(RecordFault::NoMemory),
        }
    }
    match expected_run.close(reader.count + 1) {
        Ok(()) => Ok(Verdict::Same),
        Err(fault) => Ok(Verdict::Differs(fault)),
    }
}
