//! The check of a record: whether its history is the lawful one. If not, it finds the first line
//! that differs and the law that this line breaks. `link_model` compares a history line by line,
//! and `record_text` reads records. The contracts of `replay` and `replay_text` promise the verdict
//! of `specs/Verdict`.
//!
//! # Design
//!
//! - A text is read while the lawful history is played (`IsBeside`): the lines that were read are
//!   those that the expected run took. While both agree, the lines that wait are written, about 256
//!   lines at a time, and their bytes are compared with the text. No line is parsed. From the first
//!   part that differs on the lines are parsed and compared one by one, up to the first that
//!   differs. The rest is parsed as well, since a fault of the text comes before a verdict.
//! - So a text is read once, and nothing of it is kept. The law of a difference is found by the
//!   expected run, and the first fault of a text by the reader: each in one place.
// tested: `replay` succeeds with ample memory.
#![tactic(auto)]

ghost use Rattle.std.specs.Prelude.{IfOk, IfErr};
ghost use Rattle.scenario_text.specs.Spelling.{world_of};
ghost use Rattle.record_text.specs.Judge.{answer};
ghost use Rattle.record_text.specs.Answers.{Refuses};
ghost use Rattle.trace_replay.specs.Texts.{IsVerdictOfText};
ghost use Rattle.trace_replay.specs.Verdict.{IsVerdict};

mod beside;
mod text;
mod verdict;

use beside::{judge, pass_alike};
use ivs_base::NoMemory;
use link_model::{ExpectedRun, Run, StepFault};
pub use link_model::{Law, Unlawful};
use record_text::{Reader, RecordFault, Trace};
use std::alloc::Global;
pub use text::{difference_line, verdict_line};
pub use verdict::Verdict;

/// Returns `Same` exactly if the record's history is what a record of its version has of the lawful
/// history of its scenario. Otherwise returns the first line that differs and the law that it
/// breaks. Returns `NoMemory` if memory ran out.
// claim: `Same` is answered exactly if the lines are what a record of the trace's version holds of
//    the lawful history of its scenario. `Differs` names the first line that differs, and the law
//    that it breaks.
pub fn replay(alloc: Global, trace: &Trace) -> Result<Verdict, NoMemory>
    ensures { IfOk result (IsVerdict (world_of trace.now.scenario) trace.now.version trace.now.lines) }
{
    let history = trace.lines.items();
    let mut run = Run::new(alloc, &trace.scenario, trace.version)?;
    for line in history {
        match run.step(line) {
            Ok(()) => {}
            Err(StepFault::Unlawful(fault)) => return Ok(Verdict::Differs(fault)),
            Err(StepFault::NoMemory) => return Err(NoMemory),
        }
    }
    match run.close() {
        Ok(()) => Ok(Verdict::Same),
        Err(fault) => Ok(Verdict::Differs(fault)),
    }
}

/// Returns the verdict of `replay` on the record that the text spells, or the first fault of the
/// text. Returns `NoMemory` if memory ran out. The lawful history is played once, and no line of
/// the text is kept.
// claim verdict, refused: The verdict on a text is that on the record that it spells. A refusal is
//    the text's first fault, also one after a difference.
pub fn replay_text(alloc: Global, bytes: &[u8]) -> Result<Verdict, RecordFault>
    ensures verdict { IfOk result (IsVerdictOfText bytes.now) }
    ensures refused { IfErr result (λ fault. Refuses fault (answer bytes.now)) }
{
    let (version, scenario, mut reader) = Reader::begin(alloc, bytes)?;
    let mut expected_run = match ExpectedRun::new(alloc, scenario, version) {
        Ok(expected_run) => expected_run,
        Err(_) => return Err(RecordFault::NoMemory),
    };
    match pass_alike(&mut expected_run, &mut reader) {
        Ok(()) => {}
        Err(_) => return Err(RecordFault::NoMemory),
    }
    judge(alloc, &mut expected_run, &mut reader)
}
