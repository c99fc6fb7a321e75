//! The first line at which a record leaves the lawful history of its scenario.
ghost use Rattle.std.specs.Prelude.{◌≡◌, IfOk, true};
ghost use Rattle.scenario_text.specs.Spelling.{world_of};
ghost use Rattle.lawful_history.specs.Lawful.{IsLawfulIn};
ghost use Rattle.lawful_history.specs.Versions.{is_version};
ghost use Rattle.ivshm_explain.specs.Differences.{IsReplayed, IsRecordVerdict};

use crate::verdicts::Verdict;
use ivs_base::NoMemory;
use lawful_history::{Lines, records_hold_one_history};
use program_edge::Refusal;
use record_text::{Trace, parse};
use scenario_text::Scenario;
use simulator::Simulator;
use std::alloc::Global;
use trace_replay::{Unlawful, Verdict as Replayed, replay};

/// A record whose history isn't the lawful one of its scenario.
#[derive(Drop)]
pub struct Difference {
    /// The first history line that differs, and the law that is broken there.
    pub fault: Unlawful,
    /// The record.
    pub trace: Trace,
    /// The lines of the lawful history that a record of its version has.
    pub lawful: Lines,
}

/// The lines of the scenario's lawful history that a record of this version has.
fn lawful_lines(alloc: Global, scenario: &Scenario, version: u32) -> Result<Lines, NoMemory>
    requires { is_version version ≡ true }
    ensures { IfOk result (IsLawfulIn (world_of scenario.now) version) }
{
    records_hold_one_history();
    let mut simulator = Simulator::new(alloc, scenario, version)?;
    for act in scenario.acts.items() {
        simulator.act(act)?;
    }
    Ok(simulator.into_lines())
}

/// The answer of `replay` to a record, and the lawful history next to the record if they differ.
fn replayed(alloc: Global, trace: Trace) -> Result<Verdict, NoMemory>
    ensures { IfOk result (IsReplayed trace) }
{
    match replay(alloc, &trace)? {
        Replayed::Same => Ok(Verdict::Accepted),
        Replayed::Differs(fault) => {
            let lawful = lawful_lines(alloc, &trace.scenario, trace.version)?;
            Ok(Verdict::Differs(Difference {
                fault,
                trace,
                lawful,
            }))
        }
    }
}

/// The answers to the bytes of the forms that read a record.
pub fn record_verdict(alloc: Global, bytes: &[u8]) -> Result<Verdict, NoMemory>
    ensures { IfOk result (IsRecordVerdict bytes.now) }
{
    match parse(alloc, bytes) {
        Ok(trace) => replayed(alloc, trace),
        Err(fault) => match Refusal::of_record(fault) {
            Some(refusal) => Ok(Verdict::Refused(refusal)),
            None => Err(NoMemory),
        },
    }
}
