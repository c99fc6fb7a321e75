//! What a form answers to bytes.
ghost use Rattle.std.specs.Prelude.{◌≡◌, ◌<◌, IfOk, MatchResult};
ghost use Rattle.scenario_text.specs.Spelling.{world_of, IsSpelling};
ghost use Rattle.program_edge.specs.Words.{IsInRange};
ghost use Rattle.ivshm_explain.specs.Verdicts.{IsScenarioFault, IsScenarioVerdict, IsPortsVerdict, IsBridgeVerdict, IsDumpVerdict, IsFed, IsFeedVerdict, IsVerdict};

use crate::differences::{Difference, record_verdict};
use frame_capture::{Capture, FeedFault};
use ivs_base::NoMemory;
use program_edge::{Command, Place, Reason, Refusal};
use scenario_text::{Scenario, not_running};
use std::alloc::Global;

/// What a form answers to bytes.
#[derive(Drop)]
pub enum Verdict {
    /// The form accepts them.
    Accepted,
    /// The form refuses them.
    Refused(Refusal),
    /// The form reads a record, whose history isn't the lawful one.
    Differs(Difference),
}

/// The scenario that the bytes spell, or their refusal.
fn scenario_of(alloc: Global, bytes: &[u8]) -> Result<Result<Scenario, Refusal>, NoMemory>
    ensures { IfOk result (λ judged. MatchResult judged
        (λ scenario. IsSpelling (world_of scenario) bytes.now) (IsScenarioFault bytes.now)) }
{
    match scenario_text::parse(alloc, bytes) {
        Ok(scenario) => Ok(Ok(scenario)),
        Err(fault) => match Refusal::of_scenario(fault) {
            Some(refusal) => Ok(Err(refusal)),
            None => Err(NoMemory),
        },
    }
}

/// The answer of `sim`, `run` or `config P` to a scenario.
fn scenario_verdict(form: Command, scenario: &Scenario) -> Verdict
    ensures { IsScenarioVerdict form (world_of scenario.now) result }
{
    match form {
        Command::Run => match not_running(scenario) {
            Some(line) => Verdict::Refused(Refusal {
                place: Place::Line(line),
                reason: Reason::NotRunning,
            }),
            None => Verdict::Accepted,
        },
        Command::Config(peer) if peer >= scenario.geometry.peers() => Verdict::Refused(Refusal {
            place: Place::Whole,
            reason: Reason::BadPeer,
        }),
        _ => Verdict::Accepted,
    }
}

/// The answer of `ports` to the bytes.
fn ports_verdict(alloc: Global, bytes: &[u8]) -> Result<Verdict, NoMemory>
    ensures { IfOk result (IsPortsVerdict bytes.now) }
{
    match port_text::parse(alloc, bytes) {
        Ok(_) => Ok(Verdict::Accepted),
        Err(fault) => match Refusal::of_ports(fault) {
            Some(refusal) => Ok(Verdict::Refused(refusal)),
            None => Err(NoMemory),
        },
    }
}

/// The answer of `bridge` to the bytes.
fn bridge_verdict(alloc: Global, bytes: &[u8]) -> Result<Verdict, NoMemory>
    ensures { IfOk result (IsBridgeVerdict bytes.now) }
{
    match frame_bridge::parse(alloc, bytes) {
        Ok(_) => Ok(Verdict::Accepted),
        Err(fault) => match Refusal::of_bridge(fault) {
            Some(refusal) => Ok(Verdict::Refused(refusal)),
            None => Err(NoMemory),
        },
    }
}

/// The answer of `dump` to the bytes.
fn dump_verdict(alloc: Global, bytes: &[u8]) -> Result<Verdict, NoMemory>
    ensures { IfOk result (IsDumpVerdict bytes.now) }
{
    match section_dump::dump(alloc, bytes) {
        Ok(_) => Ok(Verdict::Accepted),
        Err(fault) => match Refusal::of_image(fault) {
            Some(refusal) => Ok(Verdict::Refused(refusal)),
            None => Err(NoMemory),
        },
    }
}

/// The answer of `feed` to a capture.
fn fed(alloc: Global, peer: u32, capture: &Capture) -> Result<Verdict, NoMemory>
    requires { peer < 2 }
    ensures { IfOk result (IsFed peer capture.now) }
{
    match frame_capture::scenario_of(alloc, capture, peer) {
        Ok(_) => Ok(Verdict::Accepted),
        Err(FeedFault::TooLarge) => Ok(Verdict::Refused(Refusal {
            place: Place::Whole,
            reason: Reason::TooLarge,
        })),
        Err(FeedFault::NoMemory) => Err(NoMemory),
    }
}

/// The answer of `feed` to the bytes.
fn feed_verdict(alloc: Global, peer: u32, bytes: &[u8]) -> Result<Verdict, NoMemory>
    requires { peer < 2 }
    ensures { IfOk result (IsFeedVerdict peer bytes.now) }
{
    match frame_capture::parse(alloc, bytes) {
        Ok(capture) => fed(alloc, peer, &capture),
        Err(fault) => match Refusal::of_capture(fault) {
            Some(refusal) => Ok(Verdict::Refused(refusal)),
            None => Err(NoMemory),
        },
    }
}

/// The answer of the form to the bytes. `load` reads none.
pub fn verdict_of(alloc: Global, form: Command, bytes: &[u8]) -> Result<Verdict, NoMemory>
    requires { IsInRange form }
    ensures { IfOk result (IsVerdict form bytes.now) }
{
    match form {
        Command::Sim | Command::Run | Command::Config(_) => match scenario_of(alloc, bytes)? {
            Ok(scenario) => Ok(scenario_verdict(form, &scenario)),
            Err(refusal) => Ok(Verdict::Refused(refusal)),
        },
        Command::Replay | Command::Renew | Command::Capture(_) => record_verdict(alloc, bytes),
        Command::Ports => ports_verdict(alloc, bytes),
        Command::Bridge => bridge_verdict(alloc, bytes),
        Command::Dump => dump_verdict(alloc, bytes),
        Command::Feed(peer) => feed_verdict(alloc, peer, bytes),
        Command::Load(_) => Ok(Verdict::Accepted),
    }
}
