//! The reply of each command to the bytes that it read.

ghost use Rattle.std.specs.Prelude.{◌≡◌, ◌^◌, ◌<◌, ◌≤◌, false, Option, Some, None, Ok, IsTrue, IfOk, OnOk, IsErrOf, length};
ghost use Rattle.ivshm_cli.specs.Forms.{scenario_fault, IsTextVerdict, RefusesBy, Replies, IsLeft};
ghost use Rattle.program_edge.specs.Words.{limit_of, IsInRange};
ghost use Rattle.program_edge.specs.Inputs.{passes};
ghost use Rattle.program_edge.specs.declared.limits.TheConstants.{MOST_FRAMES};
ghost use Rattle.program_edge.specs.Exit.{has_reply};
ghost use Rattle.ivshm_cli.specs.Due.{IsDue};
ghost use Rattle.scenario_text.specs.Scenario.{World};
ghost use Rattle.scenario_text.specs.Spelling.{IsSpelling, world_of};
ghost use Rattle.scenario_text.specs.Judge.{answer as judged};
ghost use Rattle.ivshm_cli.specs.Headline.{IsRecordOf};
ghost use Rattle.ivshm_cli.specs.Replay.{Spells, status_of};
ghost use Rattle.ivshm_cli.specs.Configuration.{IsConfigurationOf};
ghost use Rattle.ivshm_cli.specs.Load.{IsLoadOf};
ghost use Rattle.ivshm_cli.specs.declared.refusals.Fault.{Fault};
ghost use Rattle.ivshm_cli.specs.declared.replies.NoReply.TheVariants.{NoMemory as OutOfMemory};

use crate::captures::{capture_file, fed};
use crate::configuration::configuration;
use crate::refusals::Fault;
use crate::runs::{Ran, RunReply, run};
use crate::summary::{Counts, summary};
use frame_bridge::{BridgeFault, bridge, spelled_is_read};
use ivs_base::NoMemory;
use lawful_history::{one_history, records_hold_one_history};
use peer_runner::Gate;
use port_text::{PortsFault, printed_is_read_again};
use program_edge::{Command, Status};
use record_text::{RecordFault, Trace, parse as parse_record};
use sampling_port::ports;
use scenario_text::{Scenario, ScenarioFault, load, parse};
use section_dump::{DumpFault, dump};
use sim_world::{play_load, simulate_text};
use std::alloc::{AllocError, Global};
use std::thread::Threads;
use thiserror::Error;
use trace_replay::{Verdict, difference_line, replay, replay_text, verdict_line};

/// A status, the text that is due with it, and the words and pass of running peers.
#[derive(Drop)]
pub(crate) struct Reply {
    pub(crate) status: Status,
    pub(crate) text: Vec<u8>,
    pub(crate) ran: Option<Ran>,
}

/// Why a command has no reply of its own.
#[derive(Clone, Copy, Debug, PartialEq, Eq, Error)]
pub(crate) enum NoReply {
    /// The input is refused.
    #[error("{0}")]
    Refused(Fault),
    /// An allocation failed.
    #[error("out of memory")]
    NoMemory,
}

impl From<NoMemory> for NoReply {
    ghost from_gives = { λ _ e. e ≡ OutOfMemory };

    fn from(_e: NoMemory) -> NoReply {
        NoReply::NoMemory
    }
}

impl From<AllocError> for NoReply {
    ghost from_gives = { λ _ e. e ≡ OutOfMemory };

    fn from(_e: AllocError) -> NoReply {
        NoReply::NoMemory
    }
}

/// The value of a result. Otherwise the function returns that there is no reply, for the fault or
/// for want of memory.
macro_rules! or_refused {
    ($result:expr, $faults:ident => $kind:ident) => {
        match $result {
            Ok(value) => value,
            Err($faults::NoMemory) => return Err(NoReply::NoMemory),
            Err(fault) => return Err(NoReply::Refused(Fault::$kind(fault))),
        }
    };
}

pub(crate) use or_refused;

/// Returns the scenario that the bytes spell.
pub(crate) fn scenario_in(alloc: Global, bytes: &[u8]) -> Result<Scenario, NoReply>
    ensures spelled { IfOk result (λ scenario. IsSpelling (world_of scenario) bytes.now) }
    ensures read { IfOk result (λ scenario. judged bytes.now ≡ Ok (world_of scenario)) }
    ensures refused { (fault : Fault) → IsErrOf result (NoReply.Refused fault)
        → (fault_in : World → Option Fault) → scenario_fault fault_in (judged bytes.now) ≡ Some fault }
{
    Ok(or_refused!(parse(alloc, bytes), ScenarioFault => Text))
}

/// Returns the record of the scenario that the bytes spell and of its lawful history.
fn simulated(alloc: Global, bytes: &[u8]) -> Result<Vec<u8>, NoReply>
    ensures accepted { OnOk result (IsTextVerdict Command.Sim bytes.now None) }
    ensures record { IfOk result (λ text. IsRecordOf bytes.now text.items) }
    ensures refused { RefusesBy Command.Sim bytes.now result }
{
    let scenario = scenario_in(alloc, bytes)?;
    Ok(simulate_text(alloc, &scenario)?)
}

/// Returns the record that the bytes spell.
fn record_in(alloc: Global, bytes: &[u8]) -> Result<Trace, NoReply>
    ensures accepted { OnOk result (IsTextVerdict Command.Replay bytes.now None) }
    ensures spelled { IfOk result (λ trace. Spells bytes.now (world_of trace.scenario) trace.version trace.lines) }
    ensures few { IfOk result (λ trace. length trace.lines ≤ length bytes.now) }
    ensures refused { RefusesBy Command.Replay bytes.now result }
{
    Ok(or_refused!(parse_record(alloc, bytes), RecordFault => Trace))
}

/// Returns the status of a verdict.
fn verdict_status(verdict: Verdict) -> Status
    ensures { result ≡ status_of verdict }
{
    match verdict {
        Verdict::Same => Status::Done,
        Verdict::Differs(_) => Status::Differs,
    }
}

/// Returns the verdict on the record that the bytes spell: its history is the lawful one, or its
/// first difference.
fn replayed(alloc: Global, bytes: &[u8]) -> Result<Reply, NoReply>
    ensures accepted { OnOk result (IsTextVerdict Command.Replay bytes.now None) }
    ensures verdict { IfOk result (λ r. Replies Command.Replay bytes.now r.status r.text.items) }
    ensures left { IfOk result (λ r. r.ran ≡ None) }
    ensures refused { RefusesBy Command.Replay bytes.now result }
{
    let verdict = or_refused!(replay_text(alloc, bytes), RecordFault => Trace);
    let text = verdict_line(alloc, verdict)?;
    Ok(Reply {
        status: verdict_status(verdict),
        text,
        ran: None,
    })
}

/// Returns the record of version 2 with the lawful history of the record that the bytes spell, or
/// the first difference of its history.
fn renewed(alloc: Global, bytes: &[u8]) -> Result<Reply, NoReply>
    ensures accepted { OnOk result (IsTextVerdict Command.Renew bytes.now None) }
    ensures verdict { IfOk result (λ r. Replies Command.Renew bytes.now r.status r.text.items) }
    ensures left { IfOk result (λ r. r.ran ≡ None) }
    ensures refused { RefusesBy Command.Renew bytes.now result }
{
    one_history();
    let trace = record_in(alloc, bytes)?;
    match replay(alloc, &trace)? {
        Verdict::Same => Ok(done(simulate_text(alloc, &trace.scenario)?)),
        Verdict::Differs(fault) => Ok(differs(difference_line(alloc, fault)?)),
    }
}

/// Returns the capture file of the frames that `peer` delivers in the record spelled by the bytes.
/// If its history isn't the lawful one, returns the first difference.
fn captured(alloc: Global, peer: u32, bytes: &[u8]) -> Result<Reply, NoReply>
    requires peer { peer < 2 }
    requires short { length bytes.now < 2 ^ 32 }
    ensures accepted { OnOk result (IsTextVerdict (Command.Capture peer) bytes.now None) }
    ensures verdict { IfOk result (λ r. Replies (Command.Capture peer) bytes.now r.status r.text.items) }
    ensures left { IfOk result (λ r. r.ran ≡ None) }
    ensures refused { RefusesBy (Command.Capture peer) bytes.now result }
{
    let trace = record_in(alloc, bytes)?;
    match replay(alloc, &trace)? {
        Verdict::Same => Ok(done(capture_file(alloc, peer, &trace)?)),
        Verdict::Differs(fault) => Ok(differs(difference_line(alloc, fault)?)),
    }
}

/// Returns the configuration space of the peer's device in the world that the bytes spell.
fn configured(alloc: Global, peer: u32, bytes: &[u8]) -> Result<Vec<u8>, NoReply>
    ensures accepted { OnOk result (IsTextVerdict (Command.Config peer) bytes.now None) }
    ensures configuration { IfOk result (λ text. IsConfigurationOf bytes.now text.items) }
    ensures refused { RefusesBy (Command.Config peer) bytes.now result }
{
    let scenario = scenario_in(alloc, bytes)?;
    if peer >= scenario.geometry.peers() {
        return Err(NoReply::Refused(Fault::BadPeer));
    }
    Ok(configuration(alloc, &scenario.geometry, scenario.wiring)?)
}

/// Returns the five lines that count the lawful history of a load of `count` frames.
fn loaded(alloc: Global, count: u32) -> Result<Vec<u8>, NoMemory>
    requires some { 1 ≤ count }
    requires few { count ≤ MOST_FRAMES }
    ensures { IfOk result (λ text. IsLoadOf count text.items) }
{
    records_hold_one_history();
    // the sizes are those of every load
    let least = load(alloc, 1)?;
    let mut counts = Counts::none(&least);
    match play_load(alloc, count, &mut counts) {
        Ok(()) => {}
        Err(_) => return Err(NoMemory),
    }
    Ok(summary(alloc, count, &counts)?)
}

/// Returns the reply Done with `text`.
fn done(text: Vec<u8>) -> Reply
    ensures { result ≡ record { status = Status.Done; text = text; ran = None } }
{
    Reply {
        status: Status::Done,
        text,
        ran: None,
    }
}

/// Returns the reply Differs with `text`.
fn differs(text: Vec<u8>) -> Reply
    ensures { result ≡ record { status = Status.Differs; text = text; ran = None } }
{
    Reply {
        status: Status::Differs,
        text,
        ran: None,
    }
}

/// Returns the reply Done with the running record of peers.
fn ran(reply: RunReply) -> Reply
    ensures { result ≡ record { status = Status.Done; text = reply.text; ran = Some reply.ran } }
{
    let RunReply { text, ran } = reply;
    Reply {
        status: Status::Done,
        text,
        ran: Some(ran),
    }
}

/// Returns the reply of a command to the bytes that it read.
fn reply_for<R: Threads + Sync, G: Gate + Sync>(
    rt: &R,
    alloc: Global,
    form: Command,
    bytes: &[u8],
    gate: &G,
) -> Result<Reply, NoReply>
    requires range { IsInRange form }
    requires short { passes (limit_of form) bytes.now ≡ false }
    ensures accepted { OnOk result (IsTextVerdict form bytes.now None) }
    ensures replies { IfOk result (λ r. Replies form bytes.now r.status r.text.items) }
    ensures left { IfOk result (λ r. IsLeft r.status (Some form) bytes.now r.text.items r.ran) }
    ensures refused { RefusesBy form bytes.now result }
{
    match form {
        Command::Sim => Ok(done(simulated(alloc, bytes)?)),
        Command::Run => Ok(ran(run(rt, alloc, bytes, gate)?)),
        Command::Replay => replayed(alloc, bytes),
        Command::Renew => renewed(alloc, bytes),
        Command::Dump => Ok(done(or_refused!(dump(alloc, bytes), DumpFault => Image))),
        Command::Config(peer) => Ok(done(configured(alloc, peer, bytes)?)),
        Command::Load(count) => Ok(done(loaded(alloc, count)?)),
        Command::Capture(peer) => captured(alloc, peer, bytes),
        Command::Feed(peer) => Ok(done(fed(alloc, peer, bytes)?)),
        Command::Ports => {
            printed_is_read_again();
            Ok(done(or_refused!(ports(alloc, bytes), PortsFault => PortText)))
        }
        Command::Bridge => {
            spelled_is_read();
            Ok(done(or_refused!(bridge(alloc, bytes), BridgeFault => BridgeText)))
        }
    }
}

/// Returns the reply to the bytes that a command read, or the reply that refuses them. Requires
/// that the bytes are within the command's limit.
pub(crate) fn reply_to<R: Threads + Sync, G: Gate + Sync>(
    rt: &R,
    alloc: Global,
    form: Command,
    bytes: &[u8],
    gate: &G,
) -> Result<Reply, NoMemory>
    requires short { passes (limit_of form) bytes.now ≡ false }
    requires range { IsInRange form }
    ensures due { IfOk result (λ r. IsDue (Some form) bytes.now r.status r.text.items) }
    ensures left { IfOk result (λ r. IsLeft r.status (Some form) bytes.now r.text.items r.ran) }
    ensures reply { IfOk result (λ r. IsTrue (has_reply r.status)) }
{
    match reply_for(rt, alloc, form, bytes, gate) {
        Ok(reply) => Ok(reply),
        Err(NoReply::Refused(fault)) => Ok(Reply {
            status: Status::Refused,
            text: fault.line(alloc)?,
            ran: None,
        }),
        Err(NoReply::NoMemory) => Err(NoMemory),
    }
}
