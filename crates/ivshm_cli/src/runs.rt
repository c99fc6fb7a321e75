//! Peers in threads of their own, and their running record.

ghost use Rattle.std.specs.Prelude.{◌≡◌, ℕ, Option, Some, None, Ok, IfOk, OnOk, IsErrOf};
ghost use Rattle.scenario_text.specs.Scenario.{World};
ghost use Rattle.scenario_text.specs.Spelling.{IsSpelling, world_of};
ghost use Rattle.scenario_text.specs.Running.{not_running as first_break};
ghost use Rattle.ivshm_cli.specs.Forms.{IsTextVerdict, RefusesBy};
ghost use Rattle.ivshm_cli.specs.Running.{IsRunBy};
ghost use Rattle.program_edge.specs.declared.words.Command.{Command};
ghost use Rattle.ivshm_cli.specs.declared.refusals.Fault.{Fault};

use crate::refusals::Fault;
use crate::replies::{NoReply, scenario_in};
use peer_runner::{Gate, Pass, Words, run_peers, words_for};
use record_text::print_run;
use scenario_text::{Scenario, not_running};
use std::alloc::Global;
use std::thread::Threads;

/// The words that running peers shared, and the pass of these words with the access list of each
/// peer.
#[derive(Drop)]
pub struct Ran {
    /// The words of the region of the scenario read.
    pub words: Words,
    /// The pass, with all peers.
    pub pass: Pass,
}

/// The running record, and the words and pass of its peers.
#[derive(Drop)]
pub(crate) struct RunReply {
    pub(crate) text: Vec<u8>,
    pub(crate) ran: Ran,
}

/// Returns the scenario in running form that the bytes spell.
fn running_in(alloc: Global, bytes: &[u8]) -> Result<Scenario, NoReply>
    ensures spelled { IfOk result (λ scenario. IsSpelling (world_of scenario) bytes.now) }
    ensures running { IfOk result (λ scenario. first_break (world_of scenario) ≡ None) }
    ensures accepted { OnOk result (IsTextVerdict Command.Run bytes.now None) }
    ensures refused { RefusesBy Command.Run bytes.now result }
{
    let scenario = scenario_in(alloc, bytes)?;
    if let Some(line) = not_running(&scenario) {
        return Err(NoReply::Refused(Fault::NotRunning(line)));
    }
    Ok(scenario)
}

/// Runs the peers of the scenario that the bytes spell, each in a thread of its own. Returns their
/// running record, and their words and pass.
pub(crate) fn run<R: Threads + Sync, G: Gate + Sync>(
    rt: &R,
    alloc: Global,
    bytes: &[u8],
    gate: &G,
) -> Result<RunReply, NoReply>
    ensures accepted { OnOk result (IsTextVerdict Command.Run bytes.now None) }
    ensures run { IfOk result (λ r. IsRunBy r.ran bytes.now r.text.items) }
    ensures refused { RefusesBy Command.Run bytes.now result }
{
    let scenario = running_in(alloc, bytes)?;
    let (words, mut pass) = words_for(alloc, &scenario)?;
    let trace = run_peers(rt, alloc, &words, &mut pass, scenario, gate)?;
    let text = print_run(alloc, &trace)?;
    Ok(RunReply {
        text,
        ran: Ran { words, pass },
    })
}
