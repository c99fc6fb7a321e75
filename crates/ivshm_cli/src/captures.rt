//! Capture files: what a lawful record delivers as a capture file, and the scenario made from a
//! capture file.

ghost use Rattle.std.specs.Prelude.{◌≡◌, ◌<◌, ◌^◌, ℕ, None, IfOk, OnOk, length};
ghost use Rattle.scenario_text.specs.Scenario.{IsWorld};
ghost use Rattle.scenario_text.specs.Spelling.{world_of};
ghost use Rattle.lawful_history.specs.Lawful.{IsLawfulIn};
ghost use Rattle.frame_capture.specs.CaptureFile.{IsCaptureFile};
ghost use Rattle.frame_capture.specs.Deliveries.{capture_of};
ghost use Rattle.ivshm_cli.specs.Forms.{IsTextVerdict, RefusesBy};
ghost use Rattle.ivshm_cli.specs.Capture.{file_of, IsFeedOf};
ghost use Rattle.program_edge.specs.declared.words.Command.{Command};
ghost use Rattle.ivshm_cli.specs.declared.refusals.Fault.{Fault};

use crate::refusals::Fault;
use crate::replies::{NoReply, or_refused};
use frame_capture::{Capture, CaptureFault, FeedFault, captured, parse, scenario_of};
use history_laws::delivered_frames_are_read;
use ivs_base::NoMemory;
use record_text::Trace;
use std::alloc::Global;

/// Returns the capture file of what the lawful history delivers to `peer`, 0 or 1. Requires that no
/// delivered frame is longer than a packet may be.
pub(crate) fn capture_file(alloc: Global, peer: u32, trace: &Trace) -> Result<Vec<u8>, NoMemory>
    requires peer { peer < 2 }
    requires world { IsWorld (world_of trace.now.scenario) }
    requires lawful { IsLawfulIn (world_of trace.now.scenario) trace.now.version trace.now.lines }
    requires few { length trace.now.lines < 2 ^ 32 }
    ensures printed { IfOk result (λ text. text.items ≡ file_of (capture_of peer trace.now.lines)) }
    ensures file { IfOk result (λ text. IsCaptureFile (capture_of peer trace.now.lines) text.items) }
{
    delivered_frames_are_read();
    let capture = captured(alloc, trace, peer)?;
    frame_capture::print(alloc, &capture)
}

/// Returns the capture that the capture file `bytes` holds.
fn capture_in(alloc: Global, bytes: &[u8]) -> Result<Capture, NoReply>
    ensures file { IfOk result (λ capture. IsCaptureFile capture bytes.now) }
    ensures refused { (peer : ℕ) → RefusesBy (Command.Feed peer) bytes.now result }
{
    Ok(or_refused!(parse(alloc, bytes), CaptureFault => Packets))
}

/// Returns the text of the scenario in which `peer`, 0 or 1, offers the frames of the capture file
/// `bytes`.
pub(crate) fn fed(alloc: Global, peer: u32, bytes: &[u8]) -> Result<Vec<u8>, NoReply>
    requires { peer < 2 }
    ensures accepted { OnOk result (IsTextVerdict (Command.Feed peer) bytes.now None) }
    ensures text { IfOk result (λ text. IsFeedOf peer bytes.now text.items) }
    ensures refused { RefusesBy (Command.Feed peer) bytes.now result }
{
    let capture = capture_in(alloc, bytes)?;
    match scenario_of(alloc, &capture, peer) {
        Ok(scenario) => Ok(scenario_text::print(alloc, &scenario)?),
        Err(FeedFault::TooLarge) => Err(NoReply::Refused(Fault::TooLarge)),
        Err(FeedFault::NoMemory) => Err(NoReply::NoMemory),
    }
}
