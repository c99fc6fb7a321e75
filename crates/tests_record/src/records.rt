//! The record of running peers, one of which is reset.
ghost use Rattle.std.specs.Prelude.{◌≡◌, IfOk};
ghost use Rattle.scenario_text.specs.Running.{has_turn};
ghost use Rattle.scenario_text.specs.Spelling.{world_of};

use ivs_base::NoMemory;
use lawful_history::{Line, Lines};
use record_text::{OwnTrace, OwnTraces, RunTrace, print_run};
use scenario_text::{Act, Scenario};
use std::alloc::Global;
use std::test::Fail;

/// A scenario in which peer 0 alone runs, and is reset once.
const WITH_A_RESET: &[u8] =
    b"ivshm 1\npeers 2\ntable 4096\ncommon 0\nout 16384\nmtu 256\nirq intx\npeer 0 honest\npeer 1 honest\nbegin\nauto 0 0\nturn 0 5\nreset 0\nturn 0 4\nend\n";

/// Whether the peer has a turn line.
#[tactic(auto, unfolding(scenario_text::specs::Running::has_turn))]
fn runs(scenario: &Scenario, peer: u32) -> bool
    ensures { result ≡ has_turn (world_of scenario.now).acts peer }
{
    for act in scenario.acts.items() {
        if let Act::Turn { peer: other, .. } = act {
            if *other == peer {
                return true;
            }
        }
    }
    false
}

/// Returns the run of a scenario of two peers in which peer 0 alone runs.
fn alone(alloc: Global, scenario: Scenario, trace: OwnTrace) -> Result<Option<RunTrace>, NoMemory>
    requires { trace.peer ≡ 0 }
{
    if scenario.geometry.peers() != 2 || !runs(&scenario, 0) || runs(&scenario, 1) {
        return Ok(None);
    }
    let mut peers = OwnTraces::new(alloc);
    peers.push(trace)?;
    Ok(Some(RunTrace { scenario, peers }))
}

/// Returns what peer 0 did: a write of its State, a reset, and a session.
fn reset_once(alloc: Global) -> Result<OwnTrace, NoMemory>
    ensures { IfOk result (λ trace. trace.peer ≡ 0) }
{
    let mut lines = Lines::new(alloc);
    lines.push(Line::State { peer: 0, value: 1 })?;
    lines.push(Line::Reset { peer: 0 })?;
    lines.push(Line::Session {
        peer: 0,
        opened: 2,
        other: 1,
    })?;
    Ok(OwnTrace {
        peer: 0,
        lines,
        turns: 9,
        finished: true,
    })
}

/// Returns the text of this record.
fn text_of(alloc: Global) -> Result<Vec<u8>, Fail> {
    let mut text = b"run 2\n".to_vec(alloc)?;
    text.extend_from_slice(WITH_A_RESET)?;
    text.extend_from_slice(b"peer 0\ns 0 1\nx 0\nsession 0 2 1\nturns 9\nfinished\nend 6\n")?;
    Ok(text)
}

/// Whether this is the text of the record.
fn is_printed(alloc: Global, trace: &RunTrace, text: &[u8]) -> Result<bool, Fail> {
    Ok(print_run(alloc, trace)?.as_slice() == text)
}

#[test]
fn running_record_of_a_peer_that_is_reset(rt: HostRuntime) -> Result<(), Fail> {
    let alloc = rt.alloc();
    let scenario = scenario_text::parse(alloc, WITH_A_RESET)?;
    let Some(trace) = alone(alloc, scenario, reset_once(alloc)?)? else {
        panic!(rt; "peer 0 alone runs");
    };
    let text = text_of(alloc)?;
    assert!(rt;
        is_printed(alloc, &trace, &text)?,
        "the text of a running record"
    );
    Ok(())
}
