//! Plays a scenario act by act and passes the lines to a listener, part by part. No history is
//! kept.
ghost use Rattle.std.specs.Prelude.{◌≡◌, ◌-◌, ◌^◌, ◌<◌, ◌++◌, ℕ, true, List, [], IfErr, OnOk, replicate};
ghost use Rattle.scenario_text.specs.Scenario.{World};
ghost use Rattle.lawful_history.specs.declared.line.Line.{Line};
ghost use Rattle.lawful_history.specs.Schedule.{Event, TurnTaken, events_of};
ghost use Rattle.lawful_history.specs.Versions.{is_version};
ghost use Rattle.lawful_history.specs.Frames.{HaveFrames};
ghost use Rattle.lawful_history.specs.Permitted.{IsPermittedEvent};
ghost use Rattle.lawful_history.specs.Sides.{world_of};
ghost use Rattle.lawful_history.specs.Sessions.{recorded_in};
ghost use Rattle.lawful_history.specs.History.{history};
ghost use Rattle.simulator.specs.Simulator.{IsAct, history_state_after};
ghost use Rattle.sim_world.specs.declared.playing.Stopped.TheVariants.{NoMemory as OutOfMemory, HasEnough};
ghost use Rattle.sim_world.specs.Playing.{HasReceived, HasStopped, StopsWithin};

use ivs_base::NoMemory;
use lawful_history::Line;
use scenario_text::{Act, Scenario};
use simulator::Simulator;
use std::alloc::Global;
use thiserror::Error;

/// The least number of kept lines that are passed to the listener before the last part.
const PART: usize = 256;

/// Why a scenario wasn't played to its end.
#[derive(Clone, Copy, Debug, PartialEq, Eq, Error)]
pub enum Stopped {
    /// Memory ran out.
    #[error("out of memory")]
    NoMemory,
    /// The listener stopped the play.
    #[error("the listener has heard enough")]
    HasEnough,
}

impl From<NoMemory> for Stopped {
    ghost from_gives = { λ _ e. e ≡ OutOfMemory };

    fn from(_e: NoMemory) -> Stopped {
        Stopped::NoMemory
    }
}

/// A receiver of the lines of a history, which come in parts.
pub trait Listener {
    // between the two states the listener received these lines
    ghost received: { Self → Self → List Line → Type 0 };

    // between the two states the listener received these lines, and stopped the play after them
    ghost stopped_after: { Self → Self → List Line → Type 0 };

    /// Receives the next lines. `HasEnough` stops the play.
    fn take_lines(&mut self, lines: &[Line]) -> Result<(), Stopped>
        ensures received { (began : Self) (before : List Line) → received began self.old before →
            HaveFrames lines.now → OnOk result (received began self.new (before ++ lines.now)) }
        ensures stopped { (began : Self) (before : List Line) → received began self.old before →
            HaveFrames lines.now →
            IfErr result (λ why. why ≡ HasEnough → stopped_after began self.new (before ++ lines.now)) };
}

/// Passes the lines that the simulator keeps to the listener, then removes them from the simulator.
fn pass_on<L: Listener>(simulator: &mut Simulator, listener: &mut L) -> Result<(), Stopped>
    ensures received { (began : L) (world : World) (version : ℕ) (events : List Event) →
        HasReceived world version (L.received began listener.old) events simulator.old →
        OnOk result (HasReceived world version (L.received began listener.new) events simulator.new) }
    ensures stopped { (began : L) (world : World) (version : ℕ) (events : List Event) →
        HasReceived world version (L.received began listener.old) events simulator.old →
        IfErr result (λ why. why ≡ HasEnough → HasStopped world version (L.stopped_after began listener.new) events) }
{
    listener.take_lines(simulator.lines())?;
    simulator.drain();
    Ok(())
}

/// Does the same if the simulator keeps `PART` lines or more.
#[inline(always)]
fn pass_on_many<L: Listener>(simulator: &mut Simulator, listener: &mut L) -> Result<(), Stopped>
    ensures received { (began : L) (world : World) (version : ℕ) (events : List Event) →
        HasReceived world version (L.received began listener.old) events simulator.old →
        OnOk result (HasReceived world version (L.received began listener.new) events simulator.new) }
    ensures stopped { (began : L) (world : World) (version : ℕ) (events : List Event) →
        HasReceived world version (L.received began listener.old) events simulator.old →
        IfErr result (λ why. why ≡ HasEnough → HasStopped world version (L.stopped_after began listener.new) events) }
{
    if simulator.lines().len() < PART {
        return Ok(());
    }
    pass_on(simulator, listener)
}

/// Plays `steps` turns of a peer.
fn play_turns<L: Listener>(
    simulator: &mut Simulator,
    listener: &mut L,
    peer: u32,
    steps: u32,
) -> Result<(), Stopped>
    requires { (began : L) × (world : World) × (version : ℕ) × (events : List Event)
        × HasReceived world version (L.received began listener.old) events simulator.old
        × (peer < world.geometry.peers) }
    ensures received { OnOk result ((began : L) (world : World) (version : ℕ) (events : List Event) →
        IsPermittedEvent world (TurnTaken peer) →
        HasReceived world version (L.received began listener.old) events simulator.old →
        HasReceived world version (L.received began listener.new)
        (events ++ replicate steps (TurnTaken peer)) simulator.new) }
    ensures stopped { (began : L) (world : World) (version : ℕ) (events : List Event) →
        IsPermittedEvent world (TurnTaken peer) →
        HasReceived world version (L.received began listener.old) events simulator.old →
        IfErr result (λ why. why ≡ HasEnough →
        HasStopped world version (L.stopped_after began listener.new) (events ++ replicate steps (TurnTaken peer))) }
{
    for _k in 0..steps {
        simulator.turn(peer)?;
        pass_on_many(simulator, listener)?;
    }
    Ok(())
}

/// Plays one act.
pub(crate) fn play_act<L: Listener>(
    simulator: &mut Simulator,
    listener: &mut L,
    act: &Act,
) -> Result<(), Stopped>
    requires { (began : L) × (world : World) × (version : ℕ) × (events : List Event)
        × HasReceived world version (L.received began listener.old) events simulator.old × IsAct world act.now
        × ((p : ℕ) → (history_state_after world events).losses p < 2 ^ 64 - 1) }
    ensures received { OnOk result ((began : L) (world : World) (version : ℕ) (events : List Event) →
        IsAct world act.now → HasReceived world version (L.received began listener.old) events simulator.old →
        HasReceived world version (L.received began listener.new) (events ++ events_of act.now) simulator.new) }
    ensures stopped { (began : L) (world : World) (version : ℕ) (events : List Event) → IsAct world act.now →
        HasReceived world version (L.received began listener.old) events simulator.old →
        IfErr result (λ why. why ≡ HasEnough →
        HasStopped world version (L.stopped_after began listener.new) (events ++ events_of act.now)) }
{
    match act {
        Act::Turn { peer, steps } => play_turns(simulator, listener, *peer, *steps),
        _ => {
            simulator.act(act)?;
            pass_on_many(simulator, listener)?;
            Ok(())
        }
    }
}

/// Plays a scenario. The listener receives, part by part, the lines that a record of this version
/// has of the scenario's one lawful history. Returns `HasEnough` only if the listener stopped the
/// play, and `NoMemory` if memory ran out or the listener returned it.
// claim received with Listener::take_lines.received, play_load.received: A listener receives what a
//    record of either version holds of the computed history, each line once and in order, in parts.
// claim stopped with Listener::take_lines.stopped, play_load.stopped: `play` returns `HasEnough`
//    only if the listener stopped the play, after the lines of the first events of the schedule.
pub fn play<L: Listener>(
    alloc: Global,
    scenario: &Scenario,
    version: u32,
    listener: &mut L,
) -> Result<(), Stopped>
    requires version { is_version version ≡ true }
    requires silent { L.received listener.old listener.old [] }
    ensures received { OnOk result (L.received listener.old listener.new
        (recorded_in (world_of scenario.now) version (history (world_of scenario.now)))) }
    ensures stopped { IfErr result (λ why. why ≡ HasEnough →
        StopsWithin (world_of scenario.now) version (L.stopped_after listener.old listener.new)) }
{
    let mut simulator = Simulator::new(alloc, scenario, version)?;
    for act in scenario.acts.items() {
        play_act(&mut simulator, listener, act)?;
    }
    let last = simulator.lines();
    listener.take_lines(last)?;
    Ok(())
}
