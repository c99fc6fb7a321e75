//! The state of one peer: its port and the calls that wait for it.
ghost use Rattle.std.specs.Prelude.{◌≡◌, ℕ, ◌<◌, ◌^◌, List, [], ◌∷◌, ◌++◌, OnOk, true, false, reverse};
ghost use Rattle.port_text.specs.Scenario.{World, IsWorld};
ghost use Rattle.sampling_port.specs.Views.{IsPort, is_busy, port_after};
ghost use Rattle.sampling_port.specs.Laws.{step_of_port};
ghost use Rattle.sampling_port.specs.Schedule.{TurnTaken};
ghost use Rattle.sampling_port.specs.EventRecords.{Line, step_lines, lines_by};
ghost use Rattle.sampling_port.specs.History.{met_by, opening, opened, step_in, peer_state_in};
ghost use Rattle.sampling_port.specs.Simulator.{call_of, peer_state_of, WorldStateAfter, IsPermittedCall, IsReady};

use crate::port::Port;
use crate::world_state::WorldState;
use ivs_base::NoMemory;
use port_text::Message;
use std::collections::VecDeque;

/// A call that waits.
#[derive(Debug, Drop)]
pub enum Call {
    /// The publish of this message.
    Publish(Message),
    /// A sample of this peer.
    Sample(u32),
}

/// A port, and the calls that it makes next.
#[derive(Drop)]
pub struct PeerState {
    pub port: Port,
    /// The calls that wait, the oldest first.
    pub waiting: VecDeque<Call>,
}

/// Opens a call.
fn open(port: &mut Port, call: Call)
    requires idle { is_busy port.old ≡ false }
    requires given { (world : World) × (me : ℕ) ×
        IsReady world me (record { port = port.old; waiting = call_of call ∷ [] }) }
    ensures { port.new ≡ opening port.old (call_of call) }
{
    match call {
        Call::Publish(message) => port.publish(message.bytes()),
        Call::Sample(from) => port.sample(from),
    }
}

/// Opens the oldest call that waits, if no call is open.
fn open_next(peer_state: &mut PeerState)
    requires { (world : World) × (me : ℕ) × IsReady world me (peer_state_of peer_state.old) }
    ensures { peer_state_of peer_state.new ≡ opened (peer_state_of peer_state.old) }
{
    if peer_state.port.busy() {
        return;
    }
    if let Some(call) = peer_state.waiting.pop_front() {
        open(&mut peer_state.port, call);
    }
}

/// Makes the next step of the open call.
fn step(me: u32, port: &mut Port, world_state: &mut WorldState) -> Result<(), NoMemory>
    requires port { IsPort port.old }
    requires busy { is_busy port.old ≡ true }
    requires me { port.old.me ≡ me }
    requires shape { world_state.old.region.shape ≡ port.old.shape }
    requires room { world_state.old.recorded.count < 2 ^ 62 }
    ensures after { (front : List ℕ) (past : List Line) → WorldStateAfter front past world_state.old →
        OnOk result (WorldStateAfter front (reverse (step_lines me (step_of_port port.old (met_by past port.old))) ++ past) world_state.new
        × (port.new ≡ port_after port.old port.old.place (met_by past port.old))) }
    ensures shape { world_state.new.region.shape ≡ world_state.old.region.shape }
{
    let value = world_state.perform(me, port.next())?;
    let from = port.sampled();
    match port.took(value) {
        None => Ok(()),
        Some(note) => world_state.mark(me, from, port.message(), note),
    }
}

/// Takes a turn of the peer.
pub fn turn(
    me: u32,
    peer_state: &mut PeerState,
    world_state: &mut WorldState,
) -> Result<(), NoMemory>
    requires ready { (world : World) × IsReady world me (peer_state_of peer_state.old) ×
        (world_state.old.region.shape ≡ world.geometry) }
    requires room { world_state.old.recorded.count < 2 ^ 62 }
    ensures after { (front : List ℕ) (past : List Line) → WorldStateAfter front past world_state.old →
        OnOk result (WorldStateAfter front (reverse (lines_by (TurnTaken me) (step_in world_state.old.region.shape (peer_state_of peer_state.old) past (TurnTaken me))) ++ past) world_state.new
        × (peer_state_of peer_state.new ≡ peer_state_in (peer_state_of peer_state.old) past (TurnTaken me))) }
    ensures shape { world_state.new.region.shape ≡ world_state.old.region.shape }
{
    open_next(peer_state);
    if !peer_state.port.busy() {
        return world_state.idle(me);
    }
    step(me, &mut peer_state.port, world_state)
}
