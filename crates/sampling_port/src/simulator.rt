//! The simulator: the region, the record and the states of all peers, event by event.
ghost use Rattle.std.specs.Prelude.{◌≡◌, ℕ, ◌+◌, ◌<◌, ◌≤◌, List, [], ◌∷◌, ◌++◌, OnOk, IfOk, length, replicate, reverse};
ghost use Rattle.port_text.specs.Scenario.{World, IsAllowed};
ghost use Rattle.port_text.specs.Spelling.{world_of};
ghost use Rattle.port_text.specs.Acts.{cost};
ghost use Rattle.sampling_port.specs.Schedule.{Event, CallQueued, TurnTaken, Poked, events_of};
ghost use Rattle.sampling_port.specs.Record.{text_of_lines};
ghost use Rattle.sampling_port.specs.History.{history_state_after};
ghost use Rattle.sampling_port.specs.Simulator.{call_of, peer_state_of, AreAtStart, IsPermittedEvent, RunsTo, Happens, IsRunning, Turns, MayPlay, Plays};

use crate::peer_state::{Call, PeerState, turn};
use crate::port::Port;
use crate::world_state::{Record, WorldState};
use ivs_base::NoMemory;
use port_text::{Act, Message, Scenario};
use section_map::Region;
use std::alloc::Global;
use std::collections::VecDeque;

/// A world state, and the state of each peer, from peer 0.
#[derive(Drop)]
pub struct Simulator {
    pub world_state: WorldState,
    pub peer_states: Vec<PeerState>,
}

/// Returns the initial states of all peers. A hostile peer has a port too, which gets no call.
fn peer_states_of(alloc: Global, scenario: &Scenario) -> Result<Vec<PeerState>, NoMemory>
    ensures { IfOk result
        (λ peer_states. AreAtStart (world_of scenario.now) scenario.now.geometry.peers peer_states.items) }
{
    let mut peer_states = Vec::new(alloc);
    for peer in 0..scenario.geometry.peers() {
        let port = match Port::new(alloc, peer, &scenario.geometry, scenario.most) {
            Ok(port) => port,
            Err(_) => return Err(NoMemory),
        };
        let waiting = VecDeque::new(alloc);
        peer_states.push(PeerState { port, waiting })?;
    }
    Ok(peer_states)
}

impl Simulator {
    /// Returns the initial simulator, whose record holds `text` and no line of the history.
    pub fn new(alloc: Global, scenario: &Scenario, text: Vec<u8>) -> Result<Simulator, NoMemory>
        ensures { IfOk result (λ simulator. RunsTo (world_of scenario.now) text.items [] simulator) }
    {
        let peer_states = peer_states_of(alloc, scenario)?;
        let region = Region::new(alloc, &scenario.geometry)?;
        let recorded = Record { text, count: 0 };
        Ok(Simulator {
            world_state: WorldState { region, recorded },
            peer_states,
        })
    }

    /// Queues a call of a peer.
    fn ask(&mut self, peer: u32, call: Call) -> Result<(), NoMemory>
        requires { peer < length self.old.peer_states.items }
        ensures { OnOk result (Happens (CallQueued peer (call_of call)) self.old self.new) }
    {
        self.peer_states[peer as usize].waiting.push_back(call)?;
        Ok(())
    }

    /// Takes one turn of a peer.
    fn turn(&mut self, peer: u32) -> Result<(), NoMemory>
        requires { IsRunning self.old peer 1 }
        ensures { OnOk result (Happens (TurnTaken peer) self.old self.new) }
    {
        turn(
            peer,
            &mut self.peer_states[peer as usize],
            &mut self.world_state,
        )
    }

    /// Takes `steps` turns of a peer.
    fn turns(&mut self, peer: u32, steps: u32) -> Result<(), NoMemory>
        requires { IsRunning self.old peer steps }
        ensures { OnOk result (Turns peer steps self.old self.new) }
    {
        for _k in 0..steps {
            self.turn(peer)?;
        }
        Ok(())
    }

    /// Writes a word for a hostile peer, or denies the write if the peer may not write the word.
    fn poke(&mut self, peer: u32, word: u32, value: u32) -> Result<(), NoMemory>
        requires { IsRunning self.old peer 1 }
        ensures { OnOk result (Happens (Poked peer word value) self.old self.new) }
    {
        self.world_state.poke(peer, word, value)
    }

    /// Plays one act.
    pub fn act(&mut self, alloc: Global, act: &Act) -> Result<(), NoMemory>
        requires { MayPlay self.old act.now }
        ensures { OnOk result (Plays act.now self.old self.new) }
    {
        match act {
            Act::Publish { peer, message } => {
                let message = Message::of(message.bytes().to_vec(alloc)?);
                self.ask(*peer, Call::Publish(message))
            }
            Act::Sample { peer, from } => self.ask(*peer, Call::Sample(*from)),
            Act::Turn { peer, steps } => self.turns(*peer, *steps),
            Act::Poke { peer, word, value } => self.poke(*peer, *word, *value),
        }
    }

    /// Returns the record.
    pub fn into_record(self) -> Record
        ensures { result ≡ self.world_state.recorded }
    {
        let Simulator { world_state, .. } = self;
        let WorldState { recorded, .. } = world_state;
        recorded
    }
}
