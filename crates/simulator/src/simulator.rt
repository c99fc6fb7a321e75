//! The world of a scenario while it is played: its world state, and the states of its peers.
ghost use Rattle.std.specs.Prelude.{◌≡◌, ℕ, ◌+◌, ◌-◌, ◌<◌, ◌^◌, List, [], ◌∷◌, ◌++◌, true, false, IfOk, OnOk, length, slice_get, replicate};
ghost use Rattle.split_ring.specs.declared.steps.Access.TheVariants as access;
ghost use Rattle.scenario_text.specs.Scenario.{World, is_link};
ghost use Rattle.lawful_history.specs.declared.line.Line.{Line};
ghost use Rattle.lawful_history.specs.Schedule.{Event, CallQueued, AutoStarted, StormStarted, TurnTaken, RegionAccessed, DeviceReset, DeviceAccessed, InterruptDropped, InterruptRepeated, DeviceAccess, register_event, events_of};
ghost use Rattle.lawful_history.specs.Versions.{is_version};
ghost use Rattle.lawful_history.specs.Sides.{world_of, config_of};
ghost use Rattle.lawful_history.specs.Peers.{at_start};
ghost use Rattle.lawful_history.specs.Permitted.{IsPermittedEvent};
ghost use Rattle.simulator.specs.Log.{Output, no_output, given, IsLogOf};
ghost use Rattle.simulator.specs.PeerStates.{call_of, PeerStateRefines, is_honest};
ghost use Rattle.simulator.specs.Simulator.{AreAtStart, IsLinked, RunsTo, Happens, IsRunning, IsAct, PlaysAct, history_state_after, kept_lines};

use crate::link::{Link, Waiting};
use crate::log::Log;
use crate::peer_state::{PeerState, StormSizes, reset, turn};
use crate::world_state::WorldState;
use call_grammar::calls_are_permitted;
use doorbell_irq::Device;
use ivs_base::{Frame, NoMemory};
use lawful_history::{Line, Lines};
use link_endpoint::Endpoint;
use scenario_text::{Act, Scenario};
use section_map::Region;
use std::alloc::Global;
use std::collections::VecDeque;

/// A world state, and the state of each peer.
#[derive(Drop)]
pub struct Simulator {
    alloc: Global,
    /// The sizes that a storm draws from.
    pub sizes: StormSizes,
    /// The words, the devices and the lines.
    pub world_state: WorldState,
    /// The state of each peer, from peer 0.
    pub peer_states: Vec<PeerState>,
}

/// Returns the initial state of a peer.
fn peer_state_of(alloc: Global, scenario: &Scenario, peer: u32) -> Result<PeerState, NoMemory>
    requires { peer < scenario.now.geometry.peers }
    ensures refines { IfOk result (λ peer_state.
        PeerStateRefines (config_of (world_of scenario.now) peer) at_start peer_state) }
    ensures linked { IfOk result (λ peer_state. is_honest peer_state ≡ is_link (world_of scenario.now) peer) }
{
    if !scenario.is_link(peer) {
        return Ok(PeerState::Idle);
    }
    let end = Endpoint::new(
        alloc,
        peer,
        &scenario.geometry,
        &scenario.queue,
        scenario.traffic_vector(),
    )?;
    Ok(PeerState::Honest(Link {
        end,
        waiting: VecDeque::new(alloc),
        auto: None,
    }))
}

/// Returns the initial states of all peers.
fn peer_states_of(alloc: Global, scenario: &Scenario) -> Result<Vec<PeerState>, NoMemory>
    ensures { IfOk result (λ peer_states.
        AreAtStart (world_of scenario.now) scenario.now.geometry.peers peer_states.items) }
{
    let mut peer_states = Vec::new(alloc);
    for peer in 0..scenario.geometry.peers() {
        peer_states.push(peer_state_of(alloc, scenario, peer)?)?;
    }
    Ok(peer_states)
}

/// Returns the initial log of a scenario, for a record of this version.
fn log_of(alloc: Global, scenario: &Scenario, version: u32) -> Log
    ensures { IsLogOf (world_of scenario.now) (no_output version) [] result }
{
    Log::new(alloc, version, [scenario.is_link(0), scenario.is_link(1)])
}

impl Simulator {
    /// Returns the initial simulator. Its lines are for a record of `version`, 1 or 2.
    // claim: The lines are those of a record of the simulator's version. In version 2 alone, the
    //    mark of a session stands before the `over` of a step by which an honest end enters RUN,
    //    with the numbers of sessions opened.
    pub fn new(alloc: Global, scenario: &Scenario, version: u32) -> Result<Simulator, NoMemory>
        requires { is_version version ≡ true }
        ensures { IfOk result (λ simulator. RunsTo (world_of scenario.now) (no_output version) [] simulator) }
    {
        let peer_states = peer_states_of(alloc, scenario)?;
        let region = Region::new(alloc, &scenario.geometry)?;
        let device = Box::new(alloc, Device::new(&scenario.geometry, scenario.wiring))?;
        Ok(Simulator {
            alloc,
            sizes: StormSizes {
                geometry: scenario.geometry,
                queue: scenario.queue,
            },
            world_state: WorldState {
                region,
                device,
                unspent: [0; 8],
                log: log_of(alloc, scenario, version),
            },
            peer_states,
        })
    }

    /// Queues a call of a peer.
    fn ask(&mut self, peer: u32, call: Waiting) -> Result<(), NoMemory>
        requires { IsLinked self.old.peer_states.items peer }
        ensures { OnOk result (Happens (CallQueued peer (call_of call)) self.old self.new) }
    {
        match &mut self.peer_states[peer as usize] {
            PeerState::Honest(link) => {
                link.ask(call)?;
                Ok(())
            }
            _ => unreachable!(),
        }
    }

    /// Makes a peer an automatic end.
    fn automate(&mut self, peer: u32, expect: u64)
        requires { IsLinked self.old.peer_states.items peer }
        ensures { Happens (AutoStarted peer expect) self.old self.new }
    {
        match &mut self.peer_states[peer as usize] {
            PeerState::Honest(link) => link.automate(self.alloc, expect),
            _ => unreachable!(),
        }
    }

    /// Starts a storm at a hostile peer.
    fn storm(&mut self, peer: u32, seed: u64)
        requires { peer < length self.old.peer_states.items }
        ensures { (world : World) (output : Output) (events : List Event) →
            IsPermittedEvent world (StormStarted peer seed) → is_link world peer ≡ false →
            RunsTo world output events self.old →
            RunsTo world output (events ++ StormStarted peer seed ∷ []) self.new }
    {
        self.peer_states[peer as usize] = PeerState::Storm(seed);
    }

    /// Takes one turn of a peer.
    // claim: A turn of an honest end is the next step of its open call, with the marks of the step.
    //    The oldest call that waits is opened next; if none waits, the automatic peer chooses. A
    //    turn of a storm is what its three draws say.
    #[inline(always)]
    pub fn turn(&mut self, peer: u32) -> Result<(), NoMemory>
        requires { IsRunning self.old peer }
        ensures { OnOk result (Happens (TurnTaken peer) self.old self.new) }
    {
        calls_are_permitted();
        let peer_state = &mut self.peer_states[peer as usize];
        turn(
            self.alloc,
            &self.sizes,
            peer,
            peer_state,
            &mut self.world_state,
        )?;
        Ok(())
    }

    /// Takes `steps` turns of a peer.
    fn turns(&mut self, peer: u32, steps: u32) -> Result<(), NoMemory>
        requires { IsRunning self.old peer }
        ensures { OnOk result ((world : World) (output : Output) (events : List Event) →
            IsPermittedEvent world (TurnTaken peer) → RunsTo world output events self.old →
            RunsTo world output (events ++ replicate steps (TurnTaken peer)) self.new) }
    {
        for _k in 0..steps {
            self.turn(peer)?;
        }
        Ok(())
    }

    /// Resets the device of a peer: its open call ends, and its queued calls are dropped.
    fn reset(&mut self, peer: u32) -> Result<(), NoMemory>
        requires { IsRunning self.old peer }
        ensures { OnOk result (Happens (DeviceReset peer) self.old self.new) }
    {
        reset(self.alloc, &mut self.peer_states[peer as usize]);
        self.world_state.reset(peer)?;
        Ok(())
    }

    /// Plays one act.
    // claim with Simulator::poke, Simulator::peek, Simulator::set, Simulator::ring,
    //    Simulator::read_config, Simulator::write_config, Simulator::read_register,
    //    Simulator::read_msix, Simulator::write_msix, Simulator::lose, Simulator::repeat: An act
    //    makes exactly its events, and each event what the rules say of it.
    pub fn act(&mut self, act: &Act) -> Result<(), NoMemory>
        requires { (world : World) × (output : Output) × (events : List Event) × RunsTo world output events self.old
            × IsAct world act.now × ((p : ℕ) → (history_state_after world events).losses p < 2 ^ 64 - 1) }
        ensures { OnOk result (PlaysAct act.now self.old self.new) }
    {
        match act {
            Act::Tick { peer } => self.ask(*peer, Waiting::Tick),
            Act::Offer { peer, frame } => {
                let frame = Frame::of(self.alloc, frame.bytes())?;
                self.ask(*peer, Waiting::Offer(frame))
            }
            Act::Poll { peer } => self.ask(*peer, Waiting::Poll),
            Act::Stop { peer } => self.ask(*peer, Waiting::Stop),
            Act::Auto { peer, expect } => {
                self.automate(*peer, *expect);
                Ok(())
            }
            Act::Storm { peer, seed } => {
                self.storm(*peer, *seed);
                Ok(())
            }
            Act::Turn { peer, steps } => self.turns(*peer, *steps),
            Act::Reset { peer } => self.reset(*peer),
            Act::Poke { peer, word, value } => self.poke(*peer, *word, *value),
            Act::Peek { peer, word } => self.peek(*peer, *word),
            Act::Set { peer, value } => self.set(*peer, *value),
            Act::Ring {
                peer,
                target,
                vector,
            } => self.ring(*peer, *target, *vector),
            Act::CfgRead {
                peer,
                offset,
                width,
            } => self.read_config(*peer, *offset, *width),
            Act::CfgWrite {
                peer,
                offset,
                width,
                value,
            } => self.write_config(*peer, *offset, *width, *value),
            Act::MmioRead { peer, offset } => self.read_register(*peer, *offset),
            Act::MmioWrite {
                peer,
                offset,
                value,
            } => self.write_register(*peer, *offset, *value),
            Act::MsixRead { peer, offset } => self.read_msix(*peer, *offset),
            Act::MsixWrite {
                peer,
                offset,
                value,
            } => self.write_msix(*peer, *offset, *value),
            Act::Lose { peer } => {
                self.lose(*peer);
                Ok(())
            }
            Act::Again { peer, vector } => self.repeat(*peer, *vector),
        }
    }

    /// Reserves space for `more` more lines. Returns `NoMemory` if the allocation fails.
    pub fn reserve(&mut self, more: usize) -> Result<(), NoMemory>
        ensures { self.new ≡ self.old }
    {
        self.world_state.log.reserve(more)
    }

    /// Returns the lines that were recorded and not drained, in their order.
    pub fn lines(&self) -> &[Line]
        ensures { result.now ≡ kept_lines self.now }
    {
        self.world_state.log.items()
    }

    /// Drains the lines.
    // claim on, lines with Simulator::lines, Simulator::into_lines, Simulator::reserve: Draining
    //    lines from the simulator changes no line that comes after them.
    pub fn drain(&mut self)
        ensures on { (world : World) (output : Output) (events : List Event) → RunsTo world output events self.old →
            RunsTo world (given output (kept_lines self.old)) events self.new }
        ensures lines { kept_lines self.new ≡ [] }
    {
        self.world_state.log.clear();
    }

    /// Returns the lines that were recorded and not drained.
    pub fn into_lines(self) -> Lines
        ensures { result ≡ kept_lines self }
    {
        let Simulator { world_state, .. } = self;
        let WorldState { log, .. } = world_state;
        log.into_lines()
    }
}
