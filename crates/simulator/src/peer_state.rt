//! The state of one peer, and its turns.
ghost use Rattle.std.specs.Prelude.{◌≡◌, ℕ, ◌+◌, ◌*◌, ◌/◌, ◌%◌, ◌<◌, ◌^◌, List, [], ◌∷◌, ◌++◌, true, OnOk, IfOk, Some, reverse};
ghost use Rattle.scenario_text.specs.Scenario.{World, IsWorld};
ghost use Rattle.call_grammar.specs.Calls.{EndConfig};
ghost use Rattle.lawful_history.specs.Sides.{config_of};
ghost use Rattle.lawful_history.specs.Storm.{storm_step, storm_after};
ghost use Rattle.lawful_history.specs.EventRecords.{turn_lines};
ghost use Rattle.lawful_history.specs.Peers.{Peer, was_reset};
ghost use Rattle.lawful_history.specs.Device.{step_interrupts};
ghost use Rattle.lawful_history.specs.History.{turn_step, turned};
ghost use Rattle.simulator.specs.Log.{Output};
ghost use Rattle.simulator.specs.WorldState.{WorldStateAfter, HasPeer};
ghost use Rattle.simulator.specs.PeerStates.{PeerStateRefines, PeerStateFits, SameKind, AreSizesOf};

use crate::link::{Link, take_turn};
use crate::world_state::WorldState;
use ivs_base::NoMemory;
use lawful_history::Line;
use section_map::Geometry;
use split_ring::Queue;
use std::alloc::Global;
use step_lines::Storm;

/// The actions of a peer in its turns.
#[derive(Drop)]
pub enum PeerState {
    /// An honest end of the link makes the steps of its calls.
    Honest(Link),
    /// A storm writes at random, by this generator's state.
    Storm(u64),
    /// The peer does nothing.
    Idle,
}

/// The sizes of a world that a storm draws from.
#[derive(Clone, Copy, Debug)]
pub struct StormSizes {
    /// The region.
    pub geometry: Geometry,
    /// The queue of a section.
    pub queue: Queue,
}

/// Makes a step of a storm. Returns the generator's state after it.
fn storm(sizes: &StormSizes, me: u32, x: u64, world_state: &mut WorldState) -> Result<u64, NoMemory>
    requires sizes { (world : World) × AreSizesOf world me sizes.now
        × (world_state.old.region.shape ≡ world.geometry) }
    requires seated { HasPeer world_state.old me }
    ensures turn { (world : World) (output : Output) (past : List Line) (losses : ℕ → ℕ) →
        AreSizesOf world me sizes.now → WorldStateAfter world output past losses world_state.old →
        IfOk result (λ next. (next ≡ storm_after x)
        × WorldStateAfter world output
        (reverse (turn_lines me (Some (storm_step world me x))
        (step_interrupts world past losses me (Some (storm_step world me x)))) ++ past)
        losses world_state.new) }
    ensures seated { (q : ℕ) → HasPeer world_state.old q → HasPeer world_state.new q }
{
    let mut storm = Storm {
        peer: me,
        geometry: sizes.geometry,
        queue: sizes.queue,
        at: x,
    };
    let access = storm.step();
    world_state.perform(me, access)?;
    Ok(storm.at)
}

/// Takes a turn of the peer.
#[inline(always)]
pub fn turn(
    alloc: Global,
    sizes: &StormSizes,
    me: u32,
    peer_state: &mut PeerState,
    world_state: &mut WorldState,
) -> Result<(), NoMemory>
    requires sizes { (world : World) × (peer : Peer) × AreSizesOf world me sizes.now
        × (world_state.old.region.shape ≡ world.geometry)
        × PeerStateRefines (config_of world me) peer peer_state.old
        × PeerStateFits (config_of world me) peer_state.old }
    requires seated { HasPeer world_state.old me }
    ensures turn { (world : World) (output : Output) (past : List Line) (losses : ℕ → ℕ) (peer : Peer) →
        AreSizesOf world me sizes.now → WorldStateAfter world output past losses world_state.old →
        PeerStateRefines (config_of world me) peer peer_state.old →
        OnOk result (WorldStateAfter world output
        (reverse (turn_lines me (turn_step world me peer past)
        (step_interrupts world past losses me (turn_step world me peer past))) ++ past)
        losses world_state.new
        × PeerStateRefines (config_of world me) (turned world me peer past) peer_state.new) }
    ensures seated { (q : ℕ) → HasPeer world_state.old q → HasPeer world_state.new q }
    ensures kind { SameKind peer_state.old peer_state.new }
{
    match peer_state {
        PeerState::Honest(link) => take_turn(alloc, me, link, world_state),
        PeerState::Storm(x) => {
            *x = storm(sizes, me, *x, world_state)?;
            Ok(())
        }
        PeerState::Idle => world_state.record_mark(Line::Idle { peer: me }),
    }
}

/// Resets the peer state with the peer's device.
pub fn reset(alloc: Global, peer_state: &mut PeerState)
    ensures reset { (config : EndConfig) (peer : Peer) → PeerStateRefines config peer peer_state.old →
        PeerStateRefines config (was_reset peer) peer_state.new }
    ensures kind { SameKind peer_state.old peer_state.new }
{
    match peer_state {
        PeerState::Honest(link) => link.reset(alloc),
        PeerState::Storm(_) | PeerState::Idle => {}
    }
}
