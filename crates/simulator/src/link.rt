//! An honest end of the link, its queued calls, and its turns.
ghost use Rattle.std.specs.Prelude.{◌≡◌, ℕ, ◌<◌, List, ◌∷◌, ◌++◌, true, false, OnOk, reverse, map, None};
ghost use Rattle.scenario_text.specs.Scenario.{World};
ghost use Rattle.call_grammar.specs.Steps.{step_of};
ghost use Rattle.call_grammar.specs.Ends.{End};
ghost use Rattle.call_grammar.specs.Calls.{EndConfig};
ghost use Rattle.call_grammar.specs.Places as places;
ghost use Rattle.lawful_history.specs.Sides.{config_of};
ghost use Rattle.lawful_history.specs.EventRecords.{mark_line, turn_lines};
ghost use Rattle.lawful_history.specs.Peers.{Peer, with_call, automated, was_reset, chosen, opened};
ghost use Rattle.lawful_history.specs.Device.{step_interrupts};
ghost use Rattle.lawful_history.specs.History.{turn_step, turned, step_by, moved};
ghost use Rattle.link_endpoint.specs.Engine.{is_busy, offered, delivered};
ghost use Rattle.link_endpoint.specs.Refinement.{RefinesAt, mark_between, marks_between};
ghost use Rattle.lawful_history.specs.Frames.{has_frame, HaveFrames};
ghost use Rattle.simulator.specs.Log.{Output};
ghost use Rattle.simulator.specs.WorldState.{InEachWorld, WorldStateAfter, HasPeer};
ghost use Rattle.simulator.specs.PeerStates.{call_of, LinkRefines, MayWait, LinkFits, IsPlaced};

use crate::world_state::WorldState;
use call_grammar::places_follow_trees;
use ivs_base::{Frame, NoMemory};
use lawful_history::Line;
use link_endpoint::{Auto, Call, Endpoint};
use split_ring::steps::{Note, Notes};
use std::alloc::Global;
use std::collections::VecDeque;
use step_lines::line_of;

/// A queued call.
#[derive(Debug, Drop)]
pub enum Waiting {
    /// A Tick.
    Tick,
    /// A Poll.
    Poll,
    /// A Stop.
    Stop,
    /// An offer of this frame.
    Offer(Frame),
}

/// An honest end of the link, and its queued calls.
#[derive(Drop)]
pub struct Link {
    /// The endpoint, with the place in the open call.
    pub end: Endpoint,
    /// The queued calls, the oldest first.
    pub waiting: VecDeque<Waiting>,
    /// The plan of an automatic end.
    pub auto: Option<Auto>,
}

/// Opens a call.
fn begin(end: &mut Endpoint, call: Waiting)
    requires closed { is_busy end.old ≡ false }
    requires fits { MayWait end.old.config.sizes.mtu call }
    ensures refines { (config : EndConfig) (at : End) → RefinesAt end.old config at places.Closed →
        RefinesAt end.new config at (places.first_place config at (call_of call)) }
    ensures config { end.new.config ≡ end.old.config }
    ensures open { is_busy end.new ≡ true }
{
    match call {
        Waiting::Tick => end.begin(Call::Tick),
        Waiting::Poll => end.begin(Call::Poll),
        Waiting::Stop => end.begin(Call::Stop),
        Waiting::Offer(frame) => end.offer(frame.bytes()),
    }
}

/// Opens the call that an automatic end chooses, if it chooses one.
#[inline(always)]
fn choose_next(link: &mut Link)
    requires closed { is_busy link.old.end ≡ false }
    requires shut { (config : EndConfig) (peer : Peer) (refines : LinkRefines config peer link.old) →
        refines.place ≡ places.Closed }
    requires fits { LinkFits link.old }
    requires refines { (config : EndConfig) × (peer : Peer) × LinkRefines config peer link.old }
    ensures refines { (config : EndConfig) (peer : Peer) → LinkRefines config peer link.old →
        LinkRefines config (chosen config peer peer.driver) link.new }
    ensures config { link.new.end.config ≡ link.old.end.config }
{
    places_follow_trees();
    let phase = link.end.phase();
    let Some(auto) = &mut link.auto else {
        return;
    };
    let choice = auto.choose(phase);
    auto.open(&mut link.end, choice);
}

/// Opens the next call, if no call is open: the oldest queued call, or the call that an automatic
/// end chooses.
#[inline(always)]
fn open_next(link: &mut Link)
    requires fits { LinkFits link.old }
    requires refines { (config : EndConfig) × (peer : Peer) × LinkRefines config peer link.old }
    ensures opened { (config : EndConfig) (peer : Peer) → LinkRefines config peer link.old →
        LinkRefines config (opened config peer) link.new }
    ensures config { link.new.end.config ≡ link.old.end.config }
{
    places_follow_trees();
    if link.end.busy() {
        return;
    }
    match link.waiting.pop_front() {
        Some(call) => begin(&mut link.end, call),
        None => choose_next(link),
    }
}

/// Records the line of a note.
#[inline(always)]
fn record_note(
    alloc: Global,
    me: u32,
    end: &Endpoint,
    note: &Note,
    world_state: &mut WorldState,
) -> Result<(), NoMemory>
    requires { has_frame (mark_line me (mark_between (offered end.now) (delivered end.now) note.now)) ≡ true }
    ensures after { InEachWorld world_state.old (λ world output past losses.
        OnOk result (WorldStateAfter world output
        (mark_line me (mark_between (offered end.now) (delivered end.now) note.now) ∷ past)
        losses world_state.new)) }
    ensures seated { (q : ℕ) → HasPeer world_state.old q → HasPeer world_state.new q }
{
    let line = line_of(alloc, me, end, *note)?;
    world_state.record_mark(line)
}

/// Records the lines of a step's notes.
#[inline(always)]
fn record_notes(
    alloc: Global,
    me: u32,
    end: &Endpoint,
    notes: &[Note],
    world_state: &mut WorldState,
) -> Result<(), NoMemory>
    requires { HaveFrames (map (mark_line me) (marks_between (offered end.now) (delivered end.now) notes.now)) }
    ensures after { InEachWorld world_state.old (λ world output past losses.
        OnOk result (WorldStateAfter world output
        (reverse (map (mark_line me) (marks_between (offered end.now) (delivered end.now) notes.now)) ++ past)
        losses world_state.new)) }
    ensures seated { (q : ℕ) → HasPeer world_state.old q → HasPeer world_state.new q }
{
    for note in notes {
        record_note(alloc, me, end, note, world_state)?;
    }
    Ok(())
}

/// Makes the next step of the open call.
#[inline(always)]
fn carry_on(
    alloc: Global,
    me: u32,
    link: &mut Link,
    world_state: &mut WorldState,
) -> Result<(), NoMemory>
    requires open { is_busy link.old.end ≡ true }
    requires seated { HasPeer world_state.old me }
    requires placed { IsPlaced world_state.old.region.shape me link.old.end.config }
    requires refines { (config : EndConfig) × (peer : Peer) × LinkRefines config peer link.old }
    ensures steps { (world : World) (output : Output) (past : List Line) (losses : ℕ → ℕ) (peer : Peer) →
        WorldStateAfter world output past losses world_state.old → LinkRefines (config_of world me) peer link.old →
        OnOk result (WorldStateAfter world output
        (reverse (turn_lines me (step_by world me peer.driver peer.left past)
        (step_interrupts world past losses me (step_by world me peer.driver peer.left past))) ++ past)
        losses world_state.new
        × LinkRefines (config_of world me) (moved peer past) link.new) }
    ensures seated { (q : ℕ) → HasPeer world_state.old q → HasPeer world_state.new q }
{
    places_follow_trees();
    let access = link.end.next();
    let value = world_state.perform(me, access)?;
    let mut notes = Notes::new();
    link.end.took_into(value, &mut notes);
    record_notes(alloc, me, &link.end, notes.as_slice(), world_state)?;
    if let Some(auto) = &mut link.auto {
        auto.count(notes.as_slice());
    }
    Ok(())
}

/// Takes a turn of an honest end of the link.
#[inline(always)]
pub fn take_turn(
    alloc: Global,
    me: u32,
    link: &mut Link,
    world_state: &mut WorldState,
) -> Result<(), NoMemory>
    requires fits { LinkFits link.old }
    requires seated { HasPeer world_state.old me }
    requires placed { IsPlaced world_state.old.region.shape me link.old.end.config }
    requires refines { (config : EndConfig) × (peer : Peer) × LinkRefines config peer link.old }
    ensures turn { (world : World) (output : Output) (past : List Line) (losses : ℕ → ℕ) (peer : Peer) →
        WorldStateAfter world output past losses world_state.old → LinkRefines (config_of world me) peer link.old →
        OnOk result (WorldStateAfter world output
        (reverse (turn_lines me (turn_step world me peer past)
        (step_interrupts world past losses me (turn_step world me peer past))) ++ past)
        losses world_state.new
        × LinkRefines (config_of world me) (turned world me peer past) link.new) }
    ensures seated { (q : ℕ) → HasPeer world_state.old q → HasPeer world_state.new q }
{
    open_next(link);
    if link.end.busy() {
        carry_on(alloc, me, link, world_state)
    } else {
        world_state.record_mark(Line::Idle { peer: me })
    }
}

impl Link {
    /// Queues a call after the others. A frame for an automatic end is appended to its frames
    /// instead.
    pub fn ask(&mut self, call: Waiting) -> Result<(), NoMemory>
        ensures { OnOk result ((config : EndConfig) (peer : Peer) → LinkRefines config peer self.old →
            LinkRefines config (with_call peer (call_of call)) self.new) }
    {
        match (&mut self.auto, call) {
            (Some(auto), Waiting::Offer(frame)) => auto.add(frame)?,
            (_, call) => self.waiting.push_back(call)?,
        }
        Ok(())
    }

    /// Makes the end automatic.
    pub fn automate(&mut self, alloc: Global, expect: u64)
        ensures { (config : EndConfig) (peer : Peer) → LinkRefines config peer self.old →
            LinkRefines config (automated peer expect) self.new }
    {
        self.auto = Some(Auto::new(alloc, expect));
    }

    /// Resets the end with its device: the open call ends, and the queued calls are dropped. An
    /// automatic end begins its round again.
    pub fn reset(&mut self, alloc: Global)
        ensures { (config : EndConfig) (peer : Peer) → LinkRefines config peer self.old →
            LinkRefines config (was_reset peer) self.new }
    {
        self.end.reset();
        self.waiting = VecDeque::new(alloc);
        if let Some(auto) = &mut self.auto {
            auto.cut();
        }
    }
}
