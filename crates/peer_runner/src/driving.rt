//! The calls of each thread: the turns of one peer.
ghost use Rattle.std.specs.Prelude.{ℕ, ◌≡◌, ◌∷◌, ◌++◌, ◌<◌, ◌^◌, [], Some, None, List, length, true, false, if◌then◌else◌, OnOk};
ghost use Rattle.lawful_history.specs.declared.line.Line.TheVariants as line;
ghost use Rattle.lawful_history.specs.Storm.{storm_after};
ghost use Rattle.link_endpoint.specs.Plan.{Plan};
ghost use Rattle.step_lines.specs.Storms.{IsStormOf};
ghost use Rattle.shared_words.specs.RunSetups.{world_in, honest_of};
ghost use Rattle.shared_words.specs.Actions.{accessed};
ghost use Rattle.shared_words.specs.DerivedStates.{restarted};
ghost use Rattle.peer_runner.specs.Turns.{all_turns, has_turn_left, IsSpanSpent};
ghost use Rattle.shared_words.specs.Passes.{IsPassOf, IsFirstIn, added};
ghost use Rattle.shared_words.specs.PeerRoutes.{AreRoutes};
ghost use Rattle.peer_runner.specs.Runners.{Runner, has_finished};
ghost use Rattle.peer_runner.specs.Contexts.{setup_of, IsHonest, HasRoutes, HasPeerFirst, IsOn, Records, IsBeforeTurn, TookTurn, WasReset};
ghost use Rattle.peer_runner.specs.Contexts.{IsBeforeSpan, TookSpan};
ghost use Rattle.peer_runner.specs.Drives.{MayBeAuto, MayDrive, storming, automatic, DroveBy, DrovePlan};

use crate::context::PeerContext;
use crate::doorbell_paths::route_to;
use crate::gate::Gate;
use crate::spans::Spans;
use crate::storms::take_step;
use crate::turns::{
    AutoPeer, exchange_session_number, is_finished, is_look_next, look_turn, looks_due, take_turn,
    word_due,
};
use arrayvec::ArrayVec;
use call_grammar::places_follow_trees;
use doorbell_irq::Route;
use ivs_base::NoMemory;
use lawful_history::{Line, Lines};
use link_endpoint::{Auto, AutoEndpoint, Endpoint};
use record_text::OwnTrace;
use section_map::Geometry;
use shared_words::{Pass, Words, reset};
use split_ring::Queue;
use std::alloc::Global;
use step_lines::Storm;

/// The driver of a running peer, which chooses its steps.
#[derive(Debug, Drop)]
pub enum Driver {
    /// The rule of the automatic peer, at an end of the link.
    Auto(Auto, Endpoint),
    /// A storm, which draws from its seed over these sizes.
    Storm {
        seed: u64,
        geometry: Geometry,
        queue: Queue,
    },
}

/// A running peer: its number, its most turns before each reset and after the last one, what drives
/// it, and the routes of its doorbells.
#[derive(Debug, Drop)]
pub struct PeerPlan {
    /// The peer.
    pub peer: u32,
    /// The most turns that the peer takes, span by span. Between two spans the peer is reset: each
    /// reset is one more turn.
    pub spans: Spans,
    /// The driver, which chooses the peer's steps.
    pub driver: Driver,
    /// The routes of doorbells to each peer, by its number.
    pub routes: ArrayVec<Route, 8>,
}

/// Takes one turn of an automatic peer, the turn with this number, and returns true. Returns false
/// if the peer is finished: then no turn is taken. After NoMemory the turn was taken.
fn auto_turn<G: Gate>(
    context: &PeerContext<'_>,
    pass: &mut Pass,
    turn: u64,
    peer: &mut AutoPeer,
    gate: &G,
    lines: &mut Lines,
) -> Result<bool, NoMemory>
    requires honest { IsHonest context.now }
    requires routes { HasRoutes context.now }
    requires trajectory { IsBeforeTurn context.now pass.old peer.old }
    ensures trajectory { (plan : Plan) (spans : List ℕ) (r : Runner) → IsOn context.now plan spans r pass.old peer.old →
        has_turn_left r.spans ≡ true → Records context.now r lines.old →
        TookTurn context.now plan spans r pass.new peer.new lines.new result }
{
    let me = context.me;
    let due = looks_due(&peer.driven.auto, &peer.driven.end);
    if is_look_next(route_to(context.routes, me), due, peer.looks) {
        gate.pass(me, turn);
        look_turn(context, pass, &mut peer.looks, lines)?;
        return Ok(true);
    }
    if let Some(word) = word_due(&peer.driven.end, peer.met) {
        gate.pass(me, turn);
        peer.met = Some(exchange_session_number(context, pass, peer.opened, word));
        return Ok(true);
    }
    let choice = peer.driven.choose();
    if is_finished(choice) {
        return Ok(false);
    }
    gate.pass(me, turn);
    take_turn(context, pass, peer, choice, lines)?;
    Ok(true)
}

/// Takes the turns of one span, or fewer if the peer is finished. `turns` counts all turns of the
/// peer.
fn auto_span<G: Gate>(
    context: &PeerContext<'_>,
    pass: &mut Pass,
    span: u64,
    turns: &mut u64,
    peer: &mut AutoPeer,
    gate: &G,
    lines: &mut Lines,
) -> Result<(), NoMemory>
    requires honest { IsHonest context.now }
    requires routes { HasRoutes context.now }
    requires trajectory { IsBeforeSpan context.now span pass.old peer.old turns.old lines.old }
    ensures trajectory { (plan : Plan) (spans : List ℕ) (r : Runner) (rest : List ℕ) →
        IsOn context.now plan spans r pass.old peer.old → r.spans ≡ span ∷ rest → turns.old ≡ length r.turns →
        Records context.now r lines.old → TookSpan context.now plan spans rest pass.new peer.new turns.new lines.new result }
{
    for _taken in 0..span {
        let turn = *turns + 1;
        if !auto_turn(context, pass, turn, peer, gate, lines)? {
            return Ok(());
        }
        *turns = turn;
    }
    Ok(())
}

/// Resets an automatic peer, by the turn with this number, and returns true. After that no call is
/// open and no ring of a doorbell is left. Returns false if the peer is finished: then the peer
/// isn't reset.
fn auto_restart<G: Gate>(
    context: &PeerContext<'_>,
    pass: &mut Pass,
    turn: u64,
    peer: &mut AutoPeer,
    gate: &G,
    lines: &mut Lines,
) -> Result<bool, NoMemory>
    requires honest { honest_of (setup_of context.now) context.now.me ≡ true }
    requires of { HasPeerFirst context.now pass.old }
    ensures trajectory { (plan : Plan) (spans : List ℕ) (r : Runner) → IsOn context.now plan spans r pass.old peer.old →
        (has_finished r ≡ false → IsSpanSpent r.spans) → Records context.now r lines.old →
        WasReset context.now plan spans r pass.new peer.new lines.new result }
{
    let me = context.me;
    let choice = peer.driven.choose();
    if is_finished(choice) {
        return Ok(false);
    }
    gate.pass(me, turn);
    reset(context.words, pass, me);
    peer.driven.reset();
    peer.looks = Some(0);
    peer.ringing = false;
    peer.met = None;
    lines.push(Line::Reset { peer: me })?;
    Ok(true)
}

/// Runs an automatic peer for its spans, or until it is finished.
fn drive_auto<G: Gate>(
    context: &PeerContext<'_>,
    pass: &mut Pass,
    spans: &[u64],
    mut peer: AutoPeer,
    gate: &G,
) -> Result<OwnTrace, NoMemory>
    requires of { IsPassOf context.now.words.now.shared.table_id (setup_of context.now) pass.old }
    requires alone { (pass.old.from ≡ context.now.me) × (pass.old.lists ≡ [] ∷ []) }
    requires drives { MayBeAuto (setup_of context.now) context.now.me peer.driven.auto peer.driven.end }
    requires fresh { (peer.looks ≡ Some 0) × (peer.ringing ≡ false) × (peer.opened ≡ 0) × (peer.met ≡ None) }
    requires few { all_turns spans.now < 2 ^ 32 }
    requires routes { HasRoutes context.now }
    ensures { DroveBy (setup_of context.now) context.now.routes.now context.now.me spans.now
        (automatic peer.driven.auto) pass.old pass.new result }
{
    places_follow_trees();
    let mut lines = Lines::new(context.alloc);
    let mut turns = 0;
    for (k, span) in spans.iter().enumerate() {
        if k > 0 {
            let turn = turns + 1;
            if !auto_restart(context, pass, turn, &mut peer, gate, &mut lines)? {
                break;
            }
            turns = turn;
        }
        auto_span(
            context, pass, *span, &mut turns, &mut peer, gate, &mut lines,
        )?;
    }
    let choice = peer.driven.choose();
    Ok(OwnTrace {
        peer: context.me,
        lines,
        turns,
        finished: is_finished(choice),
    })
}

/// Resets a storm. The reset drops the ring that is left of a doorbell: then the storm continues
/// with its next step.
fn storm_restart(
    words: &Words,
    pass: &mut Pass,
    storm: &mut Storm,
    ringing: &mut bool,
    lines: &mut Lines,
) -> Result<(), NoMemory>
    requires of { IsFirstIn words.now.shared.table_id words.now.shared.key storm.old.peer pass.old }
    requires storm { IsStormOf (world_in words.now.shared.key) storm.old }
    ensures pass { pass.new ≡ added pass.old (accessed restarted) }
    ensures storm { let at = storm.old.at in
        storm.new ≡ record storm.old { at = if ringing.old then storm_after at else at } }
    ensures ringing { ringing.new ≡ false }
    ensures lines { OnOk result (lines.new ≡ lines.old ++ line.Reset storm.old.peer ∷ []) }
{
    reset(words, pass, storm.peer);
    if *ringing {
        storm.step();
    }
    *ringing = false;
    lines.push(Line::Reset { peer: storm.peer })
}

/// Takes all turns of a storm's spans.
fn drive_storm<G: Gate>(
    alloc: Global,
    words: &Words,
    pass: &mut Pass,
    spans: &[u64],
    mut storm: Storm,
    routes: &[Route],
    gate: &G,
) -> Result<OwnTrace, NoMemory>
    requires of { IsPassOf words.now.shared.table_id words.now.shared.key pass.old }
    requires alone { (pass.old.from ≡ storm.peer) × (pass.old.lists ≡ [] ∷ []) }
    requires hostile { honest_of words.now.shared.key storm.peer ≡ false }
    requires storm { IsStormOf (world_in words.now.shared.key) storm }
    requires few { all_turns spans.now < 2 ^ 32 }
    requires routes { AreRoutes words.now.shared.key routes.now }
    ensures { DroveBy words.now.shared.key routes.now storm.peer spans.now (storming storm.at)
        pass.old pass.new result }
{
    let mut lines = Lines::new(alloc);
    let mut turns = 0;
    let mut ringing = false;
    for (k, span) in spans.iter().enumerate() {
        if k > 0 {
            turns += 1;
            gate.pass(storm.peer, turns);
            storm_restart(words, pass, &mut storm, &mut ringing, &mut lines)?;
        }
        for _taken in 0..*span {
            turns += 1;
            gate.pass(storm.peer, turns);
            take_step(words, pass, routes, &mut storm, &mut ringing, &mut lines)?;
        }
    }
    Ok(OwnTrace {
        peer: storm.peer,
        lines,
        turns,
        finished: false,
    })
}

/// Takes the turns of a plan's peer, and waits for no other peer. Between two spans the peer is
/// reset.
///
/// Requires that the pass is of the words and of this peer alone, with an empty list. The driver is
/// at its start, and the words were made with the routes. Returns the peer's own trace, without its
/// quiet calls, once all turns are taken or the peer is finished.
///
/// Returns `NoMemory` if an allocation fails. Then the pass has the actions so far. The gate's
/// `ended` is called once in either case.
// claim: A driven peer adds exactly its actions to its pass. Its trace is its own record: the lines
//    and marks of its calls as the automatic rule chooses them, or of its storm, its turns, and
//    whether it is finished. Doorbells follow their target's route, sessions are numbered at States
//    2 and 3, and a span ends with a reset if another follows.
pub fn drive<G: Gate>(
    alloc: Global,
    words: &Words,
    pass: &mut Pass,
    plan: PeerPlan,
    gate: &G,
) -> Result<OwnTrace, NoMemory>
    requires of { IsPassOf words.now.shared.table_id words.now.shared.key pass.old }
    requires alone { (pass.old.from ≡ plan.peer) × (pass.old.lists ≡ [] ∷ []) }
    requires drives { MayDrive words.now.shared.key plan.peer plan.driver }
    requires few { all_turns plan.spans < 2 ^ 32 }
    requires routes { AreRoutes words.now.shared.key plan.routes.items }
    ensures { DrovePlan words.now.shared.key plan pass.old pass.new result }
{
    let PeerPlan {
        peer,
        spans,
        driver,
        routes,
    } = plan;
    let routes = routes.as_slice();
    let spans = spans.items();
    match driver {
        Driver::Auto(auto, end) => {
            let auto_peer = AutoPeer {
                driven: AutoEndpoint { end, auto },
                looks: Some(0),
                ringing: false,
                opened: 0,
                met: None,
            };
            let context = PeerContext {
                alloc,
                words,
                me: peer,
                routes,
            };
            let trace = drive_auto(&context, pass, spans, auto_peer, gate);
            gate.ended(peer);
            trace
        }
        Driver::Storm {
            seed,
            geometry,
            queue,
        } => {
            let storm = Storm {
                peer,
                geometry,
                queue,
                at: seed,
            };
            let trace = drive_storm(alloc, words, pass, spans, storm, routes, gate);
            gate.ended(peer);
            trace
        }
    }
}
