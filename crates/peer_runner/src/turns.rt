//! The turns of an automatic peer.
ghost use Rattle.std.specs.Prelude.{◌≡◌, ℕ, ◌+◌, ◌^◌, ◌++◌, ◌<◌, ◌≤◌, true, false, OnOk};
ghost use Rattle.call_grammar.specs.Automatic.{is_empty};
ghost use Rattle.call_grammar.specs.Places.{WritingState};
ghost use Rattle.shared_words.specs.Actions.{accessed, looked};
ghost use Rattle.shared_words.specs.Rules.{front};
ghost use Rattle.shared_words.specs.Passes.{IsPassOf, added};
ghost use Rattle.peer_runner.specs.DoorbellPaths.{is_guarded, doorbell_path_in};
ghost use Rattle.peer_runner.specs.Turns.{interrupt_lines, is_below, looks_after, opens};
ghost use Rattle.peer_runner.specs.Runners.{Runner};
ghost use Rattle.link_endpoint.specs.Plan.{is_end_choice, call_chosen_by};
ghost use Rattle.peer_runner.specs.Runners.{touches, MayMake, IsDone, awaits_ring, MayRingBy, due_at, looks_now};
ghost use Rattle.peer_runner.specs.Runners.{due_word, state_for, memory_op_met, lines_on, IsThere, IsAutoPeer};
ghost use Rattle.peer_runner.specs.Contexts.{setup_of, end_config, IsHonest, HasRoutes, HasPeerFirst, state_of, IsNextOf, after_access, AtEachPlace, AtItsPlace};
ghost use Rattle.peer_runner.specs.Contexts.{IsStepDue, after_step, is_guarded_at};

use crate::bells::ring_turn;
use crate::context::PeerContext;
use crate::doorbell_paths::Done;
use crate::notes::{RecordedStep, record_access, record_interrupts, record_step};
use doorbell_irq::Route;
use ivs_base::NoMemory;
use lawful_history::Lines;
use link_endpoint::{Auto, AutoEndpoint, Choice, Endpoint};
use shared_words::{
    Begins, Pass, SessionWord, load, load_session, look, set_state, store, store_session,
};
use split_ring::steps::Access;
use std::marker::Brand;

/// Whether the peer is finished.
pub fn is_finished(choice: Option<Choice>) -> bool
    ensures { result ≡ is_end_choice choice }
{
    matches!(choice, Some(Choice::Finished))
}

/// Whether no frame is left to offer.
fn has_no_frame(auto: &Auto) -> bool
    ensures { result ≡ is_empty auto.now.frames }
{
    auto.head().is_none()
}

/// The most looks before the next choice of a peer whose interrupts are enabled: one, or 64 if the
/// peer sleeps. None are due while a call is open.
pub fn looks_due(auto: &Auto, end: &Endpoint) -> u32
    ensures due { AtItsPlace end.now auto.now (λ config at place plan. result ≡ due_at config at place plan) }
    ensures most { result ≤ 64 }
{
    if end.busy() {
        return 0;
    }
    if end.is_armed() && has_no_frame(auto) {
        64
    } else {
        1
    }
}

/// Whether fewer looks than `due` were taken and none of them found a bit.
fn is_below(looks: Option<u32>, due: u32) -> bool
    ensures { result ≡ is_below looks due }
{
    match looks {
        Some(taken) => taken < due,
        None => false,
    }
}

/// Whether the next turn is a look. `own` is the peer's route, and `looks` the looks since its last
/// step.
pub fn is_look_next(own: Route, due: u32, looks: Option<u32>) -> bool
    ensures value { result ≡ looks_now own due looks }
    ensures more { result ≡ true → is_below looks due ≡ true }
{
    own.enabled && is_below(looks, due)
}

/// The looks after one more, which found this word: none if a bit was set.
fn looks_after(looks: Option<u32>, found: u64) -> Option<u32>
    requires { is_below looks 64 ≡ true }
    ensures { result ≡ looks_after looks found }
{
    match looks {
        Some(taken) if found == 0 => Some(taken + 1),
        _ => None,
    }
}

/// Takes a turn that is a look. After NoMemory the look was made, and its lines may be missing.
pub fn look_turn(
    context: &PeerContext<'_>,
    pass: &mut Pass,
    looks: &mut Option<u32>,
    lines: &mut Lines,
) -> Result<(), NoMemory>
    requires of { HasPeerFirst context.now pass.old }
    requires routes { HasRoutes context.now }
    requires few { is_below looks.old 64 ≡ true }
    ensures { (found : ℕ) × (pass.new ≡ added pass.old (looked found)) × (looks.new ≡ looks_after looks.old found)
        × OnOk result (lines.new ≡ lines.old ++ interrupt_lines 64 context.now.me found) }
{
    let (words, me) = (context.words, context.me);
    let found = look(words, pass, context.routes.len() as u32, me);
    *looks = looks_after(*looks, found);
    record_interrupts(me, found, lines)
}

/// Makes the access of a step, or a part of its doorbell, as one turn does. For the proof, `_auto`
/// and `_choice` determine which call the access begins.
fn take<B: Begins>(
    context: &PeerContext<'_>,
    pass: &mut Pass,
    access: Access,
    ringing: bool,
    _auto: &Auto,
    _choice: Option<Choice>,
) -> Done
    requires next { touches access ≡ true → IsNextOf context.now pass.old B.call access }
    requires of { HasPeerFirst context.now pass.old }
    requires routes { HasRoutes context.now }
    requires may { MayMake (setup_of context.now) context.now.me access }
    requires rings { ringing ≡ true → MayRingBy context.now.routes.now access (front pass.old.lists) }
    ensures done { IsDone ringing (is_guarded (doorbell_path_in context.now.routes.now access)) result }
    ensures pass { pass.new ≡ after_access context.now B.call access result pass.old }
    ensures rings { awaits_ring result ≡ true → MayRingBy context.now.routes.now access (front pass.new.lists) }
{
    let (words, routes) = (context.words, context.routes);
    match access {
        Access::Read(word) => Done::Stepped(load::<B>(words, pass, word)),
        Access::Write(word, value) => {
            store::<B>(words, pass, word, value);
            Done::Stepped(0)
        }
        Access::State(state) => {
            set_state::<B>(words, pass, context.me, state);
            Done::Stepped(0)
        }
        Access::Ring { target, vector } => {
            ring_turn(words, pass, routes, target, vector, ringing)
        }
        Access::Nothing => Done::Stepped(0),
    }
}

/// `take` of the access that begins the call of this choice, or that is the next one of the open
/// call.
fn take_for(
    context: &PeerContext<'_>,
    pass: &mut Pass,
    access: Access,
    ringing: bool,
    auto: &Auto,
    choice: Option<Choice>,
) -> Done
    requires next { touches access ≡ true →
        IsNextOf context.now pass.old (call_chosen_by choice auto.now.frames) access }
    requires of { HasPeerFirst context.now pass.old }
    requires routes { HasRoutes context.now }
    requires may { MayMake (setup_of context.now) context.now.me access }
    requires rings { ringing ≡ true → MayRingBy context.now.routes.now access (front pass.old.lists) }
    ensures done { IsDone ringing (is_guarded (doorbell_path_in context.now.routes.now access)) result }
    ensures pass { let begins = call_chosen_by choice auto.now.frames in
        pass.new ≡ after_access context.now begins access result pass.old }
    ensures rings { awaits_ring result ≡ true → MayRingBy context.now.routes.now access (front pass.new.lists) }
{
    take::<Brand>(context, pass, access, ringing, auto, choice)
}

/// An automatic peer between two turns.
#[derive(Debug, Drop)]
pub struct AutoPeer {
    /// Its end of the link, which chooses its own calls.
    pub driven: AutoEndpoint,
    /// The number of looks since its last step, or none if the last look found a bit.
    pub looks: Option<u32>,
    /// Whether the ring of a doorbell is left.
    pub ringing: bool,
    /// The number of sessions that it opened.
    pub opened: u32,
    /// The session number that it stored or loaded for the State step that comes next.
    pub met: Option<u32>,
}

/// The session word of the peer's next turn. There is one before a State step with 2 or with 3,
/// unless the peer has met a number for that step.
pub fn word_due(end: &Endpoint, met: Option<u32>) -> Option<SessionWord>
    ensures { AtEachPlace end.now (λ _ _ place. result ≡ due_word place met) }
{
    if met.is_some() || !end.busy() {
        return None;
    }
    match end.next() {
        Access::State(2) => Some(SessionWord::Own),
        Access::State(3) => Some(SessionWord::Others),
        _ => None,
    }
}

/// Takes a turn at a session word: stores the number of the session that the peer opens, or loads
/// the other peer's. Returns the number.
pub fn exchange_session_number(
    context: &PeerContext<'_>,
    pass: &mut Pass,
    opened: u32,
    word: SessionWord,
) -> u32
    requires honest { IsHonest context.now }
    requires place { (state_of context.now pass.old).place ≡ WritingState (state_for word) }
    requires opened { (opened ≡ (state_of context.now pass.old).numbers.log.opened) × (opened + 1 < 2 ^ 32) }
    requires of { HasPeerFirst context.now pass.old }
    ensures pass { pass.new ≡ added pass.old (accessed (memory_op_met word result)) }
    ensures number { word ≡ SessionWord.Own → result ≡ opened + 1 }
{
    let (words, me) = (context.words, context.me);
    match word {
        SessionWord::Own => {
            store_session(words, pass, me, opened + 1);
            opened + 1
        }
        SessionWord::Others => load_session(words, pass, me),
    }
}

/// The number of sessions opened after this access, given the number before. A State step with 2
/// opens one.
fn opened_after(opened: u32, access: Access) -> u32
    requires { opened + 1 < 2 ^ 32 }
    ensures { result ≡ opened + opens access }
{
    match access {
        Access::State(2) => opened + 1,
        _ => opened,
    }
}

/// Takes a turn that is no look and meets no number. The turn is the next step of the open call,
/// the first step of the chosen call, or the ring left of a doorbell.
///
/// Returns `NoMemory` if an allocation fails. Then the turn was taken, and its lines may be
/// missing.
pub fn take_turn(
    context: &PeerContext<'_>,
    pass: &mut Pass,
    peer: &mut AutoPeer,
    choice: Option<Choice>,
    lines: &mut Lines,
) -> Result<(), NoMemory>
    requires of { IsPassOf context.now.words.now.shared.table_id (setup_of context.now) pass.old }
    requires honest { IsHonest context.now }
    requires routes { HasRoutes context.now }
    requires few { peer.old.opened + 1 < 2 ^ 32 }
    requires turns { (r : Runner) × IsStepDue context.now r choice pass.old peer.old }
    ensures turned { (r : Runner) → IsStepDue context.now r choice pass.old peer.old →
        (done : Done) × IsDone peer.old.ringing (is_guarded_at context.now r) done
        × IsThere (setup_of context.now) context.now.me context.now.routes.now (after_step context.now r done) pass.new peer.new.driven.end
        × IsAutoPeer peer.new (after_step context.now r done)
        × OnOk result (lines.new ≡ lines.old ++ lines_on (end_config context.now) r done) }
    ensures id { pass.new.table_id ≡ pass.old.table_id }
{
    let first = choice.is_some();
    peer.driven.open(choice);
    let access = peer.driven.end.next();
    let (ringing, auto) = (peer.ringing, &peer.driven.auto);
    let done = take_for(context, pass, access, ringing, auto, choice);
    peer.looks = Some(0);
    peer.ringing = done.awaits_ring();
    if peer.ringing {
        return record_access(context.me, access, 0, lines);
    }
    let step = RecordedStep {
        first,
        opened: peer.opened,
        met: peer.met,
        access,
    };
    peer.opened = opened_after(peer.opened, access);
    peer.met = None;
    let taken = peer.driven.took(done.value());
    let (end, notes) = (&peer.driven.end, taken.as_slice());
    record_step(context.alloc, context.me, step, done, end, notes, lines)
}
