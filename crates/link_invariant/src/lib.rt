//! The invariant of two ends of the link over the words of the region. The invariant of one honest
//! end holds for all stores of the other. The crate also states the consequences for their frames.
//! It is stated over the end and the place of `call_grammar`, and relates the ends to the rows of
//! `link_machine`. The crate has no code: each law is the contract of a function with an empty
//! body.
//!
//! # Design
//!
//! - The invariant of an end is stated over the grammar's own end and place. `PlaceInvariant` has a
//!   row for each place of the open call. So there is no second machine of places, and no bridge
//!   between two machines.
//! - The pair is over fields (`fields link_config memory p field`), not over words. A field outside
//!   the section is 0, so no law needs `k mod n < n`. A field's word is the queue's own place of
//!   it.
//! - Between honest ends the available entry of position k names descriptor `k mod limit`, and the
//!   address is exactly the byte at which the frame starts (`Spelled`). An offer between its writes
//!   satisfies nothing weaker. The form for delivered frames and for hostile senders needs less, an
//!   entry and an address in range, and follows from this form.
//! - The invariant has more than the laws need. It has the index words, the words that an open
//!   offer has written, and the used id before its index is written. It also says that the frames
//!   delivered are the frames returned and at most one more. Each of these was left out in a random
//!   search, and then a step didn't preserve the rest.
//! - Frames are freed at the mark `reclaim`, before their ids are read. So the pair counts the ids
//!   that were read (`freed_at`) in addition to the frames freed, and the sender's free slots are
//!   counted from there.
//! - The other half of an entry's word is the last value that the end wrote. In RESET words and
//!   lists stay, but a reset may have cut a clear. So the section holds the frames in flight only
//!   in READY and RUN, and while either end is attached.
#![tactic(auto)]

ghost use Rattle.link_invariant.specs.Frames.{FramesComeWhole};
ghost use Rattle.link_invariant.specs.Laws.{EndInvariantIsKept, PairIsKept};
ghost use Rattle.link_invariant.specs.Runs.{HonestRunsDeliver, RunsKeepInvariant};
ghost use Rattle.link_invariant.specs.Sides.{StepsFollowRows};
ghost use Rattle.link_invariant.specs.Wake.{AskedDoorbellIsRung};
ghost use Rattle.link_invariant.specs.LinkInvariant.{FramesAreSpelled, HonestEndsAgree, LinkInvariantIsKept};

/// Law: an honest end preserves its invariant, for all that the other does. It changes no words
/// except its own, and none of its section in RESET.
// claim: An honest end keeps its own invariant at each call's beginning, at each step whatever it
//    reads, at a reset, and as other words change. It stays in range. After a refusal it is in
//    RESET and writes State 0 alone until its reset. A step writes words of its own end alone, and
//    in RESET none of its section.
pub fn end_invariant_is_kept()
    ensures { EndInvariantIsKept }
{}

/// Law: two honest ends preserve the pair through each call that either begins, each of its steps
/// and its reset.
// claim: Two honest ends keep the invariant of the pair: from their start, by each step of either,
//    and as words of neither change.
pub fn pair_is_kept()
    ensures { PairIsKept }
{}

/// Law: two ends, each honest or not, preserve the invariant of each honest one, and the pair if
/// both are honest.
// claim: Two ends, each honest or not, keep the whole invariant beside a hostile end's stores and a
//    bystander's.
pub fn link_invariant_is_kept()
    ensures { LinkInvariantIsKept }
{}

/// Law: two honest ends never refuse, and each delivers what the other accepted.
// claim: Two honest ends never refuse, and what one delivered in its session begins what the other
//    accepted.
pub fn honest_ends_agree()
    ensures { HonestEndsAgree }
{}

/// Law: the section of an honest end holds each frame that it accepted and hasn't freed, for all
/// stores of the other.
// claim: The section of an honest end spells each of its frames in flight, and a frame right after
//    the step that accepts it, whatever the other side stores.
pub fn frames_are_spelled()
    ensures { FramesAreSpelled }
{}

/// Law: a delivered frame has the bytes of the offered frame.
// claim: A frame is delivered by the bytes by which it was offered.
pub fn frames_come_whole()
    ensures { FramesComeWhole }
{}

/// Law: each step of an honest end satisfies rows of the link machine, against an honest or a
/// hostile other.
// claim: Each step of an honest end, its start, the beginning of a call and a reset follow the rows
//    of the link machine, against an honest or a hostile other.
pub fn steps_follow_rows()
    ensures { StepsFollowRows }
{}

/// Law: in all runs of two ends, each honest or not, each honest one satisfies its invariant, and
/// two honest ends satisfy the pair.
// claim: The whole invariant holds wherever ends come, honest and hostile.
pub fn runs_keep_the_invariant()
    ensures { RunsKeepInvariant }
{}

/// Law: in all runs of two honest ends, each has delivered in order what the other accepted, each
/// frame once, through all its sessions.
// claim: Runs of two honest ends over memory are runs of the link machine; each end delivers in
//    order, each frame once, through all sessions.
pub fn honest_runs_deliver()
    ensures { HonestRunsDeliver }
{}

/// Law: an end that finds no frame while its avail_event is the next frame's number wants a
/// doorbell for that frame. It wants the doorbell after every step of the other, except after the
/// step that leads to that doorbell.
// claim: Between two honest ends, a write of the event asks for a doorbell at the next frame, and
//    so does an end that finds nothing while its event stands. What was asked stays so by each own
//    step that writes no event and by each step of the other, except the one that rings.
pub fn asked_doorbell_is_rung()
    ensures { AskedDoorbellIsRung }
{}
