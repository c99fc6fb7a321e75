//! Progress of two honest ends of the link, counted in rounds. A round is over when each end has
//! ended a Tick in it. The laws say when both ends are in RUN, what a poll that ends has delivered,
//! and when an offer is accepted. They use the runs of `link_invariant`. The crate has no code:
//! each law is the contract of a function with an empty body.
//!
//! # Design
//!
//! - No law says that an end gets a turn, or how long a round takes. Each law is about a run in
//!   which the rounds are over.
//! - A round of calls counts only an offer and a poll that also began in it. With calls that began
//!   before, an offer may have read an older used index, and the bounds are too low.
//! - The handshake is a finite machine of phases (`specs/Handshake`). A table has the rounds that
//!   are left in each state, and a computation over all states shows that each round lowers them.
//!   A step of an end over the words is a step of that machine, or leaves its state as it was.
//! - The present table of moves has a livelock after a reset. A driver avoids it by the rule of
//!   rest, which is a premise on the run (`owes_after`, `KeepsRest`). The two repaired tables have
//!   no livelock. They are proved on the machine alone: no version of the link uses them.
#![tactic(auto)]

ghost use Rattle.link_progress.specs.Frames.{FramesGetThrough};
ghost use Rattle.link_progress.specs.Handshake.{PresentCanLivelock, RepairedComesUp, RepairedIsSafe};
ghost use Rattle.link_progress.specs.Polls.{OffersFindRoom, PollsDeliver};
ghost use Rattle.link_progress.specs.Rounds.{LinksComeUp, RestedLinksComeUp};
ghost use Rattle.link_progress.specs.Sleepers.{SleepersAreRung};

/// Law: two honest ends without an open Tick or Stop are in RUN after four rounds.
// claim: From each state of two honest ends in which no Tick and no Stop is open, without further
//    stops and resets, both ends are in RUN after four rounds, in any order of single steps, and
//    stay there. A round is over when each end has ended a Tick in it.
pub fn links_come_up()
    ensures { LinksComeUp }
{}

/// Law: two honest ends are in RUN after eight rounds, if end 1 keeps the rule of rest.
// claim: From each state of two honest ends, with any call open, without further stops and resets,
//    both ends are in RUN after eight rounds and stay there, if end 1 keeps the rule of rest: after
//    it sets State 0 it begins no Tick until the Tick or Stop that end 0 then had open is over.
pub fn rested_links_come_up()
    ensures { RestedLinksComeUp }
{}

/// Law: a poll that ends has delivered each frame that was accepted before it began.
// claim: A poll of an honest end that begins after a frame was accepted, and ends, has delivered
//    that frame, whatever the honest other end does meanwhile, stops and resets included.
pub fn polls_deliver()
    ensures { PollsDeliver }
{}

/// Law: an offer that begins while few frames are accepted and not yet returned is accepted.
// claim: An offer of an honest end that begins while at most `out` of its frames aren't returned,
//    and ends, is accepted if a frame always fits beside `out` others, whatever the honest other
//    end does meanwhile. A frame fits if no other is in flight; with slots, if fewer than the limit
//    are.
pub fn offers_find_room()
    ensures { OffersFindRoom }
{}

/// Law: after n + 2 rounds of calls, n more frames are delivered.
// claim: From two honest ends in RUN, without stops and resets, the receiver has delivered all
//    frames accepted at the start and n more after 2n + 1 rounds, and after n + 2 rounds if two
//    frames always fit. A round is over when an offer and a poll have begun and ended in it.
pub fn frames_get_through()
    ensures { FramesGetThrough }
{}

/// Law: an end that sleeps after it found no frame is rung at the next frame.
// claim: An end whose look finds no frame while its avail_event is the next frame's number, and
//    which then makes no step, is rung before the offer of that frame is over, whatever the honest
//    other end does without a reset.
pub fn sleepers_are_rung()
    ensures { SleepersAreRung }
{}

/// Law: the present handshake has a livelock.
// claim: On the machine of phases the present table has, for every n, a run in which 3n rounds are
//    over and which ends in its first state, the one right after a reset of an end while the other
//    clears its section. So no number of rounds is enough for both ends to be in RUN.
pub fn present_can_livelock()
    ensures { PresentCanLivelock }
{}

/// Law: by the repaired tables, no end opens a session while the other is attached.
// claim: On the machine of phases, with one row changed in the table of each end, no end opens a
//    session while the other is attached to its last one, through steps, stops and resets.
pub fn repaired_is_safe()
    ensures { RepairedIsSafe }
{}

/// Law: by the repaired tables, both ends are in RUN after nine rounds.
// claim: On the machine of phases, with the same two rows changed, both ends are in RUN after nine
//    rounds, from each safe state, whatever Ticks and Stops are open and in any order of steps.
pub fn repaired_comes_up()
    ensures { RepairedComesUp }
{}
