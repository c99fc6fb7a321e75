//! The sessions of two honest ends. In some runs each end opens at most one session. In others the
//! ends number their sessions by a session word each. The crate uses `link_invariant` for the runs
//! and `link_machine` for the logs of sessions. It has no code: each law is the contract of a
//! function with an empty body.
//!
//! # Design
//!
//! - Numbered sessions have the link machine's own log (`log_after_event`). A State step with 3
//!   carries the number that was loaded, and the law says that it is the number that the other
//!   opened.
//! - The store of the session word stays valid through a reset and a State step with 0 or 1. Only
//!   the State step with 2 uses it. A load is for the next State step alone.
#![tactic(auto)]

ghost use Rattle.pair_sessions.specs.Numbers.{SessionsArePaired};
ghost use Rattle.pair_sessions.specs.CalmRuns.{CalmRunsDeliver};

/// Law: in runs without stops and resets each end opens at most one session. All frames that one
/// delivered are a beginning of the frames that the other accepted.
// claim: Without stops and resets each end opens one session at most, and what it delivers is a
//    prefix of what the other accepted.
pub fn calm_runs_deliver()
    ensures { CalmRunsDeliver }
{}

/// Law: in runs with numbered sessions, each session delivers a beginning of the frames accepted in
/// the session whose number it loaded.
// claim: With numbered sessions, the numbers that the ends load are those of the link machine's
//    logs. Each session delivers a prefix of the session that it carries, and none is carried
//    twice. The session word is the number of the session that its end opened, or opens next.
pub fn sessions_are_paired()
    ensures { SessionsArePaired }
{}
