//! Gates for the tests of running peers, in a crate of their own, so that `tests_runner` and
//! `tests_run` have the same.
#![tactic(auto)]

mod gates;

pub use gates::{After, Lockstep, Meeting, MeetingLockstep, Relay};
