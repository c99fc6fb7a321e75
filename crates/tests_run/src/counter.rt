//! A gate that counts the calls of two peers.
use peer_runner::Gate;
use std::sync::atomic::AtomicU64;
use std::sync::atomic::Ordering::SeqCst;
use tests_gates::Lockstep;

/// Counts the calls of two peers, by `lockstep`. That gate keeps the peers near each other, so that
/// neither uses up its turns before the other has begun. A call is unexpected if it is of a third
/// peer, has a number that isn't the next one, or comes after the end.
#[derive(Drop)]
pub(crate) struct Counter {
    pub(crate) lockstep: Lockstep,
    unexpected: AtomicU64,
}

impl Counter {
    pub(crate) fn new() -> Self {
        Counter {
            lockstep: Lockstep::new(64),
            unexpected: AtomicU64::new(0),
        }
    }

    /// Whether each call was expected, and none was held for longer than its looks.
    pub(crate) fn was_kept(&self) -> bool {
        self.lockstep.was_kept() && self.unexpected.load(SeqCst) == 0
    }
}

impl Gate for Counter {
    fn pass(&self, peer: u32, turn: u64) {
        let before = self.lockstep.passed(peer);
        if turn != before.saturating_add(1) || self.lockstep.times_ended(peer) != 0 || peer > 1 {
            self.unexpected.store(1, SeqCst);
        }
        self.lockstep.pass(peer, turn);
    }

    fn ended(&self, peer: u32) {
        self.lockstep.ended(peer);
    }
}
