//! Gates for tests: they hold running peers next to each other. A gate looks for the other peer a
//! bounded number of times, and lets other threads run meanwhile. When its looks are used up it
//! opens for good, and reports so.
use peer_runner::Gate;
use std::sync::atomic::AtomicU64;
use std::sync::atomic::Ordering::SeqCst;
use std::thread::yield_now;

/// The number of looks for the other peer in a held call, before the gate opens for good.
const SPINS: u64 = 100_000_000;

/// The number of looks without a pause. After them another thread runs between two looks, since the
/// other peer may wait for this processor.
const LOOKS_AT_ONCE: u64 = 100_000;

/// Pauses between two looks of a held call.
fn spin(look: u64) {
    if look >= LOOKS_AT_ONCE {
        yield_now();
    }
}

/// Returns the number of the other of two peers.
fn other(peer: u32) -> u32 {
    if peer == 0 { 1 } else { 0 }
}

/// A number for each of two peers.
#[derive(Drop)]
struct Pair {
    first: AtomicU64,
    second: AtomicU64,
}

impl Pair {
    fn zeros() -> Pair {
        Pair {
            first: AtomicU64::new(0),
            second: AtomicU64::new(0),
        }
    }

    fn of(&self, peer: u32) -> &AtomicU64 {
        if peer == 0 { &self.first } else { &self.second }
    }

    fn get(&self, peer: u32) -> u64 {
        self.of(peer).load(SeqCst)
    }

    fn set(&self, peer: u32, value: u64) {
        self.of(peer).store(value, SeqCst);
    }

    fn add(&self, peer: u32) {
        self.of(peer).fetch_add(1, SeqCst);
    }
}

/// Holds peers 0 and 1 within `span` turns of each other until one has ended, and counts the calls
/// of each.
#[derive(Drop)]
pub struct Lockstep {
    span: u64,
    passed: Pair,
    ended: Pair,
    opened: AtomicU64,
}

impl Lockstep {
    pub fn new(span: u64) -> Lockstep {
        Lockstep {
            span,
            passed: Pair::zeros(),
            ended: Pair::zeros(),
            opened: AtomicU64::new(0),
        }
    }

    /// Whether no call was held for longer than its spins.
    pub fn was_kept(&self) -> bool {
        self.opened.load(SeqCst) == 0
    }

    /// Returns the number of turns that the peer began.
    pub fn passed(&self, peer: u32) -> u64 {
        self.passed.get(peer)
    }

    /// Returns the number of times that the peer ended.
    pub fn times_ended(&self, peer: u32) -> u64 {
        self.ended.get(peer)
    }

    fn is_open(&self, turn: u64, other: u32) -> bool {
        self.opened.load(SeqCst) > 0
            || self.ended.get(other) > 0
            || turn <= self.passed.get(other).saturating_add(self.span)
    }
}

impl Gate for Lockstep {
    fn pass(&self, peer: u32, turn: u64) {
        if peer >= 2 {
            return;
        }
        self.passed.add(peer);
        for look in 0..SPINS {
            if self.is_open(turn, other(peer)) {
                return;
            }
            spin(look);
        }
        self.opened.store(1, SeqCst);
    }

    fn ended(&self, peer: u32) {
        if peer < 2 {
            self.ended.add(peer);
        }
    }
}

/// Holds all peers but the first until that one has ended.
#[derive(Drop)]
pub struct After {
    first: u32,
    ended: AtomicU64,
}

impl After {
    pub fn new(first: u32) -> After {
        After {
            first,
            ended: AtomicU64::new(0),
        }
    }
}

impl Gate for After {
    fn pass(&self, peer: u32, _turn: u64) {
        if peer == self.first {
            return;
        }
        for look in 0..SPINS {
            if self.ended.load(SeqCst) > 0 {
                return;
            }
            spin(look);
        }
    }

    fn ended(&self, peer: u32) {
        if peer == self.first {
            self.ended.store(1, SeqCst);
        }
    }
}

/// Lets peers 0 and 1 run one after the other, leg by leg. In each leg peer 0 runs up to the turn
/// of the first number, and then peer 1 up to that of the second. After the last leg both run
/// freely.
#[derive(Drop)]
pub struct Relay {
    legs: [[u64; 2]; 3],
    begun: Pair,
    ended: Pair,
    opened: AtomicU64,
}

impl Relay {
    pub fn new(legs: [[u64; 2]; 3]) -> Relay {
        Relay {
            legs,
            begun: Pair::zeros(),
            ended: Pair::zeros(),
            opened: AtomicU64::new(0),
        }
    }

    /// Whether no call was held for longer than its spins.
    pub fn was_kept(&self) -> bool {
        self.opened.load(SeqCst) == 0
    }

    /// Returns the number of turns that the other peer must have ended before this turn of `peer`,
    /// 0 or 1.
    fn due(&self, peer: u32, turn: u64) -> u64 {
        let mut due = 0;
        let mut before = 0;
        for [first, second] in self.legs {
            if peer == 0 && turn > first {
                due = second;
            }
            if peer == 1 && turn > before {
                due = first;
            }
            before = second;
        }
        due
    }

    /// Whether the other peer has ended `due` turns, or the gate no longer waits for it.
    fn is_open(&self, due: u64, other: u32) -> bool {
        due == 0
            || due < self.begun.get(other)
            || self.ended.get(other) > 0
            || self.opened.load(SeqCst) > 0
    }
}

impl Gate for Relay {
    fn pass(&self, peer: u32, turn: u64) {
        if peer >= 2 {
            return;
        }
        self.begun.set(peer, turn);
        let due = self.due(peer, turn);
        for look in 0..SPINS {
            if self.is_open(due, other(peer)) {
                return;
            }
            spin(look);
        }
        self.opened.store(1, SeqCst);
    }

    fn ended(&self, peer: u32) {
        if peer < 2 {
            self.ended.set(peer, 1);
        }
    }
}

/// Holds the first turn of each peer below `peers` until all of these have reached theirs. Peers
/// that run one after the other use up its looks.
#[derive(Drop)]
pub struct Meeting {
    peers: u32,
    come: AtomicU64,
    missed: AtomicU64,
}

impl Meeting {
    pub fn new(peers: u32) -> Meeting {
        Meeting {
            peers,
            come: AtomicU64::new(0),
            missed: AtomicU64::new(0),
        }
    }

    fn have_come(&self) -> bool {
        self.come.load(SeqCst) >= u64::from(self.peers)
    }

    /// Whether all came, and none waited for longer than its looks.
    pub fn was_kept(&self) -> bool {
        self.have_come() && self.missed.load(SeqCst) == 0
    }
}

impl Gate for Meeting {
    fn pass(&self, peer: u32, turn: u64) {
        if peer >= self.peers || turn > 1 {
            return;
        }
        self.come.fetch_add(1, SeqCst);
        for look in 0..SPINS {
            if self.have_come() {
                return;
            }
            spin(look);
        }
        self.missed.store(1, SeqCst);
    }

    fn ended(&self, _peer: u32) {}
}

/// Both gates at once: the first turns of the first peers meet, and from then on peers 0 and 1 stay
/// near each other.
#[derive(Drop)]
pub struct MeetingLockstep {
    meeting: Meeting,
    lockstep: Lockstep,
}

impl MeetingLockstep {
    pub fn new(peers: u32, span: u64) -> MeetingLockstep {
        MeetingLockstep {
            meeting: Meeting::new(peers),
            lockstep: Lockstep::new(span),
        }
    }

    pub fn was_kept(&self) -> bool {
        self.meeting.was_kept() && self.lockstep.was_kept()
    }
}

impl Gate for MeetingLockstep {
    fn pass(&self, peer: u32, turn: u64) {
        self.meeting.pass(peer, turn);
        self.lockstep.pass(peer, turn);
    }

    fn ended(&self, peer: u32) {
        self.meeting.ended(peer);
        self.lockstep.ended(peer);
    }
}
