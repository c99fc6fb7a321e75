//! Offers, access by access.
use ivs_base::NoMemory;
use split_ring::steps::{Access, Note};
use split_ring::{FieldName, Queue, Refused};
use std::alloc::Global;
use std::process::Abort;
use std::test::Fail;
use tx_engine::{Tx, idle_engine_outlives_steps};

/// A frame of the longest length, whose footprint is 320 bytes.
const LONG: [u8; 274] = [0; 274];

/// A broadcast frame of 14 bytes.
const FRAME: [u8; 14] = [
    0xff, 0xff, 0xff, 0xff, 0xff, 0xff, 0x02, 0x00, 0x00, 0x00, 0x00, 0x01, 0x08, 0x00,
];

/// One act of a sender, or what it shows.
#[derive(Clone, Copy)]
enum Act {
    /// Opens an offer of this frame.
    Offers(&'static [u8]),
    /// Makes the next step: its access, the value that a read returns, and its notes.
    Takes(Access, u32, &'static [Note]),
    /// Makes this many steps, whose reads return 0.
    Steps(u32),
    /// Offers the frame of 14 bytes this many times. The 12 steps of each find no returned frame.
    Publishes(u32),
    /// Offers the long frame this many times, and makes all the steps, whose reads return 0.
    Accepts(u32),
    /// Has no open offer.
    Idle,
    Reset,
}

/// Returns the sender of peer 0 in a region of two peers, whose sections of 16,384 bytes begin at
/// words 1,024 and 5,120.
fn example(rt: &impl Abort, alloc: Global) -> Result<Tx, NoMemory> {
    let queue = Queue::of(16_384, 256).expect(rt, "a queue");
    Tx::new(alloc, &queue, 1_024, 5_120, 1, 1)
}

/// Returns the same for a link of version 3, whose data area is a byte ring of 14,592 bytes.
fn example_ring(rt: &impl Abort, alloc: Global) -> Result<Tx, NoMemory> {
    let queue = Queue::of_version(3, 16_384, 256).expect(rt, "a queue");
    Tx::new(alloc, &queue, 1_024, 5_120, 1, 1)
}

#[must_use]
fn offers(tx: &mut Tx, frame: &[u8]) -> bool {
    if tx.busy() {
        return false;
    }
    if frame.len() < 14 || frame.len() > tx.longest() as usize {
        return false;
    }
    tx.begin(frame);
    true
}

#[must_use]
fn takes(tx: &mut Tx, access: Access, value: u32, notes: &[Note]) -> bool {
    if !tx.busy() {
        return false;
    }
    if tx.next() != access {
        return false;
    }
    tx.took(value).as_slice() == notes
}

/// Makes steps whose reads return 0. Returns whether there were as many.
#[must_use]
fn steps(tx: &mut Tx, count: u32) -> bool {
    for _ in 0..count {
        if !tx.busy() {
            return false;
        }
        let _ = tx.took(0);
    }
    true
}

/// Offers the frame of 14 bytes, whose 12 steps find no returned frame.
#[must_use]
fn publishes(tx: &mut Tx) -> bool {
    offers(tx, &FRAME) && takes(tx, Access::Read(5_424), 0, &[Note::Reclaim(0)]) && steps(tx, 11)
}

/// Offers a frame that fits, and makes all the steps. Their reads return 0.
#[must_use]
fn accepts(tx: &mut Tx, frame: &[u8]) -> bool {
    if !offers(tx, frame) {
        return false;
    }
    for _ in 0..78 {
        if tx.busy() {
            let _ = tx.took(0);
        }
    }
    !tx.busy()
}

/// Makes an act. Returns whether all is as the act says.
#[must_use]
fn makes(tx: &mut Tx, act: Act) -> bool {
    match act {
        Act::Offers(frame) => offers(tx, frame),
        Act::Takes(access, value, notes) => takes(tx, access, value, notes),
        Act::Steps(count) => steps(tx, count),
        Act::Publishes(count) => {
            let mut are_all = true;
            for _ in 0..count {
                are_all = publishes(tx) && are_all;
            }
            are_all
        }
        Act::Accepts(count) => {
            let mut are_all = true;
            for _ in 0..count {
                are_all = accepts(tx, &LONG) && are_all;
            }
            are_all
        }
        Act::Idle => !tx.busy(),
        Act::Reset => {
            tx.reset();
            true
        }
    }
}

/// Makes these acts of a sender.
fn makes_all(rt: &impl Abort, tx: &mut Tx, acts: &[Act]) {
    for at in 0..acts.len() {
        assert!(rt; makes(tx, acts[at]), "act {at}");
    }
}

const ONE_FRAME: [Act; 14] = [
    Act::Offers(&FRAME),
    Act::Takes(Access::Read(5_424), 0, &[Note::Reclaim(0)]),
    Act::Takes(Access::Write(1_472, 4_294_967_295), 0, &[]),
    Act::Takes(Access::Write(1_473, 196_607), 0, &[]),
    Act::Takes(Access::Write(1_474, 16_777_216), 0, &[]),
    Act::Takes(Access::Write(1_475, 8), 0, &[]),
    Act::Takes(Access::Write(1_024, 1_792), 0, &[]),
    Act::Takes(Access::Write(1_025, 0), 0, &[]),
    Act::Takes(Access::Write(1_026, 14), 0, &[]),
    Act::Takes(Access::Write(1_027, 0), 0, &[]),
    Act::Takes(Access::Write(1_281, 0), 0, &[]),
    Act::Takes(Access::Write(1_280, 65_536), 0, &[Note::Accept]),
    Act::Takes(
        Access::Ring {
            target: 1,
            vector: 1,
        },
        0,
        &[Note::Over],
    ),
    Act::Idle,
];

// claim tx_engine.Tx.new.value
// claim tx_engine.Tx.begin.refines
// claim tx_engine.Tx.next.access
// claim tx_engine.Tx.took
#[test]
fn first_frame(rt: HostRuntime) -> Result<(), Fail> {
    let mut tx = example(&rt, rt.alloc())?;
    makes_all(&rt, &mut tx, &ONE_FRAME);
    idle_engine_outlives_steps();
    Ok(())
}

const FULL_RING: [Act; 8] = [
    Act::Publishes(45),
    Act::Offers(&FRAME),
    Act::Takes(Access::Read(5_424), 0, &[Note::Reclaim(0), Note::Full]),
    // Two frames are returned, and the next one gets the slot of the first.
    Act::Offers(&FRAME),
    Act::Takes(Access::Read(5_424), 2 * 65_536, &[Note::Reclaim(2)]),
    Act::Takes(Access::Read(5_425), 0, &[]),
    Act::Takes(Access::Read(5_427), 1, &[]),
    Act::Takes(Access::Write(1_472, 4_294_967_295), 0, &[]),
];

// claim tx_engine.Tx.next.access
// claim tx_engine.Tx.took
#[test]
fn full_ring(rt: HostRuntime) -> Result<(), Fail> {
    let mut tx = example(&rt, rt.alloc())?;
    makes_all(&rt, &mut tx, &FULL_RING);
    Ok(())
}

const FULL_BYTES: [Act; 16] = [
    Act::Accepts(45),
    Act::Offers(&LONG),
    Act::Takes(Access::Read(5_424), 0, &[Note::Reclaim(0), Note::Full]),
    Act::Offers(&FRAME),
    Act::Takes(Access::Read(5_424), 0, &[Note::Reclaim(0)]),
    Act::Takes(Access::Write(5_072, 4_294_967_295), 0, &[]),
    Act::Takes(Access::Write(5_073, 196_607), 0, &[]),
    Act::Takes(Access::Write(5_074, 16_777_216), 0, &[]),
    Act::Takes(Access::Write(5_075, 8), 0, &[]),
    Act::Takes(Access::Write(1_204, 16_192), 0, &[]),
    Act::Steps(6),
    Act::Idle,
    Act::Offers(&LONG),
    Act::Takes(Access::Read(5_424), 65_536, &[Note::Reclaim(1)]),
    Act::Takes(Access::Read(5_425), 0, &[]),
    Act::Takes(Access::Write(1_472, 0), 0, &[]),
];

/// After 45 long frames 192 bytes of the ring are free, and after a short one 128. When the first
/// frame is returned, the next long one begins at its first byte.
// claim tx_engine.Tx.took
// claim tx_engine.Tx.busy.open
#[test]
fn full_bytes(rt: HostRuntime) -> Result<(), Fail> {
    let mut tx = example_ring(&rt, rt.alloc())?;
    makes_all(&rt, &mut tx, &FULL_BYTES);
    Ok(())
}

const HOSTILE_INDEX: Note = Note::Refuse(Refused {
    field: FieldName::UsedIndex,
    value: 2,
});

const HOSTILE_ID: Note = Note::Refuse(Refused {
    field: FieldName::UsedId,
    value: 7,
});

const HOSTILE_RETURNS: [Act; 12] = [
    Act::Publishes(1),
    Act::Offers(&FRAME),
    Act::Takes(Access::Read(5_424), 2 * 65_536, &[HOSTILE_INDEX]),
    Act::Takes(Access::State(0), 0, &[Note::Over]),
    Act::Idle,
    Act::Reset,
    Act::Publishes(1),
    Act::Offers(&FRAME),
    Act::Takes(Access::Read(5_424), 65_536, &[Note::Reclaim(1)]),
    Act::Takes(Access::Read(5_425), 7, &[HOSTILE_ID]),
    Act::Takes(Access::State(0), 0, &[Note::Over]),
    Act::Idle,
];

// claim tx_engine.Tx.took
#[test]
fn hostile_returns(rt: HostRuntime) -> Result<(), Fail> {
    let mut tx = example(&rt, rt.alloc())?;
    makes_all(&rt, &mut tx, &HOSTILE_RETURNS);
    Ok(())
}
