//! Whole calls of an end, act by act, and the choices of an automatic end.
ghost use Rattle.std.specs.Prelude.{◌≡◌, ◌≤◌, false, IfOk};
ghost use Rattle.link_endpoint.specs.Engine.{is_busy};
ghost use Rattle.split_ring.specs.Layout.{IsVersion};

use ivs_base::Frame;
use link_endpoint::laws::bursts_go_on;
use link_endpoint::{Auto, Burst, Bursts, Call, Choice, Endpoint, Order, Ordering, Publication};
use link_handshake::Phase;
use section_map::Geometry;
use split_ring::steps::{Access, Note};
use split_ring::{FieldName, Queue, Refused};
use std::alloc::Global;
use std::process::Abort;
use std::test::Fail;

/// The number of words of a region with a State Table of 1,024 words, no common section, and two
/// sections of 4,096 words.
const WORDS: usize = 9_216;

const FRAME: [u8; 14] = [
    0xff, 0xff, 0xff, 0xff, 0xff, 0xff, 0x02, 0, 0, 0, 0, 0x01, 0x08, 0,
];

/// One act of an end, or what it shows.
#[derive(Clone, Copy)]
enum Act {
    /// Makes a tick that reads the first value and sets the last. It clears the section that begins
    /// at the word between them, if there is one.
    Tick(u32, Option<u32>, u32),
    /// Opens a call other than an offer.
    Begin(Call),
    /// Opens an offer of this frame.
    Offer([u8; 14]),
    /// Opens another offer of the frame of the worked examples.
    OfferAgain,
    /// Makes the next step: its access, the value that a read returns, and its notes.
    Takes(Access, u32, &'static [Note]),
    /// Makes writes at once: the first access, and the bytes of the words.
    Writes(Access, &'static [u8]),
    /// Makes reads at once: the first access, the bytes read, and the notes of the last read.
    Reads(Access, &'static [u8], &'static [Note]),
    /// Completes all the writes that may be made at once. There are this many.
    WritesAll(u32),
    /// Publishes the frame of the open offer: the writes, and the bytes of the words after the
    /// frame.
    Publishes(Publication, &'static [u8; 20]),
    /// Resets the end.
    Reset,
    /// Sets a word of the region to this value.
    Puts(u32, u32),
    /// Shows what the end is like.
    Shows(Sight),
}

/// The observable state of an end.
#[derive(Clone, Copy)]
enum Sight {
    /// No call is open.
    Idle,
    /// The end's phase.
    At(Phase),
    /// The frame delivered last.
    Delivered(&'static [u8]),
    /// The order of the next access.
    Ordered(Ordering),
    /// The number of writes that may be made at once.
    Ahead(u32),
    /// The next access doesn't write a word of a frame.
    NoFrameWord,
    /// The value that the end refused.
    HasRefused(Option<Refused>),
}

/// Makes an access of peer `me` on these words. Returns the value that a read returns, and 0 after
/// another access.
fn accessed(words: &mut [u32], me: usize, access: Access) -> Option<u32> {
    match access {
        Access::Read(word) => words.get(word as usize).copied(),
        Access::Write(word, value) => set(words, word as usize, value),
        Access::State(state) => set(words, me, state),
        Access::Ring { .. } | Access::Nothing => Some(0),
    }
}

/// Sets a word, if there is one at this place.
fn set(words: &mut [u32], at: usize, value: u32) -> Option<u32> {
    if at >= words.len() {
        return None;
    }
    words[at] = value;
    Some(0)
}

/// Makes one step of the open call of peer `me` on these words. Returns whether it has this access,
/// this value if it is a read, and these notes.
#[must_use]
fn step(
    words: &mut [u32],
    end: &mut Endpoint,
    me: usize,
    access: Access,
    value: u32,
    notes: &[Note],
) -> bool {
    if !end.busy() {
        return false;
    }
    if end.next() != access {
        return false;
    }
    let Some(read) = accessed(words, me, access) else {
        return false;
    };
    let made = end.took(read);
    read == value && made.as_slice() == notes
}

/// Makes a tick, as the act says.
#[must_use]
fn tick(
    words: &mut [u32],
    end: &mut Endpoint,
    me: usize,
    value: u32,
    clears: Option<u32>,
    state: u32,
) -> bool {
    if me >= 2 || end.busy() {
        return false;
    }
    end.begin(Call::Tick);
    let other = Access::Read(1 - me as u32);
    if !step(words, end, me, other, value, &[Note::Saw(value)]) {
        return false;
    }
    if let Some(first) = clears {
        for word in first..first.saturating_add(4_096) {
            if !step(words, end, me, Access::Write(word, 0), 0, &[]) {
                return false;
            }
        }
    }
    let is_set = step(words, end, me, Access::State(state), 0, &[Note::Over]);
    is_set && !end.busy()
}

/// Makes writes of the open call at once, as the act says.
#[must_use]
fn writes(end: &mut Endpoint, access: Access, bytes: &[u8]) -> bool {
    let mut room = [0xee; 16];
    if bytes.is_empty() || bytes.len() > 16 {
        return false;
    }
    let count = bytes.len() as u32 / 4;
    if bytes.len() != 4 * count as usize {
        return false;
    }
    if !end.busy() {
        return false;
    }
    if end.next() != access {
        return false;
    }
    if count > end.writes_ahead() {
        return false;
    }
    let into = &mut room[..bytes.len()];
    end.words(into);
    let are_these = &*into == bytes;
    end.took_writes(count);
    are_these
}

/// Makes reads of the open call at once, as the act says.
#[must_use]
fn reads(end: &mut Endpoint, access: Access, bytes: &[u8], notes: &[Note]) -> bool {
    if bytes.is_empty() || bytes.len() > 16 {
        return false;
    }
    if !bytes.len().is_multiple_of(4) {
        return false;
    }
    if !end.busy() {
        return false;
    }
    if end.next() != access {
        return false;
    }
    if bytes.len() > 4 * end.reads_ahead() as usize {
        return false;
    }
    end.took_reads(bytes).as_slice() == notes
}

/// Completes all the writes that may be made at once, as the act says.
#[must_use]
fn writes_all(end: &mut Endpoint, count: u32) -> bool {
    if count == 0 || end.writes_ahead() != count {
        return false;
    }
    end.took_writes(count);
    true
}

/// Publishes the frame of the open offer, as the act says.
#[must_use]
fn publishes(end: &mut Endpoint, expected: Publication, bytes: &[u8; 20]) -> bool {
    let mut tail = [0xee; 20];
    if !end.writes_frame() {
        return false;
    }
    let Some(made) = end.publish(&mut tail) else {
        return false;
    };
    made == expected && tail == *bytes && !end.writes_frame()
}

/// Returns the end of peer `me` in the region of the worked examples, in a link of this version. It
/// has sections of 16,384 bytes, an MTU of 256, and vector 1.
fn example(rt: &impl Abort, alloc: Global, version: u32, me: u32) -> Result<Endpoint, Fail>
    requires version { IsVersion version }
    requires peer { me ≤ 1 }
    ensures { IfOk result (λ e. is_busy e ≡ false) }
{
    let geometry = Geometry::new(2, 4_096, 0, 16_384)?;
    let queue = Queue::of_version(version, 16_384, 256)?;
    assert!(rt; queue.out() == 4 * geometry.out_words());
    Ok(Endpoint::new(alloc, me, &geometry, &queue, 1)?)
}

/// Opens an offer, of this frame or of the one offered last.
#[must_use]
fn offers(end: &mut Endpoint, frame: Option<[u8; 14]>) -> bool {
    if end.busy() {
        return false;
    }
    if let Some(frame) = frame {
        end.offer(&frame);
        return true;
    }
    if end.offered() != FRAME.as_slice() {
        return false;
    }
    end.offer_again();
    true
}

/// Opens a call other than an offer.
#[must_use]
fn begins(end: &mut Endpoint, call: Call) -> bool {
    if end.busy() {
        return false;
    }
    end.begin(call);
    true
}

/// Whether the end shows this.
#[must_use]
fn shows(end: &Endpoint, sight: Sight) -> bool {
    match sight {
        Sight::Idle => !end.busy(),
        Sight::At(phase) => end.phase() == phase,
        Sight::Delivered(frame) => end.delivered() == frame,
        Sight::Ordered(order) => end.busy() && end.order() == order,
        Sight::Ahead(count) => end.writes_ahead() == count,
        Sight::NoFrameWord => !end.writes_frame(),
        Sight::HasRefused(refused) => end.refused() == refused,
    }
}

/// Makes an act of peer `me`. Returns whether all is as the act says.
#[must_use]
fn makes(words: &mut [u32], end: &mut Endpoint, me: usize, act: Act) -> bool {
    match act {
        Act::Tick(value, clears, state) => tick(words, end, me, value, clears, state),
        Act::Begin(call) => begins(end, call),
        Act::Offer(frame) => offers(end, Some(frame)),
        Act::OfferAgain => offers(end, None),
        Act::Takes(access, value, notes) => step(words, end, me, access, value, notes),
        Act::Writes(access, bytes) => writes(end, access, bytes),
        Act::Reads(access, bytes, notes) => reads(end, access, bytes, notes),
        Act::WritesAll(count) => writes_all(end, count),
        Act::Publishes(made, bytes) => publishes(end, made, bytes),
        Act::Reset => {
            end.reset();
            true
        }
        Act::Puts(word, value) => set(words, word as usize, value).is_some(),
        Act::Shows(sight) => shows(end, sight),
    }
}

/// Makes these acts of peers 0 and 1 of a new link of this version, each act with its peer.
fn makes_all(
    rt: &impl Abort,
    alloc: Global,
    version: u32,
    acts: &[(usize, Act)],
) -> Result<(), Fail>
    requires { IsVersion version }
{
    let mut words = vec![in alloc; 0; WORDS]?;
    let mut first = example(rt, alloc, version, 0)?;
    let mut second = example(rt, alloc, version, 1)?;
    let words = words.as_mut_slice();
    for at in 0..acts.len() {
        let (me, act) = acts[at];
        let is_made = if me == 0 {
            makes(words, &mut first, 0, act)
        } else {
            makes(words, &mut second, 1, act)
        };
        assert!(rt; is_made, "act {at}");
    }
    Ok(())
}

/// A doorbell to peer 1, and one to peer 0.
const RING_1: Access = Access::Ring {
    target: 1,
    vector: 1,
};

const RING_0: Access = Access::Ring {
    target: 0,
    vector: 1,
};

/// A handshake, one frame of peer 0, and the poll of peer 1 that delivers it.
const ONE_FRAME: [(usize, Act); 40] = [
    (0, Act::Tick(0, None, 1)),
    (1, Act::Tick(1, None, 1)),
    (0, Act::Tick(1, Some(1_024), 2)),
    (1, Act::Tick(2, Some(5_120), 2)),
    (0, Act::Tick(2, None, 3)),
    (1, Act::Tick(3, None, 3)),
    (0, Act::Shows(Sight::At(Phase::Run))),
    (1, Act::Shows(Sight::At(Phase::Run))),
    (0, Act::Offer(FRAME)),
    (0, Act::Takes(Access::Read(5_424), 0, &[Note::Reclaim(0)])),
    (0, Act::Takes(Access::Write(1_472, 4_294_967_295), 0, &[])),
    (0, Act::Takes(Access::Write(1_473, 196_607), 0, &[])),
    (0, Act::Takes(Access::Write(1_474, 16_777_216), 0, &[])),
    (0, Act::Takes(Access::Write(1_475, 8), 0, &[])),
    (0, Act::Takes(Access::Write(1_024, 1_792), 0, &[])),
    (0, Act::Takes(Access::Write(1_025, 0), 0, &[])),
    (0, Act::Takes(Access::Write(1_026, 14), 0, &[])),
    (0, Act::Takes(Access::Write(1_027, 0), 0, &[])),
    (0, Act::Takes(Access::Write(1_281, 0), 0, &[])),
    (
        0,
        Act::Takes(Access::Write(1_280, 65_536), 0, &[Note::Accept]),
    ),
    (0, Act::Takes(RING_1, 0, &[Note::Over])),
    (0, Act::Shows(Sight::Idle)),
    (1, Act::Shows(Sight::Delivered(&[]))),
    (1, Act::Begin(Call::Poll)),
    (1, Act::Takes(Access::Read(1_280), 65_536, &[Note::Look(1)])),
    (1, Act::Takes(Access::Read(1_281), 0, &[])),
    (1, Act::Takes(Access::Read(1_024), 1_792, &[])),
    (1, Act::Takes(Access::Read(1_025), 0, &[])),
    (1, Act::Takes(Access::Read(1_026), 14, &[])),
    (1, Act::Takes(Access::Read(1_027), 0, &[])),
    (1, Act::Takes(Access::Read(1_472), 4_294_967_295, &[])),
    (1, Act::Takes(Access::Read(1_473), 196_607, &[])),
    (1, Act::Takes(Access::Read(1_474), 16_777_216, &[])),
    (1, Act::Takes(Access::Read(1_475), 8, &[Note::Deliver])),
    (1, Act::Shows(Sight::Delivered(&FRAME))),
    (1, Act::Takes(Access::Write(5_425, 0), 0, &[])),
    (1, Act::Takes(Access::Write(5_426, 1), 0, &[])),
    (
        1,
        Act::Takes(Access::Write(5_424, 65_536), 0, &[Note::Return]),
    ),
    (1, Act::Takes(RING_0, 0, &[Note::Done])),
    (1, Act::Shows(Sight::Idle)),
];

// claim link_endpoint.Endpoint.new.value
// claim link_endpoint.Endpoint.next.access
// claim link_endpoint.Endpoint.took.steps
// claim link_endpoint.Endpoint.begin.refines
// claim link_endpoint.Endpoint.phase.value
#[test]
fn handshake_and_one_frame(rt: HostRuntime) -> Result<(), Fail> {
    makes_all(&rt, rt.alloc(), 1, &ONE_FRAME)
}

/// The order of an event index that is written, and that of one that is read.
const EVENT_WRITTEN: Ordering = Ordering {
    order: Order::Relaxed,
    fence_before: false,
    fence_after: true,
};

const EVENT_READ: Ordering = Ordering {
    order: Order::Relaxed,
    fence_before: true,
    fence_after: false,
};

/// Peer 1 polls twice before the first frame, and peer 0 sends two frames.
const ASKED_DOORBELL: [(usize, Act); 30] = [
    (0, Act::Tick(0, None, 1)),
    (1, Act::Tick(1, None, 1)),
    (0, Act::Tick(1, Some(1_024), 2)),
    (1, Act::Tick(2, Some(5_120), 2)),
    (0, Act::Tick(2, None, 3)),
    (1, Act::Tick(3, None, 3)),
    // The poll finds nothing, writes its event index, and looks again.
    (1, Act::Begin(Call::Poll)),
    (1, Act::Takes(Access::Read(1_280), 0, &[Note::Look(0)])),
    (1, Act::Shows(Sight::Ordered(EVENT_WRITTEN))),
    (1, Act::Takes(Access::Write(5_553, 0), 0, &[])),
    (
        1,
        Act::Takes(Access::Read(1_280), 0, &[Note::Look(0), Note::Done]),
    ),
    // The next poll finds the event index written.
    (1, Act::Begin(Call::Poll)),
    (
        1,
        Act::Takes(Access::Read(1_280), 0, &[Note::Look(0), Note::Done]),
    ),
    // The doorbell of the first frame is wanted, and that of the second one isn't.
    (0, Act::Offer(FRAME)),
    (0, Act::Takes(Access::Read(5_424), 0, &[Note::Reclaim(0)])),
    (0, Act::WritesAll(4)),
    (0, Act::WritesAll(4)),
    (0, Act::Takes(Access::Write(1_281, 0), 0, &[])),
    (
        0,
        Act::Takes(Access::Write(1_280, 65_536), 0, &[Note::Accept]),
    ),
    (0, Act::Shows(Sight::Ordered(EVENT_READ))),
    (0, Act::Takes(Access::Read(5_553), 0, &[])),
    (0, Act::Takes(RING_1, 0, &[Note::Over])),
    (0, Act::OfferAgain),
    (0, Act::Takes(Access::Read(5_424), 0, &[Note::Reclaim(0)])),
    (0, Act::WritesAll(4)),
    (0, Act::WritesAll(4)),
    (0, Act::Takes(Access::Write(1_281, 65_536), 0, &[])),
    (
        0,
        Act::Takes(Access::Write(1_280, 131_072), 0, &[Note::Accept]),
    ),
    (0, Act::Takes(Access::Read(5_553), 0, &[Note::Over])),
    (0, Act::Shows(Sight::Idle)),
];

// claim tx_engine.Tx.next.access
// claim rx_engine.Rx.begin.refines
// claim link_endpoint.Endpoint.offer_again.refines
// claim link_endpoint.Endpoint.offer.frame
#[test]
fn an_asked_doorbell(rt: HostRuntime) -> Result<(), Fail> {
    makes_all(&rt, rt.alloc(), 2, &ASKED_DOORBELL)
}

/// The order of a State, with its fence, and those of other words.
const STATE_WRITTEN: Ordering = Ordering {
    order: Order::Release,
    fence_before: false,
    fence_after: true,
};

const RELAXED: Ordering = Ordering {
    order: Order::Relaxed,
    fence_before: false,
    fence_after: false,
};

const ACQUIRE: Ordering = Ordering {
    order: Order::Acquire,
    fence_before: false,
    fence_after: false,
};

const RELEASE: Ordering = Ordering {
    order: Order::Release,
    fence_before: false,
    fence_after: false,
};

/// The frame in whole words.
const FRAME_WORDS: [u8; 16] = [
    0xff, 0xff, 0xff, 0xff, 0xff, 0xff, 0x02, 0, 0, 0, 0, 0x01, 0x08, 0, 0, 0,
];

/// Its words after the first one.
const LATER_WORDS: [u8; 12] = [0xff, 0xff, 0x02, 0, 0, 0, 0, 0x01, 0x08, 0, 0, 0];

/// One frame of peer 0, with its accesses made at once as far as they may be.
const AT_ONCE: [(usize, Act); 36] = [
    (0, Act::Tick(0, None, 1)),
    (1, Act::Tick(1, None, 1)),
    (0, Act::Tick(1, Some(1_024), 2)),
    (1, Act::Begin(Call::Tick)),
    (1, Act::Takes(Access::Read(0), 2, &[Note::Saw(2)])),
    (1, Act::Shows(Sight::Ahead(4_096))),
    (1, Act::Writes(Access::Write(5_120, 0), &[0; 16])),
    (1, Act::WritesAll(4_092)),
    (1, Act::Shows(Sight::Ordered(STATE_WRITTEN))),
    (1, Act::Takes(Access::State(2), 0, &[Note::Over])),
    (0, Act::Tick(2, None, 3)),
    (1, Act::Tick(3, None, 3)),
    (0, Act::Offer(FRAME)),
    (0, Act::Takes(Access::Read(5_424), 0, &[Note::Reclaim(0)])),
    (0, Act::Shows(Sight::Ordered(RELAXED))),
    (
        0,
        Act::Writes(Access::Write(1_472, 4_294_967_295), &FRAME_WORDS),
    ),
    (
        0,
        Act::Writes(
            Access::Write(1_024, 1_792),
            &[0, 7, 0, 0, 0, 0, 0, 0, 14, 0, 0, 0, 0, 0, 0, 0],
        ),
    ),
    (0, Act::Takes(Access::Write(1_281, 0), 0, &[])),
    (0, Act::Shows(Sight::Ordered(RELEASE))),
    (
        0,
        Act::Takes(Access::Write(1_280, 65_536), 0, &[Note::Accept]),
    ),
    (1, Act::Begin(Call::Poll)),
    (1, Act::Shows(Sight::Ordered(ACQUIRE))),
    (1, Act::Takes(Access::Read(1_280), 65_536, &[Note::Look(1)])),
    (1, Act::Shows(Sight::Ordered(RELAXED))),
    // the copies above were written to no memory
    (1, Act::Puts(1_024, 1_792)),
    (1, Act::Puts(1_026, 14)),
    (1, Act::Takes(Access::Read(1_281), 0, &[])),
    (1, Act::Takes(Access::Read(1_024), 1_792, &[])),
    (1, Act::Takes(Access::Read(1_025), 0, &[])),
    (1, Act::Takes(Access::Read(1_026), 14, &[])),
    (1, Act::Takes(Access::Read(1_027), 0, &[])),
    (1, Act::Reads(Access::Read(1_472), &[0xff; 4], &[])),
    (
        1,
        Act::Reads(Access::Read(1_473), &LATER_WORDS, &[Note::Deliver]),
    ),
    (1, Act::Shows(Sight::Delivered(&FRAME))),
    (
        1,
        Act::Writes(Access::Write(5_425, 0), &[0, 0, 0, 0, 1, 0, 0, 0]),
    ),
    (
        1,
        Act::Takes(Access::Write(5_424, 65_536), 0, &[Note::Return]),
    ),
];

// claim link_endpoint.Endpoint.took_reads.steps
// claim link_endpoint.Endpoint.order
#[test]
fn one_frame_at_once(rt: HostRuntime) -> Result<(), Fail> {
    makes_all(&rt, rt.alloc(), 1, &AT_ONCE)?;
    bursts_go_on();
    Ok(())
}

/// The writes that publish the first frame after its first word, and the second frame.
const FIRST: Publication = Publication {
    bursts: Bursts {
        frame: Burst {
            word: 1_473,
            count: 3,
        },
        descriptor: Burst {
            word: 1_024,
            count: 4,
        },
        entry: Burst {
            word: 1_281,
            count: 1,
        },
    },
    index: 1_280,
    accepted: 65_536,
};

const SECOND: Publication = Publication {
    bursts: Bursts {
        frame: Burst {
            word: 1_552,
            count: 4,
        },
        descriptor: Burst {
            word: 1_028,
            count: 4,
        },
        entry: Burst {
            word: 1_281,
            count: 1,
        },
    },
    index: 1_280,
    accepted: 131_072,
};

/// Two frames, each published by one call.
const PUBLISHED: [(usize, Act); 14] = [
    (0, Act::Tick(0, None, 1)),
    (1, Act::Tick(1, None, 1)),
    (0, Act::Tick(1, Some(1_024), 2)),
    (1, Act::Tick(2, Some(5_120), 2)),
    (0, Act::Tick(2, None, 3)),
    // The first word of the frame is written by itself.
    (0, Act::Offer(FRAME)),
    (0, Act::Shows(Sight::NoFrameWord)),
    (0, Act::Takes(Access::Read(5_424), 0, &[Note::Reclaim(0)])),
    (0, Act::Takes(Access::Write(1_472, 4_294_967_295), 0, &[])),
    (
        0,
        Act::Publishes(
            FIRST,
            &[0, 7, 0, 0, 0, 0, 0, 0, 14, 0, 0, 0, 0, 0, 0, 0, 0, 0, 0, 0],
        ),
    ),
    (0, Act::Takes(RING_1, 0, &[Note::Over])),
    // The entry of the second frame is in the same word as that of the first.
    (0, Act::Offer([8; 14])),
    (0, Act::Takes(Access::Read(5_424), 0, &[Note::Reclaim(0)])),
    (
        0,
        Act::Publishes(
            SECOND,
            &[64, 8, 0, 0, 0, 0, 0, 0, 14, 0, 0, 0, 0, 0, 0, 0, 0, 0, 1, 0],
        ),
    ),
];

// claim tx_engine.Tx.writes_frame
// claim tx_engine.Tx.publish.steps
// claim link_endpoint.Endpoint.writes_frame
// claim link_endpoint.Endpoint.publish.steps
#[test]
fn frames_published_at_once(rt: HostRuntime) -> Result<(), Fail> {
    makes_all(&rt, rt.alloc(), 1, &PUBLISHED)
}

const REFUSED: Refused = Refused {
    field: FieldName::AvailIndex,
    value: 65,
};

/// An offer that is down, a refusal in a poll, a stop, a tick and a reset.
const REFUSAL: [(usize, Act); 22] = [
    (0, Act::Offer(FRAME)),
    (0, Act::Takes(Access::Nothing, 0, &[Note::Down])),
    (0, Act::Tick(0, None, 1)),
    (0, Act::Puts(1, 2)),
    (0, Act::Tick(2, Some(1_024), 2)),
    (0, Act::Tick(2, None, 3)),
    (0, Act::Puts(5_376, 4_259_840)),
    (0, Act::Shows(Sight::HasRefused(None))),
    (0, Act::Begin(Call::Poll)),
    (
        0,
        Act::Takes(Access::Read(5_376), 4_259_840, &[Note::Refuse(REFUSED)]),
    ),
    (0, Act::Shows(Sight::At(Phase::Run))),
    (0, Act::Takes(Access::State(0), 0, &[Note::Over])),
    (0, Act::Shows(Sight::At(Phase::Reset))),
    (0, Act::Puts(1, 0)),
    (0, Act::Begin(Call::Stop)),
    (0, Act::Takes(Access::State(0), 0, &[Note::Over])),
    (0, Act::Shows(Sight::HasRefused(Some(REFUSED)))),
    (0, Act::Begin(Call::Tick)),
    (
        0,
        Act::Takes(Access::Read(1), 0, &[Note::Saw(0), Note::Over]),
    ),
    (0, Act::Reset),
    (0, Act::Shows(Sight::HasRefused(None))),
    (0, Act::Tick(0, None, 1)),
];

// claim link_endpoint.Endpoint.new.value
// claim link_endpoint.Endpoint.took.refuses
#[test]
fn refusal_lasts_until_the_reset(rt: HostRuntime) -> Result<(), Fail> {
    makes_all(&rt, rt.alloc(), 1, &REFUSAL)
}

// claim link_endpoint.Auto.choose.choice
// claim link_endpoint.Auto.add.added
#[test]
fn automatic_peer(rt: HostRuntime) -> Result<(), Fail> {
    let mut auto = Auto::new(rt.alloc(), 1);
    auto.add(Frame::of(rt.alloc(), &FRAME)?)?;
    assert!(rt; auto.choose(Phase::Reset) == Choice::Tick);
    // the first offer finds a full ring
    for choice in [Choice::Offer, Choice::Poll, Choice::Tick, Choice::Offer] {
        assert!(rt; auto.choose(Phase::Run) == choice);
    }
    assert!(rt; auto.head() == Some(FRAME.as_slice()));
    auto.accepted();
    assert!(rt; auto.head().is_none());
    assert!(rt; auto.choose(Phase::Run) == Choice::Poll);
    // the poll is cut by a reset
    auto.cut();
    assert!(rt; auto.choose(Phase::Run) == Choice::Poll);
    auto.delivered();
    assert!(rt; auto.choose(Phase::Run) == Choice::Finished);
    auto.delivered();
    assert!(rt; auto.choose(Phase::Reset) == Choice::Finished);
    Ok(())
}
