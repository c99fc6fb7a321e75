//! Each export once, with numbers from the layout of a section and from the device's specification.
use crate::acts::{
    Act, Call, FOUND, OLD_ACCESS, OLD_COUNTS, OLD_PUBLICATION, OLD_RETURN, OLD_ROOM, makes_all,
};
use crate::tables::{
    ivshm_abi_version, ivshm_layout, ivshm_library_version, ivshm_limits, ivshm_walk,
};
use crate::{Access, Burst, Bursts, Counts, End, FrameReturn, Layout, Limits, Publication};

/// The read of the other's State, by peer 0.
const STATE_READ: Access = Access {
    kind: 1,
    word: 1,
    value: 0,
    count: 0,
    order: 1,
    fence_before: 0,
    fence_after: 0,
};

const FIRST_STEPS: [Act; 12] = [
    Act::Makes(Call::New(0), 0),
    Act::Makes(Call::Begin(0), 3),
    Act::NextState(0),
    Act::Notes(0, 1),
    Act::Makes(Call::Begin(0), 0),
    Act::Next(STATE_READ),
    Act::Makes(Call::Took(0), 0),
    Act::NextState(1),
    Act::Makes(Call::Reset, 0),
    Act::NextState(0),
    Act::Makes(Call::Free, 0),
    Act::Makes(Call::Free, 1),
];

/// A new end writes State 0, ticks, and is reset: State 0 again.
// claim raw_box.Loose.of
// claim ivshm_c.ivshm_end_free.answer
// claim ivshm_c.ivshm_end_new
// claim ivshm_c.ivshm_end_begin.answer
// claim ivshm_c.ivshm_end_next.answer
// claim ivshm_c.ivshm_end_took.answer
// claim ivshm_c.ivshm_end_reset.answer
#[test]
fn first_steps(rt: HostRuntime) {
    let mut end = End::empty(rt.alloc());
    makes_all(&rt, rt.alloc(), &mut end, &FIRST_STEPS);
}

/// The write of State 1.
const STATE_1: Access = Access {
    kind: 3,
    word: 0,
    value: 1,
    count: 0,
    order: 2,
    fence_before: 0,
    fence_after: 1,
};

const BY_ONE_CALL: [Act; 9] = [
    Act::Step(0, 1, 9, OLD_ACCESS),
    Act::Makes(Call::New(0), 0),
    Act::Step(0, 4, 1, OLD_ACCESS),
    Act::Step(0, 4, 9, OLD_ACCESS),
    Act::Makes(Call::Begin(0), 0),
    Act::Step(0, 0, 1, STATE_1),
    Act::Step(0, 4, 1, OLD_ACCESS),
    Act::Makes(Call::Free, 0),
    Act::Step(0, 1, 9, OLD_ACCESS),
];

/// A new end and its first tick by one call for each step, which writes the next access too. At the
/// end of a call there is none. No end and no call have their answers.
// claim ivshm_c.ivshm_end_step.answer
#[test]
fn steps_by_one_call(rt: HostRuntime) {
    let mut end = End::empty(rt.alloc());
    makes_all(&rt, rt.alloc(), &mut end, &BY_ONE_CALL);
}

const VERSIONS: [Act; 6] = [
    Act::Makes(Call::NewVersion(0, 0), 28),
    Act::Makes(Call::NewVersion(0, 4), 28),
    Act::Makes(Call::NewVersion(2, 4), 10),
    Act::Makes(Call::NewVersion(0, 3), 0),
    Act::Makes(Call::NewVersion(0, 1), 2),
    Act::Makes(Call::Free, 0),
];

/// There are three versions of the link: 0 and 4 are refused. A peer that doesn't exist is refused
/// first.
// claim split_ring.Queue.of.queue
// claim ivshm_c.ivshm_end_new
#[test]
fn versions(rt: HostRuntime) {
    let mut end = End::empty(rt.alloc());
    makes_all(&rt, rt.alloc(), &mut end, &VERSIONS);
}

/// The write that clears the first word of a section.
const CLEARED: Access = Access {
    kind: 2,
    word: 1_024,
    value: 0,
    count: 4_096,
    order: 0,
    fence_before: 0,
    fence_after: 0,
};

const CLEARED_AT_ONCE: [Act; 21] = [
    Act::Makes(Call::TookWrites(1), 1),
    Act::Makes(Call::New(0), 0),
    Act::Makes(Call::TookWrites(1), 26),
    Act::Makes(Call::Took(0), 0),
    Act::Makes(Call::TookWrites(1), 4),
    // INIT, and then the section is cleared for READY.
    Act::Makes(Call::Begin(0), 0),
    Act::Makes(Call::Took(1), 0),
    Act::NextState(1),
    Act::Makes(Call::Took(0), 0),
    Act::Makes(Call::Begin(0), 0),
    Act::Makes(Call::Took(1), 0),
    Act::Next(CLEARED),
    Act::Makes(Call::TookReads(&[0; 4]), 26),
    Act::Words(&[1; 6], 27),
    Act::Words(&[0; 8], 0),
    Act::Makes(Call::TookWrites(2), 0),
    Act::Makes(Call::TookWrites(0), 27),
    Act::Makes(Call::TookWrites(4_095), 27),
    Act::Makes(Call::TookWrites(4_094), 0),
    Act::NextState(2),
    Act::Makes(Call::Free, 0),
];

/// A section of 4,096 words is cleared in three bursts. A read, a count of 0, half a word and a
/// count beyond the section have their answers.
// claim ivshm_c.ivshm_end_next.answer
// claim ivshm_c.ivshm_end_took_reads.answer
#[test]
fn a_section_cleared_at_once(rt: HostRuntime) {
    let mut end = End::empty(rt.alloc());
    makes_all(&rt, rt.alloc(), &mut end, &CLEARED_AT_ONCE);
}

/// The bursts of the first offer of peer 0, of 14 bytes, and those left after the first word.
const OFFERED: Bursts = Bursts {
    frame: Burst {
        word: 1_472,
        count: 4,
    },
    descriptor: Burst {
        word: 1_024,
        count: 4,
    },
    entry: Burst {
        word: 1_281,
        count: 1,
    },
};

const LEFT: Bursts = Bursts {
    frame: Burst {
        word: 1_473,
        count: 3,
    },
    descriptor: Burst {
        word: 1_024,
        count: 4,
    },
    entry: Burst {
        word: 1_281,
        count: 1,
    },
};

/// The words after the frame, in 20 bytes.
const TAIL: [u8; 40] = [
    0, 7, 0, 0, 0, 0, 0, 0, 14, 0, 0, 0, 0, 0, 0, 0, 0, 0, 0, 0, 9, 9, 9, 9, 9, 9, 9, 9, 9, 9, 9,
    9, 9, 9, 9, 9, 9, 9, 9, 9,
];

/// The writes of this offer up to its index.
const PUBLICATION: Publication = Publication {
    bursts: OFFERED,
    index: 1_280,
    accepted: 65_536,
};

/// The doorbell to peer 1.
const DOORBELL: Access = Access {
    kind: 4,
    word: 1,
    value: 1,
    count: 0,
    order: 2,
    fence_before: 0,
    fence_after: 0,
};

const PUBLISHED: Counts = Counts {
    sessions: 1,
    accepted: 1,
    full: 0,
    down: 0,
    delivered: 0,
    refused: 0,
};

const UP_TO_THE_INDEX: [Act; 15] = [
    Act::Publish(24, 1, OLD_PUBLICATION, &OLD_ROOM, OLD_ACCESS),
    Act::Makes(Call::New(0), 0),
    Act::Runs,
    Act::Publish(24, 4, OLD_PUBLICATION, &OLD_ROOM, OLD_ACCESS),
    Act::Makes(Call::Offer(&[7; 14]), 0),
    Act::Publish(24, 26, OLD_PUBLICATION, &OLD_ROOM, OLD_ACCESS),
    Act::Publish(19, 26, OLD_PUBLICATION, &OLD_ROOM, OLD_ACCESS),
    Act::Makes(Call::Took(0), 0),
    Act::Publish(19, 9, OLD_PUBLICATION, &OLD_ROOM, OLD_ACCESS),
    Act::Publish(24, 0, PUBLICATION, &TAIL, DOORBELL),
    Act::View(2, 274),
    Act::Counts(0, PUBLISHED),
    Act::Publish(24, 4, OLD_PUBLICATION, &OLD_ROOM, OLD_ACCESS),
    Act::Makes(Call::Begin(1), 0),
    Act::Makes(Call::Free, 0),
];

/// An offer of 14 bytes is published by one call, which completes its doorbell too. No end, no
/// call, another access and a room that is too short have their answers.
// claim ivshm_c.ivshm_end_publish.answer
#[test]
fn an_offer_up_to_its_index(rt: HostRuntime) {
    let mut end = End::empty(rt.alloc());
    makes_all(&rt, rt.alloc(), &mut end, &UP_TO_THE_INDEX);
}

const AFTER_A_WORD: [Act; 6] = [
    Act::Makes(Call::New(0), 0),
    Act::Runs,
    Act::Makes(Call::Offer(&[7; 14]), 0),
    Act::Steps(2),
    Act::Publish(
        24,
        0,
        Publication {
            bursts: LEFT,
            ..PUBLICATION
        },
        &TAIL,
        DOORBELL,
    ),
    Act::Makes(Call::Free, 0),
];

/// The same offer is published after the first word of its frame is written alone.
// claim tx_engine.Tx.publish.steps
// claim link_endpoint.Endpoint.publish.steps
// claim ivshm_c.ivshm_end_offer.answer
#[test]
fn an_offer_after_a_word(rt: HostRuntime) {
    let mut end = End::empty(rt.alloc());
    makes_all(&rt, rt.alloc(), &mut end, &AFTER_A_WORD);
}

/// The writes that return the first frame of peer 1, of 14 bytes.
const RETURNED: FrameReturn = FrameReturn {
    length: 14,
    element: 1_329,
    id: 0,
    index: 1_328,
    returned: 65_536,
};

/// The read of the available entry of the second frame.
const SECOND_ENTRY: Access = Access {
    kind: 1,
    word: 5_377,
    value: 0,
    count: 0,
    order: 0,
    fence_before: 0,
    fence_after: 0,
};

const DELIVERED: Counts = Counts {
    sessions: 1,
    accepted: 0,
    full: 0,
    down: 0,
    delivered: 1,
    refused: 1,
};

const ITEMS: [Act; 28] = [
    Act::Field(0, 1, 9, 9),
    Act::Frame(&[7; 16], 1, OLD_RETURN, OLD_ACCESS),
    Act::Makes(Call::New(0), 0),
    Act::Field(0, 26, 9, 9),
    Act::Runs,
    Act::Field(0, 4, 9, 9),
    Act::Frame(&[7; 16], 4, OLD_RETURN, OLD_ACCESS),
    Act::Makes(Call::Begin(1), 0),
    Act::Field(0, 26, 9, 9),
    Act::Makes(Call::Took(65_536 * 2), 0),
    Act::Field(64, 26, 9, 9),
    Act::Field(0, 0, 5_120, 0),
    Act::Field(1_792, 0, 5_121, 0),
    Act::Field(0, 0, 5_122, 0),
    Act::Frame(&[7; 16], 26, OLD_RETURN, OLD_ACCESS),
    Act::Field(14, 0, 5_123, 0),
    Act::Field(0, 0, 5_568, 4),
    Act::Field(0, 26, 9, 9),
    Act::Frame(&[7; 12], 26, OLD_RETURN, OLD_ACCESS),
    Act::Frame(&[7; 16], 0, RETURNED, SECOND_ENTRY),
    Act::Field(0, 0, 5_120, 0),
    Act::Field(1_792, 0, 5_121, 0),
    Act::Field(1, 26, 9, 9),
    Act::Makes(Call::Took(1), 0),
    Act::NextState(0),
    Act::Makes(Call::Took(0), 0),
    Act::Counts(0, DELIVERED),
    Act::Makes(Call::Free, 0),
];

/// A poll of two frames takes the first by its fields and its words, and returns it. An address of
/// the second is refused. No end, no call, another access, other values than the words of a frame
/// and a value out of range have their answers.
// claim ivshm_c.ivshm_end_took_field.step
// claim ivshm_c.ivshm_end_took_frame.step
#[test]
fn items_of_a_poll(rt: HostRuntime) {
    let mut end = End::empty(rt.alloc());
    makes_all(&rt, rt.alloc(), &mut end, &ITEMS);
}

/// The read of the other's event in a link of version 2.
const EVENT: Access = Access {
    kind: 1,
    word: 5_553,
    value: 0,
    count: 0,
    order: 0,
    fence_before: 1,
    fence_after: 0,
};

const NOT_RUNG: [Act; 7] = [
    Act::Makes(Call::NewVersion(0, 2), 0),
    Act::Runs,
    Act::Makes(Call::Offer(&[7; 14]), 0),
    Act::Makes(Call::Took(0), 0),
    Act::Publish(24, 0, PUBLICATION, &TAIL, EVENT),
    Act::Next(EVENT),
    Act::Makes(Call::Free, 0),
];

/// In a link of version 2 no doorbell comes after the index: the read of the other's event is next.
// claim ivshm_c.ivshm_end_publish.answer
#[test]
fn an_offer_up_to_its_event(rt: HostRuntime) {
    let mut end = End::empty(rt.alloc());
    makes_all(&rt, rt.alloc(), &mut end, &NOT_RUNG);
}

const LAST_ITEM: [Act; 14] = [
    Act::Makes(Call::New(0), 0),
    Act::Runs,
    Act::Makes(Call::Begin(1), 0),
    Act::Makes(Call::Took(65_536), 0),
    Act::Field(0, 0, 5_120, 0),
    Act::Field(1_792, 0, 5_121, 0),
    Act::Field(0, 0, 5_122, 0),
    Act::Field(14, 0, 5_123, 0),
    Act::Field(0, 0, 5_568, 4),
    Act::Frame(&[7; 16], 0, RETURNED, DOORBELL),
    Act::Step(0, 4, 9, OLD_ACCESS),
    Act::Frame(&[7; 16], 4, OLD_RETURN, OLD_ACCESS),
    Act::Makes(Call::Begin(0), 0),
    Act::Makes(Call::Free, 0),
];

/// The last frame of a poll is returned by one call, which completes the doorbell too: no call is
/// open then.
// claim ivshm_c.ivshm_end_took_frame.step
#[test]
fn the_last_item_of_a_poll(rt: HostRuntime) {
    let mut end = End::empty(rt.alloc());
    makes_all(&rt, rt.alloc(), &mut end, &LAST_ITEM);
}

const OUTSIDE_RUN: [Act; 16] = [
    Act::Makes(Call::New(1), 0),
    Act::Makes(Call::Took(0), 0),
    Act::Makes(Call::OfferAgain, 7),
    Act::Makes(Call::Offer(&[7; 13]), 7),
    Act::Makes(Call::Offer(&[7; 14]), 0),
    Act::View(1, 274),
    Act::Makes(Call::Took(0), 0),
    Act::Makes(Call::Took(0), 4),
    Act::View(5, 274),
    Act::Makes(Call::OfferAgain, 0),
    Act::Makes(Call::Reset, 0),
    Act::Makes(Call::OfferAgain, 3),
    Act::Makes(Call::Took(0), 0),
    Act::Makes(Call::OfferAgain, 0),
    Act::NoFrame,
    Act::Makes(Call::Free, 0),
];

/// Outside RUN an offer is down, and no frame was delivered. Its frame may be offered again, also
/// after a reset.
// claim link_endpoint.Endpoint.offer.frame
// claim ivshm_c.ivshm_end_new
// claim ivshm_c.ivshm_end_offer.answer
// claim ivshm_c.ivshm_end_begin.answer
// claim ivshm_c.ivshm_end_view.answer
#[test]
fn an_offer_outside_run(rt: HostRuntime) {
    let mut end = End::empty(rt.alloc());
    makes_all(&rt, rt.alloc(), &mut end, &OUTSIDE_RUN);
}

const NO_COUNTS: Counts = Counts {
    sessions: 0,
    accepted: 0,
    full: 0,
    down: 0,
    delivered: 0,
    refused: 0,
};

const REFUSED: Counts = Counts {
    sessions: 1,
    accepted: 1,
    full: 0,
    down: 1,
    delivered: 0,
    refused: 1,
};

const COUNTED: [Act; 14] = [
    Act::Counts(1, OLD_COUNTS),
    Act::Makes(Call::New(0), 0),
    Act::Counts(0, NO_COUNTS),
    Act::Runs,
    Act::Makes(Call::Offer(&[7; 14]), 0),
    Act::Steps(12),
    Act::Makes(Call::Begin(1), 0),
    Act::Makes(Call::Took(65_536 * 200), 0),
    Act::Makes(Call::Took(0), 0),
    Act::Makes(Call::OfferAgain, 0),
    Act::Makes(Call::Took(0), 0),
    Act::Makes(Call::Reset, 0),
    Act::Counts(0, REFUSED),
    Act::Makes(Call::Free, 0),
];

/// An end that came to RUN publishes a frame, refuses an index of its next poll, and is down then.
/// A reset keeps the counts, and the end after it has counted nothing.
#[test]
fn counts_of_a_session(rt: HostRuntime) {
    let mut end = End::empty(rt.alloc());
    for _ in 0..2 {
        makes_all(&rt, rt.alloc(), &mut end, &COUNTED);
    }
}

const OLD_LAYOUT: Layout = Layout {
    first: 9,
    words: 9,
    queue_size: 9,
    limit: 9,
    slot: 9,
    data_area: 9,
    available_index: 9,
    available_entries: 9,
    used_event: 9,
    used_index: 9,
    used_elements: 9,
    available_event: 9,
    longest_offer: 9,
    longest_delivery: 9,
};

/// Returns the answer for the layout of sections with this MTU, and some words of the layout then.
fn laid_out(mtu: u32) -> [u32; 8] {
    let mut layout = OLD_LAYOUT;
    let answer = ivshm_layout(&FOUND, 2, mtu, &mut layout);
    [
        answer,
        layout.first,
        layout.queue_size,
        layout.available_index,
        layout.used_event,
        layout.used_index,
        layout.data_area,
        layout.longest_delivery,
    ]
}

/// Returns the answer for a space without a device, and the size of the table then.
fn walked() -> [u32; 2] {
    let mut found = FOUND;
    let answer = ivshm_walk(&[0; 256], &mut found);
    [answer, found.table]
}

/// Returns the highest version and the longest frame, and the versions of the library.
fn bounds() -> [u32; 4] {
    let mut limits = Limits {
        version: 9,
        least_mtu: 9,
        most_mtu: 9,
        shortest_frame: 9,
        longest_frame: 9,
        largest_region: 9,
    };
    ivshm_limits(&mut limits);
    [
        limits.version,
        limits.longest_frame,
        ivshm_abi_version(),
        ivshm_library_version(),
    ]
}

/// The words of a section of 16,384 bytes, whose queue has 64 descriptors; a configuration space
/// without a device; the bounds; the versions.
// claim ivshm_c.ivshm_walk
#[test]
fn numbers_without_an_end(rt: HostRuntime) {
    assert!(rt; laid_out(256) == [0, 1024, 64, 256, 289, 304, 1792, 14_592]);
    assert!(rt; laid_out(255) == [17, 9, 9, 9, 9, 9, 9, 9]);
    assert!(rt; walked() == [20, 4096]);
    assert!(rt; bounds() == [3, 65_553, 1, 1_000]);
}
