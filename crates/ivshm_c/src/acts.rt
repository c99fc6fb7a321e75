//! The acts of the tests: calls of the exports on a handle, with their answers and outputs.
use crate::exports::{
    ivshm_end_begin, ivshm_end_counts, ivshm_end_frame, ivshm_end_free, ivshm_end_new,
    ivshm_end_new_version, ivshm_end_next, ivshm_end_offer, ivshm_end_offer_again,
    ivshm_end_publish, ivshm_end_reset, ivshm_end_step, ivshm_end_took, ivshm_end_took_field,
    ivshm_end_took_frame, ivshm_end_took_reads, ivshm_end_took_writes, ivshm_end_view,
    ivshm_end_words,
};
use crate::{
    Access, Burst, Bursts, Counts, End, Found, FrameReturn, Note, Notes, Publication, View,
};
use std::alloc::Global;
use std::process::Abort;

pub(crate) const FOUND: Found = Found {
    common: 0,
    out: 16_384,
    base: 0,
    table: 4096,
    protocol: 1,
    one_shot: 0,
    has_base: 0,
    vectors: 2,
    vectors_bar: 1,
    vectors_offset: 0,
    pending_bar: 1,
    pending_offset: 2048,
};

// The target of each export is filled with 9s before the call.

const OLD_NOTE: Note = Note {
    kind: 9,
    field: 9,
    value: 9,
};

const OLD_NOTES: Notes = Notes {
    count: 9,
    first: OLD_NOTE,
    second: OLD_NOTE,
};

pub(crate) const OLD_ACCESS: Access = Access {
    kind: 9,
    word: 9,
    value: 9,
    count: 9,
    order: 9,
    fence_before: 9,
    fence_after: 9,
};

const OLD_VIEW: View = View {
    refused_value: 9,
    delivered: 9,
    refused_field: 9,
    state: 9,
    busy: 9,
    outcome: 9,
    longest: 9,
};

pub(crate) const OLD_COUNTS: Counts = Counts {
    sessions: 9,
    accepted: 9,
    full: 9,
    down: 9,
    delivered: 9,
    refused: 9,
};

const OLD_BURST: Burst = Burst { word: 9, count: 9 };

const OLD_BURSTS: Bursts = Bursts {
    frame: OLD_BURST,
    descriptor: OLD_BURST,
    entry: OLD_BURST,
};

pub(crate) const OLD_ROOM: [u8; 40] = [9; 40];

pub(crate) const OLD_PUBLICATION: Publication = Publication {
    bursts: OLD_BURSTS,
    index: 9,
    accepted: 9,
};

pub(crate) const OLD_RETURN: FrameReturn = FrameReturn {
    length: 9,
    element: 9,
    id: 9,
    index: 9,
    returned: 9,
};

/// A call of an export that writes nothing, or whose notes don't count. The region has two peers,
/// and the link an MTU of 256 and vector 1.
#[derive(Clone, Copy)]
pub(crate) enum Call {
    /// Makes the end of this peer.
    New(u32),
    /// Makes the end of this peer in a link of this version.
    NewVersion(u32, u32),
    Begin(u32),
    Offer(&'static [u8]),
    OfferAgain,
    /// Completes a step with this value.
    Took(u32),
    TookReads(&'static [u8]),
    TookWrites(u32),
    Reset,
    Free,
}

/// Makes the call. Returns its answer.
fn answer(alloc: Global, end: &mut End, call: Call) -> u32 {
    let mut notes = OLD_NOTES;
    match call {
        Call::New(me) => ivshm_end_new(alloc, end, &FOUND, 2, me, 256, 1),
        Call::NewVersion(me, version) => {
            ivshm_end_new_version(alloc, end, &FOUND, 2, me, 256, 1, version)
        }
        Call::Begin(number) => ivshm_end_begin(alloc, end, number),
        Call::Offer(frame) => ivshm_end_offer(alloc, end, frame),
        Call::OfferAgain => ivshm_end_offer_again(alloc, end),
        Call::Took(value) => ivshm_end_took(alloc, end, value, &mut notes),
        Call::TookReads(words) => ivshm_end_took_reads(alloc, end, words, &mut notes),
        Call::TookWrites(count) => ivshm_end_took_writes(alloc, end, count),
        Call::Reset => ivshm_end_reset(alloc, end),
        Call::Free => ivshm_end_free(alloc, end),
    }
}

/// One act on a handle, or what its end reports.
#[derive(Clone, Copy)]
pub(crate) enum Act {
    /// Makes a call, with this answer.
    Makes(Call, u32),
    /// Brings a new end into RUN.
    Runs,
    /// Completes this many steps, each with the value 0.
    Steps(u32),
    /// Completes a step with this value. It has this number of notes.
    Notes(u32, u32),
    /// Completes a step with this value: the answer, and the number of notes and the next access
    /// then.
    Step(u32, u32, u32, Access),
    /// The next access.
    Next(Access),
    /// The next access, a write of this State.
    NextState(u32),
    /// Writes the next words into a room of 1s, which has these bytes then, with this answer.
    Words(&'static [u8], u32),
    /// Completes the writes of an offer up to its index: the length of the room, the answer, and
    /// what the writes, the 40 bytes that hold the room and the access after the writes are then.
    Publish(usize, u32, Publication, &'static [u8; 40], Access),
    /// Completes the read of a field with this value: the answer, and the word and the count of the
    /// next read then.
    Field(u32, u32, u32, u32),
    /// Completes these words of a frame: the answer, and the writes that return it and the access
    /// after them then.
    Frame(&'static [u8], u32, FrameReturn, Access),
    /// The outcome of the last offer, and the longest frame that may be offered.
    View(u32, u32),
    /// Writes the counts, which are these then, with this answer.
    Counts(u32, Counts),
    /// Writes the frame delivered last into a room of four bytes. It has no bytes.
    NoFrame,
}

/// Brings a new end into RUN, by the States that its ticks read.
const RUNS: [Call; 11] = [
    Call::Took(0),
    Call::Begin(0),
    Call::Took(1),
    Call::Took(0),
    Call::Begin(0),
    Call::Took(1),
    Call::TookWrites(4_096),
    Call::Took(0),
    Call::Begin(0),
    Call::Took(2),
    Call::Took(0),
];

/// Makes these calls. Returns whether each is answered with 0.
#[must_use]
fn are_done(alloc: Global, end: &mut End, calls: &[Call]) -> bool {
    for call in calls {
        if answer(alloc, end, *call) != 0 {
            return false;
        }
    }
    true
}

/// Completes this many steps with the value 0. Returns whether each is answered with 0.
#[must_use]
fn steps(alloc: Global, end: &mut End, count: u32) -> bool {
    for _ in 0..count {
        if answer(alloc, end, Call::Took(0)) != 0 {
            return false;
        }
    }
    true
}

/// Completes a step with this value. Returns whether it has this number of notes.
#[must_use]
fn has_notes(alloc: Global, end: &mut End, value: u32, count: u32) -> bool {
    let mut notes = OLD_NOTES;
    ivshm_end_took(alloc, end, value, &mut notes) == 0 && notes.count == count
}

/// Completes a step with this value. Returns whether the answer, the number of notes and the next
/// access are these.
#[must_use]
fn is_step(
    alloc: Global,
    end: &mut End,
    value: u32,
    due: u32,
    count: u32,
    access: &Access,
) -> bool {
    let mut notes = OLD_NOTES;
    let mut next = OLD_ACCESS;
    let answer = ivshm_end_step(alloc, end, value, &mut notes, &mut next);
    answer == due && notes.count == count && numbers(&next) == numbers(access)
}

/// Whether the next access is this one.
#[must_use]
fn is_next(alloc: Global, end: &mut End, access: &Access) -> bool {
    let mut next = OLD_ACCESS;
    let answer = ivshm_end_next(alloc, end, &mut next);
    answer == 0 && numbers(&next) == numbers(access)
}

/// Returns the fields of an access.
fn numbers(access: &Access) -> [u32; 7] {
    [
        access.kind,
        access.word,
        access.value,
        access.count,
        access.order,
        access.fence_before,
        access.fence_after,
    ]
}

/// Returns the write of a State, as an access.
fn state(value: u32) -> Access {
    Access {
        kind: 3,
        word: 0,
        value,
        count: 0,
        order: 2,
        fence_before: 0,
        fence_after: 1,
    }
}

/// Writes the next words into a room of 1s. Returns whether it has these bytes then, and the answer
/// is this one.
#[must_use]
fn are_words(alloc: Global, end: &mut End, bytes: &[u8], due: u32) -> bool {
    let mut room = [1; 8];
    if bytes.len() > 8 {
        return false;
    }
    let into = &mut room[..bytes.len()];
    ivshm_end_words(alloc, end, into) == due && &*into == bytes
}

/// Returns the first words and the lengths of bursts.
fn places(bursts: &Bursts) -> [u32; 6] {
    [
        bursts.frame.word,
        bursts.frame.count,
        bursts.descriptor.word,
        bursts.descriptor.count,
        bursts.entry.word,
        bursts.entry.count,
    ]
}

/// Completes the writes of an offer up to its index. Returns whether all is as the act says.
#[must_use]
fn is_published(
    alloc: Global,
    end: &mut End,
    size: usize,
    due: u32,
    made: &Publication,
    bytes: &[u8; 40],
    access: &Access,
) -> bool {
    let mut room = OLD_ROOM;
    let mut into = OLD_PUBLICATION;
    let mut next = OLD_ACCESS;
    if size > 40 {
        return false;
    }
    let answer = ivshm_end_publish(alloc, end, &mut into, &mut room[..size], &mut next);
    let index = into.index == made.index && into.accepted == made.accepted;
    let bursts = places(&into.bursts) == places(&made.bursts);
    answer == due && index && bursts && room == *bytes && numbers(&next) == numbers(access)
}

/// Completes the read of a field with this value. Returns whether the answer and the next read are
/// these.
#[must_use]
fn is_field(alloc: Global, end: &mut End, value: u32, due: u32, next: [u32; 2]) -> bool {
    let mut into = OLD_BURST;
    let answer = ivshm_end_took_field(alloc, end, value, &mut into);
    answer == due && [into.word, into.count] == next
}

/// Returns the fields of the writes that return a frame.
fn writes(made: &FrameReturn) -> [u32; 5] {
    [
        made.length,
        made.element,
        made.id,
        made.index,
        made.returned,
    ]
}

/// Completes these words of a frame. Returns whether the answer, the writes and the next access are
/// these.
#[must_use]
fn is_frame(
    alloc: Global,
    end: &mut End,
    words: &[u8],
    due: u32,
    made: &FrameReturn,
    access: &Access,
) -> bool {
    let mut into = OLD_RETURN;
    let mut next = OLD_ACCESS;
    let answer = ivshm_end_took_frame(alloc, end, words, &mut into, &mut next);
    answer == due && writes(&into) == writes(made) && numbers(&next) == numbers(access)
}

/// Whether the last offer has this outcome, and this is the longest frame that may be offered.
#[must_use]
fn is_viewed(alloc: Global, end: &mut End, outcome: u32, longest: u32) -> bool {
    let mut view = OLD_VIEW;
    let answer = ivshm_end_view(alloc, end, &mut view);
    answer == 0 && view.outcome == outcome && view.longest == longest
}

/// Returns the fields of counts.
fn fields(counts: &Counts) -> [u64; 6] {
    [
        counts.sessions,
        counts.accepted,
        counts.full,
        counts.down,
        counts.delivered,
        counts.refused,
    ]
}

/// Writes the counts. Returns whether they are these then, and the answer is this one.
#[must_use]
fn are_counts(alloc: Global, end: &mut End, due: u32, counts: &Counts) -> bool {
    let mut into = OLD_COUNTS;
    ivshm_end_counts(alloc, end, &mut into) == due && fields(&into) == fields(counts)
}

/// Whether the frame delivered last has no bytes.
#[must_use]
fn has_no_frame(alloc: Global, end: &mut End) -> bool {
    let mut room = [1; 4];
    let mut size = 9;
    ivshm_end_frame(alloc, end, &mut room, &mut size) == 0 && size == 0
}

/// Makes an act. Returns whether all is as the act says.
#[must_use]
fn makes(alloc: Global, end: &mut End, act: &Act) -> bool {
    match act {
        Act::Makes(call, due) => answer(alloc, end, *call) == *due,
        Act::Runs => are_done(alloc, end, &RUNS),
        Act::Steps(count) => steps(alloc, end, *count),
        Act::Notes(value, count) => has_notes(alloc, end, *value, *count),
        Act::Step(value, due, count, access) => is_step(alloc, end, *value, *due, *count, access),
        Act::Next(access) => is_next(alloc, end, access),
        Act::NextState(value) => is_next(alloc, end, &state(*value)),
        Act::Words(bytes, due) => are_words(alloc, end, bytes, *due),
        Act::Publish(size, due, made, bytes, access) => {
            is_published(alloc, end, *size, *due, made, bytes, access)
        }
        Act::Field(value, due, word, count) => is_field(alloc, end, *value, *due, [*word, *count]),
        Act::Frame(words, due, made, access) => is_frame(alloc, end, words, *due, made, access),
        Act::View(outcome, longest) => is_viewed(alloc, end, *outcome, *longest),
        Act::Counts(due, counts) => are_counts(alloc, end, *due, counts),
        Act::NoFrame => has_no_frame(alloc, end),
    }
}

/// Makes these acts on a handle.
pub(crate) fn makes_all(rt: &impl Abort, alloc: Global, end: &mut End, acts: &[Act]) {
    for (at, act) in acts.iter().enumerate() {
        assert!(rt; makes(alloc, end, act), "act {at}");
    }
}
