//! The exports of an end.
ghost use Rattle.std.specs.Prelude.{◌≡◌, ◌+◌, ◌≤◌, length, None, IfSome};
ghost use Rattle.raw_box.specs.Handle.{Leads};
ghost use Rattle.c_status.specs.Statuses.{number_of};
ghost use Rattle.c_status.specs.declared.status.Status.{Status as Answer};
ghost use Rattle.link_endpoint.specs.Engine.{delivered};
ghost use Rattle.ivshm_c.specs.Crossing.{view_of};
ghost use Rattle.ivshm_c.specs.Answers.{answer_at, begin_answer, offer_answer, again_answer, step_answer, reads_answer, words_answer, writes_answer, publish_answer, frame_answer, done_answer, BeginsAnswered, OffersAnswered, OffersAgain, GivesNext, TakesAnswered, TakesWords, GivesWords, TakesWrites, CopiesFrame, Renews, MakesAnswered};
ghost use Rattle.ivshm_c.specs.Items.{TakesField, TakesFrame, PublishesFrame};

use crate::calls::{
    begun, framed, made, next, offered, offered_again, publish, stepped, took, took_field,
    took_frame, took_reads, took_writes, words,
};
use crate::crossing::view_of;
use crate::device::Found;
use crate::{Access, Burst, Counts, End, FrameReturn, Notes, Publication, View};
use c_status::Status;
use std::alloc::Global;

/// Makes the end of peer `me` of a region of these sizes with `peers` peers, for frames of this
/// MTU. Its doorbells have the vector `vector`. The State step with which it begins is open. The
/// link is of version 1.
// claim with ivshm_end_new_version: An end is made exactly if the handle is empty, the peer is 0 or
//    1, the version 1 to 3, the vector of 16 bits, and the sizes are right; or the answer is
//    NO_MEMORY. The refusals have their causes in this order, so one answer alone is right, except
//    for want of memory. The end has that version, or version 1.
#[unsafe(no_mangle)]
pub extern "C" fn ivshm_end_new(
    alloc: Global,
    end: &mut End,
    found: &Found,
    peers: u32,
    me: u32,
    mtu: u32,
    vector: u32,
) -> u32
    ensures { (answer : Answer) × (result ≡ number_of answer) ×
        MakesAnswered end.old.port found.now 1 peers me mtu vector answer end.new.port }
{
    ivshm_end_new_version(alloc, end, found, peers, me, mtu, vector, 1)
}

/// The same in a link of this version, 1 to 3. From version 2 on an end rings only if the other's
/// event index wants a doorbell. In version 3 the data area is a byte ring.
#[unsafe(no_mangle)]
pub extern "C" fn ivshm_end_new_version(
    alloc: Global,
    end: &mut End,
    found: &Found,
    peers: u32,
    me: u32,
    mtu: u32,
    vector: u32,
    version: u32,
) -> u32
    ensures { (answer : Answer) × (result ≡ number_of answer) ×
        MakesAnswered end.old.port found.now version peers me mtu vector answer end.new.port }
{
    if let Some(port) = end.take(alloc) {
        end.put(port);
        return Status::HasEnd.number();
    }
    match made(alloc, found, version, peers, me, mtu, vector) {
        Ok(port) => {
            end.put(port);
            Status::Done.number()
        }
        Err(status) => status.number(),
    }
}

/// Frees the end.
// claim answer, empty: A handle that holds no end is answered so by each call, stays empty, and
//    nothing is written. A freed handle holds no end.
#[unsafe(no_mangle)]
pub extern "C" fn ivshm_end_free(alloc: Global, end: &mut End) -> u32
    ensures answer { result ≡ number_of (answer_at end.old.port done_answer) }
    ensures empty { end.new.port ≡ None }
{
    match end.take(alloc) {
        Some(port) => {
            drop(port);
            Status::Done.number()
        }
        None => Status::NoEnd.number(),
    }
}

/// Opens a call: 0 a Tick, 1 a Poll, 2 a Stop.
// claim answer, step: A call begins exactly if it has a number and none is open, with the clauses
//    of an endpoint's call; otherwise nothing changes.
#[unsafe(no_mangle)]
pub extern "C" fn ivshm_end_begin(alloc: Global, end: &mut End, call: u32) -> u32
    ensures answer { result ≡ number_of (answer_at end.old.port (begin_answer call)) }
    ensures step { Leads end.old.port (BeginsAnswered call) end.new.port }
{
    let Some(mut port) = end.take(alloc) else {
        return Status::NoEnd.number();
    };
    let status = begun(&mut port, call);
    end.put(port);
    status.number()
}

/// Opens an offer of `frame`, and copies the frame.
// claim answer, step: An offer begins exactly if its frame has 14 bytes up to the MTU plus 18 and
//    no call is open; otherwise nothing changes.
#[unsafe(no_mangle)]
pub extern "C" fn ivshm_end_offer(alloc: Global, end: &mut End, frame: &[u8]) -> u32
    ensures answer { result ≡ number_of (answer_at end.old.port (offer_answer frame.now)) }
    ensures step { Leads end.old.port (OffersAnswered frame.now) end.new.port }
{
    let Some(mut port) = end.take(alloc) else {
        return Status::NoEnd.number();
    };
    let status = offered(&mut port, frame);
    end.put(port);
    status.number()
}

/// Opens another offer of the frame offered last, without a copy. If no frame was offered, the
/// frame is empty, and so too short.
// claim answer, step: The frame offered last is offered again without a copy, exactly if one was
//    offered and no call is open. That frame is the one that `ivshm_end_offer` was given last, in
//    whatever State, through all calls since.
#[unsafe(no_mangle)]
pub extern "C" fn ivshm_end_offer_again(alloc: Global, end: &mut End) -> u32
    ensures answer { result ≡ number_of (answer_at end.old.port again_answer) }
    ensures step { Leads end.old.port OffersAgain end.new.port }
{
    let Some(mut port) = end.take(alloc) else {
        return Status::NoEnd.number();
    };
    let status = offered_again(&mut port);
    end.put(port);
    status.number()
}

/// Writes the next access of the open call into `access`.
// claim each untouched, kept: A call on a handle without an end leaves its outputs unchanged, and a
//    call that only reports leaves the end unchanged.
// claim answer, access: The next access is the open call's, by its numbers, with the length of the
//    burst that it begins and the memory order of its place. Without an open call there is none.
#[unsafe(no_mangle)]
pub extern "C" fn ivshm_end_next(alloc: Global, end: &mut End, access: &mut Access) -> u32
    ensures answer { result ≡ number_of (answer_at end.old.port step_answer) }
    ensures access { IfSome end.old.port (λ port. GivesNext port access.old access.new) }
    ensures untouched { end.old.port ≡ None → access.new ≡ access.old }
    ensures kept { end.new.port ≡ end.old.port }
{
    let Some(port) = end.take(alloc) else {
        return Status::NoEnd.number();
    };
    let status = next(&port, access);
    end.put(port);
    status.number()
}

/// Completes the step of the access that `ivshm_end_next` returned. `value` is the value that a
/// read met.
// claim answer, step: A step is completed with its notes by their numbers, and with all clauses of
//    an endpoint's step.
#[unsafe(no_mangle)]
pub extern "C" fn ivshm_end_took(alloc: Global, end: &mut End, value: u32, notes: &mut Notes) -> u32
    ensures answer { result ≡ number_of (answer_at end.old.port step_answer) }
    ensures step { Leads end.old.port (TakesAnswered value notes.old notes.new) end.new.port }
    ensures untouched { end.old.port ≡ None → notes.new ≡ notes.old }
{
    let Some(mut port) = end.take(alloc) else {
        return Status::NoEnd.number();
    };
    let status = took(&mut port, value, notes);
    end.put(port);
    status.number()
}

/// Completes the step of the access that is next, and writes the access after it into `access`: the
/// same as `ivshm_end_took` and then `ivshm_end_next`, whose answer it returns.
// claim answer, step, access, untouched: A step is completed as by `ivshm_end_took`, and the access
//    written is the next one of the end afterwards. The answer says whether the call is open then.
#[unsafe(no_mangle)]
pub extern "C" fn ivshm_end_step(
    alloc: Global,
    end: &mut End,
    value: u32,
    notes: &mut Notes,
    access: &mut Access,
) -> u32
    ensures answer { result ≡ number_of (answer_at end.new.port step_answer) }
    ensures step { Leads end.old.port (TakesAnswered value notes.old notes.new) end.new.port }
    ensures access { IfSome end.new.port (λ port. GivesNext port access.old access.new) }
    ensures untouched { end.old.port ≡ None → (notes.new ≡ notes.old) × (access.new ≡ access.old) }
{
    let Some(mut port) = end.take(alloc) else {
        return Status::NoEnd.number();
    };
    let status = stepped(&mut port, value, notes, access);
    end.put(port);
    status.number()
}

/// Completes the read of a field of an item in a poll, if the value passes its check. Writes the
/// next access, a relaxed read, into `next`: its word, and the number of words of the burst that it
/// begins, or 0.
// claim step, empty, untouched: The read of a field of an item that passes its check is
//    completed as by a single step, and the next access is the read after it. Otherwise the value
//    is refused or no such read is next, the answer says so, and nothing changes.
#[unsafe(no_mangle)]
pub extern "C" fn ivshm_end_took_field(
    alloc: Global,
    end: &mut End,
    value: u32,
    next: &mut Burst,
) -> u32
    ensures step { Leads end.old.port (TakesField value next.old next.new result) end.new.port }
    ensures empty { end.old.port ≡ None → result ≡ number_of Answer.NoEnd }
    ensures untouched { end.old.port ≡ None → next.new ≡ next.old }
{
    let Some(mut port) = end.take(alloc) else {
        return Status::NoEnd.number();
    };
    let status = took_field(&mut port, value, next);
    end.put(port);
    status.number()
}

/// Completes the reads of a whole frame in a poll, whose words are `words`, and the writes that
/// return it. Writes these writes into `made`, and the access after them into `access`. If that is
/// the doorbell, its step is completed too.
// claim step, empty, untouched: All words of a frame, and the writes that return the frame, are
//    completed as by single steps, and the writes are the accesses of these steps. The access after
//    them is written. Exactly a doorbell is completed too, as by a single step; otherwise the call
//    is open still. If these aren't all words of a frame, the answer says so, and nothing changes.
#[unsafe(no_mangle)]
pub extern "C" fn ivshm_end_took_frame(
    alloc: Global,
    end: &mut End,
    words: &[u8],
    made: &mut FrameReturn,
    access: &mut Access,
) -> u32
    ensures step { Leads end.old.port
        (TakesFrame words.now made.old made.new access.old access.new result) end.new.port }
    ensures empty { end.old.port ≡ None → result ≡ number_of Answer.NoEnd }
    ensures untouched { end.old.port ≡ None → (made.new ≡ made.old) × (access.new ≡ access.old) }
{
    let Some(mut port) = end.take(alloc) else {
        return Status::NoEnd.number();
    };
    let status = took_frame(&mut port, words, made, access);
    end.put(port);
    status.number()
}

/// Completes the next reads, 1 up to the `count` that `ivshm_end_next` returned. `words` holds the
/// values read, four bytes each, the lowest byte first. If these are all words of a frame, the
/// frame delivered is their first bytes.
// claim answer, step with ivshm_end_words.answer, ivshm_end_words.words,
//    ivshm_end_took_writes.answer, ivshm_end_took_writes.step: Completing a burst equals as many
//    single steps of the endpoint. If there is no end, no call, another access, no word, not whole
//    words or more than the count, the answer says so and the end is unchanged. A whole frame read
//    at once is delivered as its first bytes, as many as the view says.
#[unsafe(no_mangle)]
pub extern "C" fn ivshm_end_took_reads(
    alloc: Global,
    end: &mut End,
    words: &[u8],
    notes: &mut Notes,
) -> u32
    ensures answer { result ≡ number_of (answer_at end.old.port (reads_answer (length words.now))) }
    ensures step { Leads end.old.port (TakesWords words.now notes.old notes.new) end.new.port }
    ensures untouched { end.old.port ≡ None → notes.new ≡ notes.old }
{
    let Some(mut port) = end.take(alloc) else {
        return Status::NoEnd.number();
    };
    let status = took_reads(&mut port, words, notes);
    end.put(port);
    status.number()
}

/// Writes the values of the next writes, 1 up to the `count` that `ivshm_end_next` returned, into
/// `into`: four bytes each, the lowest byte first.
#[unsafe(no_mangle)]
pub extern "C" fn ivshm_end_words(alloc: Global, end: &mut End, into: &mut [u8]) -> u32
    ensures answer { result ≡ number_of (answer_at end.old.port (words_answer (length into.old))) }
    ensures words { IfSome end.old.port (λ port. GivesWords port into.old into.new) }
    ensures untouched { end.old.port ≡ None → into.new ≡ into.old }
    ensures kept { end.new.port ≡ end.old.port }
{
    let Some(port) = end.take(alloc) else {
        return Status::NoEnd.number();
    };
    let status = words(&port, into);
    end.put(port);
    status.number()
}

/// Completes the next `count` writes, 1 up to the `count` that `ivshm_end_next` returned. None of
/// them has a note.
#[unsafe(no_mangle)]
pub extern "C" fn ivshm_end_took_writes(alloc: Global, end: &mut End, count: u32) -> u32
    ensures answer { result ≡ number_of (answer_at end.old.port (writes_answer count)) }
    ensures step { Leads end.old.port (TakesWrites count) end.new.port }
{
    let Some(mut port) = end.take(alloc) else {
        return Status::NoEnd.number();
    };
    let status = took_writes(&mut port, count);
    end.put(port);
    status.number()
}

/// Completes all that an offer writes up to its index, and writes these writes into `made`, and the
/// access after them into `access`. If that is the doorbell, its step is completed too. Writes only
/// the words of the descriptor and of the available entry into the front of `room`, in 20 bytes,
/// four bytes each, the lowest byte first. The words of the frame are the last words of the offered
/// frame, with 0 after its last byte.
// claim answer, step, untouched: All that an offer writes up to its index is completed as by single
//    steps, exactly if a word of its frame is next and the room has 20 bytes. The writes are the
//    accesses of these steps; the rest of the room stays. The access after them is written. Exactly
//    a doorbell is completed too, as by a single step; otherwise the call is open still. If nothing
//    is published, the answer says why, and nothing changes.
#[unsafe(no_mangle)]
pub extern "C" fn ivshm_end_publish(
    alloc: Global,
    end: &mut End,
    made: &mut Publication,
    room: &mut [u8],
    access: &mut Access,
) -> u32
    ensures answer { result ≡ number_of (answer_at end.old.port (publish_answer (length room.old))) }
    ensures step { Leads end.old.port
        (PublishesFrame made.old made.new room.old room.new access.old access.new) end.new.port }
    ensures untouched { end.old.port ≡ None →
        (made.new ≡ made.old) × (room.new ≡ room.old) × (access.new ≡ access.old) }
{
    let Some(mut port) = end.take(alloc) else {
        return Status::NoEnd.number();
    };
    let status = publish(&mut port, made, room, access);
    end.put(port);
    status.number()
}

/// Writes the state of the end into `view`.
// claim answer, view with ivshm_end_frame.answer, ivshm_end_frame.length, ivshm_end_frame.bytes:
//    State, refusal, outcome and the longest offer are reported as they are. The outcome of an
//    offer is what its notes say first, or that a reset cut it, and stays until the next offer. The
//    frame delivered last is copied if it fits.
#[unsafe(no_mangle)]
pub extern "C" fn ivshm_end_view(alloc: Global, end: &mut End, view: &mut View) -> u32
    ensures answer { result ≡ number_of (answer_at end.old.port done_answer) }
    ensures view { IfSome end.old.port (λ port. view.new ≡ view_of port) }
    ensures untouched { end.old.port ≡ None → view.new ≡ view.old }
    ensures kept { end.new.port ≡ end.old.port }
{
    let Some(port) = end.take(alloc) else {
        return Status::NoEnd.number();
    };
    *view = view_of(&port);
    end.put(port);
    Status::Done.number()
}

/// Writes the counts of the end since it was made into `counts`.
// claim answer, counts with sessions_follow_state: The counts of an end are the numbers of notes of
//    its steps since it was made, modulo 2^64: frames accepted and delivered, refusals, offers that
//    found the link full or were down, and sessions opened. A session is opened by a write of State
//    2.
#[unsafe(no_mangle)]
pub extern "C" fn ivshm_end_counts(alloc: Global, end: &mut End, counts: &mut Counts) -> u32
    ensures answer { result ≡ number_of (answer_at end.old.port done_answer) }
    ensures counts { IfSome end.old.port (λ port. counts.new ≡ port.counts) }
    ensures untouched { end.old.port ≡ None → counts.new ≡ counts.old }
    ensures kept { end.new.port ≡ end.old.port }
{
    let Some(port) = end.take(alloc) else {
        return Status::NoEnd.number();
    };
    *counts = port.counts;
    end.put(port);
    Status::Done.number()
}

/// Copies the frame delivered last to the front of `room` if it fits, and writes its length in
/// bytes into `size`.
#[unsafe(no_mangle)]
pub extern "C" fn ivshm_end_frame(
    alloc: Global,
    end: &mut End,
    room: &mut [u8],
    size: &mut usize,
) -> u32
    ensures answer { result ≡ number_of (answer_at end.old.port (frame_answer (length room.old))) }
    ensures length { IfSome end.old.port (λ port. size.new ≡ length (delivered port.endpoint)) }
    ensures bytes { IfSome end.old.port (λ port. CopiesFrame port room.old room.new) }
    ensures untouched { end.old.port ≡ None → (room.new ≡ room.old) × (size.new ≡ size.old) }
    ensures kept { end.new.port ≡ end.old.port }
{
    let Some(port) = end.take(alloc) else {
        return Status::NoEnd.number();
    };
    let status = framed(&port, room, size);
    end.put(port);
    status.number()
}

/// Resets the end after a reset of its own device: cuts the open call, and opens the State step
/// with which the end begins again.
// claim answer, step: A reset cuts the open call, forgets the refusal, and begins with State 0.
#[unsafe(no_mangle)]
pub extern "C" fn ivshm_end_reset(alloc: Global, end: &mut End) -> u32
    ensures answer { result ≡ number_of (answer_at end.old.port done_answer) }
    ensures step { Leads end.old.port Renews end.new.port }
{
    let Some(mut port) = end.take(alloc) else {
        return Status::NoEnd.number();
    };
    port.reset();
    end.put(port);
    Status::Done.number()
}
