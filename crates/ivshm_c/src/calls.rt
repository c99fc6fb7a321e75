//! The calls of an end with their answers. Each call tests the arguments of the C program.
ghost use Rattle.std.specs.Prelude.{◌≡◌, ◌*◌, ◌%◌, ◌<◌, ◌≤◌, true, length, Some, IfOk, IfErr};
ghost use Rattle.link_endpoint.specs.Engine.{is_busy, delivered, offered};
ghost use Rattle.ivshm_c.specs.Answers.{begin_answer, offer_answer, step_answer, count_answer, bytes_answer, reads_answer, words_answer, writes_answer, publish_answer, frame_answer, BeginsAnswered, OffersAnswered, IsNextAccess, GivesNext, TakesAnswered, TakesWords, GivesWords, TakesWrites, CopiesFrame, IsNew, MayMake, RefusesNew};
ghost use Rattle.c_status.specs.Statuses.{number_of};
ghost use Rattle.ivshm_c.specs.Items.{idle_answer, TakesField, TakesFrame, PublishesFrame, GoesOn, Rung};

use crate::crossing::{
    access_crossed, call_numbered, frame_return_crossed, notes_crossed, publication_crossed,
};
use crate::device::{Found, sized};
use crate::end_state::EndState;
use crate::{Access, Burst, FrameReturn, Notes, Publication};
use c_status::Status;
use link_endpoint::Endpoint;
use split_ring::{SHORTEST_FRAME, steps};
use std::alloc::Global;

/// Makes an end of a link of this version. The tests are in this order: the peer, the version, the
/// vector, and then the sizes.
pub(crate) fn made(
    alloc: Global,
    found: &Found,
    version: u32,
    peers: u32,
    me: u32,
    mtu: u32,
    vector: u32,
) -> Result<Box<EndState>, Status>
    ensures right { IfOk result (λ port. MayMake found.now version peers me mtu vector) }
    ensures made { IfOk result (λ port. IsNew found.now version peers me mtu vector port.value) }
    ensures refused { IfErr result (λ status. RefusesNew found.now version peers me mtu vector status) }
{
    if me > 1 {
        return Err(Status::BadPeer);
    }
    if !(1..=3).contains(&version) {
        return Err(Status::BadVersion);
    }
    if vector > 65_535 {
        return Err(Status::BadVector);
    }
    let (geometry, queue) = match sized(found, version, peers, mtu) {
        Ok(sizes) => sizes,
        Err(status) => return Err(status),
    };
    let Ok(endpoint) = Endpoint::new(alloc, me, &geometry, &queue, vector) else {
        return Err(Status::NoMemory);
    };
    match Box::new(alloc, EndState::of(endpoint)) {
        Ok(port) => Ok(port),
        Err(_) => Err(Status::NoMemory),
    }
}

/// Opens the call with this number.
pub(crate) fn begun(port: &mut EndState, call: u32) -> Status
    ensures answer { result ≡ begin_answer call port.old }
    ensures step { BeginsAnswered call port.old port.new }
{
    let Some(call) = call_numbered(call) else {
        return Status::BadCall;
    };
    if port.endpoint.busy() {
        return Status::CallOpen;
    }
    port.begin(call);
    Status::Done
}

/// Opens an offer of `frame`.
pub(crate) fn offered(port: &mut EndState, frame: &[u8]) -> Status
    ensures answer { result ≡ offer_answer frame.now port.old }
    ensures step { OffersAnswered frame.now port.old port.new }
{
    if frame.len() < SHORTEST_FRAME as usize {
        return Status::ShortFrame;
    }
    let longest = port.endpoint.longest() as usize;
    if longest < frame.len() {
        return Status::LongFrame;
    }
    if port.endpoint.busy() {
        return Status::CallOpen;
    }
    port.offer(frame);
    Status::Done
}

/// Opens another offer of the frame offered last.
pub(crate) fn offered_again(port: &mut EndState) -> Status
    ensures answer { result ≡ offer_answer (offered port.old.endpoint) port.old }
    ensures step { OffersAnswered (offered port.old.endpoint) port.old port.new }
{
    if port.endpoint.offered().len() < SHORTEST_FRAME as usize {
        return Status::ShortFrame;
    }
    if port.endpoint.busy() {
        return Status::CallOpen;
    }
    port.offer_again();
    Status::Done
}

/// Writes the next access of the open call into `access`.
#[inline(always)]
pub(crate) fn next(port: &EndState, access: &mut Access) -> Status
    ensures answer { result ≡ step_answer port.now }
    ensures access { GivesNext port.now access.old access.new }
{
    if !port.endpoint.busy() {
        return Status::NoCall;
    }
    *access = next_access(port);
    Status::Done
}

/// Returns the next access of the open call.
#[inline(always)]
fn next_access(port: &EndState) -> Access
    requires open { is_busy port.now.endpoint ≡ true }
    ensures access { IsNextAccess port.now result }
{
    let end = &port.endpoint;
    access_crossed(
        end.next(),
        end.reads_ahead(),
        end.writes_ahead(),
        end.order(),
    )
}

/// Completes the step of that access.
#[inline(always)]
pub(crate) fn took(port: &mut EndState, value: u32, notes: &mut Notes) -> Status
    ensures answer { result ≡ step_answer port.old }
    ensures step { TakesAnswered value notes.old notes.new port.old port.new }
{
    if !port.endpoint.busy() {
        return Status::NoCall;
    }
    let mut reported = steps::Notes::new();
    port.took(value, &mut reported);
    *notes = notes_crossed(reported.as_slice());
    Status::Done
}

/// Completes the step of that access, and writes the access after it into `access`. Returns the
/// answer of `next` then.
pub(crate) fn stepped(
    port: &mut EndState,
    value: u32,
    notes: &mut Notes,
    access: &mut Access,
) -> Status
    ensures answer { result ≡ step_answer port.new }
    ensures step { TakesAnswered value notes.old notes.new port.old port.new }
    ensures access { GivesNext port.new access.old access.new }
{
    match took(port, value, notes) {
        Status::Done => next(port, access),
        status => status,
    }
}

/// Returns the answer of a call that takes nothing.
fn idle(port: &EndState) -> Status
    ensures { result ≡ idle_answer port.now }
{
    if port.endpoint.busy() {
        Status::OtherAccess
    } else {
        Status::NoCall
    }
}

/// Completes the read of a field of an item, and writes the next access, a read, into `next`.
pub(crate) fn took_field(port: &mut EndState, value: u32, next: &mut Burst) -> Status
    ensures { TakesField value next.old next.new (number_of result) port.old port.new }
{
    match port.endpoint.took_field(value) {
        Some(read) => {
            *next = Burst {
                word: read.word,
                count: read.count,
            };
            Status::Done
        }
        None => idle(port),
    }
}

/// Returns the next access of the open call. Completes the step if the access is a doorbell, which
/// the caller makes now.
#[inline(always)]
fn gone_on(port: &mut EndState) -> Access
    requires open { is_busy port.old.endpoint ≡ true }
    ensures { GoesOn result port.old port.new }
{
    let access = next_access(port);
    if access.kind == 4 {
        rung(port);
    }
    access
}

/// Completes the step of a doorbell. It isn't inlined, since the callers are shorter so.
#[inline(never)]
fn rung(port: &mut EndState)
    requires open { is_busy port.old.endpoint ≡ true }
    ensures { Rung port.old port.new }
{
    let mut over = steps::Notes::new();
    port.took(0, &mut over);
}

/// Completes the reads of a whole frame and the writes that return it, and writes these into
/// `made`, and the access after them into `access`. Completes the access too if it is a doorbell.
pub(crate) fn took_frame(
    port: &mut EndState,
    words: &[u8],
    made: &mut FrameReturn,
    access: &mut Access,
) -> Status
    ensures { TakesFrame words.now made.old made.new access.old access.new (number_of result) port.old port.new }
{
    match port.endpoint.took_frame(words) {
        Some(returned) => {
            port.counts.deliver();
            *access = gone_on(port);
            *made = frame_return_crossed(returned);
            Status::Done
        }
        None => idle(port),
    }
}

/// Completes all that an offer writes up to its index, and writes these writes into `made`, and the
/// access after them into `access`. Completes the access too if it is a doorbell. Writes only the
/// words after the frame into the front of `room`.
pub(crate) fn publish(
    port: &mut EndState,
    made: &mut Publication,
    room: &mut [u8],
    access: &mut Access,
) -> Status
    ensures answer { result ≡ publish_answer (length room.old) port.old }
    ensures step { PublishesFrame made.old made.new room.old room.new access.old access.new port.old port.new }
{
    if !port.endpoint.busy() {
        return Status::NoCall;
    }
    if room.len() <= 19 {
        return if port.endpoint.writes_frame() {
            Status::ShortRoom
        } else {
            Status::OtherAccess
        };
    }
    match port.publish(&mut room[..20]) {
        Some(published) => {
            *access = gone_on(port);
            *made = publication_crossed(published);
            Status::Done
        }
        None => Status::OtherAccess,
    }
}

/// Returns the answer for `count` steps to be completed, if `ahead` steps are next.
fn counted(ahead: u32, count: usize) -> Status
    ensures answer { result ≡ count_answer ahead count }
    ensures done { result ≡ Status.Done → (0 < count) × (count ≤ ahead) }
{
    if ahead == 0 {
        return Status::OtherAccess;
    }
    if count == 0 || (ahead as usize) < count {
        return Status::BadCount;
    }
    Status::Done
}

/// Returns the answer for steps whose words have `bytes` bytes, if `ahead` steps are next.
fn measured(ahead: u32, bytes: usize) -> Status
    ensures answer { result ≡ bytes_answer ahead bytes }
    ensures done { result ≡ Status.Done → (0 < bytes) × (bytes % 4 ≡ 0) × (bytes ≤ 4 * ahead) }
{
    if ahead == 0 {
        return Status::OtherAccess;
    }
    if !bytes.is_multiple_of(4) {
        return Status::BadCount;
    }
    counted(ahead, bytes / 4)
}

/// Completes the next reads, whose values are `words`.
pub(crate) fn took_reads(port: &mut EndState, words: &[u8], notes: &mut Notes) -> Status
    ensures answer { result ≡ reads_answer (length words.now) port.old }
    ensures step { TakesWords words.now notes.old notes.new port.old port.new }
{
    if !port.endpoint.busy() {
        return Status::NoCall;
    }
    let status = measured(port.endpoint.reads_ahead(), words.len());
    if let Status::Done = status {
        let mut reported = steps::Notes::new();
        port.took_reads(words, &mut reported);
        *notes = notes_crossed(reported.as_slice());
    }
    status
}

/// Writes the values of the next writes into `into`.
pub(crate) fn words(port: &EndState, into: &mut [u8]) -> Status
    ensures answer { result ≡ words_answer (length into.old) port.now }
    ensures words { GivesWords port.now into.old into.new }
    ensures sized { length into.new ≡ length into.old }
{
    if !port.endpoint.busy() {
        return Status::NoCall;
    }
    let status = measured(port.endpoint.writes_ahead(), into.len());
    if let Status::Done = status {
        port.endpoint.words(into);
    }
    status
}

/// Completes the next `count` writes.
pub(crate) fn took_writes(port: &mut EndState, count: u32) -> Status
    ensures answer { result ≡ writes_answer count port.old }
    ensures step { TakesWrites count port.old port.new }
{
    if !port.endpoint.busy() {
        return Status::NoCall;
    }
    let status = counted(port.endpoint.writes_ahead(), count as usize);
    if let Status::Done = status {
        port.took_writes(count);
    }
    status
}

/// Copies the frame delivered last into `room` if it fits, and writes its length in bytes into
/// `size`.
pub(crate) fn framed(port: &EndState, room: &mut [u8], size: &mut usize) -> Status
    ensures answer { result ≡ frame_answer (length room.old) port.now }
    ensures length { size.new ≡ length (delivered port.now.endpoint) }
    ensures bytes { CopiesFrame port.now room.old room.new }
{
    let frame = port.endpoint.delivered();
    *size = frame.len();
    if room.len() < frame.len() {
        return Status::ShortRoom;
    }
    room[..frame.len()].copy_from_slice(frame);
    Status::Done
}
