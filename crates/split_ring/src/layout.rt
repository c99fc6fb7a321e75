//! The layout of an output section: the offset of each field.
ghost use Rattle.std.specs.Prelude.{◌≡◌, ◌+◌, ◌*◌, ◌/◌, ◌%◌, ◌<◌, ◌≤◌, nat_le, min, cond, IfOk, IfErr};
ghost use Rattle.split_ring.specs.Layout.{used_ring_offset, rings_len, queue_size, Sizes, IsVersion, has_events, is_byte_ring, size_of, data_area_start, data_area_len, slot_of, limit_of, IsQueue, HasBounds, word_offset, DescAddress, AvailIndex, AvailEntry, UsedEvent, UsedIndex, UsedId, AvailEvent, QueueSizeIsGreatest, QueuesAreLaidOut};
ghost use Rattle.split_ring.specs.Faults.{IsQueueFault};
ghost use Rattle.split_ring.specs.Frames.{FramesAreLaidOut};

use crate::QueueFault;
use crate::sizes::{FRAME_OVERHEAD, LEAST_MTU, LEAST_QUEUE, MOST_MTU, MOST_QUEUE};
use ivs_base::up64;
use section_map::LARGEST_REGION;
use std::marker::Model;

/// The queue sizes, in descending order.
const SIZES: [u32; 7] = [MOST_QUEUE, 2048, 1024, 512, 256, 128, LEAST_QUEUE];

/// The queue of a link: the queue size and the offset of each field. They follow from the link's
/// version, the length in bytes of an output section, and the MTU.
///
/// A contract sees these three numbers, and every other number is a function of them
/// (`specs/Layout`). Both sections of a link have this layout. Words are numbered from the start of
/// the section.
#[derive(Clone, Copy, Debug, PartialEq, Eq)]
pub struct Queue {
    version: u32,
    out: u32,
    mtu: u32,
    size: u32,
    used: u32,
    payload: u32,
    slot: u32,
    limit: u32,
}

impl Model for Queue {
    ghost use Rattle.split_ring.specs.Layout.{Sizes};

    ghost Value = { Sizes };

    ghost use Rattle.split_ring.specs.Representation.{IsWellFormed, sizes_of, inside_of};

    ghost view = { sizes_of };

    ghost invariant = { IsWellFormed };

    ghost inverse = { inside_of };
}

impl Queue {
    /// Returns the queue of a link of version 1, in sections of `out` bytes, for frames of at most
    /// `mtu` + `FRAME_OVERHEAD` bytes.
    ///
    /// The error is the first test that fails:
    /// - `BadMtu` if the MTU isn't `LEAST_MTU` to `MOST_MTU`;
    /// - `TooSmall` if no queue size fits the section;
    /// - `NoSlot` if the data area is shorter than a slot.
    // claim queue, fault with Queue::of_version.queue, Queue::of_version.fault: A queue is made
    //    exactly if the MTU, a queue size and a slot fit, tested in this order; otherwise the first
    //    fault is returned with its numbers. The queue has the version asked for.
    pub fn of(out: u64, mtu: u32) -> Result<Queue, QueueFault>
        requires { out ≤ LARGEST_REGION }
        ensures queue { IfOk result (λ q. (q ≡ record { version = 1; out = out; mtu = mtu }) × IsQueue q) }
        ensures fault { IfErr result (IsQueueFault (record { version = 1; out = out; mtu = mtu })) }
    {
        Queue::of_version(1, out, mtu)
    }

    /// Returns the queue of a link of version `version`, with the errors of `of`. From version 2 on
    /// a peer rings only if the other's event index wants a doorbell. In version 3 the data area is
    /// a byte ring instead of slots.
    pub fn of_version(version: u32, out: u64, mtu: u32) -> Result<Queue, QueueFault>
        requires known { IsVersion version }
        requires section { out ≤ LARGEST_REGION }
        ensures queue { IfOk result (λ q. (q ≡ record { version = version; out = out; mtu = mtu }) × IsQueue q) }
        ensures fault { IfErr result (IsQueueFault (record { version = version; out = out; mtu = mtu })) }
    {
        if !(LEAST_MTU..=MOST_MTU).contains(&mtu) {
            return Err(QueueFault::BadMtu(mtu));
        }
        let Some(size) = queue_size(out) else {
            return Err(QueueFault::TooSmall(out));
        };
        let payload = rings_len(size);
        let slot = up64(FRAME_OVERHEAD + u64::from(mtu)) as u32;
        let out = out as u32;
        let room = out - payload;
        if room < slot {
            return Err(QueueFault::NoSlot {
                slot: u64::from(slot),
                room: u64::from(room),
            });
        }
        Ok(Queue {
            version,
            out,
            mtu,
            size,
            used: used_ring_offset(size),
            payload,
            slot,
            limit: limit(version, size, room / slot),
        })
    }

    /// Returns the version of the link.
    pub fn version(&self) -> u32
        ensures value { result ≡ self.now.version }
        ensures queue { IsQueue self.now }
    {
        self.version
    }

    /// Whether each peer publishes event indices, and rings only if the other's event index wants a
    /// doorbell.
    pub fn has_events(&self) -> bool
        ensures { result ≡ has_events self.now }
    {
        self.version >= 2
    }

    /// Whether the data area is a byte ring, in which a frame occupies its length rounded up to a
    /// multiple of 64. Otherwise the data area is cut into slots.
    pub fn is_byte_ring(&self) -> bool
        ensures { result ≡ is_byte_ring self.now }
    {
        self.version >= 3
    }

    /// Returns the queue size: the number of descriptors, of available entries and of used
    /// elements.
    // claim value with Queue::slot.value, Queue::limit.value, Queue::mtu.value, Queue::out.value,
    //    Queue::payload.value, Queue::room.value, Queue::version.value, Queue::has_events,
    //    Queue::is_byte_ring: Each size and property of a queue is that of the layout.
    // claim each queue, bounds: Every queue that a call sees fits its section, within the bounds of
    //    the layout.
    pub fn size(&self) -> u32
        ensures value { result ≡ size_of self.now }
        ensures queue { IsQueue self.now }
        ensures bounds { HasBounds self.now }
    {
        self.size
    }

    /// Returns the length in bytes of a slot, which holds one frame. A byte ring has no slots.
    pub fn slot(&self) -> u32
        ensures value { result ≡ slot_of self.now }
        ensures bounds { HasBounds self.now }
    {
        self.slot
    }

    /// Returns the limit of frames in flight. In a byte ring it is the queue size, and each frame
    /// also needs free bytes in the data area.
    pub fn limit(&self) -> u32
        ensures value { result ≡ limit_of self.now }
        ensures bounds { HasBounds self.now }
    {
        self.limit
    }

    /// Returns the MTU. A frame has at most `FRAME_OVERHEAD` bytes more.
    pub fn mtu(&self) -> u32
        ensures value { result ≡ self.now.mtu }
        ensures queue { IsQueue self.now }
    {
        self.mtu
    }

    /// Returns the length in bytes of a section.
    pub fn out(&self) -> u32
        ensures value { result ≡ self.now.out }
        ensures queue { IsQueue self.now }
    {
        self.out
    }

    /// Returns the offset in bytes at which the data area begins.
    pub fn payload(&self) -> u32
        ensures value { result ≡ data_area_start self.now }
        ensures bounds { HasBounds self.now }
    {
        self.payload
    }

    /// Returns the length in bytes of the data area.
    pub fn room(&self) -> u32
        ensures value { result ≡ data_area_len self.now }
        ensures queue { IsQueue self.now }
    {
        self.out - self.payload
    }

    /// Returns the first of the four words of descriptor `i`: two for the address, one for the
    /// length, one for flags and next.
    // claim place, inside with Queue::avail_word.place, Queue::avail_word.inside,
    //    Queue::entry_word.place, Queue::entry_word.inside, Queue::used_word.place,
    //    Queue::used_word.inside, Queue::used_id.place, Queue::used_id.inside,
    //    Queue::used_event_word.place, Queue::used_event_word.inside,
    //    Queue::avail_event_word.place, Queue::avail_event_word.inside: Each field's word is that
    //    of the layout, and lies inside the section.
    pub fn descriptor(&self, i: u32) -> u32
        requires { i < size_of self.now }
        ensures place { result ≡ word_offset self.now (DescAddress i) }
        ensures inside { 4 * result + 16 ≤ self.now.out }
    {
        prove!(i < self.size);
        4 * i
    }

    /// Returns the word that holds the flags and the index of the available ring.
    pub fn avail_word(&self) -> u32
        ensures place { result ≡ word_offset self.now AvailIndex }
        ensures inside { 4 * result + 4 ≤ self.now.out }
    {
        4 * self.size
    }

    /// Returns the word that holds available entry `k` modulo the queue size. The entry is its low
    /// half if that number is even, else its high half.
    pub fn entry_word(&self, k: u32) -> u32
        ensures place { result ≡ word_offset self.now (AvailEntry (k % size_of self.now)) }
        ensures inside { 4 * result + 4 ≤ self.now.out }
    {
        4 * self.size + 1 + k % self.size / 2
    }

    /// Returns the word that holds the flags and the index of the used ring.
    pub fn used_word(&self) -> u32
        ensures place { result ≡ word_offset self.now UsedIndex }
        ensures inside { 4 * result + 4 ≤ self.now.out }
    {
        self.used / 4
    }

    /// Returns the word that holds the id of used element `k` modulo the queue size. The element's
    /// length is the next word.
    pub fn used_id(&self, k: u32) -> u32
        ensures place { result ≡ word_offset self.now (UsedId (k % size_of self.now)) }
        ensures inside { 4 * result + 8 ≤ self.now.out }
    {
        self.used / 4 + 1 + 2 * (k % self.size)
    }

    /// Returns the word that holds used_event, in its low half.
    pub fn used_event_word(&self) -> u32
        ensures place { result ≡ word_offset self.now UsedEvent }
        ensures inside { 4 * result + 4 ≤ self.now.out }
    {
        4 * self.size + 1 + self.size / 2
    }

    /// Returns the word that holds avail_event, in its low half.
    pub fn avail_event_word(&self) -> u32
        ensures place { result ≡ word_offset self.now AvailEvent }
        ensures inside { 4 * result + 4 ≤ self.now.out }
    {
        self.used / 4 + 1 + 2 * self.size
    }
}

/// Returns the limit of frames in flight of a link of this version, with `size` descriptors and
/// `slots` slots.
fn limit(version: u32, size: u32, slots: u32) -> u32
    ensures { result ≡ cond (nat_le 3 version) size (min size slots) }
{
    if version >= 3 { size } else { size.min(slots) }
}

/// Returns the offset in bytes of the used ring of a queue of `size`.
fn used_ring_offset(size: u32) -> u32
    requires { size ≤ MOST_QUEUE }
    ensures { result ≡ used_ring_offset size }
{
    up64(u64::from(18 * size + 6)) as u32
}

/// Returns the length in bytes of the descriptors and rings of a queue of `size`.
fn rings_len(size: u32) -> u32
    requires { size ≤ MOST_QUEUE }
    ensures { result ≡ rings_len size }
{
    up64(u64::from(used_ring_offset(size) + 6 + 8 * size)) as u32
}

/// Returns the greatest queue size whose descriptors and rings are shorter than an eighth of a
/// section of `out` bytes.
#[tactic(auto, unfolding(crate::specs::Layout::queue_size))]
fn queue_size(out: u64) -> Option<u32>
    requires { out ≤ LARGEST_REGION }
    ensures { result ≡ queue_size out }
{
    SIZES
        .iter()
        .copied()
        .find(|&size| 8 * u64::from(rings_len(size)) < out)
}

/// Law: the queue size is the greatest power of two that fits, from 64 to 4,096. It fits if its
/// descriptors and rings are shorter than an eighth of the section.
// claim: The queue size is the greatest power of two from 64 to 4,096 with a ring part of less than
//    an eighth of the section, for every section.
pub fn queue_size_is_greatest()
    ensures { QueueSizeIsGreatest }
{}

/// Law: the place of each frame of a session, and what follows if a frame fits.
// claim: Each frame of a session starts at a multiple of 4 in the data area, by the lengths of the
//    frames up to it, and ends inside the section. A frame that fits shares no byte with a frame in
//    flight, and the number in flight stays below the limit. With slots nothing else is needed; if
//    none is in flight, every frame fits.
pub fn frames_are_laid_out()
    ensures { FramesAreLaidOut }
{}

/// Law: in each queue no byte belongs to two fields, and each field is inside the section.
// claim: No byte of a section belongs to two fields, each field lies inside the section, and words
//    are cut into these halves alone, for every section size and MTU.
pub fn queues_are_laid_out()
    ensures { QueuesAreLaidOut }
{}
