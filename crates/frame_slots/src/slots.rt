//! The descriptor and the place of each frame.
ghost use Rattle.std.specs.Prelude.{◌≡◌, ◌+◌, ◌<◌, ◌≤◌, IfSome, MatchOption};
ghost use Rattle.std.specs.Prelude.{◌^◌, true, false};
ghost use Rattle.split_ring.specs.declared.sizes.TheConstants.{FRAME_OVERHEAD, SHORTEST_FRAME};
ghost use Rattle.split_ring.specs.Layout.{limit_of, data_area_len};
ghost use Rattle.split_ring.specs.Frames.{start_after};
ghost use Rattle.frame_slots.specs.Allocator.{initial_allocator, IsAllocator, IsInFlight, oldest_of, ring_bytes, bytes_are_free, has_room_in, next_slot, with_placed, with_freed, SlotsAreApart, DescriptorsAreReusedInOrder};
ghost use Rattle.frame_slots.specs.Refinement.{IsOldest, AllocatorRefinesSession};

use ivs_base::up64;
use section_map::LARGEST_REGION;
use split_ring::{Queue, queues_are_laid_out};
use std::marker::Model;

/// The place of a frame: a descriptor, and the start of its slot or of its bytes of the byte ring.
#[derive(Clone, Copy, Debug, PartialEq, Eq)]
pub struct Slot {
    /// The number of the descriptor.
    pub descriptor: u32,
    /// The offset in bytes, from the start of the section, at which the frame begins.
    pub address: u32,
}

/// The name of `Slot` in the public interface.
pub type Place = Slot;

/// The descriptors of a section, with their slots or, in a byte ring, with the bytes of each frame.
/// Frames are freed in the order in which they were placed.
#[derive(Clone, Copy, Debug)]
pub struct Slots {
    queue: Queue,
    next: u32,
    in_flight: u32,
    head: u32,
    tail: u32,
    left: u32,
}

impl Model for Slots {
    ghost use Rattle.frame_slots.specs.Allocator.{Allocator, IsAllocator};

    ghost Value = { Allocator };

    ghost view = { λ s. record { sizes = s.queue; next = s.next; in_flight = s.in_flight; head = s.head; tail = s.tail; left = s.left } };

    ghost invariant = { λ s. IsAllocator (record { sizes = s.queue; next = s.next; in_flight = s.in_flight; head = s.head; tail = s.tail; left = s.left }) };

    ghost inverse = { λ t. record { queue = t.sizes; next = t.next; in_flight = t.in_flight; head = t.head; tail = t.tail; left = t.left } };
}

impl Slots {
    /// Returns the slots of a section of this queue, with no frame in flight.
    // claim with Slots::reset, Slots::in_flight.count, Slots::in_flight.bounds: New slots, and
    //    slots that begin anew, have no frame in flight.
    pub fn new(queue: &Queue) -> Slots
        ensures { result ≡ initial_allocator queue.now }
    {
        prove!(queue.limit() > 0);
        Slots {
            queue: *queue,
            next: 0,
            in_flight: 0,
            head: 0,
            tail: 0,
            left: 0,
        }
    }

    /// Allocates the next descriptor for a frame of `len` bytes, and its bytes of the section.
    /// Returns `None` if the frame doesn't fit: the limit of frames in flight is reached or, in a
    /// byte ring, its footprint isn't free.
    // claim taken: A frame gets the next descriptor with that descriptor's slot. In a byte ring it
    //    gets the bytes after those of the newest frame, or those at the start of the area if they
    //    would pass its end. Nothing changes if the limit in flight is reached or these bytes are
    //    not free.
    // claim known, alone: The descriptor is one of the queue, and is not in flight.
    // claim room: A placed frame ends inside the section.
    pub fn place(&mut self, len: u32) -> Option<Slot>
        requires least { SHORTEST_FRAME ≤ len }
        requires most { len ≤ self.old.sizes.mtu + FRAME_OVERHEAD }
        ensures taken { MatchOption result ((has_room_in self.old len ≡ false) × (self.new ≡ self.old))
            (λ slot. (has_room_in self.old len ≡ true) × (slot ≡ next_slot self.old len) ×
            (self.new ≡ with_placed self.old len)) }
        ensures known { IfSome result (λ slot. slot.descriptor < limit_of self.old.sizes) }
        ensures alone { IfSome result (λ slot. ¬ IsInFlight self.old slot.descriptor) }
        ensures room { IfSome result (λ slot. slot.address + len ≤ self.old.sizes.out) }
    {
        if !self.has_room(len) {
            return None;
        }
        let slot = self.slot_for(len);
        self.add(len);
        Some(slot)
    }

    /// Returns the descriptor of the oldest frame in flight.
    // claim with Slots::free: Frames are freed in the order in which they were placed.
    pub fn oldest(&self) -> u32
        requires { 0 < self.now.in_flight }
        ensures { result ≡ oldest_of self.now }
    {
        let limit = self.queue.limit();
        (self.next + limit - self.in_flight) % limit
    }

    /// Frees the oldest frame in flight, which has `len` bytes.
    pub fn free(&mut self, len: u32)
        requires { IsOldest self.old len }
        ensures { self.new ≡ with_freed self.old len }
    {
        let bytes = ring_bytes(&self.queue, len);
        let end = self.head + bytes;
        self.head = if self.tail <= self.head && end == self.left {
            0
        } else {
            end
        };
        self.in_flight -= 1;
    }

    /// Returns the number of frames in flight.
    pub fn in_flight(&self) -> u32
        ensures count { result ≡ self.now.in_flight }
        ensures bounds { IsAllocator self.now }
    {
        self.in_flight
    }

    /// Resets the allocator: no frame is in flight.
    pub fn reset(&mut self)
        ensures { self.new ≡ initial_allocator self.old.sizes }
    {
        self.next = 0;
        self.in_flight = 0;
        self.head = 0;
        self.tail = 0;
        self.left = 0;
    }

    /// Whether another frame of `len` bytes fits.
    fn has_room(&self, len: u32) -> bool
        requires { len ≤ self.now.sizes.mtu + FRAME_OVERHEAD }
        ensures value { result ≡ has_room_in self.now len }
        ensures bounds { IsAllocator self.now }
    {
        let room = self.queue.room();
        let bytes = ring_bytes(&self.queue, len);
        self.in_flight < self.queue.limit()
            && (self.in_flight == 0 || are_free(room, self.head, self.tail, bytes))
    }

    /// Returns the slot that the next frame of `len` bytes gets.
    fn slot_for(&self, len: u32) -> Slot
        requires { len ≤ self.now.sizes.mtu + FRAME_OVERHEAD }
        ensures value { result ≡ next_slot self.now len }
        ensures room { result.address + len ≤ self.now.sizes.out }
    {
        let descriptor = self.next;
        let room = self.queue.room();
        let address = if self.queue.is_byte_ring() {
            let bytes = ring_bytes(&self.queue, len);
            self.queue.payload() + start_after(room, self.tail, bytes)
        } else {
            self.queue.payload() + self.queue.slot() * descriptor
        };
        Slot {
            descriptor,
            address,
        }
    }

    /// Adds a frame of `len` bytes at that slot.
    fn add(&mut self, len: u32)
        requires most { len ≤ self.old.sizes.mtu + FRAME_OVERHEAD }
        requires room { has_room_in self.old len ≡ true }
        ensures { self.new ≡ with_placed self.old len }
    {
        let room = self.queue.room();
        let bytes = ring_bytes(&self.queue, len);
        let start = start_after(room, self.tail, bytes);
        self.head = if self.in_flight == 0 {
            start
        } else {
            self.head
        };
        self.left = if self.tail + bytes <= room {
            self.left
        } else {
            self.tail
        };
        self.tail = start + bytes;
        self.next = (self.next + 1) % self.queue.limit();
        self.in_flight += 1;
    }
}

/// Returns the number of bytes of the byte ring that a frame of `len` bytes occupies: 0 with slots.
fn ring_bytes(queue: &Queue, len: u32) -> u32
    requires { ring_bytes queue.now len ≤ data_area_len queue.now }
    ensures value { result ≡ ring_bytes queue.now len }
    ensures fits { result ≤ data_area_len queue.now }
{
    prove!(queue.room() < LARGEST_REGION);
    if queue.is_byte_ring() {
        up64(u64::from(len)) as u32
    } else {
        0
    }
}

/// Returns the start of `bytes` bytes that follow a frame that ended at byte `ended` of an area of
/// `room` bytes.
fn start_after(room: u32, ended: u32, bytes: u32) -> u32
    requires { ended + bytes < 2 ^ 32 }
    ensures { result ≡ start_after room ended bytes }
{
    if ended + bytes <= room { ended } else { 0 }
}

/// Whether `bytes` free bytes of the byte ring follow the newest frame. Assumes that at least one
/// frame is in flight.
fn are_free(room: u32, head: u32, tail: u32, bytes: u32) -> bool
    requires { tail + bytes < 2 ^ 32 }
    ensures { result ≡ bytes_are_free room head tail bytes }
{
    if tail <= head {
        tail + bytes <= head
    } else {
        tail + bytes <= room || bytes <= head
    }
}

/// Law: the slots of two descriptors share no byte.
// claim: The slots of two descriptors share no byte.
pub fn slots_are_apart()
    ensures { SlotsAreApart }
{}

/// Law: a placed descriptor joins those in flight, and the oldest one leaves them at its free.
// claim: The descriptors in flight are those placed and not freed.
pub fn descriptors_are_reused_in_order()
    ensures { DescriptorsAreReusedInOrder }
{}

/// Law: the allocator's numbers refine the frames of a session: they determine whether a frame
/// fits, and its place.
// claim: A frame is placed exactly if it fits in the session that the slots represent, with the
//    descriptor and the byte of its number there. The slots then represent the frames in flight, as
//    frames are placed and freed.
pub fn allocator_refines_session()
    ensures { AllocatorRefinesSession }
{}
