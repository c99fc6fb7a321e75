//! Descriptors, slots and the bytes of a ring in several rounds.
ghost use Rattle.std.specs.Prelude.{◌≡◌, ◌+◌, ◌<◌, ◌≤◌, true};
ghost use Rattle.frame_slots.specs.Allocator.{has_room_in, with_placed};

use frame_slots::{
    Slot, Slots, allocator_refines_session, descriptors_are_reused_in_order, slots_are_apart,
};
use split_ring::Queue;
use std::process::Abort;

/// Returns the slot of descriptor `i` in a section of 16,384 bytes for an MTU of 256. Slots of 320
/// bytes begin at byte 1,792.
fn slot(i: u32) -> Option<Slot>
    requires { i < 45 }
{
    Some(Slot {
        descriptor: i,
        address: 1_792 + 320 * i,
    })
}

/// Places a frame of `len` bytes, which must be at byte `address` of the section.
fn places(rt: &impl Abort, slots: &mut Slots, len: u32, address: u32)
    requires least { 14 ≤ len }
    requires most { len ≤ slots.old.sizes.mtu + 18 }
    ensures room { has_room_in slots.old len ≡ true }
    ensures turn { slots.new ≡ with_placed slots.old len }
{
    let slot = slots.place(len).expect(rt, "room");
    assert_eq!(rt; slot.address, address);
}

/// Checks that a frame of `len` bytes doesn't fit.
fn has_none(rt: &impl Abort, slots: &mut Slots, len: u32)
    requires least { 14 ≤ len }
    requires most { len ≤ slots.old.sizes.mtu + 18 }
    ensures { slots.new ≡ slots.old }
{
    if slots.place(len).is_some() {
        panic!(rt; "a frame of {len} bytes has room");
    }
}

// claim frame_slots.Slots.place.taken
#[test]
fn descriptors_go_round(rt: HostRuntime) {
    let queue = Queue::of(16_384, 256).expect(&rt, "a queue");
    let mut slots = Slots::new(&queue);
    for i in 0..45 {
        assert_eq!(rt; slots.in_flight(), i);
        places(&rt, &mut slots, 274, 1_792 + 320 * i);
    }
    has_none(&rt, &mut slots, 14);
    assert_eq!(rt; slots.in_flight(), 45);
    assert_eq!(rt; slots.oldest(), 0);
    slots.free(274);
    slots.free(274);
    assert_eq!(rt; slots.in_flight(), 43);
    assert_eq!(rt; slots.oldest(), 2);
    assert_eq!(rt; slots.place(60), slot(0));
    assert_eq!(rt; slots.place(60), slot(1));
    assert_eq!(rt; slots.place(60), None);
    slots.reset();
    assert_eq!(rt; slots.in_flight(), 0);
    assert_eq!(rt; slots.place(14), slot(0));
    descriptors_are_reused_in_order();
    slots_are_apart();
    allocator_refines_session();
}

/// Frames of 14 bytes have a footprint of 64 bytes, so 228 of them fill the area of 14,592 bytes.
// claim frame_slots.Slots.place.taken
#[test]
fn frames_go_round_the_ring(rt: HostRuntime) {
    let queue = Queue::of_version(3, 16_384, 256).expect(&rt, "a queue");
    let mut slots = Slots::new(&queue);
    for i in 0..65_600 {
        places(&rt, &mut slots, 14, 1_792 + 64 * (i % 228));
        assert_eq!(rt; slots.oldest(), i % 64);
        slots.free(14);
    }
}

/// Frames of 274 bytes have a footprint of 320 bytes: after 45 of them 192 bytes are free, and
/// after one of 14 bytes 128.
// claim frame_slots.Slots.place.taken
#[test]
fn ring_is_full(rt: HostRuntime) {
    let queue = Queue::of_version(3, 16_384, 256).expect(&rt, "a queue");
    let mut slots = Slots::new(&queue);
    for i in 0..45 {
        places(&rt, &mut slots, 274, 1_792 + 320 * i);
    }
    has_none(&rt, &mut slots, 274);
    places(&rt, &mut slots, 14, 16_192);
    has_none(&rt, &mut slots, 274);
    slots.free(274);
    places(&rt, &mut slots, 274, 1_792);
    has_none(&rt, &mut slots, 14);
    slots.free(274);
    places(&rt, &mut slots, 14, 2_112);
    assert_eq!(rt; slots.in_flight(), 46);
    slots.reset();
    places(&rt, &mut slots, 14, 1_792);
}

/// A frame may have the length of the area.
// claim frame_slots.Slots.place.taken
#[test]
fn frame_fills_the_area(rt: HostRuntime) {
    let queue = Queue::of_version(3, 16_384, 14_574).expect(&rt, "a queue");
    let mut slots = Slots::new(&queue);
    for _ in 0..3 {
        places(&rt, &mut slots, 14_592, 1_792);
        has_none(&rt, &mut slots, 14);
        slots.free(14_592);
    }
    places(&rt, &mut slots, 14, 1_792);
}
