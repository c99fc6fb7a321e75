//! Layouts, ranges and faults of a few sections.
ghost use Rattle.std.specs.Prelude.{◌≤◌, ◌^◌};

use split_ring::steps::{Note, Notes};
use split_ring::{
    FieldName, Queue, QueueFault, Refused, frames_are_laid_out, need_event, queue_size_is_greatest,
    queues_are_laid_out,
};
use std::process::Abort;
use std::test::Fail;

/// The queue of the worked examples: sections of 16,384 bytes and an MTU of 256.
fn example(rt: &impl Abort) -> Queue {
    Queue::of(16_384, 256).expect(rt, "a queue")
}

fn refused(field: FieldName, value: u64) -> Refused {
    Refused { field, value }
}

/// The size of a section, an MTU, and the fault. The MTU is checked before the size, and the size
/// before the slot.
const FAULTS: [(u64, u32, QueueFault); 7] = [
    (16_384, 255, QueueFault::BadMtu(255)),
    (12_288, 256, QueueFault::TooSmall(12_288)),
    (
        16_384,
        16_384,
        QueueFault::NoSlot {
            slot: 16_448,
            room: 14_592,
        },
    ),
    (
        16_384,
        65_535,
        QueueFault::NoSlot {
            slot: 65_600,
            room: 14_592,
        },
    ),
    (16_384, 65_536, QueueFault::BadMtu(65_536)),
    (0, 0, QueueFault::BadMtu(0)),
    (4_096, 65_535, QueueFault::TooSmall(4_096)),
];

// claim split_ring.Queue.of.queue
#[test]
fn geometry_and_queue(rt: HostRuntime) {
    for (out, mtu, fault) in FAULTS {
        assert!(rt; out <= 16_384);
        assert!(rt; Queue::of(out, mtu).err() == Some(fault), "{out} {mtu}");
    }
}

#[test]
fn versions(rt: HostRuntime) {
    let first = example(&rt);
    assert_eq!(rt; first.version(), 1);
    assert!(rt; !first.has_events());
    assert_eq!(rt; first.room(), 14_592);
    let second = Queue::of_version(2, 520_192, 256).expect(&rt, "a queue");
    assert_eq!(rt; second.version(), 2);
    assert!(rt; second.has_events());
    assert_eq!(rt; second.room(), 466_816);
    assert!(rt; !second.is_byte_ring());
    let third = Queue::of_version(3, 16_384, 256).expect(&rt, "a queue");
    assert!(rt; third.has_events());
    assert!(rt; third.is_byte_ring());
    assert_eq!(rt; (third.size(), third.limit()), (64, 64));
    assert_eq!(rt;
        Queue::of_version(2, 16_384, 255).err(),
        Some(QueueFault::BadMtu(255))
    );
}

/// Compares the queue size, the used ring's offset, and the sizes of the rings and the data area of
/// a section.
fn layout_is(rt: &impl Abort, out: u64, mtu: u32, want: (u32, u32, u32, u32))
    requires { out ≤ 2 ^ 24 }
{
    let queue = Queue::of(out, mtu).expect(rt, "a queue");
    let (size, used, payload, room) = want;
    assert_eq!(rt; queue.size(), size);
    assert_eq!(rt; u64::from(queue.used_word()) * 4, u64::from(used));
    assert_eq!(rt; queue.payload(), payload);
    assert_eq!(rt; queue.out() - queue.payload(), room);
    assert_eq!(rt; u64::from(queue.out()), out);
    assert_eq!(rt; queue.mtu(), mtu);
}

// claim split_ring.Queue.of.queue
// claim split_ring.queue_size_is_greatest
// claim split_ring.Queue.descriptor.place
#[test]
fn two_layouts(rt: HostRuntime) {
    layout_is(&rt, 16_384, 256, (64, 1_216, 1_792, 14_592));
    layout_is(&rt, 520_192, 256, (2_048, 36_928, 53_376, 466_816));
}

fn slots_are(rt: &impl Abort, out: u64, mtu: u32, slot: u32, limit: u32)
    requires { out ≤ 2 ^ 24 }
{
    let queue = Queue::of(out, mtu).expect(rt, "a queue");
    assert_eq!(rt; queue.slot(), slot);
    assert_eq!(rt; queue.limit(), limit);
}

// claim split_ring.Queue.descriptor.place
#[test]
fn slots_in_flight(rt: HostRuntime) {
    slots_are(&rt, 16_384, 256, 320, 45);
    slots_are(&rt, 520_192, 256, 320, 1_458);
    slots_are(&rt, 520_192, 16_384, 16_448, 28);
    slots_are(&rt, 520_192, 65_535, 65_600, 7);
}

#[test]
fn words_of_the_fields(rt: HostRuntime) {
    let queue = example(&rt);
    let _ = queue.size();
    assert_eq!(rt; queue.descriptor(63), 252);
    assert_eq!(rt; queue.avail_word(), 256);
    for (position, entry, id) in [
        (0, 257, 305),
        (1, 257, 307),
        (2, 258, 309),
        (63, 288, 431),
        (64, 257, 305),
    ] {
        assert_eq!(rt; queue.entry_word(position), entry);
        assert_eq!(rt; queue.used_id(position), id);
    }
    assert_eq!(rt; queue.used_event_word(), 289);
    assert_eq!(rt; queue.used_word(), 304);
    assert_eq!(rt; queue.avail_event_word(), 433);
    assert_eq!(rt; queue.payload(), 4 * 448);
}

// claim split_ring.Queue.check_avail.inside
#[test]
fn bounds_of_the_index_checks(rt: HostRuntime) {
    let queue = example(&rt);
    let cases = [
        (queue.check_avail(65_535, 63), Ok(64)),
        (
            queue.check_avail(65_535, 64),
            Err(refused(FieldName::AvailIndex, 64)),
        ),
        (queue.check_used(65_535, 1, 2), Ok(2)),
        (
            queue.check_used(65_535, 2, 2),
            Err(refused(FieldName::UsedIndex, 2)),
        ),
        (queue.check_entry(63), Ok(63)),
        (
            queue.check_entry(64),
            Err(refused(FieldName::AvailEntry, 64)),
        ),
    ];
    for (got, want) in cases {
        assert_eq!(rt; got, want);
    }
    let cases = [
        (queue.check_id(7, 7), Ok(())),
        (queue.check_id(0, 7), Err(refused(FieldName::UsedId, 7))),
    ];
    for (got, want) in cases {
        assert_eq!(rt; got, want);
    }
}

/// An address, and whether a descriptor may have it.
const ADDRESSES: [(u32, bool); 5] = [
    (1_792, true),
    (16_380, true),
    (1_788, false),
    (1_794, false),
    (16_384, false),
];

/// A length, and whether the frame at address 1,792 may have it.
const LENGTHS: [(u32, bool); 5] = [
    (14, true),
    (14_592, true),
    (13, false),
    (14_593, false),
    (u32::MAX, false),
];

// claim split_ring.Queue.check_avail.inside
#[test]
fn bounds_of_the_descriptor_checks(rt: HostRuntime) {
    let queue = example(&rt);
    for (address, is_good) in ADDRESSES {
        let refusal = refused(FieldName::DescAddress, u64::from(address));
        let want = if is_good { Ok(address) } else { Err(refusal) };
        assert!(rt;
            queue.check_address(u64::from(address)) == want,
            "{address}"
        );
    }
    let far = refused(FieldName::DescAddress, 4_294_969_088);
    assert!(rt; queue.check_address(4_294_969_088) == Err(far));
    for (length, is_good) in LENGTHS {
        let refusal = refused(FieldName::DescLength, u64::from(length));
        let want = if is_good { Ok(length) } else { Err(refusal) };
        assert!(rt; queue.check_length(1_792, length) == want, "{length}");
    }
    let flag = refused(FieldName::DescFlags, 1);
    for (flags, want) in [(0, Ok(())), (1, Err(flag))] {
        assert!(rt; queue.check_flags(flags) == want, "{flags}");
    }
}

// claim split_ring.Queue.check_avail.inside
#[test]
fn longest_frame(rt: HostRuntime) {
    let queue = Queue::of(520_192, 65_535).expect(&rt, "a queue");
    assert_eq!(rt; queue.check_length(53_376, 65_553), Ok(65_553));
    assert_eq!(rt;
        queue.check_length(53_376, 65_554),
        Err(refused(FieldName::DescLength, 65_554))
    );
}

// claim split_ring.need_event
// claim history_laws.wakes_are_rung
#[test]
fn events(rt: HostRuntime) {
    let table = [
        (5, 6, 5, true),
        (6, 6, 5, false),
        (65_535, 0, 65_535, true),
        (4, 6, 5, false),
    ];
    for (event, new, old, asked) in table {
        assert_eq!(rt; need_event(event, new, old), asked);
    }
}

#[test]
fn laws_and_texts(rt: HostRuntime) -> Result<(), Fail> {
    queue_size_is_greatest();
    queues_are_laid_out();
    frames_are_laid_out();
    let mut notes = Notes::new();
    notes.push(Note::default());
    assert_eq!(rt; notes.as_slice(), [Note::Over].as_slice());
    let text = format!(in rt.alloc(); "{}", QueueFault::BadMtu(255))?;
    assert_eq!(rt; text.as_str(), "an MTU of 255 is not 256 to 65535");
    Ok(())
}
