//! Polls, access by access.
ghost use Rattle.std.specs.Prelude.{◌≤◌};

use rx_engine::{Rx, idle_engine_outlives_steps};
use split_ring::steps::{Access, Note};
use split_ring::{FieldName, Queue, Refused};
use std::alloc::Global;
use std::process::Abort;
use std::test::Fail;

/// Returns the receiver of an end in the link of the worked examples, with sections of 16,384 bytes
/// and an MTU of 256. The own section begins at word `own`, the other's at word `other_start`.
fn example(
    rt: &impl Abort,
    alloc: Global,
    own: u32,
    other_start: u32,
    other: u32,
) -> Result<Rx, Fail>
    requires own { own ≤ 5120 }
    requires other_start { other_start ≤ 5120 }
{
    let queue = Queue::of(16_384, 256).expect(rt, "a queue");
    assert!(rt; queue.out() == 16_384);
    Ok(Rx::new(alloc, &queue, own, other_start, other, 1)?)
}

/// Makes one step of the open poll. Returns whether it has this access, the value that it returns,
/// and these notes.
#[must_use]
fn step(rx: &mut Rx, access: Access, value: u32, notes: &[Note]) -> bool {
    if !rx.busy() {
        return false;
    }
    if rx.next() != access {
        return false;
    }
    rx.took(value).as_slice() == notes
}

/// Makes reads of a frame's words at once: the first access, the bytes read, and the notes of the
/// last read.
#[must_use]
fn reads(rx: &mut Rx, access: Access, bytes: &[u8], notes: &[Note]) -> bool {
    if !rx.busy() {
        return false;
    }
    if rx.next() != access {
        return false;
    }
    if bytes.is_empty() || bytes.len() > 16 {
        return false;
    }
    if !bytes.len().is_multiple_of(4) {
        return false;
    }
    if bytes.len() > 4 * rx.reads_ahead() as usize {
        return false;
    }
    rx.took_reads(bytes).as_slice() == notes
}

/// One act of a receiver, or what it shows.
#[derive(Clone, Copy)]
enum Act {
    /// Opens a poll.
    Begin,
    /// Makes the next step: its access, the value that a read returns, and its notes.
    Takes(Access, u32, &'static [Note]),
    /// Makes reads at once: the first access, the bytes read, and the notes of the last read.
    Reads(Access, &'static [u8], &'static [Note]),
    /// Has no open poll.
    Idle,
    /// Shows the frame read last.
    Shows(&'static [u8]),
    Reset,
}

/// Makes an act. Returns whether all is as the act says.
#[must_use]
fn makes(rx: &mut Rx, act: Act) -> bool {
    match act {
        Act::Begin => begins(rx),
        Act::Takes(access, value, notes) => step(rx, access, value, notes),
        Act::Reads(access, bytes, notes) => reads(rx, access, bytes, notes),
        Act::Idle => !rx.busy(),
        Act::Shows(frame) => rx.frame() == frame,
        Act::Reset => {
            rx.reset();
            true
        }
    }
}

#[must_use]
fn begins(rx: &mut Rx) -> bool {
    if rx.busy() {
        return false;
    }
    rx.begin();
    true
}

/// Makes these acts of a receiver.
fn makes_all(rt: &impl Abort, rx: &mut Rx, acts: &[Act]) {
    for at in 0..acts.len() {
        assert!(rt; makes(rx, acts[at]), "act {at}");
    }
}

const FRAME: [u8; 14] = [
    0xff, 0xff, 0xff, 0xff, 0xff, 0xff, 0x02, 0, 0, 0, 0, 0x01, 0x08, 0,
];

const ONE_FRAME: [Act; 24] = [
    Act::Shows(&[]),
    Act::Begin,
    Act::Takes(Access::Read(1_280), 65_536, &[Note::Look(1)]),
    Act::Takes(Access::Read(1_281), 0, &[]),
    Act::Takes(Access::Read(1_024), 1_792, &[]),
    Act::Takes(Access::Read(1_025), 0, &[]),
    Act::Takes(Access::Read(1_026), 14, &[]),
    Act::Takes(Access::Read(1_027), 0, &[]),
    Act::Takes(Access::Read(1_472), 4_294_967_295, &[]),
    Act::Takes(Access::Read(1_473), 196_607, &[]),
    Act::Takes(Access::Read(1_474), 16_777_216, &[]),
    Act::Takes(Access::Read(1_475), 8, &[Note::Deliver]),
    Act::Shows(&FRAME),
    Act::Takes(Access::Write(5_425, 0), 0, &[]),
    Act::Takes(Access::Write(5_426, 1), 0, &[]),
    Act::Takes(Access::Write(5_424, 65_536), 0, &[Note::Return]),
    Act::Takes(
        Access::Ring {
            target: 0,
            vector: 1,
        },
        0,
        &[Note::Done],
    ),
    Act::Idle,
    Act::Begin,
    Act::Takes(Access::Read(1_280), 65_536, &[Note::Look(0), Note::Done]),
    Act::Idle,
    Act::Shows(&FRAME),
    Act::Reset,
    Act::Shows(&FRAME),
];

// claim rx_engine.Rx.new.value
// claim rx_engine.Rx.begin.refines
// claim rx_engine.Rx.next.access
// claim rx_engine.Rx.took.steps
// claim section_dump.dump.image
// claim section_dump.dump.listing
// claim ivshm_cli.ivshm.cause
#[test]
fn one_frame(rt: HostRuntime) -> Result<(), Fail> {
    let mut rx = example(&rt, rt.alloc(), 5_120, 1_024, 0)?;
    makes_all(&rt, &mut rx, &ONE_FRAME);
    idle_engine_outlives_steps();
    Ok(())
}

/// Makes a poll of peer 0 whose reads return these values. Returns whether it refuses the last of
/// them.
#[must_use]
fn refuses(rx: &mut Rx, values: &[u32], field: FieldName, value: u64) -> bool {
    if !begins(rx) {
        return false;
    }
    let words = [5_376, 5_377, 5_120, 5_121, 5_122, 5_123];
    for (at, (word, read)) in words.iter().zip(values).enumerate() {
        let access = Access::Read(*word);
        let is_made = if at + 1 == values.len() {
            let refused = Note::Refuse(Refused { field, value });
            step(rx, access, *read, &[refused])
        } else if at == 0 {
            step(rx, access, *read, &[Note::Look(1)])
        } else {
            step(rx, access, *read, &[])
        };
        if !is_made {
            return false;
        }
    }
    step(rx, Access::State(0), 0, &[Note::Over]) && !rx.busy()
}

const TWO_PIECES: [Act; 11] = [
    Act::Begin,
    Act::Takes(Access::Read(1_280), 65_536, &[Note::Look(1)]),
    Act::Takes(Access::Read(1_281), 0, &[]),
    Act::Takes(Access::Read(1_024), 1_792, &[]),
    Act::Takes(Access::Read(1_025), 0, &[]),
    Act::Takes(Access::Read(1_026), 14, &[]),
    Act::Takes(Access::Read(1_027), 0, &[]),
    Act::Reads(
        Access::Read(1_472),
        &[0xff, 0xff, 0xff, 0xff, 0xff, 0xff, 0x02, 0],
        &[],
    ),
    Act::Shows(&[]),
    Act::Reads(
        Access::Read(1_474),
        &[0, 0, 0, 0x01, 0x08, 0, 0, 0],
        &[Note::Deliver],
    ),
    Act::Shows(&FRAME),
];

/// The frame of one offer, whose words are read in two parts: the first two words, then the others.
// claim rx_engine.Rx.took_reads.steps
#[test]
fn a_frame_in_two_pieces(rt: HostRuntime) -> Result<(), Fail> {
    let mut rx = example(&rt, rt.alloc(), 5_120, 1_024, 0)?;
    makes_all(&rt, &mut rx, &TWO_PIECES);
    Ok(())
}

/// The values that the reads of a poll return, and the field and the value that it refuses.
const HOSTILE_VALUES: [(&[u32], FieldName, u64); 9] = [
    (&[4_259_840], FieldName::AvailIndex, 65),
    (&[65_536, 64], FieldName::AvailEntry, 64),
    (&[65_536, 0, 1_788, 0], FieldName::DescAddress, 1_788),
    (&[65_536, 0, 1_794, 0], FieldName::DescAddress, 1_794),
    (&[65_536, 0, 16_384, 0], FieldName::DescAddress, 16_384),
    (
        &[65_536, 0, 1_792, 1],
        FieldName::DescAddress,
        4_294_969_088,
    ),
    (&[65_536, 0, 1_792, 0, 13], FieldName::DescLength, 13),
    (
        &[65_536, 0, 1_792, 0, 14_593],
        FieldName::DescLength,
        14_593,
    ),
    (&[65_536, 0, 1_792, 0, 14, 1], FieldName::DescFlags, 1),
];

#[test]
fn hostile_values(rt: HostRuntime) -> Result<(), Fail> {
    let mut rx = example(&rt, rt.alloc(), 1_024, 5_120, 1)?;
    for (values, field, value) in HOSTILE_VALUES {
        assert!(rt; refuses(&mut rx, values, field, value), "{value}");
    }
    Ok(())
}
