//! Files, histories and scenarios by their bytes.
ghost use Rattle.std.specs.Prelude.{All, IsTrue};
ghost use Rattle.frame_capture.specs.Deliveries.{IsShortLine};

use frame_capture::{
    Capture, FeedFault, Packet, Packets, captured, faults_are_exact, file_is_of_one_capture,
    frames_are_delivered, parse, print, scenario_of,
};
use ivs_base::Frame;
use lawful_history::Line;
use std::alloc::Global;
use std::test::Fail;

/// The frame of the worked examples.
const FRAME: [u8; 14] = *b"\xff\xff\xff\xff\xff\xff\x02\x00\x00\x00\x00\x01\x08\x00";

/// A file with that frame, at 8,245 microseconds.
const LITTLE: [u8; 54] =
    *b"\xd4\xc3\xb2\xa1\x02\x00\x04\x00\x00\x00\x00\x00\x00\x00\x00\x00\x00\x00\x04\x00\x01\x00\x00\x00\
    \x00\x00\x00\x00\x35\x20\x00\x00\x0e\x00\x00\x00\x0e\x00\x00\x00\xff\xff\xff\xff\xff\xff\x02\x00\x00\x00\x00\x01\x08\x00";

/// The same file in the other byte order.
const BIG: [u8; 54] =
    *b"\xa1\xb2\xc3\xd4\x00\x02\x00\x04\x00\x00\x00\x00\x00\x00\x00\x00\x00\x04\x00\x00\x00\x00\x00\x01\
    \x00\x00\x00\x00\x00\x00\x20\x35\x00\x00\x00\x0e\x00\x00\x00\x0e\xff\xff\xff\xff\xff\xff\x02\x00\x00\x00\x00\x01\x08\x00";

/// Whether the packet is the one of these files.
fn is_the_packet(packet: &Packet) -> bool {
    let is_its_time = packet.seconds == 0 && packet.micros == 8_245;
    is_its_time && packet.original == 14 && packet.frame.bytes() == FRAME.as_slice()
}

/// Whether the file has that packet alone, and is printed again in the first byte order.
fn is_read(alloc: Global, file: &[u8]) -> Result<bool, Fail> {
    let capture = parse(alloc, file)?;
    let is_one = match capture.packets.items() {
        [packet] => is_the_packet(packet),
        _ => false,
    };
    let bytes = print(alloc, &capture)?;
    Ok(is_one && capture.snaplen == 262_144 && bytes.as_slice() == LITTLE.as_slice())
}

// claim frame_capture.parse.file
// claim frame_capture.print.printed
#[test]
fn one_packet_in_both_orders(rt: HostRuntime) -> Result<(), Fail> {
    for file in [LITTLE, BIG] {
        assert!(rt; is_read(rt.alloc(), &file)?);
    }
    file_is_of_one_capture();
    faults_are_exact();
    Ok(())
}

/// Whether the frame of the line is short enough for a packet.
fn is_short(line: &Line) -> bool
    ensures { IsTrue result → IsShortLine line.now }
{
    match line {
        Line::Deliver { frame, .. } => frame.bytes().len() <= 262_144,
        _ => true,
    }
}

/// Whether the frames of all lines are short enough.
fn are_short(lines: &[Line]) -> bool
    ensures { IsTrue result → All IsShortLine lines.now }
{
    lines.iter().all(|line| is_short(line))
}

/// Whether this is the capture file of what a record delivers to the peer.
fn is_file(alloc: Global, record: &[u8], peer: u32, file: &[u8]) -> Result<bool, Fail> {
    let trace = record_text::parse(alloc, record)?;
    let lines = trace.lines.items();
    if peer >= 2 || lines.len() >= 4_294_967_296 || !are_short(lines) {
        return Ok(false);
    }
    let capture = captured(alloc, &trace, peer)?;
    Ok(print(alloc, &capture)?.as_slice() == file)
}

/// A record with deliveries to peers 0, 1 and 2.
const DELIVERIES: &[u8] =
    b"record 1\nivshm 1\npeers 2\ntable 4096\ncommon 0\nout 16384\nmtu 256\nirq msix 2\npeer 0 honest\npeer 1 honest\nbegin\nend\n\
    deliver 1 0102\nidle 0\ndeliver 0 05\naccept 1 0506\ndeliver 1 ffffffffffff0200000000010800\ndeliver 2 07\nend 6\n";

/// The files of what it delivers to peers 0 and 1.
const DELIVERED: [&[u8]; 2] = [
    b"\xd4\xc3\xb2\xa1\x02\x00\x04\x00\x00\x00\x00\x00\x00\x00\x00\x00\x00\x00\x04\x00\x01\x00\x00\x00\
    \x00\x00\x00\x00\x03\x00\x00\x00\x01\x00\x00\x00\x01\x00\x00\x00\x05",
    b"\xd4\xc3\xb2\xa1\x02\x00\x04\x00\x00\x00\x00\x00\x00\x00\x00\x00\x00\x00\x04\x00\x01\x00\x00\x00\
    \x00\x00\x00\x00\x01\x00\x00\x00\x02\x00\x00\x00\x02\x00\x00\x00\x01\x02\
    \x00\x00\x00\x00\x05\x00\x00\x00\x0e\x00\x00\x00\x0e\x00\x00\x00\xff\xff\xff\xff\xff\xff\x02\x00\x00\x00\x00\x01\x08\x00",
];

// claim frame_capture.captured.capture
#[test]
fn what_a_history_delivers(rt: HostRuntime) -> Result<(), Fail> {
    for peer in 0..2u32 {
        let file = DELIVERED[peer as usize];
        assert!(rt; is_file(rt.alloc(), DELIVERIES, peer, file)?, "peer {peer}");
    }
    frames_are_delivered();
    Ok(())
}

/// A record up to its history.
const UP_TO_THE_HISTORY: &[u8] =
    b"record 1\nivshm 1\npeers 2\ntable 4096\ncommon 0\nout 16384\nmtu 256\nirq msix 2\npeer 0 honest\npeer 1 honest\nbegin\nend\n";

/// Returns a record of 2,000,006 idle lines and a delivery to peer 0.
fn long_record(alloc: Global) -> Result<Vec<u8>, Fail> {
    let mut record = UP_TO_THE_HISTORY.to_vec(alloc)?;
    for _ in 0..2_000_006 {
        record.extend_from_slice(b"idle 0\n")?;
    }
    record.extend_from_slice(b"deliver 0 ff\nend 2000007\n")?;
    Ok(record)
}

/// The file of what it delivers, at 2 seconds and 7 microseconds.
const WITH_SECONDS: &[u8] =
    b"\xd4\xc3\xb2\xa1\x02\x00\x04\x00\x00\x00\x00\x00\x00\x00\x00\x00\x00\x00\x04\x00\x01\x00\x00\x00\
    \x02\x00\x00\x00\x07\x00\x00\x00\x01\x00\x00\x00\x01\x00\x00\x00\xff";

// claim frame_capture.captured.capture
#[test]
fn lines_above_a_million_have_seconds(rt: HostRuntime) -> Result<(), Fail> {
    let record = long_record(rt.alloc())?;
    assert!(rt; is_file(rt.alloc(), &record, 0, WITH_SECONDS)?);
    Ok(())
}

/// Returns a capture of `count` frames of `size` bytes.
fn many(alloc: Global, count: u32, size: u32) -> Result<Capture, Fail> {
    let bytes = vec![in alloc; 0u8; size as usize]?;
    let mut packets = Packets::new(alloc);
    for number in 0..count {
        packets.push(Packet {
            seconds: 0,
            micros: number,
            original: size,
            frame: Frame::of(alloc, &bytes)?,
        })?;
    }
    Ok(Capture {
        snaplen: 65_535,
        packets,
    })
}

/// Whether this number of frames of this size is read as a scenario whose acts cost `cost`.
fn is_offered(alloc: Global, count: u32, size: u32, cost: u64) -> Result<bool, Fail> {
    let scenario = scenario_of(alloc, &many(alloc, count, size)?, 1)?;
    let mut all = 0u64;
    for act in scenario.acts.items() {
        all = all.saturating_add(act.cost());
    }
    Ok(all == cost)
}

/// Returns the number of acts of the scenario of these frames.
fn acts_of(alloc: Global, count: u32, size: u32) -> Result<usize, Fail> {
    let scenario = scenario_of(alloc, &many(alloc, count, size)?, 1)?;
    Ok(scenario.acts.items().len())
}

/// Whether this number of frames of this size is too much for a scenario.
fn is_too_large(alloc: Global, count: u32, size: u32) -> Result<bool, Fail> {
    let scenario = scenario_of(alloc, &many(alloc, count, size)?, 1);
    Ok(scenario.err() == Some(FeedFault::TooLarge))
}

/// The size of the frames, the most that fit into a scenario, and the number of its acts. One frame
/// more is too much.
const LIMITS: [(u32, u32, u64); 3] = [
    (14, 16_365, 3_998_367),
    (1_514, 1_992, 3_999_994),
    (16_402, 204, 3_984_206),
];

// claim frame_capture.scenario_of.made
#[test]
fn frames_give_rounds_and_acts_have_a_limit(rt: HostRuntime) -> Result<(), Fail> {
    let alloc = rt.alloc();
    for (size, most, acts) in LIMITS {
        assert!(rt; is_offered(alloc, most, size, acts)?, "{most} of {size}");
        let more = most.saturating_add(1);
        assert!(rt; is_too_large(alloc, more, size)?, "{more} of {size}");
    }
    // a longer frame isn't offered
    assert_eq!(rt; acts_of(alloc, 3, 16_403)?, 602);
    Ok(())
}
