//! The capture of the frames that a history delivers.
ghost use Rattle.std.specs.Prelude.{◌≡◌, ◌+◌, ◌^◌, ◌<◌, ◌≤◌, ◌++◌, All, IfOk, OnOk, length};
ghost use Rattle.frame_capture.specs.CaptureFile.{AreShort};
ghost use Rattle.frame_capture.specs.Deliveries.{packet_of, line_packets, capture_of, IsShortLine};

use crate::packets::{Capture, Packet, Packets};
use crate::reading::LONGEST_CAPTURED;
use ivs_base::{Frame, NoMemory};
use lawful_history::Line;
use record_text::Trace;
use std::alloc::Global;

/// Returns the packet of a frame that line `number` delivers. Both lengths of the packet are the
/// frame's.
fn packet(alloc: Global, number: u32, frame: &Frame) -> Result<Packet, NoMemory>
    requires { length frame.now ≤ LONGEST_CAPTURED }
    ensures { IfOk result (λ packet. packet ≡ packet_of number frame.now) }
{
    let bytes = frame.bytes();
    Ok(Packet {
        seconds: number / 1_000_000,
        micros: number % 1_000_000,
        original: bytes.len() as u32,
        frame: Frame::of(alloc, bytes)?,
    })
}

/// Appends the packet of the line, if it delivers a frame to the peer.
fn put_line(
    alloc: Global,
    packets: &mut Packets,
    peer: u32,
    number: u32,
    line: &Line,
) -> Result<(), NoMemory>
    requires { IsShortLine line.now }
    ensures { OnOk result (packets.new ≡ packets.old ++ line_packets peer number line.now) }
{
    if let Line::Deliver {
        peer: receiver,
        frame,
    } = line
    {
        if *receiver == peer {
            packets.push(packet(alloc, number, frame)?)?;
        }
    }
    Ok(())
}

/// Returns the capture of what the history delivers to `peer`, 0 or 1: a packet for each frame, in
/// their order. The packet's time is the number of the line, from 1, in microseconds. Returns
/// `NoMemory` if an allocation fails.
// claim capture, short with frames_are_delivered: The capture of a history has the frames that the
//    peer delivered, in order, each at the time of its line's number.
pub fn captured(alloc: Global, trace: &Trace, peer: u32) -> Result<Capture, NoMemory>
    requires peer { peer < 2 }
    requires few { length trace.now.lines < 2 ^ 32 }
    requires short { All IsShortLine trace.now.lines }
    ensures capture { IfOk result (λ capture. capture ≡ capture_of peer trace.now.lines) }
    // The capture can be printed.
    ensures short { IfOk result (λ capture. AreShort capture.packets) }
{
    let lines = trace.lines.items();
    let mut packets = Packets::new(alloc);
    for (index, line) in lines.iter().enumerate() {
        put_line(alloc, &mut packets, peer, index as u32 + 1, line)?;
    }
    Ok(Capture {
        snaplen: LONGEST_CAPTURED as u32,
        packets,
    })
}
