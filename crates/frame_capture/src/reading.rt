//! Reading a capture file.
ghost use Rattle.std.specs.Prelude.{◌≡◌, ◌≤◌, ◌++◌, ◌<◌, All, IfOk, IfErr, length, drop};
ghost use Rattle.frame_capture.specs.CaptureFile.{packet_bytes, packets_bytes, IsPacket, AreShort, IsCaptureFile};
ghost use Rattle.frame_capture.specs.Faults.{IsTooLong, IsCut, IsFirstBad, IsCaptureFault};
ghost use Rattle.frame_capture.specs.Reading.{StartsWith, IsDamage, fault_at, IsPacketsFault};

use crate::faults::CaptureFault;
use crate::order::Order;
use crate::packets::{Capture, Packet, Packets};
use byteorder::{ByteOrder, LittleEndian};
use ivs_base::{Frame, NoMemory};
use std::alloc::Global;
use thiserror::Error;

/// The length of the header before the packets, in bytes.
pub const HEADER_LEN: usize = 24;

/// The length of a packet's header before its frame, in bytes.
pub const PACKET_HEADER_LEN: usize = 16;

/// The most bytes of a frame that a packet may have here.
pub const LONGEST_CAPTURED: usize = 262_144;

/// Why bytes don't begin with a packet.
#[derive(Clone, Copy, Debug, Error)]
pub enum Damage {
    /// The captured length is above the most.
    #[error("the packet is too long")]
    TooLong,
    /// The bytes end inside the packet.
    #[error("the file ends inside the packet")]
    Cut,
    /// An allocation failed.
    #[error("out of memory")]
    NoMemory,
}

impl From<NoMemory> for Damage {
    ghost use Rattle.frame_capture.specs.declared.reading.Damage.TheVariants.{NoMemory as OutOfMemory};

    ghost from_gives = { λ _ e. e ≡ OutOfMemory };

    fn from(_e: NoMemory) -> Damage {
        Damage::NoMemory
    }
}

impl Damage {
    /// Returns the fault of packet `number`.
    fn at(self, number: u64) -> CaptureFault
        ensures { result ≡ fault_at self number }
    {
        match self {
            Damage::TooLong => CaptureFault::BadPacket(number),
            Damage::Cut => CaptureFault::CutPacket(number),
            Damage::NoMemory => CaptureFault::NoMemory,
        }
    }
}

/// Returns the packet at the start of these bytes.
fn read_packet(alloc: Global, order: Order, bytes: &[u8]) -> Result<Packet, Damage>
    requires { 0 < length bytes.now }
    ensures packet { IfOk result (λ p. StartsWith order p bytes.now) }
    ensures damage { IfErr result (IsDamage order bytes.now) }
{
    if bytes.len() < PACKET_HEADER_LEN {
        return Err(Damage::Cut);
    }
    let size = order.u32_at(bytes, 8) as usize;
    if size > LONGEST_CAPTURED {
        return Err(Damage::TooLong);
    }
    if bytes.len() < PACKET_HEADER_LEN + size {
        return Err(Damage::Cut);
    }
    let frame = Frame::of(alloc, &bytes[PACKET_HEADER_LEN..PACKET_HEADER_LEN + size])?;
    Ok(Packet {
        seconds: order.u32_at(bytes, 0),
        micros: order.u32_at(bytes, 4),
        original: order.u32_at(bytes, 12),
        frame,
    })
}

/// Returns the packets that these bytes are, up to their end.
fn read_packets(alloc: Global, order: Order, bytes: &[u8]) -> Result<Packets, CaptureFault>
    ensures each { IfOk result (λ ps. All IsPacket ps) }
    ensures spelled { IfOk result (λ ps. bytes.now ≡ packets_bytes order ps) }
    ensures fault { IfErr result (IsPacketsFault order bytes.now) }
{
    let mut all = Packets::new(alloc);
    let mut left = bytes;
    while !left.is_empty() {
        let packet = match read_packet(alloc, order, left) {
            Ok(packet) => packet,
            Err(damage) => return Err(damage.at(all.items().len() as u64 + 1)),
        };
        left = &left[PACKET_HEADER_LEN + packet.frame.bytes().len()..];
        all.push(packet)?;
    }
    Ok(all)
}

/// Returns the capture that a file holds.
///
/// Returns the first fault of the file otherwise: Short, BadMagic, BadVersion and BadLinkType, in
/// this order, and then the faults of each packet. A packet's faults are, in this order:
/// - CutPacket: its 16 bytes aren't all there.
/// - BadPacket: its captured length is above 262,144.
/// - CutPacket: the bytes of its frame aren't all there.
///
/// Zone and figures may have any value. The captured length may differ from the original one.
// claim file, short with file_is_of_one_capture: Bytes are read as a capture exactly if they are a
//    file of it, in either byte order. A file is of one capture.
// claim fault with faults_are_exact.no_file, faults_are_exact.one: A fault is the first one in
//    reading order, with its numbers. Bytes have one answer.
pub fn parse(alloc: Global, bytes: &[u8]) -> Result<Capture, CaptureFault>
    ensures file { IfOk result (λ capture. IsCaptureFile capture bytes.now) }
    // The capture can be printed.
    ensures short { IfOk result (λ capture. AreShort capture.packets) }
    ensures fault { IfErr result (IsCaptureFault bytes.now) }
{
    if bytes.len() < HEADER_LEN {
        return Err(CaptureFault::Short(bytes.len() as u64));
    }
    let Some(order) = Order::of(bytes) else {
        return Err(CaptureFault::BadMagic(LittleEndian::read_u32(bytes)));
    };
    let major = order.u16_at(bytes, 4);
    let minor = order.u16_at(bytes, 6);
    if major != 2 || minor != 4 {
        return Err(CaptureFault::BadVersion { major, minor });
    }
    let link_type = order.u32_at(bytes, 20);
    if link_type != 1 {
        return Err(CaptureFault::BadLinkType(link_type));
    }
    let packets = read_packets(alloc, order, &bytes[HEADER_LEN..])?;
    Ok(Capture {
        snaplen: order.u32_at(bytes, 16),
        packets,
    })
}
