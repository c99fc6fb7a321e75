//! Writing a capture file.
ghost use Rattle.std.specs.Prelude.{◌≡◌, ◌≤◌, ◌++◌, ◌^◌, ◌<◌, All, length, IfOk, OnOk};
ghost use Rattle.byteorder.specs.Endian.{little_bytes};
ghost use Rattle.frame_capture.specs.CaptureFile.{header_bytes, packet_bytes, packets_bytes, IsPacket, AreShort, IsCaptureFile};

use crate::order::{MAGIC, Order};
use crate::packets::{Capture, Packet};
use crate::reading::LONGEST_CAPTURED;
use byteorder::{ByteOrder, LittleEndian};
use ivs_base::NoMemory;
use std::alloc::{AllocError, Global};

/// Appends a 16-bit number.
fn put_u16(out: &mut Vec<u8>, number: u16) -> Result<(), AllocError>
    ensures { OnOk result (out.new.items ≡ out.old.items ++ little_bytes 2 number) }
{
    let mut bytes = [0; 2];
    LittleEndian::write_u16(&mut bytes, number);
    out.extend_from_slice(&bytes)
}

/// Appends a 32-bit number.
fn put_u32(out: &mut Vec<u8>, number: u32) -> Result<(), AllocError>
    ensures { OnOk result (out.new.items ≡ out.old.items ++ little_bytes 4 number) }
{
    let mut bytes = [0; 4];
    LittleEndian::write_u32(&mut bytes, number);
    out.extend_from_slice(&bytes)
}

/// Appends the header.
fn put_header(out: &mut Vec<u8>, snaplen: u32) -> Result<(), AllocError>
    ensures put { OnOk result (out.new.items ≡ out.old.items ++ header_bytes Order.Little 0 0 snaplen) }
    ensures fits { OnOk result (snaplen < 2 ^ 32) }
{
    put_u32(out, MAGIC)?;
    put_u16(out, 2)?;
    put_u16(out, 4)?;
    put_u32(out, 0)?;
    put_u32(out, 0)?;
    put_u32(out, snaplen)?;
    put_u32(out, 1)
}

/// Appends the packet.
fn put_packet(out: &mut Vec<u8>, packet: &Packet) -> Result<(), AllocError>
    requires { length packet.now.frame ≤ LONGEST_CAPTURED }
    ensures put { OnOk result (out.new.items ≡ out.old.items ++ packet_bytes Order.Little packet.now) }
    ensures fits { OnOk result (IsPacket packet.now) }
{
    let frame = packet.frame.bytes();
    put_u32(out, packet.seconds)?;
    put_u32(out, packet.micros)?;
    put_u32(out, frame.len() as u32)?;
    put_u32(out, packet.original)?;
    out.extend_from_slice(frame)
}

/// Appends the packets.
fn put_packets(out: &mut Vec<u8>, all: &[Packet]) -> Result<(), AllocError>
    requires { AreShort all.now }
    ensures put { OnOk result (out.new.items ≡ out.old.items ++ packets_bytes Order.Little all.now) }
    ensures fits { OnOk result (All IsPacket all.now) }
{
    for packet in all {
        put_packet(out, packet)?;
    }
    Ok(())
}

/// Returns the file of the capture in little-endian order, with zone and figures 0. Returns
/// `NoMemory` if an allocation fails.
// claim printed, file: What is written is a file of the capture, which is read again.
pub fn print(alloc: Global, capture: &Capture) -> Result<Vec<u8>, NoMemory>
    requires { AreShort capture.now.packets }
    ensures printed { IfOk result (λ bytes. bytes.items
        ≡ header_bytes Order.Little 0 0 capture.now.snaplen ++ packets_bytes Order.Little capture.now.packets) }
    ensures file { IfOk result (λ bytes. IsCaptureFile capture.now bytes.items) }
{
    let mut out = Vec::new(alloc);
    put_header(&mut out, capture.snaplen)?;
    put_packets(&mut out, capture.packets.items())?;
    Ok(out)
}
