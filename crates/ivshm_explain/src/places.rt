//! The line of a text by its number, the bytes of a file by their place, and how they are shown.
ghost use Rattle.std.specs.Prelude.{◌≡◌, ◌<◌, ◌^◌, ◌++◌, [], OnOk, map, take, drop, slice_index_or};
ghost use Rattle.line_format.specs.Forms.{cuts};
ghost use Rattle.ivshm_explain.specs.Places.{line_at, visible, number_text, digits, bytes_text, captured_in, after_packets, packet_at, place_of};

use byteorder::{BigEndian, ByteOrder, LittleEndian};
use frame_capture::{HEADER_LEN, MAGIC, PACKET_HEADER_LEN};
use line_format::cut;
use program_edge::Place;
use std::alloc::{AllocError, Global};

/// The most bytes of a line that are shown.
const SHOWN: u64 = 160;

/// The piece of a text after as many newlines, and nothing if there are fewer.
fn piece(bytes: &[u8], before: u64) -> &[u8]
    ensures { result.now ≡ slice_index_or (cuts 10 bytes.now) before [] }
{
    let mut rest = bytes;
    let mut left = before;
    while left > 0 {
        match cut(b'\n', rest) {
            None => return &[],
            Some((_, more)) => rest = more,
        }
        left -= 1;
    }
    match cut(b'\n', rest) {
        None => rest,
        Some((line, _)) => line,
    }
}

/// The line with this number, from 1, without its newline. It is empty if the text has no such
/// line.
pub fn line_at(bytes: &[u8], number: u64) -> &[u8]
    ensures { result.now ≡ line_at bytes.now number }
{
    if number == 0 {
        return &[];
    }
    piece(bytes, number - 1)
}

/// A byte as a terminal shows it: `?` in place of one that a line can't have.
fn visible(byte: u8) -> u8
    ensures { result ≡ visible byte }
{
    if 32 <= byte && byte <= 126 {
        byte
    } else {
        b'?'
    }
}

/// Appends the first bytes of a line, at most those that are left.
fn put_shown(out: &mut Vec<u8>, line: &[u8], left: u64) -> Result<(), AllocError>
    ensures { OnOk result (out.new.items ≡ out.old.items ++ map visible (take left line.now)) }
{
    let [byte, rest @ ..] = line else {
        return Ok(());
    };
    if left == 0 {
        return Ok(());
    }
    out.push(visible(*byte))?;
    put_shown(out, rest, left - 1)
}

/// Appends the number of a line.
pub fn put_number(alloc: Global, out: &mut Vec<u8>, number: u64) -> Result<(), AllocError>
    ensures { OnOk result (out.new.items ≡ out.old.items ++ number_text number) }
{
    let front = format!(in alloc; "line {number}: ")?;
    out.extend_from_slice(front.as_bytes())?;
    Ok(())
}

/// Appends bytes as hexadecimal digits, or the words for the end of the file.
fn put_digits(alloc: Global, out: &mut Vec<u8>, some: &[u8]) -> Result<(), AllocError>
    ensures { OnOk result (out.new.items ≡ out.old.items ++ digits some.now) }
{
    if some.is_empty() {
        out.extend_from_slice(b"the end of the file")?;
        return Ok(());
    }
    let text = hex::encode(alloc, some)?;
    out.extend_from_slice(text.as_bytes())?;
    Ok(())
}

/// Appends the place of bytes, and the bytes.
fn put_bytes(alloc: Global, out: &mut Vec<u8>, first: u64, some: &[u8]) -> Result<(), AllocError>
    ensures { OnOk result (out.new.items ≡ out.old.items ++ bytes_text first some.now) }
{
    let front = format!(in alloc; "byte {first}: ")?;
    out.extend_from_slice(front.as_bytes())?;
    put_digits(alloc, out, some)?;
    out.push(b'\n')?;
    Ok(())
}

/// The bytes from a place on.
pub fn from_place(bytes: &[u8], place: u64) -> &[u8]
    ensures { result.now ≡ drop place bytes.now }
{
    if place >= bytes.len() as u64 {
        return &[];
    }
    &bytes[place as usize..]
}

/// The first bytes, as many at most.
fn first_of(bytes: &[u8], count: u64) -> &[u8]
    ensures { result.now ≡ take count bytes.now }
{
    if count >= bytes.len() as u64 {
        return bytes;
    }
    &bytes[..count as usize]
}

/// Returns the number of captured bytes of a packet, in the byte order of its file; 0 if the file
/// doesn't have them.
pub fn captured_in(file: &[u8], packet: &[u8]) -> u64
    ensures value { result ≡ captured_in file.now packet.now }
    ensures small { result < 2 ^ 32 }
{
    if file.len() < HEADER_LEN || packet.len() < 12 {
        0
    } else if LittleEndian::read_u32(file) == MAGIC {
        u64::from(LittleEndian::read_u32(&packet[8..]))
    } else {
        u64::from(BigEndian::read_u32(&packet[8..]))
    }
}

/// The bytes of a capture file after this number of packets.
#[tactic(auto, using(crate::proofs::Packets::one_packet))]
fn after_packets<'a>(file: &[u8], count: u64, left: &'a [u8]) -> &'a [u8]
    ensures { result.now ≡ after_packets file.now count left.now }
{
    let mut rest = left;
    let mut more = count;
    while more > 0 {
        rest = from_place(rest, PACKET_HEADER_LEN as u64 + captured_in(file, rest));
        more -= 1;
    }
    rest
}

/// A capture file from the packet with this number on, from 1.
pub fn packet_at(file: &[u8], number: u64) -> &[u8]
    ensures { result.now ≡ packet_at file.now number }
{
    let packets = from_place(file, HEADER_LEN as u64);
    after_packets(file, number.saturating_sub(1), packets)
}

/// Appends the place of a packet, and the 16 bytes before its frame.
fn put_packet(alloc: Global, out: &mut Vec<u8>, bytes: &[u8], number: u64) -> Result<(), AllocError>
    ensures { OnOk result (out.new.items ≡ out.old.items ++ place_of bytes.now (Place.Packet number)) }
{
    let packet = packet_at(bytes, number);
    let first = (bytes.len() as u64).saturating_sub(packet.len() as u64);
    let header = first_of(packet, PACKET_HEADER_LEN as u64);
    put_bytes(alloc, out, first, header)
}

/// Appends the number and the text of a line.
fn put_line(alloc: Global, out: &mut Vec<u8>, bytes: &[u8], number: u64) -> Result<(), AllocError>
    ensures { OnOk result (out.new.items ≡ out.old.items ++ place_of bytes.now (Place.Line number)) }
{
    put_number(alloc, out, number)?;
    put_shown(out, line_at(bytes, number), SHOWN)?;
    out.push(b'\n')?;
    Ok(())
}

/// Appends the faulty place and its contents.
pub fn put_place(
    alloc: Global,
    out: &mut Vec<u8>,
    bytes: &[u8],
    place: Place,
) -> Result<(), AllocError>
    ensures { OnOk result (out.new.items ≡ out.old.items ++ place_of bytes.now place) }
{
    match place {
        Place::Whole => Ok(()),
        Place::Line(number) => put_line(alloc, out, bytes, number),
        Place::Bytes { first, count } => {
            put_bytes(alloc, out, first, first_of(from_place(bytes, first), count))
        }
        Place::Packet(number) => put_packet(alloc, out, bytes, number),
    }
}
