//! The fault of a capture file, and the right bytes there, in words.

use crate::places::{captured_in, from_place, packet_at};
use byteorder::{BigEndian, ByteOrder, LittleEndian};
use frame_capture::{HEADER_LEN, LONGEST_CAPTURED, MOST_ACTS, PACKET_HEADER_LEN};
use program_edge::{Place, Reason, Refusal, TEXT_LIMIT};
use std::alloc::{AllocError, Global};

/// Whether the numbers of the file have their lowest byte first.
fn is_little(file: &[u8]) -> bool {
    file.starts_with(b"\xd4\xc3\xb2\xa1")
}

/// The 16-bit number at a place, in the byte order of the file; 0 if the file ends before it.
fn short_number_at(file: &[u8], place: u64) -> u16 {
    let bytes = from_place(file, place);
    if bytes.len() < 2 {
        0
    } else if is_little(file) {
        LittleEndian::read_u16(bytes)
    } else {
        BigEndian::read_u16(bytes)
    }
}

/// The 32-bit number at a place, in the byte order of the file; 0 if the file ends before it.
fn number_at(file: &[u8], place: u64) -> u32 {
    let bytes = from_place(file, place);
    if bytes.len() < 4 {
        0
    } else if is_little(file) {
        LittleEndian::read_u32(bytes)
    } else {
        BigEndian::read_u32(bytes)
    }
}

/// Why the file begins with no magic number: what else it may be, and how it becomes a capture
/// file.
fn magic_words(alloc: Global, file: &[u8]) -> Result<String, AllocError> {
    let kind = if file.starts_with(b"\x0a\x0d\x0d\x0a") {
        "this is a pcapng file: `editcap -F pcap FILE NEW` makes a classic one of it"
    } else if file.starts_with(b"\x4d\x3c\xb2\xa1") || file.starts_with(b"\xa1\xb2\x3c\x4d") {
        "the times of this file count nanoseconds: `editcap -F pcap FILE NEW` makes one with microseconds of it"
    } else if file.starts_with(b"\x1f\x8b") {
        "this is compressed: `gunzip` unpacks it"
    } else {
        "write the capture with `tcpdump -w FILE`"
    };
    format!(in alloc; "a capture file begins with d4c3b2a1 or a1b2c3d4; {kind}\n")
}

/// The fault of the file's header, in words.
fn header_words(alloc: Global, file: &[u8], reason: Reason) -> Result<String, AllocError> {
    match reason {
        Reason::Short if file.is_empty() => {
            format!(in alloc; "nothing was read: the capture file comes on standard input\n")
        }
        Reason::Short => {
            let size = file.len();
            format!(in alloc;
                "a capture file begins with a header of {HEADER_LEN} bytes, and there are {size}: capture anew, since the file is cut\n"
            )
        }
        Reason::BadMagic => magic_words(alloc, file),
        Reason::BadVersion => {
            let major = short_number_at(file, 4);
            let minor = short_number_at(file, 6);
            format!(in alloc;
                "the version is {major}.{minor}: 2.4 is due, which `editcap -F pcap FILE NEW` writes\n"
            )
        }
        Reason::BadLinkType => {
            let link = number_at(file, 20);
            format!(in alloc;
                "the link type is {link}: 1 is due, which is Ethernet, so capture at an Ethernet interface and not at `any`\n"
            )
        }
        _ => format!(in alloc;
            "the scenario of this capture would have more than {MOST_ACTS} acts or {TEXT_LIMIT} bytes: take fewer packets, as by `editcap -r FILE NEW 1-10000`\n"
        ),
    }
}

/// The fault of the packet with this number, in words.
fn packet_words(alloc: Global, file: &[u8], number: u64) -> Result<String, AllocError> {
    let packet = packet_at(file, number);
    let left = packet.len();
    if left < PACKET_HEADER_LEN {
        return format!(in alloc;
            "packet {number} begins with {PACKET_HEADER_LEN} bytes of its own, and {left} are left: take it out, since the file is cut\n"
        );
    }
    let captured = captured_in(file, packet);
    if captured > LONGEST_CAPTURED as u64 {
        return format!(in alloc;
            "packet {number} has {captured} captured bytes, by its third number: 0 to {LONGEST_CAPTURED} are due\n"
        );
    }
    let found = left - PACKET_HEADER_LEN;
    format!(in alloc;
        "packet {number} has {captured} captured bytes, by its third number, and {found} are left: take it out, since the file is cut\n"
    )
}

/// The fault of the capture file, in words.
pub fn capture_words(alloc: Global, file: &[u8], refusal: Refusal) -> Result<String, AllocError> {
    match refusal.place {
        Place::Packet(number) => packet_words(alloc, file, number),
        _ => header_words(alloc, file, refusal.reason),
    }
}
