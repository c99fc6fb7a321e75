//! The fault of the image of a region, and the right bytes there, in words.

use crate::places::from_place;
use crate::size_words::{Sizes, sizes_words};
use byteorder::{ByteOrder, LittleEndian};
use program_edge::{Reason, Refusal};
use section_dump::HEADER_LEN;
use section_map::{LEAST_PEERS, MOST_PEERS};
use std::alloc::{AllocError, Global};

/// The 32-bit number at a place; 0 if the image ends before it.
fn number_at(image: &[u8], place: u64) -> u64 {
    let bytes = from_place(image, place);
    if bytes.len() < 4 {
        return 0;
    }
    u64::from(LittleEndian::read_u32(bytes))
}

/// The 64-bit number at a place; 0 if the image ends before it.
fn long_number_at(image: &[u8], place: u64) -> u64 {
    let bytes = from_place(image, place);
    if bytes.len() < 8 {
        return 0;
    }
    LittleEndian::read_u64(bytes)
}

/// The sizes in the header.
fn sizes_of(image: &[u8]) -> Sizes {
    Sizes {
        peers: number_at(image, 8),
        table: number_at(image, 12),
        common: long_number_at(image, 16),
        out: long_number_at(image, 24),
    }
}

/// Why the bytes begin with no header.
fn header_words(alloc: Global, image: &[u8]) -> Result<String, AllocError> {
    let size = image.len();
    if size == 0 {
        return format!(in alloc; "nothing was read: the image comes on standard input\n");
    }
    if !image.starts_with(b"IVSHMIMG") {
        return format!(in alloc;
            "an image begins with `IVSHMIMG`, which is 495653484d494d47: write the header of {HEADER_LEN} bytes before the region's bytes\n"
        );
    }
    format!(in alloc;
        "the header has {HEADER_LEN} bytes, and there are {size}: write the peers, the three sizes and then the region's bytes\n"
    )
}

/// Why the header's sizes make no region.
fn geometry_words(alloc: Global, image: &[u8]) -> Result<String, AllocError> {
    let sizes = sizes_of(image);
    let peers = sizes.peers;
    if !(u64::from(LEAST_PEERS)..=u64::from(MOST_PEERS)).contains(&peers) {
        return format!(in alloc;
            "the header has {peers} peers, with the lowest byte first: {LEAST_PEERS} to {MOST_PEERS} are due\n"
        );
    }
    sizes_words(alloc, sizes)
}

/// The bytes that the header requires.
fn need_words(alloc: Global, image: &[u8], need: u64) -> Result<String, AllocError> {
    let Sizes {
        peers,
        table,
        common,
        out,
    } = sizes_of(image);
    format!(in alloc;
        "the header asks for {need} bytes (header {HEADER_LEN}, table {table}, common {common}, {peers} sections of {out})"
    )
}

/// The fault of the image, in words.
pub fn image_words(alloc: Global, image: &[u8], refusal: Refusal) -> Result<String, AllocError> {
    match refusal.reason {
        Reason::BadHeader => header_words(alloc, image),
        Reason::BadGeometry => geometry_words(alloc, image),
        Reason::ShortImage { need, found } => {
            let asked = need_words(alloc, image, need)?;
            format!(in alloc;
                "{asked}, and there are {found}: take the image of the whole region, or mend the sizes in the header\n"
            )
        }
        Reason::LongImage { need, found } => {
            let asked = need_words(alloc, image, need)?;
            format!(in alloc;
                "{asked}, and there are {found}: take out what comes after them, or mend the sizes in the header\n"
            )
        }
        _ => format!(in alloc; "the image is refused\n"),
    }
}
