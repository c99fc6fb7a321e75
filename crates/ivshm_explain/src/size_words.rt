//! Why sizes make no region or no queue, and why a text has no end, in words.

use crate::shapes::Grammar;
use crate::texts::{FaultyText, first_word};
use split_ring::{FRAME_OVERHEAD, LEAST_MTU, MOST_MTU};
use std::alloc::{AllocError, Global};

/// The bytes of a page.
const PAGE: u64 = section_map::PAGE as u64;

/// The most bytes of a region.
const REGION: u64 = section_map::LARGEST_REGION as u64;

/// Why a size isn't a number of whole pages; nothing if it is.
fn page_words(
    alloc: Global,
    name: &str,
    size: u64,
    least: u64,
) -> Result<Option<String>, AllocError> {
    if size % PAGE != 0 {
        let words = format!(in alloc;
            "`{name} {size}` is due to be whole pages of {PAGE} bytes\n"
        )?;
        return Ok(Some(words));
    }
    if size < least {
        let words = format!(in alloc;
            "`{name} {size}` is due to be a page of {PAGE} bytes or more\n"
        )?;
        return Ok(Some(words));
    }
    Ok(None)
}

/// The number of peers of a region, and the bytes of its parts.
#[derive(Clone, Copy)]
pub struct Sizes {
    pub peers: u64,
    pub table: u64,
    pub common: u64,
    pub out: u64,
}

/// Why these sizes make no region.
pub fn sizes_words(alloc: Global, sizes: Sizes) -> Result<String, AllocError> {
    let Sizes {
        peers,
        table,
        common,
        out,
    } = sizes;
    for (name, size, least) in [
        ("table", table, PAGE),
        ("common", common, 0),
        ("out", out, PAGE),
    ] {
        if let Some(words) = page_words(alloc, name, size, least)? {
            return Ok(words);
        }
    }
    let need = peers.saturating_mul(4);
    if table < need {
        return format!(in alloc;
            "`table {table}` has no word for each of {peers} peers: {need} bytes or more are due\n"
        );
    }
    let total = table
        .saturating_add(common)
        .saturating_add(peers.saturating_mul(out));
    format!(in alloc;
        "the region would have {total} bytes (table {table}, common {common}, {peers} sections of {out}): {REGION} are the most\n"
    )
}

/// Why the sizes up to the line `out` make no region.
fn region_words(alloc: Global, text: &FaultyText) -> Result<String, AllocError> {
    let table = match text.grammar {
        Grammar::Ports => PAGE,
        _ => text.head_number(b"table"),
    };
    let sizes = Sizes {
        peers: text.peers(),
        table,
        common: text.head_number(b"common"),
        out: text.head_number(b"out"),
    };
    sizes_words(alloc, sizes)
}

/// Why no queue fits the output section at this MTU.
fn queue_words(alloc: Global, text: &FaultyText) -> Result<String, AllocError> {
    let mtu = text.head_number(b"mtu");
    let out = text.head_number(b"out");
    if mtu < u64::from(LEAST_MTU) || mtu > u64::from(MOST_MTU) {
        return format!(in alloc; "the MTU is {mtu}: {LEAST_MTU} to {MOST_MTU} is due\n");
    }
    if out < 16_384 {
        return format!(in alloc;
            "a section of {out} bytes has no room for a queue: `out 16384` or more is due\n"
        );
    }
    let frame = mtu.saturating_add(FRAME_OVERHEAD);
    format!(in alloc;
        "a frame of {frame} bytes (mtu + {FRAME_OVERHEAD}) doesn't fit the data area of a section of {out} bytes: a smaller MTU or a greater `out` is due\n"
    )
}

/// Why no port fits the section at this length of messages.
fn message_words(alloc: Global, text: &FaultyText) -> Result<String, AllocError> {
    let most = text.head_number(b"message");
    let out = text.head_number(b"out");
    if most < 4 || most > 65_536 || most % 4 != 0 {
        return format!(in alloc;
            "messages of {most} bytes at most: a multiple of 4 from 4 to 65536 is due\n"
        );
    }
    let need = most.saturating_mul(2).saturating_add(12);
    format!(in alloc;
        "two buffers for messages of {most} bytes need {need} bytes, and a section has {out}: a greater `out` or a smaller `message` is due\n"
    )
}

/// Why the sizes of the line with this number don't fit.
pub fn bad_geometry_words(
    alloc: Global,
    text: &FaultyText,
    number: u64,
) -> Result<String, AllocError> {
    match first_word(text.line(number)) {
        b"mtu" => queue_words(alloc, text),
        b"message" => message_words(alloc, text),
        _ => region_words(alloc, text),
    }
}

/// Why the text has no end.
pub fn no_end_words(alloc: Global, text: &FaultyText) -> Result<String, AllocError> {
    let due = match text.grammar {
        Grammar::History => "`end COUNT`, with the number of history lines,",
        _ => "`end`",
    };
    if text.bytes.is_empty() {
        return format!(in alloc; "nothing was read: the text comes on standard input\n");
    }
    if !text.bytes.ends_with(b"\n") {
        return format!(in alloc;
            "the last line has no newline at its end, so it isn't one: a newline is due, and the last line is {due}\n"
        );
    }
    format!(in alloc; "every line is good, and the last one is missing: {due} is due\n")
}
