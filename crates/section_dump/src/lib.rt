//! The listing of a region's image, as a debugger would print it: its sizes, the peers' states, and
//! the contents of the link's rings. Each item is listed as the frame that it spells, or as the
//! first field that a receiver would refuse. The crate uses `section_map` and `split_ring`, reads
//! words by `byteorder` and writes frames by `hex`. Its contract promises a listing exactly if the
//! bytes are an image, and that listing alone.
//!
//! # Design
//!
//! - A listing is a relation between an image and a text (`IsListing`). It has the lines of the
//!   header, the queue, the states, the sections and the end. Each line of a position is a frame
//!   that is spelled there (`Spells` of `split_ring`) or the first field that a poll would refuse
//!   (`IsFirstRefused`). The definitions don't follow the code's loops. That an image has one
//!   listing is a law (`listings_are_one`).
//! - Words are numbered from the image's start, and the header is the first eight of them.
//!   `section_words` gives the words of a peer's section.
//! - The ranges and the queue's size don't depend on the MTU, which an image doesn't have. The
//!   definitions and the code take the least MTU, for which a queue is refused exactly if no queue
//!   size fits.
//! - `dump` reads each word of the rings and each frame once, directly from the image.
// tested: `dump` succeeds with ample memory.
#![tactic(auto)]

mod images;
mod laws;
mod lines;
mod listing;
mod rings;

ghost use Rattle.std.specs.Prelude.{IfOk, IfErr};
ghost use Rattle.section_dump.specs.Image.{IsImage};
ghost use Rattle.section_dump.specs.Listing.{IsListing};
ghost use Rattle.section_dump.specs.Faults.{IsDumpFault};

use images::Header;
pub use images::{HEADER_LEN, LONGEST_IMAGE};
pub use laws::{cut_images_are_short, faults_are_exact, listings_are_one};
use section_map::{Geometry, GeometryFault};
use std::alloc::Global;
use thiserror::Error;

/// Why bytes have no listing.
#[derive(Clone, Copy, Debug, PartialEq, Eq, Error)]
pub enum DumpFault {
    /// There are fewer than 32 bytes, or the first eight aren't `IVSHMIMG`.
    #[error("the bytes begin with no header of an image")]
    BadHeader,
    /// No region has the sizes in the header.
    #[error("{0}")]
    Geometry(GeometryFault),
    /// The image ends before the region does. Lengths are in bytes.
    #[error("the image needs {need} bytes and has {found}")]
    ShortImage { need: u64, found: u64 },
    /// Bytes come after the region. Lengths are in bytes.
    #[error("the image has {need} bytes and {found} were given")]
    LongImage { need: u64, found: u64 },
    /// An allocation failed.
    #[error("out of memory")]
    NoMemory,
}

/// Returns the listing of an image: 32 bytes of header, and the region's bytes.
///
/// Returns the first fault otherwise: `BadHeader` if the header is incomplete or isn't one, and
/// `Geometry` if no region has its sizes. `ShortImage` and `LongImage` say that the image has too
/// few or too many bytes for the region.
// claim image, fault with faults_are_exact.no_image, faults_are_exact.one: Ok is returned exactly
//    for bytes that are an image. Each fault is returned exactly by its rule, with its values: the
//    header before the sizes before the length.
// claim listing with listings_are_one: The answer is the image's listing, and an image has one
//    listing. A section lists the positions from the other's used index to its own available index.
//    Each `frame` line is spelled by the section's words at its position, and each `bad` line names
//    the first field that a poll would refuse.
pub fn dump(alloc: Global, image: &[u8]) -> Result<Vec<u8>, DumpFault>
    ensures image { IfOk result (λ _. IsImage image.now) }
    ensures listing { IfOk result (λ text. IsListing image.now text.items) }
    ensures fault { IfErr result (IsDumpFault image.now) }
{
    let Some(header) = Header::read(image) else {
        return Err(DumpFault::BadHeader);
    };
    let geometry = match header.geometry() {
        Ok(geometry) => geometry,
        Err(fault) => return Err(DumpFault::Geometry(fault)),
    };
    let need = HEADER_LEN + 4 * u64::from(geometry.words());
    let found = image.len() as u64;
    if found < need {
        return Err(DumpFault::ShortImage { need, found });
    }
    if found > need {
        return Err(DumpFault::LongImage { need, found });
    }
    match listing::list(alloc, image, &header, &geometry) {
        Ok(text) => Ok(text.into_bytes()),
        Err(_) => Err(DumpFault::NoMemory),
    }
}
