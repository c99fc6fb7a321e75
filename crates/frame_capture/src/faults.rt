//! Why bytes are no capture file.
ghost use Rattle.std.specs.Prelude.{◌≡◌};

use ivs_base::NoMemory;
use thiserror::Error;

/// Why bytes are no capture file that this crate reads. Packets are numbered from 1.
#[derive(Clone, Copy, Debug, PartialEq, Eq, Error)]
pub enum CaptureFault {
    /// The file has this number of bytes, fewer than 24.
    #[error("a capture file begins with 24 bytes, and there are {0}")]
    Short(u64),
    /// The first four bytes are the magic number in neither byte order. The first byte of the value
    /// is the lowest.
    #[error("the magic number {0} is none of a capture file")]
    BadMagic(u32),
    /// The version isn't 2.4.
    #[error("version {major}.{minor} isn't 2.4")]
    BadVersion { major: u16, minor: u16 },
    /// The link type isn't Ethernet's, 1.
    #[error("link type {0} isn't Ethernet")]
    BadLinkType(u32),
    /// More than 262,144 bytes of the packet were captured.
    #[error("packet {0} is too long")]
    BadPacket(u64),
    /// The file ends inside the packet.
    #[error("the file ends inside packet {0}")]
    CutPacket(u64),
    /// An allocation failed.
    #[error("out of memory")]
    NoMemory,
}

impl From<NoMemory> for CaptureFault {
    ghost use Rattle.frame_capture.specs.declared.faults.CaptureFault.TheVariants.{NoMemory as OutOfMemory};

    ghost from_gives = { λ _ e. e ≡ OutOfMemory };

    fn from(_e: NoMemory) -> CaptureFault {
        CaptureFault::NoMemory
    }
}
