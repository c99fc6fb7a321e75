//! The notes of a port after a step, and the faults of a port that can't be made.
ghost use Rattle.std.specs.Prelude.{◌≡◌};
ghost use Rattle.sampling_port.specs.declared.notes.PortFault.TheVariants.{NoMemory as OutOfMemory};

use std::alloc::AllocError;
use thiserror::Error;

/// Why a port wasn't made.
#[derive(Clone, Copy, Debug, PartialEq, Eq, Error)]
pub enum PortFault {
    /// The message size isn't a multiple of 4 from 4 to 65,536 bytes.
    #[error("messages of at most {0} bytes: a multiple of 4 from 4 to 65536 is allowed")]
    BadMessage(u32),
    /// The sections are too small for two messages. Sizes are in bytes.
    #[error("a port needs {need} bytes, and a section has {out}")]
    TooSmall { need: u64, out: u64 },
    /// An allocation failed.
    #[error("out of memory")]
    NoMemory,
}

impl From<AllocError> for PortFault {
    ghost from_gives = { λ _ e. e ≡ OutOfMemory };

    fn from(_e: AllocError) -> PortFault {
        PortFault::NoMemory
    }
}

/// A word of another peer's port that may be out of its range.
#[derive(Clone, Copy, Debug, PartialEq, Eq)]
pub enum PortField {
    /// The sequence: the number of the last message.
    Sequence,
    /// The length of a message, in bytes.
    Length,
}

/// The note of a port after a step.
#[derive(Clone, Copy, Debug, PartialEq, Eq)]
pub enum PortNote {
    /// The message with this number is published.
    Publish(u32),
    /// The message with this number was read whole.
    Got(u32),
    /// Nothing was published yet.
    Nothing,
    /// The sequence was the first number at the first look and the second number at the second
    /// look. The bytes read may be of two messages.
    Again(u32, u32),
    /// This value was refused, which ends the sample.
    Refuse { field: PortField, value: u32 },
}
