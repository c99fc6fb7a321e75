//! The reasons for which a section has no queue.
use thiserror::Error;

/// The reason for which an output section and an MTU have no queue.
#[derive(Clone, Copy, Debug, PartialEq, Eq, Error)]
pub enum QueueFault {
    /// The MTU, which isn't 256 to 65,535.
    #[error("an MTU of {0} is not 256 to 65535")]
    BadMtu(u32),
    /// The length in bytes of the section, in which no queue size from 64 to 4,096 fits.
    #[error("no queue fits a section of {0} bytes")]
    TooSmall(u64),
    /// A slot is longer than the data area.
    #[error("a slot of {slot} bytes does not fit a data area of {room} bytes")]
    NoSlot {
        /// The length in bytes of a slot.
        slot: u64,
        /// The length in bytes of the data area.
        room: u64,
    },
}
