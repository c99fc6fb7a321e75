//! The results of a walk over configuration bytes, and its faults.
use thiserror::Error;

/// The MSI-X capability that a walk found. The low three bits of the two words are the number of a
/// Base Address Register. The other bits are the offset in its window.
#[derive(Clone, Copy, Debug, PartialEq, Eq)]
pub struct MsixFound {
    /// The number of vectors, 1 to 2,048.
    pub vectors: u32,
    /// Base Address Register and offset of the MSI-X table.
    pub table: u32,
    /// Base Address Register and offset of the Pending Bit Array.
    pub pending: u32,
}

/// The device that a walk found.
#[derive(Clone, Copy, Debug, PartialEq, Eq)]
pub struct Found {
    /// The protocol: the Interface in the low byte, the Sub-Class in the high one.
    pub protocol: u16,
    /// Whether Privileged Control enables one-shot mode.
    pub one_shot: bool,
    /// Bytes of the State Table.
    pub table: u32,
    /// Bytes of the Read/Write section.
    pub common: u64,
    /// Bytes of an output section.
    pub out: u64,
    /// The Base Address, if the vendor capability is long enough to have one.
    pub base: Option<u64>,
    /// The first MSI-X capability, if there is one.
    pub msix: Option<MsixFound>,
}

/// Why a walk finds no device.
#[derive(Clone, Copy, Debug, PartialEq, Eq, Error)]
pub enum CapabilityFault {
    /// Vendor and Device ID are those of another device.
    #[error("device {vendor:04x}:{device:04x} is another")]
    NotThisDevice {
        /// The Vendor ID as read.
        vendor: u16,
        /// The Device ID as read.
        device: u16,
    },
    /// The Base Class is not FFh.
    #[error("base class {0:02x} isn't ff")]
    BadClass(u8),
    /// The pointer is below 40h, or the capability at the pointer ends after the space.
    #[error("the capability at {0:02x} leaves the space")]
    OutOfSpace(u16),
    /// The list has the pointer twice.
    #[error("the list comes back to {0:02x}")]
    Loop(u16),
    /// The length of the vendor capability is neither 18h nor 20h.
    #[error("a vendor capability of {0} bytes")]
    BadVendorLength(u8),
    /// The device has no list, or its list ends without a vendor capability.
    #[error("no vendor capability")]
    NoVendor,
}

/// The fields of the vendor capability.
#[derive(Clone, Copy, Debug, PartialEq, Eq)]
pub(crate) struct Vendor {
    /// Whether Privileged Control enables one-shot mode.
    pub one_shot: bool,
    /// Bytes of the State Table.
    pub table: u32,
    /// Bytes of the common section.
    pub common: u64,
    /// Bytes of each output section.
    pub out: u64,
    /// The region's base address, if the capability has one.
    pub base: Option<u64>,
}

/// The findings in the list so far.
#[derive(Clone, Copy, Debug, PartialEq, Eq)]
pub(crate) struct Listed {
    /// Its first vendor capability.
    pub vendor: Option<Vendor>,
    /// Its first MSI-X capability.
    pub msix: Option<MsixFound>,
}
