//! The limits of the device's configuration space and of its vectors.

/// The length in bytes of a configuration space.
pub const SPACE_LEN: usize = 256;

/// The greatest number of MSI-X vectors of a wiring (profile).
pub const MOST_VECTORS: u32 = 64;
