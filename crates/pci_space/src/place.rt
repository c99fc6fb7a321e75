//! The place of a world's region, and the fields that depend on it.
ghost use Rattle.std.specs.Prelude.{◌≡◌, ℕ};
ghost use Rattle.pci_space.specs.declared.field.Field.{Field};
ghost use Rattle.pci_space.specs.Place.{IsRegionPlace, capability_length, place_row, usual_place};

use crate::field::Field;

/// The Base Address of the program's devices: 4 GiB (profile).
pub const USUAL_BASE: u64 = 0x1_0000_0000;

/// The place at which guests find the region of a world.
///
/// Each function that has a place as an argument requires that a window has 12 to 63 bits.
#[derive(Clone, Copy, Debug, PartialEq, Eq)]
pub enum RegionPlace {
    /// At this Base Address, in bytes, which the vendor capability states.
    Address(u64),
    /// At the start of the window of Base Address Register 2, a 64-bit register (PCI 3.0, 6.2.5.1).
    /// The number is that of the low bits of an address that are the offset in the window. The
    /// vendor capability has its short form, without a Base Address.
    Bar2(u32),
}

impl RegionPlace {
    /// Returns the place of the program's devices.
    pub const fn usual() -> RegionPlace
        ensures { result ≡ usual_place }
    {
        RegionPlace::Address(USUAL_BASE)
    }

    /// Returns the length of the vendor capability, in bytes.
    pub(crate) fn capability_length(self) -> u64
        ensures { result ≡ capability_length self }
    {
        match self {
            RegionPlace::Address(_) => 0x20,
            RegionPlace::Bar2(_) => 0x18,
        }
    }

    /// Returns the row of the region's place.
    pub(crate) fn row(self) -> Field
        requires { IsRegionPlace self }
        ensures { result ≡ place_row self }
    {
        match self {
            RegionPlace::Address(base) => Field {
                place: 0x58,
                width: 8,
                reset: base,
                mask: 0,
            },
            RegionPlace::Bar2(bits) => Field {
                place: 0x18,
                width: 8,
                reset: 0xC,
                mask: u64::MAX - ((1 << bits) - 1),
            },
        }
    }
}
