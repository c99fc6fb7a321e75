//! The configuration space of the device.
ghost use Rattle.std.specs.Prelude.{◌≡◌, ℕ, ◌<◌, ◌^◌, List, Ok, slice_index};
ghost use Rattle.section_map.specs.Geometry.{Shape, IsShape};
ghost use Rattle.pci_space.specs.declared.found.Found.{Found};
ghost use Rattle.pci_space.specs.declared.found.CapabilityFault.{CapabilityFault};
ghost use Rattle.pci_space.specs.declared.wiring.Wiring.{Wiring};
ghost use Rattle.pci_space.specs.Fields.{reset_byte};
ghost use Rattle.pci_space.specs.Wiring.{IsWiring, if_msix, last_vector};
ghost use Rattle.pci_space.specs.declared.place.RegionPlace.{RegionPlace};
ghost use Rattle.pci_space.specs.Place.{IsRegionPlace};
ghost use Rattle.pci_space.specs.Device.{device_rows, placed_rows, found_of};
ghost use Rattle.pci_space.specs.Walk.{IsWalk};
ghost use Rattle.pci_space.specs.declared.sizes.TheConstants.{SPACE_LEN};

use crate::field::Field;
use crate::place::RegionPlace;
use crate::sizes::SPACE_LEN;
use crate::space::Space;
use crate::table::table_of;
use crate::wiring::Wiring;
use section_map::Geometry;

/// The configuration space of the device: 25 fields in 256 bytes.
pub type ConfigSpace = Space<25, SPACE_LEN>;

/// Rows of a table: place, width, reset value and mask; in brackets the row of the region's place.
macro_rules! rows {
    ($($place:literal $width:literal $reset:expr, $mask:expr;)* [$region:expr] $($after:literal $bytes:literal $first:expr, $bits:expr;)*) => {
        [
            $(Field { place: $place, width: $width, reset: $reset, mask: $mask },)*
            $region,
            $(Field { place: $after, width: $bytes, reset: $first, mask: $bits },)*
        ]
    };
}

/// Returns the configuration space of a device at reset, the same for every peer of a world. The
/// region is at the usual base address.
// claim rows, bytes with placed_space.rows, placed_space.bytes, RegionPlace::usual: The device's
//    space is the table of 25 rows, for every geometry, protocol, wiring and place of the region.
pub fn device_space(geometry: &Geometry, protocol: u16, wiring: Wiring) -> ConfigSpace
    requires { IsWiring wiring }
    ensures rows { result.rows ≡ device_rows geometry.now protocol wiring }
    ensures bytes { (k : ℕ) → slice_index result.bytes k ≡ reset_byte (device_rows geometry.now protocol wiring) k }
{
    placed_space(geometry, protocol, wiring, RegionPlace::usual())
}

/// Returns the configuration space of a device at reset whose region is at this place.
pub fn placed_space(
    geometry: &Geometry,
    protocol: u16,
    wiring: Wiring,
    region: RegionPlace,
) -> ConfigSpace
    requires wired { IsWiring wiring }
    requires placed { IsRegionPlace region }
    ensures rows { result.rows ≡ placed_rows geometry.now protocol wiring region }
    ensures bytes { (k : ℕ) →
        slice_index result.bytes k ≡ reset_byte (placed_rows geometry.now protocol wiring region) k }
{
    let table = table_of(
        rows_of(geometry, protocol, wiring, region),
        SPACE_LEN as u16,
    );
    Space::new(table)
}

/// Returns the fields of a device.
fn rows_of(geometry: &Geometry, protocol: u16, wiring: Wiring, region: RegionPlace) -> [Field; 25]
    requires wired { IsWiring wiring }
    requires placed { IsRegionPlace region }
    ensures rows { result ≡ placed_rows geometry.now protocol wiring region }
    ensures shape { IsShape geometry.now }
{
    rows! {
        0x00 2 0x110A, 0;
        0x02 2 0x4106, 0;
        0x04 2 0, 0x040E;
        0x06 2 0x0010, 0;
        0x08 1 0, 0;
        0x09 1 u64::from(protocol % 256), 0;
        0x0A 1 u64::from(protocol / 256), 0;
        0x0B 1 0xFF, 0;
        0x10 4 0, 0xFFFF_F000;
        0x14 4 0, wiring.choose(0xFFFF_F000, 0);
        0x34 1 0x40, 0;
        0x3D 1 wiring.choose(0, 1), 0;
        0x40 1 0x09, 0;
        0x41 1 wiring.choose(0x60, 0), 0;
        0x42 1 region.capability_length(), 0;
        0x43 1 0, 1;
        0x44 4 4 * u64::from(geometry.table_words()), 0;
        0x48 8 4 * u64::from(geometry.common_words()), 0;
        0x50 8 4 * u64::from(geometry.out_words()), 0;
        [region.row()]
        0x60 1 wiring.choose(0x11, 0), 0;
        0x61 1 0, 0;
        0x62 2 wiring.last_vector(), wiring.choose(0xC000, 0);
        0x64 4 wiring.choose(0x0000_0001, 0), 0;
        0x68 4 wiring.choose(0x0000_0801, 0), 0;
    }
}

/// Law: a walk over a device's configuration space at reset finds the device's geometry, protocol,
/// wiring and base address, for every place of its region.
// claim: A walk over the bytes of a device's space finds the sizes, protocol, wiring and base
//    address that the space was made of, or no base if the region is in the window of BAR 2.
pub fn walk_finds_the_device()
    ensures { (shape : Shape) (protocol : ℕ) (wiring : Wiring) (region : RegionPlace) (bytes : List ℕ) (answer : _) →
        IsShape shape → protocol < 2 ^ 16 → IsWiring wiring → IsRegionPlace region →
        ((k : ℕ) → k < SPACE_LEN → slice_index bytes k ≡ reset_byte (placed_rows shape protocol wiring region) k) →
        IsWalk bytes answer → answer ≡ Ok (found_of shape protocol wiring region) }
{}
