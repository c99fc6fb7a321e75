//! Values from outside: the tables of the device's documents and the worked configuration.

ghost use Rattle.pci_space.specs.Wiring.{IsWiring};

use pci_space::{
    BadAccess, CapabilityFault, ConfigSpace, Field, FieldFault, FieldTable, Found, MsixFound,
    Wiring, device_space, walk,
};
use section_map::Geometry;
use std::test::Fail;

/// Returns the space of a device of the worked configuration, with this protocol.
fn space_of(protocol: u16, wiring: Wiring) -> Result<ConfigSpace, Fail>
    requires { IsWiring wiring }
{
    let geometry = Geometry::new(2, 4096, 0, 16384)?;
    Ok(device_space(&geometry, protocol, wiring))
}

/// Returns the space of a device of the worked configuration.
fn worked_space(wiring: Wiring) -> Result<ConfigSpace, Fail>
    requires { IsWiring wiring }
{
    space_of(1, wiring)
}

/// Returns all bytes of a space.
fn bytes_of(space: &ConfigSpace) -> Result<[u8; 256], Fail> {
    let mut bytes = [0; 256];
    for k in 0..256u16 {
        bytes[usize::from(k)] = space.read(k, 1)?.to_le_bytes()[0];
    }
    Ok(bytes)
}

/// An offset, a width, a value that is written, and what is read then.
const WRITES: [(u16, u16, u32, u32); 6] = [
    (0x04, 4, 0xFFFF_FFFF, 0x0010_040E),
    (0x10, 4, 0xFFFF_FFFF, 0xFFFF_F000),
    (0x43, 1, 0xFF, 1),
    (0x62, 2, 0xFFFF, 0xC001),
    (0x00, 2, 0, 0x110A),
    (0xF0, 4, 0xFFFF_FFFF, 0),
];

/// Offsets and widths that no access has.
const NO_ACCESS: [(u16, u16); 6] = [
    (0x00, 3),
    (0x02, 4),
    (0xFF, 2),
    (0x01, 2),
    (0x100, 1),
    (0x00, 0),
];

/// Whether this access is refused, for a read and for a write.
#[must_use]
fn is_refused(space: &mut ConfigSpace, offset: u16, width: u16) -> bool {
    let refused = BadAccess { offset, width };
    let is_one = space.read(offset, width) == Err(refused);
    is_one && space.write(offset, width, 0) == Err(refused)
}

// claim pci_space.Space.read.value
// claim pci_space.Space.write.written
// claim pci_space.Space.read.allowed
#[test]
fn reads_and_writes(rt: HostRuntime) -> Result<(), Fail> {
    let mut space = worked_space(Wiring::Msix(2))?;
    assert!(rt; space.read(0x00, 4) == Ok(1090916618));
    for (offset, width, value, reads) in WRITES {
        let is_written = space.write(offset, width, value).is_ok();
        assert!(rt;
            is_written && space.read(offset, width) == Ok(reads),
            "at {offset}"
        );
    }
    for (offset, width) in NO_ACCESS {
        assert!(rt; is_refused(&mut space, offset, width), "at {offset}");
    }
    space.reset();
    assert!(rt; space.read(0x10, 4) == Ok(0));
    assert!(rt; space.read(0x43, 1) == Ok(0));
    Ok(())
}

/// Returns a field of these values, without a mask.
fn field(place: u16, width: u16, reset: u64) -> Field {
    Field {
        place,
        width,
        reset,
        mask: 0,
    }
}

// claim pci_space.FieldTable.of.sound
#[test]
fn tables_with_faults(rt: HostRuntime) {
    for (second, fault) in [
        (field(6, 2, 0), FieldFault::Overlap(1, 0)),
        (field(8, 3, 0), FieldFault::BadWidth(1)),
        (field(8, 1, 256), FieldFault::TooWide(1)),
        (field(254, 4, 0), FieldFault::Outside(1)),
    ] {
        assert_eq!(rt;
            FieldTable::of([field(4, 4, 0), second], 256).err(),
            Some(fault)
        );
    }
    let first = [field(0, 3, 0), field(0, 2, 0)];
    assert_eq!(rt;
        FieldTable::of(first, 256).err(),
        Some(FieldFault::BadWidth(0))
    );
}

/// The first 128 bytes of the configuration space of each wiring. All others are 0.
const SPACES: [(Wiring, [[u8; 16]; 8]); 2] = [
    (
        Wiring::Msix(2),
        [
            *b"\x0a\x11\x06\x41\x00\x00\x10\x00\x00\x01\x00\xff\x00\x00\x00\x00",
            [0; 16],
            [0; 16],
            *b"\x00\x00\x00\x00\x40\x00\x00\x00\x00\x00\x00\x00\x00\x00\x00\x00",
            *b"\x09\x60\x20\x00\x00\x10\x00\x00\x00\x00\x00\x00\x00\x00\x00\x00",
            *b"\x00\x40\x00\x00\x00\x00\x00\x00\x00\x00\x00\x00\x01\x00\x00\x00",
            *b"\x11\x00\x01\x00\x01\x00\x00\x00\x01\x08\x00\x00\x00\x00\x00\x00",
            [0; 16],
        ],
    ),
    (
        Wiring::Intx,
        [
            *b"\x0a\x11\x06\x41\x00\x00\x10\x00\x00\x01\x00\xff\x00\x00\x00\x00",
            [0; 16],
            [0; 16],
            *b"\x00\x00\x00\x00\x40\x00\x00\x00\x00\x00\x00\x00\x00\x01\x00\x00",
            *b"\x09\x00\x20\x00\x00\x10\x00\x00\x00\x00\x00\x00\x00\x00\x00\x00",
            *b"\x00\x40\x00\x00\x00\x00\x00\x00\x00\x00\x00\x00\x01\x00\x00\x00",
            [0; 16],
            [0; 16],
        ],
    ),
];

// claim pci_space.Space.read.value
// claim pci_space.device_space.rows
// claim ivshm_cli.ivshm.complete
// claim ivshm_cli.ivshm.cause
#[test]
fn configuration(rt: HostRuntime) -> Result<(), Fail> {
    for (wiring, lines) in SPACES {
        let bytes = bytes_of(&worked_space(wiring)?)?;
        for (k, byte) in bytes.iter().enumerate() {
            let expected = if k < 128 { lines[k / 16][k % 16] } else { 0 };
            assert!(rt; *byte == expected, "byte {k}");
        }
    }
    Ok(())
}

// claim pci_space.walk
// claim pci_space.walk_finds_the_device
#[test]
fn finds_the_device(rt: HostRuntime) -> Result<(), Fail> {
    let found = Found {
        protocol: 1,
        one_shot: false,
        table: 4096,
        common: 0,
        out: 16384,
        base: Some(1 << 32),
        msix: Some(MsixFound {
            vectors: 2,
            table: 1,
            pending: 0x801,
        }),
    };
    let mut bytes = bytes_of(&worked_space(Wiring::Msix(2))?)?;
    assert_eq!(rt; walk(&bytes), Ok(found));
    // A pointer's low two bits don't count, and one-shot mode is a bit of Privileged Control.
    bytes[0x34] = 0x43;
    bytes[0x43] = 1;
    assert_eq!(rt;
        walk(&bytes).ok(),
        Some(Found {
            one_shot: true,
            ..found
        })
    );
    // The shorter vendor capability has no base.
    bytes[0x42] = 0x18;
    bytes[0x43] = 0;
    assert_eq!(rt;
        walk(&bytes).ok(),
        Some(Found {
            base: None,
            ..found
        })
    );
    // Other capabilities are skipped, and the list may go to lower offsets.
    bytes[0x41] = 0x80;
    bytes[0x80] = 0x10;
    bytes[0x81] = 0;
    assert_eq!(rt;
        walk(&bytes).ok(),
        Some(Found {
            base: None,
            msix: None,
            ..found
        })
    );
    Ok(())
}

/// A walk finds the protocol of sampling ports, 4001h.
#[test]
fn finds_the_protocol_of_ports(rt: HostRuntime) -> Result<(), Fail> {
    let bytes = bytes_of(&space_of(0x4001, Wiring::Msix(2))?)?;
    assert_eq!(rt; walk(&bytes).map(|found| found.protocol), Ok(16385));
    Ok(())
}

const OTHER: CapabilityFault = CapabilityFault::NotThisDevice {
    vendor: 0x110B,
    device: 0x4106,
};

/// Bytes that are changed, each with its offset, and the fault of the walk.
const BAD_SPACES: [([(u8, u8); 3], CapabilityFault); 12] = [
    ([(0x00, 0x0B), (0x0B, 0), (0x06, 0)], OTHER),
    (
        [(0x0B, 0x02), (0x06, 0), (0x34, 0)],
        CapabilityFault::BadClass(2),
    ),
    (
        [(0x06, 0xEF), (0x34, 0x3C), (0x41, 0)],
        CapabilityFault::NoVendor,
    ),
    ([(0x34, 0), (0x41, 0), (0x42, 0)], CapabilityFault::NoVendor),
    (
        [(0x34, 0x3C), (0x41, 0), (0x42, 0)],
        CapabilityFault::OutOfSpace(0x3C),
    ),
    (
        [(0x41, 0x40), (0x60, 0), (0x61, 0)],
        CapabilityFault::Loop(64),
    ),
    (
        [(0x61, 0x40), (0x43, 0), (0x43, 0)],
        CapabilityFault::Loop(64),
    ),
    (
        [(0x42, 0x19), (0x41, 0x40), (0x43, 0)],
        CapabilityFault::BadVendorLength(0x19),
    ),
    (
        [(0x34, 0xF0), (0xF0, 0x09), (0xF2, 0x19)],
        CapabilityFault::BadVendorLength(0x19),
    ),
    (
        [(0x34, 0xF0), (0xF0, 0x09), (0xF2, 0x20)],
        CapabilityFault::OutOfSpace(0xF0),
    ),
    (
        [(0x41, 0xF8), (0xF8, 0x11), (0xF9, 0x40)],
        CapabilityFault::OutOfSpace(0xF8),
    ),
    (
        [(0x34, 0x60), (0x61, 0), (0x40, 0)],
        CapabilityFault::NoVendor,
    ),
];

// claim pci_space.walk
#[test]
fn faults_of_a_walk(rt: HostRuntime) -> Result<(), Fail> {
    let whole = bytes_of(&worked_space(Wiring::Msix(2))?)?;
    for (changes, fault) in BAD_SPACES {
        let mut bytes = whole;
        for (place, byte) in changes {
            bytes[usize::from(place)] = byte;
        }
        assert!(rt; walk(&bytes) == Err(fault));
    }
    Ok(())
}
