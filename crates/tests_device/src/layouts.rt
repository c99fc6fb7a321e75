//! Values from outside: the worked regions and the faults of their sizes.
ghost use Rattle.std.specs.Prelude.{◌≡◌};

use section_map::{Denied, Geometry, GeometryFault, Outside, Part, Region, Section};
use std::test::Fail;

/// The number of peers, the sizes of the State Table, of the common section and of an output
/// section, and the fault.
const FAULTS: [(u32, u32, u64, u64, GeometryFault); 8] = [
    (1, 4096, 0, 4096, GeometryFault::BadPeers(1)),
    (65_537, 0, 1, 0, GeometryFault::BadPeers(65_537)),
    (
        2,
        4097,
        0,
        4096,
        GeometryFault::BadPage {
            part: Part::Table,
            size: 4097,
        },
    ),
    (
        2,
        0,
        1,
        0,
        GeometryFault::BadPage {
            part: Part::Table,
            size: 0,
        },
    ),
    (
        2,
        4096,
        1,
        0,
        GeometryFault::BadPage {
            part: Part::Common,
            size: 1,
        },
    ),
    (
        2,
        4096,
        0,
        0,
        GeometryFault::BadPage {
            part: Part::Out,
            size: 0,
        },
    ),
    (
        1025,
        4096,
        0,
        4096,
        GeometryFault::TableTooSmall {
            need: 4100,
            found: 4096,
        },
    ),
    (
        2,
        4096,
        0,
        8_388_608,
        GeometryFault::TooLarge { bytes: 16_781_312 },
    ),
];

// claim section_map.Geometry.new.made
#[test]
fn faults_of_a_geometry(rt: HostRuntime) {
    for (peers, table, common, out, want) in FAULTS {
        let got = Geometry::new(peers, table, common, out);
        assert!(rt; got == Err(want), "{peers} {table} {common} {out}");
    }
}

// claim section_map.Geometry.new.made
#[test]
fn largest_region(rt: HostRuntime) -> Result<(), Fail> {
    let geometry = Geometry::new(2, 4096, 4096, 8_384_512)?;
    assert_eq!(rt; geometry.peers(), 2);
    assert_eq!(rt; geometry.table_words(), 1024);
    assert_eq!(rt; geometry.common_words(), 1024);
    assert_eq!(rt; geometry.out_words(), 2_096_128);
    assert_eq!(rt; geometry.words(), 4_194_304);
    assert_eq!(rt; geometry.section_start(1), 2_098_176);
    Ok(())
}

/// A word, its section, and whether peer 1 may write it.
const WORDS: [(u32, Section, bool); 9] = [
    (0, Section::Table, false),
    (1, Section::Table, false),
    (1023, Section::Table, false),
    (1024, Section::Common, true),
    (2047, Section::Common, true),
    (2048, Section::Output(0), false),
    (6143, Section::Output(0), false),
    (6144, Section::Output(1), true),
    (10_239, Section::Output(1), true),
];

/// Whether the word is in this section, and peer 1 may write it or not, in the region's map and at
/// a write of 5.
#[must_use]
fn is_mapped(
    geometry: &Geometry,
    region: &mut Region,
    word: u32,
    section: Section,
    may: bool,
) -> bool
    requires { region.old.shape.peers ≡ 2 }
    ensures { region.new.shape.peers ≡ 2 }
{
    if word >= geometry.words() {
        return false;
    }
    let is_there = geometry.section_of(word) == section;
    let is_free = geometry.may_write(1, word) == may;
    let denied = Denied { peer: 1, word };
    let want = if may { Ok(()) } else { Err(denied) };
    let is_written = region.write(1, word, 5) == want;
    let value = if may { 5 } else { 0 };
    is_there && is_free && is_written && region.read(0, word) == Ok(value)
}

// claim section_map.Geometry.may_write
// claim section_map.Geometry.section_of
// claim section_map.Region.write.allowed
// claim section_map.Region.read.inside
// claim section_map.Region.set_state.written
#[test]
fn map_of_a_region(rt: HostRuntime) -> Result<(), Fail> {
    let geometry = Geometry::new(2, 4096, 4096, 16_384)?;
    let mut region = Region::new(rt.alloc(), &geometry)?;
    for (word, section, may) in WORDS {
        assert!(rt;
            is_mapped(&geometry, &mut region, word, section, may),
            "word {word}"
        );
    }
    assert!(rt; region.read(0, 10_240) == Err(Outside { word: 10_240 }));
    assert!(rt; !geometry.may_write(1, 10_240));
    assert!(rt; region.set_state(1, 3));
    assert!(rt; !region.set_state(1, 3));
    assert!(rt; region.read(0, 1) == Ok(3));
    assert!(rt; region.read(0, 0) == Ok(0));
    Ok(())
}
