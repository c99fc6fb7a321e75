//! The header of an image.
ghost use Rattle.std.specs.Prelude.{◌≡◌, ◌+◌, ◌*◌, ◌≤◌, length, IfOk, IfErr, IfSome, MatchOption};
ghost use Rattle.section_map.specs.Faults.{IsFirstFault, IsPages, IsSomePages, shape_of};
ghost use Rattle.section_map.specs.Geometry.{IsShape};
ghost use Rattle.section_dump.specs.Image.{HasHeader, words_from, peers_in, table_in, common_in, out_in};

use byteorder::{ByteOrder, LittleEndian};
use section_map::{Geometry, GeometryFault, LARGEST_REGION};

/// The first bytes of an image.
const MAGIC: [u8; 8] = *b"IVSHMIMG";

/// The length in bytes of an image's header.
pub const HEADER_LEN: u64 = 32;

/// The greatest length in bytes of an image: the header and the largest region.
pub const LONGEST_IMAGE: u64 = HEADER_LEN + LARGEST_REGION as u64;

/// The sizes in the header of an image, in bytes.
#[derive(Clone, Copy, Debug)]
pub struct Header {
    pub peers: u32,
    pub table: u32,
    pub common: u64,
    pub out: u64,
}

impl Header {
    /// Returns the sizes in the header, if the header is complete.
    pub fn read(image: &[u8]) -> Option<Header>
        ensures header { MatchOption result (¬ HasHeader image.now) (λ _. HasHeader image.now) }
        ensures sizes { IfSome result (λ h. h ≡ record {
          peers = peers_in image.now;
          table = table_in image.now;
          common = common_in image.now;
          out = out_in image.now;
        }) }
    {
        if (image.len() as u64) < HEADER_LEN || !image.starts_with(&MAGIC) {
            return None;
        }
        Some(Header {
            peers: LittleEndian::read_u32(&image[8..]),
            table: LittleEndian::read_u32(&image[12..]),
            common: LittleEndian::read_u64(&image[16..]),
            out: LittleEndian::read_u64(&image[24..]),
        })
    }

    /// Returns the geometry of these sizes.
    pub fn geometry(&self) -> Result<Geometry, GeometryFault>
        ensures made { IfOk result (λ g. g ≡ shape_of self.now.peers self.now.table self.now.common self.now.out) }
        ensures sizes { IfOk result (λ g. IsSomePages self.now.table × IsPages self.now.common ×
            IsSomePages self.now.out × IsShape g) }
        ensures fault { IfErr result (IsFirstFault self.now.peers self.now.table self.now.common self.now.out) }
    {
        Geometry::new(self.peers, self.table, self.common, self.out)
    }
}

/// Returns word `i` of the region, which comes after the header.
pub fn region_word(image: &[u8], i: u32) -> u32
    requires { HEADER_LEN + 4 * i + 4 ≤ length image.now }
    ensures { result ≡ words_from image.now 8 i }
{
    LittleEndian::read_u32(&image[4 * (8 + i as usize)..])
}
