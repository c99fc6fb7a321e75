//! The numbers of the ring layout: offsets aligned to 64 bytes, indices modulo 65,536, and words of
//! four bytes.
ghost use Rattle.std.specs.Prelude.{◌≡◌, ◌+◌, ◌%◌, ◌^◌, ◌<◌, ◌≤◌, length};
ghost use Rattle.ivs_base.specs.Numbers.{up64, distance, plus, word_of};

use byteorder::{ByteOrder, LittleEndian};

/// Returns the least multiple of 64 that isn't below `value`.
// claim value, multiple, not_below, least: `up64` is the least multiple of 64 that is not below its
//    argument.
pub fn up64(value: u64) -> u64
    requires { value ≤ 2 ^ 63 }
    ensures value { result ≡ up64 value }
    ensures multiple { result % 64 ≡ 0 }
    ensures not_below { value ≤ result }
    ensures least { result < value + 64 }
{
    value.div_ceil(64) * 64
}

/// Returns the number of increments of a free-running index from `from` to `to`, modulo 65,536.
// claim with plus, word_of: Distances and sums of free indices are modulo 65,536; a word has its
//    lowest byte first.
pub fn distance(from: u16, to: u16) -> u16
    ensures { result ≡ distance from to }
{
    to.wrapping_sub(from)
}

/// Returns the free-running index `by` increments after `at`, modulo 65,536.
pub fn plus(at: u16, by: u16) -> u16
    ensures { result ≡ plus at by }
{
    at.wrapping_add(by)
}

/// Returns the word of one to four bytes, the lowest first. Missing bytes count as 0.
pub fn word_of(bytes: &[u8]) -> u32
    requires some { 0 < length bytes.now }
    requires fits { length bytes.now ≤ 4 }
    ensures { result ≡ word_of bytes.now }
{
    let mut whole = [0; 4];
    whole[..bytes.len()].copy_from_slice(bytes);
    LittleEndian::read_u32(&whole)
}
