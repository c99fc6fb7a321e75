//! Numbers as bytes, the lowest byte first.
ghost use Rattle.std.specs.Prelude.{◌≡◌, ◌+◌, ◌^◌, ◌<◌, ◌≤◌, length, slice_index};
ghost use Rattle.pci_space.specs.Numbers.{number_byte, number_from};

use byteorder::{ByteOrder, LittleEndian};

/// Returns byte `i` of a number, the lowest byte first.
pub(crate) fn byte_of(number: u64, i: usize) -> u8
    ensures { result ≡ number_byte number i }
{
    if i >= 8 {
        return 0;
    }
    let mut bytes = [0; 8];
    LittleEndian::write_u64(&mut bytes, number);
    bytes[i]
}

/// Returns the number in `count` bytes from offset `at` on, the lowest byte first.
pub(crate) fn number_in(bytes: &[u8], at: usize, count: usize) -> u64
    requires some { 1 ≤ count }
    requires most { count ≤ 8 }
    requires inside { at + count ≤ length bytes.now }
    ensures is { result ≡ number_from (slice_index bytes.now) at count }
    ensures fits { result < 256 ^ count }
{
    LittleEndian::read_uint(&bytes[at..], count)
}
