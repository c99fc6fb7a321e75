//! The halves of a word: fields of two bytes.
ghost use Rattle.std.specs.Prelude.{◌≡◌, ◌+◌, ◌*◌};
ghost use Rattle.split_ring.specs.Spelling.{low_half, high_half, entry_half, desc_flags};

/// Returns the low half of a word: flags or an event index.
// claim with high_half, entry_half, desc_flags, of_halves: Each half of a word is the field of two
//    bytes that the layout has there.
pub fn low_half(word: u32) -> u16
    ensures { result ≡ low_half word }
{
    (word % 65_536) as u16
}

/// Returns the high half of a word: an index.
pub fn high_half(word: u32) -> u16
    ensures { result ≡ high_half word }
{
    (word / 65_536) as u16
}

/// Returns available entry `k` from its word.
pub fn entry_half(k: u16, word: u32) -> u16
    ensures { result ≡ entry_half k word }
{
    if k.is_multiple_of(2) {
        low_half(word)
    } else {
        high_half(word)
    }
}

/// Returns the flags of a descriptor from their word.
pub fn desc_flags(word: u32) -> u16
    ensures { result ≡ desc_flags word }
{
    low_half(word)
}

/// Returns the word of these halves.
pub fn of_halves(low: u16, high: u16) -> u32
    ensures { result ≡ low + 65536 * high }
{
    u32::from(low) + 65_536 * u32::from(high)
}
