//! The words of a frame in a buffer, and the words of a used element.
ghost use Rattle.std.specs.Prelude.{◌≡◌, ◌+◌, ◌-◌, ◌*◌, ◌≤◌, ◌<◌, ◌^◌, ◌++◌, min, length, take};
ghost use Rattle.call_grammar.specs.Words.{word_bytes};

/// Copies words of a frame of `bytes` bytes to their position in `buffer`, from word `at` of the
/// frame on. Bytes after the frame's last byte are left out.
pub(crate) fn put_words(buffer: &mut [u8], bytes: usize, at: usize, words: &[u8])
    requires within { 4 * at < bytes }
    requires room { bytes ≤ length buffer.old }
    requires fits { 4 * at + length words.now < 2 ^ 32 }
    ensures { take (min bytes (4 * at + length words.now)) buffer.new ≡
        take (4 * at) buffer.old ++ take (bytes - 4 * at) words.now }
{
    let start = 4 * at;
    let count = (bytes - start).min(words.len());
    buffer[start..start + count].copy_from_slice(&words[..count]);
}

/// Writes the first words of a used element, as many bytes as `into` has.
pub(crate) fn put_element(into: &mut [u8], entry: u32)
    requires { length into.old ≤ 8 }
    ensures bytes { into.new ≡ take (length into.old) (word_bytes entry ++ word_bytes 1) }
    ensures fits { entry < 4294967296 }
{
    let id = entry.to_le_bytes();
    let words = [id[0], id[1], id[2], id[3], 1, 0, 0, 0];
    into.copy_from_slice(&words[..into.len()]);
}
