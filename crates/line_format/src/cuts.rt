//! Cutting bytes at a separator.
ghost use Rattle.std.specs.Prelude.{◌≡◌, ◌<◌, [], ◌∷◌, length, MatchOption, IfSome};
ghost use Rattle.line_format.specs.Forms.{cuts};

use memchr::memchr;

/// Returns the bytes before the first byte that equals `byte`, and those after it, if there is one.
// claim cuts, shorter with is_printable: A line is cut at every single byte of the kind given. A
//    byte is printable from 20h to 7Eh.
pub fn cut(byte: u8, bytes: &[u8]) -> Option<(&[u8], &[u8])>
    ensures cuts { MatchOption result (cuts byte bytes.now ≡ bytes.now ∷ [])
        (λ p. cuts byte bytes.now ≡ p.0.now ∷ cuts byte p.1.now) }
    ensures shorter { IfSome result (λ p. length p.1.now < length bytes.now) }
{
    match memchr(byte, bytes) {
        None => None,
        Some(end) => {
            let (front, rest) = bytes.split_at(end);
            let (_, rest) = rest.split_at(1);
            Some((front, rest))
        }
    }
}
