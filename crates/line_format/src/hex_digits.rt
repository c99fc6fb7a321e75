//! Bytes as lower case hexadecimal digits, by the kit's `hex`.
ghost use Rattle.std.specs.Prelude.{◌≡◌, ◌++◌, IfOk, OnOk, is_some, option_map};
ghost use Rattle.std.specs.List.{list_all};
ghost use Rattle.hex.specs.Hex.{encode_lower};
ghost use Rattle.line_format.specs.Forms.{hex_digit, hex_bytes};

use std::alloc::{AllocError, Global};

/// The number of bytes that are written at once.
const PIECE: usize = 64;

/// Whether the byte is a hex digit, and no upper case letter.
fn is_lower_digit(byte: u8) -> bool
    ensures { result ≡ is_some (hex_digit byte) }
{
    matches!(byte, b'0'..=b'9' | b'a'..=b'f')
}

/// Whether each byte is such a digit.
fn are_lower_digits(digits: &[u8]) -> bool
    ensures { result ≡ list_all (λ c. is_some (hex_digit c)) digits.now }
{
    digits.iter().all(|byte| is_lower_digit(*byte))
}

/// Returns the bytes that lower case hex digits spell, if they spell any. Returns an error if the
/// allocation fails.
// claim: Hexadecimal digits are read exactly if they are lower-case pairs.
pub fn read_hex(alloc: Global, digits: &[u8]) -> Result<Option<Vec<u8>>, AllocError>
    ensures { IfOk result (λ o. option_map (λ v. v.items) o ≡ hex_bytes digits.now) }
{
    if !are_lower_digits(digits) {
        return Ok(None);
    }
    let mut bytes = vec![in alloc; 0u8; digits.len() / 2]?;
    match hex::decode_to_slice(digits, bytes.as_mut_slice()) {
        Ok(()) => Ok(Some(bytes)),
        Err(_) => Ok(None),
    }
}

/// Appends the digits of the bytes.
pub(crate) fn put_hex(out: &mut Vec<u8>, bytes: &[u8]) -> Result<(), AllocError>
    ensures { OnOk result (out.new.items ≡ out.old.items ++ encode_lower bytes.now) }
{
    let mut rest = bytes;
    while !rest.is_empty() {
        let (piece, more) = rest.split_at(rest.len().min(PIECE));
        let mut digits = [0u8; 2 * PIECE];
        let digits = &mut digits[..2 * piece.len()];
        if hex::encode_to_slice(piece, digits).is_err() {
            unreachable!()
        }
        out.extend_from_slice(digits)?;
        rest = more;
    }
    Ok(())
}
