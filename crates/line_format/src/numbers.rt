//! Numbers in decimal, without leading zeros.
ghost use Rattle.std.specs.Prelude.{◌≡◌};
ghost use Rattle.line_format.specs.Numbers.{number_of};

/// Returns the number that a field spells, if it spells one.
// claim with number_at: A field is a number exactly if it is the decimal spelling of one below
//    2^64.
pub fn number(field: &[u8]) -> Option<u64>
    ensures { result ≡ number_of field.now }
{
    if field.is_empty() {
        return None;
    }
    if field[0] == b'0' && field.len() > 1 {
        return None;
    }
    let mut n: u64 = 0;
    for b in field {
        if !b.is_ascii_digit() {
            return None;
        }
        let digit = u64::from(*b - b'0');
        match n.checked_mul(10) {
            None => return None,
            Some(tens) => match tens.checked_add(digit) {
                None => return None,
                Some(more) => n = more,
            },
        }
    }
    Some(n)
}
