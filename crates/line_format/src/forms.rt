//! Forms of lines as tables, and the fields of a line by its form.
ghost use Rattle.std.specs.Prelude.{◌≡◌, ◌+◌, ◌≤◌, ◌<◌, ◌++◌, length, IfSome, option_map, option_and_then, slice_get, slice_index, slice_index_or, false, MatchOption, IsTrue, IsFalse};
ghost use Rattle.std.specs.List.{list_all};
ghost use Rattle.arrayvec.specs.ArrayVec.{array_vec_len};
ghost use Rattle.line_format.specs.Numbers.{number_of};
ghost use Rattle.line_format.specs.Forms.{pieces, texts, fields_of, matches, numbers_of, hex_of, is_printable, AreInRange};

use crate::cuts::cut;
use crate::numbers::number;
use arrayvec::ArrayVec;

/// Whether each byte of the line is from the space to `~`.
pub fn is_printable(line: &[u8]) -> bool
    ensures { result ≡ list_all is_printable line.now }
{
    line.iter().all(|b| 32 <= *b && *b <= 126)
}

/// The kind of one field of a form.
#[derive(Clone, Copy)]
pub enum FieldKind {
    /// This word.
    Word(&'static [u8]),
    /// A number from the first to the second.
    Number(u64, u64),
    /// Bytes as lower case hex digits.
    Hex,
}

/// The kind of a field that can be every number.
pub const ANY: FieldKind = FieldKind::Number(0, u64::MAX);

/// The kind of a field that is a number of 32 bits.
pub const U32: FieldKind = FieldKind::Number(0, u32::MAX as u64);

/// Returns the fields of a line, or `None` if there are more than six, the most of any form.
pub fn fields<'a>(line: &'a [u8]) -> Option<ArrayVec<&'a [u8], 6>>
    ensures { MatchOption result (6 < length (fields_of line.now)) (λ v. texts v.items ≡ fields_of line.now) }
{
    let mut fields = ArrayVec::new();
    let mut rest = line;
    while let Some((field, more)) = cut(b' ', rest) {
        fields.push(field);
        rest = more;
        if fields.is_full() {
            return None;
        }
    }
    fields.push(rest);
    Some(fields)
}

/// Whether the number of fields and the words in them are those of the form.
// claim with fields: A line has a form by its words and its number of fields.
pub fn has_form(slots: &[FieldKind], fields: &[&[u8]]) -> bool
    ensures { result ≡ matches (pieces slots.now) (texts fields.now) }
{
    let [slot, slots @ ..] = slots else {
        return fields.is_empty();
    };
    let [field, fields @ ..] = fields else {
        return false;
    };
    match *slot {
        FieldKind::Word(word) => word == *field && has_form(slots, fields),
        _ => has_form(slots, fields),
    }
}

/// Appends the numbers of the fields. Returns whether each of them is a number in its range.
fn read_numbers(slots: &[FieldKind], fields: &[&[u8]], numbers: &mut ArrayVec<u64, 6>) -> bool
    requires { array_vec_len numbers.old + length slots.now ≤ 6 }
    ensures { MatchOption (numbers_of (pieces slots.now) (texts fields.now)) (IsFalse result)
        (λ ns. IsTrue result × (numbers.new.items ≡ numbers.old.items ++ ns)) }
{
    let [slot, slots @ ..] = slots else {
        return true;
    };
    let [field, fields @ ..] = fields else {
        return true;
    };
    match *slot {
        FieldKind::Number(low, high) => match number(field) {
            None => false,
            Some(n) => {
                if n < low || high < n {
                    return false;
                }
                numbers.push(n);
                read_numbers(slots, fields, numbers)
            }
        },
        _ => read_numbers(slots, fields, numbers),
    }
}

/// Returns the field of hex digits, or no bytes if the form has none.
pub fn hex_field<'a>(slots: &[FieldKind], fields: &[&'a [u8]]) -> &'a [u8]
    ensures { result.now ≡ hex_of (pieces slots.now) (texts fields.now) }
{
    let [slot, slots @ ..] = slots else {
        return &[];
    };
    let [field, fields @ ..] = fields else {
        return &[];
    };
    match *slot {
        FieldKind::Hex => *field,
        _ => hex_field(slots, fields),
    }
}

/// Returns the numbers of the fields, if each of them is a number in its range.
// claim value, limits with hex_field: The numbers of a form are read exactly if each is a number in
//    its range.
pub fn numbers_in(slots: &[FieldKind], fields: &[&[u8]]) -> Option<ArrayVec<u64, 6>>
    requires { length slots.now ≤ 6 }
    ensures value { option_map (λ v. v.items) result ≡ numbers_of (pieces slots.now) (texts fields.now) }
    ensures limits { IfSome result (λ v. AreInRange (pieces slots.now) v.items) }
{
    let mut numbers = ArrayVec::new();
    if !read_numbers(slots, fields, &mut numbers) {
        return None;
    }
    Some(numbers)
}

/// Returns the number that field `i` spells, from 0, if it spells one.
// claim with flag_at: A field is a number exactly if it spells one, and a flag that isn't in the
//    list is false.
pub fn number_in(fields: &[&[u8]], i: usize) -> Option<u64>
    ensures { result ≡ option_and_then number_of (slice_get (texts fields.now) i) }
{
    match fields.get(i) {
        None => None,
        Some(field) => number(field),
    }
}

/// Returns flag `i` of a list, from 0, or false if there is none.
pub fn flag_at(flags: &[bool], i: u64) -> bool
    ensures { result ≡ slice_index_or flags.now i false }
{
    flags.get(i as usize).copied().unwrap_or(false)
}

/// Returns number `i` of a line, from 0, or 0 if there is none.
pub fn number_at(numbers: &[u64], i: usize) -> u64
    ensures { result ≡ slice_index numbers.now i }
{
    numbers.get(i).copied().unwrap_or(0)
}
