//! Writing a line of a form: its fields with a space between them, and a newline.
ghost use Rattle.std.specs.Prelude.{◌≡◌, ◌++◌, List, [], ◌∷◌, OnOk, map, if◌then◌else◌};
ghost use Rattle.line_format.specs.Forms.{Piece, pieces, spell, line_of, spaced};
ghost use Rattle.line_format.specs.Rows.{Row, flag_row, flag_rows, line_of_row, text_of};

use crate::forms::FieldKind;
use crate::grammar::Grammar;
use crate::hex_digits::put_hex;
use itoa::Buffer;
use std::alloc::AllocError;

/// Appends the fields, with a space before each, or before each except the first.
fn put_fields(
    out: &mut Vec<u8>,
    is_later: bool,
    slots: &[FieldKind],
    numbers: &[u64],
    bytes: &[u8],
) -> Result<(), AllocError>
    ensures { OnOk result (out.new.items ≡
        out.old.items ++ spaced is_later (spell (pieces slots.now) numbers.now bytes.now)) }
{
    let [slot, slots @ ..] = slots else {
        return Ok(());
    };
    match *slot {
        FieldKind::Word(word) => {
            put_space(out, is_later)?;
            out.extend_from_slice(word)?;
            put_fields(out, true, slots, numbers, bytes)
        }
        FieldKind::Number(_, _) => {
            let [number, numbers @ ..] = numbers else {
                return Ok(());
            };
            put_space(out, is_later)?;
            let mut buffer = Buffer::new();
            out.extend_from_slice(buffer.format(*number).as_bytes())?;
            put_fields(out, true, slots, numbers, bytes)
        }
        FieldKind::Hex => {
            put_space(out, is_later)?;
            put_hex(out, bytes)?;
            put_fields(out, true, slots, numbers, bytes)
        }
    }
}

/// Appends a space if a field comes before.
fn put_space(out: &mut Vec<u8>, is_later: bool) -> Result<(), AllocError>
    ensures { OnOk result (out.new.items ≡ out.old.items ++ (if is_later then 32 ∷ [] else [])) }
{
    if is_later {
        out.push(b' ')?;
    }
    Ok(())
}

/// Appends the line of a form with these numbers and bytes.
// claim: A line is written as its form spells it, with its newline.
pub fn put_line(
    out: &mut Vec<u8>,
    slots: &[FieldKind],
    numbers: &[u64],
    bytes: &[u8],
) -> Result<(), AllocError>
    ensures { OnOk result (out.new.items ≡
        out.old.items ++ line_of (spell (pieces slots.now) numbers.now bytes.now) ++ 10 ∷ []) }
{
    put_fields(out, false, slots, numbers, bytes)?;
    out.push(b'\n')?;
    Ok(())
}

/// Appends the line of flag `number`, of the form `set` if the flag is set, or of `clear`.
#[tactic(auto, unfolding(crate::specs::Rows::line_of_row))]
fn put_flag<G: Grammar>(
    out: &mut Vec<u8>,
    set: G::Form,
    clear: G::Form,
    number: u64,
    flag: bool,
) -> Result<(), AllocError>
    ensures { OnOk result (out.new.items ≡
        out.old.items ++ line_of_row G.rules.pieces_of (flag_row set clear number flag)) }
{
    let form = if flag { set } else { clear };
    put_line(out, G::slots(form), &[number], &[])
}

/// Appends a line for each flag, with its number from 0: a line of the form `set`, or of `clear`.
// claim: Each flag is written as a line with its number, of one form if the flag is set, and of
//    another if not.
pub fn put_flags<G: Grammar>(
    out: &mut Vec<u8>,
    set: G::Form,
    clear: G::Form,
    flags: &[bool],
) -> Result<(), AllocError>
    ensures { OnOk result (out.new.items ≡
        out.old.items ++ text_of G.rules.pieces_of (flag_rows set clear 0 flags.now)) }
{
    for (number, flag) in flags.iter().enumerate() {
        put_flag::<G>(out, set, clear, number as u64, *flag)?;
    }
    Ok(())
}

/// A value that is one line of a text.
pub trait HasRow {
    /// The forms of the text's lines.
    type Form;

    ghost pieces_of: { Self.Form → List Piece };

    ghost row_of: { Self → Row Self.Form };

    /// Appends the line of the value.
    fn put_row(&self, out: &mut Vec<u8>) -> Result<(), AllocError>
        ensures { OnOk result (out.new.items ≡
            out.old.items ++ line_of_row pieces_of (row_of self.now)) };
}

/// Appends the line of each value.
// claim with HasRow::put_row: Each value is written as its line, in the order of the values.
pub fn put_rows<R: HasRow>(out: &mut Vec<u8>, values: &[R]) -> Result<(), AllocError>
    ensures { OnOk result (out.new.items ≡
        out.old.items ++ text_of R.pieces_of (map R.row_of values.now)) }
{
    for value in values {
        value.put_row(out)?;
    }
    Ok(())
}
