//! Lines of a word and up to four numbers. Each line is built from its end and appended at once.
ghost use Rattle.std.specs.Prelude.{◌≡◌, ◌≤◌, ◌++◌, [], ◌∷◌, OnOk, length, decimal};
ghost use Rattle.hex.specs.Hex.{encode_lower};
ghost use Rattle.line_format.specs.Forms.{line_of};

use crate::hex_digits::put_hex;
use crate::line_tail::LineTail;
use std::alloc::AllocError;

/// Appends the line of a word and a number.
// claim with put_two, put_three, put_four, put_named, put_with_bytes: A line of a word and one to
//    four numbers, with a name or with a frame, is written as these fields spell it, with its
//    newline.
#[tactic(auto, using(crate::proofs::ShortLines::one))]
pub fn put_one(out: &mut Vec<u8>, word: &[u8], first: u32) -> Result<(), AllocError>
    requires { length word.now ≤ 16 }
    ensures { OnOk result (out.new.items ≡ out.old.items ++ line_of (word.now ∷ decimal first ∷ []) ++ 10 ∷ []) }
{
    let mut line = LineTail::of(b'\n');
    line.number(first);
    line.word(word);
    line.put(out)
}

/// Appends the line of a word and two numbers.
#[tactic(auto, using(crate::proofs::ShortLines::two))]
pub fn put_two(out: &mut Vec<u8>, word: &[u8], first: u32, second: u32) -> Result<(), AllocError>
    requires { length word.now ≤ 16 }
    ensures { OnOk result (out.new.items ≡
        out.old.items ++ line_of (word.now ∷ decimal first ∷ decimal second ∷ []) ++ 10 ∷ []) }
{
    let mut line = LineTail::of(b'\n');
    line.number(second);
    line.number(first);
    line.word(word);
    line.put(out)
}

/// Appends the line of a word and three numbers.
#[tactic(auto, using(crate::proofs::ShortLines::three))]
pub fn put_three(
    out: &mut Vec<u8>,
    word: &[u8],
    first: u32,
    second: u32,
    third: u32,
) -> Result<(), AllocError>
    requires { length word.now ≤ 16 }
    ensures { OnOk result (out.new.items ≡
        out.old.items ++ line_of (word.now ∷ decimal first ∷ decimal second ∷ decimal third ∷ []) ++ 10 ∷ []) }
{
    let mut line = LineTail::of(b'\n');
    line.number(third);
    line.number(second);
    line.number(first);
    line.word(word);
    line.put(out)
}

/// Appends the line of a word and four numbers.
#[tactic(auto, using(crate::proofs::ShortLines::four))]
pub fn put_four(
    out: &mut Vec<u8>,
    word: &[u8],
    first: u32,
    second: u32,
    third: u32,
    fourth: u32,
) -> Result<(), AllocError>
    requires { length word.now ≤ 16 }
    ensures { OnOk result (out.new.items ≡
        out.old.items ++ line_of (word.now ∷ decimal first ∷ decimal second ∷ decimal third ∷ decimal fourth ∷ []) ++
        10 ∷ []) }
{
    let mut line = LineTail::of(b'\n');
    line.number(fourth);
    line.number(third);
    line.number(second);
    line.number(first);
    line.word(word);
    line.put(out)
}

/// Appends the line of a word, a number, a word and a number.
#[tactic(auto, using(crate::proofs::ShortLines::three))]
pub fn put_named(
    out: &mut Vec<u8>,
    word: &[u8],
    first: u32,
    name: &[u8],
    second: u64,
) -> Result<(), AllocError>
    requires word { length word.now ≤ 10 }
    requires name { length name.now ≤ 16 }
    ensures { OnOk result (out.new.items ≡
        out.old.items ++ line_of (word.now ∷ decimal first ∷ name.now ∷ decimal second ∷ []) ++ 10 ∷ []) }
{
    let mut line = LineTail::of(b'\n');
    line.long_number(second);
    line.word(name);
    line.word(b" ");
    line.number(first);
    line.word(word);
    line.put(out)
}

/// Appends the line of a word, a number and bytes as hex digits.
#[tactic(auto, using(crate::proofs::ShortLines::two))]
pub fn put_with_bytes(
    out: &mut Vec<u8>,
    word: &[u8],
    first: u32,
    bytes: &[u8],
) -> Result<(), AllocError>
    requires { length word.now ≤ 16 }
    ensures { OnOk result (out.new.items ≡
        out.old.items ++ line_of (word.now ∷ decimal first ∷ encode_lower bytes.now ∷ []) ++ 10 ∷ []) }
{
    if bytes.len() <= 16 {
        let mut line = LineTail::of(b'\n');
        line.hex(bytes);
        line.word(b" ");
        line.number(first);
        line.word(word);
        return line.put(out);
    }
    let mut front = LineTail::of(b' ');
    front.number(first);
    front.word(word);
    front.put(out)?;
    put_hex(out, bytes)?;
    out.push(b'\n')?;
    Ok(())
}
