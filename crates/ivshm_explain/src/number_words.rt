//! Why a field isn't the number, or the bytes, that are due there, in words.

use crate::shapes::{Grammar, range_of};
use crate::texts::{FaultyText, fields_of, first_word, is_name, number_named, shape_of, text_of};
use line_format::number;
use section_map::PAGE;
use std::alloc::{AllocError, Global};

/// The fault of a field that spells no number, or one out of its range, in words.
fn field_fault(field: &[u8]) -> &'static str {
    if field.is_empty() {
        "is empty"
    } else if number(field).is_some() {
        "is out of range"
    } else if field.starts_with(b"0x") {
        "is hexadecimal, and numbers are decimal"
    } else if !field.iter().all(|byte| byte.is_ascii_digit()) {
        "is no number"
    } else if field.starts_with(b"0") {
        "has a leading zero"
    } else {
        "is too great"
    }
}

/// The contents of a number's place, the fault, and the numbers that are due.
fn range_words(
    alloc: Global,
    name: &[u8],
    field: &[u8],
    first: u64,
    last: u64,
) -> Result<String, AllocError> {
    let name = text_of(name);
    let fault = field_fault(field);
    let field = text_of(field);
    if last == u64::MAX {
        return format!(in alloc; "{name} is `{field}`, which {fault}: a decimal number is due\n");
    }
    format!(in alloc;
        "{name} is `{field}`, which {fault}: a decimal number from {first} to {last} is due\n"
    )
}

/// Whether the field is a number of the range.
fn is_in(field: &[u8], first: u64, last: u64) -> bool {
    match number(field) {
        Some(value) => first <= value && value <= last,
        None => false,
    }
}

/// Why the first number of the line that is out of its form's range is so; nothing if each is in
/// range.
fn form_range_words(
    alloc: Global,
    grammar: Grammar,
    shape: &str,
    line: &[u8],
) -> Result<Option<String>, AllocError> {
    let names = fields_of(shape.as_bytes());
    let fields = fields_of(line);
    for (at, name) in names.iter().enumerate() {
        if !is_name(name) || *name == b"HEX".as_slice() {
            continue;
        }
        let (first, last) = range_of(grammar, first_word(line), name);
        let Some(field) = fields.get(at) else {
            return Ok(None);
        };
        if !is_in(field, first, last) {
            return Ok(Some(range_words(alloc, name, field, first, last)?));
        }
    }
    Ok(None)
}

/// Returns the number of words of the region of a scenario or of a schedule of ports.
fn region_words(text: &FaultyText) -> u64 {
    let table = match text.grammar {
        Grammar::Ports => u64::from(PAGE),
        _ => text.head_number(b"table"),
    };
    let sections = text.peers().saturating_mul(text.head_number(b"out"));
    table
        .saturating_add(text.head_number(b"common"))
        .saturating_add(sections)
        / 4
}

/// Why a word or an offset is none, though it is in its form's range.
fn place_words(
    alloc: Global,
    text: &FaultyText,
    shape: &str,
    line: &[u8],
) -> Result<String, AllocError> {
    if let Some(word) = number_named(shape, line, b"WORD") {
        let count = region_words(text);
        let last = count.saturating_sub(1);
        return format!(in alloc;
            "WORD is {word}, and the region has {count} words: a number from 0 to {last} is due\n"
        );
    }
    if let Some(width) = number_named(shape, line, b"WIDTH") {
        let offset = number_named(shape, line, b"OFFSET").unwrap_or(0);
        return format!(in alloc;
            "OFFSET is {offset} and WIDTH {width}: a WIDTH of 1, 2 or 4 is due, and an OFFSET that is a multiple of it\n"
        );
    }
    if let Some(offset) = number_named(shape, line, b"OFFSET") {
        return format!(in alloc; "OFFSET is {offset}: a multiple of 4 is due\n");
    }
    if let Some(from) = number_named(shape, line, b"FROM") {
        let last = text.peers().saturating_sub(1);
        return format!(in alloc; "FROM is {from}: a peer from 0 to {last} is due\n");
    }
    if let Some(port) = number_named(shape, line, b"PORT") {
        let last = text.head_number(b"ports").saturating_sub(1);
        return format!(in alloc; "PORT is {port}: a port from 0 to {last} is due\n");
    }
    format!(in alloc; "a number is out of its range\n")
}

/// Why a number of the line with this number is none that is due there.
pub fn bad_number_words(
    alloc: Global,
    text: &FaultyText,
    number: u64,
) -> Result<String, AllocError> {
    let line = text.line(number);
    let Some(shape) = shape_of(text.grammar, line) else {
        return format!(in alloc; "a number is out of its range\n");
    };
    if let Some(words) = form_range_words(alloc, text.grammar, shape, line)? {
        return Ok(words);
    }
    if text.grammar == Grammar::History {
        return bytes_words(alloc, text, number, 1, u64::MAX);
    }
    place_words(alloc, text, shape, line)
}

/// The first byte that is no lower-case digit.
fn other_digit(digits: &[u8]) -> Option<u8> {
    digits.iter().copied().find(|byte| !(b'0'..=b'9').contains(byte)
        && !(b'a'..=b'f').contains(byte))
}

/// Why the bytes of the line with this number are none, or are too few or too many.
pub fn bytes_words(
    alloc: Global,
    text: &FaultyText,
    number: u64,
    least: u64,
    most: u64,
) -> Result<String, AllocError> {
    let fields = fields_of(text.line(number));
    let digits: &[u8] = match fields.get(2) {
        Some(digits) => *digits,
        None => b"",
    };
    let count = digits.len();
    match other_digit(digits) {
        Some(byte) if byte.is_ascii_uppercase() => {
            format!(in alloc;
                "HEX has a capital letter: its digits are 0 to 9 and a to f, two for each byte\n"
            )
        }
        Some(_) => {
            format!(in alloc;
                "HEX has a byte that is no digit: its digits are 0 to 9 and a to f, two for each byte\n"
            )
        }
        None if count % 2 == 1 => {
            format!(in alloc; "HEX has {count} digits, an odd number: each byte has two\n")
        }
        None if most == u64::MAX => format!(in alloc;
            "HEX is empty: {least} byte or more is due\n"
        ),
        None => {
            let found = count / 2;
            format!(in alloc; "HEX has {found} bytes: {least} to {most} are due\n")
        }
    }
}
