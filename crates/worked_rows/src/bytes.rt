//! Bytes of an input or an output, as the lines of a page spell them. A line that spells no bytes
//! is refused with InvalidData. A line that changes bytes that aren't there is refused with
//! NotFound.
use std::alloc::Global;
use std::io;
use std::io::ErrorKind;

/// Returns the number that the text spells.
pub(crate) fn number(text: &str) -> io::Result<u64> {
    Ok(text.parse::<u64>().map_err(|_| ErrorKind::InvalidData)?)
}

/// Returns the two parts of a text, before and after the first blank. Without a blank the second
/// part is empty.
pub(crate) fn halves<'a>(text: &'a str) -> (&'a str, &'a str) {
    text.split_once(' ').unwrap_or((text, ""))
}

/// Returns the digit of a number below 16.
fn digit(value: u8) -> u8 {
    match value {
        0..=9 => 48 + value,
        10..=15 => 87 + value,
        _ => b'0',
    }
}

/// Adds the digits of `COUNT@FIRST+STEP`: COUNT bytes from FIRST on, each with the step added to
/// the one before, modulo 256.
fn add_counted(bytes: &mut Vec<u8>, counted: &str) -> io::Result<()> {
    let (count, rest) = counted.split_once('@').ok_or(ErrorKind::InvalidData)?;
    let (first, step) = rest.split_once('+').ok_or(ErrorKind::InvalidData)?;
    let mut byte = first.parse::<u8>().map_err(|_| ErrorKind::InvalidData)?;
    let step = step.parse::<u8>().map_err(|_| ErrorKind::InvalidData)?;
    for _ in 0..number(count)? {
        bytes.push(digit(byte / 16))?;
        bytes.push(digit(byte % 16))?;
        byte = byte.wrapping_add(step);
    }
    Ok(())
}

/// Adds the contents of square brackets: `COUNT*PART` is COUNT times the part, and other text is
/// itself.
fn add_bracketed(bytes: &mut Vec<u8>, inside: &str) -> io::Result<()> {
    if let Some((count, part)) = inside.split_once('*') {
        for _ in 0..number(count)? {
            bytes.extend_from_slice(part.as_bytes())?;
        }
    } else if inside.contains('@') {
        add_counted(bytes, inside)?;
    } else {
        bytes.push(b'[')?;
        bytes.extend_from_slice(inside.as_bytes())?;
        bytes.push(b']')?;
    }
    Ok(())
}

/// Adds a text; square brackets in it hold repeated parts.
pub(crate) fn add_text(bytes: &mut Vec<u8>, text: &str) -> io::Result<()> {
    for (place, piece) in text.split('[').enumerate() {
        if place == 0 {
            bytes.extend_from_slice(piece.as_bytes())?;
        } else {
            let (inside, after) = piece.split_once(']').ok_or(ErrorKind::InvalidData)?;
            add_bracketed(bytes, inside)?;
            bytes.extend_from_slice(after.as_bytes())?;
        }
    }
    Ok(())
}

/// Adds a line once for each number of a range. In it `#` is replaced by the number, and `%` by its
/// eight hexadecimal digits.
pub(crate) fn add_each(alloc: Global, bytes: &mut Vec<u8>, rest: &str) -> io::Result<()> {
    let (first, rest) = halves(rest);
    let (last, line) = halves(rest);
    for number in number(first)?..=number(last)? {
        let mut text = String::new(alloc);
        for letter in line.chars() {
            match letter {
                '#' => write!(text, "{number}")?,
                '%' => write!(text, "{number:08x}")?,
                _ => text.push(letter)?,
            }
        }
        text.push('\n')?;
        add_text(bytes, text.as_str())?;
    }
    Ok(())
}

/// Returns the bytes of hexadecimal digits; square brackets in them hold repeated parts.
fn decoded(alloc: Global, digits: &str) -> io::Result<Vec<u8>> {
    let mut all = Vec::new(alloc);
    add_text(&mut all, digits)?;
    Ok(hex::decode(alloc, all.as_slice()).map_err(|_| ErrorKind::InvalidData)?)
}

/// Adds the bytes of these digits.
pub(crate) fn add_hex(alloc: Global, bytes: &mut Vec<u8>, digits: &str) -> io::Result<()> {
    let decoded = decoded(alloc, digits)?;
    bytes.extend_from_slice(decoded.as_slice())?;
    Ok(())
}

/// Replaces the bytes at an offset by new ones.
fn put(bytes: &mut [u8], place: u64, new: &[u8]) -> io::Result<()> {
    let len = bytes.len() as u64;
    let count = new.len() as u64;
    if place > len || count > len - place {
        return Err(io::Error::from(ErrorKind::NotFound));
    }
    let place = place as usize;
    bytes[place..place + new.len()].copy_from_slice(new);
    Ok(())
}

/// Replaces the bytes at an offset by those of digits: `PLACE DIGITS`.
pub(crate) fn set(alloc: Global, bytes: &mut Vec<u8>, rest: &str) -> io::Result<()> {
    let (place, digits) = halves(rest);
    let new = decoded(alloc, digits)?;
    put(bytes.as_mut_slice(), number(place)?, new.as_slice())
}

/// Sets a word of four bytes, the least significant first, to a number: `WORD VALUE`.
pub(crate) fn set_word(bytes: &mut Vec<u8>, rest: &str) -> io::Result<()> {
    let (word, value) = halves(rest);
    let value = value.parse::<u32>().map_err(|_| ErrorKind::InvalidData)?;
    let place = number(word)?.saturating_mul(4);
    put(bytes.as_mut_slice(), place, &value.to_le_bytes())
}

/// Removes a number of bytes from the end, one if there is no number.
pub(crate) fn cut(bytes: &mut Vec<u8>, rest: &str) -> io::Result<()> {
    let count = if rest.is_empty() { 1 } else { number(rest)? };
    let len = bytes.len() as u64;
    bytes.truncate(len.saturating_sub(count) as usize);
    Ok(())
}

/// Returns the lines of a text in which ` / ` separates them. An empty text has none.
fn lines_of(alloc: Global, spelled: &str) -> io::Result<String> {
    let mut lines = String::new(alloc);
    if !spelled.is_empty() {
        for line in spelled.split(" / ") {
            lines.push_str(line)?;
            lines.push('\n')?;
        }
    }
    Ok(lines)
}

/// Replaces the first occurrence of lines by other lines: `OLD => NEW`.
pub(crate) fn change(alloc: Global, bytes: &mut Vec<u8>, rest: &str) -> io::Result<()> {
    let (old, new) = rest.split_once(" =>").ok_or(ErrorKind::InvalidData)?;
    let old = lines_of(alloc, old)?;
    let new = lines_of(alloc, new.trim_start())?;
    let text = str::from_utf8(bytes.as_slice()).map_err(|_| ErrorKind::InvalidData)?;
    let changed = if let Some(after) = text.strip_prefix(old.as_str()) {
        format!(in alloc; "{new}{after}")?
    } else {
        let begun = format!(in alloc; "\n{old}")?;
        let (before, after) = text.split_once(begun.as_str()).ok_or(ErrorKind::NotFound)?;
        format!(in alloc; "{before}\n{new}{after}")?
    };
    *bytes = changed.into_bytes();
    Ok(())
}
