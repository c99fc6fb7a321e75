//! A faulty text, as its explanation reads it: its lines, its head, and the forms of its lines.

use crate::places::line_at;
use crate::shapes::{Grammar, head, shapes};
use arrayvec::ArrayVec;
use line_format::{cut, fields, number};
use std::str;

/// A text, the form of its lines, and the number of lines before its head.
#[derive(Clone, Copy)]
pub struct FaultyText<'a> {
    pub bytes: &'a [u8],
    pub grammar: Grammar,
    pub before: u64,
}

/// The bytes as text.
pub fn text_of(bytes: &[u8]) -> &str {
    match str::from_utf8(bytes) {
        Ok(text) => text,
        Err(_) => "?",
    }
}

/// The fields of a line of a known form.
pub fn fields_of(line: &[u8]) -> ArrayVec<&[u8], 6> {
    match fields(line) {
        Some(found) => found,
        None => ArrayVec::new(),
    }
}

/// The bytes before the first space.
pub fn first_word(line: &[u8]) -> &[u8] {
    match cut(b' ', line) {
        Some((word, _)) => word,
        None => line,
    }
}

/// Whether a field of a form is a name in capitals, which a value replaces.
pub fn is_name(field: &[u8]) -> bool {
    field.iter().all(|byte| byte.is_ascii_uppercase())
}

/// Whether the fields have the form: as many, with its words at their places.
fn fits(names: &[&[u8]], fields: &[&[u8]]) -> bool {
    if names.len() != fields.len() {
        return false;
    }
    for (at, name) in names.iter().enumerate() {
        if !is_name(name) && *name != fields[at] {
            return false;
        }
    }
    true
}

/// The form of a line.
pub fn shape_of(grammar: Grammar, line: &[u8]) -> Option<&'static str> {
    let found = fields_of(line);
    for shape in shapes(grammar) {
        if fits(&fields_of(shape.as_bytes()), &found) {
            return Some(*shape);
        }
    }
    None
}

/// The field in the place of this name of the form.
pub fn field_named<'a>(shape: &str, line: &'a [u8], name: &[u8]) -> Option<&'a [u8]> {
    let names = fields_of(shape.as_bytes());
    let found = fields_of(line);
    for (at, its) in names.iter().enumerate() {
        if *its == name {
            return found.get(at).copied();
        }
    }
    None
}

/// The number in the place of this name of the form.
pub fn number_named(shape: &str, line: &[u8], name: &[u8]) -> Option<u64> {
    number(field_named(shape, line, name)?)
}

impl<'a> FaultyText<'a> {
    /// The line with this number.
    pub fn line(&self, number: u64) -> &'a [u8] {
        line_at(self.bytes, number)
    }

    /// The line of the head with this number, from 1, if the head is long enough.
    pub fn place_in_head(&self, number: u64) -> u64 {
        number.saturating_sub(self.before)
    }

    /// The number on the head's line that begins with this word, or 0 if there is none.
    pub fn head_number(&self, word: &[u8]) -> u64 {
        for at in 1..=head(self.grammar).len() as u64 {
            let line = self.line(self.before.saturating_add(at));
            if first_word(line) == word {
                return number_after(line);
            }
        }
        0
    }

    /// The number of peers for which the head has lines.
    pub fn peers(&self) -> u64 {
        match self.grammar {
            Grammar::Bridge => 0,
            _ => self.head_number(b"peers"),
        }
    }

    /// The kind of a peer, as its line in the head says.
    pub fn kind_of(&self, peer: u64) -> &'a [u8] {
        let first = head(self.grammar).len() as u64 + 1;
        let line = self.line(self.before.saturating_add(first).saturating_add(peer));
        match fields_of(line).get(2) {
            Some(kind) => *kind,
            None => b"missing",
        }
    }

    /// The number of the first line before this one that begins with the word, and names the peer.
    pub fn earlier(&self, number: u64, word: &[u8], peer: &[u8]) -> Option<u64> {
        let mut rest = self.bytes;
        for at in 1..number {
            let (line, more) = cut(b'\n', rest)?;
            let found = fields_of(line);
            if found.get(0).copied() == Some(word) && found.get(1).copied() == Some(peer) {
                return Some(at);
            }
            rest = more;
        }
        None
    }

    /// Whether the line before this one is the text's last.
    pub fn is_after_end(&self, number: u64) -> bool {
        let line = self.line(number.saturating_sub(1));
        match self.grammar {
            Grammar::History => line.starts_with(b"end "),
            _ => line == b"end".as_slice(),
        }
    }
}

/// The number after a line's first word, or 0 if there is none.
fn number_after(line: &[u8]) -> u64 {
    match cut(b' ', line) {
        Some((_, field)) => number(field).unwrap_or(0),
        None => 0,
    }
}
