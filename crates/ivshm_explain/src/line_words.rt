//! Why a line has no form, in words.

use crate::shapes::{Grammar, head, shapes};
use crate::texts::{FaultyText, fields_of, first_word, text_of};
use std::alloc::{AllocError, Global};

/// The column and the value of the first byte that no line may have.
fn other_byte(line: &[u8]) -> Option<(u64, u8)> {
    for (at, byte) in line.iter().enumerate() {
        if !(32..=126).contains(byte) {
            return Some((at as u64 + 1, *byte));
        }
    }
    None
}

/// The fault of a byte, in words.
fn byte_words(alloc: Global, column: u64, byte: u8) -> Result<String, AllocError> {
    match byte {
        b'\r' => {
            format!(in alloc;
                "a carriage return is in column {column}: lines end with a newline alone, so take it out, as `tr -d '\\r'` does\n"
            )
        }
        b'\t' => {
            format!(in alloc; "a tab is in column {column}: one space is due between fields\n")
        }
        _ => {
            format!(in alloc;
                "the byte {byte} is in column {column}: a line has bytes from 32 (space) to 126 (`~`) alone\n"
            )
        }
    }
}

/// The forms that begin with a word, each in backticks, with `or` between them; nothing if there
/// are none.
fn forms_of_word(alloc: Global, grammar: Grammar, word: &[u8]) -> Result<String, AllocError> {
    let mut forms = String::new(alloc);
    for shape in shapes(grammar) {
        if first_word(shape.as_bytes()) == word {
            if !forms.is_empty() {
                forms.push_str(" or ")?;
            }
            forms.push_str("`")?;
            forms.push_str(shape)?;
            forms.push_str("`")?;
        }
    }
    Ok(forms)
}

/// The words that lines begin with, each once.
fn all_words(alloc: Global, grammar: Grammar) -> Result<String, AllocError> {
    let mut words = String::new(alloc);
    let mut last: &[u8] = b"";
    for shape in shapes(grammar) {
        let word = first_word(shape.as_bytes());
        if word != last {
            if !words.is_empty() {
                words.push_str(", ")?;
            }
            words.push_str(text_of(word))?;
            last = word;
        }
    }
    Ok(words)
}

/// The other text that begins with this word, and the form that reads it.
fn other_kind(word: &[u8]) -> &'static str {
    match word {
        b"ivshm" => "; this is a scenario, which `sim`, `run` and `config P` read",
        b"record" => "; this is a record, which `replay`, `renew` and `capture P` read",
        b"run" => "; this is a running record, which no form reads",
        b"ports" => "; this is a schedule of sampling ports, which `ports` reads",
        b"portrecord" => "; this is a record of sampling ports, which no form reads",
        b"bridge" => "; this is a run of a bridge, which `bridge` reads",
        _ => "",
    }
}

/// Why the first line is none: what begins the text, and what this text may be.
fn first_line_words(alloc: Global, text: &FaultyText, line: &[u8]) -> Result<String, AllocError> {
    let word = first_word(line);
    let is_own = match text.grammar {
        Grammar::History => word == b"record".as_slice(),
        grammar => shapes(grammar)
            .iter()
            .any(|shape| first_word(shape.as_bytes()) == word),
    };
    let kind = if is_own { "" } else { other_kind(word) };
    let due = match head(text.grammar).first() {
        Some(due) => *due,
        None => "`record 1` or `record 2`",
    };
    format!(in alloc; "the first line is due to be {due}{kind}\n")
}

/// Why a line of printable bytes has no form.
fn form_words(alloc: Global, text: &FaultyText, line: &[u8]) -> Result<String, AllocError> {
    let word = first_word(line);
    let forms = forms_of_word(alloc, text.grammar, word)?;
    let name = text_of(word);
    if forms.is_empty() {
        let words = all_words(alloc, text.grammar)?;
        return format!(in alloc; "no line begins with `{name}`: lines begin with {words}\n");
    }
    let count = fields_of(line).len();
    if count == 0 {
        return format!(in alloc;
            "a line `{name}` has the form {forms}; this one has more fields than any form\n"
        );
    }
    format!(in alloc;
        "a line `{name}` has the form {forms}; this one has {count} fields, with a single space between them\n"
    )
}

/// Why the line with this number has no form.
pub fn bad_line_words(alloc: Global, text: &FaultyText, number: u64) -> Result<String, AllocError> {
    let line = text.line(number);
    if text.is_after_end(number) {
        return format!(in alloc;
            "the text has ended with the line before: take out what comes after it\n"
        );
    }
    if let Some((column, byte)) = other_byte(line) {
        return byte_words(alloc, column, byte);
    }
    if line.is_empty() {
        return format!(in alloc; "the line is empty: take it out\n");
    }
    if line.starts_with(b"#") {
        return format!(in alloc;
            "the format has no comments: take the line out, or write the text for `tools/plain`, which reads comments\n"
        );
    }
    if line.ends_with(b" ") {
        return format!(in alloc; "a space is at the end of the line: take it out\n");
    }
    if number == 1 {
        return first_line_words(alloc, text, line);
    }
    form_words(alloc, text, line)
}
