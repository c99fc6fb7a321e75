//! The rows of a text for a terminal.

use ivs_base::NoMemory;
use std::alloc::Global;

/// A text while it is written, and the width of its last row in characters.
#[derive(Drop)]
pub struct Page {
    text: String,
    width: usize,
}

impl Page {
    /// Returns an empty text.
    pub fn new(alloc: Global) -> Page {
        Page {
            text: String::new(alloc),
            width: 0,
        }
    }

    /// Appends blanks up to a column.
    fn pad(&mut self, column: usize) -> Result<(), NoMemory> {
        for _ in self.width..column.min(1000) {
            self.text.push(' ')?;
        }
        self.width = self.width.max(column.min(1000));
        Ok(())
    }

    /// Appends words from a column on, or after one blank if the row is longer. No words put
    /// nothing.
    pub fn put(&mut self, column: usize, words: &str) -> Result<(), NoMemory> {
        if words.is_empty() || words == " " {
            return Ok(());
        }
        if self.width > column {
            self.text.push(' ')?;
            self.width = self.width.saturating_add(1);
        }
        self.pad(column)?;
        self.text.push_str(words)?;
        self.width = self.width.saturating_add(words.len());
        Ok(())
    }

    /// Appends words that end at a column.
    pub fn put_left_of(&mut self, column: usize, words: &str) -> Result<(), NoMemory> {
        self.put(column.saturating_sub(words.len()), words)
    }

    /// Ends the row.
    pub fn end_row(&mut self) -> Result<(), NoMemory> {
        self.text.push('\n')?;
        self.width = 0;
        Ok(())
    }

    /// Returns the bytes of the text.
    pub fn into_bytes(self) -> Vec<u8> {
        let Page { text, .. } = self;
        text.into_bytes()
    }
}
