//! The shapes of an SVG file.

use ivs_base::NoMemory;
use std::alloc::Global;

/// The mean width of a bold character in a wide font, in pixels.
const WIDEST: u64 = 8;

/// The mean width of a character in a usual font, in pixels.
const USUAL: u64 = 6;

/// The text of an SVG file while it is written. Places are in pixels from the upper left corner.
#[derive(Drop)]
pub struct Sheet {
    text: String,
}

impl Sheet {
    /// Returns an empty file.
    pub fn new(alloc: Global) -> Sheet {
        Sheet {
            text: String::new(alloc),
        }
    }

    /// Appends text without a change.
    pub fn raw(&mut self, text: &str) -> Result<(), NoMemory> {
        self.text.push_str(text)?;
        Ok(())
    }

    /// Appends a rectangle.
    pub fn rect(
        &mut self,
        class: &str,
        x: u64,
        y: u64,
        width: u64,
        height: u64,
    ) -> Result<(), NoMemory> {
        write!(
            self.text,
            "<rect class='{class}' x='{x}' y='{y}' width='{width}' height='{height}'/>\n"
        )?;
        Ok(())
    }

    /// Appends a circle.
    pub fn circle(&mut self, class: &str, x: u64, y: u64) -> Result<(), NoMemory> {
        write!(
            self.text,
            "<circle class='{class}' cx='{x}' cy='{y}' r='3'/>\n"
        )?;
        Ok(())
    }

    /// Appends a horizontal line.
    pub fn level(&mut self, class: &str, from: u64, to: u64, y: u64) -> Result<(), NoMemory> {
        write!(self.text, "<path class='{class}' d='M{from} {y}H{to}'/>\n")?;
        Ok(())
    }

    /// Appends a line in three parts: horizontal, vertical, horizontal.
    pub fn step(
        &mut self,
        class: &str,
        from: (u64, u64),
        lane: u64,
        to: (u64, u64),
    ) -> Result<(), NoMemory> {
        let (x, y) = from;
        let (end, down) = to;
        write!(
            self.text,
            "<path class='{class}' d='M{x} {y}H{lane}V{down}H{end}'/>\n"
        )?;
        Ok(())
    }

    /// Appends an arrow head that points to the right or to the left, with its tip at `x`, `y`.
    pub fn head(&mut self, class: &str, x: u64, y: u64, is_right: bool) -> Result<(), NoMemory> {
        if is_right {
            write!(self.text, "<path class='{class}' d='M{x} {y}l-7 -4v8z'/>\n")?;
        } else {
            write!(self.text, "<path class='{class}' d='M{x} {y}l7 -4v8z'/>\n")?;
        }
        Ok(())
    }

    /// Appends words from `x`, `y` on. They contain no character that XML reserves.
    pub fn words(&mut self, class: &str, x: u64, y: u64, words: &str) -> Result<(), NoMemory> {
        write!(
            self.text,
            "<text class='{class}' x='{x}' y='{y}'>{words}</text>\n"
        )?;
        Ok(())
    }

    /// Appends words from `x`, `y` on that are at most `width` pixels wide in every font. Words
    /// that may be wider are set in that width, or in six pixels for each character if that is
    /// less.
    pub fn words_within(
        &mut self,
        class: &str,
        x: u64,
        y: u64,
        width: u64,
        words: &str,
    ) -> Result<(), NoMemory> {
        let count = words.len() as u64;
        if count <= width / WIDEST {
            return self.words(class, x, y, words);
        }
        let set = width.min(count.saturating_mul(USUAL));
        write!(
            self.text,
            "<text class='{class}' x='{x}' y='{y}' textLength='{set}' lengthAdjust='spacingAndGlyphs'>{words}</text>\n"
        )?;
        Ok(())
    }

    /// Appends words that run down from `x`, `y`.
    pub fn words_down(&mut self, class: &str, x: u64, y: u64, words: &str) -> Result<(), NoMemory> {
        write!(
            self.text,
            "<text class='{class}' transform='translate({x} {y}) rotate(90)'>{words}</text>\n"
        )?;
        Ok(())
    }

    /// Returns the bytes of the file.
    pub fn into_bytes(self) -> Vec<u8> {
        let Sheet { text } = self;
        text.into_bytes()
    }
}
