//! One field of a space, and the faults of a table of them.
ghost use Rattle.std.specs.Prelude.{◌≡◌, ℕ, ◌+◌, ◌<◌, ◌≤◌, false, IsTrue};
ghost use Rattle.pci_space.specs.Fields.{field_has_byte, fields_overlap, is_width, fits_width};

use thiserror::Error;

/// A field of a space.
#[derive(Clone, Copy, Debug, PartialEq, Eq)]
pub struct Field {
    /// The offset of its first byte.
    pub place: u16,
    /// Its number of bytes: 1, 2, 4 or 8.
    pub width: u16,
    /// The value at reset.
    pub reset: u64,
    /// The bits that a write changes.
    pub mask: u64,
}

/// Why rows make no field table. Rows are numbered from 0. Each fault has the number of its row.
#[derive(Clone, Copy, Debug, PartialEq, Eq, Error)]
pub enum FieldFault {
    /// The width is not 1, 2, 4 or 8.
    #[error("row {0} has a width other than 1, 2, 4 and 8")]
    BadWidth(u32),
    /// The reset value or the mask does not fit the width.
    #[error("row {0} has a reset value or a mask that doesn't fit its width")]
    TooWide(u32),
    /// The field ends after the space.
    #[error("row {0} ends past the space")]
    Outside(u32),
    /// The field shares a byte with an earlier row. The second number is the first such row.
    #[error("row {0} overlaps row {1}")]
    Overlap(u32, u32),
}

impl Field {
    /// Whether the field has byte `k` of the space.
    pub(crate) fn has_byte(&self, k: usize) -> bool
        requires { k < 65536 }
        ensures { result ≡ field_has_byte self.now k }
    {
        let place = usize::from(self.place);
        place <= k && k < place + usize::from(self.width)
    }

    /// Whether the field has one of the `count` bytes from `at` on.
    pub(crate) fn has_one_of(&self, at: usize, count: usize) -> bool
        requires { at + count < 65536 }
        ensures { result ≡ false → (k : ℕ) → at ≤ k → k < at + count → field_has_byte self.now k ≡ false }
    {
        let place = usize::from(self.place);
        at < place + usize::from(self.width) && place < at + count
    }

    /// Whether the two fields share a byte.
    pub(crate) fn shares_with(&self, other: &Field) -> bool
        ensures { result ≡ fields_overlap self.now other.now }
    {
        let end = u32::from(self.place) + u32::from(self.width);
        let other_end = u32::from(other.place) + u32::from(other.width);
        u32::from(self.place) < other_end && u32::from(other.place) < end
    }

    /// Whether a field may have the width.
    pub(crate) fn has_good_width(&self) -> bool
        ensures { result ≡ is_width self.now.width }
    {
        matches!(self.width, 1 | 2 | 4 | 8)
    }
}

/// Whether a number fits `width` bytes.
pub(crate) fn fits(number: u64, width: u16) -> bool
    requires { IsTrue (is_width width) }
    ensures { result ≡ fits_width number width }
{
    match width {
        1 => number < 1 << 8,
        2 => number < 1 << 16,
        4 => number < 1 << 32,
        _ => true,
    }
}
