//! The bytes of a field table: reads and writes.
ghost use Rattle.std.specs.Prelude.{◌≡◌, ℕ, ◌+◌, ◌-◌, ◌<◌, ◌≤◌, ◌↔◌, length, slice_index, if◌then◌else◌, IfOk, IfErr, OnOk, IsOk, IsTrue};
ghost use Rattle.pci_space.specs.Numbers.{number_byte, number_from};
ghost use Rattle.pci_space.specs.Fields.{field_has_byte, reset_byte, mask_byte, merged, is_access, merged_byte, KeepsUnmasked};

use crate::field::Field;
use crate::number::{byte_of, number_in};
use crate::table::FieldTable;
use std::marker::Model;
use thiserror::Error;

/// An access that a space refuses. The width is not 1, 2 or 4, the offset is no multiple of it, or
/// the access ends after the space.
#[derive(Clone, Copy, Debug, PartialEq, Eq, Error)]
#[error("no access of {width} bytes at offset {offset}")]
pub struct BadAccess {
    /// The offset of the first byte.
    pub offset: u16,
    /// The number of bytes.
    pub width: u16,
}

/// A space of B bytes with a table of N fields.
///
/// Its view is the rows of the table and the bytes that it reads.
#[derive(Clone, Copy, Debug)]
pub struct Space<const N: usize, const B: usize> {
    table: FieldTable<N>,
    bytes: [u8; B],
}

impl<const N: usize, const B: usize> Model for Space<N, B> {
    ghost use Rattle.std.specs.Prelude.{◌≡◌};
    ghost use Rattle.std.proofs.Common.{ap, sym};
    ghost use Rattle.pci_space.specs.Fields.{Contents, KeepsUnmasked};

    ghost Value = { Contents };

    ghost view = { λ s. record { rows = s.table.rows; bytes = s.bytes } };

    ghost invariant = { λ s. (s.table.size ≡ B) × KeepsUnmasked s.table.rows s.bytes };

    ghost inverse = { λ s. record { table = record { rows = s.rows; size = B }; bytes = s.bytes } };

    ghost inverse_ok = { λ s holds. ap (λ size. record { table = record { rows = s.table.rows; size = size }; bytes = s.bytes }) (sym holds.0) };
}

impl<const N: usize, const B: usize> Space<N, B> {
    /// Returns a space at reset. Requires that the table was made for B bytes.
    pub fn new(table: FieldTable<N>) -> Space<N, B>
        requires { table.size ≡ B }
        ensures rows { result.rows ≡ table.entry.rows }
        ensures bytes { (k : ℕ) → slice_index result.bytes k ≡ reset_byte table.entry.rows k }
    {
        let bytes = bytes_at_reset(table.rows());
        Space { table, bytes }
    }

    /// Sets every field to its reset value.
    pub fn reset(&mut self)
        ensures rows { self.new.rows ≡ self.old.rows }
        ensures bytes { (k : ℕ) → slice_index self.new.bytes k ≡ reset_byte self.old.rows k }
    {
        self.bytes = bytes_at_reset(self.table.rows());
    }

    /// Returns the number in the `width` bytes from `offset` on, the lowest byte first.
    ///
    /// Bytes without a field are 0.
    // claim value, kept with Space::new.rows, Space::new.bytes, Space::reset.rows,
    //    Space::reset.bytes: A read returns the bytes of the fields, lowest first, and 0 outside of
    //    all fields. A new space, and one that is reset, has the reset bytes of its rows.
    // claim allowed, refused with Space::write.allowed, Space::write.refused: `BadAccess` is
    //    returned exactly for a width, alignment or end that is not allowed, and nothing changes.
    pub fn read(&self, offset: u16, width: u16) -> Result<u32, BadAccess>
        ensures allowed { IsOk result ↔ IsTrue (is_access B offset width) }
        ensures value { IfOk result (λ v. v ≡ number_from (slice_index self.now.bytes) offset width) }
        ensures refused { IfErr result (λ e. e ≡ record { offset = offset; width = width }) }
        ensures kept { OnOk result (KeepsUnmasked self.now.rows self.now.bytes) }
    {
        if !is_allowed(B, offset, width) {
            return Err(BadAccess { offset, width });
        }
        let bytes = &self.bytes[..];
        let number = number_in(bytes, usize::from(offset), usize::from(width));
        Ok(number as u32)
    }

    /// Sets the masked bits of the `width` bytes from `offset` on to those of the value, the lowest
    /// byte first.
    ///
    /// Nothing else changes. Nothing changes if the result is `BadAccess`.
    // claim written, rows: A write changes exactly the masked bits of the bytes that it writes.
    pub fn write(&mut self, offset: u16, width: u16, value: u32) -> Result<(), BadAccess>
        ensures allowed { IsOk result ↔ IsTrue (is_access B offset width) }
        ensures written { OnOk result ((k : ℕ) →
            slice_index self.new.bytes k ≡
            merged_byte self.old.rows offset width value k (slice_index self.old.bytes k)) }
        ensures rows { self.new.rows ≡ self.old.rows }
        ensures refused { IfErr result (λ e. (e ≡ record { offset = offset; width = width }) × (self.new ≡ self.old)) }
    {
        if !is_allowed(B, offset, width) {
            return Err(BadAccess { offset, width });
        }
        write_bytes(
            &mut self.bytes[..],
            self.table.rows(),
            usize::from(offset),
            usize::from(width),
            value,
        );
        Ok(())
    }
}

/// Whether a space of `size` bytes has the access.
fn is_allowed(size: usize, offset: u16, width: u16) -> bool
    ensures { result ≡ is_access size offset width }
{
    matches!(width, 1 | 2 | 4)
        && offset % width == 0
        && usize::from(offset) + usize::from(width) <= size
}

/// Writes the low bytes of a value through the masks.
fn write_bytes(bytes: &mut [u8], rows: &[Field], at: usize, count: usize, value: u32)
    requires inside { at + count ≤ length bytes.old }
    requires small { at + count < 65536 }
    ensures { (k : ℕ) → slice_index bytes.new k ≡ merged_byte rows.now at count value k (slice_index bytes.old k) }
{
    let near = rows_near(rows, at, count);
    for k in at..at + count {
        let new = byte_of(u64::from(value), k - at);
        bytes[k] = merge(bytes[k], new, mask_at(near, k));
    }
}

/// Returns the rows from the first row on that has one of the `count` bytes from `at` on.
fn rows_near(rows: &[Field], at: usize, count: usize) -> &[Field]
    requires { at + count < 65536 }
    ensures { (k : ℕ) → at ≤ k → k < at + count → mask_byte result.now k ≡ mask_byte rows.now k }
{
    let mut near = rows;
    while let [row, more @ ..] = near {
        if row.has_one_of(at, count) {
            return near;
        }
        near = more;
    }
    near
}

/// Returns the masked bits of `new` and the other bits of `old`.
fn merge(old: u8, new: u8, mask: u8) -> u8
    ensures { result ≡ merged old new mask }
{
    (old & !mask) | (new & mask)
}

/// Returns the bits of byte `k` that a write changes.
fn mask_at(rows: &[Field], k: usize) -> u8
    requires { k < 65536 }
    ensures { result ≡ mask_byte rows.now k }
{
    for row in rows {
        if row.has_byte(k) {
            return byte_of(row.mask, k - usize::from(row.place));
        }
    }
    0
}

/// Writes the reset value of a field to its bytes.
fn write_reset(bytes: &mut [u8], row: &Field)
    ensures long { length bytes.new ≡ length bytes.old }
    ensures bytes { (k : ℕ) → k < length bytes.old →
        slice_index bytes.new k ≡ (if field_has_byte row.now k then number_byte row.now.reset (k - row.now.place) else slice_index bytes.old k) }
{
    let place = usize::from(row.place);
    let end = (place + usize::from(row.width)).min(bytes.len());
    for k in place..end {
        bytes[k] = byte_of(row.reset, k - place);
    }
}

/// Returns all bytes at reset. The last row is written first: `reset_byte` has the first row with a
/// byte.
fn bytes_at_reset<const B: usize>(rows: &[Field]) -> [u8; B]
    requires { B < 65536 }
    ensures long { length result ≡ B }
    ensures bytes { (k : ℕ) → k < B → slice_index result k ≡ reset_byte rows.now k }
{
    let mut bytes = [0; B];
    for n in 0..rows.len() {
        write_reset(&mut bytes, &rows[rows.len() - 1 - n]);
    }
    bytes
}
