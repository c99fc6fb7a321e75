//! A field table without a fault.
ghost use Rattle.std.specs.Prelude.{◌≡◌, ◌^◌, ◌<◌, Some, None, length, IfOk, IfErr};
ghost use Rattle.pci_space.specs.Fields.{row_fault, table_fault, overlap_fault};

use crate::field::{Field, FieldFault, fits};
use std::marker::Model;

/// A table of N fields without a fault, for a space of a fixed size.
///
/// Its view is the rows and the size of the space in bytes.
#[derive(Clone, Copy, Debug)]
pub struct FieldTable<const N: usize> {
    rows: [Field; N],
    bytes: u16,
}

impl<const N: usize> Model for FieldTable<N> {
    ghost use Rattle.std.specs.Prelude.{◌≡◌, None};
    ghost use Rattle.pci_space.specs.Fields.{Rows, table_fault};

    ghost Value = { Rows };

    ghost view = { λ t. record { rows = t.rows; size = t.bytes } };

    ghost invariant = { λ t. table_fault t.rows t.bytes ≡ None };

    ghost inverse = { λ t. record { rows = t.rows; bytes = t.size } };
}

impl<const N: usize> FieldTable<N> {
    /// Returns the table of rows for a space of `bytes` bytes, or the first fault.
    ///
    /// Rows are tested in order. For each row the tests are its width, then its reset value and
    /// mask, then its end, then the rows before it.
    // claim sound, made, fault: A table is made exactly of rows without a fault; otherwise the
    //    first fault is returned.
    pub fn of(rows: [Field; N], bytes: u16) -> Result<FieldTable<N>, FieldFault>
        requires { N < 2 ^ 32 }
        ensures sound { IfOk result (λ _. table_fault rows.entry bytes ≡ None) }
        ensures made { IfOk result (λ table. table ≡ record { rows = rows.entry; size = bytes }) }
        ensures fault { IfErr result (λ fault. table_fault rows.entry bytes ≡ Some fault) }
    {
        for (n, row) in rows.iter().enumerate() {
            if let Some(fault) = fault_of_row(bytes, &rows[..n], n as u32, row) {
                return Err(fault);
            }
        }
        Ok(FieldTable { rows, bytes })
    }

    /// Returns the rows of the table.
    pub(crate) fn rows(&self) -> &[Field]
        ensures rows { result.now ≡ self.now.rows }
        ensures sound { table_fault self.now.rows self.now.size ≡ None }
    {
        &self.rows
    }
}

/// Returns the table of rows without a fault for a space of `bytes` bytes.
// claim: The table of rows without a fault has exactly these rows.
pub fn table_of<const N: usize>(rows: [Field; N], bytes: u16) -> FieldTable<N>
    requires small { N < 2 ^ 32 }
    requires sound { table_fault rows bytes ≡ None }
    ensures { result ≡ record { rows = rows.entry; size = bytes } }
{
    match FieldTable::of(rows, bytes) {
        Ok(table) => table,
        Err(_) => unreachable!(),
    }
}

/// Returns the fault of row `n` after the earlier rows, if there is one.
fn fault_of_row(bytes: u16, earlier: &[Field], n: u32, row: &Field) -> Option<FieldFault>
    requires { n ≡ length earlier.now }
    ensures { result ≡ row_fault bytes earlier.now n row.now }
{
    if !row.has_good_width() {
        return Some(FieldFault::BadWidth(n));
    }
    if !fits(row.reset, row.width) || !fits(row.mask, row.width) {
        return Some(FieldFault::TooWide(n));
    }
    if u32::from(row.place) + u32::from(row.width) > u32::from(bytes) {
        return Some(FieldFault::Outside(n));
    }
    first_overlap(n, earlier, row)
}

/// Returns the first earlier row that shares a byte with row `n`.
fn first_overlap(n: u32, earlier: &[Field], row: &Field) -> Option<FieldFault>
    requires { n ≡ length earlier.now }
    ensures { result ≡ overlap_fault row.now n 0 earlier.now }
{
    for (m, other) in earlier.iter().enumerate() {
        if other.shares_with(row) {
            return Some(FieldFault::Overlap(n, m as u32));
        }
    }
    None
}
