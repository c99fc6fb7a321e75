//! A slice of MSI-X entries, and the MSI-X table of 64 of them.
ghost use Rattle.std.specs.Prelude.{◌≡◌, ℕ, Some, None, if◌then◌else◌, ◌==◌, length, slice_get, IsTrue};
ghost use Rattle.pci_space.specs.Fields.{Contents, is_access};
ghost use Rattle.doorbell_irq.specs.Registers.{IsWritten, IsSpaceReset};

use crate::msix_table::MsixTable;
use pci_space::Space;

/// Writes the word at a byte offset of entry `n`. A write to an entry outside the slice is ignored.
pub fn write_at(entries: &mut [Space<4, 16>], n: u32, offset: u16, value: u32)
    requires { IsTrue (is_access 16 offset 4) }
    ensures count { length entries.new ≡ length entries.old }
    ensures written { (k : ℕ) (before after : Contents) → slice_get entries.old k ≡ Some before →
        slice_get entries.new k ≡ Some after →
        IsWritten (if n == k then Some (record { offset = offset; width = 4; value = value }) else None) before after }
{
    if (n as usize) < entries.len() {
        let _ = entries[n as usize].write(offset, 4, value);
    }
}

/// Sets every entry of a slice to its reset values.
pub fn reset_all(entries: &mut [Space<4, 16>])
    ensures count { length entries.new ≡ length entries.old }
    ensures reset { (k : ℕ) (before after : Contents) → slice_get entries.old k ≡ Some before →
        slice_get entries.new k ≡ Some after → IsSpaceReset before after }
{
    for entry in entries.iter_mut() {
        entry.reset();
    }
}

impl MsixTable for [Space<4, 16>; 64] {
    ghost entries = { λ t. t };

    fn word(&self, n: u32, offset: u16) -> u32 {
        if n as usize >= self.len() {
            return 0;
        }
        self[n as usize].read(offset, 4).unwrap_or(0)
    }

    fn is_masked(&self, n: u32) -> bool {
        if n as usize >= self.len() {
            return false;
        }
        self[n as usize].read(0x0C, 1).unwrap_or(0) % 2 == 1
    }

    fn write(&mut self, n: u32, offset: u16, value: u32) {
        write_at(&mut self[..], n, offset, value);
    }

    fn reset(&mut self) {
        reset_all(&mut self[..]);
    }
}
