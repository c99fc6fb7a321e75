//! The MSI-X table of a peer, wherever its entries are stored.
ghost use Rattle.std.specs.Prelude.{◌≡◌, ℕ, List, Some, None, if◌then◌else◌, ◌==◌, length, slice_get, IsTrue};
ghost use Rattle.pci_space.specs.Numbers.{number_from};
ghost use Rattle.pci_space.specs.Fields.{Contents, is_access};
ghost use Rattle.doorbell_irq.specs.DeviceRules.{bit};
ghost use Rattle.doorbell_irq.specs.Registers.{byte_in, IsWritten, IsSpaceReset};

use pci_space::Space;

/// An MSI-X table. An entry outside the table reads 0, is not masked, and ignores writes.
pub trait MsixTable {
    // The entries of the table.
    ghost entries: { Self → List Contents };

    /// Reads the word at a byte offset of entry `n`.
    fn word(&self, n: u32, offset: u16) -> u32
        requires { IsTrue (is_access 16 offset 4) }
        ensures { result ≡ number_from (byte_in (slice_get (entries self.now) n)) offset 4 };

    /// Whether entry `n` is masked: bit 0 of its Vector Control is set.
    fn is_masked(&self, n: u32) -> bool
        ensures { result ≡ bit (byte_in (slice_get (entries self.now) n) 0x0C) 0 };

    /// Writes the word at a byte offset of entry `n`.
    // claim count, written with MsixTable::word, MsixTable::is_masked, MsixTable::reset.count,
    //    MsixTable::reset.reset, write_at.count, write_at.written, reset_all.count,
    //    reset_all.reset: An MSI-X table keeps aligned words of its entries, as many entries as it
    //    was made with. Its mask bits and words are those of the entries.
    fn write(&mut self, n: u32, offset: u16, value: u32)
        requires { IsTrue (is_access 16 offset 4) }
        ensures count { length (entries self.new) ≡ length (entries self.old) }
        ensures written { (k : ℕ) (before after : Contents) → slice_get (entries self.old) k ≡ Some before →
            slice_get (entries self.new) k ≡ Some after →
            IsWritten (if n == k then Some (record { offset = offset; width = 4; value = value }) else None) before after };

    /// Sets every entry to its reset values.
    fn reset(&mut self)
        ensures count { length (entries self.new) ≡ length (entries self.old) }
        ensures reset { (k : ℕ) (before after : Contents) → slice_get (entries self.old) k ≡ Some before →
            slice_get (entries self.new) k ≡ Some after →
            IsSpaceReset before after };
}
