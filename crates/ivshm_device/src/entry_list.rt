//! An MSI-X table of any number of entries, in one block of memory.
ghost use Rattle.std.specs.Prelude.{◌≡◌, ℕ, Some, IfOk, length, slice_get};
ghost use Rattle.pci_space.specs.Fields.{Contents};
ghost use Rattle.doorbell_irq.specs.Registers.{IsEntryAtReset};

use doorbell_irq::{MsixTable, entry_at_reset, reset_all, write_at};
use pci_space::Space;
use std::alloc::{AllocError, Global};

/// Byte offset of Vector Control in an MSI-X entry.
const VECTOR_CONTROL: u16 = 0x0C;

/// The entries of an MSI-X table.
#[derive(Drop)]
pub(crate) struct EntryList {
    entries: Vec<Space<4, 16>>,
}

impl EntryList {
    /// Returns an MSI-X table of `count` entries at reset.
    pub(crate) fn at_reset(alloc: Global, count: u32) -> Result<EntryList, AllocError>
        ensures count { IfOk result (λ t. length t.entries.items ≡ count) }
        ensures reset { IfOk result
            (λ t. (n : ℕ) (entry : Contents) → slice_get t.entries.items n ≡ Some entry → IsEntryAtReset entry) }
    {
        let mut entries = Vec::with_capacity(alloc, count as usize)?;
        for _number in 0..count {
            entries.push_reserved(entry_at_reset());
        }
        Ok(EntryList { entries })
    }
}

impl MsixTable for EntryList {
    ghost entries = { λ t. t.entries.items };

    fn word(&self, n: u32, offset: u16) -> u32 {
        if n as usize >= self.entries.len() {
            return 0;
        }
        self.entries[n as usize].read(offset, 4).unwrap_or(0)
    }

    fn is_masked(&self, n: u32) -> bool {
        if n as usize >= self.entries.len() {
            return false;
        }
        self.entries[n as usize]
            .read(VECTOR_CONTROL, 1)
            .unwrap_or(0)
            % 2
            == 1
    }

    fn write(&mut self, n: u32, offset: u16, value: u32) {
        write_at(&mut self.entries[..], n, offset, value);
    }

    fn reset(&mut self) {
        reset_all(&mut self.entries[..]);
    }
}
