//! The steps of `Rx::took_field`, one function for each field of an item.
ghost use Rattle.std.specs.Prelude.{◌≡◌, ◌+◌, ◌<◌};
ghost use Rattle.split_ring.specs.Layout.{word_offset, DescAddress};
ghost use Rattle.split_ring.specs.Ranges.{IsAvailEntry};
ghost use Rattle.rx_engine.specs.Items.{PassesRead};

use crate::Rx;
use crate::ahead::NextRead;
use crate::place::Place;
use split_ring::{desc_flags, entry_half};

impl Rx {
    /// Returns the read of word `at` of a descriptor.
    fn descriptor_read(&self, entry: u32, at: u32) -> NextRead
        requires entry { IsAvailEntry self.now.sizes entry }
        requires at { at < 4 }
        ensures { result ≡
            record { word = self.now.other_start + (word_offset self.now.sizes (DescAddress entry) + at); count = 0 } }
    {
        NextRead {
            word: self.other_start + (self.queue.descriptor(entry) + at),
            count: 0,
        }
    }

    /// Completes the read of an item's available entry, if it passes its check.
    pub(crate) fn passed_entry(&mut self, more: u32, value: u32) -> Option<NextRead>
        requires place { self.old.place ≡ Place.ReadingAvailEntry more }
        ensures { PassesRead self.old value result self.new }
    {
        match self.queue.check_entry(entry_half(self.returned, value)) {
            Err(_) => None,
            Ok(entry) => {
                self.go_on(Place::ReadingDescAddressLow { more, entry });
                Some(self.descriptor_read(entry, 0))
            }
        }
    }

    /// Completes the read of an address's low word.
    pub(crate) fn passed_low(&mut self, more: u32, entry: u32, value: u32) -> Option<NextRead>
        requires place { self.old.place ≡ Place.ReadingDescAddressLow more entry }
        requires entry { IsAvailEntry self.old.sizes entry }
        ensures { PassesRead self.old value result self.new }
    {
        self.go_on(Place::ReadingDescAddressHigh {
            more,
            entry,
            low: value,
        });
        Some(self.descriptor_read(entry, 1))
    }

    /// Completes the read of an address's high word, if the whole address passes its check.
    pub(crate) fn passed_high(
        &mut self,
        more: u32,
        entry: u32,
        low: u32,
        value: u32,
    ) -> Option<NextRead>
        requires place { self.old.place ≡ Place.ReadingDescAddressHigh more entry low }
        ensures { PassesRead self.old value result self.new }
    {
        let whole = u64::from(low) + (u64::from(value) << 32);
        match self.queue.check_address(whole) {
            Err(_) => None,
            Ok(address) => {
                self.go_on(Place::ReadingDescLength {
                    more,
                    entry,
                    address,
                });
                Some(self.descriptor_read(entry, 2))
            }
        }
    }

    /// Completes the read of a descriptor's length, if it passes its check.
    pub(crate) fn passed_length(
        &mut self,
        more: u32,
        entry: u32,
        address: u32,
        value: u32,
    ) -> Option<NextRead>
        requires place { self.old.place ≡ Place.ReadingDescLength more entry address }
        ensures { PassesRead self.old value result self.new }
    {
        let Ok(bytes) = self.queue.check_length(address, value) else {
            return None;
        };
        self.go_on(Place::ReadingDescFlags {
            more,
            entry,
            address,
            bytes,
        });
        Some(self.descriptor_read(entry, 3))
    }

    /// Completes the read of a descriptor's flags, if they pass their check. The frame is next.
    pub(crate) fn passed_flags(
        &mut self,
        more: u32,
        entry: u32,
        address: u32,
        bytes: u32,
        value: u32,
    ) -> Option<NextRead>
        requires place { self.old.place ≡ Place.ReadingDescFlags more entry address bytes }
        ensures { PassesRead self.old value result self.new }
    {
        match self.queue.check_flags(desc_flags(value)) {
            Err(_) => None,
            Ok(()) => {
                self.go_on(Place::ReadingFrameWord {
                    more,
                    entry,
                    address,
                    bytes,
                    at: 0,
                });
                Some(NextRead {
                    word: self.other_start + address / 4,
                    count: bytes.div_ceil(4),
                })
            }
        }
    }
}
