//! The ranges of the fields that the other peer writes.
ghost use Rattle.std.specs.Prelude.{◌≡◌, ◌≤◌, IfOk, IfErr, OnOk, length};
ghost use Rattle.ivs_base.specs.Numbers.{distance};
ghost use Rattle.split_ring.specs.Names.{name_of};
ghost use Rattle.split_ring.specs.Ranges.{IsAvailIndex, IsAvailEntry, IsDescAddress, IsDescLength, IsDescFlags, IsUsedIndex, IsUsedId, TestsDecideRanges, needs_event};

use crate::Queue;
use crate::sizes::{LONGEST_FRAME, SHORTEST_FRAME};
use ivs_base::distance;
use thiserror::Error;

/// A field that the other peer writes, as a refusal names it.
#[derive(Clone, Copy, Debug, PartialEq, Eq)]
pub enum FieldName {
    /// The available index.
    AvailIndex,
    /// An entry of the available ring: the number of a descriptor.
    AvailEntry,
    /// The address of a descriptor, as one number of 64 bits.
    DescAddress,
    /// The length of a descriptor.
    DescLength,
    /// The flags of a descriptor.
    DescFlags,
    /// The used index.
    UsedIndex,
    /// The id of a used element.
    UsedId,
}

impl FieldName {
    /// Returns the field's name in texts.
    // claim name, short: Each field has one name in texts, of at most 11 bytes.
    pub fn name(self) -> &'static str
        ensures name { result.now ≡ name_of self }
        ensures short { length result.now ≤ 11 }
    {
        match self {
            FieldName::AvailIndex => "AvailIndex",
            FieldName::AvailEntry => "AvailEntry",
            FieldName::DescAddress => "DescAddress",
            FieldName::DescLength => "DescLength",
            FieldName::DescFlags => "DescFlags",
            FieldName::UsedIndex => "UsedIndex",
            FieldName::UsedId => "UsedId",
        }
    }
}

/// A refused value: its field, and the value as it was read.
#[derive(Clone, Copy, Debug, PartialEq, Eq, Error)]
#[error("{field:?} {value} is out of range")]
pub struct Refused {
    /// The field in whose range the value isn't.
    pub field: FieldName,
    /// The index, the entry, the whole address, the length, the flags or the id; never a distance.
    pub value: u64,
}

impl Refused {
    fn of(field: FieldName, value: u64) -> Refused
        ensures { result ≡ record { field = field; value = value } }
    {
        Refused { field, value }
    }
}

impl Queue {
    /// Checks that the other peer can have published up to `index`, if this peer has read up to
    /// `last`. Returns the distance from `last` to `index`.
    // claim inside, outside with Queue::check_used.inside, Queue::check_used.outside,
    //    Queue::check_entry.inside, Queue::check_entry.outside, Queue::check_address.inside,
    //    Queue::check_address.outside, Queue::check_length.inside, Queue::check_length.outside,
    //    Queue::check_flags.inside, Queue::check_flags.outside, Queue::check_id.inside,
    //    Queue::check_id.outside: A check refuses a value exactly if it is outside the field's
    //    range, and returns the field and the value as read.
    pub fn check_avail(&self, last: u16, index: u16) -> Result<u32, Refused>
        ensures inside { IfOk result (λ d. IsAvailIndex self.now last index × (d ≡ distance last index)) }
        ensures outside { IfErr result (λ r. (¬ IsAvailIndex self.now last index)
            × (r ≡ record { field = FieldName.AvailIndex; value = index })) }
    {
        let found = u32::from(distance(last, index));
        if found > self.size() {
            return Err(Refused::of(FieldName::AvailIndex, u64::from(index)));
        }
        Ok(found)
    }

    /// Checks that the other peer can have returned up to `index`. This peer has freed up to
    /// `last`, and `in_flight` more frames are in flight. Returns the distance from `last` to
    /// `index`.
    pub fn check_used(&self, last: u16, index: u16, in_flight: u32) -> Result<u32, Refused>
        ensures inside { IfOk result (λ d. IsUsedIndex last index in_flight × (d ≡ distance last index)) }
        ensures outside { IfErr result (λ r. (¬ IsUsedIndex last index in_flight)
            × (r ≡ record { field = FieldName.UsedIndex; value = index })) }
    {
        let found = u32::from(distance(last, index));
        if found > in_flight {
            return Err(Refused::of(FieldName::UsedIndex, u64::from(index)));
        }
        Ok(found)
    }

    /// Checks that the available entry is the number of a descriptor, and returns it.
    pub fn check_entry(&self, entry: u16) -> Result<u32, Refused>
        ensures inside { IfOk result (λ i. IsAvailEntry self.now entry × (i ≡ entry)) }
        ensures outside { IfErr result (λ r. (¬ IsAvailEntry self.now entry)
            × (r ≡ record { field = FieldName.AvailEntry; value = entry })) }
    {
        let descriptor = u32::from(entry);
        if descriptor >= self.size() {
            return Err(Refused::of(FieldName::AvailEntry, u64::from(entry)));
        }
        Ok(descriptor)
    }

    /// Checks that the address, in bytes from the start of the section, is a multiple of 4 in the
    /// data area. Returns the address.
    pub fn check_address(&self, address: u64) -> Result<u32, Refused>
        ensures inside { IfOk result (λ a. IsDescAddress self.now address × (a ≡ address)) }
        ensures outside { IfErr result (λ r. (¬ IsDescAddress self.now address)
            × (r ≡ record { field = FieldName.DescAddress; value = address })) }
    {
        let in_data = u64::from(self.payload()) <= address && address < u64::from(self.out());
        if !in_data || !address.is_multiple_of(4) {
            return Err(Refused::of(FieldName::DescAddress, address));
        }
        Ok(address as u32)
    }

    /// Checks that a frame can have this length in bytes, and ends inside the section from
    /// `address` on, which passed its check. Returns the length.
    pub fn check_length(&self, address: u32, length: u32) -> Result<u32, Refused>
        ensures inside { IfOk result (λ n. IsDescLength self.now address length × (n ≡ length)) }
        ensures outside { IfErr result (λ r. (¬ IsDescLength self.now address length)
            × (r ≡ record { field = FieldName.DescLength; value = length })) }
    {
        let end = u64::from(address) + u64::from(length);
        if !(SHORTEST_FRAME..=LONGEST_FRAME).contains(&length) || end > u64::from(self.out()) {
            return Err(Refused::of(FieldName::DescLength, u64::from(length)));
        }
        Ok(length)
    }

    /// Checks that the flags of the descriptor are 0: the frame is whole in one descriptor.
    pub fn check_flags(&self, flags: u16) -> Result<(), Refused>
        ensures inside { OnOk result (IsDescFlags flags) }
        ensures outside { IfErr result (λ r. (¬ IsDescFlags flags)
            × (r ≡ record { field = FieldName.DescFlags; value = flags })) }
    {
        if flags != 0 {
            return Err(Refused::of(FieldName::DescFlags, u64::from(flags)));
        }
        Ok(())
    }

    /// Checks that the used id is `expected`, the descriptor of the oldest frame in flight.
    pub fn check_id(&self, expected: u32, id: u32) -> Result<(), Refused>
        ensures inside { OnOk result (IsUsedId expected id) }
        ensures outside { IfErr result (λ r. (¬ IsUsedId expected id)
            × (r ≡ record { field = FieldName.UsedId; value = id })) }
    {
        if id != expected {
            return Err(Refused::of(FieldName::UsedId, u64::from(id)));
        }
        Ok(())
    }
}

/// Law: the test of each field's range decides whether a value is in it.
// claim: The tests that the calls are defined by are the ranges that the checks refuse by.
pub fn tests_decide_ranges()
    ensures { TestsDecideRanges }
{}

/// Whether the other peer's event index wants a notification when the own index moves from `old` to
/// `new` (VIRTIO 1.1, 2.6.7.2).
// claim: An event is needed exactly by the formula of VIRTIO 1.1.
pub fn need_event(event: u16, new: u16, old: u16) -> bool
    ensures { result ≡ needs_event event new old }
{
    distance(event, new).wrapping_sub(1) < distance(old, new)
}
