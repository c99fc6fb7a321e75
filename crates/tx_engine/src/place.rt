//! The place in an open offer.
ghost use Rattle.std.specs.Prelude.{◌≡◌, ◌+◌, ◌-◌, ◌<◌, ◌≤◌, ◌++◌, length};
ghost use Rattle.split_ring.specs.declared.sizes.TheConstants.{FRAME_OVERHEAD, SHORTEST_FRAME};
ghost use Rattle.split_ring.specs.Layout.{limit_of};
ghost use Rattle.tx_engine.specs.Continuations.{GoesOn, descriptor_place_of, full_notes, place_after_index};

use frame_slots::{Slot, Slots};
use split_ring::steps::{Note, Notes};

/// The place in the open offer, which determines its next step. A slot is the slot of the offered
/// frame.
///
/// The index is written after the words, the descriptor and the available entry, because the other
/// end reads them after the index. The other's avail_event is read after the write of the index,
/// because the other writes avail_event before it reads the index again. The doorbell is last,
/// because it makes the other read the index.
#[derive(Clone, Copy, Debug)]
pub enum Place {
    /// No offer is open.
    Closed,
    /// Before the State step of a refusal.
    Refusing,
    /// Before the read of the used index.
    ReadingUsedIndex,
    /// Before the read of the id of the oldest frame in flight.
    ReadingUsedId {
        /// The number of ids to read after this one.
        more: u32,
    },
    /// Before the write of a word of the frame.
    WritingFrameWord {
        /// The slot of the frame.
        slot: Slot,
        /// The index of the word in the frame.
        at: u32,
        /// The number of words of the frame after this one.
        more: u32,
    },
    /// Before the write of the low word of the descriptor's address.
    WritingDescAddressLow(Slot),
    /// Before the write of the high word of the descriptor's address.
    WritingDescAddressHigh(Slot),
    /// Before the write of the descriptor's length.
    WritingDescLength(Slot),
    /// Before the write of the descriptor's flags.
    WritingDescFlags(Slot),
    /// Before the write of the available entry.
    WritingAvailEntry(Slot),
    /// Before the write of the available index.
    WritingAvailIndex,
    /// Before the read of the other's avail_event, in a link with events.
    ReadingAvailEvent,
    /// Before the doorbell.
    Ringing,
}

/// Adds a Full note if the offer is over after its reads, because the frame doesn't fit.
pub fn note_full(place: Place, notes: &mut Notes)
    requires { length notes.old.items < 2 }
    ensures { notes.new.items ≡ notes.old.items ++ full_notes place }
{
    if let Place::Closed = place {
        notes.push(Note::Full);
    }
}

/// Returns the place before word `at` of the frame in `slot` if `count` words are left. Returns the
/// place after the last word if `count` is 0.
pub fn frame_place(slot: Slot, at: u32, count: u32) -> Place
    ensures word { 0 < count → result ≡ Place.WritingFrameWord slot at (count - 1) }
    ensures after { count ≡ 0 → result ≡ Place.WritingDescAddressLow slot }
{
    if count == 0 {
        return Place::WritingDescAddressLow(slot);
    }
    Place::WritingFrameWord {
        slot,
        at,
        more: count - 1,
    }
}

/// Returns the place after `count` writes of the descriptor's words.
pub fn descriptor_place(slot: Slot, count: u32) -> Place
    ensures { result ≡ descriptor_place_of slot count }
{
    match count {
        0 => Place::WritingDescAddressLow(slot),
        1 => Place::WritingDescAddressHigh(slot),
        2 => Place::WritingDescLength(slot),
        3 => Place::WritingDescFlags(slot),
        _ => Place::WritingAvailEntry(slot),
    }
}

/// Returns the place after the write of the available index. `events` says whether the link has
/// events.
pub fn place_after_index(events: bool) -> Place
    ensures { result ≡ place_after_index events }
{
    if events {
        Place::ReadingAvailEvent
    } else {
        Place::Ringing
    }
}

/// Returns the place after a read, with `ids` more ids to read: the next id if there is one.
/// Otherwise the frame of `bytes` bytes gets a slot, its length is stored by its descriptor, and
/// its first word is next. If the frame doesn't fit, the offer is over.
pub fn offer_after_ids(slots: &mut Slots, lengths: &mut [u32], bytes: u32, ids: u32) -> Place
    requires kept { length lengths.old ≡ limit_of slots.old.sizes }
    requires least { SHORTEST_FRAME ≤ bytes }
    requires most { bytes ≤ slots.old.sizes.mtu + FRAME_OVERHEAD }
    ensures { GoesOn slots.old lengths.old bytes ids result slots.new lengths.new }
{
    if ids > 0 {
        return Place::ReadingUsedId { more: ids - 1 };
    }
    match slots.place(bytes) {
        Some(slot) => {
            lengths[slot.descriptor as usize] = bytes;
            frame_place(slot, 0, bytes.div_ceil(4))
        }
        None => Place::Closed,
    }
}
