//! The place in an open poll.
ghost use Rattle.std.specs.Prelude.{◌≡◌};
ghost use Rattle.rx_engine.specs.Receiver.{given};

/// The place of a poll between two steps, before the access that it is named after. `more` is the
/// number of items after the current one, and `entry` is the current item's descriptor. `address`
/// and `bytes` are in bytes, and `at` is the number of words of the frame that were read.
#[derive(Clone, Copy, Debug)]
pub(crate) enum Place {
    /// No poll is open.
    Closed,
    /// The read of the available index. If it finds no frame, the poll ends if `last`, and
    /// avail_event is written next if not.
    ReadingAvailIndex {
        last: bool,
    },
    /// The write of the own avail_event.
    WritingAvailEvent,
    /// The read of the item's available entry.
    ReadingAvailEntry {
        more: u32,
    },
    /// The read of the low word of the descriptor's address.
    ReadingDescAddressLow {
        more: u32,
        entry: u32,
    },
    /// The read of the high word of the descriptor's address.
    ReadingDescAddressHigh {
        more: u32,
        entry: u32,
        low: u32,
    },
    /// The read of the descriptor's length.
    ReadingDescLength {
        more: u32,
        entry: u32,
        address: u32,
    },
    /// The read of the descriptor's flags.
    ReadingDescFlags {
        more: u32,
        entry: u32,
        address: u32,
        bytes: u32,
    },
    /// The read of a word of the frame.
    ReadingFrameWord {
        more: u32,
        entry: u32,
        address: u32,
        bytes: u32,
        at: u32,
    },
    /// The write of the used element's id.
    WritingUsedId {
        more: u32,
        entry: u32,
    },
    /// The write of the used element's length.
    WritingUsedLength {
        more: u32,
    },
    /// The write of the used index.
    WritingUsedIndex {
        more: u32,
    },
    /// The doorbell, after the last item.
    Ringing,
    /// The State step of a poll that refused a value.
    Refusing,
}

/// Returns the place after `count` writes of a used element's words, with `count` 1 or 2.
pub(crate) fn used_element_place(more: u32, count: u32) -> Place
    ensures { result ≡ given more count }
{
    if count == 1 {
        Place::WritingUsedLength { more }
    } else {
        Place::WritingUsedIndex { more }
    }
}
