//! The place of an open publish or sample.
ghost use Rattle.std.specs.Prelude.{◌≡◌};
ghost use Rattle.sampling_port.specs.Views.{writing_place, reading_place};

/// The place of a call between two steps, before the access that it is named after. `at` is the
/// number of a word of the message, and `more` the number of words after it. `bytes` is the length
/// of the message in bytes.
///
/// A publish writes the sequence last, since a sampler reads the message once it has read its
/// number. A sample reads it again at its end: if the number hasn't changed, the buffer wasn't
/// written in between.
#[derive(Clone, Copy, Debug)]
pub enum Place {
    /// No call is open.
    Closed,
    /// The write of the message's length.
    WritingLength,
    /// The write of a word of the message.
    WritingWord {
        at: u32,
        more: u32,
    },
    /// The write of the sequence, with which the message is published.
    WritingSequence,
    /// The first read of the sequence of this peer.
    AtSequence {
        from: u32,
    },
    /// The read of the length of the message with this number.
    AtLength {
        from: u32,
        sequence: u32,
    },
    /// The read of a word of the message.
    AtWord {
        from: u32,
        sequence: u32,
        bytes: u32,
        at: u32,
        more: u32,
    },
    /// The second read of the sequence.
    AtSecond {
        from: u32,
        sequence: u32,
    },
}

/// Returns the place of a publish before word `at`, with `count` words of its message to write.
pub fn writing_place(at: u32, count: u32) -> Place
    ensures { result ≡ writing_place at count }
{
    if count == 0 {
        return Place::WritingSequence;
    }
    Place::WritingWord {
        at,
        more: count - 1,
    }
}

/// Returns the place of a sample before word `at`, with `count` words of its message to read.
pub fn reading_place(from: u32, sequence: u32, bytes: u32, at: u32, count: u32) -> Place
    ensures { result ≡ reading_place from sequence bytes at count }
{
    if count == 0 {
        return Place::AtSecond { from, sequence };
    }
    Place::AtWord {
        from,
        sequence,
        bytes,
        at,
        more: count - 1,
    }
}
