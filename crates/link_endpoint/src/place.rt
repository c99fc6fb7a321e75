//! The calls of an end, and the place in an open call.

/// A call that an end may make. An offer has a frame, so it has a method of its own.
#[derive(Clone, Copy, Debug, PartialEq, Eq)]
pub enum Call {
    /// Reads the other's State, and follows the handshake.
    Tick,
    /// Delivers the frames that the other published.
    Poll,
    /// Leaves the link.
    Stop,
}

/// The place in the open call, which determines its next step.
#[derive(Clone, Copy, Debug)]
pub(crate) enum Place {
    /// No call is open.
    Closed,
    /// Before the read of the other's state.
    ReadingOtherState,
    /// Before the write of 0 to an own word.
    Clearing {
        /// The number of that word in the region.
        at: u32,
        /// The value of the State step after the last word.
        then: u32,
    },
    /// Before the State step with this value, which ends a Tick or a Stop.
    WritingState(u32),
    /// Before the State step of a refusal, State 0.
    Refusing,
    /// Before the only step of an offer or a poll outside RUN.
    NotInRun,
    /// In an offer, at the place of the sender.
    Offering,
    /// In a poll, at the place of the receiver.
    Polling,
}
