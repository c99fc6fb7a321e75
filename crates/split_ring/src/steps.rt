//! The steps of a call: the access that an engine needs next, and its notes after it.
ghost use Rattle.std.specs.Prelude.{◌≡◌};

use crate::Refused;
use arrayvec::ArrayVec;

/// One access of a peer, which is one step. Words are numbered from the base of the region.
#[derive(Clone, Copy, Debug, PartialEq, Eq)]
pub enum Access {
    /// Reads this word.
    Read(u32),
    /// Writes this word: its number, then the value.
    Write(u32, u32),
    /// Writes the own State.
    State(u32),
    /// Writes the Doorbell register.
    Ring {
        /// The target of the doorbell.
        target: u32,
        /// The vector of the doorbell.
        vector: u32,
    },
    /// No access: the only step of a call that is down.
    Nothing,
}

/// The kind of an access's word, which determines its memory order. An index publishes the writes
/// before it. An event index is compared with an index of the other side.
#[derive(Clone, Copy, Debug, PartialEq, Eq)]
pub enum WordKind {
    /// Any other word, or no word of a section.
    Plain,
    /// An index of the other side is read.
    IndexRead,
    /// An own index is written.
    IndexWrite,
    /// The event index of the other side is read.
    EventRead,
    /// The own event index is written.
    EventWrite,
}

/// A note of an engine after a step.
#[derive(Clone, Copy, Debug, PartialEq, Eq, Default)]
pub enum Note {
    /// The other's State, as a Tick read it.
    Saw(u32),
    /// The number of used elements that an offer found.
    Reclaim(u32),
    /// The offered frame doesn't fit; the offer is over.
    Full,
    /// The offered frame is published.
    Accept,
    /// The number of frames that a poll found.
    Look(u32),
    /// A whole frame is read and delivered.
    Deliver,
    /// A used element is published: its frame is returned.
    Return,
    /// The poll is over.
    Done,
    /// The call was made outside RUN, and is over.
    Down,
    /// A value was refused; the State step is next.
    Refuse(Refused),
    /// The call is over.
    #[default]
    Over,
}

/// The notes of one step, in order.
pub type Notes = ArrayVec<Note, 2>;

/// Returns the access of the step after a refusal: the end leaves the link by State 0.
// claim: An end that refuses writes State 0 next.
pub fn leaving() -> Access
    ensures { result ≡ Access.State 0 }
{
    Access::State(0)
}
