//! The lines of a history.
ghost use Rattle.std.specs.Prelude.{◌≡◌};
ghost use Rattle.lawful_history.specs.LinePeer.{peer_of};

use ivs_base::Frame;
use line_format::List;
use split_ring::Refused;

/// One line of a history, in the order of the record's table of lines: an action of a peer, an
/// interrupt, or a mark.
///
/// Words are numbered from the base of the region, and values are those of whole words.
#[derive(Debug, Drop)]
pub enum Line {
    /// The peer read this value from the word.
    Read {
        peer: u32,
        word: u32,
        value: u32,
    },
    /// The peer wrote this value to the word.
    Write {
        peer: u32,
        word: u32,
        value: u32,
    },
    /// The peer's write of the word was denied, and the word stayed.
    Denied {
        peer: u32,
        word: u32,
    },
    /// The peer wrote its State.
    State {
        peer: u32,
        value: u32,
    },
    /// The peer wrote its Doorbell register with this target and vector.
    Doorbell {
        peer: u32,
        target: u32,
        vector: u32,
    },
    /// An interrupt with this vector was delivered to the peer.
    Interrupt {
        peer: u32,
        vector: u32,
    },
    /// An interrupt with this vector to the peer was lost.
    Lost {
        peer: u32,
        vector: u32,
    },
    /// A device reset of the peer; its State word is 0.
    Reset {
        peer: u32,
    },
    /// A step of the peer without an access.
    Idle {
        peer: u32,
    },
    /// The peer read this value of its configuration space, at this byte offset and of this width
    /// in bytes.
    ConfigRead {
        peer: u32,
        offset: u32,
        width: u32,
        value: u32,
    },
    /// The peer wrote its configuration space.
    ConfigWrite {
        peer: u32,
        offset: u32,
        width: u32,
        value: u32,
    },
    /// The peer read a register, at this byte offset of the register page.
    RegisterRead {
        peer: u32,
        offset: u32,
        value: u32,
    },
    /// The peer wrote a register.
    RegisterWrite {
        peer: u32,
        offset: u32,
        value: u32,
    },
    /// The peer read its MSI-X region, at this byte offset.
    MsixRead {
        peer: u32,
        offset: u32,
        value: u32,
    },
    /// The peer wrote its MSI-X region.
    MsixWrite {
        peer: u32,
        offset: u32,
        value: u32,
    },
    /// Mark: the peer's Tick read this State of the other.
    Saw {
        peer: u32,
        value: u32,
    },
    /// Mark: an offer found this number of used elements.
    Reclaim {
        peer: u32,
        count: u32,
    },
    /// Mark: a poll found this number of frames.
    Look {
        peer: u32,
        count: u32,
    },
    /// Mark: the offered frame doesn't fit; the offer is over.
    Full {
        peer: u32,
    },
    /// Mark: the poll is over.
    Done {
        peer: u32,
    },
    /// Mark: the call is over.
    Over {
        peer: u32,
    },
    /// Mark: the call was made outside RUN, and is over.
    Down {
        peer: u32,
    },
    /// Mark: the frame was published.
    Accept {
        peer: u32,
        frame: Frame,
    },
    /// Mark: the whole frame was read and is delivered.
    Deliver {
        peer: u32,
        frame: Frame,
    },
    /// Mark: one used element was returned.
    Return {
        peer: u32,
    },
    /// Mark: the value of a field was refused.
    Refuse {
        peer: u32,
        refused: Refused,
    },
    /// Mark: the peer enters RUN. `opened` is the number of its own session, and `other` the number
    /// of the other's, or 0 if the other is hostile.
    Session {
        peer: u32,
        opened: u32,
        other: u32,
    },
}

impl Line {
    /// Returns the peer of the line: that of its access or mark, or the target of its interrupt.
    // claim: A line is of one peer: that of its access or mark, or the target of its interrupt.
    pub fn peer(&self) -> u32
        ensures { result ≡ peer_of self.now }
    {
        match self {
            Line::Read { peer, .. }
            | Line::Write { peer, .. }
            | Line::Denied { peer, .. }
            | Line::State { peer, .. }
            | Line::Doorbell { peer, .. }
            | Line::Interrupt { peer, .. }
            | Line::Lost { peer, .. }
            | Line::Reset { peer }
            | Line::Idle { peer }
            | Line::ConfigRead { peer, .. }
            | Line::ConfigWrite { peer, .. }
            | Line::RegisterRead { peer, .. }
            | Line::RegisterWrite { peer, .. }
            | Line::MsixRead { peer, .. }
            | Line::MsixWrite { peer, .. }
            | Line::Saw { peer, .. }
            | Line::Reclaim { peer, .. }
            | Line::Look { peer, .. }
            | Line::Full { peer }
            | Line::Done { peer }
            | Line::Over { peer }
            | Line::Down { peer }
            | Line::Accept { peer, .. }
            | Line::Deliver { peer, .. }
            | Line::Return { peer }
            | Line::Refuse { peer, .. }
            | Line::Session { peer, .. } => *peer,
        }
    }
}

/// A history: its lines in order.
pub type Lines = List<Line>;
