//! The acts of a scenario: the lines after `begin`.
ghost use Rattle.std.specs.Prelude.{◌≡◌};
ghost use Rattle.scenario_text.specs.Acts.{cost, peer_of};

use ivs_base::Frame;
use line_format::List;

/// One line after `begin`: the next act in the world. `peer` is the peer that the line names.
#[derive(Debug, Drop)]
pub enum Act {
    /// Queues a Tick, which reads the other's state. The peer is an honest link peer.
    Tick {
        peer: u32,
    },
    /// Queues an Offer of this frame; an automatic peer appends the frame to its list instead. The
    /// peer is an honest link peer.
    Offer {
        peer: u32,
        frame: Frame,
    },
    /// Queues a Poll, which delivers the other's frames. The peer is an honest link peer.
    Poll {
        peer: u32,
    },
    /// Queues a Stop, which leaves the link. The peer is an honest link peer.
    Stop {
        peer: u32,
    },
    /// From now on the peer, an honest link peer, chooses its calls until it has delivered `expect`
    /// frames.
    Auto {
        peer: u32,
        expect: u64,
    },
    /// From now on the turns of the peer, a hostile one, are generated writes.
    Storm {
        peer: u32,
        seed: u64,
    },
    /// Takes `steps` turns of the peer, at most `MOST_ACTS`.
    Turn {
        peer: u32,
        steps: u32,
    },
    /// Resets the peer's device.
    Reset {
        peer: u32,
    },
    /// The peer, a hostile one, writes a word of the region, or is denied the write.
    Poke {
        peer: u32,
        word: u32,
        value: u32,
    },
    /// The peer, a hostile one, reads a word of the region.
    Peek {
        peer: u32,
        word: u32,
    },
    /// The peer, a hostile one, writes its State.
    Set {
        peer: u32,
        value: u32,
    },
    /// The peer writes its Doorbell. Target and vector are below 65,536.
    Ring {
        peer: u32,
        target: u32,
        vector: u32,
    },
    /// The peer reads `width` bytes of its configuration space.
    CfgRead {
        peer: u32,
        offset: u16,
        width: u16,
    },
    /// The peer writes `width` bytes of its configuration space.
    CfgWrite {
        peer: u32,
        offset: u16,
        width: u16,
        value: u32,
    },
    /// The peer reads a register.
    MmioRead {
        peer: u32,
        offset: u32,
    },
    /// The peer writes a register; State, at 16, is for hostile peers alone.
    MmioWrite {
        peer: u32,
        offset: u32,
        value: u32,
    },
    /// The peer reads a word of its MSI-X region.
    MsixRead {
        peer: u32,
        offset: u32,
    },
    /// The peer writes a word of its MSI-X region.
    MsixWrite {
        peer: u32,
        offset: u32,
        value: u32,
    },
    /// The next delivery to the peer that isn't lost yet is lost.
    Lose {
        peer: u32,
    },
    /// An interrupt with this vector, below 64, is repeated at the peer.
    Again {
        peer: u32,
        vector: u32,
    },
}

impl Act {
    /// Returns the peer that the line names.
    pub fn peer(&self) -> u32
        ensures { result ≡ peer_of self.now }
    {
        match self {
            Act::Tick { peer }
            | Act::Offer { peer, .. }
            | Act::Poll { peer }
            | Act::Stop { peer }
            | Act::Auto { peer, .. }
            | Act::Storm { peer, .. }
            | Act::Turn { peer, .. }
            | Act::Reset { peer }
            | Act::Poke { peer, .. }
            | Act::Peek { peer, .. }
            | Act::Set { peer, .. }
            | Act::Ring { peer, .. }
            | Act::CfgRead { peer, .. }
            | Act::CfgWrite { peer, .. }
            | Act::MmioRead { peer, .. }
            | Act::MmioWrite { peer, .. }
            | Act::MsixRead { peer, .. }
            | Act::MsixWrite { peer, .. }
            | Act::Lose { peer }
            | Act::Again { peer, .. } => *peer,
        }
    }

    /// Returns the number of acts that the line counts for: `turn P K` for K, any other for 1.
    pub fn cost(&self) -> u64
        ensures { result ≡ cost self.now }
    {
        match self {
            Act::Turn { steps, .. } => u64::from(*steps),
            _ => 1,
        }
    }
}

/// One flag for each peer, from peer 0.
pub type Flags = List<bool>;

/// Acts in their order.
pub type Acts = List<Act>;
