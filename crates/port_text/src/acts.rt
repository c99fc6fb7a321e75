//! The acts of a schedule: the lines after `begin`.
ghost use Rattle.std.specs.Prelude.{◌≡◌};
ghost use Rattle.port_text.specs.Acts.{cost};

use line_format::List;
use std::marker::Model;

/// A message of a port: a list of any bytes.
#[derive(Debug, Drop)]
pub struct Message {
    bytes: Vec<u8>,
}

impl Model for Message {
    ghost use Rattle.std.specs.Prelude.{List, ℕ};

    ghost Value = { List ℕ };

    ghost view = { λ message. message.bytes.items };
}

impl Message {
    /// Returns a message of these bytes, without an allocation.
    pub fn of(bytes: Vec<u8>) -> Message
        ensures { result ≡ bytes.items }
    {
        Message { bytes }
    }

    /// Returns the bytes of the message, in their order.
    // claim with Message::of, Act::cost: A message has its bytes, and an act its cost in steps.
    pub fn bytes(&self) -> &[u8]
        ensures { result.now ≡ self.now }
    {
        self.bytes.as_slice()
    }
}

/// One line after `begin`: the next act. `peer` is the peer that the line names.
#[derive(Debug, Drop)]
pub enum Act {
    /// Queues the publish of this message. The peer is honest.
    Publish { peer: u32, message: Message },
    /// Queues a sample of the peer `from`, which may be `peer` itself. The peer is honest.
    Sample { peer: u32, from: u32 },
    /// Takes `steps` turns of the peer, at most `MOST_TURNS`.
    Turn { peer: u32, steps: u32 },
    /// The peer, a hostile one, writes a word of the region, or is denied the write.
    Poke { peer: u32, word: u32, value: u32 },
}

impl Act {
    /// Returns the number of acts that the line counts for: `turn P K` for K, any other for 1.
    pub fn cost(&self) -> u64
        ensures { result ≡ cost self.now }
    {
        match self {
            Act::Turn { steps, .. } => u64::from(*steps),
            _ => 1,
        }
    }
}

/// Acts in their order.
pub type Acts = List<Act>;
