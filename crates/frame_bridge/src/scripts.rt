//! The value of a text.
use ivs_base::Frame;
use line_format::List;

/// A frame that the station at this port sends.
#[derive(Debug, Drop)]
pub struct Sent {
    pub port: u32,
    pub frame: Frame,
}

/// The frames of the stations, in the order of their lines.
pub type SentFrames = List<Sent>;

/// A bridge's run: 2 to 8 ports, a number of rounds, and the frames that the stations send.
#[derive(Debug, Drop)]
pub struct Script {
    pub ports: u32,
    pub rounds: u32,
    pub sent: SentFrames,
}
