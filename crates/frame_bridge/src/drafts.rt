//! The value of the lines so far.
use crate::positions::Position;
use crate::scripts::SentFrames;

/// A text of which a prefix of the lines was read. The default of a line that wasn't read is 0 or
/// empty.
#[derive(Drop)]
pub struct Draft {
    pub(crate) position: Position,
    pub(crate) ports: u32,
    pub(crate) rounds: u32,
    pub(crate) sent: SentFrames,
}
