//! The calls that a running peer makes before its turns and after the last one.

/// The calls of a running peer. Several threads may call its methods at once, and each call
/// returns.
pub trait Gate {
    /// The call before each turn of a peer, with the number of the turn, from 1.
    fn pass(&self, peer: u32, turn: u64);

    /// The one call after the last turn of each peer that is driven, also after `NoMemory`.
    fn ended(&self, peer: u32);
}

/// A gate whose calls do nothing.
#[derive(Clone, Copy, Debug)]
pub struct OpenGate;

impl Gate for OpenGate {
    fn pass(&self, _peer: u32, _turn: u64) {}

    fn ended(&self, _peer: u32) {}
}
