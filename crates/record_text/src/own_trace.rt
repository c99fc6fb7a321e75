//! The actions of a peer that ran in a thread of its own.
ghost use Rattle.record_text.specs.OwnLines.{AreOwn};

use lawful_history::Lines;

/// The actions of a running peer, in its own order. The lines of a trace are accesses, doorbells,
/// interrupts, resets and marks of this peer, those of its sessions included. Every frame has at
/// least one byte. So each trace has a spelling.
#[derive(Debug, Drop)]
pub struct OwnTrace {
    /// The peer's number.
    pub peer: u32,
    /// Its actions, without its quiet calls.
    pub lines: Lines,
    /// The number of its steps, those of quiet calls among them.
    pub turns: u64,
    /// Whether after its last turn no call was open and it had nothing left to do; else it took all
    /// its turns.
    pub finished: bool,
    pub ghost own: { AreOwn peer lines },
}
