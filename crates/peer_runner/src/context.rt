//! The values that the turns of an automatic peer use and leave as they are.
use doorbell_irq::Route;
use shared_words::Words;
use std::alloc::Global;

/// The surroundings of a running peer, which stay the same through all its turns.
#[derive(Clone, Copy)]
pub struct PeerContext<'a> {
    /// The allocator of the lines that the peer records.
    pub alloc: Global,
    /// The words that all peers share.
    pub words: &'a Words,
    /// The number of the peer.
    pub me: u32,
    /// The routes of doorbells to each peer, by its number.
    pub routes: &'a [Route],
}
