//! The bursts that an offer writes before its index.

/// A burst: consecutive words of the region.
#[derive(Clone, Copy, Debug, PartialEq, Eq)]
pub struct Burst {
    /// The number of the first word, from the base of the region.
    pub word: u32,
    /// The number of words.
    pub count: u32,
}

/// The bursts that an offer writes before its index, in order, from a word of the frame on.
#[derive(Clone, Copy, Debug, PartialEq, Eq)]
pub struct Bursts {
    /// The words left of the frame.
    pub frame: Burst,
    /// The four words of the descriptor.
    pub descriptor: Burst,
    /// The word that holds the available entry.
    pub entry: Burst,
}

/// The writes that publish a frame, from a word of it on: the bursts before the index, and the
/// index.
#[derive(Clone, Copy, Debug, PartialEq, Eq)]
pub struct Publication {
    /// The bursts before the index.
    pub bursts: Bursts,
    /// The number of the word with the available index, from the base of the region.
    pub index: u32,
    /// The value of that word.
    pub accepted: u32,
}
