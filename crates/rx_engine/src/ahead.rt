//! What a receiver returns from a step of a poll about the accesses after it.

/// The next access, which is a read.
#[derive(Clone, Copy, Debug, PartialEq, Eq)]
pub struct NextRead {
    /// The number of the word, from the base of the region.
    pub word: u32,
    /// The number of words of the burst of reads that begins with the word, or 0.
    pub count: u32,
}

/// The writes that return a frame which was read as a whole: the two words of the used element, of
/// which the second is 1, and then the used index.
#[derive(Clone, Copy, Debug, PartialEq, Eq)]
pub struct FrameReturn {
    /// The length of the frame in bytes.
    pub length: u32,
    /// The number of the used element's first word, from the base of the region.
    pub element: u32,
    /// The value of that word: the id of the frame's descriptor.
    pub id: u32,
    /// The number of the word with the used index.
    pub index: u32,
    /// The value of that word.
    pub returned: u32,
}
