//! Captured frames as values.
use ivs_base::Frame;
use line_format::List;

/// A captured frame, and its time.
#[derive(Debug, Drop)]
pub struct Packet {
    /// The whole seconds of its time.
    pub seconds: u32,
    /// The microseconds in addition to the seconds; a file may have more than a second of them.
    pub micros: u32,
    /// The length of the original frame, in bytes. If it isn't the length of `frame`, the capture
    /// was shortened.
    pub original: u32,
    /// The bytes that were captured.
    pub frame: Frame,
}

/// Packets in their order.
pub type Packets = List<Packet>;

/// The contents of a capture file.
#[derive(Debug, Drop)]
pub struct Capture {
    /// The most bytes of a frame that were captured.
    pub snaplen: u32,
    /// The packets, in their order.
    pub packets: Packets,
}
