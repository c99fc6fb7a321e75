//! The results of a call of a device, in addition to changed registers.
use arrayvec::ArrayVec;

/// An interrupt that reaches a peer.
#[repr(C)]
#[derive(Clone, Copy, Debug, Default, PartialEq, Eq)]
pub struct Delivery {
    /// The peer.
    pub peer: u32,
    /// The vector: 0 with INTx.
    pub vector: u32,
}

/// The State word and the interrupts of one call.
#[derive(Debug, Drop)]
pub struct Effect {
    /// The peer's word of the State Table, if the call writes it, changed or not.
    pub state: Option<u32>,
    /// The deliveries, in ascending order of peer.
    pub deliveries: ArrayVec<Delivery, 8>,
}
