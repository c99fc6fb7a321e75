//! The doorbells that a peer's registers let through.

/// The doorbells that a peer's registers let through.
#[derive(Clone, Copy, Debug, Default, PartialEq, Eq)]
pub struct Route {
    /// Bit n is set if a trigger with vector n would be delivered with Interrupt Control bit 0 set.
    /// With INTx all bits are set, or none.
    pub vectors: u64,
    /// Whether interrupts are raised by INTx. The reported vector is 0 then.
    pub intx: bool,
    /// Whether a delivery clears Interrupt Control.
    pub one_shot: bool,
    /// Whether interrupts are enabled: Interrupt Control bit 0.
    pub enabled: bool,
}
