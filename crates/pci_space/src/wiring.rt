//! The wiring of interrupts, and the fields that depend on it.
ghost use Rattle.std.specs.Prelude.{◌≡◌};
ghost use Rattle.pci_space.specs.Wiring.{IsWiring, if_msix, last_vector};

/// The means by which a world's devices raise interrupts.
///
/// Each function that has a wiring as an argument requires 1 to `MOST_VECTORS` vectors.
#[derive(Clone, Copy, Debug, PartialEq, Eq)]
pub enum Wiring {
    /// By MSI-X messages, with this many vectors.
    Msix(u32),
    /// By INTx.
    Intx,
}

impl Wiring {
    /// Returns the first number with MSI-X, the second with INTx.
    pub(crate) fn choose(self, with_msix: u64, with_intx: u64) -> u64
        ensures { result ≡ if_msix self with_msix with_intx }
    {
        match self {
            Wiring::Msix(_) => with_msix,
            Wiring::Intx => with_intx,
        }
    }

    /// Returns the number of the last vector, as in Message Control; 0 with INTx.
    pub(crate) fn last_vector(self) -> u64
        requires { IsWiring self }
        ensures { result ≡ last_vector self }
    {
        match self {
            Wiring::Msix(vectors) => u64::from(vectors - 1),
            Wiring::Intx => 0,
        }
    }
}
