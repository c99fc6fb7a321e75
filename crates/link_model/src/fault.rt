//! The faults of a history that is checked line by line.
ghost use Rattle.std.specs.Prelude.{◌≡◌};
ghost use Rattle.link_model.specs.LawNames.{name_of};
ghost use Rattle.link_model.specs.declared.fault.StepFault.TheVariants.{NoMemory as OutOfMemory};

use ivs_base::NoMemory;
use thiserror::Error;

/// The law that a line breaks.
#[derive(Clone, Copy, Debug, PartialEq, Eq)]
pub enum Law {
    /// The schedule has a step of another peer there, or no step.
    Order,
    /// An interrupt, a register or the configuration space differs.
    Device,
    /// A peer wrote a word that it may not write, or was denied a word that it may write.
    Touch,
    /// A read returned another value than the last one written to the word.
    Memory,
    /// A mark of the link differs.
    Link,
    /// The call has another step there.
    Call,
}

impl Law {
    /// Returns the law's name in texts, one word.
    // claim: Each law has one name in texts.
    pub fn name(self) -> &'static str
        ensures { result.now ≡ name_of self }
    {
        match self {
            Law::Order => "order",
            Law::Device => "device",
            Law::Touch => "touch",
            Law::Memory => "memory",
            Law::Link => "link",
            Law::Call => "call",
        }
    }
}

/// An unlawful line: its number and the law that it breaks.
#[derive(Clone, Copy, Debug, PartialEq, Eq, Error)]
#[error("line {line} breaks the law {law:?}")]
pub struct Unlawful {
    /// The number of the line. The first line of the history is line 1.
    pub line: u64,
    /// The law that it breaks.
    pub law: Law,
}

/// The reason why a line of a history wasn't taken.
#[derive(Clone, Copy, Debug, PartialEq, Eq, Error)]
pub enum StepFault {
    /// No lawful history of the scenario continues with this line.
    #[error("{0}")]
    Unlawful(Unlawful),
    /// Memory ran out.
    #[error("out of memory")]
    NoMemory,
}

impl From<NoMemory> for StepFault {
    ghost from_gives = { λ _ fault. fault ≡ OutOfMemory };

    fn from(_e: NoMemory) -> StepFault {
        StepFault::NoMemory
    }
}
