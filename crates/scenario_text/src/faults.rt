//! The faults of a scenario's text.
ghost use Rattle.std.specs.Prelude.{◌≡◌};
ghost use Rattle.line_format.specs.Answers.{fault_of_text};
ghost use Rattle.scenario_text.specs.Judge.{fault_at, sense};

use line_format::{TextFault, fault_of_text};
use thiserror::Error;

/// The fault of a line: the first of these that applies, in this order.
#[derive(Clone, Copy, Debug, PartialEq, Eq, Error)]
pub enum Cause {
    #[error("the line has no form")]
    BadLine,
    #[error("the line is out of order")]
    BadOrder,
    #[error("the line has a number out of its range")]
    BadNumber,
    #[error("the line names a peer that cannot do this")]
    BadPeer,
    #[error("the line has no frame that fits")]
    BadFrame,
    #[error("the line gives sizes that do not fit")]
    BadGeometry,
    #[error("the line makes too many turns")]
    TooManyTurns,
}

impl Cause {
    /// Returns the fault of a text whose first faulty line is this one, counted from 1.
    pub fn at(self, line: u64) -> ScenarioFault
        ensures { result ≡ fault_at self line }
    {
        match self {
            Cause::BadLine => ScenarioFault::BadLine(line),
            Cause::BadOrder => ScenarioFault::BadOrder(line),
            Cause::BadNumber => ScenarioFault::BadNumber(line),
            Cause::BadPeer => ScenarioFault::BadPeer(line),
            Cause::BadFrame => ScenarioFault::BadFrame(line),
            Cause::BadGeometry => ScenarioFault::BadGeometry(line),
            Cause::TooManyTurns => ScenarioFault::TooManyTurns(line),
        }
    }
}

/// The fault of a text that spells no scenario. A number is that of the first faulty line, from 1.
/// If several faults apply to a line, the first in this order is returned: BadLine, BadOrder,
/// BadNumber, BadPeer, BadFrame, BadGeometry, TooManyTurns.
#[derive(Clone, Copy, Debug, PartialEq, Eq, Error)]
pub enum ScenarioFault {
    /// The line matches no form, has a byte outside of 20h to 7Eh, or comes after `end`.
    #[error("line {0} has no form")]
    BadLine(u64),
    /// A number field is no number or is out of its range.
    #[error("line {0} has a number out of its range")]
    BadNumber(u64),
    /// The hexadecimal digits are no frame of 14 to MTU + 18 bytes.
    #[error("line {0} has no frame that fits")]
    BadFrame(u64),
    /// The scenario has no such peer, or the peer isn't of the kind that the act requires.
    #[error("line {0} names a peer that cannot do this")]
    BadPeer(u64),
    /// The `out` line that completes a refused geometry, or the `mtu` line that completes a refused
    /// queue.
    #[error("line {0} gives sizes that do not fit")]
    BadGeometry(u64),
    /// The form isn't allowed at this position.
    #[error("line {0} is out of order")]
    BadOrder(u64),
    /// With this line the acts count for more than `MOST_ACTS`.
    #[error("line {0} makes too many turns")]
    TooManyTurns(u64),
    /// No line is faulty, and there is no `end` line.
    #[error("the text has no end")]
    NoEnd,
    /// An allocation failed.
    #[error("out of memory")]
    NoMemory,
}

impl From<TextFault<Cause>> for ScenarioFault {
    ghost from_gives = { λ fault result. result ≡ fault_of_text sense fault };

    fn from(fault: TextFault<Cause>) -> ScenarioFault {
        fault_of_text!(fault, ScenarioFault)
    }
}
