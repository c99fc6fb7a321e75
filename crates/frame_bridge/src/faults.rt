//! The faults of a text of a bridge.
ghost use Rattle.std.specs.Prelude.{◌≡◌};
ghost use Rattle.line_format.specs.Answers.{fault_of_text};
ghost use Rattle.frame_bridge.specs.Judge.{fault_at, sense};

use line_format::{TextFault, fault_of_text};
use thiserror::Error;

/// The fault of a line: the first of these that applies, in this order.
#[derive(Clone, Copy, Debug, PartialEq, Eq, Error)]
pub enum Cause {
    #[error("the line has no form")]
    BadLine,
    #[error("the line is out of order")]
    BadOrder,
    #[error("the line has a number out of its range")]
    BadNumber,
    #[error("the line has no frame that fits")]
    BadFrame,
    #[error("the line has one frame too many")]
    TooManyFrames,
}

impl Cause {
    /// Returns the fault of a text whose first faulty line is this one, counted from 1.
    pub fn at(self, line: u64) -> BridgeFault
        ensures { result ≡ fault_at self line }
    {
        match self {
            Cause::BadLine => BridgeFault::BadLine(line),
            Cause::BadOrder => BridgeFault::BadOrder(line),
            Cause::BadNumber => BridgeFault::BadNumber(line),
            Cause::BadFrame => BridgeFault::BadFrame(line),
            Cause::TooManyFrames => BridgeFault::TooManyFrames(line),
        }
    }
}

/// The fault of a text that spells no run of a bridge. A number is that of the first faulty line,
/// from 1. If several faults apply to a line, the first in this order is returned: BadLine,
/// BadOrder, BadNumber, BadFrame, TooManyFrames.
#[derive(Clone, Copy, Debug, PartialEq, Eq, Error)]
pub enum BridgeFault {
    /// The line matches no form, has a byte outside of 20h to 7Eh, or comes after `end`.
    #[error("line {0} has no form")]
    BadLine(u64),
    /// A number field is no number or is out of its range, for example a port that the run doesn't
    /// have.
    #[error("line {0} has a number out of its range")]
    BadNumber(u64),
    /// The hexadecimal digits are no frame of 14 to 274 bytes.
    #[error("line {0} has no frame that fits")]
    BadFrame(u64),
    /// The form isn't allowed at this position.
    #[error("line {0} is out of order")]
    BadOrder(u64),
    /// The line has the 10,001st frame.
    #[error("line {0} has one frame too many")]
    TooManyFrames(u64),
    /// No line is faulty, and there is no `end` line.
    #[error("the text has no end")]
    NoEnd,
    /// An allocation failed.
    #[error("out of memory")]
    NoMemory,
}

impl From<TextFault<Cause>> for BridgeFault {
    ghost from_gives = { λ fault result. result ≡ fault_of_text sense fault };

    fn from(fault: TextFault<Cause>) -> BridgeFault {
        fault_of_text!(fault, BridgeFault)
    }
}
