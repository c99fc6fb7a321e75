//! Reading a text line by line, for every kind of line.
ghost use Rattle.std.specs.Prelude.{◌≡◌};
ghost use Rattle.line_format.specs.declared.reading.LineFault.TheVariants.{NoMemory as OutOfMemory};
ghost use Rattle.line_format.specs.Machine.{Machine, read};
ghost use Rattle.line_format.specs.Reading.{Gives, Reads};

use crate::cuts::cut;
use ivs_base::NoMemory;
use std::alloc::{AllocError, Global};
use std::fmt::Display;
use thiserror::Error;

/// Why a line was refused.
#[derive(Clone, Copy, Debug, PartialEq, Eq, Error)]
#[error_bound(C: Display)]
pub enum LineFault<C> {
    /// An allocation failed.
    #[error("out of memory")]
    NoMemory,
    /// The line is faulty.
    #[error("{0}")]
    Wrong(C),
}

impl<C> From<AllocError> for LineFault<C> {
    ghost from_gives = { λ _ e. e ≡ OutOfMemory };

    fn from(_e: AllocError) -> LineFault<C> {
        LineFault::NoMemory
    }
}

impl<C> From<NoMemory> for LineFault<C> {
    ghost from_gives = { λ _ e. e ≡ OutOfMemory };

    fn from(_e: NoMemory) -> LineFault<C> {
        LineFault::NoMemory
    }
}

/// The fault of a text. Lines count from 1.
#[derive(Clone, Copy, Debug, PartialEq, Eq, Error)]
#[error_bound(C: Display)]
pub enum TextFault<C> {
    /// An allocation failed.
    #[error("out of memory")]
    NoMemory,
    /// The first faulty line: its cause and its number.
    #[error("line {1}: {0}")]
    At(C, u64),
    /// Bytes come after the end, on the line with this number.
    #[error("line {0} stands after the end")]
    After(u64),
    /// No line is faulty, and none of them is the end.
    #[error("the text has no end")]
    NoEnd,
}

/// A draft that takes the lines of a text one by one.
pub trait TakeLines {
    /// The cause of a line's fault.
    type Cause;
    /// The value of the lines so far.
    ghost DraftView: { Type 0 };

    ghost draft_view: { Self → DraftView };
    /// The effect of a line on the value, and the end of the text.
    ghost machine: { Machine DraftView Self.Cause };

    /// Takes the next line, without its newline. After an error the draft must not be used.
    fn take(&mut self, alloc: Global, line: &[u8]) -> Result<(), LineFault<Self::Cause>>
        ensures { Gives (draft_view self.new) result (machine.step (draft_view self.old) line.now) };

    /// Whether the last line was the end of the text.
    fn has_ended(&self) -> bool
        ensures { result ≡ machine.ended (draft_view self.now) };
}

/// Returns the draft with each line of a text, up to its end.
// claim with TakeLines::take, TakeLines::has_ended: Each line of a text is taken up to its end. The
//    first wrong line is named by its number from 1, bytes after the end by other_start, and a text
//    without an end is refused.
pub fn read_text<D: TakeLines + Drop>(
    alloc: Global,
    mut draft: D,
    bytes: &[u8],
) -> Result<D, TextFault<D::Cause>>
    ensures { Reads D.draft_view result (read D.machine (D.draft_view draft) bytes.now) }
{
    let mut rest = bytes;
    let mut number: u64 = 0;
    while let Some((line, more)) = cut(b'\n', rest) {
        match draft.take(alloc, line) {
            Err(LineFault::NoMemory) => return Err(TextFault::NoMemory),
            Err(LineFault::Wrong(cause)) => return Err(TextFault::At(cause, number + 1)),
            Ok(()) => {}
        }
        if draft.has_ended() {
            if more.is_empty() {
                return Ok(draft);
            }
            return Err(TextFault::After(number + 2));
        }
        number += 1;
        rest = more;
    }
    Err(TextFault::NoEnd)
}
