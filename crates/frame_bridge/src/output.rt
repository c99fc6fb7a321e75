//! The lines of an output, by a table of their forms.
ghost use Rattle.std.specs.Prelude.{◌≡◌, ◌++◌, OnOk};
ghost use Rattle.line_format.specs.Forms.{pieces};
ghost use Rattle.line_format.specs.Rows.{row, line_of_row};
ghost use Rattle.frame_bridge.specs.Output.{pieces_of};

use line_format::{FieldKind, put_line};
use std::alloc::AllocError;

/// A form of a line of an output.
#[derive(Clone, Copy, Debug, PartialEq, Eq)]
pub enum Line {
    /// `arrive P HEX`
    Arrive,
    /// `port P`
    Port,
    /// `out HEX`
    Out,
    /// `left N`
    Left,
    /// `known K`
    Known,
    /// `end`
    End,
}

const ANY: FieldKind = FieldKind::Number(0, u64::MAX);

impl Line {
    /// Returns the fields of the form.
    pub fn slots(self) -> &'static [FieldKind]
        ensures { pieces result.now ≡ pieces_of self }
    {
        match self {
            Line::Arrive => &[FieldKind::Word(b"arrive"), ANY, FieldKind::Hex],
            Line::Port => &[FieldKind::Word(b"port"), ANY],
            Line::Out => &[FieldKind::Word(b"out"), FieldKind::Hex],
            Line::Left => &[FieldKind::Word(b"left"), ANY],
            Line::Known => &[FieldKind::Word(b"known"), ANY],
            Line::End => &[FieldKind::Word(b"end")],
        }
    }
}

/// Appends the line of a form.
#[tactic(auto, unfolding(line_format::specs::Rows::line_of_row))]
pub fn put(out: &mut Vec<u8>, line: Line, numbers: &[u64], bytes: &[u8]) -> Result<(), AllocError>
    ensures { OnOk result (out.new.items ≡ out.old.items ++ line_of_row pieces_of (row line numbers.now bytes.now)) }
{
    put_line(out, line.slots(), numbers, bytes)
}
