//! The forms of the lines of a text of a bridge, as a table.
ghost use Rattle.std.specs.Prelude.{◌≡◌, ◌≤◌, length};
ghost use Rattle.line_format.specs.Forms.{pieces};
ghost use Rattle.frame_bridge.specs.Table.{pieces_of};

use crate::limits::MOST_ROUNDS;
use line_format::{ANY, FieldKind};

/// A form of a line.
#[derive(Clone, Copy, Debug, PartialEq, Eq)]
pub enum Form {
    /// `bridge 1`
    Version,
    /// `ports K`
    Ports,
    /// `rounds R`
    Rounds,
    /// `begin`
    Begin,
    /// `frame PORT HEX`
    Frame,
    /// `end`
    End,
}

pub const FORMS: [Form; 6] = [
    Form::Version,
    Form::Ports,
    Form::Rounds,
    Form::Begin,
    Form::Frame,
    Form::End,
];

impl Form {
    /// Returns the fields of the form.
    pub fn slots(self) -> &'static [FieldKind]
        ensures value { pieces result.now ≡ pieces_of self }
        ensures few { length result.now ≤ 6 }
    {
        match self {
            Form::Version => &[FieldKind::Word(b"bridge"), FieldKind::Number(1, 1)],
            Form::Ports => &[FieldKind::Word(b"ports"), FieldKind::Number(2, 8)],
            Form::Rounds => &[
                FieldKind::Word(b"rounds"),
                FieldKind::Number(0, MOST_ROUNDS),
            ],
            Form::Begin => &[FieldKind::Word(b"begin")],
            Form::Frame => &[FieldKind::Word(b"frame"), ANY, FieldKind::Hex],
            Form::End => &[FieldKind::Word(b"end")],
        }
    }
}
