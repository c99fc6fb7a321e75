//! The forms of the lines of a text of ports, as a table.
ghost use Rattle.std.specs.Prelude.{◌≡◌, ◌≤◌, length};
ghost use Rattle.line_format.specs.Forms.{pieces};
ghost use Rattle.port_text.specs.Table.{pieces_of};

use crate::limits::MOST_TURNS;
use line_format::{ANY, FieldKind, U32};

/// A form of a line. Two words at one position make two forms.
#[derive(Clone, Copy, Debug, PartialEq, Eq)]
pub enum Form {
    /// `ports 1`
    Version,
    /// `peers N`
    Peers,
    /// `out B`
    Out,
    /// `message M`
    Longest,
    /// `peer P honest`
    Honest,
    /// `peer P hostile`
    Hostile,
    /// `begin`
    Begin,
    /// `publish P HEX`
    Publish,
    /// `sample P FROM`
    Sample,
    /// `turn P K`
    Turn,
    /// `poke P WORD VALUE`
    Poke,
    /// `end`
    End,
}

pub const FORMS: [Form; 12] = [
    Form::Version,
    Form::Peers,
    Form::Out,
    Form::Longest,
    Form::Honest,
    Form::Hostile,
    Form::Begin,
    Form::Publish,
    Form::Sample,
    Form::Turn,
    Form::Poke,
    Form::End,
];

impl Form {
    /// Returns the fields of the form.
    pub fn slots(self) -> &'static [FieldKind]
        ensures value { pieces result.now ≡ pieces_of self }
        ensures few { length result.now ≤ 6 }
    {
        match self {
            Form::Version => &[FieldKind::Word(b"ports"), FieldKind::Number(1, 1)],
            Form::Peers => &[FieldKind::Word(b"peers"), FieldKind::Number(2, 8)],
            Form::Out => &[FieldKind::Word(b"out"), ANY],
            Form::Longest => &[FieldKind::Word(b"message"), U32],
            Form::Honest => &[FieldKind::Word(b"peer"), ANY, FieldKind::Word(b"honest")],
            Form::Hostile => &[FieldKind::Word(b"peer"), ANY, FieldKind::Word(b"hostile")],
            Form::Begin => &[FieldKind::Word(b"begin")],
            Form::Publish => &[FieldKind::Word(b"publish"), ANY, FieldKind::Hex],
            Form::Sample => &[FieldKind::Word(b"sample"), ANY, ANY],
            Form::Turn => &[
                FieldKind::Word(b"turn"),
                ANY,
                FieldKind::Number(0, MOST_TURNS),
            ],
            Form::Poke => &[FieldKind::Word(b"poke"), ANY, U32, U32],
            Form::End => &[FieldKind::Word(b"end")],
        }
    }
}
