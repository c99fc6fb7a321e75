//! The lines of a record, as a table of forms.
ghost use Rattle.std.specs.Prelude.{◌≡◌, ◌++◌, OnOk};
ghost use Rattle.line_format.specs.Forms.{pieces};
ghost use Rattle.line_format.specs.Rows.{row, line_of_row};
ghost use Rattle.sampling_port.specs.LineRows.{pieces_of_line, refusal_form};

use crate::notes::PortField;
use line_format::{ANY, FieldKind, U32, put_line};
use std::alloc::AllocError;

/// A form of a record's lines. Two words at one position make two forms.
#[derive(Clone, Copy, Debug, PartialEq, Eq)]
pub enum Form {
    /// `portrecord 1`
    Head,
    /// `r P W V`
    Read,
    /// `w P W V`
    Wrote,
    /// `denied P W`
    Denied,
    /// `idle P`
    Idle,
    /// `publish P S`
    Publish,
    /// `none P FROM`
    Nothing,
    /// `got P FROM S HEX`
    Got,
    /// `again P FROM A B`
    Again,
    /// `refuse P Sequence V`
    RefuseSequence,
    /// `refuse P Length V`
    RefuseLength,
    /// `end COUNT`
    End,
}

impl Form {
    /// Returns the form of the line of a refusal.
    pub fn of_refusal(field: PortField) -> Form
        ensures { result ≡ refusal_form field }
    {
        match field {
            PortField::Sequence => Form::RefuseSequence,
            PortField::Length => Form::RefuseLength,
        }
    }

    /// Returns the fields of the form.
    pub fn slots(self) -> &'static [FieldKind]
        ensures { pieces result.now ≡ pieces_of_line self }
    {
        match self {
            Form::Head => &[FieldKind::Word(b"portrecord"), FieldKind::Number(1, 1)],
            Form::Read => &[FieldKind::Word(b"r"), U32, U32, U32],
            Form::Wrote => &[FieldKind::Word(b"w"), U32, U32, U32],
            Form::Denied => &[FieldKind::Word(b"denied"), U32, U32],
            Form::Idle => &[FieldKind::Word(b"idle"), U32],
            Form::Publish => &[FieldKind::Word(b"publish"), U32, U32],
            Form::Nothing => &[FieldKind::Word(b"none"), U32, U32],
            Form::Got => &[FieldKind::Word(b"got"), U32, U32, U32, FieldKind::Hex],
            Form::Again => &[FieldKind::Word(b"again"), U32, U32, U32, U32],
            Form::RefuseSequence => &[
                FieldKind::Word(b"refuse"),
                U32,
                FieldKind::Word(b"Sequence"),
                U32,
            ],
            Form::RefuseLength => &[
                FieldKind::Word(b"refuse"),
                U32,
                FieldKind::Word(b"Length"),
                U32,
            ],
            Form::End => &[FieldKind::Word(b"end"), ANY],
        }
    }
}

/// Appends the line of a form.
#[tactic(auto, unfolding(line_format::specs::Rows::line_of_row))]
pub fn put(out: &mut Vec<u8>, form: Form, numbers: &[u64], bytes: &[u8]) -> Result<(), AllocError>
    ensures { OnOk result (out.new.items ≡
        out.old.items ++ line_of_row pieces_of_line (row form numbers.now bytes.now)) }
{
    put_line(out, form.slots(), numbers, bytes)
}
