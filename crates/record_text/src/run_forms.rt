//! The forms of a running record's lines, as a table.
ghost use Rattle.std.specs.Prelude.{◌≡◌};
ghost use Rattle.line_format.specs.Forms.{pieces};
ghost use Rattle.record_text.specs.RunTable.{run_pieces_of};

use crate::forms::LineForm;
use line_format::FieldKind;

/// A form of the lines after a running record's scenario.
#[derive(Clone, Copy, Debug)]
pub enum RunForm {
    /// A line of a history, or `end COUNT`.
    Own(LineForm),
    /// `peer P`
    Peer,
    /// `turns T`
    Turns,
    /// `finished`
    Finished,
    /// `spent`
    Spent,
}

impl RunForm {
    /// The fields of the form.
    pub fn slots(self) -> &'static [FieldKind]
        ensures { pieces result.now ≡ run_pieces_of self }
    {
        match self {
            RunForm::Own(form) => form.slots(),
            RunForm::Peer => &[
                FieldKind::Word(b"peer"),
                FieldKind::Number(0, u32::MAX as u64),
            ],
            RunForm::Turns => &[FieldKind::Word(b"turns"), FieldKind::Number(0, u64::MAX)],
            RunForm::Finished => &[FieldKind::Word(b"finished")],
            RunForm::Spent => &[FieldKind::Word(b"spent")],
        }
    }
}
