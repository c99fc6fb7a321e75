//! A text as a table of forms and tests, and the taking of one line of it, for every such table.
ghost use Rattle.std.specs.Prelude.{◌≡◌, ◌≤◌, length, true, false, IfOk, option_map};
ghost use Rattle.line_format.specs.Forms.{pieces, texts, AreInRange};
ghost use Rattle.line_format.specs.Rows.{find_form};
ghost use Rattle.line_format.specs.Reading.{Gives};
ghost use Rattle.line_format.specs.Grammar.{Rules, added, bytes_in, is_out_of_order, judge, machine_of, step};

use crate::forms::{FieldKind, fields, has_form, hex_field, is_printable, number_in, numbers_in};
use crate::hex_digits::read_hex;
use crate::reading::{LineFault, TakeLines};
use std::alloc::{AllocError, Global};

/// A test that each line of each text has to pass, in the order of the tests.
#[derive(Clone, Copy, Debug, PartialEq, Eq)]
pub enum Test {
    /// The line has a form.
    Line,
    /// The form is allowed at this position.
    Order,
    /// Each number field is a number in its range.
    Number,
    /// The text has the peer that the line names, and the peer can do this.
    Peer,
    /// The digits spell bytes of a length that fits.
    Bytes,
    /// The sizes that the line completes fit one another.
    Sizes,
    /// The text has room for the line.
    Count,
}

/// The lines so far of a text, with the table of the tests of the next line.
pub trait Grammar {
    /// The forms of lines.
    type Form: Copy + 'static;
    /// The fault of a line.
    type Cause;
    /// The value of the lines so far.
    ghost DraftView: { Type 0 };

    ghost draft_view: { Self → DraftView };
    /// The table.
    ghost rules: { Rules DraftView Self.Form Self.Cause };

    /// Returns all forms.
    fn forms() -> &'static [Self::Form]
        ensures { result.now ≡ rules.forms };

    /// Returns the fields of the form.
    fn slots(form: Self::Form) -> &'static [FieldKind]
        ensures value { pieces result.now ≡ rules.pieces_of form }
        ensures few { length result.now ≤ 6 };

    /// Returns the fault of a line that fails the test.
    fn cause(test: Test) -> Self::Cause
        ensures { result ≡ rules.cause test };

    /// Whether lines of the form can come at this position.
    fn is_at(&self, form: Self::Form) -> bool
        ensures { result ≡ rules.is_at (draft_view self.now) form };

    /// Whether the form is forbidden at this position for peer `p`.
    fn is_out_of_turn(&self, form: Self::Form, p: u64) -> bool
        ensures { result ≡ rules.is_out_of_turn (draft_view self.now) form p };

    /// Whether the numbers, each in the form's own range, are in the ranges at this position.
    fn is_in_range(&self, form: Self::Form, numbers: &[u64]) -> bool
        ensures { result ≡ rules.is_in_range (draft_view self.now) form numbers.now };

    /// Whether the text has the peer that the line names, and the peer can do this.
    fn is_its_peer(&self, form: Self::Form, numbers: &[u64]) -> bool
        ensures { result ≡ rules.is_its_peer (draft_view self.now) form numbers.now };

    /// Whether a line of the form may have `size` bytes.
    fn fits(&self, form: Self::Form, size: u64) -> bool
        ensures { result ≡ rules.fits (draft_view self.now) form size };

    /// Adds the value of the line, unless the row fails the test of sizes or of the count.
    fn add(
        &mut self,
        alloc: Global,
        form: Self::Form,
        fields: &[&[u8]],
        numbers: &[u64],
        bytes: Vec<u8>,
    ) -> Result<(), LineFault<Self::Cause>>
        requires order { is_out_of_order rules (draft_view self.old) form (texts fields.now) ≡
            false }
        requires limits { AreInRange (rules.pieces_of form) numbers.now }
        requires range { rules.is_in_range (draft_view self.old) form numbers.now ≡ true }
        requires peer { rules.is_its_peer (draft_view self.old) form numbers.now ≡ true }
        ensures { Gives (draft_view self.new) result (added rules (draft_view self.old) form numbers.now bytes.items) };

    /// Whether the last line was the end of the text.
    fn is_ended(&self) -> bool
        ensures { result ≡ rules.ended (draft_view self.now) };

    /// No form has more fields than a line may have.
    ghost few: { (form : Self.Form) → length (rules.pieces_of form) ≤ 6 };
}

/// Returns the form of a line with these fields, if it has one.
#[tactic(auto, unfolding(crate::specs::Rows::find_form))]
fn form_of<G: Grammar>(fields: &[&[u8]]) -> Option<G::Form>
    ensures { result ≡ find_form G.rules.pieces_of G.rules.forms (texts fields.now) }
{
    G::forms()
        .iter()
        .copied()
        .find(|form| has_form(G::slots(*form), fields))
}

/// Whether the form can't come at this position, or not for the peer that the line names.
fn is_out_of_order<G: Grammar>(draft: &G, form: G::Form, fields: &[&[u8]]) -> bool
    ensures { result ≡ is_out_of_order G.rules (G.draft_view draft.now) form (texts fields.now) }
{
    if !draft.is_at(form) {
        return true;
    }
    match number_in(fields, 1) {
        None => false,
        Some(p) => draft.is_out_of_turn(form, p),
    }
}

/// Returns the bytes of the line, if its digits spell some that fit. Digits of a wrong number are
/// not read.
fn bytes_of<G: Grammar>(
    draft: &G,
    alloc: Global,
    form: G::Form,
    fields: &[&[u8]],
) -> Result<Option<Vec<u8>>, AllocError>
    ensures { IfOk result (λ o. option_map (λ v. v.items) o ≡
        bytes_in G.rules (G.draft_view draft.now) form (texts fields.now)) }
{
    let digits = hex_field(G::slots(form), fields);
    if !draft.fits(form, digits.len() as u64 / 2) {
        return Ok(None);
    }
    read_hex(alloc, digits)
}

/// Takes a line of this form: the tests from that of its position on.
#[tactic(auto, unfolding(crate::specs::Grammar::judge))]
fn judge<G: Grammar>(
    draft: &mut G,
    alloc: Global,
    form: G::Form,
    fields: &[&[u8]],
) -> Result<(), LineFault<G::Cause>>
    ensures { Gives (G.draft_view draft.new) result (judge G.rules (G.draft_view draft.old) form (texts fields.now)) }
{
    if is_out_of_order(draft, form, fields) {
        return Err(LineFault::Wrong(G::cause(Test::Order)));
    }
    let Some(numbers) = numbers_in(G::slots(form), fields) else {
        return Err(LineFault::Wrong(G::cause(Test::Number)));
    };
    if !draft.is_in_range(form, &numbers) {
        return Err(LineFault::Wrong(G::cause(Test::Number)));
    }
    if !draft.is_its_peer(form, &numbers) {
        return Err(LineFault::Wrong(G::cause(Test::Peer)));
    }
    let Some(bytes) = bytes_of(draft, alloc, form, fields)? else {
        return Err(LineFault::Wrong(G::cause(Test::Bytes)));
    };
    draft.add(alloc, form, fields, &numbers, bytes)
}

/// Takes the next line, without its newline: the tests in their order, and the effect of the line.
// claim with Grammar::forms, Grammar::slots.value, Grammar::slots.few, Grammar::cause,
//    Grammar::is_at, Grammar::is_out_of_turn, Grammar::is_in_range, Grammar::is_its_peer,
//    Grammar::fits, Grammar::add, Grammar::is_ended: For every table of forms a line is judged by
//    the same tests in the same order: its form, its position, its numbers, its peer, its bytes,
//    the sizes, the count. The first test that fails gives the fault.
#[tactic(auto, unfolding(crate::specs::Grammar::step))]
pub fn take_line<G: Grammar>(
    draft: &mut G,
    alloc: Global,
    line: &[u8],
) -> Result<(), LineFault<G::Cause>>
    ensures { Gives (G.draft_view draft.new) result (step G.rules (G.draft_view draft.old) line.now) }
{
    if !is_printable(line) {
        return Err(LineFault::Wrong(G::cause(Test::Line)));
    }
    let Some(fields) = fields(line) else {
        return Err(LineFault::Wrong(G::cause(Test::Line)));
    };
    let Some(form) = form_of::<G>(&fields) else {
        return Err(LineFault::Wrong(G::cause(Test::Line)));
    };
    judge(draft, alloc, form, &fields)
}

impl<G: Grammar> TakeLines for G {
    type Cause = G::Cause;

    ghost DraftView = { G.DraftView };

    ghost draft_view = { G.draft_view };

    ghost machine = { machine_of G.rules };

    fn take(&mut self, alloc: Global, line: &[u8]) -> Result<(), LineFault<G::Cause>> {
        take_line(self, alloc, line)
    }

    fn has_ended(&self) -> bool {
        self.is_ended()
    }
}
