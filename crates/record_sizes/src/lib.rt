//! The length of a record: its acts pay for its text. The crate uses `lawful_history` for the
//! histories and `record_text` for their lines. It has no code: the law is the contract of a
//! function with an empty body.
//!
//! # Design
//!
//! - This is a crate next to `history_laws`, because it needs a record's lines and that crate
//!   doesn't.
//! - A step of a call is charged for its lines by kind, for all numbers in them. A frame has two
//!   digits for each byte, which can be many in one line. Each step that wrote or read a word of
//!   the frame has saved eight digits for it.
//! - The mark of a session is charged to the write of State 3 before it. That line has six bytes.
//!   So the mark, whose two numbers have at most ten digits, fits into the 200 bytes of its step.
//!   Versions 1 and 2 have the same bound.
//! - The laws require that the record has a spelling (`IsRecord`), as every record that `print`
//!   writes has.
#![tactic(auto)]

ghost use Rattle.record_sizes.specs.Sizes.{RecordsAreShort, RecordsAreWithinLimit};

/// Law: the text of a record of either version with a lawful history is bounded. It has at most the
/// bytes of its scenario's text, 200 for each act, and 34 more. So it is within the limit of a
/// record's text if its scenario's text is within the limit of scenarios.
// claim bound: The text of a record with a lawful history has at most the bytes of its scenario's
//    text, 200 for each act (`turn P K` counts for K acts), and 34.
// claim limit: So it is within the limit of a record's text, `LONGEST_RECORD` bytes, if its
//    scenario's is within `LONGEST_TEXT`.
pub fn records_are_short()
    ensures bound { RecordsAreShort }
    ensures limit { RecordsAreWithinLimit }
{}
