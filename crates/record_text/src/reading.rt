//! Reading a record's text.
ghost use Rattle.std.specs.Prelude.{IfOk, Ok};
ghost use Rattle.record_text.specs.Spelling.{Record, IsSpelling, record_of};
ghost use Rattle.record_text.specs.Judge.{answer};
ghost use Rattle.record_text.specs.Answers.{Answers};

use crate::drafts::RecordDraft;
use crate::faults::RecordFault;
use crate::trace::Trace;
use line_format::read_text;
use std::alloc::Global;

/// The record that the text spells, or the first fault of the text, in one pass over it. NoMemory
/// says that memory ran out.
// claim found, only: `parse` reads exactly what the bytes spell, in version 1 or 2, or answers
//    NoMemory.
// claim exact with fault_is_first, RecordCause::at: A refusal is the first fault, with lines
//    counted from the record's first.
pub fn parse(alloc: Global, bytes: &[u8]) -> Result<Trace, RecordFault>
    // What is read is spelled so.
    ensures found { IfOk result (λ trace. IsSpelling (record_of trace) bytes.now) }
    // What is spelled so is read, unless memory ran out.
    ensures only { (r : Record) → IsSpelling r bytes.now → Answers result (Ok r) }
    // Which fault it is.
    ensures exact { Answers result (answer bytes.now) }
{
    Ok(read_text(alloc, RecordDraft::new(alloc), bytes)?.finish())
}
