//! Reading a text of a bridge.
ghost use Rattle.std.specs.Prelude.{IfOk};
ghost use Rattle.line_format.specs.Answers.{Answers};
ghost use Rattle.frame_bridge.specs.Spelling.{World, world_of, IsSpelling};
ghost use Rattle.frame_bridge.specs.Judge.{sense, answer};

use crate::drafts::Draft;
use crate::faults::BridgeFault;
use crate::scripts::Script;
use line_format::read_text;
use std::alloc::Global;

/// Returns the run that the text spells, or the first fault of the text, in one pass over it.
/// Returns `NoMemory` if an allocation fails.
// claim found, only with spelled_is_read: `parse` reads exactly what the bytes spell, or answers
//    NoMemory.
// claim exact with fault_is_first, Cause::at: A refusal is the first bad line's first fault, in the
//    format's order. A text has at most 10,000 frames, and `TooManyFrames` names the line of the
//    next.
pub fn parse(alloc: Global, bytes: &[u8]) -> Result<Script, BridgeFault>
    // The text is a spelling of the run that is read.
    ensures found { IfOk result (λ script. IsSpelling (world_of script) bytes.now) }
    // A spelling of a run is read as that run, unless an allocation fails.
    ensures only { (w : World) → IsSpelling w bytes.now → Answers sense world_of result (Ok w) }
    // The fault that is returned.
    ensures exact { Answers sense world_of result (answer bytes.now) }
{
    Ok(read_text(alloc, Draft::new(alloc), bytes)?.finish())
}
