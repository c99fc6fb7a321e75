//! Reading a text of ports.
ghost use Rattle.std.specs.Prelude.{IfOk};
ghost use Rattle.line_format.specs.Answers.{Answers};
ghost use Rattle.port_text.specs.Scenario.{World};
ghost use Rattle.port_text.specs.Spelling.{world_of, IsSpelling};
ghost use Rattle.port_text.specs.Judge.{sense, answer};

use crate::drafts::Draft;
use crate::faults::PortsFault;
use crate::scenarios::Scenario;
use line_format::read_text;
use std::alloc::Global;

/// Returns the schedule that the text spells, or the first fault of the text, in one pass over it.
/// Returns `NoMemory` if an allocation fails.
// claim found, only: `parse` reads exactly what the bytes spell, or answers NoMemory. Each schedule
//    has 2 to 8 peers with room for a port, each act allowed, and at most 4,000,000 turns.
// claim exact with fault_is_first, Cause::at: A refusal is the first fault, in the format's order.
pub fn parse(alloc: Global, bytes: &[u8]) -> Result<Scenario, PortsFault>
    // The text is a spelling of the schedule that is read.
    ensures found { IfOk result (λ scenario. IsSpelling (world_of scenario) bytes.now) }
    // A spelling of a schedule is read as that schedule, unless an allocation fails.
    ensures only { (w : World) → IsSpelling w bytes.now → Answers sense world_of result (Ok w) }
    // The fault that is returned.
    ensures exact { Answers sense world_of result (answer bytes.now) }
{
    Ok(read_text(alloc, Draft::new(alloc), bytes)?.finish())
}
