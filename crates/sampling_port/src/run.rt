//! A schedule of ports from its text to its record.
ghost use Rattle.std.specs.Prelude.{◌≡◌, IfOk, IfErr};
ghost use Rattle.line_format.specs.Answers.{Refuses};
ghost use Rattle.port_text.specs.Scenario.{World};
ghost use Rattle.port_text.specs.Spelling.{world_of, IsSpelling};
ghost use Rattle.port_text.specs.Judge.{answer, sense};
ghost use Rattle.port_text.specs.declared.faults.PortsFault.TheVariants.{NoMemory as OutOfMemory};
ghost use Rattle.sampling_port.specs.Record.{record_of, IsRecord};
ghost use Rattle.sampling_port.specs.History.{history};

use crate::laws::history_is_lawful;
use crate::lines::{Form, put};
use crate::simulator::Simulator;
use crate::world_state::Record;
use ivs_base::NoMemory;
use port_text::{PortsFault, Scenario, parse, put_scenario};
use std::alloc::Global;

/// Returns the record of a schedule.
fn record(alloc: Global, scenario: &Scenario) -> Result<Vec<u8>, NoMemory>
    ensures { IfOk result (λ text. text.items ≡ record_of (world_of scenario.now) (history (world_of scenario.now))) }
{
    let mut text = Vec::new(alloc);
    put(&mut text, Form::Head, &[1], &[])?;
    put_scenario(&mut text, scenario)?;
    let mut simulator = Simulator::new(alloc, scenario, text)?;
    for act in scenario.acts.items() {
        simulator.act(alloc, act)?;
    }
    let Record { mut text, count } = simulator.into_record();
    put(&mut text, Form::End, &[count], &[])?;
    Ok(text)
}

/// Returns the record of the schedule that a text spells: the text, and the one lawful history of
/// its schedule. Otherwise returns the first fault of the text. Returns `NoMemory` if an allocation
/// fails.
// claim found, only, fault: A text that spells a schedule gives that text with the one lawful
//    history of the schedule, or NoMemory. Another text is refused by its first fault.
pub fn ports(alloc: Global, bytes: &[u8]) -> Result<Vec<u8>, PortsFault>
    // The result is the text read, with the lawful history of its schedule.
    ensures found { IfOk result (λ text. IsRecord bytes.now text.items) }
    // For a text that spells a schedule the one fault is a failed allocation.
    ensures only { (w : World) → IsSpelling w bytes.now → IfErr result (λ fault. fault ≡ OutOfMemory) }
    // The fault that is returned.
    ensures fault { IfErr result (λ fault. Refuses sense fault (answer bytes.now)) }
{
    history_is_lawful();
    let scenario = parse(alloc, bytes)?;
    match record(alloc, &scenario) {
        Ok(text) => Ok(text),
        Err(_) => Err(PortsFault::NoMemory),
    }
}
