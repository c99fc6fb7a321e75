//! The simulation of a scenario: its lawful history, played act by act on a `simulator`, and its
//! record, written by `record_text`. The contract of `simulate` promises the lines that a record of
//! version 2 has of the scenario's one lawful history, for all acts. The contract of
//! `simulate_text` promises the text of this record, and keeps no history in memory. The contract
//! of `play` promises that a listener receives the same lines in parts. That of `play_load`
//! promises the same of a load, whose acts aren't held.
//!
//! # Design
//!
//! - `simulate` promises its lines twice: as `history`, which a checker can compare line by line,
//!   and as lawful lines, by `history_is_lawful`.
//! - A `Listener` has two relations of two states. `received` says that it received these lines
//!   between the two states, and `stopped_after` that it then stopped the play. A relation of one
//!   state doesn't suffice. A call of an unknown listener may change any of its fields, such as a
//!   reference to the scenario.
//! - `play` passes lines on as soon as the simulator keeps 256 of them, also within an act of many
//!   turns. So the number of kept lines doesn't grow with the history.
//! - The acts of a load are those of a shorter load, at other positions. So `play_load` holds only
//!   the shorter one (`act_of`).
#![tactic(auto)]

ghost use Rattle.std.specs.Prelude.{◌≡◌, IfOk};
ghost use Rattle.lawful_history.specs.Sides.{world_of};
ghost use Rattle.lawful_history.specs.Sessions.{recorded_in};
ghost use Rattle.lawful_history.specs.Lawful.{IsLawfulIn};
ghost use Rattle.lawful_history.specs.History.{history};

mod laws;
mod loads;
mod playing;
mod record_writer;

use ivs_base::NoMemory;
use lawful_history::history_is_lawful;
pub use laws::writes_alike;
pub use loads::play_load;
pub use playing::{Listener, Stopped, play};
use record_text::Trace;
pub use record_writer::simulate_text;
use scenario_text::{Act, Scenario};
use simulator::Simulator;
use std::alloc::Global;

/// The version of the records that this crate writes.
const VERSION: u32 = 2;

/// Returns the number of turns in the acts. A turn adds at least one line, and most add one.
fn turn_count(acts: &[Act]) -> usize {
    let mut turns: usize = 0;
    for act in acts {
        if let Act::Turn { steps, .. } = act {
            turns = turns.saturating_add(*steps as usize);
        }
    }
    turns
}

/// Returns the record of version 2 of the scenario's one lawful history. Returns `NoMemory` if
/// memory ran out.
// claim scenario, version, history, lawful: `simulate` returns the scenario that it was given, with
//    what a record of version 2 holds of its computed history, marks of sessions included. That is
//    lawful in that version.
pub fn simulate(alloc: Global, scenario: Scenario) -> Result<Trace, NoMemory>
    ensures scenario { IfOk result (λ trace. trace.scenario ≡ scenario) }
    ensures version { IfOk result (λ trace. trace.version ≡ 2) }
    ensures history { IfOk result (λ trace.
        trace.lines ≡ recorded_in (world_of scenario) 2 (history (world_of scenario))) }
    ensures lawful { IfOk result (λ trace. IsLawfulIn (world_of scenario) 2 trace.lines) }
{
    history_is_lawful();
    let mut simulator = Simulator::new(alloc, &scenario, VERSION)?;
    simulator.reserve(turn_count(scenario.acts.items()))?;
    for act in scenario.acts.items() {
        simulator.act(act)?;
    }
    Ok(Trace {
        version: VERSION,
        lines: simulator.into_lines(),
        scenario,
    })
}
