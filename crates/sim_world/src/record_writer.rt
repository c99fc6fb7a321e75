//! Writes the record of a scenario while the scenario is played. No history is kept.
ghost use Rattle.std.specs.Prelude.{◌≡◌, IfOk, Ok};
ghost use Rattle.scenario_text.specs.Spelling.{world_of};
ghost use Rattle.lawful_history.specs.Lawful.{IsLawfulIn};
ghost use Rattle.record_text.specs.Spelling.{IsSpelling};
ghost use Rattle.record_text.specs.Judge.{answer};
ghost use Rattle.sim_world.specs.RecordWriting.{HasRecorded, lawful_record};

use crate::VERSION;
use crate::playing::{Listener, Stopped, play};
use ivs_base::NoMemory;
use lawful_history::{Line, records_hold_one_history};
use record_text::{parts_are_the_record, put_count, put_front, put_lines};
use scenario_text::Scenario;
use std::alloc::Global;

/// The text of a record so far, and the number of lines of the history in it.
#[derive(Drop)]
pub struct RecordWriter {
    pub text: Vec<u8>,
    pub count: u64,
}

impl Listener for RecordWriter {
    ghost received = { HasRecorded };

    // it never stops the play
    ghost stopped_after = { λ _began _now _lines. ⊥ };

    fn take_lines(&mut self, lines: &[Line]) -> Result<(), Stopped> {
        parts_are_the_record();
        match put_lines(&mut self.text, lines) {
            Ok(()) => {}
            Err(_) => return Err(Stopped::NoMemory),
        }
        // No memory holds a history of more lines than a u64 counts.
        match self.count.checked_add(lines.len() as u64) {
            Some(count) => self.count = count,
            None => return Err(Stopped::NoMemory),
        }
        Ok(())
    }
}

/// Returns the text of the scenario's record of version 2, with the lines that it has of the one
/// lawful history. Returns `NoMemory` if memory ran out.
// claim spelled, again, lawful: The text is the one spelling of the record of version 2 with the
//    lawful history, and is read as that record.
pub fn simulate_text(alloc: Global, scenario: &Scenario) -> Result<Vec<u8>, NoMemory>
    ensures spelled { IfOk result (λ text. IsSpelling (lawful_record 2 (world_of scenario.now)) text.items) }
    // The text is read as this record.
    ensures again { IfOk result (λ text. answer text.items ≡ Ok (lawful_record 2 (world_of scenario.now))) }
    ensures lawful { IfOk result (λ _.
        IsLawfulIn (world_of scenario.now) 2 (lawful_record 2 (world_of scenario.now)).lines) }
{
    records_hold_one_history();
    parts_are_the_record();
    let mut record_writer = RecordWriter {
        text: Vec::new(alloc),
        count: 0,
    };
    put_front(&mut record_writer.text, VERSION, scenario)?;
    match play(alloc, scenario, VERSION, &mut record_writer) {
        Ok(()) => {}
        Err(Stopped::NoMemory) => return Err(NoMemory),
        Err(Stopped::HasEnough) => unreachable!(),
    }
    let RecordWriter { mut text, count } = record_writer;
    put_count(&mut text, count)?;
    Ok(text)
}
