//! The first lines of a record, which suffice for most pictures.
ghost use Rattle.std.specs.Prelude.{◌≡◌, ◌<◌, ◌≤◌, ◌∷◌, ◌++◌, ℕ, [], IfOk, OnOk, IfErr, List, length};
ghost use Rattle.scenario_text.specs.Scenario.{World};
ghost use Rattle.record_text.specs.Judge.{answer};
ghost use Rattle.record_text.specs.Answers.{Refuses};
ghost use Rattle.record_text.specs.Readers.{IsReading};
ghost use Rattle.ivshm_chart.specs.Fronts.{AtEachReading, IsFront, IsFrontOf};

use lawful_history::{Line, Lines};
use record_text::{Reader, RecordFault, Trace};
use std::alloc::Global;

/// The number of lines that are kept from the first one shown on. They take 9 MiB, and are more
/// than the clears of two sections of 520,192 bytes.
const MOST: u64 = 300_000;

/// A record's first lines, and the number of lines after them.
#[derive(Drop)]
pub struct Front {
    pub trace: Trace,
    pub others: u64,
}

/// Keeps a line, if fewer than `most` are kept.
fn keep(lines: &mut Lines, line: Line, most: u64) -> Result<(), RecordFault>
    ensures kept { length lines.old < most → OnOk result (lines.new ≡ lines.old ++ line ∷ []) }
    ensures full { most ≤ length lines.old → lines.new ≡ lines.old }
    ensures fault { IfErr result (λ fault. fault ≡ RecordFault.NoMemory) }
{
    if lines.items().len() as u64 >= most {
        return Ok(());
    }
    match lines.push(line) {
        Ok(()) => Ok(()),
        Err(_) => Err(RecordFault::NoMemory),
    }
}

/// Reads the rest of the lines: keeps the first ones, at most `most`, and counts the others.
fn read_lines(alloc: Global, reader: &mut Reader, most: u64) -> Result<(Lines, u64), RecordFault>
    ensures read { AtEachReading reader.old (λ bytes version world.
        IfOk result (λ p. IsFront bytes version world p.0 p.1)) }
    ensures refused { AtEachReading reader.old (λ bytes _ _.
        IfErr result (λ fault. Refuses fault (answer bytes))) }
{
    let mut lines = Lines::new(alloc);
    while let Some(line) = reader.next(alloc)? {
        keep(&mut lines, line, most)?;
    }
    let others = reader.count.saturating_sub(lines.items().len() as u64);
    Ok((lines, others))
}

/// Returns the first lines of the record that the text spells, including `MOST` lines from line
/// `first` on, or the first fault of the text.
pub fn front_of(alloc: Global, first: u64, bytes: &[u8]) -> Result<Front, RecordFault>
    ensures front { IfOk result (IsFrontOf bytes.now) }
    ensures refused { IfErr result (λ fault. Refuses fault (answer bytes.now)) }
{
    let (version, scenario, mut reader) = Reader::begin(alloc, bytes)?;
    let (lines, others) = read_lines(alloc, &mut reader, first.saturating_add(MOST))?;
    Ok(Front {
        trace: Trace {
            version,
            scenario,
            lines,
        },
        others,
    })
}
