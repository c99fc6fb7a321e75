//! A record's text, put together part by part: the lines before the history, the lines of the
//! history, and their count.
ghost use Rattle.std.specs.Prelude.{◌≡◌, ◌++◌, OnOk, map, true};
ghost use Rattle.scenario_text.specs.Spelling.{world_of};
ghost use Rattle.lawful_history.specs.Versions.{is_version};
ghost use Rattle.record_text.specs.Spelling.{AllFit};
ghost use Rattle.record_text.specs.Growing.{front_text, history_text, count_text};

use crate::forms::LineForm;
use crate::printing::put_history_line;
use crate::versions::first_line;
use lawful_history::Line;
use line_format::put_line;
use scenario_text::{Scenario, put_scenario};
use std::alloc::AllocError;

/// Appends the lines before the history of a record of this version: its first line and the
/// scenario.
// claim with put_lines.put, put_lines.fits, put_count, parts_are_the_record.parts,
//    parts_are_the_record.lines: The text put together in parts (what precedes the history, its
//    lines, their count) is the one spelling.
pub fn put_front(out: &mut Vec<u8>, version: u32, scenario: &Scenario) -> Result<(), AllocError>
    requires { is_version version ≡ true }
    ensures { OnOk result (out.new.items ≡ out.old.items ++ front_text version (world_of scenario.now)) }
{
    out.extend_from_slice(first_line(version))?;
    out.push(b'\n')?;
    put_scenario(out, scenario)
}

/// Appends lines of a history.
pub fn put_lines(out: &mut Vec<u8>, lines: &[Line]) -> Result<(), AllocError>
    ensures put { OnOk result (out.new.items ≡ out.old.items ++ history_text lines.now) }
    ensures fits { OnOk result (AllFit lines.now) }
{
    for line in lines {
        put_history_line(out, line)?;
    }
    Ok(())
}

/// Appends the line with the number of a history's lines.
#[tactic(auto, unfolding(line_format::specs::Rows::line_of_row))]
pub fn put_count(out: &mut Vec<u8>, count: u64) -> Result<(), AllocError>
    ensures { OnOk result (out.new.items ≡ out.old.items ++ count_text count) }
{
    put_line(out, LineForm::Count.slots(), &[count], &[])
}
