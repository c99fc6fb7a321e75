//! The text of a load: the counts of its history.

ghost use Rattle.std.specs.Prelude.{◌≡◌, ◌+◌, ◌++◌, IfOk, OnOk, string_bytes};
ghost use Rattle.lawful_history.specs.Sides.{world_of};
ghost use Rattle.ivshm_cli.specs.Load.{index_word, number_line};
ghost use Rattle.ivshm_cli.specs.Counted.{HasCounted, with_line, lines_of_counts, none_of};

use ivs_base::NoMemory;
use lawful_history::Line;
use scenario_text::Scenario;
use sim_world::{Listener, Stopped};
use split_ring::high_half;
use std::alloc::{AllocError, Global};

/// The counts of a history, and the last value that peer 0 wrote to one word.
#[derive(Drop)]
pub(crate) struct Counts {
    /// The word's number.
    pub(crate) word: u32,
    /// The number of frames published.
    pub(crate) accepted: usize,
    /// The number of frames read in full.
    pub(crate) delivered: usize,
    /// The number of values refused.
    pub(crate) refused: usize,
    /// The last value that peer 0 wrote to the word, or 0.
    pub(crate) last: u32,
}

/// Returns `count + 1`, or `NoMemory`: no more lines than a usize counts fit into memory.
fn one_more(count: usize) -> Result<usize, NoMemory>
    ensures { IfOk result (λ more. more ≡ count + 1) }
{
    match count.checked_add(1) {
        Some(more) => Ok(more),
        None => Err(NoMemory),
    }
}

impl Counts {
    /// Returns the counts of an empty history of this scenario.
    pub(crate) fn none(scenario: &Scenario) -> Counts
        ensures { result ≡ none_of (world_of scenario.now) }
    {
        Counts {
            word: index_word(scenario),
            accepted: 0,
            delivered: 0,
            refused: 0,
            last: 0,
        }
    }

    /// Counts a line.
    fn count(&mut self, line: &Line) -> Result<(), NoMemory>
        ensures { OnOk result (self.new ≡ with_line self.old line.now) }
    {
        match line {
            Line::Accept { .. } => self.accepted = one_more(self.accepted)?,
            Line::Deliver { .. } => self.delivered = one_more(self.delivered)?,
            Line::Refuse { .. } => self.refused = one_more(self.refused)?,
            Line::Write {
                peer: 0,
                word,
                value,
            } if *word == self.word => self.last = *value,
            _ => {}
        }
        Ok(())
    }

    /// Counts lines.
    fn count_all(&mut self, lines: &[Line]) -> Result<(), NoMemory>
        ensures { OnOk result (HasCounted self.old self.new lines.now) }
    {
        for line in lines {
            self.count(line)?;
        }
        Ok(())
    }
}

impl Listener for Counts {
    ghost received = { HasCounted };

    // they never stop the play
    ghost stopped_after = { λ _began _now _lines. ⊥ };

    fn take_lines(&mut self, lines: &[Line]) -> Result<(), Stopped> {
        self.count_all(lines)?;
        Ok(())
    }
}

/// Returns the number of the word that holds the flags and the index of peer 0's available ring.
fn index_word(scenario: &Scenario) -> u32
    ensures { result ≡ index_word (world_of scenario.now) }
{
    scenario.geometry.section_start(0) + scenario.queue.avail_word()
}

/// Appends the line of a number.
#[tactic(auto, unfolding(crate::specs::Load::number_line))]
fn put_number(text: &mut String, name: &str, number: usize) -> Result<(), AllocError>
    ensures { OnOk result (string_bytes text.new ≡ string_bytes text.old ++ number_line name.now number) }
{
    writeln!(text, "{name} {number}")
}

/// Returns the five lines of a load of `count` frames, with the counts of its history.
pub(crate) fn summary(alloc: Global, count: u32, counts: &Counts) -> Result<Vec<u8>, AllocError>
    ensures { IfOk result (λ text. text.items ≡ lines_of_counts count counts.now) }
{
    let index = high_half(counts.last);
    let mut text = String::new(alloc);
    put_number(&mut text, "load", count as usize)?;
    put_number(&mut text, "accepted", counts.accepted)?;
    put_number(&mut text, "delivered", counts.delivered)?;
    put_number(&mut text, "refused", counts.refused)?;
    put_number(&mut text, "index", index as usize)?;
    Ok(text.into_bytes())
}
