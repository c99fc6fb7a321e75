//! The content of a record's lines so far.
ghost use Rattle.std.specs.Prelude.{◌≡◌, [], true, false};
ghost use Rattle.lawful_history.specs.Frames.{HaveFrames};
ghost use Rattle.lawful_history.specs.Versions.{is_version};
ghost use Rattle.scenario_text.specs.Judge.{at_start, has_ended};
ghost use Rattle.scenario_text.specs.Drafts.{draft_view};
ghost use Rattle.record_text.specs.declared.drafts.RecordPosition.TheVariants as positions;
ghost use Rattle.record_text.specs.Positions.{is_before_history};

use lawful_history::Lines;
use scenario_text::Draft;

/// The next line: `record V`, one of the scenario, one of the history, or none.
#[derive(Clone, Copy, Debug, PartialEq, Eq)]
pub enum RecordPosition {
    AtFirst,
    AtScenario,
    AtHistory,
    Ended,
}

/// A record whose first lines are read.
#[derive(Drop)]
pub struct RecordDraft {
    pub position: RecordPosition,
    /// The version that the first line names, and 1 before it is read.
    pub version: u32,
    /// The scenario, whose first lines are read.
    pub head: Draft,
    /// The history lines so far.
    pub lines: Lines,
    pub ghost versioned: { is_version version ≡ true },
    pub ghost frames: { HaveFrames lines },
    pub ghost start: { position ≡ positions.AtFirst → draft_view head ≡ at_start },
    pub ghost fresh: { is_before_history position ≡ true → lines ≡ [] },
    pub ghost over: { is_before_history position ≡ false → has_ended (draft_view head) ≡ true },
}
