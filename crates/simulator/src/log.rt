//! The lines that were recorded and not drained. Each line goes through `push`, which inserts the
//! session marks of a record of version 2.
ghost use Rattle.std.specs.Prelude.{◌≡◌, ℕ, ◌<◌, ◌==◌, ◌&&◌, List, [], ◌∷◌, ◌++◌, true, false, OnOk, slice_index_or};
ghost use Rattle.scenario_text.specs.Scenario.{World, is_link};
ghost use Rattle.lawful_history.specs.declared.line.Line.{Line};
ghost use Rattle.lawful_history.specs.declared.line.Line.TheVariants.{State};
ghost use Rattle.lawful_history.specs.Frames.{HaveFrames};
ghost use Rattle.lawful_history.specs.Sessions.{enters_run};
ghost use Rattle.simulator.specs.Log.{Output, no_output, given, AreFew, Counts, IsLogOf, marks_in, Records};

use ivs_base::NoMemory;
use lawful_history::{Line, Lines};
use std::alloc::Global;

/// The lines of a record while it is made.
#[derive(Drop)]
pub struct Log {
    /// The version of the record.
    version: u32,
    /// Whether peer 0 and peer 1 are honest ends of the link.
    honest: [bool; 2],
    /// The numbers of sessions that peer 0 and peer 1 opened.
    opened: [u32; 2],
    /// The peer whose write of State 3 is the last line, apart from interrupts.
    entering: Option<u32>,
    /// The lines that were recorded and not drained, in their order.
    lines: Lines,
}

impl Log {
    /// Returns the log without a line.
    pub fn new(alloc: Global, version: u32, honest: [bool; 2]) -> Log
        ensures { (world : World) → ((p : ℕ) → p < 2 → slice_index_or honest p false ≡ is_link world p) →
            IsLogOf world (no_output version) [] result }
    {
        Log {
            version,
            honest,
            opened: [0; 2],
            entering: None,
            lines: Lines::new(alloc),
        }
    }

    /// Records a line, and before it the mark of the session that it enters. Returns `NoMemory` if
    /// the allocation fails.
    #[inline(always)]
    pub fn push(&mut self, line: Line) -> Result<(), NoMemory>
        ensures { OnOk result (Records line self.old self.new) }
    {
        self.mark_before(&line)?;
        self.count(&line);
        self.lines.push(line)
    }

    /// Reserves space for `more` more lines. Returns `NoMemory` if the allocation fails.
    pub fn reserve(&mut self, more: usize) -> Result<(), NoMemory>
        ensures { self.new ≡ self.old }
    {
        self.lines.reserve(more)
    }

    /// Drains the lines.
    pub fn clear(&mut self)
        ensures on { (world : World) (output : Output) (past : List Line) → IsLogOf world output past self.old →
            IsLogOf world (given output self.old.lines) past self.new }
        ensures none { self.new.lines ≡ [] }
    {
        self.lines.clear();
    }

    /// Returns the lines that were recorded and not drained.
    pub fn items(&self) -> &[Line]
        ensures { result.now ≡ self.now.lines }
    {
        self.lines.items()
    }

    /// Returns the lines that were recorded and not drained.
    pub fn into_lines(self) -> Lines
        ensures { result ≡ self.lines }
    {
        let Log { lines, .. } = self;
        lines
    }

    /// Records the marks that come before a line.
    #[inline(always)]
    fn mark_before(&mut self, line: &Line) -> Result<(), NoMemory>
        ensures marks { OnOk result ((world : World) (output : Output) (past : List Line) →
            IsLogOf world output past self.old → AreFew past →
            self.new.lines ≡ self.old.lines ++ marks_in world output.version past line.now) }
        ensures frames { OnOk result (HaveFrames self.old.lines → HaveFrames self.new.lines) }
        ensures kept { self.new ≡ record self.old { lines = self.new.lines } }
    {
        match line {
            Line::Over { peer } => self.mark_session(*peer),
            _ => Ok(()),
        }
    }

    /// Records the mark of the session that a peer enters, if the peer is an honest end of the link
    /// and enters one.
    fn mark_session(&mut self, peer: u32) -> Result<(), NoMemory>
        ensures marks { OnOk result ((world : World) (output : Output) (past : List Line) →
            IsLogOf world output past self.old → AreFew past →
            self.new.lines ≡ self.old.lines ++ marks_in world output.version past (Line.Over peer)) }
        ensures frames { OnOk result (HaveFrames self.old.lines → HaveFrames self.new.lines) }
        ensures kept { self.new ≡ record self.old { lines = self.new.lines } }
    {
        if !self.enters_session(peer) {
            return Ok(());
        }
        let other = 1 - peer;
        self.lines.push(Line::Session {
            peer,
            opened: self.opened[peer as usize],
            other: if self.honest[other as usize] {
                self.opened[other as usize]
            } else {
                0
            },
        })
    }

    /// Whether a session mark is due before the `over` of a peer.
    fn enters_session(&self, peer: u32) -> bool
        ensures due { (world : World) (output : Output) (past : List Line) → IsLogOf world output past self.now →
            result ≡ (output.version == 2 && (is_link world peer && enters_run past peer)) }
        ensures two { result ≡ true → peer < 2 }
    {
        self.version == 2
            && peer < 2
            && self.honest[peer as usize]
            && matches!(self.entering, Some(entering) if entering == peer)
    }

    /// Counts the session that a line opens, and notes the peer that enters RUN by the line.
    #[inline(always)]
    fn count(&mut self, line: &Line)
        ensures counts { (past : List Line) → Counts past self.old → Counts (line.now ∷ past) self.new }
        ensures version { self.new.version ≡ self.old.version }
        ensures honest { self.new.honest ≡ self.old.honest }
        ensures lines { self.new.lines ≡ self.old.lines }
    {
        match line {
            Line::State { peer, value } => self.count_state(*peer, *value),
            Line::Interrupt { .. } | Line::Lost { .. } => {}
            _ => self.entering = None,
        }
    }

    /// Handles a write of State: value 2 opens a session, and value 3 enters RUN.
    fn count_state(&mut self, peer: u32, value: u32)
        ensures counts { (past : List Line) → Counts past self.old → Counts (State peer value ∷ past) self.new }
        ensures version { self.new.version ≡ self.old.version }
        ensures honest { self.new.honest ≡ self.old.honest }
        ensures lines { self.new.lines ≡ self.old.lines }
    {
        if value == 2 && peer < 2 {
            let opened = &mut self.opened[peer as usize];
            *opened = opened.saturating_add(1);
        }
        self.entering = if value == 3 { Some(peer) } else { None };
    }
}
