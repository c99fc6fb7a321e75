//! The automatic end, which chooses its own calls.
ghost use Rattle.std.specs.Prelude.{ℕ, List, ◌≡◌, ◌≢◌, ◌+◌, ◌++◌, ◌≤◌, ◌↔◌, ◌∷◌, [], Some, false, not, min, IsTrue, MatchOption, OnOk, IfErr};
ghost use Rattle.call_grammar.specs.Ends.{End};
ghost use Rattle.call_grammar.specs.Calls.{EndConfig};
ghost use Rattle.call_grammar.specs.Places.{Closed};
ghost use Rattle.call_grammar.specs.Automatic.{choice_of, Anew};
ghost use Rattle.link_endpoint.specs.Engine.{is_busy};
ghost use Rattle.link_endpoint.specs.Refinement.{RefinesAt, Opens, mark_between, marks_between};
ghost use Rattle.link_endpoint.specs.Plan.{fresh_plan, HasCounted, IsChoice, head_of, round_after, MayOpen, place_for, call_of, is_end_choice, Counts};

use crate::endpoint::Endpoint;
use crate::place::Call;
use ivs_base::{Frame, NoMemory};
use link_handshake::Phase;
use split_ring::steps::Note;
use std::alloc::Global;
use std::collections::VecDeque;
use std::marker::Model;

/// The next action of an automatic end.
#[derive(Clone, Copy, Debug, PartialEq, Eq)]
pub enum Choice {
    /// A Tick.
    Tick,
    /// An offer of the head, the first frame that isn't accepted yet.
    Offer,
    /// A poll.
    Poll,
    /// Nothing: every frame is accepted, and the expected number of deliveries is reached.
    Finished,
}

/// The position in the round. In RUN a round is an offer (if a frame is left), then a poll, then a
/// tick (profile).
#[derive(Clone, Copy, Debug, PartialEq, Eq)]
enum Round {
    Anew,
    AfterOffer,
    AfterPoll,
}

/// An automatic end: the frames that aren't accepted yet, the number of deliveries that it expects,
/// the number counted, and its round.
#[derive(Debug, Drop)]
pub struct Auto {
    frames: VecDeque<Frame>,
    expected: u64,
    delivered: u64,
    round: Round,
}

impl Model for Auto {
    ghost use Rattle.link_endpoint.specs.Plan.{Plan};
    ghost use Rattle.link_endpoint.specs.PlanRepresentation.{plan_of, IsPlan};

    ghost Value = { Plan };

    ghost view = { plan_of };

    ghost invariant = { IsPlan };
}

impl Auto {
    /// Returns an automatic end without frames that expects `expect` deliveries.
    pub fn new(alloc: Global, expect: u64) -> Auto
        ensures value { result ≡ fresh_plan expect }
        ensures counted { HasCounted result 0 }
    {
        Auto {
            frames: VecDeque::new(alloc),
            expected: expect,
            delivered: 0,
            round: Round::Anew,
        }
    }

    /// Appends a frame to the frames that aren't accepted yet. After `Err(NoMemory)` the list is
    /// unchanged, and the frame is dropped.
    // claim added, unchanged with Auto::head, Auto::accepted.head, Auto::accepted.kept,
    //    Auto::delivered.value, Auto::delivered.counted, Auto::cut: Its frames are offered in
    //    order, each until it is accepted. Deliveries are counted. A reset begins the round anew.
    pub fn add(&mut self, frame: Frame) -> Result<(), NoMemory>
        ensures added { OnOk result (self.new ≡ record self.old { frames = self.old.frames ++ frame ∷ [] }) }
        ensures unchanged { IfErr result (λ _. self.new ≡ self.old) }
    {
        self.frames.push_back(frame)?;
        Ok(())
    }

    /// Returns the first frame that isn't accepted yet, or `None` if there is none.
    pub fn head(&self) -> Option<&[u8]>
        ensures { MatchOption result (self.now.frames ≡ []) (λ frame. head_of self.now.frames ≡ Some frame.now) }
    {
        self.frames.front().map(|frame| frame.bytes())
    }

    /// Returns the next action for an end in `phase`, and advances the round.
    // claim choice, round with Auto::new.value, Auto::new.counted: The automatic peer chooses by
    //    its rule, at every count of deliveries.
    pub fn choose(&mut self, phase: Phase) -> Choice
        ensures choice { (count : ℕ) → HasCounted self.old count →
            IsChoice result self.old.frames (choice_of phase self.old.round self.old.frames count self.old.expected) }
        ensures round { self.new ≡ record self.old { round = round_after result self.old.round } }
    {
        let choice = self.choice(phase);
        match choice {
            Choice::Tick => self.round = Round::Anew,
            Choice::Offer => self.round = Round::AfterOffer,
            Choice::Poll => self.round = Round::AfterPoll,
            Choice::Finished => {}
        }
        choice
    }

    /// Opens the call of this choice at `end`. An offer is of the head, and `Finished` opens no
    /// call.
    // claim refines, open, kept: The call that an automatic end chose opens at its first place. An
    //    offer is of the first frame that isn't accepted yet.
    #[inline(always)]
    pub fn open(&self, end: &mut Endpoint, choice: Choice)
        requires closed { is_busy end.old ≡ false }
        requires fits { MayOpen end.old.config.sizes.mtu choice self.now.frames }
        ensures refines { (config : EndConfig) (at : End) → RefinesAt end.old config at Closed →
            RefinesAt end.new config at (place_for config at Closed (call_of choice self.now.frames)) }
        ensures open { is_busy end.new ≡ not (is_end_choice (Some choice)) }
        ensures kept { Opens end.old end.new }
    {
        match choice {
            Choice::Tick => end.begin(Call::Tick),
            Choice::Poll => end.begin(Call::Poll),
            Choice::Offer => match self.head() {
                Some(frame) => end.offer(frame),
                None => unreachable!(),
            },
            Choice::Finished => {}
        }
    }

    /// Counts the frames that a step accepted and delivered.
    // claim: Each accepted frame is removed from the frames of an automatic end, and each delivery
    //    is counted.
    pub fn count(&mut self, notes: &[Note])
        ensures { (one other : List ℕ) → Counts self.old (marks_between one other notes.now) self.new }
    {
        for note in notes {
            self.count_one(note);
        }
    }

    /// Counts one note.
    fn count_one(&mut self, note: &Note)
        ensures { (one other : List ℕ) → Counts self.old (mark_between one other note.now ∷ []) self.new }
    {
        match note {
            Note::Accept => {
                if self.head().is_some() {
                    self.accepted();
                }
            }
            Note::Deliver => self.delivered(),
            Note::Saw(_)
            | Note::Reclaim(_)
            | Note::Full
            | Note::Look(_)
            | Note::Return
            | Note::Done
            | Note::Down
            | Note::Refuse(_)
            | Note::Over => {}
        }
    }

    /// Removes the head after its offer was accepted.
    pub fn accepted(&mut self)
        requires { self.old.frames ≢ [] }
        ensures head { (frame : List ℕ) × (self.old.frames ≡ frame ∷ self.new.frames) }
        ensures kept { self.new ≡ record self.old { frames = self.new.frames } }
    {
        let _ = self.frames.pop_front();
    }

    /// Counts a delivery, up to the number expected.
    pub fn delivered(&mut self)
        ensures value { self.new ≡ record self.old { delivered = min (self.old.delivered + 1) self.old.expected } }
        ensures counted { (count : ℕ) → HasCounted self.old count → HasCounted self.new (count + 1) }
    {
        if self.delivered < self.expected {
            self.delivered += 1;
        }
    }

    /// Restarts the round. The caller uses it when a reset of the device cuts the open call.
    pub fn cut(&mut self)
        ensures { self.new ≡ record self.old { round = Anew } }
    {
        self.round = Round::Anew;
    }

    fn finished(&self) -> bool
        ensures { IsTrue result ↔ (self.now.frames ≡ []) × (self.now.expected ≤ self.now.delivered) }
    {
        self.frames.is_empty() && self.delivered >= self.expected
    }

    /// Returns the next action, and leaves the round.
    fn choice(&self, phase: Phase) -> Choice
        ensures { (count : ℕ) → HasCounted self.now count →
            IsChoice result self.now.frames (choice_of phase self.now.round self.now.frames count self.now.expected) }
    {
        if self.finished() {
            return Choice::Finished;
        }
        match (phase, self.round) {
            (Phase::Run, Round::Anew) if !self.frames.is_empty() => Choice::Offer,
            (Phase::Run, Round::Anew | Round::AfterOffer) => Choice::Poll,
            _ => Choice::Tick,
        }
    }
}
