//! An end of the link that chooses its own calls.
ghost use Rattle.std.specs.Prelude.{◌≡◌, ℕ, List, true, not};
ghost use Rattle.call_grammar.specs.Ends.{End, after_reset};
ghost use Rattle.call_grammar.specs.Calls.{EndConfig};
ghost use Rattle.call_grammar.specs.Places.{Place, Closed};
ghost use Rattle.call_grammar.specs.Automatic.{Anew};
ghost use Rattle.link_endpoint.specs.Engine.{is_busy, engine_after_reset};
ghost use Rattle.link_endpoint.specs.Refinement.{RefinesAt, AtEachEnd, Opens, Takes, marks_between};
ghost use Rattle.link_endpoint.specs.Plan.{HasCounted, choice_at, Matches, Closes, round_since, MayOpenIf, place_for, call_chosen_by, is_end_choice, Counts};

use crate::auto::{Auto, Choice};
use crate::endpoint::Endpoint;
use split_ring::steps::Notes;

/// An end of the link, and the automatic choice of its calls.
#[derive(Debug, Drop)]
pub struct AutoEndpoint {
    /// The end.
    pub end: Endpoint,
    /// Its frames, its counts and its round.
    pub auto: Auto,
}

impl AutoEndpoint {
    /// Returns the next action and advances the round, or `None` if a call is open.
    // claim chosen, closes, round: Between two calls a driven end chooses by the rule of the
    //    automatic peer, in the phase of its end. It chooses nothing while a call is open.
    pub fn choose(&mut self) -> Option<Choice>
        ensures chosen { (config : EndConfig) (end : End) (place : Place) (count : ℕ) →
            RefinesAt self.old.end config end place →
            HasCounted self.old.auto count → Matches result self.old.auto.frames (choice_at end place self.old.auto count) }
        ensures closes { Closes result (is_busy self.old.end) }
        ensures round { self.new ≡
            record self.old { auto = record (self.old.auto) { round = round_since result self.old.auto.round } } }
    {
        if self.end.busy() {
            return None;
        }
        Some(self.auto.choose(self.end.phase()))
    }

    /// Opens the call that was chosen, if one was.
    // claim refines, open, kept, auto: The call chosen opens at its first place, and nothing else
    //    of the driven end changes.
    pub fn open(&mut self, choice: Option<Choice>)
        requires closes { Closes choice (is_busy self.old.end) }
        requires fits { MayOpenIf self.old.end.config.sizes.mtu choice self.old.auto.frames }
        ensures refines { AtEachEnd self.old.end (λ config end place.
            RefinesAt self.new.end config end (place_for config end place (call_chosen_by choice self.old.auto.frames))) }
        ensures open { is_busy self.new.end ≡ not (is_end_choice choice) }
        ensures kept { Opens self.old.end self.new.end }
        ensures auto { self.new.auto ≡ self.old.auto }
    {
        if let Some(choice) = choice {
            self.auto.open(&mut self.end, choice);
        }
    }

    /// Completes the step of the access that the end's `next` returned, and counts the frames that
    /// the step accepted and delivered. `value` is the value that a read met.
    // claim steps, counts: A driven end makes the steps of its endpoint, and counts the frames
    //    that each step accepts and delivers.
    pub fn took(&mut self, value: u32) -> Notes
        requires { is_busy self.old.end ≡ true }
        ensures steps { Takes self.old.end value result.items self.new.end }
        ensures counts { (one other : List ℕ) →
            Counts self.old.auto (marks_between one other result.items) self.new.auto }
    {
        let notes = self.end.took(value);
        self.auto.count(notes.as_slice());
        notes
    }

    /// Resets the end after a reset of its own device, and restarts the round.
    // claim value, refines: A reset cuts the open call of a driven end and begins its round anew.
    //    The frames that aren't accepted yet and the count of deliveries stay.
    pub fn reset(&mut self)
        ensures value { self.new ≡
            record { end = engine_after_reset self.old.end; auto = record (self.old.auto) { round = Anew } } }
        ensures refines { AtEachEnd self.old.end
            (λ config end _. RefinesAt self.new.end config (after_reset end) Closed) }
    {
        self.end.reset();
        self.auto.cut();
    }
}
