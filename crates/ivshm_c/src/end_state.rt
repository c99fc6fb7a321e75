//! An end of the link, with the outcome of its last offer and its counts.
ghost use Rattle.std.specs.Prelude.{◌≡◌, ℕ, ◌+◌, ◌*◌, ◌%◌, ◌<◌, ◌≤◌, [], ◌∷◌, true, false, None, IfSome, length};
ghost use Rattle.split_ring.specs.declared.sizes.TheConstants.{FRAME_OVERHEAD, SHORTEST_FRAME};
ghost use Rattle.link_endpoint.specs.Engine.{is_busy, reads_ahead, writes_ahead, bursts_of, offered};
ghost use Rattle.link_endpoint.specs.declared.place.Call.TheVariants.{Stop};
ghost use Rattle.link_endpoint.specs.Publishing.{Publishes};
ghost use Rattle.ivshm_c.specs.Answers.{Follows};
ghost use Rattle.ivshm_c.specs.Counts.{no_counts, counts_after};
ghost use Rattle.ivshm_c.specs.EndStates.{Begins, Offers, Steps, ReadsAtOnce, ReadsWhole, WritesAtOnce, Restarts, outcome_after, outcome_cut, outcome_with, outcome_noted, noted_by};

use crate::counts::Counts;
use link_endpoint::{Call, Endpoint, Publication};
use link_handshake::Phase;
use split_ring::steps::{Note, Notes};

/// The outcome of the last offer.
#[derive(Clone, Copy, Debug, PartialEq, Eq)]
pub(crate) enum Outcome {
    /// There was no offer.
    Never,
    /// The offer is open.
    Open,
    /// The frame is published.
    Accepted,
    /// The frame didn't fit.
    Full,
    /// A value of the other peer was refused.
    Refused,
    /// The offer was made outside RUN.
    Down,
    /// A reset of the device cut the offer.
    Cut,
}

/// An end, the outcome of its last offer, and its counts.
#[derive(Debug, Drop)]
pub(crate) struct EndState {
    pub(crate) endpoint: Endpoint,
    pub(crate) outcome: Outcome,
    pub(crate) counts: Counts,
}

impl EndState {
    /// Returns a new end before its first State step: a Stop is open.
    pub(crate) fn of(endpoint: Endpoint) -> EndState
        requires { is_busy endpoint ≡ false }
        ensures begins { Begins Stop endpoint result.endpoint }
        ensures outcome { result.outcome ≡ Outcome.Never }
        ensures counts { result.counts ≡ no_counts }
    {
        let mut endpoint = endpoint;
        endpoint.begin(Call::Stop);
        EndState {
            endpoint,
            outcome: Outcome::Never,
            counts: Counts::new(),
        }
    }

    pub(crate) fn begin(&mut self, call: Call)
        requires { is_busy self.old.endpoint ≡ false }
        ensures begins { Begins call self.old.endpoint self.new.endpoint }
        ensures outcome { self.new.outcome ≡ self.old.outcome }
        ensures counts { self.new.counts ≡ self.old.counts }
    {
        self.endpoint.begin(call);
    }

    pub(crate) fn offer(&mut self, frame: &[u8])
        requires closed { is_busy self.old.endpoint ≡ false }
        requires frame { (SHORTEST_FRAME ≤ length frame.now) ×
            (length frame.now ≤ self.old.endpoint.config.sizes.mtu + FRAME_OVERHEAD) }
        ensures offers { Offers frame.now self.old.endpoint self.new.endpoint }
        ensures outcome { self.new.outcome ≡ Outcome.Open }
        ensures counts { self.new.counts ≡ self.old.counts }
    {
        self.endpoint.offer(frame);
        self.outcome = Outcome::Open;
    }

    pub(crate) fn offer_again(&mut self)
        requires closed { is_busy self.old.endpoint ≡ false }
        requires some { SHORTEST_FRAME ≤ length (offered self.old.endpoint) }
        ensures offers { Offers (offered self.old.endpoint) self.old.endpoint self.new.endpoint }
        ensures outcome { self.new.outcome ≡ Outcome.Open }
        ensures counts { self.new.counts ≡ self.old.counts }
    {
        self.endpoint.offer_again();
        self.outcome = Outcome::Open;
    }

    /// Completes the step of the next access, and puts its notes into an empty list.
    #[inline(always)]
    pub(crate) fn took(&mut self, value: u32, notes: &mut Notes)
        requires open { is_busy self.old.endpoint ≡ true }
        requires empty { notes.old.items ≡ [] }
        ensures steps { Steps self.old.endpoint value notes.new.items self.new.endpoint }
        ensures outcome { self.new.outcome ≡ outcome_after notes.new.items self.old.outcome }
        ensures counts { self.new.counts ≡
            counts_after self.old.endpoint.phase self.new.endpoint.phase notes.new.items self.old.counts }
    {
        let before = self.endpoint.phase();
        self.endpoint.took_into(value, notes);
        self.record(before, notes);
    }

    /// Completes the next reads, whose values are `words`, and puts their notes into an empty list.
    pub(crate) fn took_reads(&mut self, words: &[u8], notes: &mut Notes)
        requires some { 0 < length words.now }
        requires whole { length words.now % 4 ≡ 0 }
        requires within { length words.now ≤ 4 * reads_ahead self.old.endpoint }
        requires empty { notes.old.items ≡ [] }
        ensures steps { ReadsAtOnce self.old.endpoint words.now notes.new.items self.new.endpoint }
        ensures frame { ReadsWhole self.old.endpoint words.now self.new.endpoint }
        ensures outcome { self.new.outcome ≡ outcome_after notes.new.items self.old.outcome }
        ensures counts { self.new.counts ≡
            counts_after self.old.endpoint.phase self.new.endpoint.phase notes.new.items self.old.counts }
    {
        let before = self.endpoint.phase();
        self.endpoint.took_reads_into(words, notes);
        self.record(before, notes);
    }

    /// Follows the notes of a step that the endpoint has made from the phase `before`.
    #[inline(always)]
    fn record(&mut self, before: Phase, notes: &Notes)
        ensures endpoint { self.new.endpoint ≡ self.old.endpoint }
        ensures outcome { self.new.outcome ≡ outcome_after notes.now.items self.old.outcome }
        ensures counts { self.new.counts ≡ counts_after before self.old.endpoint.phase notes.now.items self.old.counts }
    {
        self.outcome = outcome_after(notes, self.outcome);
        self.counts.step(before, self.endpoint.phase(), notes);
    }

    /// Completes the next `count` writes.
    pub(crate) fn took_writes(&mut self, count: u32)
        requires some { 0 < count }
        requires within { count ≤ writes_ahead self.old.endpoint }
        ensures steps { WritesAtOnce self.old.endpoint count self.new.endpoint }
        ensures outcome { self.new.outcome ≡ self.old.outcome }
        ensures counts { self.new.counts ≡ self.old.counts }
    {
        self.endpoint.took_writes(count);
    }

    /// Publishes the frame of the open offer: completes all writes up to its index.
    pub(crate) fn publish(&mut self, tail: &mut [u8]) -> Option<Publication>
        requires { length tail.old ≡ 20 }
        ensures steps { IfSome result (λ made. Publishes self.old.endpoint tail.new made self.new.endpoint ×
            Follows (Note.Accept ∷ []) self.old self.new) }
        ensures open { IfSome result (λ made. is_busy self.new.endpoint ≡ true) }
        ensures sized { length tail.new ≡ length tail.old }
        ensures other { result ≡ None → bursts_of self.old.endpoint ≡ None }
        ensures unchanged { result ≡ None → (self.new ≡ self.old) × (tail.new ≡ tail.old) }
    {
        match self.endpoint.publish(tail) {
            Some(made) => {
                self.outcome = outcome_with(&Note::Accept, self.outcome);
                self.counts.accept();
                Some(made)
            }
            None => None,
        }
    }

    /// Resets the end after a reset of the device: cuts the open call, and opens a Stop, whose
    /// State step is next.
    pub(crate) fn reset(&mut self)
        ensures restarts { Restarts self.old.endpoint self.new.endpoint }
        ensures outcome { self.new.outcome ≡ outcome_cut self.old.outcome }
        ensures counts { self.new.counts ≡ self.old.counts }
    {
        self.endpoint.reset();
        self.endpoint.begin(Call::Stop);
        self.outcome = match self.outcome {
            Outcome::Open => Outcome::Cut,
            outcome => outcome,
        };
    }
}

/// Returns the outcome after these notes. The outcome of an offer that isn't open stays.
fn outcome_after(notes: &Notes, before: Outcome) -> Outcome
    ensures { result ≡ outcome_after notes.now.items before }
{
    match before {
        Outcome::Open => noted_by(notes),
        outcome => outcome,
    }
}

/// Returns the outcome of an open offer after these notes. Each note is read by its own position,
/// so that the compiler can keep the notes out of memory.
fn noted_by(notes: &Notes) -> Outcome
    ensures { result ≡ noted_by notes.now.items Outcome.Open }
{
    match notes.as_slice() {
        [] => Outcome::Open,
        [one] => outcome_noted(one),
        [one, other, ..] => outcome_with(other, outcome_noted(one)),
    }
}

/// Returns the outcome after a note: the first note with an outcome determines it.
fn outcome_with(note: &Note, before: Outcome) -> Outcome
    ensures { result ≡ outcome_with note.now before }
{
    match before {
        Outcome::Open => outcome_noted(note),
        outcome => outcome,
    }
}

/// Returns the outcome of an open offer after a note.
fn outcome_noted(note: &Note) -> Outcome
    ensures { result ≡ outcome_noted note.now }
{
    match note {
        Note::Accept => Outcome::Accepted,
        Note::Full => Outcome::Full,
        Note::Refuse(_) => Outcome::Refused,
        Note::Down => Outcome::Down,
        _ => Outcome::Open,
    }
}
