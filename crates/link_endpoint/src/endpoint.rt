//! One end of the link, which makes its calls step by step. It performs no access itself.
ghost use Rattle.std.specs.Prelude.{◌≡◌, ◌≢◌, ℕ, ◌+◌, ◌*◌, ◌%◌, ◌<◌, ◌≤◌, ◌↔◌, ◌⊎◌, not, is_some, Some, None, List, [], ◌∷◌, true, false, IsTrue, IfOk, IfSome, ◌++◌, length, take, flat_map};
ghost use Rattle.split_ring.specs.declared.sizes.TheConstants.{FRAME_OVERHEAD, SHORTEST_FRAME};
ghost use Rattle.call_grammar.specs.Ends.{End, fresh, after_reset};
ghost use Rattle.call_grammar.specs.Calls.{EndConfig, Offer, in_run};
ghost use Rattle.call_grammar.specs.Places as places;
ghost use Rattle.call_grammar.specs.Permitted.{IsPermittedAccess};
ghost use Rattle.call_grammar.specs.Ticks.{other_state};
ghost use Rattle.call_grammar.specs.Bursts.{StepsThrough, ReadsBurst, WritesBurst};
ghost use Rattle.call_grammar.specs.Words.{word_bytes, words_for};
ghost use Rattle.call_grammar.specs.StepBounds.{HasFewInFlight};
ghost use Rattle.link_endpoint.specs.Engine.{config_of, fresh_engine, engine_after_reset, is_busy, is_down, is_refusing, is_reading_state, is_tick, offered, delivered, call_of, begins_down, refused_after, reads_ahead, frame_ahead, writes_ahead, bursts_of};
ghost use Rattle.link_endpoint.specs.Refinement.{RefinesAt, AtEachEnd, is_armed, Takes, Opens};
ghost use Rattle.link_endpoint.specs.Refusal.{RecordsRefusal, EndsRefusal, KeepsRefused, KeepsPhase, StaysRefused};
ghost use Rattle.link_endpoint.specs.Bursts.{IsTaken};
ghost use Rattle.link_endpoint.specs.Items.{is_field, ReadsNext, RefusesNext, ReadsAndReturns};
ghost use Rattle.link_endpoint.specs.Publishing.{Publishes};
ghost use Rattle.link_endpoint.specs.Orders.{order_at};
ghost use Rattle.link_endpoint.specs.Runs.{EndpointsMakeCalls};

use crate::order::{Order, Ordering, order_of, plain};
use crate::place::{Call, Place};
use ivs_base::NoMemory;
use link_handshake::{Handshake, Move, Phase, phase_of};
use rx_engine::{FrameReturn, NextRead, Rx};
use section_map::Geometry;
use split_ring::steps::{Access, Note, Notes, leaving};
use split_ring::{Queue, Refused};
use std::alloc::Global;
use std::marker::Model;
use tx_engine::{Publication, Tx};

/// An end of the link: its handshake, its sender, its receiver, and the place in the open call.
///
/// Each step of a call is one access. The endpoint performs no access: `next` returns the next one,
/// and the caller performs it and passes the value read to `took`. Words are numbered from the base
/// of the region.
#[derive(Debug, Drop)]
pub struct Endpoint {
    other: u32,
    own: u32,
    words: u32,
    handshake: Handshake,
    refused: Option<Refused>,
    place: Place,
    tx: Tx,
    rx: Rx,
}

impl Model for Endpoint {
    ghost use Rattle.link_endpoint.specs.Engine.{Engine};
    ghost use Rattle.link_endpoint.specs.Representation.{engine_of, IsWellFormed};

    ghost Value = { Engine };

    ghost view = { engine_of };

    ghost invariant = { IsWellFormed };
}

impl Endpoint {
    /// Returns the end of peer `me` in a region of this geometry, whose output sections hold this
    /// queue. Its doorbells have the vector `traffic`.
    ///
    /// Returns `Err(NoMemory)` if an allocation fails. No later call returns it.
    // claim value, refines with Endpoint::reset.value, Endpoint::reset.refines: A new end is at its
    //    start. A reset cuts the open call, leaves the end in RESET and forgets the refusal, from
    //    any place.
    pub fn new(
        alloc: Global,
        me: u32,
        geometry: &Geometry,
        queue: &Queue,
        traffic: u32,
    ) -> Result<Endpoint, NoMemory>
        requires peer { me ≤ 1 }
        requires queue { queue.now.out ≡ 4 * geometry.now.out }
        ensures value { IfOk result (λ e. e ≡ fresh_engine (config_of geometry.now queue.now me traffic)) }
        ensures refines { IfOk result
            (λ e. RefinesAt e (config_of geometry.now queue.now me traffic) fresh places.Closed) }
    {
        let words = geometry.out_words();
        prove!(queue.out() == 4 * words);
        let other = if me == 0 { 1 } else { 0 };
        let own = geometry.section_start(me);
        let other_start = geometry.section_start(other);
        Ok(Endpoint {
            other,
            own,
            words,
            handshake: Handshake::new(),
            refused: None,
            place: Place::Closed,
            tx: Tx::new(alloc, queue, own, other_start, other, traffic)?,
            rx: Rx::new(alloc, queue, own, other_start, other, traffic)?,
        })
    }

    /// Whether a call is open.
    pub fn busy(&self) -> bool
        ensures value { result ≡ is_busy self.now }
        ensures open { AtEachEnd self.now (λ _ _ place. result ≡ places.is_open place) }
    {
        !matches!(self.place, Place::Closed)
    }

    /// Returns the phase of the end. The phase changes at a State step and at a reset. An end that
    /// refused a value is in RESET from the State step of the refusal until its reset.
    // claim value, end with Endpoint::busy.value, Endpoint::busy.open: Phase and openness are those
    //    of the end.
    pub fn phase(&self) -> Phase
        ensures value { result ≡ self.now.phase }
        ensures end { AtEachEnd self.now (λ _ end _. result ≡ end.handshake.phase) }
        ensures left { is_some self.now.refused ≡ true → is_refusing self.now ≡ false → result ≡ Phase.Reset }
    {
        self.handshake.phase()
    }

    /// Whether the end waits armed, provided that no call is open. An end in RUN is armed from a
    /// poll that finds no frame until a poll that finds one. An armed end gets a doorbell when an
    /// honest other end accepts its next frame. In a link without events no end is armed.
    // claim: An end waits armed exactly if it is in RUN, the link has events, and the last look of
    //    its session found nothing.
    pub fn is_armed(&self) -> bool
        ensures { (config : EndConfig) (end : End) → RefinesAt self.now config end places.Closed →
            result ≡ is_armed config end }
    {
        self.in_run() && self.rx.is_armed()
    }

    /// Returns the value that the end refused and its field, from the step that read the value
    /// until the next reset. A Stop or a Tick doesn't change it.
    pub fn refused(&self) -> Option<Refused>
        ensures value { result ≡ self.now.refused }
        ensures end { AtEachEnd self.now (λ _ end _. is_some result ≡ end.handshake.mark) }
    {
        self.refused
    }

    /// Returns the length in bytes of the longest frame that may be offered: the MTU plus 18.
    pub fn longest(&self) -> u32
        ensures { result ≡ self.now.config.sizes.mtu + FRAME_OVERHEAD }
    {
        self.tx.longest()
    }

    /// Returns the frame offered last, in any phase: the frame of an open offer, and the frame that
    /// `offer_again` offers. It stays until another frame is offered, through all other calls,
    /// refusals, sessions and resets. It is empty before the first offer.
    pub fn offered(&self) -> &[u8]
        ensures value { result.now ≡ offered self.now }
        ensures most { length result.now ≤ self.now.config.sizes.mtu + FRAME_OVERHEAD }
    {
        self.tx.frame()
    }

    /// Returns the frame delivered last. It stays until the step that delivers the next frame,
    /// through refusals, stops and resets. It is empty before the first delivery.
    // claim with Endpoint::reset.delivered: The frame delivered last is kept from the step that
    //    delivers it to the one that delivers the next, through refusals, stops and resets. It is
    //    empty before the first.
    pub fn delivered(&self) -> &[u8]
        ensures { result.now ≡ delivered self.now }
    {
        self.rx.frame()
    }

    /// Opens a call.
    // claim refines, open, down, kept with Endpoint::offer.refines, Endpoint::offer.open,
    //    Endpoint::offer.down, Endpoint::offer.kept: A call begins at its first place, in each
    //    phase. An offer or a poll outside RUN is down, and no other call is.
    pub fn begin(&mut self, call: Call)
        requires { is_busy self.old ≡ false }
        ensures refines { (config : EndConfig) (end : End) → RefinesAt self.old config end places.Closed →
            RefinesAt self.new config end (places.first_place config end (call_of call)) }
        ensures open { is_busy self.new ≡ true }
        ensures down { is_down self.new ≡ begins_down call self.old.phase }
        ensures looks { is_reading_state self.new ≡ is_tick call }
        ensures offered { offered self.new ≡ offered self.old }
        ensures kept { Opens self.old self.new }
    {
        match call {
            Call::Tick => self.place = Place::ReadingOtherState,
            Call::Stop => self.place = Place::WritingState(0),
            Call::Poll if self.handshake.phase() == Phase::Run => {
                self.rx.begin();
                self.place = Place::Polling;
            }
            Call::Poll => self.place = Place::NotInRun,
        }
    }

    /// Whether the end is in RUN, the phase in which offers and polls work.
    fn in_run(&self) -> bool
        ensures { result ≡ in_run self.now.phase }
    {
        matches!(self.handshake.phase(), Phase::Run)
    }

    /// Opens an offer of `frame`, in any phase, and copies the frame. If the offer is down,
    /// `offer_again` offers the frame later in RUN.
    ///
    /// In each phase the number of frames in flight is at most the limit, so the offer has no more
    /// steps than its bound.
    // claim frame with Endpoint::begin.offered, Endpoint::reset.offered, Endpoint::offered.value,
    //    Endpoint::offered.most, Endpoint::longest, bursts_keep_offers: The frame offered last is
    //    the one that the last offer was given, in whatever phase. It stays until another is
    //    offered, through each step, call, refusal, session and reset, and is empty before the
    //    first offer alone.
    pub fn offer(&mut self, frame: &[u8])
        requires closed { is_busy self.old ≡ false }
        requires frame { (SHORTEST_FRAME ≤ length frame.now) ×
            (length frame.now ≤ self.old.config.sizes.mtu + FRAME_OVERHEAD) }
        ensures refines { (config : EndConfig) (end : End) → RefinesAt self.old config end places.Closed →
            RefinesAt self.new config end (places.first_place config end (Offer frame.now)) }
        ensures few { AtEachEnd self.old (λ config end _. HasFewInFlight config end) }
        ensures open { is_busy self.new ≡ true }
        ensures down { is_down self.new ≡ not (in_run self.old.phase) }
        ensures frame { offered self.new ≡ frame.now }
        ensures kept { Opens self.old self.new }
    {
        if self.in_run() {
            self.tx.begin(frame);
            self.place = Place::Offering;
        } else {
            self.tx.keep(frame);
            self.place = Place::NotInRun;
        }
    }

    /// Opens another offer of the frame offered last, without a copy. It serves, for example, after
    /// an offer that was down or found the link full.
    // claim refines, few, open, down, frame, kept: The frame offered last is offered again without
    //    a copy: the same call of the grammar.
    pub fn offer_again(&mut self)
        requires closed { is_busy self.old ≡ false }
        requires some { SHORTEST_FRAME ≤ length (offered self.old) }
        ensures refines { (config : EndConfig) (end : End) → RefinesAt self.old config end places.Closed →
            RefinesAt self.new config end (places.first_place config end (Offer (offered self.old))) }
        ensures few { AtEachEnd self.old (λ config end _. HasFewInFlight config end) }
        ensures open { is_busy self.new ≡ true }
        ensures down { is_down self.new ≡ not (in_run self.old.phase) }
        ensures frame { offered self.new ≡ offered self.old }
        ensures kept { Opens self.old self.new }
    {
        if self.in_run() {
            self.tx.begin_again();
            self.place = Place::Offering;
        } else {
            self.place = Place::NotInRun;
        }
    }

    /// Returns the next access of the open call. It is a read of the other's State or section, a
    /// write to the own section or State, or a doorbell to the other. `Nothing` is the only step of
    /// an offer or a poll outside RUN.
    // claim access, reach, nothing: The next access is that of the place, and permitted whatever
    //    was read. It is none exactly if the call is down.
    #[inline(always)]
    pub fn next(&self) -> Access
        requires { is_busy self.now ≡ true }
        ensures access { AtEachEnd self.now (λ config _ place. result ≡ places.access_at config place) }
        ensures reach { IsPermittedAccess self.now.config result }
        ensures nothing { (result ≡ Access.Nothing) ↔ IsTrue (is_down self.now) }
        ensures leaves { is_refusing self.now ≡ true → result ≡ Access.State 0 }
    {
        match self.place {
            Place::ReadingOtherState => Access::Read(self.other_state()),
            Place::Clearing { at, .. } => Access::Write(at, 0),
            Place::WritingState(state) => Access::State(state),
            Place::Refusing => leaving(),
            Place::NotInRun => Access::Nothing,
            Place::Offering => self.tx.next(),
            Place::Polling => self.rx.next(),
            Place::Closed => unreachable!(),
        }
    }

    /// Completes the step of the access that `next` returned. `value` is the value that a read met,
    /// and the step of another access ignores it.
    ///
    /// The frame of an Accept note is `offered`, and the frame of a Deliver note is `delivered`.
    /// After a step that refuses a value the next access is State 0, which puts the end into RESET.
    /// The end stays in RESET and keeps the refused value until its reset.
    // claim steps with Endpoint::took_into.steps, Endpoint::offer.few: Each step has the marks of
    //    its place for the value read, and leads to the next place. An Accept is of the frame
    //    offered, a Deliver of the one delivered. In each phase the frames in flight are within the
    //    limit, which the step bound of an offer needs.
    // claim refuses with Endpoint::took_into.refuses, Endpoint::next.leaves: After a step that
    //    refuses a value, the next access is State 0.
    // claim leaves with Endpoint::took_into.leaves, Endpoint::phase.left: With that State step the
    //    call is over. The end is in RESET, and stays there until its reset, through stops.
    // claim keeps with Endpoint::took_into.keeps, Endpoint::refused.value, Endpoint::refused.end:
    //    An end that refused a value keeps the value and its field until its reset.
    // claim stays with Endpoint::took_into.stays, Endpoint::begin.looks, refused_ends_stay: Each
    //    tick of an end that refused reads the other's State, and does nothing else.
    pub fn took(&mut self, value: u32) -> Notes
        requires { is_busy self.old ≡ true }
        ensures steps { Takes self.old value result.items self.new }
        ensures refuses { RecordsRefusal result.items self.new }
        ensures leaves { EndsRefusal self.old result.items self.new }
        ensures keeps { KeepsRefused self.old self.new }
        ensures stays { KeepsPhase self.old value result.items self.new }
    {
        let mut notes = Notes::new();
        self.took_into(value, &mut notes);
        notes
    }

    /// Equivalent to `took`, but puts the notes into the caller's list `notes`.
    #[inline(always)]
    pub fn took_into(&mut self, value: u32, notes: &mut Notes)
        requires open { is_busy self.old ≡ true }
        requires empty { notes.old.items ≡ [] }
        ensures steps { Takes self.old value notes.new.items self.new }
        ensures refuses { RecordsRefusal notes.new.items self.new }
        ensures leaves { EndsRefusal self.old notes.new.items self.new }
        ensures keeps { KeepsRefused self.old self.new }
        ensures stays { KeepsPhase self.old value notes.new.items self.new }
    {
        match self.place {
            Place::ReadingOtherState => self.took_state(value, notes),
            Place::Clearing { at, then } => self.took_clear(at, then),
            Place::WritingState(state) => self.took_set(state, notes),
            Place::Refusing => self.took_refusal(notes),
            Place::NotInRun => self.took_down(notes),
            Place::Offering => self.took_offer(value, notes),
            Place::Polling => self.took_poll(value, notes),
            Place::Closed => unreachable!(),
        }
    }

    /// Completes the read of a field of an item in a poll (its entry, or a word of its descriptor)
    /// if the value passes its check. Returns the next access, which is a relaxed read. Equivalent
    /// to `took`, and the step has no note.
    ///
    /// Returns `None` and changes nothing if the value is refused, or if no field of an item is
    /// next. Then `took` completes the step.
    // claim step, access, count, refused, unchanged: The read of a field of an item in a poll that
    //    passes its check is one single step, and the next access is a relaxed read, with the burst
    //    that begins with it. Exactly a value that is refused, or another access, changes nothing.
    pub fn took_field(&mut self, value: u32) -> Option<NextRead>
        ensures step { IfSome result (λ next. IsTaken self.old value [] self.new) }
        ensures access { IfSome result (λ next. ReadsNext self.new next.word) }
        ensures count { IfSome result (λ next. next.count ≡ reads_ahead self.new) }
        ensures refused { result ≡ None → is_field self.old ≡ true → RefusesNext self.old value }
        ensures unchanged { result ≡ None → self.new ≡ self.old }
    {
        match self.place {
            Place::Polling => self.rx.took_field(value),
            _ => None,
        }
    }

    /// Completes the reads of a whole frame in a poll, whose words are `words`, four bytes each,
    /// the lowest byte first. Returns the frame: completes the writes of its used element and of
    /// the used index, which the caller makes now. Equivalent to `took` for each of these steps.
    ///
    /// Returns `None` and changes nothing if these aren't all words of a frame whose first word is
    /// next.
    // claim steps, sized, open, other, phase, unchanged: All words of a frame and the writes that
    //    return the frame are completed as by single steps, none of which changes the phase or
    //    ends the call. These writes are the accesses of the steps, and the index is released. The
    //    length returned has that number of words. Exactly other words, or another access, change
    //    nothing.
    pub fn took_frame(&mut self, words: &[u8]) -> Option<FrameReturn>
        ensures steps { IfSome result (λ made. ReadsAndReturns self.old words.now made self.new) }
        ensures sized { IfSome result (λ made. length words.now ≡ 4 * words_for made.length) }
        ensures open { IfSome result (λ made. is_busy self.new ≡ true) }
        ensures other { result ≡ None → (frame_ahead self.old ≡ None) ⊎ (length words.now ≢ 4 * reads_ahead self.old) }
        ensures phase { self.new.phase ≡ self.old.phase }
        ensures unchanged { result ≡ None → self.new ≡ self.old }
    {
        match self.place {
            Place::Polling => self.rx.took_frame(words),
            _ => None,
        }
    }

    /// Returns the memory order that the next access needs if the shared words aren't all
    /// sequentially consistent.
    // claim: Each access has the memory order of its place. The other's State is acquired; the own
    //    State is released, with a full fence after it. An index is acquired at a read and released
    //    at a write. A doorbell is released. All other accesses are relaxed.
    pub fn order(&self) -> Ordering
        ensures { AtEachEnd self.now (λ _ _ place. result ≡ order_at place) }
    {
        match self.place {
            Place::ReadingOtherState => plain(Order::Acquire),
            Place::WritingState(_) | Place::Refusing => Ordering {
                order: Order::Release,
                fence_before: false,
                fence_after: true,
            },
            Place::Offering => order_of(self.tx.rings(), self.tx.word_kind()),
            Place::Polling => order_of(self.rx.rings(), self.rx.word_kind()),
            _ => plain(Order::Relaxed),
        }
    }

    /// Returns the number of the next accesses that read consecutive words, beginning with that of
    /// `next`. No access before the last has a note. Returns 0 if no burst of reads is next.
    pub fn reads_ahead(&self) -> u32
        ensures value { result ≡ reads_ahead self.now }
        ensures reads { (config : EndConfig) (end : End) (place : places.Place) (word : ℕ) →
            RefinesAt self.now config end place →
            places.access_at config place ≡ Access.Read word → ReadsBurst config place word result }
    {
        match self.place {
            Place::Polling => self.rx.reads_ahead(),
            _ => 0,
        }
    }

    /// Completes the next reads, at most `reads_ahead` of them. `words` holds the values read, four
    /// bytes each, the lowest byte first.
    ///
    /// Equivalent to a call of `took` for each of these values in order. If `words` holds all words
    /// of a frame, the frame delivered is their first bytes.
    // claim steps with Endpoint::took_reads_into.steps, Endpoint::reads_ahead.value,
    //    Endpoint::reads_ahead.reads, Endpoint::writes_ahead, Endpoint::words.writes,
    //    Endpoint::words.sized, Endpoint::took_writes: A burst is of reads of a frame's words, or
    //    of writes of a frame, a descriptor, a used element or the clears of a tick. Completing a
    //    burst equals as many single steps, and no step before the last has a note.
    // claim frame with Endpoint::took_reads_into.frame: If all words of a frame are taken at once,
    //    the frame delivered is their first bytes.
    pub fn took_reads(&mut self, words: &[u8]) -> Notes
        requires some { 0 < length words.now }
        requires whole { length words.now % 4 ≡ 0 }
        requires within { length words.now ≤ 4 * reads_ahead self.old }
        ensures steps { (values : List ℕ) → words.now ≡ flat_map word_bytes values →
            StepsThrough IsTaken self.old values result.items self.new }
        ensures frame { IfSome (frame_ahead self.old) (λ bytes. length words.now ≡ 4 * reads_ahead self.old →
            delivered self.new ≡ take bytes words.now) }
    {
        let mut notes = Notes::new();
        self.took_reads_into(words, &mut notes);
        notes
    }

    /// Equivalent to `took_reads`, but puts the notes into the caller's list `notes`.
    pub fn took_reads_into(&mut self, words: &[u8], notes: &mut Notes)
        requires some { 0 < length words.now }
        requires whole { length words.now % 4 ≡ 0 }
        requires within { length words.now ≤ 4 * reads_ahead self.old }
        requires empty { notes.old.items ≡ [] }
        ensures steps { (values : List ℕ) → words.now ≡ flat_map word_bytes values →
            StepsThrough IsTaken self.old values notes.new.items self.new }
        ensures frame { IfSome (frame_ahead self.old) (λ bytes. length words.now ≡ 4 * reads_ahead self.old →
            delivered self.new ≡ take bytes words.now) }
    {
        self.rx.took_reads_into(words, notes)
    }

    /// Returns the number of the next accesses that write consecutive words, beginning with that of
    /// `next`. None of them has a note. Returns 0 if no burst of writes is next.
    pub fn writes_ahead(&self) -> u32
        ensures { result ≡ writes_ahead self.now }
    {
        match self.place {
            Place::Offering => self.tx.writes_ahead(),
            Place::Polling => self.rx.writes_ahead(),
            Place::Clearing { at, .. } => self.own + self.words - at,
            _ => 0,
        }
    }

    /// Writes the values of the next writes into `into`, at most `writes_ahead` words, four bytes
    /// each, the lowest byte first.
    pub fn words(&self, into: &mut [u8])
        requires whole { length into.old % 4 ≡ 0 }
        requires within { length into.old ≤ 4 * writes_ahead self.now }
        ensures writes { (config : EndConfig) (end : End) (place : places.Place) (word value : ℕ) →
            RefinesAt self.now config end place →
            places.access_at config place ≡ Access.Write word value → WritesBurst config place word into.new }
        ensures sized { length into.new ≡ length into.old }
    {
        match self.place {
            Place::Offering => self.tx.words(into),
            Place::Polling => self.rx.words(into),
            Place::Clearing { .. } => into.fill(0),
            _ => {}
        }
    }

    /// Completes the next `count` writes, with `count` at most `writes_ahead`.
    ///
    /// Equivalent to `count` calls of `took`, none of which has a note.
    pub fn took_writes(&mut self, count: u32)
        requires some { 0 < count }
        requires within { count ≤ writes_ahead self.old }
        ensures { (values : List ℕ) → length values ≡ count → StepsThrough IsTaken self.old values [] self.new }
    {
        match self.place {
            Place::Offering => self.tx.took_writes(count),
            Place::Polling => self.rx.took_writes(count),
            Place::Clearing { at, then } => self.took_clears(at, then, count),
            _ => unreachable!(),
        }
    }

    /// Whether the next access writes a word of the offered frame.
    // claim: A word of the frame is next exactly if the open offer has bursts to write before its
    //    index.
    pub fn writes_frame(&self) -> bool
        ensures { result ≡ is_some (bursts_of self.now) }
    {
        match self.place {
            Place::Offering => self.tx.writes_frame(),
            _ => false,
        }
    }

    /// Completes the writes of all bursts of the open offer before its available index and the
    /// write of the index, which the caller makes now. The bursts are the words left of the frame,
    /// the descriptor and the available entry. Writes the words after the frame into `tail`, four
    /// bytes each, the lowest byte first. Equivalent to `took` for each of these steps.
    ///
    /// The words of the frame are the last ones of `offered`, with 0 after its last byte. A caller
    /// that still holds the frame can write them from its own copy. Returns `None` and changes
    /// nothing if no word of a frame is written next.
    // claim steps, open, sized, other, phase, unchanged: All that an offer writes up to its index
    //    is completed as by single steps, none of which changes the phase or ends the call. These
    //    writes are the accesses of the steps, and the index is released. Exactly if no word of a
    //    frame is next, nothing changes.
    pub fn publish(&mut self, tail: &mut [u8]) -> Option<Publication>
        requires { length tail.old ≡ 20 }
        ensures steps { IfSome result (λ made. Publishes self.old tail.new made self.new) }
        ensures open { IfSome result (λ made. is_busy self.new ≡ true) }
        ensures sized { length tail.new ≡ length tail.old }
        ensures other { result ≡ None → bursts_of self.old ≡ None }
        ensures phase { self.new.phase ≡ self.old.phase }
        ensures unchanged { result ≡ None → (self.new ≡ self.old) × (tail.new ≡ tail.old) }
    {
        match self.place {
            Place::Offering => self.tx.publish(tail),
            _ => None,
        }
    }

    /// Resets the end after a reset of its own device: cuts the open call and clears the refused
    /// value. The frame offered last and the frame delivered last stay.
    pub fn reset(&mut self)
        ensures value { self.new ≡ engine_after_reset self.old }
        ensures refines { AtEachEnd self.old
            (λ config end _. RefinesAt self.new config (after_reset end) places.Closed) }
        ensures delivered { delivered self.new ≡ delivered self.old }
        ensures offered { offered self.new ≡ offered self.old }
    {
        self.handshake.reset();
        self.refused = None;
        self.place = Place::Closed;
        self.tx.reset();
        self.rx.reset();
    }
}

/// The steps of `took_into`, one function for each place.
impl Endpoint {
    /// Returns the number of the word that holds the other's State.
    fn other_state(&self) -> u32
        ensures { result ≡ other_state self.now.config }
    {
        self.other
    }

    /// Completes the read of the other's State.
    fn took_state(&mut self, value: u32, notes: &mut Notes)
        requires place { self.old.place ≡ Place.ReadingOtherState }
        requires empty { notes.old.items ≡ [] }
        ensures steps { Takes self.old value notes.new.items self.new }
        ensures leaving { StaysRefused self.old value notes.new.items self.new }
    {
        notes.push(Note::Saw(value));
        self.place = match self.handshake.saw(value) {
            Move::Stay => {
                notes.push(Note::Over);
                Place::Closed
            }
            Move::Set(state) => Place::WritingState(state),
            Move::ClearThenSet(then) => Place::Clearing { at: self.own, then },
        };
    }

    /// Completes the write of 0 to the own word `at`.
    fn took_clear(&mut self, at: u32, then: u32)
        requires { self.old.place ≡ Place.Clearing at then }
        ensures steps { (value : ℕ) → Takes self.old value [] self.new }
        ensures leaving { (value : ℕ) → StaysRefused self.old value [] self.new }
    {
        let end = self.own + self.words;
        self.place = if at + 1 == end {
            Place::WritingState(then)
        } else {
            Place::Clearing { at: at + 1, then }
        };
    }

    /// Completes `count` writes of 0 to own words, beginning at `at`.
    fn took_clears(&mut self, at: u32, then: u32, count: u32)
        requires place { self.old.place ≡ Place.Clearing at then }
        requires some { 0 < count }
        requires within { at + count ≤ self.old.config.own + self.old.config.words }
        ensures { (values : List ℕ) → length values ≡ count → StepsThrough IsTaken self.old values [] self.new }
    {
        let last = self.own + self.words;
        self.place = clearing(at + count, last, then);
    }

    /// Completes the State step of a Tick or a Stop.
    fn took_set(&mut self, state: u32, notes: &mut Notes)
        requires place { self.old.place ≡ Place.WritingState state }
        requires empty { notes.old.items ≡ [] }
        ensures steps { (value : ℕ) → Takes self.old value notes.new.items self.new }
        ensures leaving { (value : ℕ) → StaysRefused self.old value notes.new.items self.new }
    {
        if state == 2 {
            return self.took_opening(notes);
        }
        self.handshake.enter(phase_of(state));
        self.place = Place::Closed;
        notes.push(Note::Over);
    }

    /// Completes the State step that opens a session.
    fn took_opening(&mut self, notes: &mut Notes)
        requires place { self.old.place ≡ Place.WritingState 2 }
        requires empty { notes.old.items ≡ [] }
        ensures steps { (value : ℕ) → Takes self.old value notes.new.items self.new }
        ensures leaving { (value : ℕ) → StaysRefused self.old value notes.new.items self.new }
    {
        self.tx.reset();
        self.rx.reset();
        self.handshake.enter(Phase::Ready);
        self.place = Place::Closed;
        notes.push(Note::Over);
    }

    /// Completes the State step of a refusal, which ends the session.
    fn took_refusal(&mut self, notes: &mut Notes)
        requires place { self.old.place ≡ Place.Refusing }
        requires empty { notes.old.items ≡ [] }
        ensures steps { (value : ℕ) → Takes self.old value notes.new.items self.new }
        ensures leaving { (value : ℕ) → StaysRefused self.old value notes.new.items self.new }
    {
        self.tx.reset();
        self.rx.reset();
        self.handshake.refuse();
        self.place = Place::Closed;
        notes.push(Note::Over);
    }

    /// Completes the only step of a call that is down.
    fn took_down(&mut self, notes: &mut Notes)
        requires place { self.old.place ≡ Place.NotInRun }
        requires empty { notes.old.items ≡ [] }
        ensures steps { (value : ℕ) → Takes self.old value notes.new.items self.new }
        ensures leaving { (value : ℕ) → StaysRefused self.old value notes.new.items self.new }
    {
        self.place = Place::Closed;
        notes.push(Note::Down);
    }

    /// Completes a step of the sender.
    #[inline(always)]
    fn took_offer(&mut self, value: u32, notes: &mut Notes)
        requires place { self.old.place ≡ Place.Offering }
        requires empty { notes.old.items ≡ [] }
        ensures steps { Takes self.old value notes.new.items self.new }
        ensures leaving { StaysRefused self.old value notes.new.items self.new }
    {
        self.tx.took_into(value, notes);
        if let Some(refused) = refused_in(notes) {
            self.refused = Some(refused);
            self.place = Place::Refusing;
        } else if !self.tx.busy() {
            self.place = Place::Closed;
        }
    }

    /// Completes a step of the receiver.
    #[inline(always)]
    fn took_poll(&mut self, value: u32, notes: &mut Notes)
        requires place { self.old.place ≡ Place.Polling }
        requires empty { notes.old.items ≡ [] }
        ensures steps { Takes self.old value notes.new.items self.new }
        ensures leaving { StaysRefused self.old value notes.new.items self.new }
    {
        self.rx.took_into(value, notes);
        if let Some(refused) = refused_in(notes) {
            self.refused = Some(refused);
            self.place = Place::Refusing;
        } else if !self.rx.busy() {
            self.place = Place::Closed;
        }
    }
}

/// Returns the place before the write of 0 to the own word `at`. Returns the place after the last
/// of these writes if `at` is `end`, the end of the own words.
fn clearing(at: u32, end: u32, then: u32) -> Place
    ensures word { at < end → result ≡ Place.Clearing at then }
    ensures after { at ≡ end → result ≡ Place.WritingState then }
{
    if at == end {
        Place::WritingState(then)
    } else {
        Place::Clearing { at, then }
    }
}

/// Returns what the last Refuse note of `notes` refused. Each note is read by its own position, so
/// that the compiler can keep the notes out of memory.
fn refused_in(notes: &Notes) -> Option<Refused>
    ensures { result ≡ refused_after notes.now.items None }
{
    match notes.as_slice() {
        [Note::Refuse(refused)] => Some(*refused),
        [Note::Refuse(refused), other, ..] => Some(refused_with(other, *refused)),
        [_, Note::Refuse(refused), ..] => Some(*refused),
        _ => None,
    }
}

/// Returns what is refused after `note`, if `before` was refused before it.
fn refused_with(note: &Note, before: Refused) -> Refused
    ensures { Some result ≡ refused_after (note.now ∷ []) (Some before) }
{
    match note {
        Note::Refuse(refused) => *refused,
        _ => before,
    }
}

/// Law: each offer, poll, tick and stop of an endpoint is a call of the grammar, over any values. A
/// call that is cut is a beginning of a call of the grammar.
// claim: Each offer, poll, tick and stop of an endpoint is a call of the grammar, over any values,
//    and the beginning of one if it is cut.
pub fn endpoints_make_calls()
    ensures { EndpointsMakeCalls }
{}
