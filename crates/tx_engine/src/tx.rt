//! The sender of an end.
ghost use Rattle.std.specs.Prelude.{◌≡◌, ℕ, ◌+◌, ◌-◌, ◌*◌, ◌%◌, ◌<◌, ◌≤◌, IfOk, IfSome, Some, None, is_some, true, false, List, [], ◌∷◌, ◌++◌, length, take, replicate};
ghost use Rattle.section_map.specs.declared.limits.TheConstants.{LARGEST_REGION};
ghost use Rattle.split_ring.specs.declared.sizes.TheConstants.{FRAME_OVERHEAD, SHORTEST_FRAME};
ghost use Rattle.split_ring.specs.Layout.{size_of, limit_of, word_offset, AvailIndex};
ghost use Rattle.call_grammar.specs.Ends.{End};
ghost use Rattle.call_grammar.specs.Ticks.{EndConfig};
ghost use Rattle.call_grammar.specs.Calls.{Offer};
ghost use Rattle.call_grammar.specs.Places as laws;
ghost use Rattle.call_grammar.specs.Permitted.{HasSections, IsPermittedAccess};
ghost use Rattle.call_grammar.specs.Words.{words_for, frame_word, word_bytes};
ghost use Rattle.call_grammar.specs.Bursts.{StepsThrough, WritesBurst};
ghost use Rattle.call_grammar.specs.Orders.{word_kind};
ghost use Rattle.link_handshake.specs.declared.Phase.TheVariants.{Run};
ghost use Rattle.tx_engine.specs.Sender.{IsSender, fresh_sender, renewed, is_open, writes_ahead, IsFrame, IsPlace, IsSenderAccess, entry_word_of};
ghost use Rattle.tx_engine.specs.Ahead.{bursts_of, words_of, listed, last_words, WritesAll};
ghost use Rattle.tx_engine.specs.Publishing.{Publishes};
ghost use Rattle.tx_engine.specs.Refinement.{RefinesAt, rings, TakesStep, StaysOpen, IsMadeFor, IsFreshSession, IdleEngineOutlivesSteps};

use crate::ahead::{Burst, Bursts, Publication};
use crate::place::{
    Place, descriptor_place, frame_place, note_full, offer_after_ids, place_after_index,
};
use frame_slots::{Slot, Slots};
use ivs_base::{NoMemory, plus, word_of};
use split_ring::steps::{Access, Note, Notes, WordKind, leaving};
use split_ring::{FRAME_OVERHEAD, Queue, Refused, high_half, low_half, need_event, of_halves};
use std::alloc::Global;
use std::marker::Model;

/// The sender of an end. It publishes frames in the end's own section, one access a step.
///
/// It performs no access: `next` returns the next one, and the caller performs it and passes the
/// value read to `took`. The sender stores the number of accepted frames modulo 65,536, and the
/// descriptors in flight with the lengths of their frames. It also stores a copy of the entry words
/// that it wrote, because two entries share a word. After `new` no call returns NoMemory.
#[derive(Debug, Drop)]
pub struct Tx {
    queue: Queue,
    own: u32,
    other_start: u32,
    target: u32,
    vector: u32,
    accepted: u16,
    slots: Slots,
    lengths: Vec<u32>,
    entries: Vec<u32>,
    buffer: Vec<u8>,
    length: u32,
    place: Place,
}

impl Model for Tx {
    ghost use Rattle.tx_engine.specs.Representation.{sender_of, IsWellFormed};
    ghost use Rattle.tx_engine.specs.Sender.{Sender};

    ghost Value = { Sender };

    ghost view = { sender_of };

    ghost invariant = { IsWellFormed };
}

impl Tx {
    /// Returns the sender of an end whose section begins at the word `own`, and the other end's
    /// section at the word `other_start`. Its doorbells have the target `target` and the vector
    /// `vector`.
    ///
    /// Words are numbered from the base of the region. Returns `Err(NoMemory)` if an allocation
    /// fails.
    // claim value, refines with Tx::reset.value, Tx::reset.refines: A new sender, and one that was
    //    reset, represents each end with a fresh session. A reset keeps the frame offered last.
    pub fn new(
        alloc: Global,
        queue: &Queue,
        own: u32,
        other_start: u32,
        target: u32,
        vector: u32,
    ) -> Result<Tx, NoMemory>
        requires own { 4 * own + queue.now.out ≤ LARGEST_REGION }
        requires other_start { 4 * other_start + queue.now.out ≤ LARGEST_REGION }
        ensures value { IfOk result (λ tx. tx ≡ fresh_sender queue.now own other_start target vector) }
        ensures refines { IfOk result (λ tx. (config : EndConfig) (end : End) → IsMadeFor tx config →
            IsFreshSession config end → RefinesAt tx config end laws.Closed) }
    {
        let lengths = Vec::from_elem(alloc, 0, queue.limit() as usize)?;
        let entries = Vec::from_elem(alloc, 0, (queue.size() / 2) as usize)?;
        let buffer = Vec::from_elem(alloc, 0, (u64::from(queue.mtu()) + FRAME_OVERHEAD) as usize)?;
        Ok(Tx {
            queue: *queue,
            own,
            other_start,
            target,
            vector,
            accepted: 0,
            slots: Slots::new(queue),
            lengths,
            entries,
            buffer,
            length: 0,
            place: Place::Closed,
        })
    }

    /// Whether an offer is open.
    // claim open, place, bounds: The sender is open exactly as long as the offer is.
    pub fn busy(&self) -> bool
        ensures open { result ≡ is_open self.now.place }
        ensures bounds { IsSender self.now }
        ensures place { (config : EndConfig) (end : End) (place : laws.Place) →
            RefinesAt self.now config end place → result ≡ laws.is_open place }
    {
        !matches!(self.place, Place::Closed)
    }

    /// Returns the length in bytes of the longest frame that may be offered: the MTU plus 18.
    pub fn longest(&self) -> u32
        ensures { result ≡ self.now.sizes.mtu + FRAME_OVERHEAD }
    {
        self.queue.mtu() + FRAME_OVERHEAD as u32
    }

    /// Returns the frame offered last: the frame of `begin`, or the frame that `keep` stored for a
    /// later offer. It is empty before the first.
    pub fn frame(&self) -> &[u8]
        ensures value { result.now ≡ self.now.frame }
        ensures most { length result.now ≤ self.now.sizes.mtu + FRAME_OVERHEAD }
    {
        &self.buffer[..self.length as usize]
    }

    /// Opens an offer of `frame`, and copies the frame. The end is in RUN.
    // claim refines, value with Tx::begin_again.refines, Tx::begin_again.value, Tx::keep.refines,
    //    Tx::keep.value, Tx::frame.value, Tx::frame.most, Tx::longest: An offer begins at the first
    //    place of the grammar's offer, for an end in RUN. A frame that is kept for a later offer
    //    changes nothing else.
    pub fn begin(&mut self, frame: &[u8])
        requires closed { is_open self.old.place ≡ false }
        requires frame { IsFrame self.old.sizes frame.now }
        ensures refines { (config : EndConfig) (end : End) → RefinesAt self.old config end laws.Closed →
            end.handshake.phase ≡ Run →
            RefinesAt self.new config end (laws.first_place config end (Offer frame.now)) }
        ensures value { self.new ≡ record self.old { frame = frame.now; place = Place.ReadingUsedIndex } }
    {
        self.keep(frame);
        self.place = Place::ReadingUsedIndex;
    }

    /// Stores a copy of `frame` as the frame offered last, and opens no offer.
    pub fn keep(&mut self, frame: &[u8])
        requires closed { is_open self.old.place ≡ false }
        requires frame { IsFrame self.old.sizes frame.now }
        ensures refines { (config : EndConfig) (end : End) → RefinesAt self.old config end laws.Closed →
            RefinesAt self.new config end laws.Closed }
        ensures value { self.new ≡ record self.old { frame = frame.now } }
    {
        put_first(&mut self.buffer, frame);
        self.length = frame.len() as u32;
    }

    /// Opens another offer of the frame offered last, without a copy. The end is in RUN.
    pub fn begin_again(&mut self)
        requires closed { is_open self.old.place ≡ false }
        requires some { SHORTEST_FRAME ≤ length self.old.frame }
        ensures refines { (config : EndConfig) (end : End) → RefinesAt self.old config end laws.Closed →
            end.handshake.phase ≡ Run →
            RefinesAt self.new config end (laws.first_place config end (Offer self.old.frame)) }
        ensures value { self.new ≡ record self.old { place = Place.ReadingUsedIndex } }
    {
        self.place = Place::ReadingUsedIndex;
    }

    /// Returns the next access of the open offer.
    // claim access: The next access is that of the sender's place in the grammar. In a link with
    //    events the sender reads the other's event after the index.
    // claim reach, lawful: The next access writes the own section, reads the other's, sets State 0
    //    or rings the target, whatever was read before.
    #[inline(always)]
    pub fn next(&self) -> Access
        requires { is_open self.now.place ≡ true }
        ensures access { (config : EndConfig) (end : End) (place : laws.Place) →
            RefinesAt self.now config end place → result ≡ laws.access_at config place }
        ensures reach { IsSenderAccess self.now result }
        ensures lawful { (config : EndConfig) → IsMadeFor self.now config → HasSections config →
            IsPermittedAccess config result }
    {
        let queue = &self.queue;
        match self.place {
            Place::ReadingUsedIndex => self.read(queue.used_word()),
            Place::ReadingUsedId { .. } => self.read(queue.used_id(u32::from(self.freed()))),
            Place::WritingFrameWord { slot, at, .. } => self.write(
                slot.address / 4 + at,
                self.frame_word(at),
            ),
            Place::WritingDescAddressLow(slot) => self.write(
                queue.descriptor(slot.descriptor),
                slot.address,
            ),
            Place::WritingDescAddressHigh(slot) => self.write(
                queue.descriptor(slot.descriptor) + 1,
                0,
            ),
            Place::WritingDescLength(slot) => self.write(
                queue.descriptor(slot.descriptor) + 2,
                self.length,
            ),
            Place::WritingDescFlags(slot) => self.write(queue.descriptor(slot.descriptor) + 3, 0),
            Place::WritingAvailEntry(slot) => {
                let entry = queue.entry_word(u32::from(self.accepted));
                self.write(entry, self.entry_word(slot.descriptor))
            }
            Place::WritingAvailIndex => {
                let index = plus(self.accepted, 1);
                self.write(queue.avail_word(), of_halves(0, index))
            }
            Place::ReadingAvailEvent => self.read(queue.avail_event_word()),
            Place::Ringing => Access::Ring {
                target: self.target,
                vector: self.vector,
            },
            Place::Refusing => leaving(),
            Place::Closed => unreachable!(),
        }
    }

    /// Completes the step of the access that `next` returned. `value` is the value that a read met.
    // claim with Tx::took_into: Each step has the marks of its place for the value read, and leads
    //    to the next place. A used index or an id out of range is refused, and nothing else is. The
    //    length of each frame in flight is kept by its descriptor, and its frame is freed with it.
    //    The doorbell is rung exactly if the event asks for this frame.
    pub fn took(&mut self, value: u32) -> Notes
        requires { is_open self.old.place ≡ true }
        ensures { TakesStep self.old value result.items self.new }
    {
        let mut notes = Notes::new();
        self.took_into(value, &mut notes);
        notes
    }

    /// Equivalent to `took`, but puts the notes into the caller's list `notes`.
    #[inline(always)]
    pub fn took_into(&mut self, value: u32, notes: &mut Notes)
        requires open { is_open self.old.place ≡ true }
        requires empty { notes.old.items ≡ [] }
        ensures { TakesStep self.old value notes.new.items self.new }
    {
        match self.place {
            Place::ReadingUsedIndex => self.took_index(value, notes),
            Place::ReadingUsedId { more } => self.took_id(more, value, notes),
            Place::WritingFrameWord { slot, at, more } => self.go_on(frame_place(
                slot,
                at + 1,
                more,
            )),
            Place::WritingDescAddressLow(slot) => self.go_on(Place::WritingDescAddressHigh(slot)),
            Place::WritingDescAddressHigh(slot) => self.go_on(Place::WritingDescLength(slot)),
            Place::WritingDescLength(slot) => self.go_on(Place::WritingDescFlags(slot)),
            Place::WritingDescFlags(slot) => self.go_on(Place::WritingAvailEntry(slot)),
            Place::WritingAvailEntry(slot) => self.write_avail_entry(slot),
            Place::WritingAvailIndex => self.wrote_index(notes),
            Place::ReadingAvailEvent => self.took_event(value, notes),
            Place::Ringing => self.end(notes),
            Place::Refusing => self.end(notes),
            Place::Closed => unreachable!(),
        }
    }

    /// Returns the kind of the next access's word, which determines its memory order.
    // claim with Tx::rings: The kind of the next access is known: an index word, an event, another
    //    word, or the doorbell.
    pub fn word_kind(&self) -> WordKind
        ensures { (config : EndConfig) (end : End) (place : laws.Place) → RefinesAt self.now config end place →
            result ≡ word_kind place }
    {
        match self.place {
            Place::ReadingUsedIndex => WordKind::IndexRead,
            Place::WritingAvailIndex => WordKind::IndexWrite,
            Place::ReadingAvailEvent => WordKind::EventRead,
            _ => WordKind::Plain,
        }
    }

    /// Whether the next access is the doorbell.
    pub fn rings(&self) -> bool
        ensures { (config : EndConfig) (end : End) (place : laws.Place) → RefinesAt self.now config end place →
            result ≡ rings place }
    {
        matches!(self.place, Place::Ringing)
    }

    /// Returns the number of the next accesses that write consecutive words of the frame or of its
    /// descriptor, without a note. Returns 0 if no burst is next.
    pub fn writes_ahead(&self) -> u32
        ensures { result ≡ writes_ahead self.now.place }
    {
        match self.place {
            Place::WritingFrameWord { more, .. } => more + 1,
            Place::WritingDescAddressLow(_) => 4,
            _ => 0,
        }
    }

    /// Writes the values of the next writes into `into`, at most `writes_ahead` words, four bytes
    /// each, the lowest byte first.
    // claim writes, sized: The words of a burst are those that the next writes write: the frame's,
    //    with 0 after its last byte, or the descriptor's.
    pub fn words(&self, into: &mut [u8])
        requires whole { length into.old % 4 ≡ 0 }
        requires within { length into.old ≤ 4 * writes_ahead self.now.place }
        ensures writes { (config : EndConfig) (end : End) (place : laws.Place) (word value : ℕ) →
            RefinesAt self.now config end place →
            laws.access_at config place ≡ Access.Write word value → WritesBurst config place word into.new }
        ensures sized { length into.new ≡ length into.old }
    {
        match self.place {
            Place::WritingFrameWord { at, .. } => {
                let length = self.length as usize;
                let start = 4 * at as usize;
                copy_padded(into, &self.buffer[start..length]);
            }
            Place::WritingDescAddressLow(slot) => put_descriptor(into, slot.address, self.length),
            _ => {}
        }
    }

    /// Completes the next `count` writes, with `count` at most `writes_ahead`. Equivalent to
    /// `count` calls of `took`.
    // claim with Tx::writes_ahead: Completing a burst equals as many single steps, none with a
    //    note, and at most the writes ahead.
    pub fn took_writes(&mut self, count: u32)
        requires some { 0 < count }
        requires within { count ≤ writes_ahead self.old.place }
        ensures { (values : List ℕ) → length values ≡ count → StepsThrough StaysOpen self.old values [] self.new }
    {
        match self.place {
            Place::WritingFrameWord { slot, at, more } => {
                self.place = frame_place(slot, at + count, more + 1 - count);
            }
            Place::WritingDescAddressLow(slot) => {
                self.place = descriptor_place(slot, count);
            }
            _ => unreachable!(),
        }
    }

    /// Whether the next access writes a word of the frame.
    // claim: A word of the frame is next exactly if the offer has bursts to write before its index.
    pub fn writes_frame(&self) -> bool
        ensures { result ≡ is_some (bursts_of self.now) }
    {
        matches!(self.place, Place::WritingFrameWord { .. })
    }

    /// Completes the writes of all bursts before the available index and the write of the index,
    /// which the caller makes now. The bursts are the words left of the frame, the descriptor and
    /// the available entry. Writes the words after the frame into `tail`, four bytes each, the
    /// lowest byte first. Equivalent to `took` for each of these steps.
    ///
    /// The words of the frame are the last ones of the offered frame, with 0 after its last byte. A
    /// caller that still holds the frame can write them from its own copy.
    ///
    /// Returns `None` and changes nothing if the next access isn't the write of a word of the
    /// frame.
    // claim steps, sized, other, unchanged: All that an offer writes up to its index is completed
    //    as by single steps, and these writes are the accesses of the steps. Exactly if no word of
    //    the frame is next, nothing changes.
    pub fn publish(&mut self, tail: &mut [u8]) -> Option<Publication>
        requires { length tail.old ≡ 20 }
        ensures steps { IfSome result (λ made. Publishes self.old tail.new made self.new) }
        ensures sized { length tail.new ≡ length tail.old }
        ensures other { result ≡ None → bursts_of self.old ≡ None }
        ensures unchanged { result ≡ None → (self.new ≡ self.old) × (tail.new ≡ tail.old) }
    {
        let Place::WritingFrameWord { slot, at, more } = self.place else {
            return None;
        };
        let bursts = self.bursts_from(slot, at, more);
        self.tail_words(slot, at, more, tail);
        self.wrote_before_index(slot, at, more);
        let index = self.own + self.queue.avail_word();
        let accepted = self.next_index(index);
        self.accept();
        Some(Publication {
            bursts,
            index,
            accepted,
        })
    }

    /// Resets the sender for a new session: no offer is open, no frame is in flight, and the
    /// entries are 0. The frame offered last stays.
    pub fn reset(&mut self)
        ensures value { self.new ≡ renewed self.old }
        ensures refines { (config : EndConfig) (end : End) → IsMadeFor self.old config →
            IsFreshSession config end → RefinesAt self.new config end laws.Closed }
    {
        self.accepted = 0;
        self.slots.reset();
        self.lengths.fill(0);
        self.entries.fill(0);
        self.place = Place::Closed;
    }

    /// Returns the read of word `word` of the other's section.
    fn read(&self, word: u32) -> Access
        requires { 4 * word + 4 ≤ self.now.sizes.out }
        ensures { result ≡ Access.Read (self.now.other_start + word) }
    {
        Access::Read(self.other_start + word)
    }

    /// Returns the write of `value` to word `word` of the own section.
    fn write(&self, word: u32, value: u32) -> Access
        requires { 4 * word + 4 ≤ self.now.sizes.out }
        ensures { result ≡ Access.Write (self.now.own + word) value }
    {
        Access::Write(self.own + word, value)
    }

    /// Returns the burst of `count` words of the own section from `word` on.
    fn burst(&self, word: u32, count: u32) -> Burst
        requires { 4 * word + 4 ≤ self.now.sizes.out }
        ensures { result ≡ record { word = self.now.own + word; count = count } }
    {
        Burst {
            word: self.own + word,
            count,
        }
    }

    /// Returns the number of frames freed, modulo 65,536.
    fn freed(&self) -> u16
        ensures { result ≡ (self.now.accepted + 65536 - self.now.in_flight) % 65536 }
    {
        self.accepted.wrapping_sub(self.slots.in_flight() as u16)
    }

    /// Returns word `at` of the offered frame, with 0 after the frame's last byte.
    fn frame_word(&self, at: u32) -> u32
        requires { at < words_for (length self.now.frame) }
        ensures { result ≡ frame_word self.now.frame at }
    {
        let length = self.length as usize;
        let start = 4 * at as usize;
        word_of(&self.buffer[start..length.min(start + 4)])
    }

    /// Returns the position of the next entry in the available ring.
    fn entry(&self) -> u32
        ensures { result ≡ self.now.accepted % size_of self.now.sizes }
    {
        u32::from(self.accepted) % self.queue.size()
    }

    /// Returns the word of the next entry, if that entry names `descriptor`. The other half of the
    /// word is the neighbouring entry's.
    fn entry_word(&self, descriptor: u32) -> u32
        requires { descriptor < limit_of self.now.sizes }
        ensures { result ≡ entry_word_of self.now descriptor }
    {
        let entry = self.entry();
        let word = self.entries[(entry / 2) as usize];
        let descriptor = descriptor as u16;
        if entry.is_multiple_of(2) {
            of_halves(descriptor, high_half(word))
        } else {
            of_halves(low_half(word), descriptor)
        }
    }

    /// Moves to `place` without a note.
    fn go_on(&mut self, place: Place)
        requires { IsPlace self.old place }
        ensures { self.new ≡ record self.old { place = place } }
    {
        self.place = place;
    }

    /// Completes the write of the available entry, and stores its word in the own copy.
    fn write_avail_entry(&mut self, slot: Slot)
        requires { self.old.place ≡ Place.WritingAvailEntry slot }
        ensures step { (value : ℕ) → StaysOpen self.old value [] self.new }
        ensures place { self.new.place ≡ Place.WritingAvailIndex }
    {
        let at = (self.entry() / 2) as usize;
        self.entries[at] = self.entry_word(slot.descriptor);
        self.place = Place::WritingAvailIndex;
    }

    /// Completes the write of the available index, which accepts the frame.
    fn wrote_index(&mut self, notes: &mut Notes)
        requires place { self.old.place ≡ Place.WritingAvailIndex }
        requires empty { notes.old.items ≡ [] }
        ensures { (value : ℕ) → TakesStep self.old value notes.new.items self.new }
    {
        self.accept();
        notes.push(Note::Accept);
    }

    /// Accepts the frame: the state of the sender after the write of the available index.
    fn accept(&mut self)
        requires { self.old.place ≡ Place.WritingAvailIndex }
        ensures { (value : ℕ) → StaysOpen self.old value (Note.Accept ∷ []) self.new }
    {
        self.accepted = plus(self.accepted, 1);
        self.place = place_after_index(self.queue.has_events());
    }

    /// Returns the bursts before the index, from word `at` of the frame on.
    fn bursts_from(&self, slot: Slot, at: u32, more: u32) -> Bursts
        requires { self.now.place ≡ Place.WritingFrameWord slot at more }
        ensures bursts { bursts_of self.now ≡ Some result }
        ensures words { words_of result ≡ more + 1 + 4 + 1 }
    {
        let queue = &self.queue;
        Bursts {
            frame: self.burst(slot.address / 4 + at, more + 1),
            descriptor: self.burst(queue.descriptor(slot.descriptor), 4),
            entry: self.burst(queue.entry_word(u32::from(self.accepted)), 1),
        }
    }

    /// Writes the words after the frame into `into`: those of the descriptor, and then that of the
    /// available entry.
    fn tail_words(&self, slot: Slot, at: u32, more: u32, into: &mut [u8])
        requires place { self.now.place ≡ Place.WritingFrameWord slot at more }
        requires sized { length into.old ≡ 20 }
        ensures writes { (config : EndConfig) (end : End) (place : laws.Place) → RefinesAt self.now config end place →
            IfSome (bursts_of self.now) (λ bursts. WritesAll config place (listed bursts) (last_words self.now.frame bursts.frame.count ++ into.new)) }
        ensures sized { length into.new ≡ length into.old }
    {
        let length = self.length;
        let entry = self.entry_word(slot.descriptor);
        put_tail(into, slot.address, length, entry);
    }

    /// Completes the writes before the index, from word `at` of the frame on.
    fn wrote_before_index(&mut self, slot: Slot, at: u32, more: u32)
        requires { self.old.place ≡ Place.WritingFrameWord slot at more }
        ensures steps { (values : List ℕ) → length values ≡ more + 1 + 4 + 1 →
            StepsThrough StaysOpen self.old values [] self.new }
        ensures place { self.new.place ≡ Place.WritingAvailIndex }
    {
        self.place = Place::WritingAvailEntry(slot);
        self.write_avail_entry(slot);
    }

    /// Returns the available index that is written to the word `index`.
    fn next_index(&self, index: u32) -> u32
        requires place { self.now.place ≡ Place.WritingAvailIndex }
        requires index { index ≡ self.now.own + word_offset self.now.sizes AvailIndex }
        ensures index { (config : EndConfig) (end : End) (place : laws.Place) →
            RefinesAt self.now config end place → laws.access_at config place ≡ Access.Write index result }
        ensures kind { (config : EndConfig) (end : End) (place : laws.Place) →
            RefinesAt self.now config end place → word_kind place ≡ WordKind.IndexWrite }
        ensures plain { (config : EndConfig) (end : End) (place : laws.Place) →
            RefinesAt self.now config end place → rings place ≡ false }
    {
        of_halves(0, plus(self.accepted, 1))
    }

    /// Completes the read of the other's avail_event. The doorbell is next if avail_event wants one
    /// for the frame that was accepted last.
    fn took_event(&mut self, value: u32, notes: &mut Notes)
        requires place { self.old.place ≡ Place.ReadingAvailEvent }
        requires empty { notes.old.items ≡ [] }
        ensures { TakesStep self.old value notes.new.items self.new }
    {
        let event = low_half(value);
        let before = self.accepted.wrapping_sub(1);
        if need_event(event, self.accepted, before) {
            self.go_on(Place::Ringing);
        } else {
            self.end(notes);
        }
    }

    /// Ends the offer.
    fn end(&mut self, notes: &mut Notes)
        requires { notes.old.items ≡ [] }
        ensures value { self.new ≡ record self.old { place = Place.Closed } }
        ensures notes { notes.new.items ≡ Note.Over ∷ [] }
    {
        self.place = Place::Closed;
        notes.push(Note::Over);
    }

    /// Completes the read of the used index.
    fn took_index(&mut self, value: u32, notes: &mut Notes)
        requires place { self.old.place ≡ Place.ReadingUsedIndex }
        requires empty { notes.old.items ≡ [] }
        ensures { TakesStep self.old value notes.new.items self.new }
    {
        let index = high_half(value);
        let freed = self.freed();
        let in_flight = self.slots.in_flight();
        match self.queue.check_used(freed, index, in_flight) {
            Ok(count) => {
                notes.push(Note::Reclaim(count));
                let bytes = self.length;
                self.place = offer_after_ids(&mut self.slots, &mut self.lengths, bytes, count);
                note_full(self.place, notes);
            }
            Err(refused) => self.refuses(refused, notes),
        }
    }

    /// Completes the read of the id of the oldest frame in flight.
    fn took_id(&mut self, more: u32, id: u32, notes: &mut Notes)
        requires place { self.old.place ≡ Place.ReadingUsedId more }
        requires empty { notes.old.items ≡ [] }
        ensures { TakesStep self.old id notes.new.items self.new }
    {
        let oldest = self.slots.oldest();
        if let Err(refused) = self.queue.check_id(oldest, id) {
            return self.refuses(refused, notes);
        }
        self.slots.free(self.lengths[oldest as usize]);
        self.place = offer_after_ids(&mut self.slots, &mut self.lengths, self.length, more);
        note_full(self.place, notes);
    }

    /// Moves to the State step of a refusal.
    fn refuses(&mut self, refused: Refused, notes: &mut Notes)
        requires { notes.old.items ≡ [] }
        ensures note { notes.new.items ≡ Note.Refuse refused ∷ [] }
        ensures value { self.new ≡ record self.old { place = Place.Refusing } }
    {
        self.place = Place::Refusing;
        notes.push(Note::Refuse(refused));
    }
}

/// Copies `frame` to the start of `buffer`.
fn put_first(buffer: &mut [u8], frame: &[u8])
    requires { length frame.now ≤ length buffer.old }
    ensures { take (length frame.now) buffer.new ≡ frame.now }
{
    buffer[..frame.len()].copy_from_slice(frame);
}

/// Copies the first bytes of `bytes` into `into`, and writes 0 after them if `into` is longer.
fn copy_padded(into: &mut [u8], bytes: &[u8])
    ensures { into.new ≡ take (length into.old) bytes.now ++ replicate (length into.old - length bytes.now) 0 }
{
    let count = bytes.len().min(into.len());
    let (front, rest) = into.split_at_mut(count);
    front.copy_from_slice(&bytes[..count]);
    rest.fill(0);
}

/// Writes the first words of a descriptor, as many bytes as `into` has.
fn put_descriptor(into: &mut [u8], address: u32, bytes: u32)
    requires { length into.old ≤ 16 }
    ensures { into.new ≡
        take (length into.old) (word_bytes address ++ (word_bytes 0 ++ (word_bytes bytes ++ word_bytes 0))) }
{
    let low = address.to_le_bytes();
    let count = bytes.to_le_bytes();
    let words = [
        low[0], low[1], low[2], low[3], 0, 0, 0, 0, count[0], count[1], count[2], count[3], 0, 0,
        0, 0,
    ];
    into.copy_from_slice(&words[..into.len()]);
}

/// Writes `word` as four bytes, the lowest first.
fn put_word(into: &mut [u8], word: u32)
    requires { length into.old ≡ 4 }
    ensures { into.new ≡ word_bytes word }
{
    into.copy_from_slice(&word.to_le_bytes());
}

/// Writes the words of a descriptor and then the word of an entry.
fn put_tail(into: &mut [u8], address: u32, bytes: u32, entry: u32)
    requires { length into.old ≡ 20 }
    ensures { into.new ≡
        (word_bytes address ++ (word_bytes 0 ++ (word_bytes bytes ++ word_bytes 0))) ++ word_bytes entry }
{
    let (descriptor, last) = into.split_at_mut(16);
    put_descriptor(descriptor, address, bytes);
    put_word(last, entry);
}

/// Law: a sender without an open offer refines the end as long as its session lasts. Ticks, Stops
/// and Polls don't change it.
// claim: A closed sender represents an end as long as its session lasts.
pub fn idle_engine_outlives_steps()
    ensures { IdleEngineOutlivesSteps }
{}
