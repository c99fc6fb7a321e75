//! The receiver of an end.
ghost use Rattle.std.specs.Prelude.{ℕ, ◌≡◌, ◌≢◌, ◌+◌, ◌-◌, ◌*◌, ◌%◌, ◌≤◌, ◌<◌, ◌^◌, ◌⊎◌, List, [], ◌∷◌, ◌++◌, true, false, IfOk, IfSome, None, min, length, take, flat_map};
ghost use Rattle.section_map.specs.declared.limits.TheConstants.{LARGEST_REGION};
ghost use Rattle.link_handshake.specs.declared.Phase.TheVariants.{Run};
ghost use Rattle.call_grammar.specs.Ends.{End};
ghost use Rattle.call_grammar.specs.Ticks.{EndConfig};
ghost use Rattle.call_grammar.specs.Calls.{Poll};
ghost use Rattle.call_grammar.specs.Words.{word_bytes, words_for};
ghost use Rattle.call_grammar.specs.Bursts.{StepsThrough, ReadsBurst, WritesBurst};
ghost use Rattle.call_grammar.specs.Orders.{word_kind};
ghost use Rattle.call_grammar.specs.Places as laws;
ghost use Rattle.call_grammar.specs.Permitted.{HasSections, IsPermittedAccess};
ghost use Rattle.rx_engine.specs.Receiver.{fresh_receiver, renewed, is_last, is_armed, is_busy, reads_ahead, frame_ahead, writes_ahead, words_read, IsReached, KeepsNumbers};
ghost use Rattle.split_ring.specs.Layout.{word_offset, UsedIndex};
ghost use Rattle.rx_engine.specs.Items.{is_field, ReadsNext, RefusesNext, ReadsAndReturns};
ghost use Rattle.rx_engine.specs.Refinement.{IsMadeFor, IsFreshSession, RefinesAt, rings, TakesStep, StaysOpen, IdleEngineOutlivesSteps};

use crate::ahead::{FrameReturn, NextRead};
use crate::buffers::{put_element, put_words};
use crate::place::{Place, used_element_place};
use ivs_base::NoMemory;
use split_ring::steps::{Access, Note, Notes, WordKind, leaving};
use split_ring::{LONGEST_FRAME, Queue, Refused, desc_flags, entry_half, high_half, of_halves};
use std::alloc::Global;
use std::marker::Model;
use std::mem::swap;

/// The receiver of one end. It stores the queue, the first words of the two sections, and the
/// target and vector of the doorbell. It counts the frames of the session that were returned,
/// modulo 65,536. It stores whether its last read of the available index found no frame, its place
/// in the open poll, and the frame delivered last.
///
/// It has two buffers, each as long as the longest frame that passes the checks. One is for the
/// frame being read, and one for the frame delivered last. They are swapped when a frame is
/// delivered, and nothing is copied. A step reads or writes one word, and never returns NoMemory.
#[derive(Debug, Drop)]
pub struct Rx {
    pub(crate) queue: Queue,
    own: u32,
    pub(crate) other_start: u32,
    target: u32,
    vector: u32,
    pub(crate) returned: u16,
    found_none: bool,
    pub(crate) place: Place,
    buffer: Vec<u8>,
    last: Vec<u8>,
    delivered: usize,
}

impl Model for Rx {
    ghost use Rattle.rx_engine.specs.Receiver.{Receiver};

    ghost Value = { Receiver };

    ghost use Rattle.rx_engine.specs.Representation.{receiver_of, IsWellFormed};

    ghost view = { receiver_of };

    ghost invariant = { IsWellFormed };
}

impl Rx {
    /// Returns a receiver for a peer whose own section begins at word `own` of the region, and the
    /// other's at word `other_start`. Its doorbells have the target `target` and the vector
    /// `vector`. Returns `Err(NoMemory)` if an allocation fails.
    // claim value, refines with Rx::reset.value, Rx::reset.refines: A new receiver, and one that
    //    was reset, represents each end with a fresh session.
    pub fn new(
        alloc: Global,
        queue: &Queue,
        own: u32,
        other_start: u32,
        target: u32,
        vector: u32,
    ) -> Result<Rx, NoMemory>
        requires own { 4 * own + queue.now.out ≤ LARGEST_REGION }
        requires other_start { 4 * other_start + queue.now.out ≤ LARGEST_REGION }
        ensures value { IfOk result (λ rx. rx ≡ fresh_receiver queue.now own other_start target vector) }
        ensures refines { IfOk result (λ rx. (config : EndConfig) (end : End) → IsMadeFor rx config →
            IsFreshSession end → RefinesAt rx config end laws.Closed) }
    {
        let longest = LONGEST_FRAME.min(queue.out() - queue.payload());
        let buffer = vec![in alloc; 0u8; longest as usize]?;
        let last = vec![in alloc; 0u8; longest as usize]?;
        Ok(Rx {
            queue: *queue,
            own,
            other_start,
            target,
            vector,
            returned: 0,
            found_none: false,
            place: Place::Closed,
            buffer,
            last,
            delivered: 0,
        })
    }

    /// Whether a poll is open.
    // claim value, open: The receiver is open exactly as long as the poll is.
    pub fn busy(&self) -> bool
        ensures value { result ≡ is_busy self.now }
        ensures open { (config : EndConfig) (end : End) (place : laws.Place) →
            RefinesAt self.now config end place → result ≡ laws.is_open place }
    {
        !matches!(self.place, Place::Closed)
    }

    /// Whether the own avail_event wants a doorbell for the next frame, provided that no poll is
    /// open. It does from a poll that finds no frame until a poll that finds one. In a link without
    /// events it never does.
    // claim: The receiver is armed exactly if the link has events and the last look of the session
    //    found nothing.
    pub fn is_armed(&self) -> bool
        ensures { result ≡ is_armed self.now }
    {
        self.queue.has_events() && self.found_none
    }

    /// Opens a poll of an end in RUN.
    // claim refines, value: A poll begins at the first place of the grammar's poll, for an end in
    //    RUN.
    pub fn begin(&mut self)
        requires { is_busy self.old ≡ false }
        ensures refines { (config : EndConfig) (end : End) → RefinesAt self.old config end laws.Closed →
            end.handshake.phase ≡ Run →
            RefinesAt self.new config end (laws.first_place config end Poll) }
        ensures value { self.new ≡ record self.old { place = Place.ReadingAvailIndex (is_last self.old) } }
    {
        let last = !self.queue.has_events() || self.found_none;
        self.place = Place::ReadingAvailIndex { last };
    }

    /// Returns the next access of the open poll.
    // claim access, reach: The next access is that of the receiver's place in the grammar, and is
    //    permitted.
    #[inline(always)]
    #[tactic(auto, using(crate::proofs::ModularNumbers::ring_place))]
    pub fn next(&self) -> Access
        requires { is_busy self.now ≡ true }
        ensures access { (config : EndConfig) (end : End) (place : laws.Place) →
            RefinesAt self.now config end place → result ≡ laws.access_at config place }
        ensures reach { (config : EndConfig) (end : End) (place : laws.Place) → HasSections config →
            RefinesAt self.now config end place → IsPermittedAccess config result }
    {
        let (queue, own, other_start) = (&self.queue, self.own, self.other_start);
        let number = u32::from(self.returned);
        match self.place {
            Place::ReadingAvailIndex { .. } => Access::Read(other_start + queue.avail_word()),
            Place::WritingAvailEvent => Access::Write(own + queue.avail_event_word(), number),
            Place::ReadingAvailEntry { .. } => Access::Read(other_start + queue.entry_word(number)),
            Place::ReadingDescAddressLow { entry, .. } => Access::Read(
                other_start + queue.descriptor(entry),
            ),
            Place::ReadingDescAddressHigh { entry, .. } => Access::Read(
                other_start + queue.descriptor(entry) + 1,
            ),
            Place::ReadingDescLength { entry, .. } => Access::Read(
                other_start + queue.descriptor(entry) + 2,
            ),
            Place::ReadingDescFlags { entry, .. } => Access::Read(
                other_start + queue.descriptor(entry) + 3,
            ),
            Place::ReadingFrameWord { address, at, .. } => Access::Read(
                other_start + (address / 4 + at),
            ),
            Place::WritingUsedId { entry, .. } => Access::Write(own + queue.used_id(number), entry),
            Place::WritingUsedLength { .. } => Access::Write(own + queue.used_id(number) + 1, 1),
            Place::WritingUsedIndex { .. } => {
                let index = self.returned.wrapping_add(1);
                Access::Write(own + queue.used_word(), of_halves(0, index))
            }
            Place::Ringing => Access::Ring {
                target: self.target,
                vector: self.vector,
            },
            Place::Refusing => leaving(),
            Place::Closed => unreachable!(),
        }
    }

    /// Completes the step of the access that `next` returned. `value` is the value that a read met,
    /// and the step of another access ignores it.
    ///
    /// A value outside its field's range is refused: the step has the note Refuse alone, and the
    /// State step is next.
    // claim steps with Rx::took_into.steps: Each step has the marks of its place for the value
    //    read, and leads to the next place. A value out of range is refused, and nothing else is.
    //    In a link with events, a poll whose first look finds nothing writes the own event and
    //    looks again, unless the last look of the session found nothing too.
    // claim each kept: No step changes the sizes and places that `new` was given.
    pub fn took(&mut self, value: u32) -> Notes
        requires { is_busy self.old ≡ true }
        ensures steps { TakesStep self.old value result.items self.new }
        ensures kept { KeepsNumbers self.old self.new }
    {
        let mut notes = Notes::new();
        self.took_into(value, &mut notes);
        notes
    }

    /// Equivalent to `took`, but puts the notes into the caller's list `notes`.
    #[inline(always)]
    pub fn took_into(&mut self, value: u32, notes: &mut Notes)
        requires open { is_busy self.old ≡ true }
        requires empty { notes.old.items ≡ [] }
        ensures steps { TakesStep self.old value notes.new.items self.new }
        ensures kept { KeepsNumbers self.old self.new }
    {
        match self.place {
            Place::ReadingAvailIndex { last } => self.took_index(last, value, notes),
            Place::WritingAvailEvent => self.go_on(Place::ReadingAvailIndex { last: true }),
            Place::ReadingAvailEntry { more } => self.took_entry(more, value, notes),
            Place::ReadingDescAddressLow { more, entry } => self.go_on(
                Place::ReadingDescAddressHigh {
                    more,
                    entry,
                    low: value,
                },
            ),
            Place::ReadingDescAddressHigh { more, entry, low } => self.took_high(
                more, entry, low, value, notes,
            ),
            Place::ReadingDescLength {
                more,
                entry,
                address,
            } => self.took_length(more, entry, address, value, notes),
            Place::ReadingDescFlags {
                more,
                entry,
                address,
                bytes,
            } => self.took_flags(more, entry, address, bytes, value, notes),
            Place::ReadingFrameWord { .. } => self.took_reads_into(&value.to_le_bytes(), notes),
            Place::WritingUsedId { more, .. } => self.go_on(Place::WritingUsedLength { more }),
            Place::WritingUsedLength { more } => self.go_on(Place::WritingUsedIndex { more }),
            Place::WritingUsedIndex { more } => self.wrote_index(more, notes),
            Place::Ringing => self.end(Note::Done, notes),
            Place::Refusing => self.end(Note::Over, notes),
            Place::Closed => unreachable!(),
        }
    }

    /// Completes the read of a field of an item (its entry, or a word of its descriptor) if the
    /// value passes its check. Returns the next access, which is a read without an order.
    /// Equivalent to `took`, and the step has no note.
    ///
    /// Returns `None` and changes nothing if the value is refused, or if no field of an item is
    /// next. Then `took` completes the step.
    // claim step, access, count, refused, unchanged: The read of a field of an item that passes its
    //    check is one single step, and the next access is a read, with the burst that begins with
    //    it. Exactly a value that is refused, or another access, changes nothing.
    pub fn took_field(&mut self, value: u32) -> Option<NextRead>
        ensures step { IfSome result (λ next. StaysOpen self.old value [] self.new) }
        ensures access { IfSome result (λ next. ReadsNext self.new next.word) }
        ensures count { IfSome result (λ next. next.count ≡ reads_ahead self.new.place) }
        ensures refused { result ≡ None → is_field self.old.place ≡ true → RefusesNext self.old value }
        ensures unchanged { result ≡ None → self.new ≡ self.old }
        ensures kept { KeepsNumbers self.old self.new }
    {
        match self.place {
            Place::ReadingAvailEntry { more } => self.passed_entry(more, value),
            Place::ReadingDescAddressLow { more, entry } => self.passed_low(more, entry, value),
            Place::ReadingDescAddressHigh { more, entry, low } => self.passed_high(
                more, entry, low, value,
            ),
            Place::ReadingDescLength {
                more,
                entry,
                address,
            } => self.passed_length(more, entry, address, value),
            Place::ReadingDescFlags {
                more,
                entry,
                address,
                bytes,
            } => self.passed_flags(more, entry, address, bytes, value),
            _ => None,
        }
    }

    /// Completes the reads of a whole frame, whose words are `words`, four bytes each, the lowest
    /// byte first. Returns the frame: completes the writes of its used element and of the used
    /// index, which the caller makes now. Equivalent to `took` for each of these steps.
    ///
    /// Returns `None` and changes nothing if these aren't all words of a frame whose first word is
    /// next.
    // claim steps, sized, other, unchanged: All words of a frame and the writes that return the
    //    frame are completed as by single steps, and these writes are the accesses of the steps.
    //    Exactly other words, or another access, change nothing.
    pub fn took_frame(&mut self, words: &[u8]) -> Option<FrameReturn>
        ensures steps { IfSome result (λ made. ReadsAndReturns self.old words.now made self.new) }
        ensures sized { IfSome result (λ made. length words.now ≡ 4 * words_for made.length) }
        ensures other { result ≡ None →
            (frame_ahead self.old.place ≡ None) ⊎ (length words.now ≢ 4 * reads_ahead self.old.place) }
        ensures unchanged { result ≡ None → self.new ≡ self.old }
        ensures kept { KeepsNumbers self.old self.new }
    {
        let Place::ReadingFrameWord {
            more,
            entry,
            address,
            bytes,
            at,
        } = self.place
        else {
            return None;
        };
        if at != 0 || words.len() != 4 * bytes.div_ceil(4) as usize {
            return None;
        }
        let mut delivered = Notes::new();
        self.took_frame_words(more, entry, address, bytes, at, words, &mut delivered);
        let element = self.element_word(more, entry);
        self.gave_element(more, entry);
        let index = self.own + self.queue.used_word();
        let returned = self.next_index(more, index);
        let mut notes = Notes::new();
        self.wrote_index(more, &mut notes);
        Some(FrameReturn {
            length: bytes,
            element,
            id: entry,
            index,
            returned,
        })
    }

    /// Returns the kind of the next access's word, which determines its memory order.
    // claim with Rx::rings: The kind of the next access is known: an index word, an event, another
    //    word, or the doorbell.
    pub fn word_kind(&self) -> WordKind
        ensures { (config : EndConfig) (end : End) (place : laws.Place) → RefinesAt self.now config end place →
            result ≡ word_kind place }
    {
        match self.place {
            Place::ReadingAvailIndex { .. } => WordKind::IndexRead,
            Place::WritingAvailEvent => WordKind::EventWrite,
            Place::WritingUsedIndex { .. } => WordKind::IndexWrite,
            _ => WordKind::Plain,
        }
    }

    /// Whether the next access is the doorbell.
    pub fn rings(&self) -> bool
        ensures { (config : EndConfig) (end : End) (place : laws.Place) → RefinesAt self.now config end place →
            result ≡ rings place }
    {
        matches!(self.place, Place::Ringing)
    }

    /// Returns the number of the next accesses that read consecutive words of a frame, without a
    /// note before the frame's last word. Returns 0 if no word of a frame is next.
    pub fn reads_ahead(&self) -> u32
        ensures value { result ≡ reads_ahead self.now.place }
        ensures reads { (config : EndConfig) (end : End) (place : laws.Place) (word : ℕ) →
            RefinesAt self.now config end place →
            laws.access_at config place ≡ Access.Read word → ReadsBurst config place word result }
    {
        match self.place {
            Place::ReadingFrameWord { bytes, at, .. } => bytes.div_ceil(4) - at,
            _ => 0,
        }
    }

    /// Completes the next reads, at most `reads_ahead` of them. `words` holds the values read, four
    /// bytes each, the lowest byte first.
    ///
    /// Equivalent to a call of `took` for each of these values in order. If `words` holds all words
    /// of a frame, the frame delivered is their first bytes.
    // claim steps, notes with Rx::took_reads_into.steps, Rx::took_reads_into.notes,
    //    Rx::reads_ahead.value, Rx::reads_ahead.reads: Completing a burst of reads equals as many
    //    single steps, each with the word that four bytes spell, and no note before the last. The
    //    reads are of one word after the other, and of none past the frame's last.
    // claim frame with Rx::took_reads_into.frame: If all words of a frame are taken at once, the
    //    frame delivered is their first bytes, as many as its descriptor says.
    pub fn took_reads(&mut self, words: &[u8]) -> Notes
        requires some { 0 < length words.now }
        requires whole { length words.now % 4 ≡ 0 }
        requires within { length words.now ≤ 4 * reads_ahead self.old.place }
        ensures steps { (values : List ℕ) → words.now ≡ flat_map word_bytes values →
            StepsThrough StaysOpen self.old values result.items self.new }
        ensures frame { IfSome (frame_ahead self.old.place)
            (λ bytes. length words.now ≡ 4 * reads_ahead self.old.place → self.new.frame ≡ take bytes words.now) }
        ensures notes { (result.items ≡ []) ⊎ (result.items ≡ Note.Deliver ∷ []) }
        ensures kept { KeepsNumbers self.old self.new }
    {
        let mut notes = Notes::new();
        self.took_reads_into(words, &mut notes);
        notes
    }

    /// Equivalent to `took_reads`, but puts the notes into the caller's list `notes`.
    pub fn took_reads_into(&mut self, words: &[u8], notes: &mut Notes)
        requires some { 0 < length words.now }
        requires whole { length words.now % 4 ≡ 0 }
        requires within { length words.now ≤ 4 * reads_ahead self.old.place }
        requires empty { notes.old.items ≡ [] }
        ensures steps { (values : List ℕ) → words.now ≡ flat_map word_bytes values →
            StepsThrough StaysOpen self.old values notes.new.items self.new }
        ensures frame { IfSome (frame_ahead self.old.place)
            (λ bytes. length words.now ≡ 4 * reads_ahead self.old.place → self.new.frame ≡ take bytes words.now) }
        ensures notes { (notes.new.items ≡ []) ⊎ (notes.new.items ≡ Note.Deliver ∷ []) }
        ensures kept { KeepsNumbers self.old self.new }
    {
        match self.place {
            Place::ReadingFrameWord {
                more,
                entry,
                address,
                bytes,
                at,
            } => self.took_frame_words(more, entry, address, bytes, at, words, notes),
            _ => unreachable!(),
        }
    }

    /// Returns the number of the next accesses that write consecutive words of a used element,
    /// without a note: 2 or 0.
    pub fn writes_ahead(&self) -> u32
        ensures { result ≡ writes_ahead self.now.place }
    {
        match self.place {
            Place::WritingUsedId { .. } => 2,
            _ => 0,
        }
    }

    /// Writes the values of the next writes into `into`, at most `writes_ahead` words, four bytes
    /// each, the lowest byte first.
    // claim writes, sized with Rx::writes_ahead, Rx::took_writes.steps: The two words of a used
    //    element are a burst: completing it equals two single steps.
    pub fn words(&self, into: &mut [u8])
        requires whole { length into.old % 4 ≡ 0 }
        requires within { length into.old ≤ 4 * writes_ahead self.now.place }
        ensures writes { (config : EndConfig) (end : End) (place : laws.Place) (word value : ℕ) →
            RefinesAt self.now config end place →
            laws.access_at config place ≡ Access.Write word value → WritesBurst config place word into.new }
        ensures sized { length into.new ≡ length into.old }
    {
        match self.place {
            Place::WritingUsedId { entry, .. } => put_element(into, entry),
            _ => {}
        }
    }

    /// Completes the next `count` writes, with `count` at most `writes_ahead`. Equivalent to
    /// `count` calls of `took`.
    pub fn took_writes(&mut self, count: u32)
        requires some { 0 < count }
        requires within { count ≤ writes_ahead self.old.place }
        ensures steps { (values : List ℕ) → length values ≡ count → StepsThrough StaysOpen self.old values [] self.new }
        ensures kept { KeepsNumbers self.old self.new }
    {
        match self.place {
            Place::WritingUsedId { more, .. } => {
                self.place = used_element_place(more, count);
            }
            _ => unreachable!(),
        }
    }

    /// Returns the frame delivered last. It stays until the step that delivers the next frame,
    /// through refusals and resets. It is empty before the first delivery.
    // claim: The frame is the one delivered last, from the step that delivers it to the one that
    //    delivers the next, through refusals and resets. It is empty before the first.
    pub fn frame(&self) -> &[u8]
        ensures { result.now ≡ self.now.frame }
    {
        &self.last[..self.delivered]
    }

    /// Resets the receiver for a new session: no poll is open, and no frame was returned. The frame
    /// delivered last stays.
    pub fn reset(&mut self)
        ensures value { self.new ≡ renewed self.old }
        ensures refines { (config : EndConfig) (end : End) → IsMadeFor self.old config → IsFreshSession end →
            RefinesAt self.new config end laws.Closed }
    {
        self.returned = 0;
        self.found_none = false;
        self.place = Place::Closed;
    }
}

/// The steps of `took_into`, one function for each place.
impl Rx {
    /// Moves to `place` without a note.
    pub(crate) fn go_on(&mut self, place: Place)
        requires reached { IsReached self.old.sizes place }
        requires unread { words_read place ≡ 0 }
        ensures { self.new ≡ record self.old { place = place; gathered = [] } }
    {
        self.place = place;
    }

    /// Refuses a value: the State step is next.
    fn refuse(&mut self, refused: Refused, notes: &mut Notes)
        requires { notes.old.items ≡ [] }
        ensures place { self.new ≡ record self.old { place = Place.Refusing; gathered = [] } }
        ensures notes { notes.new.items ≡ Note.Refuse refused ∷ [] }
    {
        self.place = Place::Refusing;
        notes.push(Note::Refuse(refused));
    }

    /// Ends the poll with this note.
    fn end(&mut self, note: Note, notes: &mut Notes)
        requires { notes.old.items ≡ [] }
        ensures place { self.new ≡ record self.old { place = Place.Closed; gathered = [] } }
        ensures notes { notes.new.items ≡ note ∷ [] }
    {
        self.place = Place::Closed;
        notes.push(note);
    }

    /// Completes the read of the available index. If it finds no frame and isn't `last`,
    /// avail_event is written next.
    fn took_index(&mut self, last: bool, value: u32, notes: &mut Notes)
        requires place { self.old.place ≡ Place.ReadingAvailIndex last }
        requires empty { notes.old.items ≡ [] }
        ensures steps { TakesStep self.old value notes.new.items self.new }
        ensures kept { KeepsNumbers self.old self.new }
    {
        let index = high_half(value);
        match self.queue.check_avail(self.returned, index) {
            Err(refused) => self.refuse(refused, notes),
            Ok(0) => {
                self.found_none = true;
                notes.push(Note::Look(0));
                if last {
                    notes.push(Note::Done);
                    self.go_on(Place::Closed);
                } else {
                    self.go_on(Place::WritingAvailEvent);
                }
            }
            Ok(found) => {
                self.found_none = false;
                notes.push(Note::Look(found));
                self.go_on(Place::ReadingAvailEntry { more: found - 1 });
            }
        }
    }

    /// Completes the read of an item's available entry.
    fn took_entry(&mut self, more: u32, value: u32, notes: &mut Notes)
        requires place { self.old.place ≡ Place.ReadingAvailEntry more }
        requires empty { notes.old.items ≡ [] }
        ensures steps { TakesStep self.old value notes.new.items self.new }
        ensures kept { KeepsNumbers self.old self.new }
    {
        match self.queue.check_entry(entry_half(self.returned, value)) {
            Err(refused) => self.refuse(refused, notes),
            Ok(entry) => self.go_on(Place::ReadingDescAddressLow { more, entry }),
        }
    }

    /// Completes the read of an address's high word, and checks the whole address.
    fn took_high(&mut self, more: u32, entry: u32, low: u32, value: u32, notes: &mut Notes)
        requires place { self.old.place ≡ Place.ReadingDescAddressHigh more entry low }
        requires empty { notes.old.items ≡ [] }
        ensures steps { TakesStep self.old value notes.new.items self.new }
        ensures kept { KeepsNumbers self.old self.new }
    {
        let address = u64::from(low) + (u64::from(value) << 32);
        match self.queue.check_address(address) {
            Err(refused) => self.refuse(refused, notes),
            Ok(address) => self.go_on(Place::ReadingDescLength {
                more,
                entry,
                address,
            }),
        }
    }

    /// Completes the only read of a descriptor's length.
    fn took_length(&mut self, more: u32, entry: u32, address: u32, value: u32, notes: &mut Notes)
        requires place { self.old.place ≡ Place.ReadingDescLength more entry address }
        requires empty { notes.old.items ≡ [] }
        ensures steps { TakesStep self.old value notes.new.items self.new }
        ensures kept { KeepsNumbers self.old self.new }
    {
        match self.queue.check_length(address, value) {
            Err(refused) => self.refuse(refused, notes),
            Ok(bytes) => self.go_on(Place::ReadingDescFlags {
                more,
                entry,
                address,
                bytes,
            }),
        }
    }

    /// Completes the read of a descriptor's flags, its last field.
    fn took_flags(
        &mut self,
        more: u32,
        entry: u32,
        address: u32,
        bytes: u32,
        value: u32,
        notes: &mut Notes,
    )
        requires place { self.old.place ≡ Place.ReadingDescFlags more entry address bytes }
        requires empty { notes.old.items ≡ [] }
        ensures steps { TakesStep self.old value notes.new.items self.new }
        ensures kept { KeepsNumbers self.old self.new }
    {
        match self.queue.check_flags(desc_flags(value)) {
            Err(refused) => self.refuse(refused, notes),
            Ok(()) => self.go_on(Place::ReadingFrameWord {
                more,
                entry,
                address,
                bytes,
                at: 0,
            }),
        }
    }

    /// Completes reads of a frame's words. The read of the frame's last word delivers the frame.
    fn took_frame_words(
        &mut self,
        more: u32,
        entry: u32,
        address: u32,
        bytes: u32,
        at: u32,
        words: &[u8],
        notes: &mut Notes,
    )
        requires place { self.old.place ≡ Place.ReadingFrameWord more entry address bytes at }
        requires some { 0 < length words.now }
        requires whole { length words.now % 4 ≡ 0 }
        requires within { length words.now ≤ 4 * (words_for bytes - at) }
        requires empty { notes.old.items ≡ [] }
        ensures steps { (values : List ℕ) → words.now ≡ flat_map word_bytes values →
            StepsThrough StaysOpen self.old values notes.new.items self.new }
        ensures frame { at ≡ 0 → length words.now ≡ 4 * words_for bytes → self.new.frame ≡ take bytes words.now }
        ensures notes { (notes.new.items ≡ []) ⊎ (notes.new.items ≡ Note.Deliver ∷ []) }
        ensures delivers { bytes ≤ 4 * at + length words.now → notes.new.items ≡ Note.Deliver ∷ [] }
        ensures last { bytes ≤ 4 * at + length words.now → self.new.place ≡ Place.WritingUsedId more entry }
        ensures kept { KeepsNumbers self.old self.new }
    {
        put_words(&mut self.buffer, bytes as usize, at as usize, words);
        let read = at + (words.len() / 4) as u32;
        let last = bytes <= 4 * read;
        if last {
            swap(&mut self.buffer, &mut self.last);
            self.delivered = bytes as usize;
            self.place = Place::WritingUsedId { more, entry };
            notes.push(Note::Deliver);
        } else {
            self.place = Place::ReadingFrameWord {
                more,
                entry,
                address,
                bytes,
                at: read,
            };
        }
    }

    /// Completes the write of the used index, which returns the item.
    fn wrote_index(&mut self, more: u32, notes: &mut Notes)
        requires place { self.old.place ≡ Place.WritingUsedIndex more }
        requires empty { notes.old.items ≡ [] }
        ensures steps { (value : ℕ) → TakesStep self.old value notes.new.items self.new }
        ensures note { notes.new.items ≡ Note.Return ∷ [] }
        ensures open { is_busy self.new ≡ true }
        ensures kept { KeepsNumbers self.old self.new }
    {
        self.returned = self.returned.wrapping_add(1);
        notes.push(Note::Return);
        self.place = if more == 0 {
            Place::Ringing
        } else {
            Place::ReadingAvailEntry { more: more - 1 }
        };
    }
}

/// The writes that return a frame.
impl Rx {
    /// Returns the number of the used element's first word.
    #[tactic(auto, using(crate::proofs::ModularNumbers::ring_place))]
    fn element_word(&self, more: u32, entry: u32) -> u32
        requires { self.now.place ≡ Place.WritingUsedId more entry }
        ensures first { (config : EndConfig) (end : End) (place : laws.Place) →
            RefinesAt self.now config end place → laws.access_at config place ≡ Access.Write result entry }
    {
        self.own + self.queue.used_id(u32::from(self.returned))
    }

    /// Completes the writes of the used element.
    fn gave_element(&mut self, more: u32, entry: u32)
        requires { self.old.place ≡ Place.WritingUsedId more entry }
        ensures steps { (values : List ℕ) → length values ≡ 2 → StepsThrough StaysOpen self.old values [] self.new }
        ensures place { self.new.place ≡ Place.WritingUsedIndex more }
        ensures kept { KeepsNumbers self.old self.new }
    {
        self.place = Place::WritingUsedIndex { more };
    }

    /// Returns the used index that is written to the word `index`.
    fn next_index(&self, more: u32, index: u32) -> u32
        requires place { self.now.place ≡ Place.WritingUsedIndex more }
        requires index { index ≡ self.now.own + word_offset self.now.sizes UsedIndex }
        ensures index { (config : EndConfig) (end : End) (place : laws.Place) →
            RefinesAt self.now config end place → laws.access_at config place ≡ Access.Write index result }
        ensures kind { (config : EndConfig) (end : End) (place : laws.Place) →
            RefinesAt self.now config end place → word_kind place ≡ WordKind.IndexWrite }
    {
        of_halves(0, self.returned.wrapping_add(1))
    }
}

/// Law: a receiver without an open poll refines the end as long as its session lasts. Ticks, Stops
/// and Offers don't change it.
// claim: A closed receiver represents an end as long as its session lasts.
pub fn idle_engine_outlives_steps()
    ensures { IdleEngineOutlivesSteps }
{}
