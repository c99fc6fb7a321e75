//! A port: it publishes messages in its own section and samples those of others.
ghost use Rattle.std.specs.Prelude.{ℕ, ◌≡◌, ◌+◌, ◌-◌, ◌*◌, ◌/◌, ◌^◌, ◌<◌, ◌≤◌, ◌++◌, IfOk, IfErr, true, false, length, min, take, slice_index};
ghost use Rattle.call_grammar.specs.Words.{words_for, frame_word, word_bytes};
ghost use Rattle.section_map.specs.declared.limits.TheConstants.{REGION_WORDS};
ghost use Rattle.section_map.specs.Geometry.{section_start};
ghost use Rattle.sampling_port.specs.Layout.{IsMessageSize, length_place, data_place};
ghost use Rattle.sampling_port.specs.Views.{PortView, IsPort, fresh_port, is_busy, publishing, sampling, access_at, from_at, note_at, port_after, closed, got, KeepsNumbers};
ghost use Rattle.sampling_port.specs.Laws.{IsPortFault, IsPortAccess};

use crate::notes::{PortFault, PortField, PortNote};
use crate::place::{Place, reading_place, writing_place};
use ivs_base::word_of;
use port_text::LONGEST_MESSAGE;
use section_map::Geometry;
use split_ring::steps::Access;
use std::alloc::Global;
use std::marker::Model;

/// The port of one peer. It holds the number of messages that it published, the number of the last
/// message from each peer, and its place in the open call. It has two buffers: the message in hand,
/// which it publishes or has read so far, and the message got last.
///
/// A port performs no access: `next` returns the next one, and `took` receives the value read.
/// No call after `new` returns `NoMemory`.
#[derive(Debug, Drop)]
pub struct Port {
    geometry: Geometry,
    me: u32,
    most: u32,
    published: u32,
    lasts: [u32; 8],
    place: Place,
    hand: Vec<u8>,
    filled: u32,
    message: Vec<u8>,
    received: u32,
}

impl Model for Port {
    ghost use Rattle.sampling_port.specs.Representation.{port_view_of, IsWellFormed};
    ghost use Rattle.sampling_port.specs.Views.{PortView};

    ghost Value = { PortView };

    ghost view = { port_view_of };

    ghost invariant = { IsWellFormed };
}

/// Copies a message to the start of the buffer.
fn put_first(buffer: &mut [u8], message: &[u8])
    requires { length message.now ≤ length buffer.old }
    ensures { take (length message.now) buffer.new ≡ message.now }
{
    buffer[..message.len()].copy_from_slice(message);
}

/// Writes word `at` of a message of `bytes` bytes to its offset in the buffer: four bytes, or the
/// last ones of the message.
fn put_word(buffer: &mut [u8], bytes: usize, at: usize, word: u32)
    requires within { 4 * at < bytes }
    requires room { bytes ≤ length buffer.old }
    ensures { take (min bytes (4 * at + 4)) buffer.new ≡
        take (4 * at) buffer.old ++ take (bytes - 4 * at) (word_bytes word) }
{
    let start = 4 * at;
    let count = (bytes - start).min(4);
    buffer[start..start + count].copy_from_slice(&word.to_le_bytes()[..count]);
}

impl Port {
    /// Returns the port of peer `me` for messages of at most `message` bytes, in a region of this
    /// geometry.
    ///
    /// Returns `BadMessage` exactly if `message` isn't a multiple of 4 from 4 to 65,536. Otherwise
    /// returns `TooSmall` exactly if two messages of `message` bytes, with their lengths and the
    /// sequence, don't fit into a section.
    pub fn new(alloc: Global, me: u32, geometry: &Geometry, message: u32) -> Result<Port, PortFault>
        requires few { geometry.now.peers ≤ 8 }
        requires me { me < geometry.now.peers }
        ensures value { IfOk result (λ port. port ≡ fresh_port geometry.now me message) }
        ensures made { IfOk result IsPort }
        ensures fault { IfErr result (IsPortFault geometry.now message) }
    {
        if !message.is_multiple_of(4) || message < 4 || LONGEST_MESSAGE < message {
            return Err(PortFault::BadMessage(message));
        }
        let need = 4 * (3 + u64::from(message) / 2);
        let out = 4 * u64::from(geometry.out_words());
        if out < need {
            return Err(PortFault::TooSmall { need, out });
        }
        Ok(Port {
            geometry: *geometry,
            me,
            most: message,
            published: 0,
            lasts: [0; 8],
            place: Place::Closed,
            hand: vec![in alloc; 0u8; message as usize]?,
            filled: 0,
            message: vec![in alloc; 0u8; message as usize]?,
            received: 0,
        })
    }

    /// Whether a call is open.
    pub fn busy(&self) -> bool
        ensures value { result ≡ is_busy self.now }
        ensures kept { IsPort self.now }
    {
        !matches!(self.place, Place::Closed)
    }

    /// Returns the number of messages published, which is the number of the last one.
    pub fn published(&self) -> u32
        ensures { result ≡ self.now.published }
    {
        self.published
    }

    /// Returns the number of the last message got from the peer `from`, or 0.
    pub fn last(&self, from: u32) -> u32
        requires { from < self.now.shape.peers }
        ensures { result ≡ slice_index self.now.lasts from }
    {
        self.lasts[from as usize]
    }

    /// Returns the bytes of the message got last, from any peer. They are empty before the first
    /// one.
    pub fn message(&self) -> &[u8]
        ensures { result.now ≡ self.now.message }
    {
        &self.message[..self.received as usize]
    }

    /// Returns the peer that the open call samples, or 0 for a publish.
    pub(crate) fn sampled(&self) -> u32
        ensures { result ≡ from_at self.now.place }
    {
        match self.place {
            Place::AtSequence { from }
            | Place::AtLength { from, .. }
            | Place::AtWord { from, .. }
            | Place::AtSecond { from, .. } => from,
            _ => 0,
        }
    }

    /// Opens the publish of a message, which is copied.
    // claim value with Port::sample.value, Port::new.value, Port::new.made, Port::new.fault,
    //    Port::busy.value, Port::published, Port::last, Port::message: A port begins a publication
    //    or a sample exactly if it is idle. A port is made exactly if its sizes fit the section.
    pub fn publish(&mut self, bytes: &[u8])
        requires idle { is_busy self.old ≡ false }
        requires some { 1 ≤ length bytes.now }
        requires fits { length bytes.now ≤ self.old.most }
        requires numbers { self.old.published + 1 < 2 ^ 32 }
        ensures value { self.new ≡ publishing self.old bytes.now }
    {
        put_first(&mut self.hand, bytes);
        self.filled = bytes.len() as u32;
        self.place = Place::WritingLength;
    }

    /// Opens a sample of the peer `from`, which may be the port's own peer.
    pub fn sample(&mut self, from: u32)
        requires idle { is_busy self.old ≡ false }
        requires peer { from < self.old.shape.peers }
        ensures value { self.new ≡ sampling self.old from }
    {
        self.place = Place::AtSequence { from };
    }

    /// Returns the next access of the open call.
    // claim reach with calls_are_permitted: A call writes its own section alone, and reads the
    //    section of the sampled peer alone.
    pub fn next(&self) -> Access
        requires { is_busy self.now ≡ true }
        ensures access { result ≡ access_at self.now self.now.place }
        ensures reach { IsPortAccess self.now result }
    {
        match self.place {
            Place::WritingLength => {
                Access::Write(
                    self.own_start() + self.length_place(self.published + 1),
                    self.filled,
                )
            }
            Place::WritingWord { at, .. } => {
                let word = self.data_place(self.published + 1) + at;
                Access::Write(self.own_start() + word, self.hand_word(at))
            }
            Place::WritingSequence => Access::Write(self.own_start(), self.published + 1),
            Place::AtSequence { from } => Access::Read(self.start_of(from)),
            Place::AtLength { from, sequence } => {
                Access::Read(self.start_of(from) + self.length_place(sequence))
            }
            Place::AtWord {
                from,
                sequence,
                at,
                ..
            } => Access::Read(self.start_of(from) + self.data_place(sequence) + at),
            Place::AtSecond { from, .. } => Access::Read(self.start_of(from)),
            Place::Closed => unreachable!(),
        }
    }

    /// Completes the access that `next` returned, and returns the note of the step. `value` is the
    /// value read; a write ignores it.
    // claim note, value, kept with Port::next.access, Port::busy.kept: Each step is that of the
    //    table: the message is written before its number, and a sample ends with a message,
    //    nothing, a changed number, or a refused field.
    pub fn took(&mut self, value: u32) -> Option<PortNote>
        requires { is_busy self.old ≡ true }
        ensures note { result ≡ note_at self.old self.old.place value }
        ensures value { self.new ≡ port_after self.old self.old.place value }
        ensures kept { KeepsNumbers self.old self.new }
    {
        match self.place {
            Place::WritingLength => {
                self.place = writing_place(0, self.filled.div_ceil(4));
                None
            }
            Place::WritingWord { at, more } => {
                self.place = writing_place(at + 1, more);
                None
            }
            Place::WritingSequence => {
                let number = self.published + 1;
                self.close();
                self.published = number;
                Some(PortNote::Publish(number))
            }
            Place::AtSequence { from } => self.took_sequence(from, value),
            Place::AtLength { from, sequence } => self.took_length(from, sequence, value),
            Place::AtWord {
                from,
                sequence,
                bytes,
                at,
                more,
            } => self.took_word(from, sequence, bytes, at, more, value),
            Place::AtSecond { from, sequence } => self.took_second(from, sequence, value),
            Place::Closed => unreachable!(),
        }
    }
}

/// Offsets of a port's words.
impl Port {
    /// Returns the first word of the port's own section.
    fn own_start(&self) -> u32
        ensures value { result ≡ section_start self.now.shape self.now.me }
        ensures within { result + self.now.shape.out ≤ REGION_WORDS }
    {
        self.geometry.section_start(self.me)
    }

    /// Returns the first word of a peer's section.
    fn start_of(&self, peer: u32) -> u32
        requires { peer < self.now.shape.peers }
        ensures value { result ≡ section_start self.now.shape peer }
        ensures within { result + self.now.shape.out ≤ REGION_WORDS }
    {
        self.geometry.section_start(peer)
    }

    /// Returns the offset of the length of the message with this number, in words from the
    /// section's start.
    fn length_place(&self, number: u32) -> u32
        ensures value { result ≡ length_place self.now.most number }
        ensures small { result ≤ 16386 }
    {
        if number.is_multiple_of(2) {
            1
        } else {
            2 + self.most / 4
        }
    }

    /// Returns the offset of the first data word of the message with this number, in words.
    fn data_place(&self, number: u32) -> u32
        ensures { result ≡ data_place self.now.most number }
    {
        self.length_place(number) + 1
    }

    /// Returns word `at` of the message in hand; bytes after the last one are 0.
    fn hand_word(&self, at: u32) -> u32
        requires { at < words_for (length self.now.hand) }
        ensures { result ≡ frame_word self.now.hand at }
    {
        let bytes = self.filled as usize;
        let start = 4 * at as usize;
        word_of(&self.hand[start..bytes.min(start + 4)])
    }
}

/// The steps of a sample, one for each place.
impl Port {
    /// Ends the call.
    fn close(&mut self)
        ensures { self.new ≡ closed self.old }
    {
        self.place = Place::Closed;
        self.filled = 0;
    }

    /// Completes the first read of the sequence.
    fn took_sequence(&mut self, from: u32, value: u32) -> Option<PortNote>
        requires { self.old.place ≡ Place.AtSequence from }
        ensures note { result ≡ note_at self.old self.old.place value }
        ensures value { self.new ≡ port_after self.old self.old.place value }
        ensures kept { KeepsNumbers self.old self.new }
    {
        if value < self.lasts[from as usize] {
            self.close();
            return Some(PortNote::Refuse {
                field: PortField::Sequence,
                value,
            });
        }
        if value == 0 {
            self.close();
            return Some(PortNote::Nothing);
        }
        self.place = Place::AtLength {
            from,
            sequence: value,
        };
        None
    }

    /// Completes the read of the length, the only one.
    fn took_length(&mut self, from: u32, sequence: u32, value: u32) -> Option<PortNote>
        requires { self.old.place ≡ Place.AtLength from sequence }
        ensures note { result ≡ note_at self.old self.old.place value }
        ensures value { self.new ≡ port_after self.old self.old.place value }
        ensures kept { KeepsNumbers self.old self.new }
    {
        if value < 1 || self.most < value {
            self.close();
            return Some(PortNote::Refuse {
                field: PortField::Length,
                value,
            });
        }
        self.place = reading_place(from, sequence, value, 0, value.div_ceil(4));
        self.filled = 0;
        None
    }

    /// Completes the read of a word of the message.
    fn took_word(
        &mut self,
        from: u32,
        sequence: u32,
        bytes: u32,
        at: u32,
        more: u32,
        value: u32,
    ) -> Option<PortNote>
        requires { self.old.place ≡ Place.AtWord from sequence bytes at more }
        ensures note { result ≡ note_at self.old self.old.place value }
        ensures value { self.new ≡ port_after self.old self.old.place value }
        ensures kept { KeepsNumbers self.old self.new }
    {
        put_word(&mut self.hand, bytes as usize, at as usize, value);
        self.filled = bytes.min(4 * at + 4);
        self.place = reading_place(from, sequence, bytes, at + 1, more);
        None
    }

    /// Completes the second read of the sequence. If it hasn't changed, the buffer wasn't written
    /// since the first read.
    fn took_second(&mut self, from: u32, sequence: u32, value: u32) -> Option<PortNote>
        requires { self.old.place ≡ Place.AtSecond from sequence }
        ensures note { result ≡ note_at self.old self.old.place value }
        ensures value { self.new ≡ port_after self.old self.old.place value }
        ensures kept { KeepsNumbers self.old self.new }
    {
        if value != sequence {
            self.close();
            return Some(PortNote::Again(sequence, value));
        }
        std::mem::swap(&mut self.hand, &mut self.message);
        self.received = self.filled;
        self.lasts[from as usize] = sequence;
        self.close();
        Some(PortNote::Got(sequence))
    }
}
