//! The counts of an end.
ghost use Rattle.std.specs.Prelude.{◌≡◌, [], ◌∷◌};
ghost use Rattle.ivshm_c.specs.Counts.{no_counts, one_more, noted, opened, noted_all, counts_after};

use link_handshake::Phase;
use split_ring::steps::{Note, Notes};

/// The counts of an end since it was made, each modulo 2^64:
///
/// - `sessions`: the times that its State became READY, by which a session opens;
/// - `accepted`: the frames that it published;
/// - `full`: the offers that found no room;
/// - `down`: the offers and polls outside RUN;
/// - `delivered`: the frames that it delivered;
/// - `refused`: the values that it refused.
#[repr(C)]
#[derive(Clone, Copy, Debug)]
pub struct Counts {
    pub sessions: u64,
    pub accepted: u64,
    pub full: u64,
    pub down: u64,
    pub delivered: u64,
    pub refused: u64,
}

/// Returns the next number of a count.
fn one_more(count: u64) -> u64
    ensures { result ≡ one_more count }
{
    count.wrapping_add(1)
}

impl Counts {
    /// Returns the counts of a new end.
    pub(crate) fn new() -> Counts
        ensures { result ≡ no_counts }
    {
        Counts {
            sessions: 0,
            accepted: 0,
            full: 0,
            down: 0,
            delivered: 0,
            refused: 0,
        }
    }

    /// Counts a step with these notes that led from the phase `old` to the phase `new`.
    #[inline(always)]
    pub(crate) fn step(&mut self, old: Phase, new: Phase, notes: &Notes)
        ensures { self.new ≡ counts_after old new notes.now.items self.old }
    {
        self.open(old, new);
        self.note_all(notes);
    }

    /// Counts the steps that deliver a frame and return it.
    pub(crate) fn deliver(&mut self)
        ensures { self.new ≡ noted_all (Note.Deliver ∷ Note.Return ∷ []) self.old }
    {
        self.note(&Note::Deliver);
    }

    /// Counts the step that publishes a frame.
    pub(crate) fn accept(&mut self)
        ensures { self.new ≡ noted_all (Note.Accept ∷ []) self.old }
    {
        self.note(&Note::Accept);
    }

    /// Counts a session if the phase became READY.
    fn open(&mut self, old: Phase, new: Phase)
        ensures { self.new ≡ opened old new self.old }
    {
        match (old, new) {
            (Phase::Ready, _) => {}
            (_, Phase::Ready) => self.sessions = one_more(self.sessions),
            _ => {}
        }
    }

    #[inline(always)]
    fn note_all(&mut self, notes: &Notes)
        ensures { self.new ≡ noted_all notes.now.items self.old }
    {
        match notes.as_slice() {
            [] => {}
            [one] => self.note(one),
            [one, other, ..] => {
                self.note(one);
                self.note(other);
            }
        }
    }

    fn note(&mut self, note: &Note)
        ensures { self.new ≡ noted note.now self.old }
    {
        match note {
            Note::Accept => self.accepted = one_more(self.accepted),
            Note::Full => self.full = one_more(self.full),
            Note::Down => self.down = one_more(self.down),
            Note::Deliver => self.delivered = one_more(self.delivered),
            Note::Refuse(_) => self.refused = one_more(self.refused),
            _ => {}
        }
    }
}
