//! The positions of the last turn and the last reset of each peer, and of the last act of another
//! kind.
ghost use Rattle.std.specs.Prelude.{◌≡◌, ◌<◌, ◌++◌, [], ◌∷◌, ◌+◌, ◌==◌, ◌&&◌, ℕ, List, All, length, slice_index_or, drop, if◌then◌else◌};
ghost use Rattle.scenario_text.specs.declared.acts.Act as acts;
ghost use Rattle.scenario_text.specs.Acts.{peer_of};
ghost use Rattle.scenario_text.specs.Running.{is_turn_of, is_reset_of, is_other, has_turn, has_reset, has_other, AreEnds};

use crate::acts::Act;

/// The ends of three kinds of acts. The end of a kind is the number of acts up to and including its
/// last one, or 0 if there is none.
#[derive(Drop)]
pub struct Ends {
    /// The end of the acts that are neither turns nor resets.
    others: usize,
    /// The end of each peer's turns.
    turns: [usize; 8],
    /// The end of each peer's resets.
    resets: [usize; 8],
}

impl Act {
    /// Whether the act is a turn.
    pub fn is_turn(&self) -> bool
        ensures { result ≡ is_turn_of (peer_of self.now) self.now }
    {
        matches!(self, Act::Turn { .. })
    }

    /// Whether the act is a reset.
    pub fn is_reset(&self) -> bool
        ensures { result ≡ is_reset_of (peer_of self.now) self.now }
    {
        matches!(self, Act::Reset { .. })
    }

    /// Whether the act is neither a turn nor a reset.
    pub fn is_other(&self) -> bool
        ensures { result ≡ is_other self.now }
    {
        !matches!(self, Act::Turn { .. } | Act::Reset { .. })
    }
}

/// Returns the end of this peer's acts, or 0 if the peer is not below 8.
fn end_of(ends: &[usize; 8], peer: u32) -> usize
    ensures { result ≡ slice_index_or ends.now peer 0 }
{
    ends.get(peer as usize).copied().unwrap_or(0)
}

/// Sets the end of the peer's acts to `end` if `on` is set.
fn extend(ends: &mut [usize; 8], peer: usize, on: bool, end: usize)
    requires { peer < 8 }
    ensures { (p : ℕ) → slice_index_or ends.new p 0 ≡ (if on && (peer == p) then end else slice_index_or ends.old p 0) }
{
    if on {
        ends[peer] = end;
    }
}

/// Sets `last` to `end` if `on` is set.
fn lengthen(last: &mut usize, on: bool, end: usize)
    ensures { last.new ≡ (if on then end else last.old) }
{
    if on {
        *last = end;
    }
}

impl Ends {
    /// Returns the ends of no acts.
    fn nothing() -> Ends
        ensures { AreEnds result [] }
    {
        Ends {
            others: 0,
            turns: [0; 8],
            resets: [0; 8],
        }
    }

    /// Adds an act, the last of `end` acts.
    fn add(&mut self, act: &Act, end: usize)
        requires { peer_of act.now < 8 }
        ensures { (said : List acts.Act) → AreEnds self.old said → end ≡ length said + 1 →
            AreEnds self.new (said ++ act.now ∷ []) }
    {
        let peer = act.peer() as usize;
        extend(&mut self.turns, peer, act.is_turn(), end);
        extend(&mut self.resets, peer, act.is_reset(), end);
        lengthen(&mut self.others, act.is_other(), end);
    }

    /// Returns the ends of these acts.
    pub fn of(acts: &[Act]) -> Ends
        requires { All (λ act. peer_of act < 8) acts.now }
        ensures { AreEnds result acts.now }
    {
        let mut ends = Ends::nothing();
        for (k, act) in acts.iter().enumerate() {
            ends.add(act, k + 1);
        }
        ends
    }

    /// Whether an act that is neither a turn nor a reset comes after the first `count` acts.
    pub fn has_other(&self, count: usize) -> bool
        ensures { (acts : List acts.Act) → AreEnds self.now acts → result ≡ has_other (drop count acts) }
    {
        count < self.others
    }

    /// Whether a turn of the peer comes after the first `count` acts.
    pub fn has_turn(&self, peer: u32, count: usize) -> bool
        ensures { (acts : List acts.Act) → AreEnds self.now acts → result ≡ has_turn (drop count acts) peer }
    {
        count < end_of(&self.turns, peer)
    }

    /// Whether a reset of the peer comes after the first `count` acts.
    pub fn has_reset(&self, peer: u32, count: usize) -> bool
        ensures { (acts : List acts.Act) → AreEnds self.now acts → result ≡ has_reset (drop count acts) peer }
    {
        count < end_of(&self.resets, peer)
    }
}
