//! The handshake of a link's end: its phase, the mark of a refused link, and the move after each
//! read of the other's State. The crate uses no other crate. Its contract is the phase table
//! itself, with the laws that follow from it:
//! - no phase is skipped;
//! - READY is set only after the other end has left RESET, and RUN only if the other end is at
//!   least READY;
//! - RESET is set only from READY or RUN, if the other end is in RESET;
//! - INIT is set only if the other end is in RESET or INIT.
//!
//! # Design
//!
//! - The table is a definition by cases, `phase_move` of `specs/PhaseTable`, with a line for each
//!   arm of `saw`. The laws of `phases_in_step` follow from it, but they don't determine each arm.
//!   A must-fail edit does that for each arm.
#![tactic(auto)]

ghost use Rattle.std.specs.Prelude.{◌≡◌, true, false};
ghost use Rattle.link_handshake.specs.Laws.{SkipsNone, WaitsForInit, WaitsForReady, FollowsReset, StartsAfresh};
ghost use Rattle.link_handshake.specs.PhaseTable.{phase_of_state};
ghost use Rattle.link_handshake.specs.HandshakeState.{move_of};

use std::marker::Model;

/// The phase of an end. It changes at the step that writes the end's State, whose values are 0 to 3
/// in this order.
#[derive(Clone, Copy, Debug, PartialEq, Eq)]
pub enum Phase {
    /// No link.
    Reset,
    /// The end clears its section as soon as the other end has left RESET.
    Init,
    /// The end's section is clear, and a session is open.
    Ready,
    /// The other end is also READY or in RUN: frames can be offered and polled.
    Run,
}

/// Returns the phase of a State value. 3 and above are RUN.
pub fn phase_of(state: u32) -> Phase
    ensures { result ≡ phase_of_state state }
{
    match state {
        0 => Phase::Reset,
        1 => Phase::Init,
        2 => Phase::Ready,
        _ => Phase::Run,
    }
}

/// The move of an end after it read the other's State.
#[derive(Clone, Copy, Debug, PartialEq, Eq)]
pub enum Move {
    /// No move.
    Stay,
    /// Sets the own State to this value.
    Set(u32),
    /// Writes 0 to each word of the own section, in order, and then sets the own State to this
    /// value.
    ClearThenSet(u32),
}

/// A phase and a mark. An end that refused the link has the mark and stays in RESET until its own
/// device is reset.
#[derive(Clone, Copy, Debug, PartialEq, Eq)]
pub struct Handshake {
    phase: Phase,
    refused: bool,
}

impl Model for Handshake {
    ghost use Rattle.link_handshake.specs.HandshakeState.{HandshakeState};

    ghost Value = { HandshakeState };

    ghost view = { λ h. record { phase = h.phase; mark = h.refused } };

    ghost inverse = { λ s. record { phase = s.phase; refused = s.mark } };
}

impl Handshake {
    /// Returns the initial handshake: RESET without the mark.
    pub fn new() -> Handshake
        ensures { result ≡ record { phase = Phase.Reset; mark = false } }
    {
        Handshake {
            phase: Phase::Reset,
            refused: false,
        }
    }

    /// Returns the phase.
    pub fn phase(&self) -> Phase
        ensures { result ≡ self.now.phase }
    {
        self.phase
    }

    /// Whether this end refused the link.
    pub fn refused(&self) -> bool
        ensures { result ≡ self.now.mark }
    {
        self.refused
    }

    /// Returns the move after a read of the other's State, `value`. An end that refused the link
    /// stays, for all values.
    // claim with Handshake::new, Handshake::phase, Handshake::refused, phase_of: An end makes the
    //    move of the phase table, and none if it has refused the link.
    pub fn saw(&self, value: u32) -> Move
        ensures { result ≡ move_of self.now value }
    {
        if self.refused {
            return Move::Stay;
        }
        match (self.phase, value) {
            (Phase::Reset, 0 | 1) => Move::Set(1),
            (Phase::Reset, _) => Move::Stay,
            (Phase::Init, 0) => Move::Stay,
            (Phase::Init, _) => Move::ClearThenSet(2),
            (Phase::Ready, 0) => Move::Set(0),
            (Phase::Ready, 1) => Move::Stay,
            (Phase::Ready, _) => Move::Set(3),
            (Phase::Run, 0) => Move::Set(0),
            (Phase::Run, _) => Move::Stay,
        }
    }

    /// Enters a phase, at the step that sets the own State.
    pub fn enter(&mut self, phase: Phase)
        ensures { self.new ≡ record self.old { phase = phase } }
    {
        self.phase = phase;
    }

    /// Leaves the link. An end that refused the link keeps the mark.
    pub fn stop(&mut self)
        ensures { self.new ≡ record self.old { phase = Phase.Reset } }
    {
        self.phase = Phase::Reset;
    }

    /// Refuses the link.
    // claim with Handshake::enter, Handshake::stop, Handshake::reset: A refusal lasts until the
    //    end's own device reset.
    pub fn refuse(&mut self)
        ensures { self.new ≡ record { phase = Phase.Reset; mark = true } }
    {
        self.phase = Phase::Reset;
        self.refused = true;
    }

    /// Resets the handshake after a reset of the end's own device.
    pub fn reset(&mut self)
        ensures { self.new ≡ record { phase = Phase.Reset; mark = false } }
    {
        *self = Handshake::new();
    }
}

/// Law: the properties of the phase table, for all values that the other end writes into its State.
// claim skips_none, waits_for_init, waits_for_ready, follows_reset, starts_afresh: No phase is
//    skipped. READY waits for the other's INIT, RUN for its READY, and RESET follows RESET.
pub fn phases_in_step()
    ensures skips_none { SkipsNone }
    ensures waits_for_init { WaitsForInit }
    ensures waits_for_ready { WaitsForReady }
    ensures follows_reset { FollowsReset }
    ensures starts_afresh { StartsAfresh }
{}
