//! A scenario's text as a grammar: the tests of a line, and its effect on a draft.
ghost use Rattle.std.specs.Prelude.{ℕ, ◌==◌, ◌||◌, ◌&&◌, slice_index_or, false, ◌≡◌, ◌<◌, ◌≤◌, ◌+◌, ◌∷◌, [], OnOk, true};
ghost use Rattle.std.proofs.Common.{rules as found};
ghost use Rattle.line_format.specs.Forms.{AreInRange};
ghost use Rattle.scenario_text.specs.declared.forms.Form.TheVariants.{Out, Mtu};
ghost use Rattle.scenario_text.specs.declared.limits.TheConstants.{MOST_ACTS};
ghost use Rattle.scenario_text.specs.Table.{pieces_of};
ghost use Rattle.scenario_text.specs.Acts.{cost, peer_of, is_auto, is_storm, is_call};
ghost use Rattle.scenario_text.specs.Judge.{DraftView, ordinal_of, position_of, head_with, with_act, with_peer, rules, world_of_draft, at_start, has_ended};
ghost use Rattle.line_format.specs.Reading.{Gives};
ghost use Rattle.scenario_text.specs.Drafts.{draft_view};
ghost use Rattle.scenario_text.specs.Scenario.{IsWorld};
ghost use Rattle.scenario_text.specs.Spelling.{world_of};

use crate::acts::{Act, Acts, Flags};
use crate::drafts::Draft;
use crate::faults::Cause;
use crate::forms::{FORMS, Form};
use crate::judging::{act_of, is_aligned, is_hostile, is_link, is_peer, words};
use crate::limits::MOST_ACTS;
use crate::positions::Position;
use crate::scenarios::Scenario;
use ivs_base::{Frame, NoMemory};
use line_format::{FieldKind, Grammar, LineFault, Test, flag_at, number_at};
use pci_space::Wiring;
use section_map::Geometry;
use split_ring::{FRAME_OVERHEAD, Queue, SHORTEST_FRAME};
use std::alloc::Global;

impl Act {
    /// Whether the act makes its peer choose its calls.
    pub(crate) fn is_auto(&self) -> bool
        ensures { result ≡ is_auto (peer_of self.now) self.now }
    {
        matches!(self, Act::Auto { .. })
    }

    /// Whether the act makes its peer's turns generated writes.
    pub(crate) fn is_storm(&self) -> bool
        ensures { result ≡ is_storm (peer_of self.now) self.now }
    {
        matches!(self, Act::Storm { .. })
    }

    /// Whether the act is a call line.
    fn is_call(&self) -> bool
        ensures { result ≡ is_call (peer_of self.now) self.now }
    {
        matches!(
            self,
            Act::Tick { .. } | Act::Offer { .. } | Act::Poll { .. } | Act::Stop { .. }
        )
    }
}

/// Sets the flag of the peer if `on` is set.
pub fn mark(flags: &mut [bool; 8], peer: usize, on: bool)
    requires { peer < 8 }
    ensures { (p : ℕ) → slice_index_or flags.new p false ≡ (slice_index_or flags.old p false || (on && (peer == p))) }
{
    if on {
        flags[peer] = true;
    }
}

impl Draft {
    /// Returns the draft of a text before its first line.
    pub fn new(alloc: Global) -> Draft
        ensures { draft_view result ≡ at_start }
    {
        Draft {
            position: Position::AtVersion,
            version: 1,
            peers: 0,
            table: 0,
            common: 0,
            out: 0,
            mtu: 0,
            geometry: None,
            queue: None,
            wiring: Wiring::Intx,
            honest: Flags::new(alloc),
            acts: Acts::new(alloc),
            turns: 0,
            autos: [false; 8],
            storms: [false; 8],
            called: [false; 8],
        }
    }

    /// Returns the scenario of the lines up to the end.
    // claim with Draft::new: A draft becomes the scenario of what was read so far.
    pub fn finish(self) -> Scenario
        requires ended { has_ended (draft_view self) ≡ true }
        requires world { IsWorld (world_of_draft (draft_view self)) }
        ensures { world_of result ≡ world_of_draft (draft_view self) }
    {
        let Draft {
            geometry,
            version,
            queue,
            wiring,
            honest,
            acts,
            ..
        } = self;
        let (Some(geometry), Some(queue)) = (geometry, queue) else {
            unreachable!()
        };
        Scenario {
            geometry,
            queue,
            wiring,
            honest,
            acts,
            version,
        }
    }

    fn push_peer(&mut self, is_honest: bool) -> Result<(), NoMemory>
        requires order { 5 < ordinal_of self.old.position }
        ensures { OnOk result (draft_view self.new ≡ with_peer is_honest (draft_view self.old)) }
    {
        self.honest.push(is_honest)?;
        self.position = if self.honest.items().len() as u64 == u64::from(self.peers) {
            Position::AtBegin
        } else {
            Position::AtPeer
        };
        Ok(())
    }

    fn push_act(&mut self, act: Act) -> Result<(), NoMemory>
        requires turns { self.old.turns + cost act ≤ MOST_ACTS }
        requires peer { peer_of act < 8 }
        ensures { OnOk result (draft_view self.new ≡ with_act act (draft_view self.old)) }
    {
        let cost = act.cost();
        let peer = act.peer() as usize;
        let is_auto = act.is_auto();
        let is_storm = act.is_storm();
        let is_call = act.is_call();
        self.acts.push(act)?;
        self.turns += cost;
        mark(&mut self.autos, peer, is_auto);
        mark(&mut self.storms, peer, is_storm);
        mark(&mut self.called, peer, is_call);
        Ok(())
    }

    /// Takes the size of a section, if a region of the sizes so far exists.
    fn add_out(&mut self, out: u64) -> Result<(), LineFault<Cause>>
        ensures { Gives (draft_view self.new) result (head_with Out (out ∷ []) (draft_view self.old)) }
    {
        let Ok(geometry) = Geometry::new(self.peers, self.table, self.common, out) else {
            return Err(LineFault::Wrong(Cause::BadGeometry));
        };
        self.position = Position::AtMtu;
        self.out = out;
        self.geometry = Some(geometry);
        Ok(())
    }

    /// Takes the MTU, if a section has a queue for it.
    fn add_mtu(&mut self, mtu: u32) -> Result<(), LineFault<Cause>>
        requires order { 4 < ordinal_of self.old.position }
        ensures { Gives (draft_view self.new) result (head_with Mtu (mtu ∷ []) (draft_view self.old)) }
    {
        let Ok(queue) = Queue::of_version(self.version, self.out, mtu) else {
            return Err(LineFault::Wrong(Cause::BadGeometry));
        };
        self.position = Position::AtWiring;
        self.mtu = mtu;
        self.queue = Some(queue);
        Ok(())
    }

    fn add_head(&mut self, form: Form, numbers: &[u64]) -> Result<(), LineFault<Cause>>
        requires limits { AreInRange (pieces_of form) numbers.now }
        requires order { ordinal_of (position_of form) ≡ ordinal_of self.old.position }
        ensures { Gives (draft_view self.new) result (head_with form numbers.now (draft_view self.old)) }
    {
        let number = number_at(numbers, 0);
        match form {
            Form::Version => {
                self.position = Position::AtPeers;
                self.version = (number as u32).max(1);
            }
            Form::Peers => {
                self.position = Position::AtTable;
                self.peers = number as u32;
            }
            Form::Table => {
                self.position = Position::AtCommon;
                self.table = number as u32;
            }
            Form::Common => {
                self.position = Position::AtOut;
                self.common = number;
            }
            Form::Out => self.add_out(number)?,
            Form::Mtu => self.add_mtu(number as u32)?,
            Form::Msix => {
                self.position = Position::AtPeer;
                self.wiring = Wiring::Msix(number as u32);
            }
            Form::Intx => {
                self.position = Position::AtPeer;
                self.wiring = Wiring::Intx;
            }
            Form::Honest => self.push_peer(true)?,
            Form::Hostile => self.push_peer(false)?,
            Form::Begin => self.position = Position::AtActs,
            Form::End => self.position = Position::Ended,
            _ => {}
        }
        Ok(())
    }
}

impl Grammar for Draft {
    type Form = Form;

    type Cause = Cause;

    ghost DraftView = { DraftView };

    ghost draft_view = { draft_view };

    ghost rules = { rules };

    ghost few = { Prim.search found };

    fn forms() -> &'static [Form] {
        &FORMS
    }

    fn slots(form: Form) -> &'static [FieldKind] {
        form.slots()
    }

    fn cause(test: Test) -> Cause {
        match test {
            Test::Line => Cause::BadLine,
            Test::Order => Cause::BadOrder,
            Test::Number => Cause::BadNumber,
            Test::Peer => Cause::BadPeer,
            Test::Bytes => Cause::BadFrame,
            Test::Sizes => Cause::BadGeometry,
            Test::Count => Cause::TooManyTurns,
        }
    }

    fn is_at(&self, form: Form) -> bool {
        Position::of(form) == self.position
    }

    fn is_out_of_turn(&self, form: Form, p: u64) -> bool {
        match form {
            Form::Honest | Form::Hostile => p != self.honest.items().len() as u64,
            Form::Tick | Form::Poll | Form::Stop => flag_at(&self.autos, p),
            Form::Auto => flag_at(&self.autos, p) || flag_at(&self.called, p),
            Form::Storm => flag_at(&self.storms, p),
            _ => false,
        }
    }

    /// Whether the numbers are in the ranges that depend on the scenario or on one another.
    fn is_in_range(&self, form: Form, numbers: &[u64]) -> bool {
        match form {
            Form::Poke | Form::Peek => number_at(numbers, 1) < words(self),
            Form::CfgRead | Form::CfgWrite => {
                is_aligned(number_at(numbers, 1), number_at(numbers, 2))
            }
            Form::MmioRead | Form::MmioWrite | Form::MsixRead | Form::MsixWrite => {
                number_at(numbers, 1) % 4 == 0
            }
            _ => true,
        }
    }

    /// Whether the scenario has the peer, and the peer is of the kind that the form requires.
    fn is_its_peer(&self, form: Form, numbers: &[u64]) -> bool {
        let p = number_at(numbers, 0);
        match form {
            Form::Tick | Form::Offer | Form::Poll | Form::Stop | Form::Auto => is_link(self, p),
            Form::Storm | Form::Poke | Form::Peek | Form::Set => is_hostile(self, p),
            Form::MmioWrite => {
                if number_at(numbers, 1) == 16 {
                    is_hostile(self, p)
                } else {
                    is_peer(self, p)
                }
            }
            Form::Turn
            | Form::Reset
            | Form::Ring
            | Form::CfgRead
            | Form::CfgWrite
            | Form::MmioRead
            | Form::MsixRead
            | Form::MsixWrite
            | Form::Lose
            | Form::Again => is_peer(self, p),
            _ => true,
        }
    }

    /// Whether the frame of an offer has a length that the MTU allows.
    fn fits(&self, form: Form, size: u64) -> bool {
        match form {
            Form::Offer => {
                u64::from(SHORTEST_FRAME) <= size && size <= u64::from(self.mtu) + FRAME_OVERHEAD
            }
            _ => true,
        }
    }

    fn is_ended(&self) -> bool {
        self.position == Position::Ended
    }

    #[tactic(auto, using(crate::proofs::RowTests::small_peer))]
    fn add(
        &mut self,
        alloc: Global,
        form: Form,
        _fields: &[&[u8]],
        numbers: &[u64],
        bytes: Vec<u8>,
    ) -> Result<(), LineFault<Cause>> {
        match act_of(form, numbers, Frame::of(alloc, &bytes)?) {
            None => self.add_head(form, numbers),
            Some(act) => {
                if MOST_ACTS < self.turns + act.cost() {
                    return Err(LineFault::Wrong(Cause::TooManyTurns));
                }
                self.push_act(act)?;
                Ok(())
            }
        }
    }
}
