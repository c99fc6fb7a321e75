//! A text of ports as a grammar: the tests of a line, and its effect on a draft.
ghost use Rattle.std.specs.Prelude.{◌≡◌, ◌≤◌, ◌+◌, OnOk, true};
ghost use Rattle.std.proofs.Common.{rules as found};
ghost use Rattle.line_format.specs.Forms.{AreInRange};
ghost use Rattle.port_text.specs.declared.limits.TheConstants.{MOST_TURNS};
ghost use Rattle.port_text.specs.Table.{pieces_of};
ghost use Rattle.port_text.specs.Acts.{cost};
ghost use Rattle.port_text.specs.Judge.{DraftView, add_head, with_act, with_peer, fits_sizes, rules, world_of_draft, at_start};
ghost use Rattle.port_text.specs.Drafts.{draft_view, IsWhole};
ghost use Rattle.port_text.specs.Spelling.{world_of};

use crate::acts::{Act, Acts, Message};
use crate::drafts::Draft;
use crate::faults::Cause;
use crate::forms::{FORMS, Form};
use crate::judging::{TABLE, act_of, fits_sizes, is_honest, is_hostile, is_peer, words};
use crate::limits::MOST_TURNS;
use crate::positions::Position;
use crate::scenarios::Scenario;
use ivs_base::NoMemory;
use line_format::{FieldKind, Grammar, LineFault, Test, number_at};
use scenario_text::{Flags, region};
use std::alloc::Global;

impl Draft {
    /// Returns the draft of a text before its first line.
    pub fn new(alloc: Global) -> Draft
        ensures { draft_view result ≡ at_start }
    {
        Draft {
            position: Position::AtVersion,
            peers: 0,
            out: 0,
            most: 0,
            honest: Flags::new(alloc),
            acts: Acts::new(alloc),
            turns: 0,
        }
    }

    /// Returns the value of the lines up to the end.
    pub fn finish(self) -> Scenario
        requires { IsWhole (draft_view self) }
        ensures { world_of result ≡ world_of_draft (draft_view self) }
    {
        let geometry = region(self.peers, TABLE, 0, self.out);
        let Draft {
            most,
            honest,
            acts,
            ..
        } = self;
        Scenario {
            geometry,
            most,
            honest,
            acts,
        }
    }

    fn push_peer(&mut self, is_honest: bool) -> Result<(), NoMemory>
        ensures { OnOk result (draft_view self.new ≡ with_peer is_honest (draft_view self.old)) }
    {
        self.honest.push(is_honest)?;
        self.position = if self.honest.items().len() as u64 == u64::from(self.peers) {
            Position::AtBegin
        } else {
            Position::AtPeer
        };
        Ok(())
    }

    fn push_act(&mut self, act: Act) -> Result<(), NoMemory>
        requires turns { self.old.turns + cost act ≤ MOST_TURNS }
        ensures { OnOk result (draft_view self.new ≡ with_act act (draft_view self.old)) }
    {
        let cost = act.cost();
        self.acts.push(act)?;
        self.turns += cost;
        Ok(())
    }

    fn add_head(&mut self, form: Form, numbers: &[u64]) -> Result<(), NoMemory>
        requires limits { AreInRange (pieces_of form) numbers.now }
        requires sizes { fits_sizes (draft_view self.old) form numbers.now ≡ true }
        ensures { OnOk result (draft_view self.new ≡
            add_head form numbers.now (draft_view self.old)) }
    {
        let number = number_at(numbers, 0);
        match form {
            Form::Version => self.position = Position::AtPeers,
            Form::Peers => {
                self.position = Position::AtOut;
                self.peers = number as u32;
            }
            Form::Out => {
                self.position = Position::AtLongest;
                self.out = number;
            }
            Form::Longest => {
                self.position = Position::AtPeer;
                self.most = number as u32;
            }
            Form::Honest => self.push_peer(true)?,
            Form::Hostile => self.push_peer(false)?,
            Form::Begin => self.position = Position::AtActs,
            Form::End => self.position = Position::Ended,
            _ => {}
        }
        Ok(())
    }
}

impl Grammar for Draft {
    type Form = Form;

    type Cause = Cause;

    ghost DraftView = { DraftView };

    ghost draft_view = { draft_view };

    ghost rules = { rules };

    ghost few = { Prim.search found };

    fn forms() -> &'static [Form] {
        &FORMS
    }

    fn slots(form: Form) -> &'static [FieldKind] {
        form.slots()
    }

    fn cause(test: Test) -> Cause {
        match test {
            Test::Line => Cause::BadLine,
            Test::Order => Cause::BadOrder,
            Test::Number => Cause::BadNumber,
            Test::Peer => Cause::BadPeer,
            Test::Bytes => Cause::BadMessage,
            Test::Sizes => Cause::BadGeometry,
            Test::Count => Cause::TooManyTurns,
        }
    }

    fn is_at(&self, form: Form) -> bool {
        Position::of(form) == self.position
    }

    fn is_out_of_turn(&self, form: Form, p: u64) -> bool {
        match form {
            Form::Honest | Form::Hostile => p != self.honest.items().len() as u64,
            _ => false,
        }
    }

    /// Whether the numbers are in the ranges that depend on the head.
    fn is_in_range(&self, form: Form, numbers: &[u64]) -> bool {
        match form {
            Form::Sample => number_at(numbers, 1) < u64::from(self.peers),
            Form::Poke => number_at(numbers, 1) < words(self),
            _ => true,
        }
    }

    /// Whether the region has the peer, and the peer is of the kind that the form requires.
    fn is_its_peer(&self, form: Form, numbers: &[u64]) -> bool {
        let p = number_at(numbers, 0);
        match form {
            Form::Publish | Form::Sample => is_honest(self, p),
            Form::Turn => is_peer(self, p),
            Form::Poke => is_hostile(self, p),
            _ => true,
        }
    }

    /// Whether the message of a publish has 1 byte to the most bytes.
    fn fits(&self, form: Form, size: u64) -> bool {
        match form {
            Form::Publish => 1 <= size && size <= u64::from(self.most),
            _ => true,
        }
    }

    fn is_ended(&self) -> bool {
        self.position == Position::Ended
    }

    #[tactic(auto, using(crate::proofs::RowTests::small_peer, crate::proofs::RowTests::small_from))]
    fn add(
        &mut self,
        _alloc: Global,
        form: Form,
        _fields: &[&[u8]],
        numbers: &[u64],
        bytes: Vec<u8>,
    ) -> Result<(), LineFault<Cause>> {
        if !fits_sizes(self, form, numbers) {
            return Err(LineFault::Wrong(Cause::BadGeometry));
        }
        match act_of(form, numbers, Message::of(bytes)) {
            None => self.add_head(form, numbers)?,
            Some(act) => {
                if MOST_TURNS < self.turns + act.cost() {
                    return Err(LineFault::Wrong(Cause::TooManyTurns));
                }
                self.push_act(act)?
            }
        }
        Ok(())
    }
}
