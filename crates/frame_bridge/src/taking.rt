//! A text of a bridge as a grammar: the tests of a line, and its effect on a draft.
ghost use Rattle.std.proofs.Common.{rules as found};
ghost use Rattle.frame_bridge.specs.Judge.{DraftView, rules, world_of_draft, at_start};
ghost use Rattle.frame_bridge.specs.Drafts.{draft_view};
ghost use Rattle.std.specs.Prelude.{◌≡◌};
ghost use Rattle.frame_bridge.specs.Spelling.{world_of};

use crate::drafts::Draft;
use crate::faults::Cause;
use crate::forms::{FORMS, Form};
use crate::limits::MOST_FRAMES;
use crate::positions::Position;
use crate::scripts::{Script, Sent, SentFrames};
use ivs_base::Frame;
use line_format::{FieldKind, Grammar, LineFault, Test, number_at};
use split_ring::{FRAME_OVERHEAD, LEAST_MTU, SHORTEST_FRAME};
use std::alloc::Global;

impl Draft {
    /// Returns the draft of a text before its first line.
    pub fn new(alloc: Global) -> Draft
        ensures { draft_view result ≡ at_start }
    {
        Draft {
            position: Position::AtVersion,
            ports: 0,
            rounds: 0,
            sent: SentFrames::new(alloc),
        }
    }

    /// Returns the value of the lines up to the end.
    pub fn finish(self) -> Script
        ensures { world_of result ≡ world_of_draft (draft_view self) }
    {
        let Draft {
            ports,
            rounds,
            sent,
            ..
        } = self;
        Script {
            ports,
            rounds,
            sent,
        }
    }
}

impl Grammar for Draft {
    type Form = Form;

    type Cause = Cause;

    ghost DraftView = { DraftView };

    ghost draft_view = { draft_view };

    ghost rules = { rules };

    ghost few = { Prim.search found };

    fn forms() -> &'static [Form] {
        &FORMS
    }

    fn slots(form: Form) -> &'static [FieldKind] {
        form.slots()
    }

    fn cause(test: Test) -> Cause {
        match test {
            Test::Line => Cause::BadLine,
            Test::Order => Cause::BadOrder,
            Test::Bytes => Cause::BadFrame,
            Test::Count => Cause::TooManyFrames,
            Test::Number | Test::Peer | Test::Sizes => Cause::BadNumber,
        }
    }

    fn is_at(&self, form: Form) -> bool {
        Position::of(form) == self.position
    }

    fn is_out_of_turn(&self, _form: Form, _p: u64) -> bool {
        false
    }

    /// Whether the run has the port of a frame.
    fn is_in_range(&self, form: Form, numbers: &[u64]) -> bool {
        match form {
            Form::Frame => number_at(numbers, 0) < u64::from(self.ports),
            _ => true,
        }
    }

    fn is_its_peer(&self, _form: Form, _numbers: &[u64]) -> bool {
        true
    }

    /// Whether a frame has a length that the least MTU allows.
    fn fits(&self, form: Form, size: u64) -> bool {
        match form {
            Form::Frame => {
                u64::from(SHORTEST_FRAME) <= size && size <= u64::from(LEAST_MTU) + FRAME_OVERHEAD
            }
            _ => true,
        }
    }

    fn is_ended(&self) -> bool {
        self.position == Position::Ended
    }

    #[tactic(auto, using(crate::proofs::RowTests::port_below))]
    fn add(
        &mut self,
        alloc: Global,
        form: Form,
        _fields: &[&[u8]],
        numbers: &[u64],
        bytes: Vec<u8>,
    ) -> Result<(), LineFault<Cause>> {
        let number = number_at(numbers, 0);
        match form {
            Form::Version => self.position = Position::AtPorts,
            Form::Ports => {
                self.position = Position::AtRounds;
                self.ports = number as u32;
            }
            Form::Rounds => {
                self.position = Position::AtBegin;
                self.rounds = number as u32;
            }
            Form::Begin => self.position = Position::AtFrames,
            Form::Frame => {
                // A port is below this number, so it has 32 bits.
                let _ports = self.ports;
                if self.sent.items().len() >= MOST_FRAMES {
                    return Err(LineFault::Wrong(Cause::TooManyFrames));
                }
                self.sent.push(Sent {
                    port: number as u32,
                    frame: Frame::of(alloc, &bytes)?,
                })?
            }
            Form::End => self.position = Position::Ended,
        }
        Ok(())
    }
}
