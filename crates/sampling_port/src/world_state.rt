//! The region, and the record so far. Each access of a peer adds one line.
ghost use Rattle.std.specs.Prelude.{◌≡◌, ℕ, ◌+◌, ◌<◌, ◌≤◌, ◌^◌, List, ◌∷◌, ◌++◌, OnOk, IfOk, reverse, Some};
ghost use Rattle.line_format.specs.Rows.{row};
ghost use Rattle.section_map.specs.Geometry.{word_count};
ghost use Rattle.section_map.specs.MayWrite.{MayWrite};
ghost use Rattle.sampling_port.specs.Marks.{mark_of};
ghost use Rattle.sampling_port.specs.Trees.{port_step};
ghost use Rattle.sampling_port.specs.Schedule.{Poked};
ghost use Rattle.sampling_port.specs.EventRecords.{Line, Read, Wrote, Idle, Marked, access_lines, lines_by};
ghost use Rattle.sampling_port.specs.LineRows.{row_of_line};
ghost use Rattle.sampling_port.specs.Memory.{last_write};
ghost use Rattle.sampling_port.specs.History.{met, poked_step};
ghost use Rattle.sampling_port.specs.Simulator.{RecordAfter, WorldStateAfter, CanPerform};

use crate::lines::{Form, put};
use crate::notes::PortNote;
use ivs_base::NoMemory;
use section_map::Region;
use split_ring::steps::Access;

/// The text of a record so far, and the number of its history lines.
#[derive(Drop)]
pub struct Record {
    pub text: Vec<u8>,
    pub count: u64,
}

impl Record {
    /// Records the line of a form.
    pub fn record_line(&mut self, form: Form, numbers: &[u64], bytes: &[u8]) -> Result<(), NoMemory>
        requires room { self.old.count < 2 ^ 63 }
        ensures recorded { (front : List ℕ) (past : List Line) (line : Line) →
            row_of_line line ≡ row form numbers.now bytes.now → RecordAfter front past self.old →
            OnOk result (RecordAfter front (line ∷ past) self.new) }
        ensures count { OnOk result (self.new.count ≡ self.old.count + 1) }
    {
        put(&mut self.text, form, numbers, bytes)?;
        self.count += 1;
        Ok(())
    }
}

/// The words of the region, and the record.
#[derive(Drop)]
pub struct WorldState {
    pub region: Region,
    pub recorded: Record,
}

impl WorldState {
    /// Reads a word of the region for a peer.
    fn read(&mut self, peer: u32, word: u32) -> Result<u32, NoMemory>
        requires seated { peer < self.old.region.shape.peers }
        requires inside { word < word_count self.old.region.shape }
        requires room { self.old.recorded.count < 2 ^ 63 }
        ensures after { (front : List ℕ) (past : List Line) → WorldStateAfter front past self.old →
            IfOk result (λ value. (value ≡ last_write past word) × WorldStateAfter front (Read peer word value ∷ past) self.new) }
        ensures shape { self.new.region.shape ≡ self.old.region.shape }
        ensures count { OnOk result (self.new.recorded.count ≡ self.old.recorded.count + 1) }
    {
        let value = match self.region.read(peer, word) {
            Ok(value) => value,
            Err(_) => unreachable!(),
        };
        let numbers = [u64::from(peer), u64::from(word), u64::from(value)];
        self.recorded.record_line(Form::Read, &numbers, &[])?;
        Ok(value)
    }

    /// Writes a word that the peer may write.
    fn write(&mut self, peer: u32, word: u32, value: u32) -> Result<(), NoMemory>
        requires seated { peer < self.old.region.shape.peers }
        requires may { MayWrite self.old.region.shape peer word }
        requires room { self.old.recorded.count < 2 ^ 63 }
        ensures after { (front : List ℕ) (past : List Line) → WorldStateAfter front past self.old →
            OnOk result (WorldStateAfter front (Wrote peer word value ∷ past) self.new) }
        ensures shape { self.new.region.shape ≡ self.old.region.shape }
        ensures count { OnOk result (self.new.recorded.count ≡ self.old.recorded.count + 1) }
    {
        if self.region.write(peer, word, value).is_err() {
            unreachable!()
        }
        let numbers = [u64::from(peer), u64::from(word), u64::from(value)];
        self.recorded.record_line(Form::Wrote, &numbers, &[])
    }

    /// Writes a word if the peer may write it, and denies the write otherwise.
    pub fn poke(&mut self, peer: u32, word: u32, value: u32) -> Result<(), NoMemory>
        requires seated { peer < self.old.region.shape.peers }
        requires room { self.old.recorded.count < 2 ^ 63 }
        ensures after { (front : List ℕ) (past : List Line) → WorldStateAfter front past self.old →
            OnOk result (WorldStateAfter front (reverse (lines_by (Poked peer word value) (poked_step self.old.region.shape peer word value)) ++ past) self.new) }
        ensures shape { self.new.region.shape ≡ self.old.region.shape }
    {
        match self.region.write(peer, word, value) {
            Ok(()) => {
                let numbers = [u64::from(peer), u64::from(word), u64::from(value)];
                self.recorded.record_line(Form::Wrote, &numbers, &[])
            }
            Err(_) => {
                let numbers = [u64::from(peer), u64::from(word)];
                self.recorded.record_line(Form::Denied, &numbers, &[])
            }
        }
    }

    /// Records a turn of a peer without a step.
    pub fn idle(&mut self, peer: u32) -> Result<(), NoMemory>
        requires room { self.old.recorded.count < 2 ^ 63 }
        ensures after { (front : List ℕ) (past : List Line) → WorldStateAfter front past self.old →
            OnOk result (WorldStateAfter front (Idle peer ∷ past) self.new) }
        ensures shape { self.new.region.shape ≡ self.old.region.shape }
    {
        self.recorded
            .record_line(Form::Idle, &[u64::from(peer)], &[])
    }

    /// Performs the access of a peer's step. Returns the value read, or 0 for a write.
    pub fn perform(&mut self, peer: u32, access: Access) -> Result<u32, NoMemory>
        requires seated { peer < self.old.region.shape.peers }
        requires can { CanPerform self.old.region.shape peer access }
        requires room { self.old.recorded.count < 2 ^ 62 }
        ensures after { (front : List ℕ) (past : List Line) → WorldStateAfter front past self.old →
            IfOk result (λ value. (value ≡ met past access) × WorldStateAfter front (access_lines peer access value ++ past) self.new) }
        ensures shape { self.new.region.shape ≡ self.old.region.shape }
        ensures room { IfOk result (λ _. self.new.recorded.count < 2 ^ 63) }
    {
        match access {
            Access::Read(word) => self.read(peer, word),
            Access::Write(word, value) => {
                self.write(peer, word, value)?;
                Ok(0)
            }
            Access::State(_) | Access::Ring { .. } | Access::Nothing => unreachable!(),
        }
    }

    /// Records the mark of a step: the port's note, with the peer sampled and the message got.
    pub fn mark(
        &mut self,
        peer: u32,
        from: u32,
        message: &[u8],
        note: PortNote,
    ) -> Result<(), NoMemory>
        requires room { self.old.recorded.count < 2 ^ 63 }
        ensures after { (front : List ℕ) (past : List Line) → WorldStateAfter front past self.old →
            OnOk result (WorldStateAfter front (Marked peer (mark_of from message.now note) ∷ past) self.new) }
        ensures shape { self.new.region.shape ≡ self.old.region.shape }
    {
        let peer = u64::from(peer);
        let from = u64::from(from);
        let recorded = &mut self.recorded;
        match note {
            PortNote::Publish(number) => {
                recorded.record_line(Form::Publish, &[peer, u64::from(number)], &[])
            }
            PortNote::Got(number) => {
                recorded.record_line(Form::Got, &[peer, from, u64::from(number)], message)
            }
            PortNote::Nothing => recorded.record_line(Form::Nothing, &[peer, from], &[]),
            PortNote::Again(first, second) => {
                let numbers = [peer, from, u64::from(first), u64::from(second)];
                recorded.record_line(Form::Again, &numbers, &[])
            }
            PortNote::Refuse { field, value } => {
                recorded.record_line(Form::of_refusal(field), &[peer, u64::from(value)], &[])
            }
        }
    }
}
