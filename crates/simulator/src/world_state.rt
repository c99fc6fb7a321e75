//! The state of a world: its region, its devices and the lines so far. Every access of a peer adds
//! one line, followed by the interrupts that it causes.
ghost use Rattle.std.specs.Prelude.{◌≡◌, ℕ, ◌+◌, ◌-◌, ◌<◌, ◌^◌, List, [], ◌∷◌, ◌++◌, true, IfOk, OnOk, reverse, map, slice_index};
ghost use Rattle.pci_space.specs.Fields.{is_access};
ghost use Rattle.section_map.specs.Geometry.{word_count};
ghost use Rattle.section_map.specs.MayWrite.{MayWrite};
ghost use Rattle.lawful_history.specs.declared.line.Line.TheVariants.{Reset};
ghost use Rattle.lawful_history.specs.Memory.{last_write};
ghost use Rattle.lawful_history.specs.Schedule.{InterruptDropped, ReadsConfig, WritesConfig, ReadsRegister, WritesRegister, ReadsMsix, WritesMsix};
ghost use Rattle.lawful_history.specs.EventRecords.{region_access_lines};
ghost use Rattle.lawful_history.specs.History.{acted_step};
ghost use Rattle.lawful_history.specs.Device.{delivery_line, delivery_lines, interrupts_of_line, interrupts_of_access, step_interrupts, device_access_line, losses_with};
ghost use Rattle.simulator.specs.Log.{Output, Records};
ghost use Rattle.simulator.specs.WorldState.{InEachWorld, WorldStateAfter, HasPeer, IsMark, CanPerform, GaveLast, line_with_interrupts, accessed, with_state};

use crate::log::Log;
use arrayvec::ArrayVec;
use doorbell_irq::{Delivery, Device, Effect, REGISTER_DOORBELL, REGISTER_STATE, doorbell_word};
use ivs_base::NoMemory;
use lawful_history::Line;
use section_map::Region;
use split_ring::steps::Access;

/// The region, the devices, the interrupts that are to be lost, and the history so far.
#[derive(Drop)]
pub struct WorldState {
    /// The words of the region.
    pub region: Region,
    /// The devices of all peers. They are boxed, so that a move of the state doesn't copy them.
    pub device: Box<Device>,
    /// The number of interrupts that will be lost, for each of 8 peers.
    pub unspent: [u64; 8],
    /// The lines.
    pub log: Log,
}

impl WorldState {
    /// Records a line that changes no word and no device.
    #[inline(always)]
    pub fn record_mark(&mut self, line: Line) -> Result<(), NoMemory>
        requires { IsMark line }
        ensures after { InEachWorld self.old (λ world output past losses.
            OnOk result (WorldStateAfter world output (line ∷ past) losses self.new)) }
        ensures seated { (me : ℕ) → HasPeer self.old me → HasPeer self.new me }
    {
        self.log.push(line)
    }

    /// Delivers one interrupt to its peer, or loses it.
    fn arrive_at(&mut self, delivery: &Delivery) -> Result<(), NoMemory>
        ensures after { InEachWorld self.old (λ world output past losses.
            OnOk result (WorldStateAfter world output
            (delivery_line past losses delivery.now ∷ past) losses self.new)) }
        ensures seated { (me : ℕ) → HasPeer self.old me → HasPeer self.new me }
    {
        let Delivery { peer, vector } = *delivery;
        if peer < 8 && self.unspent[peer as usize] > 0 {
            self.unspent[peer as usize] -= 1;
            self.log.push(Line::Lost { peer, vector })
        } else {
            self.log.push(Line::Interrupt { peer, vector })
        }
    }

    /// Delivers interrupts, in their order.
    fn arrive(&mut self, deliveries: &[Delivery]) -> Result<(), NoMemory>
        ensures after { InEachWorld self.old (λ world output past losses.
            OnOk result (WorldStateAfter world output
            (reverse (delivery_lines past losses deliveries.now) ++ past) losses self.new)) }
        ensures seated { (me : ℕ) → HasPeer self.old me → HasPeer self.new me }
    {
        for delivery in deliveries {
            self.arrive_at(delivery)?;
        }
        Ok(())
    }

    /// Reads a word of the region for a peer.
    #[inline(always)]
    pub fn read(&mut self, me: u32, word: u32) -> Result<u32, NoMemory>
        requires seated { HasPeer self.old me }
        requires inside { word < word_count self.old.region.shape }
        ensures after { InEachWorld self.old (λ world output past losses.
            IfOk result (λ value. (value ≡ last_write past word)
            × WorldStateAfter world output (Line.Read me word value ∷ past) losses self.new)) }
        ensures seated { (q : ℕ) → HasPeer self.old q → HasPeer self.new q }
    {
        let value = match self.region.read(me, word) {
            Ok(value) => value,
            Err(_) => unreachable!(),
        };
        self.log.push(Line::Read {
            peer: me,
            word,
            value,
        })?;
        Ok(value)
    }

    /// Writes a word that the peer may write.
    // claim each after, seated: A word, a device and the lines change together, and each line comes
    //    with the interrupts that it causes.
    #[inline(always)]
    pub fn write(&mut self, me: u32, word: u32, value: u32) -> Result<(), NoMemory>
        requires seated { HasPeer self.old me }
        requires may { MayWrite self.old.region.shape me word }
        ensures after { InEachWorld self.old (λ world output past losses.
            OnOk result (WorldStateAfter world output (Line.Write me word value ∷ past) losses self.new)) }
        ensures seated { (q : ℕ) → HasPeer self.old q → HasPeer self.new q }
    {
        match self.region.write(me, word, value) {
            Ok(()) => self.log.push(Line::Write {
                peer: me,
                word,
                value,
            }),
            Err(_) => unreachable!(),
        }
    }

    /// Writes a word if the peer may write it, and denies the write otherwise.
    pub fn poke(&mut self, me: u32, word: u32, value: u32) -> Result<(), NoMemory>
        requires { HasPeer self.old me }
        ensures after { InEachWorld self.old (λ world output past losses.
            OnOk result (WorldStateAfter world output
            (reverse (region_access_lines me (Access.Write word value)
            (acted_step world me (Access.Write word value) past) []) ++ past) losses self.new)) }
        ensures seated { (q : ℕ) → HasPeer self.old q → HasPeer self.new q }
    {
        match self.region.write(me, word, value) {
            Ok(()) => self.log.push(Line::Write {
                peer: me,
                word,
                value,
            }),
            Err(_) => self.log.push(Line::Denied { peer: me, word }),
        }
    }

    /// Records the line of an act with the devices' effect: the State that they wrote goes into the
    /// peer's word of the State Table. Returns the interrupts that the line causes.
    #[inline(always)]
    fn record_line(
        &mut self,
        me: u32,
        line: Line,
        effect: Effect,
    ) -> Result<ArrayVec<Delivery, 8>, NoMemory>
        requires { me < self.old.region.shape.peers }
        ensures region { self.new.region ≡ with_state self.old.region me effect.state }
        ensures device { self.new.device ≡ self.old.device }
        ensures unspent { self.new.unspent ≡ self.old.unspent }
        ensures log { OnOk result (Records line self.old.log self.new.log) }
        ensures deliveries { IfOk result (λ deliveries. deliveries ≡ effect.deliveries) }
    {
        if let Some(value) = effect.state {
            let _ = self.region.set_state(me, value);
        }
        self.log.push(line)?;
        Ok(effect.deliveries)
    }

    /// Writes a peer's State.
    pub fn set_state(&mut self, me: u32, value: u32) -> Result<(), NoMemory>
        requires { HasPeer self.old me }
        ensures after { InEachWorld self.old (λ world output past losses.
            OnOk result (WorldStateAfter world output
            (reverse (line_with_interrupts world past losses (Line.State me value)) ++ past) losses self.new)) }
        ensures seated { (q : ℕ) → HasPeer self.old q → HasPeer self.new q }
    {
        let effect = self.device.register_write(me, REGISTER_STATE, value);
        let deliveries = self.record_line(me, Line::State { peer: me, value }, effect)?;
        self.arrive(deliveries.as_slice())
    }

    /// Writes a peer's Doorbell.
    pub fn ring(&mut self, me: u32, target: u32, vector: u32) -> Result<(), NoMemory>
        requires seated { HasPeer self.old me }
        requires target { target < 2 ^ 16 }
        requires vector { vector < 2 ^ 16 }
        ensures after { InEachWorld self.old (λ world output past losses.
            OnOk result (WorldStateAfter world output
            (reverse (line_with_interrupts world past losses (Line.Doorbell me target vector)) ++ past)
            losses self.new)) }
        ensures seated { (q : ℕ) → HasPeer self.old q → HasPeer self.new q }
    {
        let word = doorbell_word(target, vector);
        let effect = self.device.register_write(me, REGISTER_DOORBELL, word);
        let line = Line::Doorbell {
            peer: me,
            target,
            vector,
        };
        let deliveries = self.record_line(me, line, effect)?;
        self.arrive(deliveries.as_slice())
    }

    /// Resets the device of a peer.
    pub fn reset(&mut self, me: u32) -> Result<(), NoMemory>
        requires { HasPeer self.old me }
        ensures after { InEachWorld self.old (λ world output past losses.
            OnOk result (WorldStateAfter world output
            (reverse (line_with_interrupts world past losses (Reset me)) ++ past) losses self.new)) }
        ensures seated { (q : ℕ) → HasPeer self.old q → HasPeer self.new q }
    {
        let effect = self.device.reset(me);
        let deliveries = self.record_line(me, Line::Reset { peer: me }, effect)?;
        self.arrive(deliveries.as_slice())
    }

    /// Performs an access of a peer and records it with the interrupts that it causes. Returns the
    /// value read, or 0.
    #[inline(always)]
    pub fn perform(&mut self, me: u32, access: Access) -> Result<u32, NoMemory>
        requires seated { HasPeer self.old me }
        requires can { CanPerform self.old me access }
        ensures after { InEachWorld self.old (λ world output past losses.
            IfOk result (λ value. GaveLast past access value
            × WorldStateAfter world output
            (reverse (accessed world past losses me access value) ++ past) losses self.new)) }
        ensures seated { (q : ℕ) → HasPeer self.old q → HasPeer self.new q }
    {
        match access {
            Access::Read(word) => self.read(me, word),
            Access::Write(word, value) => {
                self.write(me, word, value)?;
                Ok(0)
            }
            Access::State(state) => {
                self.set_state(me, state)?;
                Ok(0)
            }
            Access::Ring { target, vector } => {
                self.ring(me, target, vector)?;
                Ok(0)
            }
            Access::Nothing => Ok(0),
        }
    }
}
