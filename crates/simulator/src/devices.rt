//! A peer's direct accesses to its device: configuration space, register page and MSI-X region.
//! Repeated interrupts, and interrupts that are to be lost.
ghost use Rattle.std.specs.Prelude.{◌≡◌, ℕ, ◌<◌, ◌-◌, ◌^◌, List, ◌∷◌, true, OnOk, slice_index};
ghost use Rattle.pci_space.specs.Fields.{is_access};
ghost use Rattle.lawful_history.specs.declared.line.Line.TheVariants.{Interrupt};
ghost use Rattle.lawful_history.specs.Schedule.{InterruptDropped, ReadsConfig, WritesConfig, ReadsRegister, WritesRegister, ReadsMsix, WritesMsix};
ghost use Rattle.lawful_history.specs.Device.{losses_with};
ghost use Rattle.simulator.specs.WorldState.{InEachWorld, WorldStateAfter, HasPeer, AddsAccess};
ghost use Rattle.pci_space.specs.declared.sizes.TheConstants.{SPACE_LEN};

use crate::world_state::WorldState;
use ivs_base::NoMemory;
use lawful_history::Line;

impl WorldState {
    /// Reads the peer's configuration space.
    pub fn read_config(&mut self, me: u32, offset: u16, width: u16) -> Result<(), NoMemory>
        requires seated { HasPeer self.old me }
        requires access { is_access SPACE_LEN offset width ≡ true }
        ensures after { AddsAccess self.old self.new me (ReadsConfig offset width) result }
        ensures seated { (q : ℕ) → HasPeer self.old q → HasPeer self.new q }
    {
        match self.device.config_read(me, offset, width) {
            Ok(value) => {
                self.log.push(Line::ConfigRead {
                    peer: me,
                    offset: offset as u32,
                    width: width as u32,
                    value,
                })
            }
            Err(_) => unreachable!(),
        }
    }

    /// Writes the peer's configuration space.
    pub fn write_config(
        &mut self,
        me: u32,
        offset: u16,
        width: u16,
        value: u32,
    ) -> Result<(), NoMemory>
        requires seated { HasPeer self.old me }
        requires access { is_access SPACE_LEN offset width ≡ true }
        ensures after { AddsAccess self.old self.new me (WritesConfig offset width value) result }
        ensures seated { (q : ℕ) → HasPeer self.old q → HasPeer self.new q }
    {
        match self.device.config_write(me, offset, width, value) {
            Ok(()) => {
                self.log.push(Line::ConfigWrite {
                    peer: me,
                    offset: offset as u32,
                    width: width as u32,
                    value,
                })
            }
            Err(_) => unreachable!(),
        }
    }

    /// Reads a register of the peer.
    pub fn read_register(&mut self, me: u32, offset: u32) -> Result<(), NoMemory>
        requires { HasPeer self.old me }
        ensures after { AddsAccess self.old self.new me (ReadsRegister offset) result }
        ensures seated { (q : ℕ) → HasPeer self.old q → HasPeer self.new q }
    {
        let value = self.device.register_read(me, offset);
        self.log.push(Line::RegisterRead {
            peer: me,
            offset,
            value,
        })
    }

    /// Writes a register of the peer that is neither State nor the Doorbell, so that no peer is
    /// interrupted.
    pub fn write_register(&mut self, me: u32, offset: u32, value: u32) -> Result<(), NoMemory>
        requires { HasPeer self.old me }
        ensures after { AddsAccess self.old self.new me (WritesRegister offset value) result }
        ensures seated { (q : ℕ) → HasPeer self.old q → HasPeer self.new q }
    {
        let _ = self.device.register_write(me, offset, value);
        self.log.push(Line::RegisterWrite {
            peer: me,
            offset,
            value,
        })
    }

    /// Reads the peer's MSI-X region.
    pub fn read_msix(&mut self, me: u32, offset: u32) -> Result<(), NoMemory>
        requires { HasPeer self.old me }
        ensures after { AddsAccess self.old self.new me (ReadsMsix offset) result }
        ensures seated { (q : ℕ) → HasPeer self.old q → HasPeer self.new q }
    {
        let value = self.device.msix_read(me, offset);
        self.log.push(Line::MsixRead {
            peer: me,
            offset,
            value,
        })
    }

    /// Writes the peer's MSI-X region.
    pub fn write_msix(&mut self, me: u32, offset: u32, value: u32) -> Result<(), NoMemory>
        requires { HasPeer self.old me }
        ensures after { AddsAccess self.old self.new me (WritesMsix offset value) result }
        ensures seated { (q : ℕ) → HasPeer self.old q → HasPeer self.new q }
    {
        self.device.msix_write(me, offset, value);
        self.log.push(Line::MsixWrite {
            peer: me,
            offset,
            value,
        })
    }

    /// Repeats an interrupt at a peer, regardless of its registers.
    pub fn repeat(&mut self, me: u32, vector: u32) -> Result<(), NoMemory>
        ensures after { InEachWorld self.old (λ world output past losses.
            OnOk result (WorldStateAfter world output (Interrupt me vector ∷ past) losses self.new)) }
        ensures seated { (q : ℕ) → HasPeer self.old q → HasPeer self.new q }
    {
        self.record_mark(Line::Interrupt { peer: me, vector })
    }

    /// Adds one to the interrupts that the peer is to lose.
    pub fn lose(&mut self, me: u32)
        requires seated { HasPeer self.old me }
        requires room { slice_index self.old.unspent me < 2 ^ 64 - 1 }
        ensures after { InEachWorld self.old (λ world output past losses.
            WorldStateAfter world output past (losses_with (InterruptDropped me) losses) self.new) }
        ensures seated { (q : ℕ) → HasPeer self.old q → HasPeer self.new q }
    {
        self.unspent[me as usize] += 1;
    }
}
