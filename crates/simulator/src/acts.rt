//! The acts that change the world state alone.
ghost use Rattle.std.specs.Prelude.{◌≡◌, ◌≢◌, ◌<◌, ◌-◌, ◌^◌, ℕ, true, OnOk, slice_index};
ghost use Rattle.pci_space.specs.Fields.{is_access};
ghost use Rattle.section_map.specs.Geometry.{word_count};
ghost use Rattle.split_ring.specs.declared.steps.Access.TheVariants.{Read, Write, State, Ring};
ghost use Rattle.lawful_history.specs.Schedule.{RegionAccessed, DeviceAccessed, InterruptDropped, InterruptRepeated, ReadsConfig, WritesConfig, ReadsRegister, WritesRegister, ReadsMsix, WritesMsix, register_event};
ghost use Rattle.simulator.specs.WorldState.{HasPeer};
ghost use Rattle.simulator.specs.Simulator.{Happens};
ghost use Rattle.pci_space.specs.declared.sizes.TheConstants.{SPACE_LEN};

use crate::simulator::Simulator;
use doorbell_irq::{REGISTER_DOORBELL, REGISTER_STATE, doorbell_target, doorbell_vector};
use ivs_base::NoMemory;

impl Simulator {
    /// Plays `poke`: the peer writes a word, or is denied the write if it may not write the word.
    pub fn poke(&mut self, peer: u32, word: u32, value: u32) -> Result<(), NoMemory>
        requires { HasPeer self.old.world_state peer }
        ensures { OnOk result (Happens (RegionAccessed peer (Write word value)) self.old self.new) }
    {
        self.world_state.poke(peer, word, value)
    }

    /// Plays `peek`: the peer reads a word.
    pub fn peek(&mut self, peer: u32, word: u32) -> Result<(), NoMemory>
        requires seated { HasPeer self.old.world_state peer }
        requires inside { word < word_count self.old.world_state.region.shape }
        ensures { OnOk result (Happens (RegionAccessed peer (Read word)) self.old self.new) }
    {
        self.world_state.read(peer, word)?;
        Ok(())
    }

    /// Plays a write of State.
    pub fn set(&mut self, peer: u32, value: u32) -> Result<(), NoMemory>
        requires { HasPeer self.old.world_state peer }
        ensures { OnOk result (Happens (RegionAccessed peer (State value)) self.old self.new) }
    {
        self.world_state.set_state(peer, value)
    }

    /// Plays a write of the Doorbell.
    pub fn ring(&mut self, peer: u32, target: u32, vector: u32) -> Result<(), NoMemory>
        requires seated { HasPeer self.old.world_state peer }
        requires target { target < 2 ^ 16 }
        requires vector { vector < 2 ^ 16 }
        ensures { OnOk result (Happens (RegionAccessed peer (Ring target vector)) self.old self.new) }
    {
        self.world_state.ring(peer, target, vector)
    }

    /// Plays a read of the peer's configuration space.
    pub fn read_config(&mut self, peer: u32, offset: u16, width: u16) -> Result<(), NoMemory>
        requires seated { HasPeer self.old.world_state peer }
        requires access { is_access SPACE_LEN offset width ≡ true }
        ensures { OnOk result (Happens (DeviceAccessed peer (ReadsConfig offset width)) self.old self.new) }
    {
        self.world_state.read_config(peer, offset, width)
    }

    /// Plays a write of the peer's configuration space.
    pub fn write_config(
        &mut self,
        peer: u32,
        offset: u16,
        width: u16,
        value: u32,
    ) -> Result<(), NoMemory>
        requires seated { HasPeer self.old.world_state peer }
        requires access { is_access SPACE_LEN offset width ≡ true }
        ensures { OnOk result (Happens (DeviceAccessed peer (WritesConfig offset width value)) self.old self.new) }
    {
        self.world_state.write_config(peer, offset, width, value)
    }

    /// Plays a read of a register.
    pub fn read_register(&mut self, peer: u32, offset: u32) -> Result<(), NoMemory>
        requires { HasPeer self.old.world_state peer }
        ensures { OnOk result (Happens (DeviceAccessed peer (ReadsRegister offset)) self.old self.new) }
    {
        self.world_state.read_register(peer, offset)
    }

    /// Plays a write of a register that is neither State nor the Doorbell.
    fn write_other_register(&mut self, peer: u32, offset: u32, value: u32) -> Result<(), NoMemory>
        requires { HasPeer self.old.world_state peer }
        ensures { OnOk result (Happens (DeviceAccessed peer (WritesRegister offset value)) self.old self.new) }
    {
        self.world_state.write_register(peer, offset, value)
    }

    /// Plays a write of a register. A write of State or of the Doorbell is recorded as such.
    // claim: A register write is State, the Doorbell or neither, by its offset.
    pub fn write_register(&mut self, peer: u32, offset: u32, value: u32) -> Result<(), NoMemory>
        requires { HasPeer self.old.world_state peer }
        ensures { OnOk result (Happens (register_event peer offset value) self.old self.new) }
    {
        if offset == REGISTER_STATE {
            self.set(peer, value)
        } else if offset == REGISTER_DOORBELL {
            self.ring(peer, doorbell_target(value), doorbell_vector(value))
        } else {
            self.write_other_register(peer, offset, value)
        }
    }

    /// Plays a read of the MSI-X region.
    pub fn read_msix(&mut self, peer: u32, offset: u32) -> Result<(), NoMemory>
        requires { HasPeer self.old.world_state peer }
        ensures { OnOk result (Happens (DeviceAccessed peer (ReadsMsix offset)) self.old self.new) }
    {
        self.world_state.read_msix(peer, offset)
    }

    /// Plays a write of the MSI-X region.
    pub fn write_msix(&mut self, peer: u32, offset: u32, value: u32) -> Result<(), NoMemory>
        requires { HasPeer self.old.world_state peer }
        ensures { OnOk result (Happens (DeviceAccessed peer (WritesMsix offset value)) self.old self.new) }
    {
        self.world_state.write_msix(peer, offset, value)
    }

    /// Adds one to the interrupts that the peer is to lose.
    pub fn lose(&mut self, peer: u32)
        requires seated { HasPeer self.old.world_state peer }
        requires room { slice_index self.old.world_state.unspent peer < 2 ^ 64 - 1 }
        ensures { Happens (InterruptDropped peer) self.old self.new }
    {
        self.world_state.lose(peer);
    }

    /// Repeats an interrupt at the peer, regardless of its registers.
    pub fn repeat(&mut self, peer: u32, vector: u32) -> Result<(), NoMemory>
        ensures { OnOk result (Happens (InterruptRepeated peer vector) self.old self.new) }
    {
        self.world_state.repeat(peer, vector)
    }
}
