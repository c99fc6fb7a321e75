//! The devices of a world, with room for 8 peers and 64 vectors each.
ghost use Rattle.std.specs.Prelude.{◌≡◌, ◌<◌, ◌≤◌, ◌↔◌, ℕ, List, [], ◌∷◌, IsOk, IsTrue, IfOk, IfErr, OnOk};
ghost use Rattle.pci_space.specs.Numbers.{number_from};
ghost use Rattle.pci_space.specs.Fields.{is_access};
ghost use Rattle.pci_space.specs.Wiring.{IsWiring};
ghost use Rattle.pci_space.specs.Place.{usual_place};
ghost use Rattle.doorbell_irq.specs.Events.{Devices, Event, ConfigWritten, RegisterWritten, MsixWritten, WasReset, WasDisconnected, WasConnected, Config, vector_count};
ghost use Rattle.doorbell_irq.specs.DeviceRules.{bytes_after, register_at, msix_at};
ghost use Rattle.doorbell_irq.specs.Refinement.{Refines, Adds, HasEffect, peer_count};
ghost use Rattle.doorbell_irq.specs.Registers.{IsPeer};
ghost use Rattle.doorbell_irq.specs.Routes.{IsRoute};
ghost use Rattle.pci_space.specs.declared.sizes.TheConstants.{SPACE_LEN};

use crate::effect::Effect;
use crate::peers;
use crate::registers::{PeerDevice, entry_at_reset};
use crate::route::Route;
use pci_space::{BadAccess, Space, Wiring};
use section_map::Geometry;
use std::marker::Model;

/// The devices of the peers of a world, at most 8.
///
/// A contract says of which lists of events, the newest first, a device is the state. Each call
/// adds one event, and its result is that of the device's rules for this event. Every call
/// requires a peer below `peers`.
#[derive(Debug, Drop)]
pub struct Device {
    peers: u32,
    wiring: Wiring,
    registers: [PeerDevice<[Space<4, 16>; 64]>; 8],
}

impl Model for Device {
    ghost use Rattle.doorbell_irq.specs.DeviceView.{DeviceView, IsDeviceView};

    ghost Value = { DeviceView };

    ghost view = { λ d. record { peers = d.peers; wiring = d.wiring; registers = d.registers } };

    ghost invariant = { λ d. IsDeviceView (record { peers = d.peers; wiring = d.wiring; registers = d.registers }) };
}

impl Device {
    /// Returns the devices of a world in which all peers are connected and at reset.
    // claim: A new device has seen no event: all peers are connected, with their registers at
    //    reset.
    pub fn new(geometry: &Geometry, wiring: Wiring) -> Device
        requires few { geometry.now.peers ≤ 8 }
        requires wired { IsWiring wiring }
        ensures { Refines (record { shape = geometry.now; wiring = wiring; region = usual_place }) [] result }
    {
        let registers = [
            peer_at_reset(geometry, wiring, 0),
            peer_at_reset(geometry, wiring, 1),
            peer_at_reset(geometry, wiring, 2),
            peer_at_reset(geometry, wiring, 3),
            peer_at_reset(geometry, wiring, 4),
            peer_at_reset(geometry, wiring, 5),
            peer_at_reset(geometry, wiring, 6),
            peer_at_reset(geometry, wiring, 7),
        ];
        Device {
            peers: geometry.peers(),
            wiring,
            registers,
        }
    }

    /// Returns the number of peers.
    pub fn peers(&self) -> u32
        ensures { result ≡ peer_count self.now }
    {
        self.peers
    }

    /// Reads a peer's configuration space.
    ///
    /// Returns `BadAccess` exactly if the width isn't 1, 2 or 4, the offset is no multiple, or the
    /// access ends after byte 256.
    // claim allowed, value, refused with Device::config_write.allowed,
    //    Device::config_write.written, Device::config_write.refused: Configuration accesses are
    //    those of the space, at every offset and width.
    pub fn config_read(&self, peer: u32, offset: u16, width: u16) -> Result<u32, BadAccess>
        requires { peer < peer_count self.now }
        ensures allowed { IsOk result ↔ IsTrue (is_access SPACE_LEN offset width) }
        ensures value { (w : Devices) (events : List Event) → Refines w events self.now →
            IfOk result (λ v. v ≡ number_from (bytes_after w events peer Config) offset width) }
        ensures refused { IfErr result (λ e. e ≡ record { offset = offset; width = width }) }
    {
        peers::config_read(
            &self.registers[..],
            self.peers,
            self.wiring,
            peer,
            offset,
            width,
        )
    }

    /// Writes a peer's configuration space.
    ///
    /// Returns `BadAccess` under the conditions of `config_read`; nothing has changed then.
    // claim each peers: No call changes the number of peers.
    pub fn config_write(
        &mut self,
        peer: u32,
        offset: u16,
        width: u16,
        value: u32,
    ) -> Result<(), BadAccess>
        requires { peer < peer_count self.old }
        ensures allowed { IsOk result ↔ IsTrue (is_access SPACE_LEN offset width) }
        ensures written { (w : Devices) (events : List Event) → Refines w events self.old →
            OnOk result (Refines w (ConfigWritten peer offset width value ∷ events) self.new) }
        ensures refused { IfErr result (λ e. (e ≡ record { offset = offset; width = width }) × (self.new ≡ self.old)) }
        ensures peers { peer_count self.new ≡ peer_count self.old }
    {
        peers::config_write(
            &mut self.registers[..],
            self.peers,
            self.wiring,
            peer,
            offset,
            width,
            value,
        )
    }

    /// Reads an aligned word of a peer's register page. Every other offset reads 0.
    // claim: A register reads as the events up to now left it.
    pub fn register_read(&self, peer: u32, offset: u32) -> u32
        requires { peer < peer_count self.now }
        ensures { (w : Devices) (events : List Event) → Refines w events self.now →
            result ≡ register_at (bytes_after w events peer) offset }
    {
        peers::register_read(&self.registers[..], self.peers, self.wiring, peer, offset)
    }

    /// Writes an aligned word of a peer's register page.
    ///
    /// Interrupt Control and State store the value, and the Doorbell triggers its target. A write
    /// at every other offset is ignored.
    // claim effect, refines: A register write has the effect of the rules: State, Doorbell and
    //    Interrupt Control, and no effect at another offset. A trigger is delivered exactly if the
    //    target's registers allow it. One-shot mode clears Interrupt Control at each delivery.
    //    Deliveries come in ascending order of peer.
    pub fn register_write(&mut self, peer: u32, offset: u32, value: u32) -> Effect
        requires { peer < peer_count self.old }
        ensures effect { HasEffect self.old (RegisterWritten peer offset value) result }
        ensures refines { Adds (RegisterWritten peer offset value) self.old self.new }
        ensures peers { peer_count self.new ≡ peer_count self.old }
    {
        peers::register_write(
            &mut self.registers[..],
            self.peers,
            self.wiring,
            peer,
            offset,
            value,
        )
    }

    /// Returns which doorbells a peer's registers let through.
    // claim: In a peer's route, bit N below 64 is set exactly if a trigger with vector N would be
    //    delivered with Interrupt Control bit 0 set. The route also has how interrupts come,
    //    whether a delivery clears Interrupt Control, and whether bit 0 is set.
    pub fn route(&self, peer: u32) -> Route
        requires { peer < peer_count self.now }
        ensures { (w : Devices) (events : List Event) → Refines w events self.now → IsRoute w events peer result }
    {
        peers::route(&self.registers[..], self.peers, self.wiring, peer)
    }

    /// Reads an aligned word of a peer's MSI-X table. Every other offset reads 0.
    // claim with Device::msix_write.refines: The MSI-X region keeps aligned words of the table's
    //    entries, and nothing else.
    pub fn msix_read(&self, peer: u32, offset: u32) -> u32
        requires { peer < peer_count self.now }
        ensures { (w : Devices) (events : List Event) → Refines w events self.now →
            result ≡ msix_at w.wiring (bytes_after w events peer) offset }
    {
        peers::msix_read(&self.registers[..], self.peers, self.wiring, peer, offset)
    }

    /// Writes an aligned word of a peer's MSI-X table. A write at every other offset is ignored.
    pub fn msix_write(&mut self, peer: u32, offset: u32, value: u32)
        requires { peer < peer_count self.old }
        ensures refines { Adds (MsixWritten peer offset value) self.old self.new }
        ensures peers { peer_count self.new ≡ peer_count self.old }
    {
        peers::msix_write(
            &mut self.registers[..],
            self.peers,
            self.wiring,
            peer,
            offset,
            value,
        );
    }

    /// Sets all registers of a peer to their reset values.
    ///
    /// The peer's State is 0 then. If it was another value, all other peers are triggered.
    // claim effect, refines: A reset gives every register of the peer its reset value, and triggers
    //    the others if the State changes.
    pub fn reset(&mut self, peer: u32) -> Effect
        requires { peer < peer_count self.old }
        ensures effect { HasEffect self.old (WasReset peer) result }
        ensures refines { Adds (WasReset peer) self.old self.new }
        ensures peers { peer_count self.new ≡ peer_count self.old }
    {
        peers::reset(&mut self.registers[..], self.peers, self.wiring, peer)
    }

    /// Resets a peer and disconnects it: nothing is delivered to it until it is connected again.
    // claim effect, refines with Device::connect.refines: Nothing is delivered to a disconnected
    //    peer.
    pub fn disconnect(&mut self, peer: u32) -> Effect
        requires { peer < peer_count self.old }
        ensures effect { HasEffect self.old (WasDisconnected peer) result }
        ensures refines { Adds (WasDisconnected peer) self.old self.new }
        ensures peers { peer_count self.new ≡ peer_count self.old }
    {
        peers::disconnect(&mut self.registers[..], self.peers, self.wiring, peer)
    }

    /// Connects a peer again, at reset. No peer is triggered: a disconnected peer has State 0
    /// already.
    pub fn connect(&mut self, peer: u32)
        requires { peer < peer_count self.old }
        ensures refines { Adds (WasConnected peer) self.old self.new }
        ensures peers { peer_count self.new ≡ peer_count self.old }
    {
        peers::connect(&mut self.registers[..], self.peers, self.wiring, peer);
    }
}

/// Returns the device of one connected peer at reset, with an MSI-X table of 64 entries.
fn peer_at_reset(geometry: &Geometry, wiring: Wiring, peer: u32) -> PeerDevice<[Space<4, 16>; 64]>
    requires { IsWiring wiring }
    ensures { IsPeer (record { shape = geometry.now; wiring = wiring; region = usual_place }) [] peer result }
{
    PeerDevice::new(geometry, wiring, peer, [entry_at_reset(); 64])
}
