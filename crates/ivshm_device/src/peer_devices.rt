//! The devices of a world, stored for exactly its peers and their vectors.
ghost use Rattle.std.specs.Prelude.{◌≡◌, ◌<◌, ◌≤◌, ◌↔◌, ℕ, List, [], ◌∷◌, IsOk, IsTrue, IfOk, IfErr, OnOk, Some, length, slice_get};
ghost use Rattle.pci_space.specs.Numbers.{number_from};
ghost use Rattle.pci_space.specs.Fields.{is_access};
ghost use Rattle.pci_space.specs.Wiring.{IsWiring};
ghost use Rattle.pci_space.specs.Place.{IsRegionPlace};
ghost use Rattle.doorbell_irq.specs.Peer.{Registers};
ghost use Rattle.doorbell_irq.specs.Events.{Devices, Event, ConfigWritten, RegisterWritten, MsixWritten, WasReset, WasDisconnected, WasConnected, Config, doorbell_register, vector_count};
ghost use Rattle.doorbell_irq.specs.DeviceRules.{bytes_after, register_at, msix_at};
ghost use Rattle.doorbell_irq.specs.Refinement.{Refines, Adds, HasEffect, peer_count};
ghost use Rattle.doorbell_irq.specs.Registers.{IsPeer};
ghost use Rattle.doorbell_irq.specs.Routes.{IsRoute};
ghost use Rattle.doorbell_irq.specs.Triggers.{doorbell_effect};
ghost use Rattle.pci_space.specs.declared.sizes.TheConstants.{SPACE_LEN, MOST_VECTORS};

use crate::entry_list::EntryList;
use doorbell_irq::{Delivery, Effect, PeerDevice, Route, peers};
use pci_space::{BadAccess, RegionPlace, Wiring};
use section_map::Geometry;
use std::alloc::{AllocError, Global};
use std::marker::Model;

/// The devices of the peers of a world, at most 8.
///
/// The contracts are those of `doorbell_irq::Device`, which has memory for 8 peers with 64 vectors.
#[derive(Drop)]
pub(crate) struct PeerDevices {
    peers: u32,
    wiring: Wiring,
    registers: Vec<PeerDevice<EntryList>>,
}

impl Model for PeerDevices {
    ghost use Rattle.std.specs.Prelude.{◌≤◌, length};
    ghost use Rattle.doorbell_irq.specs.DeviceView.{DeviceView, IsDeviceView};
    ghost use Rattle.doorbell_irq.specs.Refinement.{among};

    ghost Value = { DeviceView };

    ghost view = { λ d. among d.peers d.wiring d.registers.items };

    ghost invariant = { λ d. IsDeviceView (among d.peers d.wiring d.registers.items) × (d.peers ≤ length d.registers.items) };
}

/// Returns the number of entries of an MSI-X table.
fn vector_count(wiring: Wiring) -> u32
    ensures { result ≡ vector_count wiring }
{
    match wiring {
        Wiring::Msix(vectors) => vectors,
        Wiring::Intx => 0,
    }
}

/// Returns one device at reset for each peer of a geometry.
fn peers_at_reset(
    alloc: Global,
    geometry: &Geometry,
    wiring: Wiring,
    region: RegionPlace,
) -> Result<Vec<PeerDevice<EntryList>>, AllocError>
    requires wired { IsWiring wiring }
    requires placed { IsRegionPlace region }
    ensures count { IfOk result (λ v. length v.items ≡ geometry.now.peers) }
    ensures each { IfOk result (λ v. (peer : ℕ) (r : Registers) → slice_get v.items peer ≡ Some r →
        IsPeer (record { shape = geometry.now; wiring = wiring; region = region }) [] peer r) }
{
    let count = geometry.peers();
    let mut registers = Vec::with_capacity(alloc, count as usize)?;
    for peer in 0..count {
        let entries = EntryList::at_reset(alloc, vector_count(wiring))?;
        registers.push_reserved(PeerDevice::placed(geometry, wiring, region, peer, entries));
    }
    Ok(registers)
}

impl PeerDevices {
    /// Returns the devices of a world in which all peers are connected and at reset.
    pub(crate) fn new(
        alloc: Global,
        geometry: &Geometry,
        wiring: Wiring,
        region: RegionPlace,
    ) -> Result<PeerDevices, AllocError>
        requires few { geometry.now.peers ≤ 8 }
        requires wired { IsWiring wiring }
        requires placed { IsRegionPlace region }
        ensures { IfOk result (λ d. Refines (record { shape = geometry.now; wiring = wiring; region = region }) [] d) }
    {
        Ok(PeerDevices {
            peers: geometry.peers(),
            wiring,
            registers: peers_at_reset(alloc, geometry, wiring, region)?,
        })
    }

    /// Returns the number of peers.
    pub(crate) fn peers(&self) -> u32
        ensures { result ≡ peer_count self.now }
    {
        self.peers
    }

    /// Returns the number of MSI-X vectors of each peer: 0 with INTx.
    pub(crate) fn vectors(&self) -> u32
        ensures value { result ≡ vector_count self.now.wiring }
        ensures few { result ≤ MOST_VECTORS }
    {
        vector_count(self.wiring)
    }

    pub(crate) fn config_read(&self, peer: u32, offset: u16, width: u16) -> Result<u32, BadAccess>
        requires { peer < peer_count self.now }
        ensures allowed { IsOk result ↔ IsTrue (is_access SPACE_LEN offset width) }
        ensures value { (w : Devices) (events : List Event) → Refines w events self.now →
            IfOk result (λ v. v ≡ number_from (bytes_after w events peer Config) offset width) }
    {
        peers::config_read(
            &self.registers[..],
            self.peers,
            self.wiring,
            peer,
            offset,
            width,
        )
    }

    pub(crate) fn config_write(
        &mut self,
        peer: u32,
        offset: u16,
        width: u16,
        value: u32,
    ) -> Result<(), BadAccess>
        requires { peer < peer_count self.old }
        ensures allowed { IsOk result ↔ IsTrue (is_access SPACE_LEN offset width) }
        ensures written { (w : Devices) (events : List Event) → Refines w events self.old →
            OnOk result (Refines w (ConfigWritten peer offset width value ∷ events) self.new) }
        ensures refused { IfErr result (λ e. self.new ≡ self.old) }
    {
        peers::config_write(
            &mut self.registers[..],
            self.peers,
            self.wiring,
            peer,
            offset,
            width,
            value,
        )
    }

    pub(crate) fn register_read(&self, peer: u32, offset: u32) -> u32
        requires { peer < peer_count self.now }
        ensures { (w : Devices) (events : List Event) → Refines w events self.now →
            result ≡ register_at (bytes_after w events peer) offset }
    {
        peers::register_read(&self.registers[..], self.peers, self.wiring, peer, offset)
    }

    #[inline(always)]
    pub(crate) fn register_write(&mut self, peer: u32, offset: u32, value: u32) -> Effect
        requires { peer < peer_count self.old }
        ensures effect { HasEffect self.old (RegisterWritten peer offset value) result }
        ensures refines { Adds (RegisterWritten peer offset value) self.old self.new }
    {
        peers::register_write(
            &mut self.registers[..],
            self.peers,
            self.wiring,
            peer,
            offset,
            value,
        )
    }

    #[inline(always)]
    pub(crate) fn ring(&mut self, word: u32) -> Option<Delivery>
        ensures effect { (source : ℕ) → source < peer_count self.old →
            HasEffect self.old (RegisterWritten source doorbell_register word) (doorbell_effect result) }
        ensures refines { (source : ℕ) → source < peer_count self.old →
            Adds (RegisterWritten source doorbell_register word) self.old self.new }
    {
        peers::ring(&mut self.registers[..], self.peers, self.wiring, word)
    }

    pub(crate) fn route(&self, peer: u32) -> Route
        requires { peer < peer_count self.now }
        ensures { (w : Devices) (events : List Event) → Refines w events self.now → IsRoute w events peer result }
    {
        peers::route(&self.registers[..], self.peers, self.wiring, peer)
    }

    pub(crate) fn msix_read(&self, peer: u32, offset: u32) -> u32
        requires { peer < peer_count self.now }
        ensures { (w : Devices) (events : List Event) → Refines w events self.now →
            result ≡ msix_at w.wiring (bytes_after w events peer) offset }
    {
        peers::msix_read(&self.registers[..], self.peers, self.wiring, peer, offset)
    }

    pub(crate) fn msix_write(&mut self, peer: u32, offset: u32, value: u32)
        requires { peer < peer_count self.old }
        ensures refines { Adds (MsixWritten peer offset value) self.old self.new }
        ensures peers { peer_count self.new ≡ peer_count self.old }
    {
        peers::msix_write(
            &mut self.registers[..],
            self.peers,
            self.wiring,
            peer,
            offset,
            value,
        );
    }

    pub(crate) fn reset(&mut self, peer: u32) -> Effect
        requires { peer < peer_count self.old }
        ensures effect { HasEffect self.old (WasReset peer) result }
        ensures refines { Adds (WasReset peer) self.old self.new }
    {
        peers::reset(&mut self.registers[..], self.peers, self.wiring, peer)
    }

    pub(crate) fn disconnect(&mut self, peer: u32) -> Effect
        requires { peer < peer_count self.old }
        ensures effect { HasEffect self.old (WasDisconnected peer) result }
        ensures refines { Adds (WasDisconnected peer) self.old self.new }
    {
        peers::disconnect(&mut self.registers[..], self.peers, self.wiring, peer)
    }

    pub(crate) fn connect(&mut self, peer: u32)
        requires { peer < peer_count self.old }
        ensures { Adds (WasConnected peer) self.old self.new }
    {
        peers::connect(&mut self.registers[..], self.peers, self.wiring, peer);
    }
}
