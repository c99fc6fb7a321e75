//! The registers of one peer.
ghost use Rattle.std.specs.Prelude.{length, slice_get, ◌≡◌, ◌<◌, ◌≤◌, ◌^◌, ◌↔◌, if◌then◌else◌, ℕ, true, false, [], None, Some, slice_index, IsOk, IsTrue, OnOk, IfOk, IfErr};
ghost use Rattle.pci_space.specs.Numbers.{number_from};
ghost use Rattle.pci_space.specs.Fields.{Contents, is_access, reset_byte};
ghost use Rattle.pci_space.specs.Wiring.{IsWiring};
ghost use Rattle.pci_space.specs.Place.{IsRegionPlace, usual_place};
ghost use Rattle.pci_space.specs.Device.{row};
ghost use Rattle.doorbell_irq.specs.Events.{Entry, page_rows, entry_rows, vector_count};
ghost use Rattle.doorbell_irq.specs.DeviceRules.{bit, state_in, is_enabled, is_one_shot, lets_through, vector_by, register_vector, page_write, entry_write, register_at, msix_at};
ghost use Rattle.doorbell_irq.specs.Registers.{register_bytes, delivery_at, Writes, Takes, IsPeer, IsReset, IsEntryAtReset};
ghost use Rattle.doorbell_irq.specs.Triggers.{vector_at};
ghost use Rattle.doorbell_irq.specs.Routes.{would_be_delivered, is_intx};
ghost use Rattle.pci_space.specs.declared.sizes.TheConstants.{SPACE_LEN};

use crate::doorbell::{REGISTER_DOORBELL, REGISTER_STATE};
use crate::msix_table::MsixTable;
use crate::route::Route;
use crate::trigger::Trigger;
use pci_space::{
    BadAccess, ConfigSpace, Field, RegionPlace, Space, Wiring, placed_space, table_of,
};
use section_map::Geometry;
use std::marker::Model;

/// The protocol number in the configuration space.
const PROTOCOL: u16 = 0x0001;

/// Offsets in the configuration space.
const COMMAND: u16 = 0x04;

const PRIVILEGED_CONTROL: u16 = 0x43;

const MESSAGE_CONTROL: u16 = 0x62;

/// Offsets in the register page.
const REGISTER_INTERRUPT_CONTROL: u32 = 0x08;

const INTERRUPT_CONTROL: u16 = REGISTER_INTERRUPT_CONTROL as u16;

const DOORBELL: u16 = REGISTER_DOORBELL as u16;

const STATE: u16 = REGISTER_STATE as u16;

/// Offset of Vector Control in an MSI-X entry.
const VECTOR_CONTROL: u16 = 0x0C;

/// The device of one peer: its configuration space, its register page and its MSI-X table.
#[derive(Debug, Drop)]
pub struct PeerDevice<E: MsixTable + Drop> {
    pub(crate) connected: bool,
    pub(crate) config: ConfigSpace,
    pub(crate) page: Space<5, 20>,
    pub(crate) entries: E,
}

impl<E: MsixTable + Drop> Model for PeerDevice<E> {
    ghost use Rattle.doorbell_irq.specs.Peer.{Registers};

    ghost Value = { Registers };

    ghost view = { λ r. record { connected = r.connected; config = r.config; page = r.page; entries = E.entries r.entries } };
}

impl<E: MsixTable + Drop> PeerDevice<E> {
    /// Returns the device of a connected peer at reset, with the region at the usual base address.
    /// Requires that the MSI-X table is at reset.
    // claim with PeerDevice::placed, Device::peers, entry_at_reset.rows, entry_at_reset.bytes: A
    //    new peer's device, and a new MSI-X entry, is at reset. A device has the peers of its
    //    geometry.
    pub fn new(geometry: &Geometry, wiring: Wiring, peer: u32, entries: E) -> PeerDevice<E>
        requires wired { IsWiring wiring }
        requires count { vector_count wiring ≤ length (E.entries entries) }
        requires reset { (n : ℕ) (entry : Contents) → slice_get (E.entries entries) n ≡ Some entry →
            IsEntryAtReset entry }
        ensures { IsPeer (record { shape = geometry.now; wiring = wiring; region = usual_place }) [] peer result }
    {
        PeerDevice::placed(geometry, wiring, RegionPlace::usual(), peer, entries)
    }

    /// Returns the device of a connected peer at reset, with the region at this place. Requires
    /// that the MSI-X table is at reset.
    pub fn placed(
        geometry: &Geometry,
        wiring: Wiring,
        region: RegionPlace,
        peer: u32,
        entries: E,
    ) -> PeerDevice<E>
        requires wired { IsWiring wiring }
        requires placed { IsRegionPlace region }
        requires count { vector_count wiring ≤ length (E.entries entries) }
        requires reset { (n : ℕ) (entry : Contents) → slice_get (E.entries entries) n ≡ Some entry →
            IsEntryAtReset entry }
        ensures { IsPeer (record { shape = geometry.now; wiring = wiring; region = region }) [] peer result }
    {
        PeerDevice {
            connected: true,
            config: placed_space(geometry, PROTOCOL, wiring, region),
            page: page_at_reset(geometry.peers(), peer),
            entries,
        }
    }

    /// Resets this peer, and disconnects it if `disconnects` is set. Returns which peers its new
    /// State triggers.
    pub(crate) fn reset(&mut self, peer: u32, disconnects: bool) -> Trigger
        ensures reset { IsReset self.old (if disconnects then false else self.old.connected) self.new }
        ensures triggers { (other : ℕ) →
            vector_at result other ≡ vector_by (state_in (register_bytes self.old)) peer 0 other }
    {
        let old = self.state();
        self.clear();
        if disconnects {
            self.connected = false;
        }
        Trigger::by_state(peer, old, 0)
    }

    /// Resets this peer and connects it.
    pub(crate) fn connect(&mut self)
        ensures { IsReset self.old true self.new }
    {
        self.clear();
        self.connected = true;
    }

    /// Sets every register to its reset value.
    fn clear(&mut self)
        ensures { IsReset self.old self.old.connected self.new }
    {
        self.config.reset();
        self.page.reset();
        self.entries.reset();
    }

    /// Returns the State register.
    pub(crate) fn state(&self) -> u32
        ensures { result ≡ state_in (register_bytes self.now) }
    {
        self.page.read(STATE, 4).unwrap_or(0)
    }

    /// Reads the register page.
    pub(crate) fn read_register(&self, offset: u32) -> u32
        ensures { result ≡ register_at (register_bytes self.now) offset }
    {
        if offset >= 20 {
            return 0;
        }
        self.page.read(offset as u16, 4).unwrap_or(0)
    }

    /// Reads the MSI-X region.
    pub(crate) fn read_entry(&self, wiring: Wiring, offset: u32) -> u32
        ensures { result ≡ msix_at wiring (register_bytes self.now) offset }
    {
        let n = offset / 16;
        if offset % 4 != 0 || n >= entry_count(wiring) {
            return 0;
        }
        self.entries.word(n, (offset % 16) as u16)
    }

    /// Reads the configuration space.
    pub(crate) fn read_config(&self, offset: u16, width: u16) -> Result<u32, BadAccess>
        ensures allowed { IsOk result ↔ IsTrue (is_access SPACE_LEN offset width) }
        ensures value { IfOk result (λ v. v ≡ number_from (slice_index self.now.config.bytes) offset width) }
        ensures refused { IfErr result (λ e. e ≡ record { offset = offset; width = width }) }
    {
        self.config.read(offset, width)
    }

    /// Writes the configuration space.
    pub(crate) fn write_config(
        &mut self,
        offset: u16,
        width: u16,
        value: u32,
    ) -> Result<(), BadAccess>
        ensures allowed { IsOk result ↔ IsTrue (is_access SPACE_LEN offset width) }
        ensures written { OnOk result
            (Writes (Some (record { offset = offset; width = width; value = value })) None (λ n. None) self.old self.new) }
        ensures refused { IfErr result (λ e. (e ≡ record { offset = offset; width = width }) × (self.new ≡ self.old)) }
    {
        self.config.write(offset, width, value)
    }

    /// Writes the register page. Returns which peers the write triggers.
    pub(crate) fn write_register(&mut self, peer: u32, offset: u32, value: u32) -> Trigger
        ensures written { Writes None (page_write offset value) (λ n. None) self.old self.new }
        ensures triggers { (other : ℕ) →
            vector_at result other ≡ register_vector (state_in (register_bytes self.old)) peer offset value other }
    {
        match offset {
            REGISTER_INTERRUPT_CONTROL => {
                let _ = self.page.write(INTERRUPT_CONTROL, 4, value);
                Trigger::Nobody
            }
            REGISTER_DOORBELL => Trigger::by_doorbell(value),
            REGISTER_STATE => {
                let old = self.state();
                let _ = self.page.write(STATE, 4, value);
                Trigger::by_state(peer, old, value)
            }
            _ => Trigger::Nobody,
        }
    }

    /// Writes the MSI-X region.
    pub(crate) fn write_entry(&mut self, wiring: Wiring, offset: u32, value: u32)
        ensures { Writes None None (entry_write wiring offset value) self.old self.new }
    {
        let n = offset / 16;
        if offset % 4 == 0 && n < entry_count(wiring) {
            self.entries.write(n, (offset % 16) as u16, value);
        }
    }

    /// Processes a trigger, if there is one, and returns the vector that is delivered.
    ///
    /// A trigger that the registers do not let through is dropped.
    pub(crate) fn take(&mut self, wiring: Wiring, trigger: Option<u32>) -> Option<u32>
        ensures gives { result ≡ delivery_at wiring self.old trigger }
        ensures takes { Takes wiring trigger self.old self.new }
    {
        let vector = trigger?;
        if !self.connected || !self.is_enabled() || !self.lets_through(wiring, vector) {
            return None;
        }
        let reported = match wiring {
            Wiring::Msix(_) => vector,
            Wiring::Intx => 0,
        };
        if self.is_one_shot() {
            let _ = self.page.write(INTERRUPT_CONTROL, 4, 0);
        }
        Some(reported)
    }

    /// Returns which doorbells this peer's registers let through.
    pub(crate) fn route(&self, wiring: Wiring) -> Route
        ensures vectors { (n : ℕ) → n < 64 →
            bit result.vectors n ≡ would_be_delivered wiring self.now.connected (register_bytes self.now) n }
        ensures intx { result.intx ≡ is_intx wiring }
        ensures one_shot { result.one_shot ≡ is_one_shot (register_bytes self.now) }
        ensures enabled { result.enabled ≡ is_enabled (register_bytes self.now) }
    {
        Route {
            vectors: self.vectors(wiring),
            intx: matches!(wiring, Wiring::Intx),
            one_shot: self.is_one_shot(),
            enabled: self.is_enabled(),
        }
    }

    /// Returns one bit for each vector: whether a trigger with it would be delivered if interrupts
    /// were enabled.
    fn vectors(&self, wiring: Wiring) -> u64
        ensures { (n : ℕ) → n < 64 →
            bit result n ≡ would_be_delivered wiring self.now.connected (register_bytes self.now) n }
    {
        let mut vectors = 0;
        for vector in 0..64 {
            if self.would_take(wiring, vector) {
                vectors |= 1 << vector;
            }
        }
        vectors
    }

    /// Whether a trigger with this vector would be delivered if interrupts were enabled.
    fn would_take(&self, wiring: Wiring, vector: u32) -> bool
        ensures { result ≡ would_be_delivered wiring self.now.connected (register_bytes self.now) vector }
    {
        self.connected && self.lets_through(wiring, vector)
    }

    /// Whether interrupts are enabled at the peer.
    fn is_enabled(&self) -> bool
        ensures { result ≡ is_enabled (register_bytes self.now) }
    {
        has_bit(byte_at(&self.page, INTERRUPT_CONTROL), 0)
    }

    /// Whether the peer is in one-shot mode.
    fn is_one_shot(&self) -> bool
        ensures { result ≡ is_one_shot (register_bytes self.now) }
    {
        has_bit(byte_at(&self.config, PRIVILEGED_CONTROL), 0)
    }

    /// Whether the configuration space and the MSI-X table let a vector through.
    fn lets_through(&self, wiring: Wiring, vector: u32) -> bool
        ensures { result ≡ lets_through wiring (register_bytes self.now) vector }
    {
        match wiring {
            Wiring::Msix(vectors) => {
                let command = byte_at(&self.config, COMMAND);
                let control = byte_at(&self.config, MESSAGE_CONTROL + 1);
                (has_bit(command, 2) || has_bit(command, 3))
                    && (has_bit(control, 7) && !has_bit(control, 6))
                    && (vector < vectors && !self.is_masked(vector))
            }
            Wiring::Intx => !has_bit(byte_at(&self.config, COMMAND + 1), 2),
        }
    }

    /// Whether the MSI-X entry of a vector is masked.
    fn is_masked(&self, vector: u32) -> bool
        ensures { result ≡ bit (register_bytes self.now (Entry vector) 0x0C) 0 }
    {
        self.entries.is_masked(vector)
    }
}

/// Returns the number of MSI-X entries.
fn entry_count(wiring: Wiring) -> u32
    ensures { result ≡ vector_count wiring }
{
    if let Wiring::Msix(vectors) = wiring {
        vectors
    } else {
        0
    }
}

/// Returns bit `i` of a byte.
fn has_bit(byte: u32, i: u32) -> bool
    requires { i < 8 }
    ensures { result ≡ bit byte i }
{
    byte >> i & 1 == 1
}

/// Returns a byte of a space.
fn byte_at<const N: usize, const B: usize>(space: &Space<N, B>, offset: u16) -> u32
    requires { offset < B }
    ensures { result ≡ slice_index space.now.bytes offset }
{
    space.read(offset, 1).unwrap_or(0)
}

/// Returns the register page of a peer at reset.
fn page_at_reset(peers: u32, peer: u32) -> Space<5, 20>
    ensures rows { result.rows ≡ page_rows peers peer }
    ensures bytes { (k : ℕ) → slice_index result.bytes k ≡ reset_byte (page_rows peers peer) k }
{
    let table = table_of(
        [
            word(0x00, peer, 0),
            word(0x04, peers, 0),
            word(INTERRUPT_CONTROL, 0, 1),
            word(DOORBELL, 0, 0),
            word(STATE, 0, 0xFFFF_FFFF),
        ],
        20,
    );
    Space::new(table)
}

/// Returns an MSI-X entry at reset.
pub fn entry_at_reset() -> Space<4, 16>
    ensures rows { result.rows ≡ entry_rows }
    ensures bytes { (k : ℕ) → slice_index result.bytes k ≡ reset_byte entry_rows k }
{
    let table = table_of(
        [
            word(0x00, 0, 0xFFFF_FFFF),
            word(0x04, 0, 0xFFFF_FFFF),
            word(0x08, 0, 0xFFFF_FFFF),
            word(VECTOR_CONTROL, 1, 1),
        ],
        16,
    );
    Space::new(table)
}

/// Returns a field of 4 bytes.
fn word(place: u16, reset: u32, mask: u32) -> Field
    ensures { result ≡ row place 4 reset mask }
{
    Field {
        place,
        width: 4,
        reset: u64::from(reset),
        mask: u64::from(mask),
    }
}
