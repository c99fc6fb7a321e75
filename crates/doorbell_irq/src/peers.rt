//! The calls of a device over a slice of peer devices, wherever the slice is stored.
//!
//! Each call names the number of peers, how interrupts are raised, and a peer below that number. A
//! slice may be longer: the registers past that number stay.
ghost use Rattle.std.specs.Prelude.{◌≡◌, ◌<◌, ◌≤◌, ◌↔◌, ℕ, List, ◌∷◌, IsOk, IsTrue, IfOk, IfErr, OnOk, length};
ghost use Rattle.pci_space.specs.Numbers.{number_from};
ghost use Rattle.pci_space.specs.Fields.{is_access};
ghost use Rattle.doorbell_irq.specs.Events.{Devices, Event, ConfigWritten, RegisterWritten, MsixWritten, WasReset, WasDisconnected, WasConnected, Config, doorbell_register};
ghost use Rattle.doorbell_irq.specs.DeviceRules.{bytes_after, reset_event, register_at, msix_at};
ghost use Rattle.doorbell_irq.specs.DeviceView.{IsDeviceView};
ghost use Rattle.doorbell_irq.specs.Refinement.{Refines, Adds, HasEffect, among};
ghost use Rattle.doorbell_irq.specs.Routes.{IsRoute};
ghost use Rattle.doorbell_irq.specs.Triggers.{doorbell_effect, KeepsPast};
ghost use Rattle.pci_space.specs.declared.sizes.TheConstants.{SPACE_LEN};

use crate::doorbell::{REGISTER_STATE, doorbell_target, doorbell_vector};
use crate::effect::{Delivery, Effect};
use crate::msix_table::MsixTable;
use crate::registers::PeerDevice;
use crate::route::Route;
use crate::trigger::{deliver, deliver_at};
use pci_space::{BadAccess, Wiring};

/// Reads a peer's configuration space.
///
/// Returns `BadAccess` exactly if the width isn't 1, 2 or 4, the offset is no multiple, or the
/// access ends after byte 256.
pub fn config_read<E: MsixTable + Drop>(
    registers: &[PeerDevice<E>],
    peers: u32,
    wiring: Wiring,
    peer: u32,
    offset: u16,
    width: u16,
) -> Result<u32, BadAccess>
    requires sound { IsDeviceView (among peers wiring registers.now) }
    requires count { peers ≤ length registers.now }
    requires inside { peer < peers }
    ensures allowed { IsOk result ↔ IsTrue (is_access SPACE_LEN offset width) }
    ensures value { (w : Devices) (events : List Event) → Refines w events (among peers wiring registers.now) →
        IfOk result (λ v. v ≡ number_from (bytes_after w events peer Config) offset width) }
    ensures refused { IfErr result (λ e. e ≡ record { offset = offset; width = width }) }
{
    registers[peer as usize].read_config(offset, width)
}

/// Writes a peer's configuration space.
///
/// Returns `BadAccess` under the conditions of `config_read`; nothing has changed then.
// claim each past: No call over a slice changes the registers past the first `peers`.
pub fn config_write<E: MsixTable + Drop>(
    registers: &mut [PeerDevice<E>],
    peers: u32,
    wiring: Wiring,
    peer: u32,
    offset: u16,
    width: u16,
    value: u32,
) -> Result<(), BadAccess>
    requires sound { IsDeviceView (among peers wiring registers.old) }
    requires count { peers ≤ length registers.old }
    requires inside { peer < peers }
    ensures allowed { IsOk result ↔ IsTrue (is_access SPACE_LEN offset width) }
    ensures written { (w : Devices) (events : List Event) → Refines w events (among peers wiring registers.old) →
        OnOk result (Refines w (ConfigWritten peer offset width value ∷ events) (among peers wiring registers.new)) }
    ensures refused { IfErr result
        (λ e. (e ≡ record { offset = offset; width = width }) × (registers.new ≡ registers.old)) }
    ensures count { length registers.new ≡ length registers.old }
    ensures past { KeepsPast peers registers.old registers.new }
{
    registers[peer as usize].write_config(offset, width, value)
}

/// Reads an aligned word of a peer's register page. Every other offset reads 0.
pub fn register_read<E: MsixTable + Drop>(
    registers: &[PeerDevice<E>],
    peers: u32,
    wiring: Wiring,
    peer: u32,
    offset: u32,
) -> u32
    requires sound { IsDeviceView (among peers wiring registers.now) }
    requires count { peers ≤ length registers.now }
    requires inside { peer < peers }
    ensures { (w : Devices) (events : List Event) → Refines w events (among peers wiring registers.now) →
        result ≡ register_at (bytes_after w events peer) offset }
{
    registers[peer as usize].read_register(offset)
}

/// Writes an aligned word of a peer's register page.
///
/// Interrupt Control and State store the value, and the Doorbell triggers its target. A write at
/// every other offset is ignored.
// claim effect, refines, count with config_read.allowed, config_read.value,
//    config_read.refused, config_write.allowed, config_write.written, config_write.refused,
//    config_write.count, register_read, ring.effect, ring.refines, ring.count, route, msix_read,
//    msix_write.refines, msix_write.count, reset.effect, reset.refines, reset.count,
//    disconnect.effect, disconnect.refines, disconnect.count, connect.refines, connect.count: A
//    slice of peers' devices of any length answers each call as `Device` does: by the device's
//    rules over all events before it. The number of peers stays.
#[inline(always)]
pub fn register_write<E: MsixTable + Drop>(
    registers: &mut [PeerDevice<E>],
    peers: u32,
    wiring: Wiring,
    peer: u32,
    offset: u32,
    value: u32,
) -> Effect
    requires sound { IsDeviceView (among peers wiring registers.old) }
    requires count { peers ≤ length registers.old }
    requires inside { peer < peers }
    ensures effect { HasEffect (among peers wiring registers.old) (RegisterWritten peer offset value) result }
    ensures refines { Adds (RegisterWritten peer offset value)
        (among peers wiring registers.old) (among peers wiring registers.new) }
    ensures count { length registers.new ≡ length registers.old }
    ensures past { KeepsPast peers registers.old registers.new }
{
    let trigger = registers[peer as usize].write_register(peer, offset, value);
    Effect {
        state: (offset == REGISTER_STATE).then_some(value),
        deliveries: deliver(registers, peers, wiring, trigger),
    }
}

/// Writes a word to the Doorbell of a peer. Returns the delivery to its target, if there is one.
///
/// The effect is that of `register_write`, whatever peer the source is.
#[inline(always)]
pub fn ring<E: MsixTable + Drop>(
    registers: &mut [PeerDevice<E>],
    peers: u32,
    wiring: Wiring,
    word: u32,
) -> Option<Delivery>
    requires sound { IsDeviceView (among peers wiring registers.old) }
    requires count { peers ≤ length registers.old }
    ensures effect { (source : ℕ) → source < peers →
        HasEffect (among peers wiring registers.old) (RegisterWritten source doorbell_register word) (doorbell_effect result) }
    ensures refines { (source : ℕ) → source < peers →
        Adds (RegisterWritten source doorbell_register word) (among peers wiring registers.old) (among peers wiring registers.new) }
    ensures count { length registers.new ≡ length registers.old }
    ensures past { KeepsPast peers registers.old registers.new }
{
    deliver_at(
        registers,
        peers,
        wiring,
        doorbell_target(word),
        doorbell_vector(word),
    )
}

/// Returns which doorbells a peer's registers let through.
pub fn route<E: MsixTable + Drop>(
    registers: &[PeerDevice<E>],
    peers: u32,
    wiring: Wiring,
    peer: u32,
) -> Route
    requires sound { IsDeviceView (among peers wiring registers.now) }
    requires count { peers ≤ length registers.now }
    requires inside { peer < peers }
    ensures { (w : Devices) (events : List Event) → Refines w events (among peers wiring registers.now) →
        IsRoute w events peer result }
{
    registers[peer as usize].route(wiring)
}

/// Reads an aligned word of a peer's MSI-X table. Every other offset reads 0.
pub fn msix_read<E: MsixTable + Drop>(
    registers: &[PeerDevice<E>],
    peers: u32,
    wiring: Wiring,
    peer: u32,
    offset: u32,
) -> u32
    requires sound { IsDeviceView (among peers wiring registers.now) }
    requires count { peers ≤ length registers.now }
    requires inside { peer < peers }
    ensures { (w : Devices) (events : List Event) → Refines w events (among peers wiring registers.now) →
        result ≡ msix_at w.wiring (bytes_after w events peer) offset }
{
    registers[peer as usize].read_entry(wiring, offset)
}

/// Writes an aligned word of a peer's MSI-X table. A write at every other offset is ignored.
pub fn msix_write<E: MsixTable + Drop>(
    registers: &mut [PeerDevice<E>],
    peers: u32,
    wiring: Wiring,
    peer: u32,
    offset: u32,
    value: u32,
)
    requires sound { IsDeviceView (among peers wiring registers.old) }
    requires count { peers ≤ length registers.old }
    requires inside { peer < peers }
    ensures refines { Adds (MsixWritten peer offset value)
        (among peers wiring registers.old) (among peers wiring registers.new) }
    ensures count { length registers.new ≡ length registers.old }
    ensures past { KeepsPast peers registers.old registers.new }
{
    registers[peer as usize].write_entry(wiring, offset, value);
}

/// Sets all registers of a peer to their reset values.
///
/// The peer's State is 0 then. If it was another value, all other peers are triggered.
pub fn reset<E: MsixTable + Drop>(
    registers: &mut [PeerDevice<E>],
    peers: u32,
    wiring: Wiring,
    peer: u32,
) -> Effect
    requires sound { IsDeviceView (among peers wiring registers.old) }
    requires count { peers ≤ length registers.old }
    requires inside { peer < peers }
    ensures effect { HasEffect (among peers wiring registers.old) (WasReset peer) result }
    ensures refines { Adds (WasReset peer) (among peers wiring registers.old) (among peers wiring registers.new) }
    ensures count { length registers.new ≡ length registers.old }
    ensures past { KeepsPast peers registers.old registers.new }
{
    reset_by(registers, peers, wiring, peer, false)
}

/// Resets a peer and disconnects it: nothing is delivered to it until it is connected again.
pub fn disconnect<E: MsixTable + Drop>(
    registers: &mut [PeerDevice<E>],
    peers: u32,
    wiring: Wiring,
    peer: u32,
) -> Effect
    requires sound { IsDeviceView (among peers wiring registers.old) }
    requires count { peers ≤ length registers.old }
    requires inside { peer < peers }
    ensures effect { HasEffect (among peers wiring registers.old) (WasDisconnected peer) result }
    ensures refines { Adds (WasDisconnected peer)
        (among peers wiring registers.old) (among peers wiring registers.new) }
    ensures count { length registers.new ≡ length registers.old }
    ensures past { KeepsPast peers registers.old registers.new }
{
    reset_by(registers, peers, wiring, peer, true)
}

/// Resets a peer, and disconnects it if `disconnects` is set.
fn reset_by<E: MsixTable + Drop>(
    registers: &mut [PeerDevice<E>],
    peers: u32,
    wiring: Wiring,
    peer: u32,
    disconnects: bool,
) -> Effect
    requires sound { IsDeviceView (among peers wiring registers.old) }
    requires count { peers ≤ length registers.old }
    requires inside { peer < peers }
    ensures effect { HasEffect (among peers wiring registers.old) (reset_event disconnects peer) result }
    ensures refines { Adds (reset_event disconnects peer)
        (among peers wiring registers.old) (among peers wiring registers.new) }
    ensures count { length registers.new ≡ length registers.old }
    ensures past { KeepsPast peers registers.old registers.new }
{
    let trigger = registers[peer as usize].reset(peer, disconnects);
    Effect {
        state: Some(0),
        deliveries: deliver(registers, peers, wiring, trigger),
    }
}

/// Connects a peer again, at reset. No peer is triggered: a disconnected peer has State 0 already.
pub fn connect<E: MsixTable + Drop>(
    registers: &mut [PeerDevice<E>],
    peers: u32,
    wiring: Wiring,
    peer: u32,
)
    requires sound { IsDeviceView (among peers wiring registers.old) }
    requires count { peers ≤ length registers.old }
    requires inside { peer < peers }
    ensures refines { Adds (WasConnected peer) (among peers wiring registers.old) (among peers wiring registers.new) }
    ensures count { length registers.new ≡ length registers.old }
    ensures past { KeepsPast peers registers.old registers.new }
{
    registers[peer as usize].connect();
}
