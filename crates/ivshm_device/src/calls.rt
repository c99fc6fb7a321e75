//! The calls of the devices: each tests its arguments and returns a status.
ghost use Rattle.std.specs.Prelude.{◌≡◌, ◌≤◌, ◌^◌, IfOk, IfErr};
ghost use Rattle.doorbell_irq.specs.Events.{RegisterWritten, MsixWritten, WasReset, WasDisconnected, WasConnected};
ghost use Rattle.pci_space.specs.Wiring.{IsWiring};
ghost use Rattle.pci_space.specs.Place.{IsRegionPlace};
ghost use Rattle.ivshm_device.specs.Answers.{wiring_of, peer_answer, access_answer, WritesConfig, ReadsConfig, ReadsRegister, ReadsMsix, Changes, Acts, ReportsRoute, ReportsMessage, message_answer, is_width, window_answer, ReadsWindow, WritesWindow, IsPlaceOf, IsNew, RefusesNew};
ghost use Rattle.pci_space.specs.declared.sizes.TheConstants.{MOST_VECTORS};

use crate::crossing::{
    Access, Effect, Message, Route, World, cross_delivery, cross_effect, message_of, route_crossed,
};
use crate::device_state::DeviceState;
use crate::peer_devices::PeerDevices;
use crate::window::{REGISTER_PAGE, low_word, read_window, window_of, write_window};
use c_status::{Status, geometry_status};
use doorbell_irq::REGISTER_DOORBELL;
use pci_space::{MOST_VECTORS, RegionPlace, Wiring};
use section_map::Geometry;
use std::alloc::Global;

/// Returns the wiring of a number of vectors: 0 is INTx.
fn wiring_of(vectors: u32) -> Wiring
    requires { vectors ≤ MOST_VECTORS }
    ensures wiring { result ≡ wiring_of vectors }
    ensures few { IsWiring result }
{
    if vectors == 0 {
        Wiring::Intx
    } else {
        Wiring::Msix(vectors)
    }
}

/// Returns the place at which guests find a region of this size: its base, or with base 0 the
/// smallest window that holds it.
fn place_of(bytes: u64, base: u64) -> RegionPlace
    requires few { bytes ≤ 2 ^ 24 }
    requires some { 4096 ≤ bytes }
    ensures place { IsPlaceOf bytes base result }
    ensures kind { IsRegionPlace result }
{
    if base == 0 {
        RegionPlace::Bar2((bytes - 1).ilog2() + 1)
    } else {
        RegionPlace::Address(base)
    }
}

/// Makes the devices of a world. Returns the status of the first argument that is refused.
pub(crate) fn made(alloc: Global, world: &World) -> Result<Box<DeviceState>, Status>
    ensures made { IfOk result (λ state. IsNew world.now state.value) }
    ensures refused { IfErr result (RefusesNew world.now) }
{
    if world.vectors > MOST_VECTORS {
        return Err(Status::BadVectors);
    }
    if world.peers > 8 {
        return Err(Status::BadPeers);
    }
    let geometry = match Geometry::new(world.peers, world.table, world.common, world.out) {
        Ok(geometry) => geometry,
        Err(fault) => return Err(geometry_status(&fault)),
    };
    let bytes = 4 * u64::from(geometry.words());
    if world.base % 4096 != 0 || world.base > u64::MAX - (bytes - 1) {
        return Err(Status::BadBase);
    }
    let region = place_of(bytes, world.base);
    let Ok(device) = PeerDevices::new(alloc, &geometry, wiring_of(world.vectors), region) else {
        return Err(Status::NoMemory);
    };
    match Box::new(alloc, DeviceState { device }) {
        Ok(state) => Ok(state),
        Err(_) => Err(Status::NoMemory),
    }
}

/// Reads a configuration space.
pub(crate) fn config_read(
    state: &DeviceState,
    peer: u32,
    offset: u32,
    width: u32,
    value: &mut u32,
) -> Status
    ensures answer { result ≡ access_answer peer offset width state.now }
    ensures value { ReadsConfig peer offset width value.old value.new state.now }
{
    if peer >= state.device.peers() {
        return Status::BadPeer;
    }
    if offset > 255 || width > 4 {
        return Status::BadAccess;
    }
    match state.device.config_read(peer, offset as u16, width as u16) {
        Ok(found) => {
            *value = found;
            Status::Done
        }
        Err(_) => Status::BadAccess,
    }
}

/// Writes a configuration space.
pub(crate) fn config_write(
    state: &mut DeviceState,
    peer: u32,
    offset: u32,
    width: u32,
    value: u32,
) -> Status
    ensures answer { result ≡ access_answer peer offset width state.old }
    ensures step { WritesConfig peer offset width value state.old state.new }
{
    if peer >= state.device.peers() {
        return Status::BadPeer;
    }
    if offset > 255 || width > 4 {
        return Status::BadAccess;
    }
    match state
        .device
        .config_write(peer, offset as u16, width as u16, value)
    {
        Ok(()) => Status::Done,
        Err(_) => Status::BadAccess,
    }
}

/// Reads a register.
pub(crate) fn register_read(state: &DeviceState, peer: u32, offset: u32, value: &mut u32) -> Status
    ensures answer { result ≡ peer_answer peer state.now }
    ensures value { ReadsRegister peer offset value.old value.new state.now }
{
    if peer >= state.device.peers() {
        return Status::BadPeer;
    }
    *value = state.device.register_read(peer, offset);
    Status::Done
}

/// Writes a register.
#[inline(always)]
pub(crate) fn register_write(
    state: &mut DeviceState,
    peer: u32,
    offset: u32,
    value: u32,
    crossed: &mut Effect,
) -> Status
    ensures answer { result ≡ peer_answer peer state.old }
    ensures step { Acts peer (RegisterWritten peer offset value) crossed.old crossed.new state.old state.new }
{
    if peer >= state.device.peers() {
        return Status::BadPeer;
    }
    if offset == REGISTER_DOORBELL {
        cross_delivery(state.device.ring(value), crossed);
        Status::Done
    } else {
        let effect = state.device.register_write(peer, offset, value);
        cross_effect(&effect, crossed);
        Status::Done
    }
}

/// Reads the MSI-X region.
pub(crate) fn msix_read(state: &DeviceState, peer: u32, offset: u32, value: &mut u32) -> Status
    ensures answer { result ≡ peer_answer peer state.now }
    ensures value { ReadsMsix peer offset value.old value.new state.now }
{
    if peer >= state.device.peers() {
        return Status::BadPeer;
    }
    *value = state.device.msix_read(peer, offset);
    Status::Done
}

/// Writes the MSI-X region.
pub(crate) fn msix_write(state: &mut DeviceState, peer: u32, offset: u32, value: u32) -> Status
    ensures answer { result ≡ peer_answer peer state.old }
    ensures step { Changes peer (MsixWritten peer offset value) state.old state.new }
{
    if peer >= state.device.peers() {
        return Status::BadPeer;
    }
    state.device.msix_write(peer, offset, value);
    Status::Done
}

/// Resets a peer.
pub(crate) fn reset(state: &mut DeviceState, peer: u32, crossed: &mut Effect) -> Status
    ensures answer { result ≡ peer_answer peer state.old }
    ensures step { Acts peer (WasReset peer) crossed.old crossed.new state.old state.new }
{
    if peer >= state.device.peers() {
        return Status::BadPeer;
    }
    let effect = state.device.reset(peer);
    cross_effect(&effect, crossed);
    Status::Done
}

/// Disconnects a peer.
pub(crate) fn disconnect(state: &mut DeviceState, peer: u32, crossed: &mut Effect) -> Status
    ensures answer { result ≡ peer_answer peer state.old }
    ensures step { Acts peer (WasDisconnected peer) crossed.old crossed.new state.old state.new }
{
    if peer >= state.device.peers() {
        return Status::BadPeer;
    }
    let effect = state.device.disconnect(peer);
    cross_effect(&effect, crossed);
    Status::Done
}

/// Connects a peer again.
pub(crate) fn connect(state: &mut DeviceState, peer: u32) -> Status
    ensures answer { result ≡ peer_answer peer state.old }
    ensures step { Changes peer (WasConnected peer) state.old state.new }
{
    if peer >= state.device.peers() {
        return Status::BadPeer;
    }
    state.device.connect(peer);
    Status::Done
}

/// Reports the route of a peer.
pub(crate) fn route(state: &DeviceState, peer: u32, crossed: &mut Route) -> Status
    ensures answer { result ≡ peer_answer peer state.now }
    ensures route { ReportsRoute peer crossed.old crossed.new state.now }
{
    if peer >= state.device.peers() {
        return Status::BadPeer;
    }
    *crossed = route_crossed(state.device.route(peer));
    Status::Done
}

/// Reports the message of a peer's vector.
pub(crate) fn message(state: &DeviceState, peer: u32, vector: u32, crossed: &mut Message) -> Status
    ensures answer { result ≡ message_answer peer vector state.now }
    ensures message { ReportsMessage peer vector crossed.old crossed.new state.now }
{
    if peer >= state.device.peers() {
        return Status::BadPeer;
    }
    if vector >= state.device.vectors() {
        return Status::BadVector;
    }
    let entry = 16 * vector;
    *crossed = message_of(
        state.device.msix_read(peer, entry),
        state.device.msix_read(peer, entry + 4),
        state.device.msix_read(peer, entry + 8),
    );
    Status::Done
}

/// Whether a width in bytes is one of an access to a window.
fn is_width(width: u32) -> bool
    ensures { result ≡ is_width width }
{
    width == 1 || width == 2 || width == 4 || width == 8
}

/// Reads a window of a peer.
pub(crate) fn window_read(state: &DeviceState, peer: u32, access: &mut Access) -> Status
    ensures answer { result ≡ window_answer peer access.old state.now }
    ensures value { ReadsWindow peer access.old access.new state.now }
{
    if peer >= state.device.peers() {
        return Status::BadPeer;
    }
    if access.window > 2 {
        return Status::BadWindow;
    }
    if !is_width(access.width) {
        return Status::BadAccess;
    }
    let window = window_of(access.window);
    access.value = read_window(&state.device, peer, window, access.offset, access.width);
    Status::Done
}

/// Writes a window of a peer.
pub(crate) fn window_write(
    state: &mut DeviceState,
    peer: u32,
    access: &Access,
    crossed: &mut Effect,
) -> Status
    ensures answer { result ≡ window_answer peer access.now state.old }
    ensures step { WritesWindow peer access.now crossed.old crossed.new state.old state.new }
{
    if peer >= state.device.peers() {
        return Status::BadPeer;
    }
    if access.window > 2 {
        return Status::BadWindow;
    }
    if !is_width(access.width) {
        return Status::BadAccess;
    }
    if access.window == REGISTER_PAGE && access.width == 4 {
        let word = low_word(access.value);
        return register_write(state, peer, access.offset, word, crossed);
    }
    let window = window_of(access.window);
    let effect = write_window(
        &mut state.device,
        peer,
        window,
        access.offset,
        access.width,
        access.value,
    );
    cross_effect(&effect, crossed);
    Status::Done
}
