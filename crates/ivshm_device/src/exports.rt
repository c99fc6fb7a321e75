//! The calls that a program in C makes. `c/ivshm_device.h` is their reference.
ghost use Rattle.std.specs.Prelude.{◌≡◌, None, IfSome};
ghost use Rattle.doorbell_irq.specs.Events.{RegisterWritten, MsixWritten, WasReset, WasDisconnected, WasConnected};
ghost use Rattle.pci_space.specs.declared.place.TheConstants.{USUAL_BASE};
ghost use Rattle.raw_box.specs.Handle.{Leads};
ghost use Rattle.c_status.specs.Statuses.{number_of};
ghost use Rattle.c_status.specs.declared.status.Status.{Status as Answer};
ghost use Rattle.ivshm_device.specs.Answers.{answer_at, done_answer, peer_answer, access_answer, WritesConfig, ReadsConfig, ReadsRegister, ReadsMsix, Changes, Acts, ReportsRoute, ReportsMessage, message_answer, window_answer, ReadsWindow, WritesWindow, MakesAnswered};

use crate::calls::{
    config_read, config_write, connect, disconnect, made, message, msix_read, msix_write,
    register_read, register_write, reset, route, window_read, window_write,
};
use crate::{Access, DeviceHandle, Effect, Message, Route, World};
use c_status::Status;
use pci_space::USUAL_BASE;
use std::alloc::Global;

/// Makes the devices of a world of 2 to 8 peers; all peers are connected and at reset. The region
/// is at 4 GiB.
///
/// The sizes of the region are in bytes. Each peer has 1 to 64 MSI-X vectors, or INTx if `vectors`
/// is 0.
// claim with ivshm_device_new_at: A device is made exactly if the handle is empty and the sizes,
//    the number of peers, the number of vectors and the base are right, or the answer is NO_MEMORY.
//    Each refusal has its cause. The device is at reset, and its configuration space says where the
//    region is.
#[unsafe(no_mangle)]
pub extern "C" fn ivshm_device_new(
    alloc: Global,
    device: &mut DeviceHandle,
    peers: u32,
    table: u32,
    common: u64,
    out: u64,
    vectors: u32,
) -> u32
    ensures { (answer : Answer) × (result ≡ number_of answer)
        × MakesAnswered device.old.state (record { common = common; out = out; base = USUAL_BASE; peers = peers; table = table; vectors = vectors }) answer device.new.state }
{
    let base = USUAL_BASE;
    let world = World {
        common,
        out,
        base,
        peers,
        table,
        vectors,
    };
    ivshm_device_new_at(alloc, device, &world)
}

/// Makes the devices of a world with the region at any base, or in the window of Base Address
/// Register 2.
#[unsafe(no_mangle)]
pub extern "C" fn ivshm_device_new_at(
    alloc: Global,
    device: &mut DeviceHandle,
    world: &World,
) -> u32
    ensures { (answer : Answer) × (result ≡ number_of answer)
        × MakesAnswered device.old.state world.now answer device.new.state }
{
    if let Some(state) = device.take(alloc) {
        device.put(state);
        return Status::HasDevice.number();
    }
    match made(alloc, world) {
        Ok(state) => {
            device.put(state);
            Status::Done.number()
        }
        Err(status) => status.number(),
    }
}

/// Frees the devices of a handle, which is empty then.
// claim answer, empty: A handle that holds no device is answered so by each call, and stays empty.
//    A freed handle holds no device.
#[unsafe(no_mangle)]
pub extern "C" fn ivshm_device_free(alloc: Global, device: &mut DeviceHandle) -> u32
    ensures answer { result ≡ number_of (answer_at device.old.state done_answer) }
    ensures empty { device.new.state ≡ None }
{
    match device.take(alloc) {
        Some(state) => {
            drop(state);
            Status::Done.number()
        }
        None => Status::NoDevice.number(),
    }
}

/// Reads `width` bytes of the configuration space of a peer.
// claim each untouched, unchanged: A call on a handle without a device leaves its outputs
//    unchanged, and a call that only reads leaves the device unchanged.
// claim answer, value with ivshm_device_config_write.answer, ivshm_device_config_write.step:
//    Configuration accesses are those of the device's space, for each peer of the world, offset and
//    width; otherwise the answer says why, and nothing changes.
#[unsafe(no_mangle)]
pub extern "C" fn ivshm_device_config_read(
    alloc: Global,
    device: &mut DeviceHandle,
    peer: u32,
    offset: u32,
    width: u32,
    value: &mut u32,
) -> u32
    ensures answer { result ≡ number_of (answer_at device.old.state (access_answer peer offset width)) }
    ensures value { IfSome device.old.state (λ state. ReadsConfig peer offset width value.old value.new state) }
    ensures untouched { device.old.state ≡ None → value.new ≡ value.old }
    ensures unchanged { device.new.state ≡ device.old.state }
{
    let Some(state) = device.take(alloc) else {
        return Status::NoDevice.number();
    };
    let status = config_read(&state, peer, offset, width, value);
    device.put(state);
    status.number()
}

/// Writes `width` bytes of the configuration space of a peer.
#[unsafe(no_mangle)]
pub extern "C" fn ivshm_device_config_write(
    alloc: Global,
    device: &mut DeviceHandle,
    peer: u32,
    offset: u32,
    width: u32,
    value: u32,
) -> u32
    ensures answer { result ≡ number_of (answer_at device.old.state (access_answer peer offset width)) }
    ensures step { Leads device.old.state (WritesConfig peer offset width value) device.new.state }
{
    let Some(mut state) = device.take(alloc) else {
        return Status::NoDevice.number();
    };
    let status = config_write(&mut state, peer, offset, width, value);
    device.put(state);
    status.number()
}

/// Reads a register of a peer.
// claim answer, value: A register reads as the events up to now left it.
#[unsafe(no_mangle)]
pub extern "C" fn ivshm_device_register_read(
    alloc: Global,
    device: &mut DeviceHandle,
    peer: u32,
    offset: u32,
    value: &mut u32,
) -> u32
    ensures answer { result ≡ number_of (answer_at device.old.state (peer_answer peer)) }
    ensures value { IfSome device.old.state (λ state. ReadsRegister peer offset value.old value.new state) }
    ensures untouched { device.old.state ≡ None → value.new ≡ value.old }
    ensures unchanged { device.new.state ≡ device.old.state }
{
    let Some(state) = device.take(alloc) else {
        return Status::NoDevice.number();
    };
    let status = register_read(&state, peer, offset, value);
    device.put(state);
    status.number()
}

/// Writes a register of a peer and reports the effect.
// claim answer, step: A register write has the effect of the device's rules: the State word to
//    write, if any, and all deliveries in ascending order of peer.
#[unsafe(no_mangle)]
pub extern "C" fn ivshm_device_register_write(
    alloc: Global,
    device: &mut DeviceHandle,
    peer: u32,
    offset: u32,
    value: u32,
    effect: &mut Effect,
) -> u32
    ensures answer { result ≡ number_of (answer_at device.old.state (peer_answer peer)) }
    ensures step { Leads device.old.state (Acts peer (RegisterWritten peer offset value) effect.old effect.new)
        device.new.state }
    ensures untouched { device.old.state ≡ None → effect.new ≡ effect.old }
{
    let Some(mut state) = device.take(alloc) else {
        return Status::NoDevice.number();
    };
    let status = register_write(&mut state, peer, offset, value, effect);
    device.put(state);
    status.number()
}

/// Reads a word of the MSI-X region of a peer.
// claim answer, value with ivshm_device_msix_write.answer, ivshm_device_msix_write.step: The MSI-X
//    window reads and writes aligned words of the table's entries.
#[unsafe(no_mangle)]
pub extern "C" fn ivshm_device_msix_read(
    alloc: Global,
    device: &mut DeviceHandle,
    peer: u32,
    offset: u32,
    value: &mut u32,
) -> u32
    ensures answer { result ≡ number_of (answer_at device.old.state (peer_answer peer)) }
    ensures value { IfSome device.old.state (λ state. ReadsMsix peer offset value.old value.new state) }
    ensures untouched { device.old.state ≡ None → value.new ≡ value.old }
    ensures unchanged { device.new.state ≡ device.old.state }
{
    let Some(state) = device.take(alloc) else {
        return Status::NoDevice.number();
    };
    let status = msix_read(&state, peer, offset, value);
    device.put(state);
    status.number()
}

/// Writes a word of the MSI-X region of a peer.
#[unsafe(no_mangle)]
pub extern "C" fn ivshm_device_msix_write(
    alloc: Global,
    device: &mut DeviceHandle,
    peer: u32,
    offset: u32,
    value: u32,
) -> u32
    ensures answer { result ≡ number_of (answer_at device.old.state (peer_answer peer)) }
    ensures step { Leads device.old.state (Changes peer (MsixWritten peer offset value)) device.new.state }
{
    let Some(mut state) = device.take(alloc) else {
        return Status::NoDevice.number();
    };
    let status = msix_write(&mut state, peer, offset, value);
    device.put(state);
    status.number()
}

/// Resets a peer and reports the effect.
// claim answer, step: A reset has the effect of the device's rules for a reset of that peer.
#[unsafe(no_mangle)]
pub extern "C" fn ivshm_device_reset(
    alloc: Global,
    device: &mut DeviceHandle,
    peer: u32,
    effect: &mut Effect,
) -> u32
    ensures answer { result ≡ number_of (answer_at device.old.state (peer_answer peer)) }
    ensures step { Leads device.old.state (Acts peer (WasReset peer) effect.old effect.new) device.new.state }
    ensures untouched { device.old.state ≡ None → effect.new ≡ effect.old }
{
    let Some(mut state) = device.take(alloc) else {
        return Status::NoDevice.number();
    };
    let status = reset(&mut state, peer, effect);
    device.put(state);
    status.number()
}

/// Resets and disconnects a peer and reports the effect.
// claim answer, step with ivshm_device_connect.answer, ivshm_device_connect.step: Nothing is
//    delivered to a disconnected peer; a disconnection and a connection have the effect of the
//    device's rules.
#[unsafe(no_mangle)]
pub extern "C" fn ivshm_device_disconnect(
    alloc: Global,
    device: &mut DeviceHandle,
    peer: u32,
    effect: &mut Effect,
) -> u32
    ensures answer { result ≡ number_of (answer_at device.old.state (peer_answer peer)) }
    ensures step { Leads device.old.state (Acts peer (WasDisconnected peer) effect.old effect.new) device.new.state }
    ensures untouched { device.old.state ≡ None → effect.new ≡ effect.old }
{
    let Some(mut state) = device.take(alloc) else {
        return Status::NoDevice.number();
    };
    let status = disconnect(&mut state, peer, effect);
    device.put(state);
    status.number()
}

/// Connects a peer again, at reset.
#[unsafe(no_mangle)]
pub extern "C" fn ivshm_device_connect(alloc: Global, device: &mut DeviceHandle, peer: u32) -> u32
    ensures answer { result ≡ number_of (answer_at device.old.state (peer_answer peer)) }
    ensures step { Leads device.old.state (Changes peer (WasConnected peer)) device.new.state }
{
    let Some(mut state) = device.take(alloc) else {
        return Status::NoDevice.number();
    };
    let status = connect(&mut state, peer);
    device.put(state);
    status.number()
}

/// Reports which doorbells a peer's registers let through.
// claim answer, value: The route of a peer is that of the device's rules.
#[unsafe(no_mangle)]
pub extern "C" fn ivshm_device_route(
    alloc: Global,
    device: &mut DeviceHandle,
    peer: u32,
    crossed: &mut Route,
) -> u32
    ensures answer { result ≡ number_of (answer_at device.old.state (peer_answer peer)) }
    ensures value { IfSome device.old.state (λ state. ReportsRoute peer crossed.old crossed.new state) }
    ensures untouched { device.old.state ≡ None → crossed.new ≡ crossed.old }
    ensures unchanged { device.new.state ≡ device.old.state }
{
    let Some(state) = device.take(alloc) else {
        return Status::NoDevice.number();
    };
    let status = route(&state, peer, crossed);
    device.put(state);
    status.number()
}

/// Reports the message that a vector of a peer has now.
// claim answer, value: The message of a vector is the address and the data of its MSI-X entry, with
//    the mask as it is now.
#[unsafe(no_mangle)]
pub extern "C" fn ivshm_device_message(
    alloc: Global,
    device: &mut DeviceHandle,
    peer: u32,
    vector: u32,
    crossed: &mut Message,
) -> u32
    ensures answer { result ≡ number_of (answer_at device.old.state (message_answer peer vector)) }
    ensures value { IfSome device.old.state (λ state. ReportsMessage peer vector crossed.old crossed.new state) }
    ensures untouched { device.old.state ≡ None → crossed.new ≡ crossed.old }
    ensures unchanged { device.new.state ≡ device.old.state }
{
    let Some(state) = device.take(alloc) else {
        return Status::NoDevice.number();
    };
    let status = message(&state, peer, vector, crossed);
    device.put(state);
    status.number()
}

/// Reads 1, 2, 4 or 8 bytes of a window of a peer.
// claim answer, value with ivshm_device_mmio_write.answer, ivshm_device_mmio_write.step: An access
//    of 1, 2, 4 or 8 bytes to a window, aligned or not, is answered by the rule for its window and
//    width; otherwise the answer says why, and nothing changes.
#[unsafe(no_mangle)]
pub extern "C" fn ivshm_device_mmio_read(
    alloc: Global,
    device: &mut DeviceHandle,
    peer: u32,
    access: &mut Access,
) -> u32
    ensures answer { result ≡ number_of (answer_at device.old.state (window_answer peer access.old)) }
    ensures value { IfSome device.old.state (λ state. ReadsWindow peer access.old access.new state) }
    ensures untouched { device.old.state ≡ None → access.new ≡ access.old }
    ensures unchanged { device.new.state ≡ device.old.state }
{
    let Some(state) = device.take(alloc) else {
        return Status::NoDevice.number();
    };
    let status = window_read(&state, peer, access);
    device.put(state);
    status.number()
}

/// Writes 1, 2, 4 or 8 bytes of a window of a peer and reports the effect.
#[unsafe(no_mangle)]
pub extern "C" fn ivshm_device_mmio_write(
    alloc: Global,
    device: &mut DeviceHandle,
    peer: u32,
    access: &Access,
    effect: &mut Effect,
) -> u32
    ensures answer { result ≡ number_of (answer_at device.old.state (window_answer peer access.now)) }
    ensures step { Leads device.old.state (WritesWindow peer access.now effect.old effect.new) device.new.state }
    ensures untouched { device.old.state ≡ None → effect.new ≡ effect.old }
{
    let Some(mut state) = device.take(alloc) else {
        return Status::NoDevice.number();
    };
    let status = window_write(&mut state, peer, access, effect);
    device.put(state);
    status.number()
}
