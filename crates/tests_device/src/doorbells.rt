//! Tests of interrupts over values worked out by hand: single doorbells, States and connections. In
//! a table each row breaks one condition of delivery.
ghost use Rattle.std.specs.Prelude.{◌≡◌, ◌<◌, IfOk};
ghost use Rattle.pci_space.specs.Wiring.{IsWiring};
ghost use Rattle.doorbell_irq.specs.Refinement.{peer_count};

use doorbell_irq::{Delivery, Device, Effect, Route};
use pci_space::{BadAccess, Wiring};
use section_map::Geometry;
use std::process::Abort;
use std::test::Fail;

/// Offset of Interrupt Control in the register page.
const INTERRUPT_CONTROL: u32 = 0x08;

/// Offset of the Doorbell. Its value has the target in the high half, the vector in the low half.
const DOORBELL: u32 = 0x0C;

/// Offset of State.
const STATE: u32 = 0x10;

/// Returns the devices of a world of 8 peers.
fn worked_device(wiring: Wiring) -> Result<Device, Fail>
    requires { IsWiring wiring }
    ensures { IfOk result (λ device. peer_count device ≡ 8) }
{
    let geometry = Geometry::new(8, 4096, 0, 16384)?;
    Ok(Device::new(&geometry, wiring))
}

/// One act of a peer at its device, or what the device shows. The peer comes first.
#[derive(Clone, Copy)]
enum Act {
    /// Writes the configuration space: the offset, the width and the value.
    Config(u32, u16, u16, u32),
    /// Writes an MSI-X entry: the offset and the value.
    Msix(u32, u32, u32),
    /// Writes a register: the offset and the value.
    Writes(u32, u32, u32),
    /// Writes a register, and these interrupts come.
    Sends(u32, u32, u32, &'static [Delivery]),
    /// Writes State, which is then this one, and these interrupts come.
    Sets(u32, u32, &'static [Delivery]),
    /// Is reset: State is 0, and these interrupts come.
    Resets(u32, &'static [Delivery]),
    /// Is disconnected: State is 0.
    Disconnects(u32),
    Connects(u32),
    /// A register has this value.
    Reads(u32, u32, u32),
    /// An MSI-X entry has this value.
    ReadsMsix(u32, u32, u32),
    /// The configuration space has this value, at an offset and of a width.
    ReadsConfig(u32, u16, u16, u32),
    /// The configuration space has no such access: the offset and the width.
    Refuses(u32, u16, u16),
    /// The route to the peer.
    Routes(u32, Route),
}

/// Whether an effect has this State and these interrupts. A State of 4 may be any.
#[must_use]
fn is_effect(effect: &Effect, state: u32, deliveries: &[Delivery]) -> bool {
    if state != 4 && effect.state != Some(state) {
        return false;
    }
    effect.deliveries.as_slice() == deliveries
}

/// Makes an access that writes. Returns whether all is as the act says.
#[must_use]
fn writes(device: &mut Device, act: Act) -> bool {
    match act {
        Act::Config(peer, offset, width, value) => {
            peer < device.peers() && device.config_write(peer, offset, width, value).is_ok()
        }
        Act::Msix(peer, offset, value) => {
            if peer >= device.peers() {
                return false;
            }
            device.msix_write(peer, offset, value);
            true
        }
        Act::Writes(peer, offset, value) => {
            if peer >= device.peers() {
                return false;
            }
            device.register_write(peer, offset, value);
            true
        }
        Act::Sends(peer, offset, value, deliveries) => {
            peer < device.peers()
                && is_effect(&device.register_write(peer, offset, value), 4, deliveries)
        }
        Act::Sets(peer, state, deliveries) => {
            peer < device.peers()
                && is_effect(
                    &device.register_write(peer, STATE, state),
                    state,
                    deliveries,
                )
        }
        _ => false,
    }
}

/// Resets, disconnects or connects a peer. Returns whether all is as the act says.
#[must_use]
fn changes(device: &mut Device, act: Act) -> bool {
    match act {
        Act::Resets(peer, deliveries) => {
            peer < device.peers() && is_effect(&device.reset(peer), 0, deliveries)
        }
        Act::Disconnects(peer) => {
            peer < device.peers() && device.disconnect(peer).state == Some(0)
        }
        Act::Connects(peer) => {
            if peer >= device.peers() {
                return false;
            }
            device.connect(peer);
            true
        }
        _ => false,
    }
}

/// Whether the configuration space refuses to be read and written there.
#[must_use]
fn refuses(device: &mut Device, peer: u32, offset: u16, width: u16) -> bool {
    if peer >= device.peers() {
        return false;
    }
    let refused = BadAccess { offset, width };
    if device.config_read(peer, offset, width) != Err(refused) {
        return false;
    }
    device.config_write(peer, offset, width, 0) == Err(refused)
}

/// Makes an act. Returns whether all is as the act says.
#[must_use]
fn makes(device: &mut Device, act: Act) -> bool {
    match act {
        Act::Resets(..) | Act::Disconnects(_) | Act::Connects(_) => changes(device, act),
        Act::Reads(peer, offset, value) => {
            peer < device.peers() && device.register_read(peer, offset) == value
        }
        Act::ReadsMsix(peer, offset, value) => {
            peer < device.peers() && device.msix_read(peer, offset) == value
        }
        Act::ReadsConfig(peer, offset, width, value) => {
            peer < device.peers() && device.config_read(peer, offset, width) == Ok(value)
        }
        Act::Refuses(peer, offset, width) => refuses(device, peer, offset, width),
        Act::Routes(peer, route) => peer < device.peers() && device.route(peer) == route,
        _ => writes(device, act),
    }
}

/// Makes these acts at the devices.
fn makes_all(rt: &impl Abort, device: &mut Device, acts: &[Act]) {
    for at in 0..acts.len() {
        assert!(rt; makes(device, acts[at]), "act {at}");
    }
}

/// An interrupt of peer 1, by vector 1 and by vector 0.
const BY_VECTOR_1: [Delivery; 1] = [Delivery { peer: 1, vector: 1 }];

const BY_VECTOR_0: [Delivery; 1] = [Delivery { peer: 1, vector: 0 }];

const INTERRUPTS: [Act; 13] = [
    // Peer 1 becomes bus master, enables MSI-X and unmasks vector 1.
    Act::Config(1, 4, 2, 4),
    Act::Config(1, 98, 2, 32768),
    Act::Msix(1, 28, 0),
    Act::Sends(1, INTERRUPT_CONTROL, 1, &[]),
    // One-shot mode: the first interrupt clears Interrupt Control.
    Act::Config(1, 67, 1, 1),
    Act::Sends(0, DOORBELL, 0x0001_0001, &BY_VECTOR_1),
    Act::Sends(0, DOORBELL, 0x0001_0001, &[]),
    Act::Reads(1, INTERRUPT_CONTROL, 0),
    Act::Sends(1, INTERRUPT_CONTROL, 1, &[]),
    Act::Sends(0, DOORBELL, 0x0001_0000, &[]),
    Act::Sends(0, DOORBELL, 0x0009_0001, &[]),
    Act::Sends(0, DOORBELL, 0x0001_0001, &BY_VECTOR_1),
    Act::Reads(1, INTERRUPT_CONTROL, 0),
];

/// Whether a doorbell is delivered through MSI-X, and one-shot mode lets one interrupt come.
// claim doorbell_irq.Device.register_write.effect
#[test]
fn interrupts(rt: HostRuntime) -> Result<(), Fail> {
    makes_all(&rt, &mut worked_device(Wiring::Msix(2))?, &INTERRUPTS);
    Ok(())
}

const CONNECTIONS: [Act; 25] = [
    Act::Writes(1, INTERRUPT_CONTROL, 1),
    Act::Sends(0, DOORBELL, 0x0001_0005, &BY_VECTOR_0),
    // Command bit 10 turns INTx off.
    Act::Config(1, 4, 2, 0x400),
    Act::Sends(0, DOORBELL, 0x0001_0005, &[]),
    Act::Disconnects(1),
    Act::Writes(1, INTERRUPT_CONTROL, 1),
    Act::Sends(0, DOORBELL, 0x0001_0005, &[]),
    Act::Connects(1),
    Act::Reads(1, INTERRUPT_CONTROL, 0),
    Act::Writes(1, INTERRUPT_CONTROL, 1),
    Act::Sends(0, DOORBELL, 0x0001_0005, &BY_VECTOR_0),
    // A peer may ring itself. A write of the same State changes nothing.
    Act::Sends(1, DOORBELL, 0x0001_0005, &BY_VECTOR_0),
    Act::Sets(0, 3, &BY_VECTOR_0),
    Act::Sets(0, 3, &[]),
    Act::Resets(0, &BY_VECTOR_0),
    Act::Resets(0, &[]),
    // A changed State triggers every other peer, in ascending order.
    Act::Writes(0, INTERRUPT_CONTROL, 1),
    Act::Writes(1, INTERRUPT_CONTROL, 1),
    Act::Writes(2, INTERRUPT_CONTROL, 1),
    Act::Writes(3, INTERRUPT_CONTROL, 1),
    Act::Writes(4, INTERRUPT_CONTROL, 1),
    Act::Writes(5, INTERRUPT_CONTROL, 1),
    Act::Writes(6, INTERRUPT_CONTROL, 1),
    Act::Writes(7, INTERRUPT_CONTROL, 1),
    Act::Sends(
        3,
        STATE,
        1,
        &[
            Delivery { peer: 0, vector: 0 },
            Delivery { peer: 1, vector: 0 },
            Delivery { peer: 2, vector: 0 },
            Delivery { peer: 4, vector: 0 },
            Delivery { peer: 5, vector: 0 },
            Delivery { peer: 6, vector: 0 },
            Delivery { peer: 7, vector: 0 },
        ],
    ),
];

/// Whether INTx, disconnections, resets and changes of State deliver as the rules say.
// claim doorbell_irq.Device.register_write.effect
// claim doorbell_irq.Device.reset.effect
// claim doorbell_irq.Device.disconnect.effect
#[test]
fn connections_and_states(rt: HostRuntime) -> Result<(), Fail> {
    makes_all(&rt, &mut worked_device(Wiring::Intx)?, &CONNECTIONS);
    Ok(())
}

/// Command, Message Control, Interrupt Control, Vector Control of entry 2, the doorbell's word, and
/// whether (1, 2) is delivered.
type Case = (u32, u32, u32, u32, u32, bool);

const CASES: [Case; 19] = [
    (0x004, 0x8000, 1, 0, 0x0001_0002, true),
    (0x008, 0x8000, 1, 0, 0x0001_0002, true),
    (0x40C, 0x8000, 1, 2, 0x0001_0002, true),
    (0x402, 0x8000, 1, 0, 0x0001_0002, false),
    (0x004, 0x0000, 1, 0, 0x0001_0002, false),
    (0x004, 0xC000, 1, 0, 0x0001_0002, false),
    (0x004, 0x4000, 1, 0, 0x0001_0002, false),
    (0x004, 0x8000, 0, 0, 0x0001_0002, false),
    (0x004, 0x8000, 2, 0, 0x0001_0002, false),
    (0x004, 0x8000, 1, 1, 0x0001_0002, false),
    // A masked vector, one at the table's size, and two that are 2 in their low bits alone.
    (0x004, 0x8000, 1, 0, 0x0001_0003, false),
    (0x004, 0x8000, 1, 0, 0x0001_0004, false),
    (0x004, 0x8000, 1, 0, 0x0001_0102, false),
    (0x004, 0x8000, 1, 0, 0x0001_8002, false),
    // Another peer, one above the peers, and three that are 1 in their low bits alone.
    (0x004, 0x8000, 1, 0, 0x0002_0002, false),
    (0x004, 0x8000, 1, 0, 0x0008_0002, false),
    (0x004, 0x8000, 1, 0, 0x0009_0002, false),
    (0x004, 0x8000, 1, 0, 0x0101_0002, false),
    (0x004, 0x8000, 1, 0, 0x8001_0002, false),
];

/// An interrupt of peer 1, by vector 2.
const BY_VECTOR_2: [Delivery; 1] = [Delivery { peer: 1, vector: 2 }];

/// Whether a doorbell is delivered as the case says, at new devices. A reset ends all of it, and
/// what was dropped isn't delivered later.
fn is_delivered(case: Case) -> Result<bool, Fail> {
    let (command, message_control, interrupt_control, vector_control, word, comes) = case;
    let mut device = worked_device(Wiring::Msix(4))?;
    device.config_write(1, 0x04, 2, command)?;
    device.config_write(1, 0x62, 2, message_control)?;
    device.register_write(1, INTERRUPT_CONTROL, interrupt_control);
    device.msix_write(1, 0x2C, vector_control);
    let delivered: &[Delivery] = if comes { &BY_VECTOR_2 } else { &[] };
    let is_so = is_effect(&device.register_write(0, DOORBELL, word), 4, delivered);
    device.reset(1);
    Ok(is_so && is_effect(&device.register_write(0, DOORBELL, word), 4, &[]))
}

/// Whether a doorbell is delivered exactly if each condition of delivery holds.
// claim doorbell_irq.Device.reset.effect
#[test]
fn each_condition_broken(rt: HostRuntime) -> Result<(), Fail> {
    for at in 0..CASES.len() {
        assert!(rt; is_delivered(CASES[at])?, "case {at}");
    }
    Ok(())
}

const READS: [Act; 43] = [
    // Of each register the bits that can be written.
    Act::Writes(5, 0x00, 0xFFFF_FFFF),
    Act::Reads(5, 0x00, 5),
    Act::Writes(5, 0x04, 0xFFFF_FFFF),
    Act::Reads(5, 0x04, 8),
    Act::Writes(5, 0x08, 0xFFFF_FFFF),
    Act::Reads(5, 0x08, 1),
    Act::Writes(5, 0x0C, 0xFFFF_FFFF),
    Act::Reads(5, 0x0C, 0),
    Act::Writes(5, 0x10, 7),
    Act::Reads(5, 0x10, 7),
    Act::Writes(5, 0x12, 0xFFFF_FFFF),
    Act::Reads(5, 0x12, 0),
    Act::Writes(5, 0x14, 0xFFFF_FFFF),
    Act::Reads(5, 0x14, 0),
    Act::Writes(5, 0x1_0000, 0xFFFF_FFFF),
    Act::Reads(5, 0x1_0000, 0),
    // Each word of an entry at reset, and the bits of it that can be written.
    Act::ReadsMsix(5, 0x10, 0),
    Act::Msix(5, 0x10, 0xFFFF_FFFF),
    Act::ReadsMsix(5, 0x10, 0xFFFF_FFFF),
    Act::ReadsMsix(5, 0x14, 0),
    Act::Msix(5, 0x14, 0xFFFF_FFFF),
    Act::ReadsMsix(5, 0x14, 0xFFFF_FFFF),
    Act::ReadsMsix(5, 0x18, 0),
    Act::Msix(5, 0x18, 0xFFFF_FFFF),
    Act::ReadsMsix(5, 0x18, 0xFFFF_FFFF),
    Act::ReadsMsix(5, 0x1C, 1),
    Act::Msix(5, 0x1C, 0xFFFF_FFFF),
    Act::ReadsMsix(5, 0x1C, 1),
    Act::ReadsMsix(5, 0x1E, 0),
    Act::Msix(5, 0x1E, 0xFFFF_FFFF),
    Act::ReadsMsix(5, 0x1E, 0),
    Act::ReadsMsix(5, 0x20, 0),
    Act::Msix(5, 0x20, 0xFFFF_FFFF),
    Act::ReadsMsix(5, 0x20, 0),
    Act::ReadsMsix(5, 0x800, 0),
    Act::Msix(5, 0x800, 0xFFFF_FFFF),
    Act::ReadsMsix(5, 0x800, 0),
    Act::Refuses(5, 0xFF, 2),
    // Device ID 4106h and Vendor ID 110Ah.
    Act::ReadsConfig(5, 0, 4, 1090916618),
    // Privileged Control is 0 again too.
    Act::Config(5, 0x43, 1, 1),
    Act::Resets(5, &[]),
    Act::ReadsConfig(5, 0x43, 1, 0),
    Act::ReadsMsix(5, 0x1C, 1),
];

/// With INTx there is no entry.
const NO_ENTRY: [Act; 2] = [Act::Msix(5, 0x0C, 0), Act::ReadsMsix(5, 0x0C, 0)];

/// Whether registers and MSI-X entries read back the bits that can be written, and no others.
// claim doorbell_irq.Device.new
// claim doorbell_irq.Device.config_read.allowed
// claim doorbell_irq.Device.register_read
// claim doorbell_irq.Device.msix_read
#[test]
fn reads(rt: HostRuntime) -> Result<(), Fail> {
    makes_all(&rt, &mut worked_device(Wiring::Msix(2))?, &READS);
    makes_all(&rt, &mut worked_device(Wiring::Intx)?, &NO_ENTRY);
    Ok(())
}

/// No vector is delivered, by MSI-X.
const CLOSED: Route = Route {
    vectors: 0,
    intx: false,
    one_shot: false,
    enabled: false,
};

const BY_MSIX: [Act; 12] = [
    Act::Routes(1, CLOSED),
    Act::Config(1, 4, 2, 4),
    Act::Config(1, 98, 2, 32768),
    Act::Msix(1, 0x1C, 0),
    Act::Msix(1, 0x3FC, 0),
    // Vectors 1 and 63 are unmasked, and interrupts are not enabled at the peer yet.
    Act::Routes(
        1,
        Route {
            vectors: 0x8000_0000_0000_0002,
            intx: false,
            one_shot: false,
            enabled: false,
        },
    ),
    Act::Routes(0, CLOSED),
    Act::Writes(1, INTERRUPT_CONTROL, 1),
    Act::Config(1, 67, 1, 1),
    Act::Routes(
        1,
        Route {
            vectors: 0x8000_0000_0000_0002,
            intx: false,
            one_shot: true,
            enabled: true,
        },
    ),
    Act::Config(1, 98, 2, 0xC000),
    Act::Routes(
        1,
        Route {
            vectors: 0,
            intx: false,
            one_shot: true,
            enabled: true,
        },
    ),
];

/// No vector is delivered, by INTx.
const LINE_CLOSED: Route = Route {
    vectors: 0,
    intx: true,
    one_shot: false,
    enabled: false,
};

const BY_INTX: [Act; 6] = [
    // With INTx any vector is delivered, by the one line.
    Act::Routes(
        1,
        Route {
            vectors: 0xFFFF_FFFF_FFFF_FFFF,
            intx: true,
            one_shot: false,
            enabled: false,
        },
    ),
    Act::Config(1, 4, 2, 0x400),
    Act::Routes(1, LINE_CLOSED),
    Act::Config(1, 4, 2, 0),
    Act::Disconnects(1),
    Act::Routes(1, LINE_CLOSED),
];

/// Whether a route has the vectors that a doorbell reaches, and the modes of the peer.
// claim doorbell_irq.Device.route
#[test]
fn routes(rt: HostRuntime) -> Result<(), Fail> {
    makes_all(&rt, &mut worked_device(Wiring::Msix(64))?, &BY_MSIX);
    makes_all(&rt, &mut worked_device(Wiring::Intx)?, &BY_INTX);
    Ok(())
}
