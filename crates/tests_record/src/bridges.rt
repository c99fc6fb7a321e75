//! Frames that arrive at a bridge, one after another, with the ports to which they go.
ghost use Rattle.std.specs.Prelude.{◌≡◌, ◌≤◌, ◌<◌, IfOk, length};

use frame_bridge::{Bridge, frames_are_forwarded};
use ivs_base::NoMemory;
use std::alloc::Global;
use std::process::Abort;
use std::test::Fail;

/// Returns an address that is no group address, by its number.
fn station(number: u16) -> [u8; 6] {
    let [high, low] = number.to_be_bytes();
    [2, 0, 0, 0, high, low]
}

/// The group address of all stations.
const BROADCAST: [u8; 6] = [255; 6];

/// Returns a frame for the address `to` from the address `from`.
fn frame(to: [u8; 6], from: [u8; 6]) -> [u8; 14] {
    let mut frame = [0; 14];
    frame[..6].copy_from_slice(&to);
    frame[6..12].copy_from_slice(&from);
    frame[12] = 8;
    frame
}

/// Checks the arrival of a frame at this port, and the ports to which it goes.
fn arrives(
    rt: &impl Abort,
    bridge: &mut Bridge,
    port: u32,
    frame: &[u8],
    to: &[u32],
) -> Result<(), NoMemory>
    requires frame { 14 ≤ length frame.now }
    requires port { port < bridge.old.ports }
    ensures { bridge.new.ports ≡ bridge.old.ports }
{
    let ports = bridge.arrive(port, frame)?;
    assert!(rt; ports.as_slice() == to);
    Ok(())
}

// claim frame_bridge.Bridge.arrive.ports
// claim frame_bridge.Bridge.port_of
#[test]
fn frames_of_three_stations(rt: HostRuntime) -> Result<(), Fail> {
    let mut bridge = Bridge::new(rt.alloc(), 3)?;
    let group = [1, 0, 94, 0, 0, 1];
    let (one, two, three) = (station(1), station(2), station(3));
    let cases: [(u32, [u8; 6], [u8; 6], &[u32], u32); 11] = [
        // to all ports, and back to the address that is now known
        (0, BROADCAST, one, &[1, 2], 1),
        (1, one, two, &[0], 2),
        // the third address isn't known
        (0, three, one, &[1, 2], 2),
        (2, two, three, &[1], 3),
        // between two addresses at one port
        (1, two, three, &[], 3),
        // the third has moved to port 1
        (0, three, one, &[1], 3),
        // from an address to itself
        (0, one, one, &[], 3),
        // from a new address to itself: it is known at once
        (2, station(4), station(4), &[], 4),
        // a group address isn't learned as a source, and goes to all ports as a destination
        (1, one, group, &[0], 4),
        (0, group, one, &[1, 2], 4),
        (2, BROADCAST, BROADCAST, &[0, 1], 4),
    ];
    for (port, to, from, ports, known) in cases {
        assert!(rt; port < 3);
        arrives(&rt, &mut bridge, port, &frame(to, from), ports)?;
        assert_eq!(rt; bridge.known(), known);
    }
    assert_eq!(rt; bridge.port_of(&three), Some(1));
    assert_eq!(rt; bridge.port_of(&group), None);
    assert_eq!(rt; bridge.port_of(&station(5)), None);
    frames_are_forwarded();
    Ok(())
}

// claim frame_bridge.Bridge.known.count
#[test]
fn sources_above_the_most(rt: HostRuntime) -> Result<(), Fail> {
    let mut bridge = Bridge::new(rt.alloc(), 3)?;
    for number in 0..1_025 {
        arrives(
            &rt,
            &mut bridge,
            0,
            &frame(BROADCAST, station(number)),
            &[1, 2],
        )?;
    }
    assert_eq!(rt; bridge.known(), 1_024);
    assert_eq!(rt; bridge.port_of(&station(1_023)), Some(0));
    assert_eq!(rt; bridge.port_of(&station(1_024)), None);
    // to the last address, which isn't known, and to the one before
    arrives(
        &rt,
        &mut bridge,
        2,
        &frame(station(1_024), station(0)),
        &[0, 1],
    )?;
    arrives(
        &rt,
        &mut bridge,
        2,
        &frame(station(1_023), station(0)),
        &[0],
    )?;
    // a known address still moves
    arrives(
        &rt,
        &mut bridge,
        1,
        &frame(station(0), station(1_023)),
        &[2],
    )?;
    assert_eq!(rt; bridge.port_of(&station(1_023)), Some(1));
    assert_eq!(rt; bridge.known(), 1_024);
    Ok(())
}

// claim frame_bridge.Bridge.arrive.ports
#[test]
fn each_of_eight_ports_to_all(rt: HostRuntime) -> Result<(), Fail> {
    let mut bridge = Bridge::new(rt.alloc(), 8)?;
    for port in 0..8 {
        let ports = bridge.arrive(port, &frame(BROADCAST, station(port as u16)))?;
        assert_eq!(rt; ports.as_slice().len(), 7);
        assert!(rt; ports.as_slice().iter().all(|to| *to < 8 && *to != port));
    }
    assert_eq!(rt; bridge.known(), 8);
    Ok(())
}
