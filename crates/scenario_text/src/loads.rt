//! The scenarios of two link peers that choose their calls: one offers frames, and the other
//! delivers them. A load is such a scenario.
ghost use Rattle.std.specs.Prelude.{◌≡◌, ◌≤◌, ◌<◌, ◌++◌, IfOk, OnOk, true};
ghost use Rattle.section_map.specs.Faults.{shape_of};
ghost use Rattle.scenario_text.specs.declared.limits.TheConstants.{MOST_LOAD};
ghost use Rattle.scenario_text.specs.Sizes.{is_geometry};
ghost use Rattle.scenario_text.specs.Scenario.{IsWorld};
ghost use Rattle.scenario_text.specs.Spelling.{world_of};
ghost use Rattle.scenario_text.specs.Loads.{offers_of, rounds, link_world, load_frame, load_frames, load_acts, load_world};

use crate::acts::{Act, Acts, Flags};
use crate::limits::{LOAD_OUT, LOAD_ROUNDS, LOAD_STEPS};
use crate::scenarios::Scenario;
use ivs_base::{Frame, NoMemory};
use pci_space::Wiring;
use section_map::{Geometry, PAGE};
use split_ring::{LEAST_MTU, Queue, SHORTEST_FRAME};
use std::alloc::{AllocError, Global};

/// Returns the geometry of sizes that have a region, all in bytes except the number of peers.
// claim: Sizes that have a region give its geometry.
pub fn region(peers: u32, table: u32, common: u64, out: u64) -> Geometry
    requires { is_geometry peers table common out ≡ true }
    ensures { result ≡ shape_of peers table common out }
{
    match Geometry::new(peers, table, common, out) {
        Ok(geometry) => geometry,
        Err(_) => unreachable!(),
    }
}

/// Returns the scenario of two honest link peers with these acts. Each has an output section of
/// `out` bytes. Returns `NoMemory` if an allocation fails.
// claim: The scenario of two honest link peers has the sizes, the MTU and the acts that are given.
pub fn link_scenario(alloc: Global, out: u64, mtu: u32, acts: Acts) -> Result<Scenario, NoMemory>
    requires { IsWorld (link_world out mtu acts) }
    ensures { IfOk result (λ scenario. world_of scenario ≡ link_world out mtu acts) }
{
    let mut honest = Flags::new(alloc);
    honest.push(true)?;
    honest.push(true)?;
    let Ok(queue) = Queue::of(out, mtu) else {
        unreachable!()
    };
    Ok(Scenario {
        geometry: region(2, PAGE, 0, out),
        queue,
        wiring: Wiring::Msix(2),
        honest,
        acts,
        version: 1,
    })
}

/// Returns the bytes of frame `number`, from 0.
fn frame_bytes(alloc: Global, number: u32) -> Result<Vec<u8>, AllocError>
    ensures { IfOk result (λ bytes. bytes.items ≡ load_frame number) }
{
    let size = SHORTEST_FRAME + number % 3;
    let first = 31 * u64::from(number);
    (0..size)
        .map(|place| ((first + 7 * u64::from(place)) % 256) as u8)
        .collect(alloc)
}

/// Returns frame `number`, from 0.
fn frame(alloc: Global, number: u32) -> Result<Frame, NoMemory>
    ensures { IfOk result (λ frame. frame ≡ load_frame number) }
{
    let bytes = frame_bytes(alloc, number)?;
    Frame::of(alloc, &bytes)
}

/// Appends `count` `offer` lines.
fn push_offers(alloc: Global, acts: &mut Acts, count: u32) -> Result<(), NoMemory>
    ensures { OnOk result (acts.new ≡ acts.old ++ offers_of 0 (load_frames count)) }
{
    for number in 0..count {
        let frame = frame(alloc, number)?;
        acts.push(Act::Offer { peer: 0, frame })?;
    }
    Ok(())
}

/// Appends `count` rounds. In each round both peers take a turn of this number of steps.
// claim: Rounds are appended as turn lines: one of each of two peers, as often as asked for.
pub fn push_rounds(acts: &mut Acts, steps: u32, count: u32) -> Result<(), NoMemory>
    ensures { OnOk result (acts.new ≡ acts.old ++ rounds steps count) }
{
    for _ in 0..count {
        acts.push(Act::Turn { peer: 0, steps })?;
        acts.push(Act::Turn { peer: 1, steps })?;
    }
    Ok(())
}

/// Returns the acts of a load of `count` frames.
fn acts(alloc: Global, count: u32) -> Result<Acts, NoMemory>
    requires { count ≤ MOST_LOAD }
    ensures { IfOk result (λ acts. acts ≡ load_acts count) }
{
    let mut acts = Acts::new(alloc);
    acts.push(Act::Auto { peer: 0, expect: 0 })?;
    acts.push(Act::Auto {
        peer: 1,
        expect: u64::from(count),
    })?;
    push_offers(alloc, &mut acts, count)?;
    push_rounds(&mut acts, LOAD_STEPS, LOAD_ROUNDS + (count + 2) / 3)?;
    Ok(acts)
}

/// Returns the scenario of a load of `count` frames, 1 to `MOST_LOAD` (profile). Peer 0 offers
/// them, and peer 1 chooses its calls until it has delivered them. After the offers come
/// `LOAD_ROUNDS` rounds of turns, and one more for each three frames. Returns `NoMemory` if an
/// allocation fails.
// claim: The scenario of a load of N frames has two automatic peers, N offers of peer 0, and 200
//    rounds of turns plus one more for each three frames.
pub fn load(alloc: Global, count: u32) -> Result<Scenario, NoMemory>
    requires some { 1 ≤ count }
    requires few { count ≤ MOST_LOAD }
    ensures { IfOk result (λ scenario. world_of scenario ≡ load_world count) }
{
    let acts = acts(alloc, count)?;
    link_scenario(alloc, LOAD_OUT, LEAST_MTU, acts)
}
