//! The scenario that offers the frames of a capture.
ghost use Rattle.std.specs.Prelude.{◌≡◌, ◌+◌, ◌-◌, ◌*◌, ◌<◌, ◌≤◌, ◌++◌, All, IfOk, OnOk, IsErrOf, IfSome, IfNone, OnSome, true, length, sum_by};
ghost use Rattle.scenario_text.specs.declared.limits.TheConstants.{MOST_ACTS};
ghost use Rattle.scenario_text.specs.declared.acts.Act.TheVariants.{Offer};
ghost use Rattle.scenario_text.specs.Loads.{IsFrame, offers_of};
ghost use Rattle.scenario_text.specs.Spelling.{world_of};
ghost use Rattle.frame_capture.specs.declared.feeding.TheConstants.{FEED_MTU};
ghost use Rattle.frame_capture.specs.Feed.{is_offered, offered_frames, weight, round_count, act_count, feed_acts, feed_world, IsTooLarge};

use crate::packets::{Capture, Packet};
use ivs_base::{Frame, NoMemory};
use scenario_text::{Act, Acts, MOST_ACTS, Scenario, link_scenario, push_rounds};
use split_ring::{FRAME_OVERHEAD, SHORTEST_FRAME};
use std::alloc::Global;
use thiserror::Error;

/// The number of steps in a turn line of the scenario (profile).
pub const FEED_STEPS: u32 = 1000;

/// The number of rounds of a scenario without frames (profile).
pub const FEED_ROUNDS: u32 = 300;

/// The number of frames for which one more round is due (profile).
pub const FRAMES_A_ROUND: u32 = 14;

/// The weight of frames for which one more round is due (profile).
pub const WEIGHT_A_ROUND: u32 = 500;

/// The weight of a frame in addition to the number of its words (profile).
pub const FRAME_WEIGHT: u32 = 12;

/// The size of an output section of the scenario, in bytes: 127 pages (profile).
pub const FEED_OUT: u64 = 520_192;

/// The MTU of the scenario's link (profile).
pub const FEED_MTU: u32 = 16_384;

/// The longest frame that is offered, in bytes: the MTU and the overhead of a frame.
pub const LONGEST_OFFERED: usize = FEED_MTU as usize + FRAME_OVERHEAD as usize;

/// Why a capture makes no scenario.
#[derive(Clone, Copy, Debug, PartialEq, Eq, Error)]
pub enum FeedFault {
    /// The scenario would have more than `MOST_ACTS` acts, or a text of more than `LONGEST_TEXT`
    /// bytes.
    #[error("the capture has too many frames for a scenario")]
    TooLarge,
    /// An allocation failed.
    #[error("out of memory")]
    NoMemory,
}

impl From<NoMemory> for FeedFault {
    ghost use Rattle.frame_capture.specs.declared.feeding.FeedFault.TheVariants.{NoMemory as OutOfMemory};

    ghost from_gives = { λ _ e. e ≡ OutOfMemory };

    fn from(_e: NoMemory) -> FeedFault {
        FeedFault::NoMemory
    }
}

/// The size of a scenario: its frames and its rounds.
#[derive(Clone, Copy, Debug)]
struct Plan {
    frames: u64,
    rounds: u32,
}

/// Whether the packet becomes an `offer` line.
fn is_offered(packet: &Packet) -> bool
    ensures { result ≡ is_offered packet.now }
{
    let size = packet.frame.bytes().len();
    size == packet.original as usize && SHORTEST_FRAME as usize <= size && size <= LONGEST_OFFERED
}

/// Returns the number of offered frames and the sum of their weights.
fn weigh(packets: &[Packet]) -> (u64, u128)
    ensures frames { result.0 ≡ length (offered_frames packets.now) }
    ensures weight { result.1 ≡ sum_by weight (offered_frames packets.now) }
    ensures most { result.1 ≤ 4113 * result.0 }
{
    let mut frames = 0;
    let mut weight = 0;
    for packet in packets {
        if is_offered(packet) {
            frames += 1;
            weight += (packet.frame.bytes().len() as u128 + 3) / 4 + u128::from(FRAME_WEIGHT);
        }
    }
    (frames, weight)
}

/// Returns the plan for these packets, if its scenario isn't too large.
fn plan_of(packets: &[Packet]) -> Option<Plan>
    ensures frames { IfSome result (λ plan. plan.frames ≡ length (offered_frames packets.now)) }
    ensures rounds { IfSome result (λ plan. plan.rounds ≡ round_count (offered_frames packets.now)) }
    ensures few { OnSome result (act_count (offered_frames packets.now) ≤ MOST_ACTS) }
    ensures many { IfNone result (MOST_ACTS < act_count (offered_frames packets.now)) }
{
    let (frames, weight) = weigh(packets);
    let rounds = u128::from(FEED_ROUNDS)
        + u128::from(frames) / u128::from(FRAMES_A_ROUND)
        + weight / u128::from(WEIGHT_A_ROUND);
    if 2 + u128::from(frames) + 2 * u128::from(FEED_STEPS) * rounds > u128::from(MOST_ACTS) {
        return None;
    }
    Some(Plan {
        frames,
        rounds: rounds as u32,
    })
}

/// Returns the offer of the packet's frame.
fn offer(alloc: Global, packet: &Packet, peer: u32) -> Result<Act, NoMemory>
    requires { is_offered packet.now ≡ true }
    ensures act { IfOk result (λ act. act ≡ Offer peer packet.now.frame) }
    ensures frame { OnOk result (IsFrame FEED_MTU packet.now.frame) }
{
    let bytes = packet.frame.bytes();
    let frame = Frame::of(alloc, bytes)?;
    let _len = bytes.len();
    Ok(Act::Offer { peer, frame })
}

/// Appends the offers of the packets' frames.
fn push_offers(
    alloc: Global,
    acts: &mut Acts,
    packets: &[Packet],
    peer: u32,
) -> Result<(), NoMemory>
    ensures put { OnOk result (acts.new ≡ acts.old ++ offers_of peer (offered_frames packets.now)) }
    ensures frames { OnOk result (All (IsFrame FEED_MTU) (offered_frames packets.now)) }
{
    for packet in packets {
        if is_offered(packet) {
            let act = offer(alloc, packet, peer)?;
            acts.push(act)?;
        }
    }
    Ok(())
}

/// Returns the acts in which the peer offers the packets' frames.
fn acts(alloc: Global, packets: &[Packet], peer: u32, plan: Plan) -> Result<Acts, NoMemory>
    requires peer { peer < 2 }
    requires frames { plan.frames ≡ length (offered_frames packets.now) }
    requires rounds { plan.rounds ≡ round_count (offered_frames packets.now) }
    ensures acts { IfOk result (λ acts. acts ≡ feed_acts peer (offered_frames packets.now)) }
    ensures frames { OnOk result (All (IsFrame FEED_MTU) (offered_frames packets.now)) }
{
    let mut acts = Acts::new(alloc);
    acts.push(Act::Auto { peer, expect: 0 })?;
    acts.push(Act::Auto {
        peer: 1 - peer,
        expect: plan.frames,
    })?;
    push_offers(alloc, &mut acts, packets, peer)?;
    push_rounds(&mut acts, FEED_STEPS, plan.rounds)?;
    Ok(acts)
}

/// Returns the scenario in which `peer`, 0 or 1, offers the capture's frames. These are the frames
/// of 14 to `LONGEST_OFFERED` bytes whose packets weren't shortened. Both peers choose their calls.
/// After the offers come 300 rounds of turns, one more for each 14 frames, and one more for each
/// 500 words. Each frame counts for 12 further words. The contract doesn't promise that these
/// rounds suffice.
///
/// Returns `TooLarge` exactly if the scenario would have more than `MOST_ACTS` acts or a text of
/// more than `LONGEST_TEXT` bytes. Returns `NoMemory` if an allocation fails.
// claim made, fits, large: The scenario of a capture offers its whole packets in order, expects as
//    many, and has the turns of its definition; or it is too large.
pub fn scenario_of(alloc: Global, capture: &Capture, peer: u32) -> Result<Scenario, FeedFault>
    requires { peer < 2 }
    ensures made { IfOk result (λ scenario. world_of scenario ≡ feed_world peer (offered_frames capture.now.packets)) }
    ensures fits { OnOk result (¬ IsTooLarge (feed_world peer (offered_frames capture.now.packets))) }
    ensures large { IsErrOf result FeedFault.TooLarge →
        IsTooLarge (feed_world peer (offered_frames capture.now.packets)) }
{
    let packets = capture.packets.items();
    let Some(plan) = plan_of(packets) else {
        return Err(FeedFault::TooLarge);
    };
    let acts = acts(alloc, packets, peer, plan)?;
    Ok(link_scenario(alloc, FEED_OUT, FEED_MTU, acts)?)
}
