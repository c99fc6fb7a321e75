//! The peers that a call triggers, and the deliveries that follow.
ghost use Rattle.std.specs.Prelude.{◌≡◌, ◌≤◌, ℕ, not, ◌&&◌, ◌==◌, if◌then◌else◌, Some, None, length};
ghost use Rattle.doorbell_irq.specs.Events.{doorbell_target, doorbell_vector};
ghost use Rattle.doorbell_irq.specs.DeviceRules.{deliveries_below};
ghost use Rattle.doorbell_irq.specs.declared.trigger.Trigger.TheVariants.{At, Others};
ghost use Rattle.doorbell_irq.specs.Triggers.{vector_at, delivery_among, delivered, TakesBelow, KeepsPast};

use crate::doorbell::{doorbell_target, doorbell_vector};
use crate::effect::Delivery;
use crate::msix_table::MsixTable;
use crate::registers::PeerDevice;
use arrayvec::ArrayVec;
use pci_space::Wiring;

/// The peers that are triggered.
#[derive(Clone, Copy, Debug)]
pub(crate) enum Trigger {
    /// No peer.
    Nobody,
    /// The target of a doorbell. It may be no peer of the world.
    At { target: u32, vector: u32 },
    /// Every peer except the source of a new State, with vector 0.
    Others { source: u32 },
}

impl Trigger {
    /// Returns which peer a doorbell with this word triggers.
    pub(crate) fn by_doorbell(word: u32) -> Trigger
        ensures { (peer : ℕ) →
            vector_at result peer ≡ (if doorbell_target word == peer then Some (doorbell_vector word) else None) }
    {
        Trigger::At {
            target: doorbell_target(word),
            vector: doorbell_vector(word),
        }
    }

    /// Returns which peers a State write triggers: none if the value stays the same.
    pub(crate) fn by_state(source: u32, old: u32, new: u32) -> Trigger
        ensures { (peer : ℕ) →
            vector_at result peer ≡ (if not (source == peer) && not (old == new) then Some 0 else None) }
    {
        if old == new {
            Trigger::Nobody
        } else {
            Trigger::Others { source }
        }
    }
}

/// Triggers the first `peers` peers in ascending order, and returns the deliveries.
#[inline(always)]
pub(crate) fn deliver<E: MsixTable + Drop>(
    registers: &mut [PeerDevice<E>],
    peers: u32,
    wiring: Wiring,
    trigger: Trigger,
) -> ArrayVec<Delivery, 8>
    requires few { peers ≤ 8 }
    requires all { peers ≤ length registers.old }
    ensures takes { TakesBelow peers wiring trigger registers.old registers.new }
    ensures past { KeepsPast peers registers.old registers.new }
    ensures came { result.items ≡ deliveries_below (delivery_among wiring trigger registers.old) peers }
{
    match trigger {
        Trigger::Nobody => ArrayVec::new(),
        Trigger::At { target, vector } => {
            list_of(deliver_at(registers, peers, wiring, target, vector))
        }
        Trigger::Others { source } => deliver_to_others(registers, peers, wiring, source),
    }
}

/// Triggers one peer, and returns the delivery, if there is one. The target may be no peer of the
/// world.
#[inline(always)]
pub(crate) fn deliver_at<E: MsixTable + Drop>(
    registers: &mut [PeerDevice<E>],
    peers: u32,
    wiring: Wiring,
    target: u32,
    vector: u32,
) -> Option<Delivery>
    requires all { peers ≤ length registers.old }
    ensures takes { TakesBelow peers wiring (At target vector) registers.old registers.new }
    ensures past { KeepsPast peers registers.old registers.new }
    ensures came { delivered result ≡ deliveries_below (delivery_among wiring (At target vector) registers.old) peers }
{
    if target >= peers {
        return None;
    }
    let taken = registers[target as usize].take(wiring, Some(vector));
    match taken {
        Some(vector) => Some(Delivery {
            peer: target,
            vector,
        }),
        None => None,
    }
}

/// Returns the delivery, if there is one, as a list.
#[inline(always)]
fn list_of(delivery: Option<Delivery>) -> ArrayVec<Delivery, 8>
    ensures { result.items ≡ delivered delivery }
{
    let mut deliveries = ArrayVec::new();
    if let Some(delivery) = delivery {
        deliveries.push(delivery);
    }
    deliveries
}

/// Triggers all peers except the source, in ascending order, and returns the deliveries.
fn deliver_to_others<E: MsixTable + Drop>(
    registers: &mut [PeerDevice<E>],
    peers: u32,
    wiring: Wiring,
    source: u32,
) -> ArrayVec<Delivery, 8>
    requires few { peers ≤ 8 }
    requires all { peers ≤ length registers.old }
    ensures takes { TakesBelow peers wiring (Others source) registers.old registers.new }
    ensures past { KeepsPast peers registers.old registers.new }
    ensures came { result.items ≡ deliveries_below (delivery_among wiring (Others source) registers.old) peers }
{
    let mut deliveries = ArrayVec::new();
    for peer in 0..peers {
        let vector = (source != peer).then_some(0);
        let taken = registers[peer as usize].take(wiring, vector);
        if let Some(vector) = taken {
            deliveries.push(Delivery { peer, vector });
        }
    }
    deliveries
}
