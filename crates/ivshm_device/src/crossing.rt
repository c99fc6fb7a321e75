//! The structs that cross to a program in C.
ghost use Rattle.std.specs.Prelude.{◌≡◌, ◌≤◌, ◌<◌, ◌^◌, ◌*◌, ◌+◌, length};
ghost use Rattle.doorbell_irq.specs.Triggers.{doorbell_effect};
ghost use Rattle.ivshm_device.specs.Crossing.{CrossesEffect, route_crossed, message_of};

use doorbell_irq::Delivery;

/// A world of which devices are made.
#[repr(C)]
#[derive(Clone, Copy)]
pub struct World {
    /// Bytes of the common section.
    pub common: u64,
    /// Bytes of an output section.
    pub out: u64,
    /// The guest-physical address of the region in bytes, a multiple of 4,096. If it is 0 the
    /// region is at the start of the window of Base Address Register 2.
    pub base: u64,
    /// The number of peers.
    pub peers: u32,
    /// Bytes of the State Table.
    pub table: u32,
    /// The MSI-X vectors of each peer; 0 is INTx.
    pub vectors: u32,
}

/// The effects of a call other than changes of registers.
#[repr(C)]
#[derive(Clone, Copy)]
pub struct Effect {
    /// 1 if the peer's word of the State Table becomes `state`, else 0.
    pub writes_state: u32,
    /// The peer's new word of the State Table; 0 if `writes_state` is 0.
    pub state: u32,
    /// The number of deliveries, at most 8.
    pub count: u32,
    /// The deliveries, in ascending order of peer. Elements from `count` on have no meaning.
    pub deliveries: [Delivery; 8],
}

/// The doorbells that a peer's registers let through.
#[repr(C)]
#[derive(Clone, Copy)]
pub struct Route {
    /// Bit n is set if a doorbell with vector n would be delivered with interrupts enabled.
    pub vectors: u64,
    /// 1 if interrupts are raised by INTx, else 0.
    pub intx: u32,
    /// 1 in one-shot mode, else 0.
    pub one_shot: u32,
    /// 1 if Interrupt Control enables interrupts, else 0.
    pub enabled: u32,
}

/// The message of an MSI-X vector.
#[repr(C)]
#[derive(Clone, Copy)]
pub struct Message {
    /// Message Address, with Message Upper Address in its high 32 bits.
    pub address: u64,
    /// Message Data.
    pub data_word: u32,
}

/// An access to a window of a peer's device.
#[repr(C)]
#[derive(Clone, Copy)]
pub struct Access {
    /// The value that is written, in its low `width` bytes, or that was read.
    pub value: u64,
    /// The window: 0 configuration space, 1 register page, 2 MSI-X region.
    pub window: u32,
    /// The offset in the window, in bytes.
    pub offset: u32,
    /// The width in bytes: 1, 2, 4 or 8.
    pub width: u32,
}

pub(crate) fn route_crossed(route: doorbell_irq::Route) -> Route
    ensures { result ≡ route_crossed route }
{
    Route {
        vectors: route.vectors,
        intx: u32::from(route.intx),
        one_shot: u32::from(route.one_shot),
        enabled: u32::from(route.enabled),
    }
}

/// Returns the message of an MSI-X entry with these words.
pub(crate) fn message_of(low: u32, high: u32, word: u32) -> Message
    ensures { result ≡ message_of low high word }
{
    Message {
        address: u64::from(low) + 0x1_0000_0000 * u64::from(high),
        data_word: word,
    }
}

/// Writes an effect to the struct of a program in C.
pub(crate) fn cross_effect(effect: &doorbell_irq::Effect, crossed: &mut Effect)
    requires { length effect.now.deliveries.items ≤ 8 }
    ensures { CrossesEffect effect.now crossed.new }
{
    let deliveries = effect.deliveries.as_slice();
    crossed.writes_state = u32::from(effect.state.is_some());
    crossed.state = effect.state.unwrap_or(0);
    crossed.count = deliveries.len() as u32;
    crossed.deliveries[..deliveries.len()].copy_from_slice(deliveries);
}

/// Writes the effect of a doorbell to the struct of a program in C: its delivery, if there is one.
#[inline(always)]
pub(crate) fn cross_delivery(delivery: Option<Delivery>, crossed: &mut Effect)
    ensures { CrossesEffect (doorbell_effect delivery) crossed.new }
{
    crossed.writes_state = 0;
    crossed.state = 0;
    match delivery {
        Some(delivery) => {
            crossed.count = 1;
            crossed.deliveries[0] = delivery;
        }
        None => crossed.count = 0,
    }
}
