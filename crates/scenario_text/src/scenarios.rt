//! A scenario as one value.
ghost use Rattle.scenario_text.specs.Scenario.{IsWorld};
ghost use Rattle.scenario_text.specs.Props.{IsWorld-prop};

use crate::acts::{Acts, Flags};
use pci_space::Wiring;
use section_map::Geometry;
use split_ring::Queue;

/// A world, its kinds of peers, and its schedule. Each value has a spelling.
#[derive(Debug, Drop)]
pub struct Scenario {
    /// The sizes of the region.
    pub geometry: Geometry,
    /// The layout of an output section and the MTU.
    pub queue: Queue,
    /// The wiring of the devices' interrupts.
    pub wiring: Wiring,
    /// Whether each peer is honest, from peer 0.
    pub honest: Flags,
    /// The schedule.
    pub acts: Acts,
    /// The version of the link that the text names, which is that of the queue.
    pub version: u32,
    pub ghost world: { IsWorld (record {
      version = version;
      geometry = geometry;
      queue = queue;
      wiring = wiring;
      honest = honest;
      acts = acts;
    }) } by { IsWorld-prop _ },
}
