//! A schedule of ports as one value.
ghost use Rattle.port_text.specs.Scenario.{IsWorld};
ghost use Rattle.port_text.specs.Props.{IsWorld-prop};

use crate::acts::Acts;
use scenario_text::Flags;
use section_map::Geometry;

/// A region, the most bytes of a message, the kinds of the peers, and their acts. Each value has a
/// spelling.
#[derive(Debug, Drop)]
pub struct Scenario {
    /// The sizes of the region: its State Table has 4,096 bytes, and it has no common section.
    pub geometry: Geometry,
    /// The most bytes of a message.
    pub most: u32,
    /// Whether each peer is honest, from peer 0.
    pub honest: Flags,
    /// The schedule.
    pub acts: Acts,
    pub ghost world: { IsWorld (record { geometry = geometry; most = most; honest = honest; acts = acts }) } by { IsWorld-prop _ },
}
