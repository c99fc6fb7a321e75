//! The honest ends of the link in a scenario.
ghost use Rattle.std.specs.Prelude.{◌≡◌, ◌≤◌};
ghost use Rattle.scenario_text.specs.Scenario.{is_link, traffic_vector};
ghost use Rattle.scenario_text.specs.Spelling.{world_of};

use crate::Scenario;
use pci_space::Wiring;

impl Scenario {
    /// Whether the peer is an honest end of the link.
    // claim with Scenario::traffic_vector.vector, Scenario::traffic_vector.small: The ends of the
    //    link are the honest ones of peers 0 and 1. The vector of their doorbells follows from the
    //    wiring.
    pub fn is_link(&self, peer: u32) -> bool
        ensures { result ≡ is_link (world_of self.now) peer }
    {
        peer < 2 && self.honest.items()[peer as usize]
    }

    /// Returns the vector of the doorbells of offers and polls.
    pub fn traffic_vector(&self) -> u32
        ensures vector { result ≡ traffic_vector self.now.wiring }
        ensures small { result ≤ 1 }
    {
        match self.wiring {
            Wiring::Msix(vectors) if vectors >= 2 => 1,
            _ => 0,
        }
    }
}
