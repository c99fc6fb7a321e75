//! The parameters of the rule of a table.
ghost use Rattle.std.specs.Prelude.{◌≡◌, ℕ, ◌<◌, ◌≤◌, length};
ghost use Rattle.scenario_text.specs.Spelling.{world_of};
ghost use Rattle.shared_words.specs.Interrupts.{flag_of};
ghost use Rattle.shared_words.specs.PeerRoutes.{route_to, AreRoutesOf};
ghost use Rattle.shared_words.specs.RunSetups.{IsFit, IsMadeFor};

use doorbell_irq::Route;
use pci_space::Wiring;
use scenario_text::Scenario;
use section_map::Geometry;
use split_ring::Queue;

/// The parameters of a table of running peers. The wiring gives the traffic vector.
#[derive(Clone, Copy, Debug)]
pub struct RunSetup {
    /// The sizes of the region.
    pub geometry: Geometry,
    /// The queue of an output section.
    pub queue: Queue,
    /// The wiring of the devices' interrupts.
    pub wiring: Wiring,
    /// Whether peer 0 is honest.
    pub first_is_honest: bool,
    /// Whether peer 1 is honest.
    pub second_is_honest: bool,
    /// Of each peer, bit 0 of its Interrupt Control before any action.
    pub enabled: [bool; 8],
    /// Of each peer, whether it is in one-shot mode.
    pub one_shot: [bool; 8],
}

/// Of each peer, whether its interrupts are enabled.
fn enabled_of(routes: &[Route]) -> [bool; 8]
    requires { length routes.now ≤ 8 }
    ensures { (p : ℕ) → p < length routes.now → flag_of result p ≡ (route_to routes.now p).enabled }
{
    let mut flags = [false; 8];
    for peer in 0..routes.len() {
        flags[peer] = routes[peer].enabled;
    }
    flags
}

/// Of each peer, whether it is in one-shot mode.
fn one_shot_of(routes: &[Route]) -> [bool; 8]
    requires { length routes.now ≤ 8 }
    ensures { (p : ℕ) → p < length routes.now → flag_of result p ≡ (route_to routes.now p).one_shot }
{
    let mut flags = [false; 8];
    for peer in 0..routes.len() {
        flags[peer] = routes[peer].one_shot;
    }
    flags
}

impl RunSetup {
    /// The run setup of a scenario whose peers have these routes.
    pub(crate) fn of(scenario: &Scenario, routes: &[Route]) -> RunSetup
        requires { AreRoutesOf (world_of scenario.now) routes.now }
        ensures made { IsMadeFor (world_of scenario.now) result }
        ensures fit { IsFit result }
    {
        let honest = scenario.honest.items();
        RunSetup {
            geometry: scenario.geometry,
            queue: scenario.queue,
            wiring: scenario.wiring,
            first_is_honest: honest[0],
            second_is_honest: honest[1],
            enabled: enabled_of(routes),
            one_shot: one_shot_of(routes),
        }
    }
}
