//! The routes of doorbells to the peers of a scenario, once its acts have set their devices.
ghost use Rattle.std.specs.Prelude.{◌≡◌, ℕ, ◌++◌, List};
ghost use Rattle.doorbell_irq.specs.Events.{Devices, Event};
ghost use Rattle.doorbell_irq.specs.Refinement.{Refines, peer_count};
ghost use Rattle.lawful_history.specs.Device.{devices_of};
ghost use Rattle.scenario_text.specs.Spelling.{world_of};
ghost use Rattle.shared_words.specs.PeerRoutes.{events_in, events_of, MaySet, AreRoutesOf};

use arrayvec::ArrayVec;
use doorbell_irq::{Device, Route};
use scenario_text::{Act, Scenario};

/// Does what an act says to the devices.
fn set(device: &mut Device, act: &Act)
    requires { MaySet (peer_count device.old) act.now }
    ensures refines { (w : Devices) (events : List Event) → Refines w events device.old →
        Refines w (events_in act.now ++ events) device.new }
    ensures peers { peer_count device.new ≡ peer_count device.old }
{
    match act {
        Act::CfgWrite {
            peer,
            offset,
            width,
            value,
        } => match device.config_write(*peer, *offset, *width, *value) {
            Ok(()) => {}
            Err(_) => unreachable!(),
        },
        Act::MmioWrite {
            peer,
            offset,
            value,
        } => {
            let _ = device.register_write(*peer, *offset, *value);
        }
        Act::MsixWrite {
            peer,
            offset,
            value,
        } => device.msix_write(*peer, *offset, *value),
        _ => {}
    }
}

/// The devices after all acts of the scenario.
fn devices_for(scenario: &Scenario) -> Device
    ensures refines { Refines (devices_of (world_of scenario.now)) (events_of scenario.now.acts) result }
    ensures peers { peer_count result ≡ scenario.now.geometry.peers }
{
    let mut device = Device::new(&scenario.geometry, scenario.wiring);
    for act in scenario.acts.items() {
        set(&mut device, act);
    }
    device
}

/// The routes of the scenario's peers, by their numbers.
// claim: The routes of a scenario's peers are those of its devices after all its acts.
pub fn routes_of(scenario: &Scenario) -> ArrayVec<Route, 8>
    ensures { AreRoutesOf (world_of scenario.now) result.items }
{
    let device = devices_for(scenario);
    let mut routes = ArrayVec::new();
    for peer in 0..scenario.geometry.peers() {
        routes.push(device.route(peer));
    }
    routes
}
