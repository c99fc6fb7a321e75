//! Copies of scenarios.
ghost use Rattle.std.specs.Prelude.{◌≡◌, IfOk};
ghost use Rattle.lawful_history.specs.Sides.{world_of};
ghost use Rattle.link_model.specs.ScenarioParts.{world_of_parts};

use ivs_base::{Frame, NoMemory};
use pci_space::Wiring;
use scenario_text::{Act, Acts, Flags, Scenario};
use section_map::Geometry;
use split_ring::Queue;
use std::alloc::Global;

/// A copy of `$act`. An act that `$owning` matches is copied by `$copy`. Each other kind has its
/// fields, and the copy has the same.
macro_rules! copied {
    ($act:expr, $owning:pat => $copy:expr; $($kind:ident { $($field:ident),* })*) => {
        match $act {
            $owning => $copy,
            $(Act::$kind { $($field),* } => Act::$kind { $($field),* },)*
        }
    };
}

/// Returns a copy of the act. Returns `NoMemory` if memory ran out.
fn copy_of_act(alloc: Global, act: &Act) -> Result<Act, NoMemory>
    ensures { IfOk result (λ copy. copy ≡ act.now) }
{
    Ok(copied! {
        *act,
        Act::Offer { peer, ref frame } => Act::Offer {
            peer,
            frame: Frame::of(alloc, frame.bytes())?,
        };
        Tick { peer }
        Poll { peer }
        Stop { peer }
        Auto { peer, expect }
        Storm { peer, seed }
        Turn { peer, steps }
        Reset { peer }
        Poke { peer, word, value }
        Peek { peer, word }
        Set { peer, value }
        Ring { peer, target, vector }
        CfgRead { peer, offset, width }
        CfgWrite { peer, offset, width, value }
        MmioRead { peer, offset }
        MmioWrite { peer, offset, value }
        MsixRead { peer, offset }
        MsixWrite { peer, offset, value }
        Lose { peer }
        Again { peer, vector }
    })
}

/// Returns a copy of the acts. Returns `NoMemory` if memory ran out.
fn copy_of_acts(alloc: Global, acts: &Acts) -> Result<Acts, NoMemory>
    ensures { IfOk result (λ copy. copy ≡ acts.now) }
{
    let mut copy = Acts::new(alloc);
    for act in acts.items() {
        copy.push(copy_of_act(alloc, act)?)?;
    }
    Ok(copy)
}

/// Returns a copy of the flags. Returns `NoMemory` if memory ran out.
fn copy_of_flags(alloc: Global, flags: &Flags) -> Result<Flags, NoMemory>
    ensures { IfOk result (λ copy. copy ≡ flags.now) }
{
    let mut copy = Flags::new(alloc);
    for flag in flags.items() {
        copy.push(*flag)?;
    }
    Ok(copy)
}

/// The parts of a scenario. Unlike a `Scenario` they have no proof that a text spells them. So one
/// part can be borrowed while another field of the owner changes.
#[derive(Drop)]
pub struct ScenarioParts {
    pub version: u32,
    pub geometry: Geometry,
    pub queue: Queue,
    pub wiring: Wiring,
    pub honest: Flags,
    pub acts: Acts,
}

/// Returns the parts of the scenario.
pub fn parts_of(scenario: Scenario) -> ScenarioParts
    ensures { world_of_parts result ≡ world_of scenario }
{
    let Scenario {
        version,
        geometry,
        queue,
        wiring,
        honest,
        acts,
    } = scenario;
    ScenarioParts {
        version,
        geometry,
        queue,
        wiring,
        honest,
        acts,
    }
}

/// Returns a copy of the scenario. Returns `NoMemory` if memory ran out.
pub fn copy_of_scenario(alloc: Global, scenario: &Scenario) -> Result<Scenario, NoMemory>
    ensures { IfOk result (λ copy. world_of copy ≡ world_of scenario.now) }
{
    Ok(Scenario {
        geometry: scenario.geometry,
        queue: scenario.queue,
        wiring: scenario.wiring,
        honest: copy_of_flags(alloc, &scenario.honest)?,
        acts: copy_of_acts(alloc, &scenario.acts)?,
        version: scenario.version,
    })
}
