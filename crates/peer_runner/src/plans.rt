//! The plans of the peers of a scenario in running form.
ghost use Rattle.std.specs.Prelude.{◌≡◌, ◌<◌, ◌++◌, true, false, None, IfOk, OnOk};
ghost use Rattle.scenario_text.specs.Running.{has_turn, not_running};
ghost use Rattle.scenario_text.specs.Scenario.{is_link};
ghost use Rattle.scenario_text.specs.Spelling.{world_of};
ghost use Rattle.peer_runner.specs.OwnRecord.{span_in, spans_of};
ghost use Rattle.peer_runner.specs.Drives.{IsDriver, IsPlanFor, gathered, seeded, Gathers, Seeds};

use crate::driving::{Driver, PeerPlan};
use crate::spans::Spans;
use ivs_base::{Frame, NoMemory};
use link_endpoint::{Auto, Endpoint};
use scenario_text::{Act, Scenario};
use shared_words::routes_of;
use std::alloc::Global;

/// Appends the span of an act, if the act is a turn line of the peer.
fn add_span(spans: &mut Spans, act: &Act, me: u32) -> Result<(), NoMemory>
    ensures { OnOk result (spans.new ≡ spans.old ++ span_in me act.now) }
{
    match act {
        Act::Turn { peer, steps } if *peer == me => spans.push(u64::from(*steps)),
        _ => Ok(()),
    }
}

/// The spans of a peer: the number of turns of each of its turn lines.
fn spans_for(alloc: Global, scenario: &Scenario, me: u32) -> Result<Spans, NoMemory>
    ensures { IfOk result (λ spans. spans ≡ spans_of scenario.now.acts me) }
{
    let mut spans = Spans::new(alloc);
    for act in scenario.acts.items() {
        add_span(&mut spans, act, me)?;
    }
    Ok(spans)
}

/// Adds what an act says of an automatic peer.
fn gather(alloc: Global, auto: &mut Auto, act: &Act, me: u32) -> Result<(), NoMemory>
    ensures { OnOk result (auto.new ≡ gathered me auto.old act.now) }
{
    match act {
        Act::Auto { peer, expect } if *peer == me => *auto = Auto::new(alloc, *expect),
        Act::Offer { peer, frame } if *peer == me => {
            auto.add(Frame::of(alloc, frame.bytes())?)?;
        }
        _ => {}
    }
    Ok(())
}

/// The automatic peer at an honest end, with all its frames.
fn auto_for(alloc: Global, scenario: &Scenario, me: u32) -> Result<Auto, NoMemory>
    requires link { is_link (world_of scenario.now) me ≡ true }
    requires running { not_running (world_of scenario.now) ≡ None }
    ensures { IfOk result (λ auto. Gathers scenario.now.queue.mtu me scenario.now.acts auto) }
{
    let mut auto = Auto::new(alloc, 0);
    for act in scenario.acts.items() {
        gather(alloc, &mut auto, act, me)?;
    }
    Ok(auto)
}

/// The seed of the act, if the act is a storm line of the peer, else `seed`.
fn seed_in(seed: u64, act: &Act, me: u32) -> u64
    ensures { result ≡ seeded me seed act.now }
{
    match act {
        Act::Storm { peer, seed: given } if *peer == me => *given,
        _ => seed,
    }
}

/// The seed of a hostile peer's storm.
fn seed_for(scenario: &Scenario, me: u32) -> u64
    requires hostile { is_link (world_of scenario.now) me ≡ false }
    ensures { Seeds me scenario.now.acts result }
{
    let mut seed = 0;
    for act in scenario.acts.items() {
        seed = seed_in(seed, act, me);
    }
    seed
}

/// The driver of a peer that has a turn line. It is the rule of the automatic peer at an honest end
/// of the link, else its storm.
fn driver_for(alloc: Global, scenario: &Scenario, me: u32) -> Result<Driver, NoMemory>
    requires there { me < scenario.now.geometry.peers }
    requires running { not_running (world_of scenario.now) ≡ None }
    requires turns { has_turn scenario.now.acts me ≡ true }
    ensures { IfOk result (IsDriver (world_of scenario.now) me) }
{
    if !scenario.is_link(me) {
        return Ok(Driver::Storm {
            seed: seed_for(scenario, me),
            geometry: scenario.geometry,
            queue: scenario.queue,
        });
    }
    let vector = scenario.traffic_vector();
    let auto = auto_for(alloc, scenario, me)?;
    let end = Endpoint::new(alloc, me, &scenario.geometry, &scenario.queue, vector)?;
    Ok(Driver::Auto(auto, end))
}

/// The plan of a peer of the scenario: its driver, its spans and the routes of all peers. Returns
/// none exactly if the peer has no turn line.
pub fn plan_of(alloc: Global, scenario: &Scenario, me: u32) -> Result<Option<PeerPlan>, NoMemory>
    requires there { me < scenario.now.geometry.peers }
    requires running { not_running (world_of scenario.now) ≡ None }
    ensures { IfOk result (IsPlanFor (world_of scenario.now) me) }
{
    let spans = spans_for(alloc, scenario, me)?;
    if spans.items().is_empty() {
        return Ok(None);
    }
    let driver = driver_for(alloc, scenario, me)?;
    Ok(Some(PeerPlan {
        peer: me,
        spans,
        driver,
        routes: routes_of(scenario),
    }))
}
