//! Plays a load without a list of its acts: they repeat those of a shorter load.
ghost use Rattle.std.specs.Prelude.{◌≡◌, ◌≤◌, ◌<◌, List, [], length, get_or, IfErr, OnOk};
ghost use Rattle.scenario_text.specs.declared.acts.Act.TheVariants.{Auto};
ghost use Rattle.scenario_text.specs.declared.limits.TheConstants.{MOST_LOAD};
ghost use Rattle.scenario_text.specs.Loads.{load_acts, load_world};
ghost use Rattle.lawful_history.specs.Sessions.{recorded_in};
ghost use Rattle.lawful_history.specs.History.{history};
ghost use Rattle.sim_world.specs.declared.loads.TheConstants.{PERIOD};
ghost use Rattle.sim_world.specs.declared.playing.Stopped.TheVariants.{HasEnough};
ghost use Rattle.sim_world.specs.Playing.{StopsWithin};

use crate::VERSION;
use crate::playing::{Listener, Stopped, play_act};
use scenario_text::{Act, LOAD_ROUNDS, load};
use simulator::Simulator;
use std::alloc::Global;

/// The number of frames after which those of a load repeat: their lengths after 3, and their bytes
/// after 256.
pub const PERIOD: u32 = 768;

/// The number of acts before the first offer.
const AUTOS: usize = 2;

/// Returns the number of acts of a load of `count` frames.
fn act_count(count: u32) -> usize
    requires { count ≤ MOST_LOAD }
    ensures { result ≡ length (load_acts count) }
{
    let count = count as usize;
    AUTOS + count + 2 * (LOAD_ROUNDS as usize + (count + 2) / 3)
}

/// Returns act `at` of a load of `count` frames. `sample` has the acts of a load of `PERIOD`
/// frames, and `expecting` is the act by which peer 1 expects `count` frames.
fn act_of<'a>(sample: &'a [Act], expecting: &'a Act, count: u32, at: usize) -> &'a Act
    requires few { count ≤ MOST_LOAD }
    requires sample { sample.now ≡ load_acts PERIOD }
    requires expecting { expecting.now ≡ Auto 1 count }
    requires inside { at < length (load_acts count) }
    ensures { result.now ≡ get_or (load_acts count) at result.now }
{
    let period = PERIOD as usize;
    let count = count as usize;
    if at == 0 {
        &sample[0]
    } else if at < AUTOS {
        expecting
    } else if at < AUTOS + count {
        &sample[AUTOS + (at - AUTOS) % period]
    } else {
        &sample[AUTOS + period + (at - AUTOS - count) % 2]
    }
}

/// Plays the scenario of a load of `count` frames, as `play` does, but holds no list of its acts.
/// The lines are those of a record of version 2.
pub fn play_load<L: Listener>(alloc: Global, count: u32, listener: &mut L) -> Result<(), Stopped>
    requires some { 1 ≤ count }
    requires few { count ≤ MOST_LOAD }
    requires silent { L.received listener.old listener.old [] }
    ensures received { OnOk result (L.received listener.old listener.new
        (recorded_in (load_world count) 2 (history (load_world count)))) }
    ensures stopped { IfErr result (λ why. why ≡ HasEnough →
        StopsWithin (load_world count) 2 (L.stopped_after listener.old listener.new)) }
{
    let sample = load(alloc, PERIOD)?;
    let mut simulator = Simulator::new(alloc, &sample, VERSION)?;
    let expecting = Act::Auto {
        peer: 1,
        expect: u64::from(count),
    };
    for at in 0..act_count(count) {
        let act = act_of(sample.acts.items(), &expecting, count, at);
        play_act(&mut simulator, listener, act)?;
    }
    let last = simulator.lines();
    listener.take_lines(last)?;
    Ok(())
}
