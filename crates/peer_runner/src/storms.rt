//! A turn of a storm.
ghost use Rattle.std.specs.Prelude.{◌≡◌, ◌++◌, true, false, if◌then◌else◌, None, OnOk};
ghost use Rattle.step_lines.specs.Storms.{IsStormOf, IsDrawn};
ghost use Rattle.shared_words.specs.RunSetups.{world_in, honest_of};
ghost use Rattle.shared_words.specs.PeerRoutes.{AreRoutes};
ghost use Rattle.peer_runner.specs.DoorbellPaths.{is_guarded, doorbell_path_in};
ghost use Rattle.shared_words.specs.Rules.{front};
ghost use Rattle.peer_runner.specs.Turns.{lines_in};
ghost use Rattle.peer_runner.specs.Drives.{storm_in, storm_on};
ghost use Rattle.peer_runner.specs.Runners.{made, value_done, done_of, turn_of, drawn_lines, IsDone, awaits_ring, MayRingBy};
ghost use Rattle.shared_words.specs.Passes.{IsFirstIn};

use crate::bells::ring_turn;
use crate::doorbell_paths::Done;
use crate::notes::record_access;
use doorbell_irq::Route;
use ivs_base::NoMemory;
use lawful_history::Lines;
use shared_words::{Pass, Words, set_state, store};
use split_ring::steps::Access;
use std::marker::Brand;
use step_lines::Storm;

/// Makes the access of a step that a storm drew, or a part of its doorbell, as one turn does.
fn make(
    words: &Words,
    pass: &mut Pass,
    me: u32,
    routes: &[Route],
    access: Access,
    ringing: bool,
) -> Done
    requires of { IsFirstIn words.now.shared.table_id words.now.shared.key me pass.old }
    requires routes { AreRoutes words.now.shared.key routes.now }
    requires hostile { honest_of words.now.shared.key me ≡ false }
    requires drawn { IsDrawn (world_in words.now.shared.key) me access }
    requires rings { ringing ≡ true → MayRingBy routes.now access (front pass.old.lists) }
    ensures done { IsDone ringing (is_guarded (doorbell_path_in routes.now access)) result }
    ensures pass { pass.new ≡ made pass.old (done_of routes.now None access result) }
    ensures value { value_done result ≡ 0 }
    ensures rings { awaits_ring result ≡ true → MayRingBy routes.now access (front pass.new.lists) }
{
    match access {
        Access::Write(word, value) => {
            store::<Brand>(words, pass, word, value);
            Done::Stepped(0)
        }
        Access::State(state) => {
            set_state::<Brand>(words, pass, me, state);
            Done::Stepped(0)
        }
        Access::Ring { target, vector } => {
            ring_turn(words, pass, routes, target, vector, ringing)
        }
        Access::Read(_) | Access::Nothing => unreachable!(),
    }
}

/// Takes the next step of a storm, or the ring that is left of a doorbell. `ringing` says whether a
/// ring is left, before the turn and after it: until then the storm stays at its step.
///
/// Returns `NoMemory` if an allocation fails. Then the turn was taken, and its line may be missing.
pub fn take_step(
    words: &Words,
    pass: &mut Pass,
    routes: &[Route],
    storm: &mut Storm,
    ringing: &mut bool,
    lines: &mut Lines,
) -> Result<(), NoMemory>
    requires of { IsFirstIn words.now.shared.table_id words.now.shared.key storm.old.peer pass.old }
    requires routes { AreRoutes words.now.shared.key routes.now }
    requires hostile { honest_of words.now.shared.key storm.old.peer ≡ false }
    requires storm { IsStormOf (world_in words.now.shared.key) storm.old }
    requires rings { let step = storm_in words.now.shared.key storm.old.peer storm.old.at in
        ringing.old ≡ true → MayRingBy routes.now step.access (front pass.old.lists) }
    ensures { let step = storm_in words.now.shared.key storm.old.peer storm.old.at in
        (done : Done) × IsDone ringing.old (is_guarded (doorbell_path_in routes.now step.access)) done × (value_done done ≡ 0)
        × (pass.new ≡ made pass.old (done_of routes.now None step.access done))
        × (storm.new ≡ record storm.old { at = storm_on storm.old.at done }) × (ringing.new ≡ awaits_ring done)
        × (awaits_ring done ≡ true → MayRingBy routes.now step.access (front pass.new.lists))
        × OnOk result (lines.new ≡ lines.old ++ lines_in storm.old.peer (turn_of true 0 None step done)) }
{
    let me = storm.peer;
    let mut ahead = *storm;
    let access = ahead.step();
    let done = make(words, pass, me, routes, access, *ringing);
    *ringing = done.awaits_ring();
    *storm = after(storm, ahead, done);
    record_storm_write(me, access, done, lines)
}

/// The storm after a turn: at its next step if this one is done.
fn after(storm: &Storm, ahead: Storm, done: Done) -> Storm
    ensures { result ≡ (if awaits_ring done then storm.now else ahead) }
{
    if done.awaits_ring() { *storm } else { ahead }
}

/// Records the line of a storm's step. A doorbell is recorded at its clear, so its ring adds no
/// line.
fn record_storm_write(
    me: u32,
    access: Access,
    done: Done,
    lines: &mut Lines,
) -> Result<(), NoMemory>
    ensures { OnOk result (lines.new ≡ lines.old ++ drawn_lines me access done) }
{
    match done {
        Done::Stepped(_) | Done::Cleared(_) => record_access(me, access, 0, lines),
        Done::Rung => Ok(()),
    }
}
