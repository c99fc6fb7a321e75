//! The shared words, and the passes by which threads act on them.
ghost use Rattle.std.specs.Prelude.{◌≡◌, ◌<◌, ◌≤◌, ◌+◌, ◌++◌, ◌∷◌, [], None, IfOk, OnOk, length};
ghost use Rattle.scenario_text.specs.Running.{not_running};
ghost use Rattle.scenario_text.specs.Spelling.{world_of};
ghost use Rattle.shared_words.specs.RunSetups.{IsFit};
ghost use Rattle.shared_words.specs.Interrupts.{one_if, words_at_start};
ghost use Rattle.shared_words.specs.Rules.{lower, upper, learns, LearnsExactly, IsLearned};
ghost use Rattle.shared_words.specs.Passes.{IsPassOf, IsWhole, IsUnused, lower_pass, upper_pass, join_passes};

use crate::routes::routes_of;
use crate::rule::{Both, Rule};
use crate::run_setup::RunSetup;
use crate::view::View;
use atomic_table::{Play, Seat, Split, Table};
use ivs_base::NoMemory;
use link_invariant::{honest_ends_agree, runs_keep_the_invariant};
use pair_sessions::sessions_are_paired;
use scenario_text::Scenario;
use std::alloc::Global;
use std::marker::{Brand, Model};

/// The words that threads share, under the rule of running peers: those of a region, then those for
/// interrupts, then those for sessions.
pub type Words = Table<u8, View, RunSetup, Rule, Global>;

/// A pass for the words. Its model is a range of peers, with the list of each peer's actions.
#[derive(Drop)]
pub struct Pass {
    pub(crate) seat: Seat<u8, View>,
}

impl Model for Pass {
    ghost use Rattle.std.specs.Prelude.{◌≡◌, []};
    ghost use Rattle.shared_words.specs.PassView.{PassView};

    ghost Value = { PassView };

    ghost view = { λ p. record { table_id = p.seat.table_id; from = p.seat.me.0.from; lists = p.seat.me.0.lists } };

    ghost invariant = { λ p. p.seat.me.1 ≡ [] };
}

/// Appends the interrupt words of one more peer.
fn push_words(words: &mut Vec<u64>, enabled: bool) -> Result<(), NoMemory>
    ensures { OnOk result (words.new.items ≡ words.old.items ++ 0 ∷ one_if enabled ∷ []) }
{
    words.push(0)?;
    words.push(u64::from(enabled))?;
    Ok(())
}

/// The words of the region, then the interrupt words of each peer, then the two session words.
fn first_words(alloc: Global, key: &RunSetup) -> Result<Vec<u64>, NoMemory>
    requires { IsFit key.now }
    ensures { IfOk result (λ v. v.items ≡ words_at_start key.now) }
{
    let mut words = Vec::from_elem(alloc, 0u64, key.geometry.words() as usize)?;
    for peer in 0..key.geometry.peers() {
        push_words(&mut words, key.enabled[peer as usize])?;
    }
    words.push(0)?;
    words.push(0)?;
    Ok(words)
}

/// Returns the words at their start, and one pass with all peers and empty lists. Each word is 0
/// except the words of Interrupt Control, which are as the scenario's acts leave them.
///
/// Returns `NoMemory` if an allocation fails.
// claim whole, unused: The words of a scenario are the region's, all 0, then each peer's interrupt
//    word, which is 0, and its Interrupt Control, as the scenario's acts left it, then two session
//    words, which are 0. One pass has all peers, with empty lists.
pub fn words_for(alloc: Global, scenario: &Scenario) -> Result<(Words, Pass), NoMemory>
    requires running { not_running (world_of scenario.now) ≡ None }
    ensures whole { IfOk result (λ r. IsWhole (world_of scenario.now) r.0.shared.table_id r.0.shared.key r.1) }
    ensures unused { IfOk result (λ r. IsUnused r.0.shared.key r.1) }
{
    let routes = routes_of(scenario);
    let key = RunSetup::of(scenario, routes.as_slice());
    let first = first_words(alloc, &key)?;
    let (table, seat): (Words, Seat<u8, View>) = Table::of_words(alloc, first.as_slice(), &key)?;
    Ok((table, Pass { seat }))
}

/// `split_pass`, by a cut that the caller picks.
fn split_at<M: Split<View>>(words: &Words, pass: &mut Pass, from: u32) -> Pass
    requires cut { (M.left ≡ lower from) × (M.right ≡ upper from) }
    requires of { IsPassOf words.now.shared.table_id words.now.shared.key pass.old }
    requires inside { (pass.old.from ≤ from) × (from ≤ pass.old.from + length pass.old.lists) }
    ensures left { pass.new ≡ lower_pass from pass.old }
    ensures right { result ≡ upper_pass from pass.old }
{
    Pass {
        seat: words.shared.split_seat::<M>(&mut pass.seat),
    }
}

/// Returns a pass with the peers of the range from `from` on, and their lists. The others stay in
/// `pass`.
// claim left, right with join_pass: A pass is split and joined with its lists: nothing is lost and
//    nothing is doubled.
pub fn split_pass(words: &Words, pass: &mut Pass, from: u32) -> Pass
    requires of { IsPassOf words.now.shared.table_id words.now.shared.key pass.old }
    requires inside { (pass.old.from ≤ from) × (from ≤ pass.old.from + length pass.old.lists) }
    ensures left { pass.new ≡ lower_pass from pass.old }
    ensures right { result ≡ upper_pass from pass.old }
{
    split_at::<Brand>(words, pass, from)
}

/// Adds the peers and lists of the other pass.
pub fn join_pass(words: &Words, pass: &mut Pass, other: Pass)
    requires own { IsPassOf words.now.shared.table_id words.now.shared.key pass.old }
    requires of { IsPassOf words.now.shared.table_id words.now.shared.key other ×
        (other.from ≡ pass.old.from + length pass.old.lists) }
    ensures { pass.new ≡ join_passes pass.old other }
{
    let Pass { seat } = other;
    words.shared.join_seat::<Both>(&mut pass.seat, seat);
}

/// `learn`, by a play that the caller picks: a load that adds no action.
fn learn_by<M: Play<u8, View>>(words: &Words, pass: &mut Pass)
    requires reports { LearnsExactly M.then (learns words.now.shared.key) }
    requires of { IsPassOf words.now.shared.table_id words.now.shared.key pass.old }
    ensures same { pass.new ≡ pass.old }
    ensures learned { IsLearned words.now.shared.key pass.old.from pass.old.lists }
{
    runs_keep_the_invariant();
    sessions_are_paired();
    honest_ends_agree();
    words.shared.load::<M>(&mut pass.seat, 0);
}

/// Proves the rule's facts of the lists, if the pass has all peers. The pass is unchanged.
///
/// - Two honest peers: their sessions are paired, neither refuses, and a requested doorbell is
///   rung.
/// - An honest peer opposite a hostile one: its sessions carry none.
/// - All peers: each interrupt that is found was rung.
// claim same, learned: From the lists of all peers the rule follows, and the pass stays. Of two
//    honest peers: their sessions are paired, neither refuses, and in a link with events no offer
//    ended without a doorbell that the other's event word asks for. Next to a hostile peer,
//    sessions carry none. No interrupt is found that was not rung.
pub fn learn(words: &Words, pass: &mut Pass)
    requires of { IsPassOf words.now.shared.table_id words.now.shared.key pass.old }
    ensures same { pass.new ≡ pass.old }
    ensures learned { IsLearned words.now.shared.key pass.old.from pass.old.lists }
{
    learn_by::<Brand>(words, pass);
}
