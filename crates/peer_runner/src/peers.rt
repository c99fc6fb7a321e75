//! The peers of a scenario, each in a thread of its own.
ghost use Rattle.std.specs.Prelude.{◌≡◌, ◌++◌, ◌∷◌, [], ◌<◌, ◌≤◌, ◌+◌, None, List, replicate, map, IfOk, OnOk};
ghost use Rattle.std.specs.Thread.{IsSync};
ghost use Rattle.scenario_text.specs.Running.{not_running};
ghost use Rattle.scenario_text.specs.Spelling.{world_of};
ghost use Rattle.record_text.specs.OwnParts.{part_of};
ghost use Rattle.record_text.specs.Parts.{peers_of, running_peers};
ghost use Rattle.shared_words.specs.RunSetups.{IsMadeFor};
ghost use Rattle.shared_words.specs.Actions.{Action};
ghost use Rattle.shared_words.specs.DerivedStates.{CallAccess, MemoryOp};
ghost use Rattle.shared_words.specs.Passes.{IsPassOf, IsWhole, IsUnused, held};
ghost use Rattle.peer_runner.specs.Drives.{IsPlanFor, RanOne, RanRange, BothOk};
ghost use Rattle.peer_runner.specs.RunningRecord.{IsRunOf};

use crate::driving::{PeerPlan, drive};
use crate::gate::Gate;
use crate::plans::plan_of;
use ivs_base::NoMemory;
use record_text::{OwnTrace, OwnTraces, RunTrace};
use scenario_text::Scenario;
use shared_words::{Pass, Words, join_pass, learn, split_pass};
use std::alloc::Global;
use std::thread::{Threads, join};

/// Consecutive peers.
#[derive(Clone, Copy, Debug)]
struct PeerRange {
    /// The first of them.
    from: u32,
    /// Their number.
    count: u32,
}

/// The plan of a peer, if the peer has a turn line. If an allocation fails, the peer takes no turn,
/// and the gate's `ended` is called.
fn plan_for<G: Gate>(
    alloc: Global,
    scenario: &Scenario,
    me: u32,
    gate: &G,
) -> Result<Option<PeerPlan>, NoMemory>
    requires there { me < scenario.now.geometry.peers }
    requires running { not_running (world_of scenario.now) ≡ None }
    ensures { IfOk result (IsPlanFor (world_of scenario.now) me) }
{
    let plan = plan_of(alloc, scenario, me);
    if plan.is_err() {
        gate.ended(me);
    }
    plan
}

/// Runs one peer, if the peer has a turn line. Returns its trace, or none.
fn run_one<G: Gate>(
    alloc: Global,
    words: &Words,
    pass: &mut Pass,
    scenario: &Scenario,
    me: u32,
    gate: &G,
) -> Result<Vec<OwnTrace>, NoMemory>
    requires running { not_running (world_of scenario.now) ≡ None }
    requires made { IsMadeFor (world_of scenario.now) words.now.shared.key }
    requires of { IsPassOf words.now.shared.table_id words.now.shared.key pass.old }
    requires alone { (pass.old.from ≡ me) × (pass.old.lists ≡ [] ∷ []) }
    ensures { (list : List (Action (MemoryOp CallAccess))) × (pass.new ≡ held pass.old.table_id me (list ∷ []))
        × IfOk result (λ traces. RanOne (world_of scenario.now) words.now.shared.key me list traces.items) }
{
    let Some(plan) = plan_for(alloc, scenario, me, gate)? else {
        return Ok(Vec::new(alloc));
    };
    let trace = drive(alloc, words, pass, plan, gate)?;
    let mut traces = Vec::new(alloc);
    traces.push(trace)?;
    Ok(traces)
}

/// Runs a range of peers, each in a thread of its own, by joins in halves. Returns the pass too.
fn run_range<R: Threads + Sync, G: Gate + Sync>(
    rt: &R,
    alloc: Global,
    words: &Words,
    mut pass: Pass,
    scenario: &Scenario,
    range: PeerRange,
    gate: &G,
) -> (Result<Vec<OwnTrace>, NoMemory>, Pass)
    requires running { not_running (world_of scenario.now) ≡ None }
    requires made { IsMadeFor (world_of scenario.now) words.now.shared.key }
    requires of { IsPassOf words.now.shared.table_id words.now.shared.key pass }
    requires whole { (pass.from ≡ range.from) × (pass.lists ≡ replicate range.count []) }
    ensures { RanRange (world_of scenario.now) words.now.shared.key range.from range.count
        pass.table_id result.1 (λ traces. traces.items) result.0 }
{
    let PeerRange { from, count } = range;
    if count == 0 {
        return (Ok(Vec::new(alloc)), pass);
    }
    if count == 1 {
        let traces = run_one(alloc, words, &mut pass, scenario, from, gate);
        return (traces, pass);
    }
    let half = count / 2;
    let middle = from + half;
    let rest = count - half;
    let upper = split_pass(words, &mut pass, middle);
    let ((first, mut lower), (second, upper)) = join(
        rt,
        move || -> (Result<Vec<OwnTrace>, NoMemory>, Pass)
            requires sync { IsSync R.row × IsSync G.row }
            requires running { not_running (world_of scenario.now) ≡ None }
            requires made { IsMadeFor (world_of scenario.now) words.now.shared.key }
            requires of { IsPassOf words.now.shared.table_id words.now.shared.key pass }
            requires whole { (pass.from ≡ from) × (pass.lists ≡ replicate half []) }
            ensures { RanRange (world_of scenario.entry.now) words.entry.now.shared.key from half
                pass.table_id result.1 (λ traces. traces.items) result.0 }
        {
            let range = PeerRange { from, count: half };
            run_range(rt, alloc, words, pass, scenario, range, gate)
        },
        move || -> (Result<Vec<OwnTrace>, NoMemory>, Pass)
            requires sync { IsSync R.row × IsSync G.row }
            requires running { not_running (world_of scenario.now) ≡ None }
            requires made { IsMadeFor (world_of scenario.now) words.now.shared.key }
            requires of { IsPassOf words.now.shared.table_id words.now.shared.key upper }
            requires whole { (upper.from ≡ middle) × (upper.lists ≡ replicate rest []) }
            ensures { RanRange (world_of scenario.entry.now) words.entry.now.shared.key middle rest
                upper.table_id result.1 (λ traces. traces.items) result.0 }
        {
            let range = PeerRange {
                from: middle,
                count: rest,
            };
            run_range(rt, alloc, words, upper, scenario, range, gate)
        },
    );
    join_pass(words, &mut lower, upper);
    (append(first, second), lower)
}

/// The traces of both halves, in their order.
fn append(
    first: Result<Vec<OwnTrace>, NoMemory>,
    second: Result<Vec<OwnTrace>, NoMemory>,
) -> Result<Vec<OwnTrace>, NoMemory>
    ensures { IfOk result (λ all. BothOk first second (λ one two. all.items ≡ one.items ++ two.items)) }
{
    let mut all = first?;
    all.append(&mut second?)?;
    Ok(all)
}

/// The traces as an `OwnTraces`.
fn listed(alloc: Global, traces: Vec<OwnTrace>) -> Result<OwnTraces, NoMemory>
    ensures { IfOk result (λ list. list ≡ map part_of traces.items) }
{
    let mut list = OwnTraces::new(alloc);
    for trace in traces {
        list.push(trace)?;
    }
    Ok(list)
}

/// Runs the peers of a scenario that have a turn line, each in a thread of its own. Requires that
/// `words_for` made the words and the pass for this scenario, and that no access was made by the
/// pass. After the call the pass has all peers again, with the list of each peer's actions.
///
/// Returns `NoMemory` if an allocation fails in any thread. Also then the gate's `ended` is called
/// once for each peer that has a turn line.
// claim whole, scenario, run: After a run the pass has all peers again, and each running peer's
//    part is its own record, for its acts, with the list that the pass holds. A peer has at most as
//    many `i` lines for a vector as `d` lines to it. Two honest link peers never refused, and each
//    delivered in a session a beginning of what the other accepted in the session carried. In a
//    link with events no offer ended without a doorbell that the other asks for.
pub fn run_peers<R: Threads + Sync, G: Gate + Sync>(
    rt: &R,
    alloc: Global,
    words: &Words,
    pass: &mut Pass,
    scenario: Scenario,
    gate: &G,
) -> Result<RunTrace, NoMemory>
    requires running { not_running (world_of scenario) ≡ None }
    requires whole { IsWhole (world_of scenario) words.now.shared.table_id words.now.shared.key pass.old }
    requires unused { IsUnused words.now.shared.key pass.old }
    ensures whole { IsWhole (world_of scenario) words.now.shared.table_id words.now.shared.key pass.new }
    ensures scenario { IfOk result (λ trace. trace.scenario ≡ scenario) }
    ensures run { IfOk result (λ trace. IsRunOf (world_of scenario) pass.new trace.peers) }
{
    let all = split_pass(words, pass, 0);
    let peers = scenario.geometry.peers();
    let range = PeerRange {
        from: 0,
        count: peers,
    };
    let (traces, mut all) = run_range(rt, alloc, words, all, &scenario, range, gate);
    learn(words, &mut all);
    join_pass(words, pass, all);
    let peers = listed(alloc, traces?)?;
    Ok(RunTrace { scenario, peers })
}
