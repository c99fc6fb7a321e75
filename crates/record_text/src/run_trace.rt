//! A scenario and what its running peers did.
ghost use Rattle.std.specs.Prelude.{◌≡◌};
ghost use Rattle.record_text.specs.Parts.{peers_of, running_peers, peers-prop};
ghost use Rattle.scenario_text.specs.Spelling.{world_of};

use crate::own_traces::OwnTraces;
use scenario_text::Scenario;

/// A scenario and what each peer of it did that ran in a thread. There are just the ones that have
/// a spelling: there is one trace for each peer with a turn line, ascending.
#[derive(Debug, Drop)]
pub struct RunTrace {
    /// The scenario.
    pub scenario: Scenario,
    /// The actions of each running peer.
    pub peers: OwnTraces,
    pub ghost running: { peers_of peers ≡ running_peers (world_of scenario) } by { peers-prop _ _ },
}
