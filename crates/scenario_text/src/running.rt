//! Whether each peer of a scenario can run in a thread of its own.
ghost use Rattle.std.specs.Prelude.{◌≡◌, ◌<◌, ◌++◌, [], ◌∷◌, ◌==◌, ◌&&◌, ℕ, List, false, slice_index_or, drop, if◌then◌else◌};
ghost use Rattle.scenario_text.specs.declared.acts.Act as acts;
ghost use Rattle.scenario_text.specs.Acts.{peer_of};
ghost use Rattle.scenario_text.specs.Running.{sets_device, breaks, not_running, FlagsAre, AreEnds};
ghost use Rattle.scenario_text.specs.Spelling.{world_of};

use crate::acts::Act;
use crate::ends::Ends;
use crate::scenarios::Scenario;
use crate::taking::mark;

/// The line number of the first act in a scenario without peers; each peer has a line before it.
const FIRST_LINE: u64 = 9;

/// The offset of Interrupt Control in the register page, in bytes.
const INTERRUPT_CONTROL: u32 = 0x08;

/// The kinds of acts before an act, for each peer.
#[derive(Drop)]
struct Before {
    /// The peers that choose their calls.
    autos: [bool; 8],
    /// The peers that are storms.
    storms: [bool; 8],
    /// The peers that have a turn line.
    turned: [bool; 8],
    /// The peers whose last turn or reset line is a reset.
    reset: [bool; 8],
    /// The peers whose devices are set by a line.
    set: [bool; 8],
}

/// Returns the flag of this peer, or false if the peer is not below 8.
fn flag(flags: &[bool; 8], peer: u32) -> bool
    ensures { result ≡ slice_index_or flags.now peer false }
{
    flags.get(peer as usize).copied().unwrap_or(false)
}

/// Sets the flag of the peer to `value` if `on` is set.
fn put(flags: &mut [bool; 8], peer: usize, on: bool, value: bool)
    requires { peer < 8 }
    ensures { (p : ℕ) →
        slice_index_or flags.new p false ≡ (if on && (peer == p) then value else slice_index_or flags.old p false) }
{
    if on {
        flags[peer] = value;
    }
}

impl Act {
    /// Whether the act configures how interrupts reach a peer: it writes the configuration space,
    /// the MSI-X region or Interrupt Control.
    // claim with Act::peer, Act::cost, Act::is_turn, Act::is_reset, Act::is_other: An act sets a
    //    device exactly if it writes a configuration space, an MSI-X region or Interrupt Control.
    //    Its peer, its cost in steps and its kind are those of the definition.
    pub fn sets_device(&self) -> bool
        ensures { result ≡ sets_device self.now }
    {
        match self {
            Act::CfgWrite { .. } | Act::MsixWrite { .. } => true,
            Act::MmioWrite { offset, .. } => *offset == INTERRUPT_CONTROL,
            _ => false,
        }
    }
}

impl Before {
    /// Returns the value before the first act.
    fn nothing() -> Before
        ensures { FlagsAre result [] }
    {
        Before {
            autos: [false; 8],
            storms: [false; 8],
            turned: [false; 8],
            reset: [false; 8],
            set: [false; 8],
        }
    }

    /// Whether the act breaks the form. It is act number `count`, and `ends` are the ends in all
    /// acts.
    fn is_broken_by(&self, act: &Act, ends: &Ends, count: usize) -> bool
        ensures { (before all : List acts.Act) → FlagsAre self.now before → AreEnds ends.now all →
            result ≡ breaks before act.now (drop count all) }
    {
        match act {
            Act::Auto { .. } | Act::Storm { .. } => false,
            Act::Offer { peer, .. } => !flag(&self.autos, *peer),
            Act::Turn { peer, .. } => {
                ends.has_other(count)
                    || (flag(&self.turned, *peer) && !flag(&self.reset, *peer))
                    || !(flag(&self.autos, *peer) || flag(&self.storms, *peer))
            }
            Act::Reset { peer } => {
                ends.has_other(count)
                    || !flag(&self.turned, *peer)
                    || (flag(&self.reset, *peer) && ends.has_turn(*peer, count))
                    || !(ends.has_turn(*peer, count) || ends.has_reset(*peer, count))
                    || flag(&self.set, *peer)
            }
            _ => !act.sets_device(),
        }
    }

    /// Adds an act.
    fn add(&mut self, act: &Act)
        requires { peer_of act.now < 8 }
        ensures { (said : List acts.Act) → FlagsAre self.old said → FlagsAre self.new (said ++ act.now ∷ []) }
    {
        let peer = act.peer() as usize;
        mark(&mut self.autos, peer, act.is_auto());
        mark(&mut self.storms, peer, act.is_storm());
        mark(&mut self.turned, peer, act.is_turn());
        put(&mut self.reset, peer, !act.is_other(), act.is_reset());
        mark(&mut self.set, peer, act.sets_device());
    }
}

/// Returns the first line that the running form doesn't allow (docs/FORMATS.md), or `None` if it
/// allows all lines.
// claim: `not_running` names the first line that the running form does not allow, or none; it never
//    answers NoMemory.
pub fn not_running(scenario: &Scenario) -> Option<u64>
    ensures { result ≡ not_running (world_of scenario.now) }
{
    let acts = scenario.acts.items();
    let ends = Ends::of(acts);
    let mut before = Before::nothing();
    for (k, act) in acts.iter().enumerate() {
        if before.is_broken_by(act, &ends, k + 1) {
            return Some(u64::from(scenario.geometry.peers()) + FIRST_LINE + k as u64);
        }
        before.add(act);
    }
    None
}
