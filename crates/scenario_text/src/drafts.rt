//! The value of the lines so far.
ghost use Rattle.std.specs.Prelude.{◌≡◌, ◌≤◌, ◌<◌, ℕ, Some, slice_index_or, false};
ghost use Rattle.section_map.specs.declared.limits.TheConstants.{LARGEST_REGION};
ghost use Rattle.section_map.specs.Faults.{shape_of};
ghost use Rattle.split_ring.specs.Layout.{IsVersion};
ghost use Rattle.scenario_text.specs.declared.limits.TheConstants.{MOST_ACTS};
ghost use Rattle.scenario_text.specs.Acts.{turns_of, has_auto, has_storm, has_call};
ghost use Rattle.scenario_text.specs.Judge.{ordinal_of};

use crate::acts::{Acts, Flags};
use crate::positions::Position;
use pci_space::Wiring;
use section_map::Geometry;
use split_ring::Queue;

/// A scenario of which a prefix of the lines was read. The default of a line that wasn't read is
/// version 1, 0, none, INTx or empty. Sizes are in bytes.
#[derive(Drop)]
pub struct Draft {
    pub(crate) position: Position,
    pub(crate) version: u32,
    pub(crate) peers: u32,
    pub(crate) table: u32,
    pub(crate) common: u64,
    pub(crate) out: u64,
    pub(crate) mtu: u32,
    /// The geometry of the sizes up to the `out` line.
    pub(crate) geometry: Option<Geometry>,
    /// The queue of the sizes up to the `mtu` line.
    pub(crate) queue: Option<Queue>,
    pub(crate) wiring: Wiring,
    pub(crate) honest: Flags,
    pub(crate) acts: Acts,
    /// The number that the acts count for.
    pub(crate) turns: u64,
    /// The peers that choose their calls.
    pub(crate) autos: [bool; 8],
    /// The peers that are storms.
    pub(crate) storms: [bool; 8],
    /// The peers that have call lines.
    pub(crate) called: [bool; 8],
    ghost known: { IsVersion version },
    ghost few: { peers ≤ 8 },
    ghost section: { out ≤ LARGEST_REGION },
    ghost region: { 4 < ordinal_of position → geometry ≡ Some (shape_of peers table common out) },
    ghost ring: { 5 < ordinal_of position → queue ≡ Some (record { version = version; out = out; mtu = mtu }) },
    ghost counted: { turns ≡ turns_of acts },
    ghost most: { turns ≤ MOST_ACTS },
    ghost autos_of: { (p : ℕ) → slice_index_or autos p false ≡ has_auto acts p },
    ghost storms_of: { (p : ℕ) → slice_index_or storms p false ≡ has_storm acts p },
    ghost calls_of: { (p : ℕ) → slice_index_or called p false ≡ has_call acts p },
}
