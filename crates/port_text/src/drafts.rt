//! The value of the lines so far.
ghost use Rattle.std.specs.Prelude.{◌≡◌, ◌≤◌};
ghost use Rattle.section_map.specs.declared.limits.TheConstants.{LARGEST_REGION};
ghost use Rattle.port_text.specs.declared.limits.TheConstants.{MOST_TURNS};
ghost use Rattle.port_text.specs.Acts.{turns_of};

use crate::acts::Acts;
use crate::positions::Position;
use scenario_text::Flags;

/// A text of which a prefix of the lines was read. The default of a line that wasn't read is 0 or
/// empty. Sizes are in bytes.
#[derive(Drop)]
pub struct Draft {
    pub(crate) position: Position,
    pub(crate) peers: u32,
    pub(crate) out: u64,
    pub(crate) most: u32,
    pub(crate) honest: Flags,
    pub(crate) acts: Acts,
    /// The number that the acts count for.
    pub(crate) turns: u64,
    ghost few: { peers ≤ 8 },
    ghost section: { out ≤ LARGEST_REGION },
    ghost counted: { turns ≡ turns_of acts },
    ghost most_turns: { turns ≤ MOST_TURNS },
}
