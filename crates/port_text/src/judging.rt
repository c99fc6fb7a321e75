//! The parts of the tests of a line, and the act of a line.
ghost use Rattle.std.specs.Prelude.{◌≡◌, ◌<◌, slice_index, IsTrue};
ghost use Rattle.line_format.specs.Forms.{AreInRange};
ghost use Rattle.section_map.specs.Geometry.{word_count};
ghost use Rattle.scenario_text.specs.Sizes.{is_geometry};
ghost use Rattle.port_text.specs.Sizes.{ports_shape, has_port};
ghost use Rattle.port_text.specs.Table.{pieces_of};
ghost use Rattle.port_text.specs.Scenario.{is_honest, is_peer, is_hostile};
ghost use Rattle.port_text.specs.Judge.{world_of_draft, fits_sizes, act_of, is_act, is_sample};
ghost use Rattle.port_text.specs.Drafts.{draft_view};
ghost use Rattle.section_map.specs.declared.limits.TheConstants.{PAGE};

use crate::acts::{Act, Message};
use crate::drafts::Draft;
use crate::forms::Form;
use crate::limits::LONGEST_MESSAGE;
use line_format::{by_numbers, flag_at, number_at};
use section_map::{Geometry, PAGE};

/// The size of the region's State Table, in bytes: one page.
pub const TABLE: u32 = PAGE;

/// Returns the number of words of the region.
pub fn words(draft: &Draft) -> u64
    ensures { result ≡ word_count (ports_shape draft.now.peers draft.now.out) }
{
    u64::from(TABLE / 4) + u64::from(draft.peers) * (draft.out / 4)
}

pub fn is_peer(draft: &Draft, p: u64) -> bool
    ensures { result ≡ is_peer (world_of_draft (draft_view draft.now)) p }
{
    p < u64::from(draft.peers)
}

pub fn is_honest(draft: &Draft, p: u64) -> bool
    ensures { result ≡ is_honest (world_of_draft (draft_view draft.now)) p }
{
    is_peer(draft, p) && flag_at(draft.honest.items(), p)
}

pub fn is_hostile(draft: &Draft, p: u64) -> bool
    ensures { result ≡ is_hostile (world_of_draft (draft_view draft.now)) p }
{
    is_peer(draft, p) && !flag_at(draft.honest.items(), p)
}

/// Whether a region of these sizes exists.
fn is_geometry(peers: u32, out: u64) -> bool
    ensures { result ≡ is_geometry peers PAGE 0 out }
{
    Geometry::new(peers, TABLE, 0, out).is_ok()
}

/// Whether a section of `out` bytes has space for a port with messages of at most `most` bytes.
fn has_port(most: u32, out: u64) -> bool
    ensures { result ≡ has_port most out }
{
    most % 4 == 0 && 4 <= most && most <= LONGEST_MESSAGE && 4 * (3 + u64::from(most) / 2) <= out
}

/// Whether the sizes fit after a line `out` or `message`.
pub fn fits_sizes(draft: &Draft, form: Form, numbers: &[u64]) -> bool
    requires { AreInRange (pieces_of form) numbers.now }
    ensures { result ≡ fits_sizes (draft_view draft.now) form numbers.now }
{
    match form {
        Form::Out => is_geometry(draft.peers, number_at(numbers, 0)),
        Form::Longest => has_port(number_at(numbers, 0) as u32, draft.out),
        _ => true,
    }
}

/// Returns the act of a line, if its form is that of an act.
pub fn act_of(form: Form, numbers: &[u64], message: Message) -> Option<Act>
    requires limits { AreInRange (pieces_of form) numbers.now }
    requires peer { IsTrue (is_act form) → slice_index numbers.now 0 < 8 }
    requires from { IsTrue (is_sample form) → slice_index numbers.now 1 < 8 }
    ensures value { result ≡ act_of form numbers.now message }
{
    by_numbers!((form, numbers) Form => Act {
        Sample(peer: 0, from: 1),
        Turn(peer: 0, steps: 1),
        Poke(peer: 0, word: 1, value: 2),
    } else {
        Form::Publish => Some(Act::Publish {
            peer: number_at(numbers, 0) as u32,
            message,
        }),
        _ => None,
    })
}
