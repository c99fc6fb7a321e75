//! The parts of the tests of a line, and the act of a line.
ghost use Rattle.std.specs.Prelude.{◌≡◌, ◌<◌, slice_index, IfSome, IsTrue};
ghost use Rattle.line_format.specs.Forms.{AreInRange};
ghost use Rattle.section_map.specs.Faults.{shape_of};
ghost use Rattle.section_map.specs.Geometry.{word_count};
ghost use Rattle.scenario_text.specs.Acts.{peer_of};
ghost use Rattle.scenario_text.specs.Table.{pieces_of};
ghost use Rattle.scenario_text.specs.Scenario.{is_aligned, is_link, is_peer, is_hostile};
ghost use Rattle.scenario_text.specs.Judge.{world_of_draft, act_of, is_act};
ghost use Rattle.scenario_text.specs.Drafts.{draft_view};

use crate::acts::Act;
use crate::drafts::Draft;
use crate::forms::Form;
use ivs_base::Frame;
use line_format::{by_numbers, flag_at, number_at};

/// Whether `offset` is that of an aligned field of 1, 2 or 4 bytes.
pub fn is_aligned(offset: u64, width: u64) -> bool
    ensures { result ≡ is_aligned offset width }
{
    width == 1 || (width == 2 && offset % 2 == 0) || (width == 4 && offset % 4 == 0)
}

/// Returns the number of words of the region.
pub fn words(draft: &Draft) -> u64
    ensures { result ≡ word_count (shape_of draft.now.peers draft.now.table draft.now.common draft.now.out) }
{
    u64::from(draft.table / 4) + draft.common / 4 + u64::from(draft.peers) * (draft.out / 4)
}

pub fn is_peer(draft: &Draft, p: u64) -> bool
    ensures { result ≡ is_peer (world_of_draft (draft_view draft.now)) p }
{
    p < u64::from(draft.peers)
}

pub fn is_link(draft: &Draft, p: u64) -> bool
    ensures { result ≡ is_link (world_of_draft (draft_view draft.now)) p }
{
    p < 2 && flag_at(draft.honest.items(), p)
}

pub fn is_hostile(draft: &Draft, p: u64) -> bool
    ensures { result ≡ is_hostile (world_of_draft (draft_view draft.now)) p }
{
    is_peer(draft, p) && !flag_at(draft.honest.items(), p)
}

/// Returns the act of a line, if its form is that of an act.
pub fn act_of(form: Form, numbers: &[u64], frame: Frame) -> Option<Act>
    requires limits { AreInRange (pieces_of form) numbers.now }
    requires peer { IsTrue (is_act form) → slice_index numbers.now 0 < 8 }
    ensures value { result ≡ act_of form numbers.now frame }
    ensures peer { IfSome result (λ act. peer_of act < 8) }
{
    by_numbers!((form, numbers) Form => Act {
        Tick(peer: 0),
        Poll(peer: 0),
        Stop(peer: 0),
        Turn(peer: 0, steps: 1),
        Reset(peer: 0),
        Poke(peer: 0, word: 1, value: 2),
        Peek(peer: 0, word: 1),
        Set(peer: 0, value: 1),
        Ring(peer: 0, target: 1, vector: 2),
        MmioRead(peer: 0, offset: 1),
        MmioWrite(peer: 0, offset: 1, value: 2),
        MsixRead(peer: 0, offset: 1),
        MsixWrite(peer: 0, offset: 1, value: 2),
        Lose(peer: 0),
        Again(peer: 0, vector: 1),
    } else {
        Form::Offer => Some(Act::Offer {
            peer: number_at(numbers, 0) as u32,
            frame,
        }),
        Form::Auto => Some(Act::Auto {
            peer: number_at(numbers, 0) as u32,
            expect: number_at(numbers, 1),
        }),
        Form::Storm => Some(Act::Storm {
            peer: number_at(numbers, 0) as u32,
            seed: number_at(numbers, 1),
        }),
        Form::CfgRead => Some(Act::CfgRead {
            peer: number_at(numbers, 0) as u32,
            offset: number_at(numbers, 1) as u16,
            width: number_at(numbers, 2) as u16,
        }),
        Form::CfgWrite => Some(Act::CfgWrite {
            peer: number_at(numbers, 0) as u32,
            offset: number_at(numbers, 1) as u16,
            width: number_at(numbers, 2) as u16,
            value: number_at(numbers, 3) as u32,
        }),
        _ => None,
    })
}
