//! The notes of a step.
ghost use Rattle.std.specs.Prelude.{◌≡◌, IfOk};
ghost use Rattle.lawful_history.specs.EventRecords.{mark_line};
ghost use Rattle.link_endpoint.specs.Engine.{offered, delivered};
ghost use Rattle.link_endpoint.specs.Refinement.{mark_between};

use ivs_base::{Frame, NoMemory};
use lawful_history::Line;
use link_endpoint::Endpoint;
use split_ring::steps::Note;
use std::alloc::Global;

/// Returns the line of a note of peer `me`, whose endpoint `end` completed the step. Returns
/// `NoMemory` if the allocation for the copy of a frame fails.
// claim: The line of a note is that of its mark, with the frame offered or delivered.
#[inline(always)]
pub fn line_of(alloc: Global, me: u32, end: &Endpoint, note: Note) -> Result<Line, NoMemory>
    ensures { IfOk result (λ line. line ≡ mark_line me (mark_between (offered end.now) (delivered end.now) note)) }
{
    Ok(match note {
        Note::Saw(value) => Line::Saw { peer: me, value },
        Note::Reclaim(count) => Line::Reclaim { peer: me, count },
        Note::Full => Line::Full { peer: me },
        Note::Accept => Line::Accept {
            peer: me,
            frame: Frame::of(alloc, end.offered())?,
        },
        Note::Look(count) => Line::Look { peer: me, count },
        Note::Deliver => Line::Deliver {
            peer: me,
            frame: Frame::of(alloc, end.delivered())?,
        },
        Note::Return => Line::Return { peer: me },
        Note::Done => Line::Done { peer: me },
        Note::Down => Line::Down { peer: me },
        Note::Refuse(refused) => Line::Refuse { peer: me, refused },
        Note::Over => Line::Over { peer: me },
    })
}
