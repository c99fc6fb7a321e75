//! The explanation of what a form answers to bytes.
ghost use Rattle.std.specs.Prelude.{◌≡◌, ◌++◌, [], IfOk};
ghost use Rattle.program_edge.specs.Words.{IsInRange};
ghost use Rattle.ivshm_explain.specs.Places.{place_of};
ghost use Rattle.program_edge.specs.Refusals.{verdict_of};
ghost use Rattle.ivshm_explain.specs.Explained.{IsExplained, IsReply};

use crate::difference_text::difference_text;
use crate::fault_words::fault_words;
use crate::places::put_place;
use crate::verdicts::{Verdict, verdict_of};
use ivs_base::NoMemory;
use program_edge::{Command, Place, Reason, Refusal, Status};
use std::alloc::{AllocError, Global};

/// The output due to bytes that were read.
#[derive(Drop)]
pub struct Reply {
    pub status: Status,
    pub text: Vec<u8>,
}

/// The line that `ivshm` answers, the faulty place with its contents, and these words.
fn joined(
    alloc: Global,
    bytes: &[u8],
    refusal: Refusal,
    words: &[u8],
) -> Result<Vec<u8>, AllocError>
    ensures { IfOk result (λ text. text.items ≡ verdict_of refusal ++ place_of bytes.now refusal.place ++ words.now) }
{
    let mut text = refusal.verdict(alloc)?;
    put_place(alloc, &mut text, bytes, refusal.place)?;
    text.extend_from_slice(words)?;
    Ok(text)
}

/// The explanation of a refusal.
fn explained(
    alloc: Global,
    form: Command,
    bytes: &[u8],
    refusal: Refusal,
) -> Result<Vec<u8>, AllocError>
    ensures { IfOk result (λ text. IsExplained bytes.now refusal text.items) }
{
    let words = fault_words(alloc, form, bytes, refusal)?;
    let text = joined(alloc, bytes, refusal, words.as_bytes())?;
    Ok(text)
}

/// The explanation of bytes that are more than a form reads.
pub fn too_many(alloc: Global, form: Command) -> Result<Vec<u8>, AllocError>
    ensures { IfOk result
        (λ text. IsExplained [] (record { place = Place.Whole; reason = Reason.TooLong }) text.items) }
{
    let refusal = Refusal {
        place: Place::Whole,
        reason: Reason::TooLong,
    };
    explained(alloc, form, b"", refusal)
}

/// The explanation of bytes that the form accepts.
fn accepted(form: Command) -> &'static [u8] {
    match form {
        Command::Load(_) => b"`load` reads nothing, and is never refused\n",
        Command::Dump => b"nothing is wrong with this image\n",
        Command::Feed(_) => b"nothing is wrong with this capture file\n",
        _ => b"nothing is wrong with this text\n",
    }
}

/// The explanation of what the form answers to the bytes.
pub fn reply_to(alloc: Global, form: Command, bytes: &[u8]) -> Result<Reply, NoMemory>
    requires { IsInRange form }
    ensures { IfOk result (λ reply. IsReply form bytes.now reply.status reply.text.items) }
{
    match verdict_of(alloc, form, bytes)? {
        Verdict::Accepted => Ok(Reply {
            status: Status::Done,
            text: accepted(form).to_vec(alloc)?,
        }),
        Verdict::Refused(refusal) => Ok(Reply {
            status: Status::Refused,
            text: explained(alloc, form, bytes, refusal)?,
        }),
        Verdict::Differs(difference) => Ok(Reply {
            status: Status::Differs,
            text: difference_text(alloc, &difference)?,
        }),
    }
}
