//! The reply to the input: a picture, or a refusal.
ghost use Rattle.std.specs.Prelude.{ℕ, ◌≡◌, ◌≤◌, List, IfOk};
ghost use Rattle.record_text.specs.Answers.{Refuses};
ghost use Rattle.record_text.specs.Judge.{answer};
ghost use Rattle.ivshm_chart.specs.Charts.{differing, IsMark, IsReply};
ghost use Rattle.ivshm_chart.specs.declared.words.Span.{Span};

use crate::fronts::{Front, front_of};
use crate::words::{Form, Kind};
use ivs_base::NoMemory;
use program_edge::{Refusal, Status, refusal_line};
use record_chart::{Picture, draw, draw_text, picture_of, picture_of_front};
use record_text::{RecordFault, Trace, parse};
use std::alloc::Global;
use trace_replay::{Verdict, replay_text};

/// A picture, and the line that it marks: the first one at which the record differs from the lawful
/// history.
#[derive(Debug, Drop)]
pub struct Drawn {
    pub picture: Picture,
    pub differs: Option<u64>,
}

/// The reply to the input: a status, a text, and the picture that the text shows.
#[derive(Drop)]
pub struct Reply {
    pub status: Status,
    pub text: Vec<u8>,
    pub drawn: Option<Drawn>,
}

/// Returns the reply to bytes that spell no record, by the fault of their text.
fn reply_to_fault(alloc: Global, fault: RecordFault) -> Result<Reply, NoMemory>
    ensures { (span : Span) (bytes : List ℕ) → Refuses fault (answer bytes) →
        IfOk result (λ reply. IsReply span bytes reply.status reply.text.items reply.drawn) }
{
    match fault {
        RecordFault::NoMemory => Err(NoMemory),
        fault => Ok(Reply {
            status: Status::Refused,
            text: refusal_line(alloc, Refusal::of_record(fault))?,
            drawn: None,
        }),
    }
}

/// Returns the line at which a record differs.
fn differing(verdict: Verdict) -> Option<u64>
    ensures { result ≡ differing verdict }
{
    match verdict {
        Verdict::Same => None,
        Verdict::Differs(fault) => Some(fault.line),
    }
}

/// Returns the reply that shows this picture. The record has `total` lines.
fn reply_with(
    alloc: Global,
    form: Form,
    trace: &Trace,
    total: u64,
    drawn: Drawn,
) -> Result<Reply, NoMemory>
    ensures { IfOk result (λ reply. (reply.status ≡ Status.Done) × (reply.drawn ≡ Some drawn)) }
{
    let first = form.span.first;
    let text = match form.kind {
        Kind::Svg => draw(alloc, trace, total, first, &drawn.picture, drawn.differs)?,
        Kind::Text => draw_text(alloc, trace, total, first, &drawn.picture, drawn.differs)?,
    };
    Ok(Reply {
        status: Status::Done,
        text,
        drawn: Some(drawn),
    })
}

/// Returns the reply to the input, by all lines of its record. `differs` is the line to be marked.
fn reply_to_whole(
    alloc: Global,
    form: Form,
    bytes: &[u8],
    differs: Option<u64>,
) -> Result<Reply, NoMemory>
    requires first { 1 ≤ form.span.first }
    requires mark { IsMark bytes.now differs }
    ensures { IfOk result (λ reply. IsReply form.span bytes.now reply.status reply.text.items reply.drawn) }
{
    match parse(alloc, bytes) {
        Ok(trace) => {
            let picture = picture_of(alloc, &trace, form.span.first, form.span.last)?;
            let total = trace.lines.items().len() as u64;
            reply_with(alloc, form, &trace, total, Drawn { picture, differs })
        }
        Err(fault) => reply_to_fault(alloc, fault),
    }
}

/// Returns the reply to a record, with the line to be marked. Its lines are read one by one, and
/// only the first ones are kept. If the picture needs more of them, for example for long runs that
/// are folded, all are kept.
fn reply_to_record(
    alloc: Global,
    form: Form,
    bytes: &[u8],
    differs: Option<u64>,
) -> Result<Reply, NoMemory>
    requires first { 1 ≤ form.span.first }
    requires mark { IsMark bytes.now differs }
    ensures { IfOk result (λ reply. IsReply form.span bytes.now reply.status reply.text.items reply.drawn) }
{
    let Front { trace, others } = match front_of(alloc, form.span.first, bytes) {
        Ok(front) => front,
        Err(fault) => return reply_to_fault(alloc, fault),
    };
    let found = picture_of_front(alloc, &trace, others, form.span.first, form.span.last)?;
    let Some(picture) = found else {
        return reply_to_whole(alloc, form, bytes, differs);
    };
    let total = (trace.lines.items().len() as u64).saturating_add(others);
    reply_with(alloc, form, &trace, total, Drawn { picture, differs })
}

/// Returns the reply to the input. The record is replayed first, for the line to be marked.
pub fn reply_to(alloc: Global, form: Form, bytes: &[u8]) -> Result<Reply, NoMemory>
    requires { 1 ≤ form.span.first }
    ensures { IfOk result (λ reply. IsReply form.span bytes.now reply.status reply.text.items reply.drawn) }
{
    match replay_text(alloc, bytes) {
        Ok(verdict) => reply_to_record(alloc, form, bytes, differing(verdict)),
        Err(fault) => reply_to_fault(alloc, fault),
    }
}
